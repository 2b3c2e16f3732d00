// Comparing strings of bytes.
ghost use Rattle.std.specs.Prelude.{◌≡◌, ◌≤◌, length, [], ◌∷◌};
ghost use Rattle.trie_theory.specs.Strings.{begins, common, first};
ghost use Rattle.trie_theory.specs.Dimensions.{branching};
ghost use Rattle.trie_read.specs.Shape.{above_of};

use crate::kind::Dimension;

// Stands for the byte of a string without bytes. It is above all bytes, since such a string comes last; an Option's None would come first. A number as in
// the theory's `first` and `branching`, which the contracts here and of `find`, `same_branch` and trie_add's `leaf_first` cite.
pub const NO_BYTE: u16 = 256;

// Does `s` begin with `p`? By a loop: the strings of a deep trie have a byte or none, and with `starts_with`, a call for each, a walk down 199 nodes took
// a third longer.
pub fn begins(p: &[u8], s: &[u8]) -> bool
    ensures { result ≡ begins p.now s.now }
{
    if s.len() < p.len() {
        return false;
    }
    for i in 0..p.len() {
        if p[i] != s[i] {
            return false;
        }
    }
    true
}

// How many bytes both begin with.
pub fn common_length(a: &[u8], b: &[u8]) -> usize
    ensures { (result ≡ length (common a.now b.now)) × (result ≤ length a.now) × (result ≤ length b.now) }
{
    a.iter().zip(b).take_while(|(x, y)| x == y).count()
}

// The first byte, or NO_BYTE.
pub fn first_byte(s: &[u8]) -> u16
    ensures { result ≡ first 0 (s.now ∷ []) }
{
    match s.first() {
        Some(byte) => u16::from(*byte),
        None => NO_BYTE,
    }
}

// The byte by which strings go below a node that branches in a dimension; NO_BYTE at the root, or where there is none.
pub fn branch_byte(above: Option<Dimension>, value: &[u8], path: &[u8]) -> u16
    ensures { result ≡ branching (above_of above) (value.now ∷ path.now ∷ []) }
{
    match above {
        Some(Dimension::Value) => first_byte(value),
        Some(Dimension::Path) => first_byte(path),
        Some(Dimension::Other(_)) => NO_BYTE,
        None => NO_BYTE,
    }
}
