// Looking an entry up by walking down with its bytes. There is no recursion: at each node the walk goes on among the children or among
// the later siblings, and what is left of the trie is shorter.
ghost use Rattle.std.specs.Prelude.{◌≡◌, [], ◌∷◌};
ghost use Rattle.trie_theory.specs.Forest.{Forest};
ghost use Rattle.trie_theory.specs.Strings.{all_begin};
ghost use Rattle.trie_theory.specs.Dimensions.{root};
ghost use Rattle.trie_theory.specs.SmallTrie.{meets};
ghost use Rattle.trie_theory.specs.Lookup.{member};
ghost use Rattle.trie_theory.specs.Encode.{Regular, encode};
ghost use Rattle.trie_read.specs.Shape.{key_of, above_of};

use crate::head::first_node;
use crate::kind::{Dimension, Kind};
use crate::strings::{begins, branch_byte};
use crate::suffixes::has_suffix;

// Does the key have the node's branching byte? `above` is how the node above branches, None at the root.
pub fn same_branch(
    above: Option<Dimension>,
    nv: &[u8],
    np: &[u8],
    value: &[u8],
    path: &[u8],
) -> bool
    ensures { result ≡ meets (above_of above) (nv.now ∷ np.now ∷ []) (value.now ∷ path.now ∷ []) }
{
    branch_byte(above, nv, np) == branch_byte(above, value, path)
}

// Does the key begin with the node's strings?
pub fn agrees(nv: &[u8], np: &[u8], value: &[u8], path: &[u8]) -> bool
    ensures { result ≡ all_begin (nv.now ∷ np.now ∷ []) (value.now ∷ path.now ∷ []) }
{
    begins(nv, value) && begins(np, path)
}

// Does the entry stand in the tries of these bytes? On bytes that are no trie's it returns all the same. No `for` over `Nodes`: it goes down too, and
// is then among the children. Three slices and no Key of trie_write, whose
// strings are at most 255 bytes: here any strings may be asked for.
pub fn contains(tries: &[u8], value: &[u8], path: &[u8], reference: &[u8]) -> bool
    ensures { (f : Forest) → Regular 2 f → tries.now ≡ encode f → result ≡ member root f (key_of value.now path.now reference.now) }
{
    let mut t = tries;
    let mut v = value;
    let mut p = path;
    let mut above = None;
    while let Some(node) = first_node(t) {
        if !same_branch(above, node.value, node.path, v, p) {
            t = node.rest;
            continue;
        }
        if !agrees(node.value, node.path, v, p) {
            return false;
        }
        v = &v[node.value.len()..];
        p = &p[node.path.len()..];
        match node.kind() {
            Kind::Leaf => return has_suffix(node.body, v, p, reference),
            Kind::Inner(dimension) => above = Some(dimension),
        }
        t = node.body;
    }
    false
}
