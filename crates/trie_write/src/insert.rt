// Insertions: what stands behind the place moves on, up to `used`, and the new bytes go into the room. `s` and `used` are no struct, which was tried here: each
// contract says two facts more of it (what is used then, and that the bytes are the same loan), and the count is returned all the same.
ghost use Rattle.std.specs.Prelude.{◌≡◌, ℕ, List, ◌+◌, ◌-◌, ◌≤◌, ◌++◌, length};
ghost use Rattle.buffer.specs.Splice.{splice, region};
ghost use Rattle.trie_theory.specs.Forest.{none, Key as TrieKey};
ghost use Rattle.trie_theory.specs.SmallTrie.{new_leaf};
ghost use Rattle.trie_theory.specs.Encode.{encode, suffix_bytes};
ghost use Rattle.trie_read.specs.Sizes.{suffix_size, leaf_size};
ghost use Rattle.trie_write.specs.Keys.{spelled};

use crate::key::Key;
use crate::write::{put_leaf, put_suffix};
use buffer::moves::{copy_from, move_within};
use trie_read::sizes::{LEAF_SIZE, SUFFIX_SIZE};

// What can be inserted for a key.
pub trait Part {
    ghost SIZE: { ℕ };

    ghost bytes: { TrieKey → List ℕ };

    // How many bytes it has beside those of the key's strings.
    const SIZE: usize;

    // Writes it.
    fn put(s: &mut [u8], at: usize, key: &Key<'_>)
        requires { at + SIZE + length key.now.value.now + length key.now.path.now ≤ length s.old }
        ensures s_after { s.new ≡ splice s.old at (bytes (spelled key.now)) }
        ensures long { length (bytes (spelled key.now)) ≡ SIZE + length key.now.value.now + length key.now.path.now };
}

// A leaf with all bytes of the key.
pub struct NewLeaf;

impl Part for NewLeaf {
    ghost SIZE = { leaf_size };

    ghost bytes = { λ x. encode (new_leaf x none) };

    const SIZE: usize = LEAF_SIZE;

    fn put(s: &mut [u8], at: usize, key: &Key<'_>) {
        put_leaf(s, at, key);
    }
}

// A suffix more.
pub struct NewSuffix;

impl Part for NewSuffix {
    ghost SIZE = { suffix_size };

    ghost bytes = { suffix_bytes };

    const SIZE: usize = SUFFIX_SIZE;

    fn put(s: &mut [u8], at: usize, key: &Key<'_>) {
        let reference = key.reference;
        put_suffix(s, at, key.value, key.path, reference);
    }
}

// Inserts it, and returns how many bytes it has.
pub fn insert<P: Part>(s: &mut [u8], at: usize, used: usize, key: &Key<'_>) -> usize
    requires { (at ≤ used) × (used + P.SIZE + length key.now.value.now + length key.now.path.now ≤ length s.old) }
    ensures value { result ≡ P.SIZE + length key.now.value.now + length key.now.path.now }
    ensures s_after { s.new ≡ splice s.old at (P.bytes (spelled key.now) ++ region s.old at (used - at)) }
{
    let n = P::SIZE + key.size();
    move_within(s, at, at + n, used - at);
    P::put(s, at, key);
    n
}

// A longer front for a node: `new` in the place of the bytes from `at` to `body`.
pub fn replace_front(s: &mut [u8], at: usize, body: usize, used: usize, new: &[u8])
    requires { (at ≤ body) × (body ≤ used) × (body ≤ at + length new.now) × (used + length new.now ≤ length s.old + (body - at)) × (used ≤ length s.old) }
    ensures { s.new ≡ splice s.old at (new.now ++ region s.old body (used - body)) }
{
    move_within(s, body, at + new.len(), used - body);
    copy_from(s, at, new);
}
