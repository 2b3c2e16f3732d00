// Writing nodes: the bytes before a body, a suffix, and a leaf with one suffix.
ghost use Rattle.std.specs.Prelude.{◌≡◌, ◌+◌, ◌≤◌, ◌<◌, [], ◌∷◌, length};
ghost use Rattle.buffer.specs.Splice.{splice};
ghost use Rattle.trie_theory.specs.Forest.{none};
ghost use Rattle.trie_theory.specs.SmallTrie.{new_leaf};
ghost use Rattle.trie_theory.specs.Encode.{encode, suffix_bytes};
ghost use Rattle.trie_read.specs.Sizes.{head_size, leaf_size};
ghost use Rattle.trie_read.specs.Shape.{key_of};
ghost use Rattle.trie_read.specs.Kinds.{byte_of_kind};
ghost use Rattle.trie_read.specs.Heads.{front};
ghost use Rattle.trie_write.specs.Keys.{spelled};

use crate::key::Key;
use buffer::moves::copy_from;
use buffer::numbers::put32;
use trie_read::kind::Kind;
use trie_read::sizes::{BODY_LENGTH_AT, HEAD_SIZE, SUFFIX_SIZE};

// The body of a new leaf: a suffix without strings.
const LEAF_BODY: u32 = SUFFIX_SIZE as u32;

// Writes the bytes of a node before its body of `size` bytes.
pub fn put_front(s: &mut [u8], at: usize, kind: Kind, value: &[u8], path: &[u8], size: u32)
    requires { (at + head_size + length value.now + length path.now ≤ length s.old) × (length value.now < 256) × (length path.now < 256) }
    ensures { s.new ≡ splice s.old at (front (byte_of_kind kind) (value.now ∷ path.now ∷ []) size) }
{
    let n = value.len();
    s[at] = u8::from(kind);
    s[at + 1] = n as u8;
    s[at + 2] = path.len() as u8;
    put32(s, at + BODY_LENGTH_AT, size);
    copy_from(s, at + HEAD_SIZE, value);
    copy_from(s, at + HEAD_SIZE + n, path);
}

// Writes a suffix. Three slices and no Key: the builder has them in a slot, and a reference of any length is written.
pub fn put_suffix(s: &mut [u8], at: usize, value: &[u8], path: &[u8], reference: &[u8])
    requires { (at + 2 + length reference.now + length value.now + length path.now ≤ length s.old) × (length value.now < 256) × (length path.now < 256) }
    ensures { s.new ≡ splice s.old at (suffix_bytes (key_of value.now path.now reference.now)) }
{
    let r = at + 2 + reference.len();
    s[at] = value.len() as u8;
    s[at + 1] = path.len() as u8;
    copy_from(s, at + 2, reference);
    copy_from(s, r, value);
    copy_from(s, r + value.len(), path);
}

// Writes a leaf with one suffix, all of whose bytes the leaf has.
pub fn put_leaf(s: &mut [u8], at: usize, key: &Key<'_>)
    requires { at + leaf_size + length key.now.value.now + length key.now.path.now ≤ length s.old }
    ensures { s.new ≡ splice s.old at (encode (new_leaf (spelled key.now) none)) }
{
    let body = at + HEAD_SIZE + key.size();
    put_front(s, at, Kind::Leaf, key.value, key.path, LEAF_BODY);
    let reference = key.reference; // a field is lent as a slice only from a variable
    put_suffix(s, body, &key.value[0..0], &key.path[0..0], reference);
}
