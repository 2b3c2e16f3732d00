// How many bytes a trie has at the beginning of its region: its root says so. A region without a trie is all zeros, and a node's body is never empty.
ghost use Rattle.std.specs.Prelude.{◌≡◌, ◌++◌, ℕ, ◌≤◌, length, replicate};
ghost use Rattle.trie_theory.specs.Forest.{Forest};
ghost use Rattle.trie_theory.specs.Dimensions.{root};
ghost use Rattle.trie_theory.specs.Sound.{Sound};
ghost use Rattle.trie_theory.specs.Encode.{Regular, encode};

use buffer::numbers::get32;
use trie_read::sizes::{BODY_LENGTH_AT, HEAD_SIZE};

// How many bytes the trie takes: those to the end of its root. Where no root stands within the region this is the empty trie, whose length is 0 by
// `value`, so an Option would say that length in a second way. Not by `first_node`: what that says of a forest is of bytes that are nothing else, and here
// zeros stand behind.
pub fn trie_length(t: &[u8]) -> usize
    ensures upper_bound { result ≤ length t.now }
    ensures value { (f : Forest) (n : ℕ) → Sound 2 root f → Regular 2 f → t.now ≡ encode f ++ replicate n 0 → result ≡ length (encode f) }
{
    if t.len() < HEAD_SIZE {
        return 0;
    }
    let body = get32(t, BODY_LENGTH_AT) as usize;
    if body == 0 {
        return 0;
    }
    let end = HEAD_SIZE + usize::from(t[1]) + usize::from(t[2]) + body;
    if end <= t.len() { end } else { 0 }
}
