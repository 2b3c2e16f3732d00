// Exports for measuring crate `trie_add` from outside (bench/tries). They test what the callee requires and otherwise do nothing.
#![tactic(auto)]

use rows::sizes::NODE_LIMIT;
use trie_add::add::{GROWTH_SIZE, add};
use trie_write::key::Key;

// Adds a key to the trie in the first `used` bytes, and returns by how many bytes it is longer.
#[unsafe(no_mangle)]
pub extern "C" fn bench_add(
    s: &mut [u8],
    used: usize,
    value: &[u8],
    path: &[u8],
    reference: &[u8],
) -> usize {
    if value.len() >= 256 {
        return 0;
    }
    if path.len() >= 256 {
        return 0;
    }
    let Some(reference) = reference.as_array() else {
        return 0;
    };
    if s.len() >= 4294967296 {
        return 0;
    }
    if s.len() < used {
        return 0;
    }
    if s.len() - used < GROWTH_SIZE + value.len() + path.len() {
        return 0;
    }
    let key = Key {
        value,
        path,
        reference,
    };
    add(s, 0, used, used, None, NODE_LIMIT, &key)
}
