// An export for measuring crate `trie_build` from outside (bench/build). It tests what the callee requires and otherwise does nothing.
#![tactic(auto)]

use entries::SLOT_SIZE;

// The slots stand behind as many bytes, and the scratch stretch behind them.
#[unsafe(no_mangle)]
pub extern "C" fn bench_level(s: &mut [u8], n: usize, tau: usize) -> usize {
    if n > 1000000 {
        return 0;
    }
    let slots = n * SLOT_SIZE;
    let scratch = slots + slots;
    if s.len() < scratch + slots {
        return 0;
    }
    if trie_sets::positions::paths_are_short(&s[slots..scratch]) {
        return trie_build::build::build_level(s, 0, slots, scratch, n, tau);
    }
    0
}
