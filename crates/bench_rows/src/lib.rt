// Exports for measuring crate `rows` from outside (bench/rows). They test what the callee requires and otherwise do nothing.
#![tactic(auto)]

#[unsafe(no_mangle)]
pub extern "C" fn bench_sort(s: &mut [u8], n: usize, width: usize) {
    if width < rows::sizes::ROW_SIZE {
        return;
    }
    if s.len() / width < n {
        return;
    }
    rows::sort::sort(s, 0, n, width);
}
