// The writers of `buffer`, exported for the harness in bench/buffer. Each tests what its callee requires and else does nothing.
#![tactic(auto)]

#[unsafe(no_mangle)]
pub extern "C" fn bench_copy(s: &mut [u8], at: usize, src: &[u8]) {
    if src.len() <= s.len() {
        if at <= s.len() - src.len() {
            buffer::moves::copy_from(s, at, src);
        }
    }
}

#[unsafe(no_mangle)]
pub extern "C" fn bench_move(s: &mut [u8], from: usize, to: usize, n: usize) {
    if n <= s.len() {
        let last = s.len() - n;
        if from <= last {
            if to <= last {
                buffer::moves::move_within(s, from, to, n);
            }
        }
    }
}

#[unsafe(no_mangle)]
pub extern "C" fn bench_clear(s: &mut [u8], at: usize, n: usize) {
    if n <= s.len() {
        if at <= s.len() - n {
            buffer::moves::clear(s, at, n);
        }
    }
}
