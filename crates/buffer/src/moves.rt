// Writers of a stretch of a slice.
ghost use Rattle.std.specs.Prelude.{◌≡◌, ◌+◌, ◌≤◌, length, replicate};
ghost use Rattle.buffer.specs.Sizes.{move_block};
ghost use Rattle.buffer.specs.Splice.{splice, region};

use crate::sizes::MOVE_BLOCK;

// Lays `src` over `s` from `at` on.
#[tactic(auto, using(crate::proofs::Splice::splice_part))]
pub fn copy_from(s: &mut [u8], at: usize, src: &[u8])
    requires { at + length src.now ≤ length s.old }
    ensures { s.new ≡ splice s.old at src.now }
{
    let end = at + src.len();
    s[at..end].copy_from_slice(src);
}

// Moves one block: it is read whole before it is written, so the two places may overlap either way.
fn move_block(s: &mut [u8], from: usize, to: usize)
    requires { (from + move_block ≤ length s.old) × (to + move_block ≤ length s.old) }
    ensures { s.new ≡ splice s.old to (region s.old from move_block) }
{
    let mut block = [0u8; MOVE_BLOCK];
    let end = from + MOVE_BLOCK;
    block.copy_from_slice(&s[from..end]);
    copy_from(s, to, &block);
}

// Moves `n` bytes towards the end, last block first and each block first byte first. std's `copy_within` goes downwards byte by byte there,
// and takes up to twice as long: wide stores that go downwards across cache lines are slow.
fn move_up(s: &mut [u8], from: usize, to: usize, n: usize)
    requires { (from ≤ to) × (to + n ≤ length s.old) }
    ensures { s.new ≡ splice s.old to (region s.old from n) }
{
    let rest = n % MOVE_BLOCK;
    for i in (0..n / MOVE_BLOCK).rev() {
        let at = rest + i * MOVE_BLOCK;
        move_block(s, from + at, to + at);
    }
    s.copy_within(from..from + rest, to);
}

// Moves the `n` bytes at `from` to `to`; the two stretches may overlap, either way round.
// The first law that it names proves it; by the others it is also proved in two parts, as must-fail/ has it.
#[tactic(auto, using(crate::proofs::Turns::copied_within, crate::proofs::Turns::down_parts, crate::proofs::Turns::up_parts))]
pub fn move_within(s: &mut [u8], from: usize, to: usize, n: usize)
    requires { (from + n ≤ length s.old) × (to + n ≤ length s.old) }
    ensures { s.new ≡ splice s.old to (region s.old from n) }
{
    if to <= from {
        s.copy_within(from..from + n, to);
    } else {
        move_up(s, from, to, n);
    }
}

// Writes `n` zeros from `at` on. Not by `fill`: that writes the last byte apart, and of few bytes it took up to 1.7 times as long.
pub fn clear(s: &mut [u8], at: usize, n: usize)
    requires { at + n ≤ length s.old }
    ensures { s.new ≡ splice s.old at (replicate n 0) }
{
    for i in 0..n {
        s[at + i] = 0;
    }
}
