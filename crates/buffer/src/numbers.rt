// Numbers in a slice, highest byte first. Of two widths, and not generic: four functions of one line are shorter than a trait and its two impls.
// The first law that each names proves it; by the others it is also proved written out in digits or halves, as must-fail/ has it.
ghost use Rattle.std.specs.Prelude.{◌≡◌, ◌+◌, ◌≤◌, length};
ghost use Rattle.buffer.specs.Splice.{splice, region};
ghost use Rattle.buffer.specs.Numbers.{bytes_of, number};

use crate::moves::copy_from;

// The number in the 4 bytes from `at` on.
#[tactic(auto, using(crate::proofs::Digits::four_read, crate::proofs::Digits::four_digits, crate::proofs::Digits::number_4))]
pub fn get32(s: &[u8], at: usize) -> u32
    requires { at + 4 ≤ length s.now }
    ensures { result ≡ number (region s.now at 4) }
{
    let end = at + 4;
    u32::from_be_bytes(s[at..end].try_into().unwrap())
}

// The number in the 8 bytes from `at` on.
#[tactic(auto, using(crate::proofs::Digits::eight_read, crate::proofs::Digits::number_8))]
pub fn get64(s: &[u8], at: usize) -> u64
    requires { at + 8 ≤ length s.now }
    ensures { result ≡ number (region s.now at 8) }
{
    let end = at + 8;
    u64::from_be_bytes(s[at..end].try_into().unwrap())
}

// Writes `x` in 4 bytes from `at` on.
#[tactic(auto, using(crate::proofs::Digits::four_written, crate::proofs::Digits::bytes_of_4, crate::proofs::Turns::set_4))]
pub fn put32(s: &mut [u8], at: usize, x: u32)
    requires { at + 4 ≤ length s.old }
    ensures { s.new ≡ splice s.old at (bytes_of 4 x) }
{
    copy_from(s, at, &u32::to_be_bytes(x));
}

// Writes `x` in 8 bytes from `at` on.
#[tactic(auto, using(crate::proofs::Digits::eight_written, crate::proofs::Digits::bytes_of_8, crate::proofs::Digits::length_bytes_of, crate::proofs::Splice::splice_then))]
pub fn put64(s: &mut [u8], at: usize, x: u64)
    requires { at + 8 ≤ length s.old }
    ensures { s.new ≡ splice s.old at (bytes_of 8 x) }
{
    copy_from(s, at, &u64::to_be_bytes(x));
}
