// The sizes of specs/Sizes.antt, under the same names.
use buffer::sizes::REFERENCE_SIZE;

pub const REFERENCE_DIGITS: usize = 2 * REFERENCE_SIZE;
