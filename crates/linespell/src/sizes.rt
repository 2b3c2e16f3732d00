// The sizes of specs/Sizes.antt, under the same names.
use linefields::sizes::REFERENCE_DIGITS;
use rows::sizes::PATH_LIMIT;

const DECIMAL_DIGITS: usize = 20;

pub const REPLY_LIMIT: usize = 2 + 3 * (DECIMAL_DIGITS + 1);

pub const ROW_LINE_LIMIT: usize = 2
    + (DECIMAL_DIGITS + 1)
    + (REFERENCE_DIGITS + 1)
    + (PATH_LIMIT + 1);
