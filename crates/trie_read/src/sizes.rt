// The sizes of specs/Sizes.antt, under the same names.
use buffer::sizes::REFERENCE_SIZE;

pub const HEAD_SIZE: usize = 1 + 2 + 4;

// Where a head has the length of the node's body.
pub const BODY_LENGTH_AT: usize = 3;

pub const SUFFIX_SIZE: usize = 2 + REFERENCE_SIZE;

pub const LEAF_SIZE: usize = HEAD_SIZE + SUFFIX_SIZE;
