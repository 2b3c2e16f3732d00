// The sizes of specs/Sizes.antt, under the same names.

pub const VALUE_SIZE: usize = 8;

pub const REFERENCE_SIZE: usize = 20;

pub const PATH_LIMIT: usize = 200;

// Through an array on the stack: 32 and 128 measured slower, 2,048 somewhat faster.
pub(crate) const MOVE_BLOCK: usize = 512;
