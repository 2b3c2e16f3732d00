// The sizes of specs/Sizes.antt, under the same names.
pub use buffer::sizes::{REFERENCE_SIZE, VALUE_SIZE};
pub use matcher::bytes::PATH_LIMIT;

// A row: value, reference, path length, path with zeros to its limit. Where each begins:
pub const REFERENCE_AT: usize = VALUE_SIZE;

pub const LENGTH_AT: usize = REFERENCE_AT + REFERENCE_SIZE;

pub const PATH_AT: usize = LENGTH_AT + 1;

pub const ROW_SIZE: usize = PATH_AT + PATH_LIMIT;

// A path and its end byte.
pub const ENDED_LIMIT: usize = PATH_LIMIT + 1;

// A record of a level read back: row, number of nodes, three bytes a node.
pub const NODE_SIZE: usize = 3;

pub const NODE_LIMIT: usize = 1 + VALUE_SIZE + ENDED_LIMIT;

pub const RECORD_SIZE: usize = ROW_SIZE + 1 + NODE_SIZE * NODE_LIMIT;
