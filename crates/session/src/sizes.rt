// The memory of `fieldlog`, and what a line can print at most.
use logline::sizes::{REPLY_LIMIT, ROW_LINE_LIMIT};

pub const STORE_SIZE: usize = 65536;

pub const ANSWER_SIZE: usize = 16384;

// Rows that the answer buffer has room for.
pub const ANSWER_ROWS: usize = 71;

pub const PRINT_LIMIT: usize = ANSWER_ROWS * ROW_LINE_LIMIT + REPLY_LIMIT;
