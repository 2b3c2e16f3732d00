// The sizes of lines and of what is spelled, of the crates below.
pub use linecut::sizes::LINE_LIMIT;
pub use linefields::sizes::REFERENCE_DIGITS;
pub use linespell::sizes::{REPLY_LIMIT, ROW_LINE_LIMIT};
