// The bytes with a meaning of their own, the sizes, and the bytes of a label.
ghost use Rattle.std.specs.Prelude.{◌≡◌};
ghost use Rattle.matcher.specs.Bytes.{label_byte};

use crate::marks::LABEL_BYTES;

// `/` begins a label, `*` and `**` are wild, and END follows a path inside the index.
pub use glob::bytes::{SLASH, STAR};

pub const END: u8 = 0x00;

// The most bytes of a path, and of a pattern.
pub use buffer::sizes::PATH_LIMIT;

// The most labels of a pattern.
pub const PATTERN_LABEL_LIMIT: usize = 32;

// May a label of a path hold this byte? Callers know only the range rule, not the table.
pub fn label_byte(b: u8) -> bool
    ensures { result ≡ label_byte b }
{
    LABEL_BYTES[usize::from(b)]
}
