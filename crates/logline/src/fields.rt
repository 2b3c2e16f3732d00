// The fields of a line, of crate linefields.
pub use linefields::fields::{decimal, is_only, is_reference, reference, unhex};
