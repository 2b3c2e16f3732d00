// Cutting input into lines, of crate linecut.
pub use linecut::lines::{Begun, Cut, LineCutter};
