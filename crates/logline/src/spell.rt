// The spelling of replies and rows, of crate linespell.
pub use linespell::spell::{spell_reply, spell_row};
