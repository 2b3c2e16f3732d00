// Entries as the layers above the tries see them: as keys, as rows in slots, and what a query asks of them. Definitions and laws, the slot, and what is known of a key.
#![tactic(auto)]

pub mod known;

// Rows stand this many bytes apart where a level is built: more than a row and an end byte.
pub const SLOT_SIZE: usize = 256;

// A row with zeros behind it.
pub type Slot = [u8; SLOT_SIZE];
