// What an addition does where it brings the small trie to M entries: the first empty level is built anew from all that lies below it.
#![tactic(auto)]

pub mod digits;
pub mod entry;
pub mod gathering;
pub mod merging;
pub mod overflow;
pub mod slots;
