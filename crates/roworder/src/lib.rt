// Rows of entries and records that begin with one: their sizes and their order. Above `buffer`; it knows nothing of tries.
#![tactic(auto)]

pub mod order;
pub mod sizes;
