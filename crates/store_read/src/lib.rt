// Reading a level of a store back.
#![tactic(auto)]

pub mod level;
pub mod listing;
