// Searching tries: which nodes a search enters, how many, and the rows that it finds.
#![tactic(auto)]

pub mod query;
pub mod step;
pub mod walk;
