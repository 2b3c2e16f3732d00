// Searching a store: all its tries, and the rows found, sorted, in the answer.
#![tactic(auto)]

pub mod query;
pub mod walk;
