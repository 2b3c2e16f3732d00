// Carrying out the lines of a field log, on memory lent to a Machine: what each prints, and what the store keeps.
#![tactic(auto)]

pub mod feed;
pub mod print;
pub mod run;
pub mod sizes;
