// The lines of `fieldlog`: reading one as a command. Fields, spelling and the cutting of input into lines are crates of their own below,
// passed on here. Knows nothing of the store.
#![tactic(auto)]

pub mod command;
pub mod fields;
pub mod lines;
pub mod reader;
pub mod sizes;
pub mod spell;
