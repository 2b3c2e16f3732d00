// The fields of a line of `fieldlog`: numbers, references. Knows nothing of commands.
#![tactic(auto)]

pub mod fields;
pub mod sizes;
