// Cutting input into lines, however it arrives. Knows nothing of what a line says.
#![tactic(auto)]

pub mod lines;
pub mod sizes;
