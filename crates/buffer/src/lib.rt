// Bytes in one slice: moves, fills, and numbers highest byte first. The lowest crate; it knows nothing of rows or tries.
// Each writer leaves a splice of what was there (specs/Splice.antt), so a caller's proof chains equalities on the whole slice.
#![tactic(auto)]

pub mod moves;
pub mod numbers;
pub mod sizes;
