// The spelling of replies and rows as lines of `fieldlog`.
#![tactic(auto)]

pub mod sizes;
pub mod spell;
