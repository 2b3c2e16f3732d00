// Sets of keys in slots: how a set is split, and its partition (document 01, "Building a level").
#![tactic(auto)]

pub mod partition;
pub mod positions;
