// Writing tries into the store's own bytes: the parts of a node, and insertions that move on what stands behind them.
#![tactic(auto)]

pub mod insert;
pub mod key;
pub mod split;
pub mod write;
