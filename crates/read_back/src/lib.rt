// Reading a trie back: a record of every key, with the nodes from the root to its leaf.
#![tactic(auto)]

pub mod record;
pub mod walk;
