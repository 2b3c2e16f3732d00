// Adding a key to a trie in place, by document 01's rule of additions.
#![tactic(auto)]

pub mod add;
pub mod split;
