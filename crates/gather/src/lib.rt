// Every row of a trie, written as slots into the slice that has the trie; and the walk over the keys of tries that others take too.
#![tactic(auto)]

pub mod key;
pub mod keys;
pub mod known;
pub mod output;
pub mod walk;
pub mod way;
