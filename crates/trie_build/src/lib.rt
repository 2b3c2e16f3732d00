// The level builder: from slots that stand in one stretch of a slice it writes their trie into another (document 01, "Building a level").
#![tactic(auto)]

pub mod build;
