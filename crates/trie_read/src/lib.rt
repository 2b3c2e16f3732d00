// Reading tries in the store's own bytes. A node, as specs of trie_theory, Encode, has it for two dimensions:
//
//   kind (1 V, 2 path, 0 leaf) | v | p | body length, 4 bytes | v value bytes | p path bytes | body
#![tactic(auto)]

pub mod beyond;
pub mod head;
pub mod kind;
pub mod lookup;
pub mod node_place;
pub mod place;
pub mod sizes;
pub mod strings;
pub mod suffix;
pub mod suffixes;
