// Patterns and paths: which are formed, which paths match a pattern, and whether the first bytes of a path
// can be continued to one that does. The search and the sprayer's filter stand on this crate.
#![tactic(auto)]

mod marks; // the table of the bytes of a label
mod runs; // runs of such bytes
pub mod bytes; // the bytes of a label, and the sizes
pub mod form; // is a path, is a pattern formed?
pub mod fit; // does a path match a pattern?
pub mod reach; // can a path that begins so match a pattern?
