// Labels and wildcards: where the labels of any bytes end, which labels fit those of a pattern, and which may go on to fit.
// Asks for no form: whether a path or a pattern is formed is for crate matcher.
#![tactic(auto)]

pub mod bytes; // the bytes with a meaning of their own
pub mod split; // where a label ends
pub mod labels; // labels one behind the other
pub mod fit; // do labels fit a pattern?
pub mod begin; // can labels that begin so fit a pattern?
