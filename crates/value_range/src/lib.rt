// What the bytes known of a value say of a range of values.
#![tactic(auto)]

pub mod value;
