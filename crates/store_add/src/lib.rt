// The addition of an entry to a store.
#![tactic(auto)]

pub mod add;
mod check;
mod lookup;
mod place;
mod small;
