// The store in lent memory: its front, setting it up, where its tries lie, why a call is refused, and what a listing leaves in the answer.
#![tactic(auto)]

pub mod extent;
pub mod front;
pub mod listing;
pub mod opened;
pub mod part;
pub mod refusal;
pub mod setup;
