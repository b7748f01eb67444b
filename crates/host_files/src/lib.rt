// The files of the system and its streams, as a shelf and as sinks. What the outside holds is not told.
#![tactic(auto)]

pub mod shelf;
pub mod sinks;
