// The elaboration of programs: types, and casts where types meet.
#![tactic(auto)]

mod elaboration;
mod heads;
pub mod insertion;
