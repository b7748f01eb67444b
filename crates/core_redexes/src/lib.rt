//! What a redex of the calculus becomes: calls, casts, projections and operators, in place.
#![tactic(auto)]

pub mod calls;
pub mod casts;
pub mod forms;
pub mod moves;
pub mod operators;
