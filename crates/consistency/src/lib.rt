// Consistency of types, and what they have in common.
#![tactic(auto)]

pub mod blends;
pub mod checks;
pub mod laws;
mod pairs;
