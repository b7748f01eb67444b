// Coercions composed: one after the other becomes one.
#![tactic(auto)]

pub mod compositions;
pub mod heads;
