//! From first-order procedures to procedures over words, whatever run-time procedures serve them.
#![tactic(auto)]

mod answers;
mod bodies;
pub mod casts;
pub mod copies;
mod groups;
pub mod laws;
pub mod lowering;
pub mod numbering;
mod operands;
mod operations;
pub mod served;
mod steps;
