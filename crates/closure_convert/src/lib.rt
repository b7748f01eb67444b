//! Closure conversion: what the procedures of a term are, and that their run follows the run with environments.
#![tactic(auto)]

mod captured;
mod conversion;
mod dyn_parts;
pub mod laws;
mod names;
mod numbers;
pub mod program;
mod waits;
