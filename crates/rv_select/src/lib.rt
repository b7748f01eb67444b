//! Virtual code: code over the real registers that the calling convention names and numbered virtual ones, the run of
//! it, and the code of a program over words.
#![tactic(auto)]

pub mod code;
pub mod convention;
pub mod laws;
mod parts;
pub mod selection;
