//! Procedures over words that make, compose and apply coercions in storage.
#![tactic(auto)]

mod casting;
pub mod codes;
mod coercing;
mod composing;
pub mod laws;
pub mod numbers;
mod parts;
pub mod procs;
pub mod words;
