// Compiles a file and runs it, between a shelf and sinks.
#![tactic(auto)]

mod aspects;
mod audits;
mod checks;
mod generator;
mod listings;
mod loads;
mod models;
mod reports;
mod runner;
mod spaces;
pub mod top;
