// The audit of labels: which labels no run of a program can blame.
#![tactic(auto)]

pub mod audits;
pub mod laws;
mod pairs;
pub mod texts;
pub mod ups;
