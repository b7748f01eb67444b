// The syntax trees of programs, with every derived form expanded.
#![tactic(auto)]

pub mod exprs;
pub mod names;
pub mod types;
