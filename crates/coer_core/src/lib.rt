//! Terms with environments in place of substitution, whose casts are numbers of rows.
#![tactic(auto)]

mod casts;
mod conversion;
pub mod laws;
pub mod program;
mod rows;
pub mod terms;
