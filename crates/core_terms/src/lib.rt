//! Terms of the calculus: lists turned round, copies, and values in the place of names.
#![tactic(auto)]

pub mod copies;
pub mod lists;
pub mod substitution;
