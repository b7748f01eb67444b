//! The steps of the elaboration that go into no expression: names, written types, casts, and what is made of parts
//! that are elaborated.
#![tactic(auto)]

pub mod casts;
pub mod copies;
pub mod joining;
pub mod names;
pub mod operands;
pub mod parameters;
pub mod progress;
pub mod written;
