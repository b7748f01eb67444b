// Coercions: casts in normal form, what they stand for, and how two become one.
#![tactic(auto)]

pub mod cast_rows;
pub mod casts;
pub mod laws;
pub mod middles;
pub mod nodes;
pub mod placing;
pub mod tables;
pub mod texts;
