//! The table of forms, which says what s-expressions are which program, and the walk, which says what is refused where
//! they are none; reserved words, and tests of single elements.
#![tactic(auto)]

pub mod laws;
pub mod lists;
pub mod scopes;
pub mod words;
