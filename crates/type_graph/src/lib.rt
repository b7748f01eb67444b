// Types as rows of a table.
#![tactic(auto)]

pub mod laws;
pub mod rows;
pub mod tables;
pub mod texts;
