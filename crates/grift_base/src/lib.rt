// What every part of the compiler and of the machine shares.
#![tactic(auto)]

pub mod environment;
pub mod lists;
pub mod made;
pub mod numbers;
pub mod operators;
pub mod places;
pub mod refusals;
pub mod shelves;
pub mod sinks;
pub mod sizes;
pub mod tables;
pub mod verdicts;
pub mod words;
pub mod worlds;
