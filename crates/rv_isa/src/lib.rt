// The instructions of RV64I, as an enum and as words.
#![tactic(auto)]

mod decoder;
mod encoder;
pub mod fields;
pub mod inst;
pub mod number;
