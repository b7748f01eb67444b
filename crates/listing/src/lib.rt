// Programs and images as texts: their casts with coercions, and their code word by word.
#![tactic(auto)]

pub mod casts;
pub mod code;
pub mod instructions;
pub mod laws;
pub mod lines;
pub mod reading;
mod rooms;
