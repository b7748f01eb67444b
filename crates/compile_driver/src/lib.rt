// Sources compiled to images.
#![tactic(auto)]

pub mod compiling;
