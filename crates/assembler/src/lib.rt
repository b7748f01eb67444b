// Images of programs, and the assembler that makes them from code with marks.
#![tactic(auto)]

pub mod assembly;
pub mod bytes;
pub mod expansion;
pub mod image;
mod imaging;
mod layout;
