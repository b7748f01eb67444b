// The emulator of the machine.
#![tactic(auto)]

pub mod arithmetic;
pub mod blocks;
mod bytes;
pub mod consoles;
pub mod flat;
pub mod machine;
pub mod paged;
pub mod processor;
pub mod ram;
pub mod registers;
pub mod stops;
