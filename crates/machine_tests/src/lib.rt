//! Tests of the machine: its instructions as words, codes as images, and images on the emulator. They stand in a crate
//! of their own, since the tests of a crate are proved with all of that crate once more.
#![tactic(auto)]

#[cfg(test)]
mod tests;
