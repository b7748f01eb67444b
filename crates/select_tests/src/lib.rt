//! Tests of programs over words: which are closed, their code, and their images on the emulator, those of casts among
//! them. They stand in a crate of their own, since the tests of a crate are proved with all of that crate once more.
#![tactic(auto)]

#[cfg(test)]
mod tests;
