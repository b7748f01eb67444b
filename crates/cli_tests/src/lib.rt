//! Tests of what the program does: its words, and what it writes of sources and images. They stand in a crate of their
//! own, since the tests of a crate are proved with all of that crate once more.
#![tactic(auto)]

#[cfg(test)]
mod tests;
