//! Tests of what every part stands on: the laws of runs, the lists, places, verdicts and worlds of `grift_base`,
//! objects in storage, and the reader of s-expressions. They stand in a crate of their own, since the tests of a crate
//! are proved with all of that crate once more.
#![tactic(auto)]

#[cfg(test)]
mod tests;
