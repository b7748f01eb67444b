//! Tests of listings, of the programs made from a number, and of places for the registers of virtual codes. They stand
//! in a crate of their own, since the tests of a crate are proved with all of that crate once more.
#![tactic(auto)]

#[cfg(test)]
mod tests;
