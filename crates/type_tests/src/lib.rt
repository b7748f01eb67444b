//! Tests of types and coercions: rows of types, what is consistent, coercions of casts in tables, and their
//! compositions. They stand in a crate of their own, since the tests of a crate are proved with all of that crate once
//! more.
#![tactic(auto)]

#[cfg(test)]
mod tests;
