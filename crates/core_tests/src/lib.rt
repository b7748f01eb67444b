//! Tests of the terms between the front end and code: typed terms and their runs, terms with coercions, and closed
//! procedures. They stand in a crate of their own, since the tests of a crate are proved with all of that crate once
//! more.
#![tactic(auto)]

#[cfg(test)]
mod tests;
