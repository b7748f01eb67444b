//! Tests of the front end: texts through the reader of s-expressions and that of forms, and the audit of their casts.
//! They stand in a crate of their own, since the tests of a crate are proved with all of that crate once more.
#![tactic(auto)]

#[cfg(test)]
mod tests;
