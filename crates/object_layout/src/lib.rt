//! Objects in storage: the word that an object begins with, when an object is whole, rows of whole objects, a walk that
//! reports such a row, words of values in Dyn that take no object, and the numbers that code over words has for all
//! this.
//!
//! An object is a header word and the words after it. The definitions in `specs` say when one is whole in a memory that
//! tells its words, and what a row of them is. Each later claim on storage speaks of these.
#![tactic(auto)]

pub mod dyn_words;
pub mod headers;
pub mod kinds;
pub mod laws;
pub mod walks;
pub mod wholes;
pub mod words;
