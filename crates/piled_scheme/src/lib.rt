//! A second scheme, for tests alone: casts between boxes of plain types pile up, each as an object of three words. It
//! serves no program of the compiler; it shows that what is asked of schemes for casts, boxes and vectors can be met by
//! one that piles.
#![tactic(auto)]

mod procs;
pub mod scheme;
mod words;
