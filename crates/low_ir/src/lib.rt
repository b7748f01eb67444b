//! Procedures over words: what every later pass compiles to before registers are chosen, and the run of a program of
//! them.
//!
//! A procedure has numbered words of 64 bits and structured code: a branch has two codes, behind both of which goes on
//! what stands last, and a loop is a tail call. The run in `specs` shows the region below the allocation word, the
//! words asked for and the active procedures; a meter counts its turns. `codes` puts one step in front of a code, so
//! that run-time procedures are written by names.
#![tactic(auto)]

mod closing;
pub mod code;
pub mod codes;
pub mod laws;
pub mod programs;
