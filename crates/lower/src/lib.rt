//! Schemes of casts: what stands in memory for casts and which procedures serve lowered programs, what these owe, and
//! that the run over words follows the run of the numbered procedures for every scheme; the scheme of the merged mode,
//! in which a value has one proxy at most, and the program over words that is made with it.
#![tactic(auto)]

pub mod laws;
pub mod merged;
pub mod schemes;
pub mod simulation_laws;
