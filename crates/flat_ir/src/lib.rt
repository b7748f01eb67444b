//! Programs of numbered procedures: functions are closed over their captured names, and bodies are let-normal.
//!
//! Every operand is a name or a constant. Names are levels: a procedure's parameters are the first local names, and
//! each name that is bound inside is the next one. The run in `specs` has the modes of casts and the values of the
//! language above, and shows the words asked for, the turns, the active frames and the wrap steps.
#![tactic(auto)]

mod closing;
pub mod code;
pub mod programs;
