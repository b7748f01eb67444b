//! Procedures over words that compiled programs call: calls of functions, reads and writes of boxes and vectors,
//! through proxies or not, vectors that are made, and product, quotient and remainder, on a machine that has none.
#![tactic(auto)]

pub mod calls;
pub mod cells;
pub mod fills;
pub mod laws;
pub mod numbers;
pub mod procs;
