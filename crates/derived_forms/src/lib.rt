//! Expressions made on the heap, form by form, and derived forms in terms of the others.
#![tactic(auto)]

pub mod loops;
pub mod nodes;
