//! Real code of a virtual code: places for its virtual registers, which are real registers and slots of frames, the
//! code with such places or with slots alone, and the images that come of it.
#![tactic(auto)]

pub mod apply;
pub mod assign;
pub mod assignment;
pub mod check;
mod flow;
pub mod images;
mod named;
mod positions;
mod slot_parts;
pub mod slots;
mod walks;
