// What a step of a run leads to.

use grift_base::places::LabelId;
use grift_base::verdicts::{Answer, Trap};

/// What stands after a step of the calculus.
#[derive(Clone, Copy, PartialEq, Eq)]
pub enum Stepped {
    /// The run goes on.
    More,
    /// The term is a value, which is shown so.
    Answer(Answer),
    /// A cast failed, and this label is blamed.
    Blame(LabelId),
    /// An operation had no answer.
    Trap(Trap),
}
