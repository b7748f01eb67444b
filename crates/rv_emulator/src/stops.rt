// Why a run stops.

use grift_base::places::Pos;
use grift_base::verdicts::{Answer, Trap};

/// Why a run stopped. Every stop leaves registers, memory, world and pc as before the instruction that
/// stopped.
#[derive(Clone, Copy, PartialEq, Eq)]
pub enum Stop {
    /// The program has come to an answer.
    Ended(Answer),
    /// The label at this place of the source is blamed.
    Blamed(Pos),
    /// An operation had no answer.
    Trapped(Trap),
    /// The program found no room in the region.
    RegionOut,
    /// The program found no room on the stack.
    StackOut,
    /// All steps were made.
    StepsSpent,
    /// There is no such instruction, or no such environment call with its operands; tells the pc.
    Undefined(u64),
    /// The pc isn't in code, or a load or store isn't where it may be; tells the pc.
    BadAddress(u64),
    /// An address isn't a multiple of the width, or a target not a multiple of 4; tells the pc.
    Misaligned(u64),
    /// The process had no memory left for what an instruction prints or stores.
    OutOfMemory,
}

/// Why a run stopped whose output is put in blocks.
#[derive(Clone, Copy, PartialEq, Eq)]
pub enum BlockStop {
    /// As a run stops. All that was printed is put, except for want of memory, where the machine keeps the rest.
    Stopped(Stop),
    /// A put failed. No instruction was made after it, and the machine keeps the output that was to be put.
    SinkFailed,
}
