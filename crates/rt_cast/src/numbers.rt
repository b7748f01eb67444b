// The numbers of the procedures: coerce, compose, cast and project, and behind them those that they call.

ghost use Rattle.std.specs.Prelude.{◌≡◌, ◌+◌, ◌≤◌, ◌^◌};
ghost use Rattle.rt_cast.specs.ProcNumbers.{cast_proc_number};

/// How many procedures there are.
pub const CAST_PROCS: u32 = 27;

/// The most parts that a coercion has.
pub const MOST_PARTS: u32 = 8;

/// How many procedures stand before the composition of no parts; those of more parts follow it.
pub const MIDDLES: u32 = 9;

/// How many stand before a cast's coercion of no parts; those of more parts follow it.
pub const COERCE_MIDDLES: u32 = 18;

/// A procedure, in the order of their numbers. The compositions of no parts to eight parts stand behind these, and then
/// a cast's coercions of no parts to eight.
#[derive(Clone, Copy)]
pub enum CastProc {
    /// The coercion of a cast.
    Coerce,
    /// The composition of two coercions.
    Compose,
    /// A cast of a value.
    Cast,
    /// A part of a value.
    Project,
    /// One part of a composition.
    Part,
    /// The greater of a height and an object's.
    Raise,
    /// What may stand behind a projection.
    Final,
    /// One part of a cast's coercion.
    CoercePart,
    /// Read and write of a reference or a vector.
    Pair,
}

impl CastProc {
    /// The number of the procedure, where the first one has this number.
    pub fn number(self, first: u32) -> u32
        requires room { first + 27 ≤ 2 ^ 32 }
        ensures { result ≡ cast_proc_number self first }
    {
        self as u32 + first
    }
}
