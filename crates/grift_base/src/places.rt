// Places in a source, and the numbers that stand for entries of tables.

use crate::tables::{Entry, Numbered};

/// A place in a source: its line and the column of its byte, both from 1. A label of an image that was
/// read may hold any two numbers.
#[derive(Clone, Copy, PartialEq, Eq, Hash, Debug)]
pub struct Pos {
    pub line: u32,
    pub col: u32,
}

/// A place in a table of labels, from 0.
#[derive(Clone, Copy, PartialEq, Eq, Hash)]
pub struct LabelId(pub u32);

/// A place in a table of types, from 0.
#[derive(Clone, Copy, PartialEq, Eq, Hash)]
pub struct TypeId(pub u32);

/// The most entries of a table whose places are numbers of 32 bits.
pub const MOST_ENTRIES: u64 = 4294967294;

impl Entry for Pos {
    ghost use Rattle.std.proofs.Common.{rules};

    type Id = LabelId;

    ghost number = { λ id. id.0 };

    ghost exact = { Prim.search rules };

    fn id(place: u32) -> LabelId {
        LabelId(place)
    }
}

/// The distinct places that are blamed, in order of first use.
pub type LabelTable = Numbered<Pos>;
