// The procedures that do what isn't done in place.

use grift_base::lists::Items;
use grift_base::words::WordList;

/// A type whose words stand behind a tag in Dyn; of integers only those of 61 bits do.
#[derive(Clone, Copy, PartialEq, Eq)]
pub enum Tag {
    Int,
    Bool,
    Unit,
}

/// How a cast is made.
#[derive(Clone, Copy, PartialEq, Eq)]
pub enum CastWay {
    /// By the procedure for casts.
    Called,
    /// Into Dyn, in place where the word is narrow: it goes behind the tag. Else the procedure is called.
    IntoDyn(Tag),
    /// Out of Dyn, in place where the word has the tag: it is taken from behind it. Else the procedure is called.
    OutOfDyn(Tag),
}

/// How casts are made, in the order of their numbers.
pub type CastWays = Items<CastWay>;

/// The numbers of the procedures that serve, the word that is handed on for each cast, and how each cast is made.
#[derive(Drop)]
pub struct Served {
    pub cast: u32,
    pub project: u32,
    pub apply: u32,
    pub read: u32,
    pub write: u32,
    pub fill: u32,
    pub multiply: u32,
    pub divide: u32,
    pub cast_at: WordList,
    pub ways: CastWays,
}
