// The list of casts.

use grift_base::lists::Items;
use grift_base::places::{LabelId, TypeId};

/// A cast that the elaboration put into a program, or a part that it takes of what Dyn holds.
#[derive(Clone, Copy, PartialEq, Eq)]
pub enum CastEntry {
    /// A cast: its label, from which type to which, and the place in the list of the cast that stands directly inside.
    Cast {
        label: LabelId,
        from: TypeId,
        to: TypeId,
        inside: Option<u32>,
    },
    /// A part of what Dyn holds: the label, and the number of the part from 0.
    Part {
        label: LabelId,
        part: i64,
    },
}

/// Casts and parts in the order in which they are formed.
pub type CastList = Items<CastEntry>;
