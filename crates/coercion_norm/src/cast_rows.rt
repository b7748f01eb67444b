// Casts with their coercions.

use crate::nodes::CoercionId;
use grift_base::places::{LabelId, TypeId};
use grift_base::tables::{Entry, Numbered};

/// A cast and its coercion: the type from which, the type to which, the label that is blamed, and the place of the
/// coercion in a table.
#[derive(Clone, Copy, PartialEq, Eq, Hash)]
pub struct CastRow {
    pub from: TypeId,
    pub to: TypeId,
    pub label: LabelId,
    pub coercion: CoercionId,
}

impl Entry for CastRow {
    ghost use Rattle.std.proofs.Common.{rules};

    type Id = u32;

    ghost number = { λ id. id };

    ghost exact = { Prim.search rules };

    fn id(place: u32) -> u32 {
        place
    }
}

/// Distinct casts in order of first use. A cast's number is its place, from 0.
pub type CastRows = Numbered<CastRow>;
