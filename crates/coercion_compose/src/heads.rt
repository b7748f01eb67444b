// What a coercion of a table is, but for the parts of its middle.

ghost use Rattle.std.specs.Prelude.{◌≡◌, ◌<◌, IfOk, Some, ℕ, List, length, slice_get};
ghost use Rattle.coercion_norm.specs.Composition.{final};
ghost use Rattle.coercion_norm.specs.declared.middles.MiddleKind.{MiddleKind as Kind};
ghost use Rattle.coercion_norm.specs.Coercions.{same_kind};
ghost use Rattle.coercion_norm.specs.Nodes.{IsTree, MiddleNode, coercion_places, tree_of};
ghost use Rattle.coercion_compose.specs.Heads.{HasHead};

use coercion_norm::middles::MiddleKind;
use coercion_norm::nodes::{CoercionId, CoercionNode};
use coercion_norm::tables::CoercionTable;
use grift_base::lists::OutOfMemory;
use grift_base::places::{LabelId, TypeId};
use std::alloc::Global;

/// A coercion without the parts of its middle.
#[derive(Clone, Copy, PartialEq, Eq)]
pub enum Head {
    /// Changes nothing.
    Id,
    /// Blames the label.
    Fail(LabelId),
    /// Between two functions, tuples, references or vectors.
    Middle(MiddleKind),
    /// Into Dyn: what comes before, and the type that is kept beside the value.
    Inject(CoercionId, TypeId),
    /// Out of Dyn: the type that is wanted, the label that is blamed where another is found, and what comes after.
    Project(TypeId, LabelId, CoercionId),
}

/// The head of the coercion at a place.
pub fn head_of(table: &CoercionTable, c: CoercionId) -> Head
    requires { c.0 < length table.now.nodes }
    ensures { HasHead table.now.nodes c.0 result }
{
    match table.node(c) {
        CoercionNode::Id => Head::Id,
        CoercionNode::Fail(label) => Head::Fail(*label),
        CoercionNode::Fun(..) => Head::Middle(MiddleKind::Fun),
        CoercionNode::Tup(_) => Head::Middle(MiddleKind::Tup),
        CoercionNode::Ref(..) => Head::Middle(MiddleKind::Ref),
        CoercionNode::Vec(..) => Head::Middle(MiddleKind::Vec),
        CoercionNode::Inject(g, kept) => Head::Inject(*g, *kept),
        CoercionNode::Project(wanted, label, i) => Head::Project(*wanted, *label, *i),
    }
}

/// The parts of the coercion at a place, which is a middle.
pub fn middle_parts(
    alloc: Global,
    table: &CoercionTable,
    c: CoercionId,
) -> Result<Vec<CoercionId>, OutOfMemory>
    requires { c.0 < length table.now.nodes }
    ensures { IfOk result (λ parts. (kind : Kind) (places : List ℕ)
        → slice_get table.now.nodes c.0 ≡ Some (MiddleNode kind places) → coercion_places parts.items ≡ places) }
{
    table.node(c).parts(alloc)
}

/// What may stand behind a projection: this coercion, or `Id` where it is a projection.
pub fn final_part(table: &CoercionTable, c: CoercionId) -> CoercionId
    requires { c.0 < length table.now.nodes }
    ensures { IsTree table.now.nodes result.0 (final (tree_of table.now.nodes c.0)) }
{
    table.len();
    let id = table.id();
    match head_of(table, c) {
        Head::Project(..) => id,
        Head::Id | Head::Fail(_) | Head::Middle(_) | Head::Inject(..) => c,
    }
}

/// Whether two middles have one constructor.
pub fn same_kind(kind: MiddleKind, other: MiddleKind) -> bool
    ensures { result ≡ same_kind kind other }
{
    matches!(
        (kind, other),
        (MiddleKind::Fun, MiddleKind::Fun)
            | (MiddleKind::Tup, MiddleKind::Tup)
            | (MiddleKind::Ref, MiddleKind::Ref)
            | (MiddleKind::Vec, MiddleKind::Vec)
    )
}
