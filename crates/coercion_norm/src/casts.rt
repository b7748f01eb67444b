// The coercions of casts.

ghost use Rattle.std.specs.Prelude.{◌≡◌, ◌<◌, ◌≤◌, ◌++◌, ◌∷◌, [], max, All, IfOk, OnOk, Some, false, length, true};
ghost use Rattle.grift_base.specs.Types.{is_dyn, same_head};
ghost use Rattle.type_graph.specs.Trees.{height};
ghost use Rattle.coercion_norm.specs.Coercions.{kind_of, rows_of, slots};
ghost use Rattle.coercion_norm.specs.Composition.{coerce_parts, coerce_solid};
ghost use Rattle.coercion_norm.specs.CoercionTables.{AreCasts, FitsTypes, IsCast, IsCastAt, cast_of, part_cast};
ghost use Rattle.coercion_norm.specs.Heights.{coercion_height};
ghost use Rattle.coercion_norm.specs.Nodes.{Grows, IsTree, coercion_places, tree_of, trees};
ghost use Rattle.coercion_norm.specs.Paths.{Edge, Stop};
ghost use Rattle.coercion_norm.specs.StandsFor.{StandsFor};

use crate::middles::{MiddleKind, is_dyn, kind_of, same_head, slot, slots};
use crate::nodes::{CoercionId, CoercionNode};
use crate::tables::CoercionTable;
use grift_base::lists::OutOfMemory;
use grift_base::places::{LabelId, TypeId};
use grift_base::tables::Entry;
use std::alloc::Global;
use std::collections::HashMap;
use type_graph::tables::TypeTable;

/// A cast: the type from which, the type to which, and the label that is blamed.
#[derive(Clone, Copy, PartialEq, Eq, Hash)]
pub struct Cast {
    pub from: TypeId,
    pub to: TypeId,
    pub label: LabelId,
}

impl Entry for Cast {
    ghost use Rattle.std.proofs.Common.{rules};

    type Id = u32;

    ghost number = { λ id. id };

    ghost exact = { Prim.search rules };

    fn id(place: u32) -> u32 {
        place
    }
}

/// The coercion of a cast. It stands for the path of the two types, and is no higher than the higher of them. Casts of
/// parts that were met before are remembered, so that types of many shared rows take no more work than there are pairs
/// of their rows. After `OutOfMemory` the table may have more nodes at its end.
pub fn coerce(
    alloc: Global,
    table: &mut CoercionTable,
    types: &TypeTable,
    a: TypeId,
    b: TypeId,
    label: LabelId,
) -> Result<CoercionId, OutOfMemory>
    requires a { a.0 < length types.now }
    requires b { b.0 < length types.now }
    requires fits { FitsTypes types.now table.old }
    ensures made { IfOk result (λ c. IsTree table.new.nodes c.0 (cast_of types.now a.0 b.0 label.0)) }
    ensures stands { IfOk result (λ c.
        StandsFor (rows_of types.now) (tree_of table.new.nodes c.0) a.0 (Edge label.0 b.0 Stop)) }
    ensures height { IfOk result (λ c. coercion_height (height types.now) (tree_of table.new.nodes c.0)
        ≤ max (height types.now a.0) (height types.now b.0)) }
    ensures fits { FitsTypes types.now table.new }
    ensures grows { Grows table.old.nodes table.new.nodes }
{
    types.len();
    let cast = Cast {
        from: a,
        to: b,
        label,
    };
    let mut known = HashMap::new(alloc);
    coerce_known(alloc, &mut known, table, types, cast)
}

/// The coercion of a cast, where those of these casts are there.
#[cycle(coerce)]
pub fn coerce_known(
    alloc: Global,
    known: &mut HashMap<Cast, CoercionId>,
    table: &mut CoercionTable,
    types: &TypeTable,
    cast: Cast,
) -> Result<CoercionId, OutOfMemory>
    requires cast { IsCast types.now cast }
    requires fits { FitsTypes types.now table.old }
    requires known { AreCasts types.now table.old.nodes known.old }
    ensures made { IfOk result (λ c. IsCastAt types.now table.new.nodes cast c) }
    ensures known { OnOk result (AreCasts types.now table.new.nodes known.new) }
    ensures fits { FitsTypes types.now table.new }
    ensures grows { Grows table.old.nodes table.new.nodes }
{
    if let Some(c) = known.get(&cast).copied() {
        return Ok(c);
    }
    let c = coerce_rows(alloc, known, table, types, cast)?;
    known.insert(cast, c)?;
    Ok(c)
}

// The same by whether the types are Dyn.
#[cycle(coerce)]
fn coerce_rows(
    alloc: Global,
    known: &mut HashMap<Cast, CoercionId>,
    table: &mut CoercionTable,
    types: &TypeTable,
    cast: Cast,
) -> Result<CoercionId, OutOfMemory>
    requires cast { IsCast types.now cast }
    requires fits { FitsTypes types.now table.old }
    requires known { AreCasts types.now table.old.nodes known.old }
    ensures made { IfOk result (λ c. IsCastAt types.now table.new.nodes cast c) }
    ensures known { OnOk result (AreCasts types.now table.new.nodes known.new) }
    ensures fits { FitsTypes types.now table.new }
    ensures grows { Grows table.old.nodes table.new.nodes }
{
    types.len();
    table.len();
    let id = table.id();
    let from_dyn = is_dyn(types.row(cast.from));
    let to_dyn = is_dyn(types.row(cast.to));
    if from_dyn {
        if to_dyn {
            return Ok(id);
        }
        return table.intern_node(types, CoercionNode::Project(cast.to, cast.label, id));
    }
    if to_dyn {
        return table.intern_node(types, CoercionNode::Inject(id, cast.from));
    }
    coerce_solid(alloc, known, table, types, cast)
}

// The same where neither type is Dyn.
#[cycle(coerce)]
fn coerce_solid(
    alloc: Global,
    known: &mut HashMap<Cast, CoercionId>,
    table: &mut CoercionTable,
    types: &TypeTable,
    cast: Cast,
) -> Result<CoercionId, OutOfMemory>
    requires cast { IsCast types.now cast }
    requires from_solid { is_dyn (rows_of types.now cast.from.0) ≡ false }
    requires to_solid { is_dyn (rows_of types.now cast.to.0) ≡ false }
    requires fits { FitsTypes types.now table.old }
    requires known { AreCasts types.now table.old.nodes known.old }
    ensures made { IfOk result (λ c. IsCastAt types.now table.new.nodes cast c) }
    ensures known { OnOk result (AreCasts types.now table.new.nodes known.new) }
    ensures fits { FitsTypes types.now table.new }
    ensures grows { Grows table.old.nodes table.new.nodes }
{
    types.len();
    table.len();
    if cast.from == cast.to {
        return Ok(table.id());
    }
    let from = types.row(cast.from);
    if !same_head(from, types.row(cast.to)) {
        return table.intern_node(types, CoercionNode::Fail(cast.label));
    }
    match kind_of(from) {
        None => Ok(table.id()),
        Some(kind) => {
            let parts = coerce_parts(alloc, known, table, types, kind, cast)?;
            table.len();
            table.intern_middle(alloc, types, kind, parts.as_slice())
        }
    }
}

// The coercions of the parts of two types of one head.
#[cycle(coerce)]
fn coerce_parts(
    alloc: Global,
    known: &mut HashMap<Cast, CoercionId>,
    table: &mut CoercionTable,
    types: &TypeTable,
    kind: MiddleKind,
    cast: Cast,
) -> Result<Vec<CoercionId>, OutOfMemory>
    requires cast { IsCast types.now cast }
    requires one_width { slots (rows_of types.now) cast.from.0 ≡ slots (rows_of types.now) cast.to.0 }
    requires fits { FitsTypes types.now table.old }
    requires known { AreCasts types.now table.old.nodes known.old }
    ensures width { IfOk result (λ cs. length cs.items ≡ slots (rows_of types.now) cast.from.0) }
    ensures there { IfOk result (λ cs. All (λ part. part < length table.new.nodes) (coercion_places cs.items)) }
    ensures made { IfOk result (λ cs. trees (tree_of table.new.nodes) (coercion_places cs.items)
        ≡ coerce_parts (rows_of types.now) (cast_of types.now) kind cast.from.0 cast.to.0 cast.label.0
        (slots (rows_of types.now) cast.from.0) 0) }
    ensures known { OnOk result (AreCasts types.now table.new.nodes known.new) }
    ensures fits { FitsTypes types.now table.new }
    ensures grows { Grows table.old.nodes table.new.nodes }
{
    types.len();
    let width = slots(types.row(cast.from));
    let mut parts = Vec::new(alloc);
    for j in 0..width {
        table.len();
        let here = slot(types.row(cast.from), j);
        let there = slot(types.row(cast.to), j);
        let part = part_cast(kind.runs_back(j + 1 == width), here, there, cast.label);
        let c = coerce_known(alloc, known, table, types, part)?;
        push(&mut parts, c)?;
    }
    Ok(parts)
}

// The cast of a part, by whether the part runs backwards.
fn part_cast(back: bool, here: TypeId, there: TypeId, label: LabelId) -> Cast
    ensures { result ≡ part_cast back here there label }
{
    if back {
        Cast {
            from: there,
            to: here,
            label,
        }
    } else {
        Cast {
            from: here,
            to: there,
            label,
        }
    }
}

fn push(parts: &mut Vec<CoercionId>, part: CoercionId) -> Result<(), OutOfMemory>
    ensures { OnOk result (parts.new.items ≡ parts.old.items ++ part ∷ []) }
{
    parts.push(part)?;
    Ok(())
}
