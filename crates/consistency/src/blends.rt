// What two types have in common.

ghost use Rattle.std.specs.Prelude.{◌≡◌, ◌<◌, ◌++◌, ◌∷◌, [], ℕ, All, IfOk, OnOk, length, true};
ghost use Rattle.grift_base.specs.Types.{parts_of};
ghost use Rattle.type_graph.specs.Rows.{places_of, row_of};
ghost use Rattle.type_graph.specs.Trees.{EndsWithin};
ghost use Rattle.type_graph.specs.TypeTables.{HasMoreRows};
ghost use Rattle.consistency.specs.Consistency.{consistent};
ghost use Rattle.consistency.specs.Blending.{IsBlend, blend, blend_each, blend_to, with_parts};
ghost use Rattle.consistency.specs.Known.{AreFormed, EachFormed, GivesBlend, IsFormed, MayBlend};
ghost use Rattle.consistency.specs.Pairs.{firsts, seconds};

use crate::pairs::{Pair, is_dyn, pairs_of_parts};
use grift_base::lists::OutOfMemory;
use grift_base::places::TypeId;
use std::alloc::Global;
use std::collections::HashMap;
use type_graph::rows::{Row, TypeIds};
use type_graph::tables::TypeTable;

/// The blend of two consistent types: Dyn where either is Dyn, else the type with their head and the blends of their
/// parts. Its rows go last in the table where they are not there yet, parts first, from left to right. Pairs whose
/// parts were blended are remembered. After `OutOfMemory` the table may have more rows at its end.
pub fn blend(
    alloc: Global,
    types: &mut TypeTable,
    a: TypeId,
    b: TypeId,
) -> Result<TypeId, OutOfMemory>
    requires a { a.0 < length types.old }
    requires b { b.0 < length types.old }
    requires consistent { consistent types.old a.0 b.0 ≡ true }
    ensures ok { IfOk result (λ c. blend a.0 b.0 types.old ≡ (c.0, types.new)) }
    ensures blends { IfOk result (λ c. IsBlend types.new a.0 b.0 c.0) }
    ensures grown { HasMoreRows types.old types.new }
{
    // The table is one: `len` says that no row stands twice and that its types are trees.
    types.len();
    let mut known = HashMap::new(alloc);
    form(alloc, &mut known, types, Pair::new(a, b))
}

// The blend of a pair of types, where those of these pairs are there. That of Dyn needn't be remembered.
#[cycle(form)]
fn form(
    alloc: Global,
    known: &mut HashMap<Pair, TypeId>,
    types: &mut TypeTable,
    pair: Pair,
) -> Result<TypeId, OutOfMemory>
    requires pair { MayBlend types.old pair }
    requires known { AreFormed types.old known.old }
    ensures computed { IfOk result (λ c. GivesBlend types.old pair.first.0 pair.second.0 c.0 types.new) }
    ensures formed { IfOk result (λ c. IsFormed types.new pair.first.0 pair.second.0 c.0) }
    ensures known { OnOk result (AreFormed types.new known.new) }
    ensures grown { HasMoreRows types.old types.new }
{
    if let Some(c) = known.get(&pair).copied() {
        return Ok(c);
    }
    // The table is one: `len` says that no row stands twice and that its types are trees.
    types.len();
    let row = types.row(pair.first);
    let other = types.row(pair.second);
    if is_dyn(row) {
        return Ok(pair.first);
    }
    if is_dyn(other) {
        return Ok(pair.second);
    }
    let pairs = pairs_of_parts(alloc, row, other)?;
    let parts = form_each(alloc, known, types, pairs.as_slice())?;
    // The table is one: `len` says that no row stands twice and that its types are trees.
    types.len();
    let both = row_with_parts(alloc, types.row(pair.first), parts.as_slice())?;
    let c = types.intern(both)?;
    known.insert(pair, c)?;
    // The table is one: `len` says that no row stands twice and that its types are trees.
    types.len();
    Ok(c)
}

// The blends of these pairs.
#[cycle(form)]
fn form_each(
    alloc: Global,
    known: &mut HashMap<Pair, TypeId>,
    types: &mut TypeTable,
    pairs: &[Pair],
) -> Result<Vec<TypeId>, OutOfMemory>
    requires pairs { All (MayBlend types.old) pairs.now }
    requires known { AreFormed types.old known.old }
    ensures computed { IfOk result (λ parts. (depth : ℕ) → All (EndsWithin depth types.old) (firsts pairs.now)
        → blend_each (blend_to depth) (firsts pairs.now) (seconds pairs.now) types.old
        ≡ (places_of parts.items, types.new)) }
    ensures formed { IfOk result (λ parts. EachFormed types.new pairs.now parts.items) }
    ensures known { OnOk result (AreFormed types.new known.new) }
    ensures grown { HasMoreRows types.old types.new }
{
    // The table is one: `len` says that no row stands twice and that its types are trees.
    types.len();
    let mut parts = Vec::new(alloc);
    for pair in pairs {
        // The table is one: `len` says that no row stands twice and that its types are trees.
        types.len();
        let part = form(alloc, known, types, *pair)?;
        push(&mut parts, part)?;
    }
    Ok(parts)
}

fn push(parts: &mut Vec<TypeId>, part: TypeId) -> Result<(), OutOfMemory>
    ensures { OnOk result (parts.new.items ≡ parts.old.items ++ part ∷ []) }
{
    parts.push(part)?;
    Ok(())
}

// The row of the same constructor with these parts.
fn row_with_parts(alloc: Global, row: &Row, parts: &[TypeId]) -> Result<Row, OutOfMemory>
    requires { length parts.now ≡ length (parts_of (row_of row.now)) }
    ensures { IfOk result (λ new. row_of new ≡ with_parts (row_of row.now) (places_of parts.now)) }
{
    match row {
        Row::Int => Ok(Row::Int),
        Row::Bool => Ok(Row::Bool),
        Row::Unit => Ok(Row::Unit),
        Row::Dyn => Ok(Row::Dyn),
        Row::Fun(..) => {
            let last = parts.len() - 1;
            let parameters = TypeIds::from_slice(alloc, &parts[..last])?;
            Ok(Row::Fun(parameters, parts[last]))
        }
        Row::Tuple(_) => Ok(Row::Tuple(TypeIds::from_slice(alloc, parts)?)),
        Row::Ref(_) => Ok(Row::Ref(parts[0])),
        Row::Vect(_) => Ok(Row::Vect(parts[0])),
    }
}
