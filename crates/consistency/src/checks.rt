// Which types are consistent, and which have the same head.

ghost use Rattle.std.specs.Prelude.{◌≡◌, ◌<◌, All, IfOk, Some, length};
ghost use Rattle.grift_base.specs.Types.{TypeRow, row_at, same_head};
ghost use Rattle.type_graph.specs.Trees.{related};
ghost use Rattle.consistency.specs.Consistency.{consistent};
ghost use Rattle.consistency.specs.Known.{AreConsistent};
ghost use Rattle.consistency.specs.Pairs.{AreThere, firsts, seconds};

use crate::pairs::{Pair, is_dyn, pairs_of_parts};
use grift_base::lists::OutOfMemory;
use grift_base::places::TypeId;
use std::alloc::Global;
use std::collections::HashSet;
use type_graph::rows::Row;
use type_graph::tables::TypeTable;

/// Whether two types have the same constructor, with as many parameters or parts.
pub fn same_head(types: &TypeTable, a: TypeId, b: TypeId) -> bool
    requires a { a.0 < length types.now }
    requires b { b.0 < length types.now }
    ensures { (row other : TypeRow) → row_at types.now a.0 ≡ Some row → row_at types.now b.0 ≡ Some other
        → result ≡ same_head row other }
{
    match (types.row(a), types.row(b)) {
        (Row::Int, Row::Int)
        | (Row::Bool, Row::Bool)
        | (Row::Unit, Row::Unit)
        | (Row::Dyn, Row::Dyn) => true,
        (Row::Fun(parameters, _), Row::Fun(others, _)) => parameters.len() == others.len(),
        (Row::Tuple(parts), Row::Tuple(others)) => parts.len() == others.len(),
        (Row::Ref(_), Row::Ref(_)) | (Row::Vect(_), Row::Vect(_)) => true,
        _ => false,
    }
}

/// Whether two types are consistent: Dyn with every type, two others where their heads are equal and their parts are
/// consistent. Pairs whose parts were found consistent are remembered, so that types of many shared rows take no more
/// work than there are pairs of their rows.
pub fn consistent(
    alloc: Global,
    types: &TypeTable,
    a: TypeId,
    b: TypeId,
) -> Result<bool, OutOfMemory>
    requires a { a.0 < length types.now }
    requires b { b.0 < length types.now }
    ensures { IfOk result (λ answer. answer ≡ consistent types.now a.0 b.0) }
{
    let mut known = HashSet::new(alloc);
    check(alloc, &mut known, types, Pair::new(a, b))
}

// Whether two types are consistent, where these pairs are. Pairs that differ in their heads, or of which one is Dyn,
// needn't be remembered.
#[cycle(check)]
fn check(
    alloc: Global,
    known: &mut HashSet<Pair>,
    types: &TypeTable,
    pair: Pair,
) -> Result<bool, OutOfMemory>
    requires pair { AreThere types.now pair }
    requires known { AreConsistent types.now known.old }
    ensures answer { IfOk result (λ answer. answer ≡ consistent types.now pair.first.0 pair.second.0) }
    ensures known { AreConsistent types.now known.new }
{
    if known.contains(&pair) {
        return Ok(true);
    }
    // The table is one: `len` says that no row stands twice and that its types are trees.
    types.len();
    let row = types.row(pair.first);
    let other = types.row(pair.second);
    if is_dyn(row) {
        return Ok(true);
    }
    if is_dyn(other) {
        return Ok(true);
    }
    if !same_head(types, pair.first, pair.second) {
        return Ok(false);
    }
    let pairs = pairs_of_parts(alloc, row, other)?;
    let answer = check_each(alloc, known, types, pairs.as_slice())?;
    if answer {
        known.insert(pair)?;
    }
    Ok(answer)
}

// Whether the types of each of these pairs are consistent.
#[cycle(check)]
fn check_each(
    alloc: Global,
    known: &mut HashSet<Pair>,
    types: &TypeTable,
    pairs: &[Pair],
) -> Result<bool, OutOfMemory>
    requires pairs { All (AreThere types.now) pairs.now }
    requires known { AreConsistent types.now known.old }
    ensures answer { IfOk result (λ answer.
        answer ≡ related (consistent types.now) (firsts pairs.now) (seconds pairs.now)) }
    ensures known { AreConsistent types.now known.new }
{
    for pair in pairs {
        if !check(alloc, known, types, *pair)? {
            return Ok(false);
        }
    }
    Ok(true)
}
