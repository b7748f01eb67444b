// The composition of two coercions.

ghost use Rattle.std.specs.Prelude.{◌≡◌, ◌<◌, ◌≤◌, ◌++◌, ◌∷◌, [], ℕ, max, min, All, IfOk, OnOk, length};
ghost use Rattle.type_graph.specs.Trees.{height};
ghost use Rattle.coercion_norm.specs.Coercions.{rows_of};
ghost use Rattle.coercion_norm.specs.Composition.{follow_parts};
ghost use Rattle.coercion_norm.specs.CoercionTables.{FitsTypes, composition_of};
ghost use Rattle.coercion_norm.specs.Heights.{coercion_height};
ghost use Rattle.coercion_norm.specs.Nodes.{Grows, IsTree, coercion_places, tree_of, trees};
ghost use Rattle.coercion_norm.specs.Paths.{Steps, joined, last_type};
ghost use Rattle.coercion_norm.specs.StandsFor.{StandsFor};
ghost use Rattle.coercion_compose.specs.Heads.{HasHead};
ghost use Rattle.coercion_compose.specs.Known.{IsKnown, IsPair, part_pair};

use crate::heads::{Head, final_part, head_of, middle_parts, same_kind};
use coercion_norm::casts::{Cast, coerce_known};
use coercion_norm::middles::MiddleKind;
use coercion_norm::nodes::{CoercionId, CoercionNode};
use coercion_norm::tables::CoercionTable;
use grift_base::lists::OutOfMemory;
use grift_base::places::{LabelId, TypeId};
use std::alloc::Global;
use std::collections::HashMap;
use type_graph::tables::TypeTable;

/// Two coercions, one after the other.
#[derive(Clone, Copy, PartialEq, Eq, Hash)]
pub struct Pair {
    pub first: CoercionId,
    pub second: CoercionId,
}

/// What is remembered: the coercions of casts, and the compositions of pairs.
#[derive(Drop)]
pub struct Known {
    casts: HashMap<Cast, CoercionId>,
    pairs: HashMap<Pair, CoercionId>,
}

/// The composition of two coercions: the first, followed by the second. Where they stand for two paths, the second from
/// the first's last type on, it stands for the one path followed by the other; it is in normal form, and no higher than
/// the higher of the two. The composition of two coercions that no value ever meets one after the other is that which
/// the definition gives. Pairs of parts that were met before are remembered, so that shared coercions take no more work
/// than there are pairs of them. The table may have more nodes at its end than the answer needs, also after
/// `OutOfMemory`.
pub fn compose(
    alloc: Global,
    table: &mut CoercionTable,
    types: &TypeTable,
    c: CoercionId,
    d: CoercionId,
) -> Result<CoercionId, OutOfMemory>
    requires c { c.0 < length table.old.nodes }
    requires d { d.0 < length table.old.nodes }
    requires fits { FitsTypes types.now table.old }
    ensures made { IfOk result (λ e. IsTree table.new.nodes e.0
        (composition_of types.now (tree_of table.old.nodes c.0) (tree_of table.old.nodes d.0))) }
    ensures stands { IfOk result (λ e. (t u : ℕ) (l m : Steps) → u ≡ last_type t l
        → StandsFor (rows_of types.now) (tree_of table.old.nodes c.0) t l
        → StandsFor (rows_of types.now) (tree_of table.old.nodes d.0) u m
        → StandsFor (rows_of types.now) (tree_of table.new.nodes e.0) t (joined l m)) }
    ensures height { IfOk result (λ e. coercion_height (height types.now) (tree_of table.new.nodes e.0)
        ≤ max (coercion_height (height types.now) (tree_of table.old.nodes c.0))
        (coercion_height (height types.now) (tree_of table.old.nodes d.0))) }
    ensures fits { FitsTypes types.now table.new }
    ensures grows { Grows table.old.nodes table.new.nodes }
{
    types.len();
    let mut known = Known {
        casts: HashMap::new(alloc),
        pairs: HashMap::new(alloc),
    };
    let e = compose_pair(alloc, &mut known, table, types, c, d)?;
    Ok(e)
}

// The composition of a pair, where those of these pairs are there.
#[cycle(compose)]
fn compose_known(
    alloc: Global,
    known: &mut Known,
    table: &mut CoercionTable,
    types: &TypeTable,
    pair: Pair,
) -> Result<CoercionId, OutOfMemory>
    requires pair { IsPair table.old.nodes pair }
    requires fits { FitsTypes types.now table.old }
    requires known { IsKnown types.now table.old.nodes known.old }
    ensures made { IfOk result (λ e. IsTree table.new.nodes e.0 (composition_of types.now
        (tree_of table.old.nodes pair.first.0) (tree_of table.old.nodes pair.second.0))) }
    ensures known { OnOk result (IsKnown types.now table.new.nodes known.new) }
    ensures fits { FitsTypes types.now table.new }
    ensures grows { Grows table.old.nodes table.new.nodes }
{
    table.len();
    if let Some(e) = known.pairs.get(&pair).copied() {
        return Ok(e);
    }
    let e = compose_pair(alloc, known, table, types, pair.first, pair.second)?;
    known.pairs.insert(pair, e)?;
    Ok(e)
}

// The same by what the first one is.
#[cycle(compose)]
fn compose_pair(
    alloc: Global,
    known: &mut Known,
    table: &mut CoercionTable,
    types: &TypeTable,
    c: CoercionId,
    d: CoercionId,
) -> Result<CoercionId, OutOfMemory>
    requires c { c.0 < length table.old.nodes }
    requires d { d.0 < length table.old.nodes }
    requires fits { FitsTypes types.now table.old }
    requires known { IsKnown types.now table.old.nodes known.old }
    ensures made { IfOk result (λ e. IsTree table.new.nodes e.0
        (composition_of types.now (tree_of table.old.nodes c.0) (tree_of table.old.nodes d.0))) }
    ensures known { OnOk result (IsKnown types.now table.new.nodes known.new) }
    ensures fits { FitsTypes types.now table.new }
    ensures grows { Grows table.old.nodes table.new.nodes }
{
    types.len();
    table.len();
    match head_of(table, c) {
        Head::Id => Ok(d),
        Head::Fail(_) => Ok(c),
        Head::Middle(kind) => after_middle(alloc, known, table, types, kind, c, d),
        Head::Inject(g, kept) => after_inject(alloc, known, table, types, c, g, kept, d),
        Head::Project(wanted, label, i) => {
            let rest = compose_pair(alloc, known, table, types, i, d)?;
            table.len();
            let last = final_part(table, rest);
            table.intern_node(types, CoercionNode::Project(wanted, label, last))
        }
    }
}

// What an injection and a coercion after it come to.
#[cycle(compose)]
fn after_inject(
    alloc: Global,
    known: &mut Known,
    table: &mut CoercionTable,
    types: &TypeTable,
    c: CoercionId,
    g: CoercionId,
    kept: TypeId,
    d: CoercionId,
) -> Result<CoercionId, OutOfMemory>
    requires c { c.0 < length table.old.nodes }
    requires d { d.0 < length table.old.nodes }
    requires inject { HasHead table.old.nodes c.0 (Head.Inject g kept) }
    requires fits { FitsTypes types.now table.old }
    requires known { IsKnown types.now table.old.nodes known.old }
    ensures made { IfOk result (λ e. IsTree table.new.nodes e.0
        (composition_of types.now (tree_of table.old.nodes c.0) (tree_of table.old.nodes d.0))) }
    ensures known { OnOk result (IsKnown types.now table.new.nodes known.new) }
    ensures fits { FitsTypes types.now table.new }
    ensures grows { Grows table.old.nodes table.new.nodes }
{
    types.len();
    table.len();
    match head_of(table, d) {
        Head::Id => Ok(c),
        Head::Fail(_) => Ok(d),
        Head::Middle(_) | Head::Inject(..) => Ok(table.id()),
        Head::Project(wanted, label, i) => {
            let cast = Cast {
                from: kept,
                to: wanted,
                label,
            };
            let between = coerce_known(alloc, &mut known.casts, table, types, cast)?;
            table.len();
            let rest = compose_pair(alloc, known, table, types, between, i)?;
            table.len();
            compose_pair(alloc, known, table, types, g, rest)
        }
    }
}

// What a middle and a coercion after it come to.
#[cycle(compose)]
fn after_middle(
    alloc: Global,
    known: &mut Known,
    table: &mut CoercionTable,
    types: &TypeTable,
    kind: MiddleKind,
    c: CoercionId,
    d: CoercionId,
) -> Result<CoercionId, OutOfMemory>
    requires c { c.0 < length table.old.nodes }
    requires d { d.0 < length table.old.nodes }
    requires middle { HasHead table.old.nodes c.0 (Head.Middle kind) }
    requires fits { FitsTypes types.now table.old }
    requires known { IsKnown types.now table.old.nodes known.old }
    ensures made { IfOk result (λ e. IsTree table.new.nodes e.0
        (composition_of types.now (tree_of table.old.nodes c.0) (tree_of table.old.nodes d.0))) }
    ensures known { OnOk result (IsKnown types.now table.new.nodes known.new) }
    ensures fits { FitsTypes types.now table.new }
    ensures grows { Grows table.old.nodes table.new.nodes }
{
    types.len();
    table.len();
    match head_of(table, d) {
        Head::Id => Ok(c),
        Head::Fail(_) => Ok(d),
        Head::Project(..) => Ok(table.id()),
        Head::Inject(g, kept) => {
            let before = after_middle(alloc, known, table, types, kind, c, g)?;
            table.len();
            table.intern_node(types, CoercionNode::Inject(before, kept))
        }
        Head::Middle(other) => {
            if !same_kind(kind, other) {
                return Ok(table.id());
            }
            let firsts = middle_parts(alloc, table, c)?;
            let seconds = middle_parts(alloc, table, d)?;
            let parts = compose_parts(
                alloc,
                known,
                table,
                types,
                kind,
                firsts.as_slice(),
                seconds.as_slice(),
            )?;
            table.len();
            table.intern_middle(alloc, types, kind, parts.as_slice())
        }
    }
}

// The compositions of the parts of two middles of one constructor.
#[cycle(compose)]
fn compose_parts(
    alloc: Global,
    known: &mut Known,
    table: &mut CoercionTable,
    types: &TypeTable,
    kind: MiddleKind,
    firsts: &[CoercionId],
    seconds: &[CoercionId],
) -> Result<Vec<CoercionId>, OutOfMemory>
    requires firsts { All (λ part. part < length table.old.nodes) (coercion_places firsts.now) }
    requires seconds { All (λ part. part < length table.old.nodes) (coercion_places seconds.now) }
    requires fits { FitsTypes types.now table.old }
    requires known { IsKnown types.now table.old.nodes known.old }
    ensures width { IfOk result (λ es. length es.items ≡ min (length firsts.now) (length seconds.now)) }
    ensures there { IfOk result (λ es. All (λ part. part < length table.new.nodes) (coercion_places es.items)) }
    ensures made { IfOk result (λ es. trees (tree_of table.new.nodes) (coercion_places es.items)
        ≡ follow_parts (composition_of types.now) kind (trees (tree_of table.old.nodes) (coercion_places firsts.now))
        (trees (tree_of table.old.nodes) (coercion_places seconds.now))) }
    ensures known { OnOk result (IsKnown types.now table.new.nodes known.new) }
    ensures fits { FitsTypes types.now table.new }
    ensures grows { Grows table.old.nodes table.new.nodes }
{
    table.len();
    let width = firsts.len();
    let count = width.min(seconds.len());
    let mut parts = Vec::new(alloc);
    for j in 0..count {
        table.len();
        let back = kind.runs_back(j + 1 == width);
        let pair = part_pair(back, firsts[j], seconds[j]);
        let e = compose_known(alloc, known, table, types, pair)?;
        push(&mut parts, e)?;
    }
    Ok(parts)
}

// The pair of two parts, by whether they run backwards.
fn part_pair(back: bool, c: CoercionId, d: CoercionId) -> Pair
    ensures { result ≡ part_pair back c d }
{
    if back {
        Pair {
            first: d,
            second: c,
        }
    } else {
        Pair {
            first: c,
            second: d,
        }
    }
}

fn push(parts: &mut Vec<CoercionId>, part: CoercionId) -> Result<(), OutOfMemory>
    ensures { OnOk result (parts.new.items ≡ parts.old.items ++ part ∷ []) }
{
    parts.push(part)?;
    Ok(())
}
