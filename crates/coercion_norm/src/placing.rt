// Types and coercions as objects that stand before the code.

ghost use Rattle.std.specs.Prelude.{◌≡◌, ◌<◌, ◌≤◌, ◌%◌, ◌^◌, ◌∷◌, [], All, IfOk, OnOk, Some, cond, length};
ghost use Rattle.std.specs.Prelude.{map, slice_get, slice_index};
ghost use Rattle.grift_base.specs.Types.{parts_of};
ghost use Rattle.type_graph.specs.Rows.{places_of, row_of};
ghost use Rattle.type_graph.specs.Trees.{height};
ghost use Rattle.object_layout.specs.Headers.{packed};
ghost use Rattle.coercion_norm.specs.Coercions.{is_id};
ghost use Rattle.coercion_norm.specs.CoercionTables.{FitsTypes};
ghost use Rattle.coercion_norm.specs.Heights.{coercion_height};
ghost use Rattle.coercion_norm.specs.Nodes.{Node, coercion_places, node_of, node_parts, tree_of};
ghost use Rattle.coercion_norm.specs.Objects.{words_of_all};
ghost use Rattle.coercion_norm.specs.ObjectsOfRows.{type_objects};
ghost use Rattle.coercion_norm.specs.Placed.{ArePlaced, ArePlacedTypes, AreTypeAddresses, SayCoercions, SayTypes};
ghost use Rattle.coercion_norm.specs.Statics.{AreStatics};
ghost use Rattle.coercion_norm.specs.StaticObjects.{header, node_object, type_kind, type_object, words_at};

use crate::cast_rows::{CastRow, CastRows};
use crate::nodes::{CoercionId, CoercionNode};
use crate::tables::CoercionTable;
use grift_base::lists::OutOfMemory;
use grift_base::places::TypeId;
use grift_base::words::{Statics, WordList};
use object_layout::headers::{Header, pack};
use object_layout::kinds::Kind;
use std::alloc::Global;
use type_graph::rows::Row;
use type_graph::tables::TypeTable;

/// The objects of all types and of all coercions but `Id`, from the address `start` on: their words in order, the
/// address of each type, and the word of each coercion and of each cast, which is 0 for `Id`.
pub fn place_rows(
    alloc: Global,
    types: &TypeTable,
    table: &CoercionTable,
    casts: &CastRows,
    start: u64,
) -> Result<Statics, OutOfMemory>
    requires aligned { start % 8 ≡ 0 }
    requires low { start < 2 ^ 32 }
    requires fits { FitsTypes types.now table.now }
    requires casts { All (λ cast. cast.coercion.0 < length table.now.nodes) casts.now }
    ensures { IfOk result (λ statics. AreStatics types.now table.now.nodes casts.now start statics) }
{
    types.len();
    let mut words = WordList::new(alloc);
    let type_at = place_types(alloc, &mut words, types, start)?;
    let coercion_at = place_coercions(alloc, &mut words, types, table, type_at.as_slice(), start)?;
    let cast_at = words_of_casts(alloc, coercion_at.as_slice(), casts.as_slice())?;
    Ok(Statics {
        words,
        type_at,
        coercion_at,
        cast_at,
    })
}

// Places the objects of all types; answers the address of each. A type's parts may stand behind it, so the addresses of
// all types are found before the first object is made.
fn place_types(
    alloc: Global,
    words: &mut WordList,
    types: &TypeTable,
    start: u64,
) -> Result<WordList, OutOfMemory>
    requires empty { words.old ≡ [] }
    requires low { start < 2 ^ 32 }
    ensures placed { IfOk result (λ type_at. ArePlacedTypes types.now start words.new type_at) }
    ensures said { IfOk result (λ type_at. SayTypes types.now start words.new type_at) }
{
    types.len();
    let type_at = addresses_of_types(alloc, types, start)?;
    write_types(alloc, words, types, type_at.as_slice())?;
    Ok(type_at)
}

// Writes the objects of all types, where the addresses of all types are told.
fn write_types(
    alloc: Global,
    words: &mut WordList,
    types: &TypeTable,
    type_at: &[u64],
) -> Result<(), OutOfMemory>
    requires empty { words.old ≡ [] }
    requires told { length type_at.now ≡ length types.now }
    ensures { OnOk result (words.new
        ≡ words_of_all (type_objects types.now (λ type. slice_index type_at.now type) (length types.now))) }
{
    for t in 0..types.len() {
        let object = object_of_type(alloc, types, type_at, TypeId(t))?;
        words.extend(object.as_slice())?;
    }
    Ok(())
}

// The address of each type: its object begins behind those of the types before it.
fn addresses_of_types(alloc: Global, types: &TypeTable, start: u64) -> Result<WordList, OutOfMemory>
    requires { start < 2 ^ 32 }
    ensures { IfOk result (AreTypeAddresses types.now start (length types.now)) }
{
    let mut type_at = WordList::new(alloc);
    let mut before = 0;
    for t in 0..types.len() {
        type_at.push(start + 8 * before)?;
        before += 1 + number_of_parts(types.row(TypeId(t)));
    }
    Ok(type_at)
}

// How many parts a type has.
fn number_of_parts(row: &Row) -> u64
    requires { length (parts_of (row_of row.now)) ≤ 8 }
    ensures { result ≡ length (parts_of (row_of row.now)) }
{
    match row {
        Row::Int | Row::Bool | Row::Unit | Row::Dyn => 0,
        Row::Fun(parameters, _) => parameters.len() + 1,
        Row::Tuple(parts) => parts.len(),
        Row::Ref(_) | Row::Vect(_) => 1,
    }
}

// Places the objects of all coercions behind those of the types; answers the word of each.
fn place_coercions(
    alloc: Global,
    words: &mut WordList,
    types: &TypeTable,
    table: &CoercionTable,
    type_at: &[u64],
    start: u64,
) -> Result<WordList, OutOfMemory>
    requires low { start < 2 ^ 32 }
    requires fits { FitsTypes types.now table.now }
    requires types { ArePlacedTypes types.now start words.old type_at.now }
    requires said { SayTypes types.now start words.old type_at.now }
    ensures placed { IfOk result (λ coercion_at. ArePlaced types.now table.now.nodes start words.new type_at.now
        coercion_at (length table.now.nodes)) }
    ensures said { IfOk result (λ coercion_at. SayCoercions types.now table.now.nodes start words.new type_at.now
        coercion_at (length table.now.nodes)) }
{
    types.len();
    let mut coercion_at = WordList::new(alloc);
    for c in 0..table.len() {
        let at = start + 8 * words.len();
        let object = object_of_coercion(
            alloc,
            types,
            table,
            type_at,
            coercion_at.as_slice(),
            CoercionId(c),
        )?;
        words.extend(object.as_slice())?;
        coercion_at.push(word_of(table, CoercionId(c), at))?;
    }
    Ok(coercion_at)
}

// The word of a coercion whose object stands at an address.
fn word_of(table: &CoercionTable, c: CoercionId, at: u64) -> u64
    requires { c.0 < length table.now.nodes }
    ensures { result ≡ cond (is_id (tree_of table.now.nodes c.0)) 0 at }
{
    if table.is_id(c) { 0 } else { at }
}

// The object of a type, where the addresses of all types are told.
fn object_of_type(
    alloc: Global,
    types: &TypeTable,
    type_at: &[u64],
    t: TypeId,
) -> Result<WordList, OutOfMemory>
    requires there { t.0 < length types.now }
    requires told { length type_at.now ≡ length types.now }
    ensures { IfOk result (λ object. object ≡ type_object types.now type_at.now t.0) }
{
    types.len();
    let row = types.row(t);
    let parts = parts_of(alloc, row)?;
    let words = words_of_types(alloc, type_at, parts.as_slice())?;
    object(
        alloc,
        type_kind(row),
        types.height(t) as u16,
        words.as_slice(),
    )
}

// The object of a coercion, where the addresses of the types and the words of the coercions before it are told. `Id`
// has no words.
fn object_of_coercion(
    alloc: Global,
    types: &TypeTable,
    table: &CoercionTable,
    type_at: &[u64],
    coercion_at: &[u64],
    c: CoercionId,
) -> Result<WordList, OutOfMemory>
    requires there { c.0 < length table.now.nodes }
    requires fits { FitsTypes types.now table.now }
    requires types { length type_at.now ≡ length types.now }
    requires told { length coercion_at.now ≡ c.0 }
    ensures { IfOk result (λ object. (node : Node) → slice_get table.now.nodes c.0 ≡ Some node
        → object ≡ node_object type_at.now coercion_at.now
        (coercion_height (height types.now) (tree_of table.now.nodes c.0)) node) }
{
    table.len();
    let high = table.height(c) as u16;
    let node = table.node(c);
    match node {
        CoercionNode::Id => Ok(WordList::new(alloc)),
        CoercionNode::Fail(label) => object(alloc, Kind::Fail, 0, &[u64::from(label.0)]),
        CoercionNode::Fun(..) => object_of_middle(alloc, Kind::Fun, high, node, coercion_at),
        CoercionNode::Tup(_) => object_of_middle(alloc, Kind::Tup, high, node, coercion_at),
        CoercionNode::Ref(..) => object_of_middle(alloc, Kind::Ref, high, node, coercion_at),
        CoercionNode::Vec(..) => object_of_middle(alloc, Kind::Vec, high, node, coercion_at),
        CoercionNode::Inject(g, kept) => {
            let words = [coercion_at[g.0 as usize], type_at[kept.0 as usize]];
            object(alloc, Kind::Inject, high, &words)
        }
        CoercionNode::Project(wanted, label, i) => {
            let words = [
                type_at[wanted.0 as usize],
                u64::from(label.0),
                coercion_at[i.0 as usize],
            ];
            object(alloc, Kind::Project, high, &words)
        }
    }
}

// The object of a middle of this kind and height.
fn object_of_middle(
    alloc: Global,
    kind: Kind,
    high: u16,
    node: &CoercionNode,
    coercion_at: &[u64],
) -> Result<WordList, OutOfMemory>
    requires parts { All (λ part. part < length coercion_at.now) (node_parts (node_of node.now)) }
    requires few { length (node_parts (node_of node.now)) ≤ 8 }
    ensures { IfOk result (λ object. object
        ≡ packed (header kind high (length (node_parts (node_of node.now))))
        ∷ words_at coercion_at.now (node_parts (node_of node.now))) }
{
    let parts = node.parts(alloc)?;
    let words = words_of_coercions(alloc, coercion_at, parts.as_slice())?;
    object(alloc, kind, high, words.as_slice())
}

// An object with these words behind its header.
fn object(alloc: Global, kind: Kind, high: u16, words: &[u64]) -> Result<WordList, OutOfMemory>
    requires { length words.now ≤ 8 }
    ensures { IfOk result (λ object. object ≡ packed (header kind high (length words.now)) ∷ words.now) }
{
    let header = Header {
        kind: kind.number(),
        height: high,
        count: words.len() as u32,
    };
    let mut object = WordList::new(alloc);
    object.push(pack(header))?;
    object.extend(words)?;
    Ok(object)
}

// The kind of a type's object.
fn type_kind(row: &Row) -> Kind
    ensures { result ≡ type_kind (row_of row.now) }
{
    match row {
        Row::Int => Kind::IntType,
        Row::Bool => Kind::BoolType,
        Row::Unit => Kind::UnitType,
        Row::Dyn => Kind::DynType,
        Row::Fun(..) => Kind::FunType,
        Row::Tuple(_) => Kind::TupleType,
        Row::Ref(_) => Kind::RefType,
        Row::Vect(_) => Kind::VecType,
    }
}

// The parts of a type, in order.
fn parts_of(alloc: Global, row: &Row) -> Result<Vec<TypeId>, OutOfMemory>
    ensures { IfOk result (λ parts. places_of parts.items ≡ parts_of (row_of row.now)) }
{
    match row {
        Row::Int | Row::Bool | Row::Unit | Row::Dyn => Ok(Vec::new(alloc)),
        Row::Fun(parameters, result) => {
            let mut parts = Vec::from_slice(alloc, parameters.as_slice())?;
            parts.push(*result)?;
            Ok(parts)
        }
        Row::Tuple(parts) => Ok(Vec::from_slice(alloc, parts.as_slice())?),
        Row::Ref(content) | Row::Vect(content) => Ok(Vec::from_slice(alloc, &[*content])?),
    }
}

// The addresses of these types.
fn words_of_types(alloc: Global, type_at: &[u64], parts: &[TypeId]) -> Result<Vec<u64>, OutOfMemory>
    requires { All (λ part. part < length type_at.now) (places_of parts.now) }
    ensures { IfOk result (λ words. words.items ≡ words_at type_at.now (places_of parts.now)) }
{
    let mut words = Vec::new(alloc);
    for part in parts {
        words.push(type_at[part.0 as usize])?;
    }
    Ok(words)
}

// The words of these coercions.
fn words_of_coercions(
    alloc: Global,
    coercion_at: &[u64],
    parts: &[CoercionId],
) -> Result<Vec<u64>, OutOfMemory>
    requires { All (λ part. part < length coercion_at.now) (coercion_places parts.now) }
    ensures { IfOk result (λ words. words.items ≡ words_at coercion_at.now (coercion_places parts.now)) }
{
    let mut words = Vec::new(alloc);
    for part in parts {
        words.push(coercion_at[part.0 as usize])?;
    }
    Ok(words)
}

// The word of each cast: that of its coercion.
fn words_of_casts(
    alloc: Global,
    coercion_at: &[u64],
    casts: &[CastRow],
) -> Result<WordList, OutOfMemory>
    requires { All (λ cast. cast.coercion.0 < length coercion_at.now) casts.now }
    ensures { IfOk result (λ words. words ≡ map (λ cast. slice_index coercion_at.now cast.coercion.0) casts.now) }
{
    let mut words = WordList::new(alloc);
    for cast in casts {
        words.push(coercion_at[cast.coercion.0 as usize])?;
    }
    Ok(words)
}
