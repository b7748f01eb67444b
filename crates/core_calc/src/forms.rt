// The types of forms, by those of their parts.

ghost use Rattle.std.specs.Prelude.{◌≡◌, option_map};
ghost use Rattle.grift_base.specs.Types.{row_at};
ghost use Rattle.type_graph.specs.Forming.{equal_numbers};
ghost use Rattle.type_graph.specs.Rows.{places_of, row_of};
ghost use Rattle.core_calc.specs.TypeOf.{Finds, box_content, call_type, cast_type, dyn_part_type, if_type, int_type};
ghost use Rattle.core_calc.specs.TypeOf.{is_bool, is_dyn_type, is_int, lambda_type, last_of, part_type, place_of};
ghost use Rattle.core_calc.specs.TypeOf.{tuple_type, vector_content};

use crate::scopes::Untyped;
use grift_base::places::TypeId;
use std::alloc::Global;
use type_graph::rows::{Row, TypeIds};
use type_graph::tables::TypeTable;

/// The row of a type, if the table has it.
pub fn row(types: &TypeTable, ty: TypeId) -> Option<&Row>
    ensures { option_map (λ row. row_of row.now) result ≡ row_at types.now ty.0 }
{
    if ty.0 < types.len() {
        Some(types.row(ty))
    } else {
        None
    }
}

/// The place of a row, if the table has it.
pub fn place_of(types: &TypeTable, row: &Row) -> Option<TypeId>
    ensures { option_map (λ t. t.0) result ≡ place_of types.now (row_of row.now) }
{
    // The table is one: `len` says that no row stands twice.
    types.len();
    types.place_of(row)
}

/// Whether a type is Int.
pub fn is_int(types: &TypeTable, ty: TypeId) -> bool
    ensures { result ≡ is_int (row_at types.now ty.0) }
{
    matches!(row(types, ty), Some(Row::Int))
}

/// Whether a type is Bool.
pub fn is_bool(types: &TypeTable, ty: TypeId) -> bool
    ensures { result ≡ is_bool (row_at types.now ty.0) }
{
    matches!(row(types, ty), Some(Row::Bool))
}

// Whether a type is Dyn.
fn is_dyn(types: &TypeTable, ty: TypeId) -> bool
    ensures { result ≡ is_dyn_type (row_at types.now ty.0) }
{
    matches!(row(types, ty), Some(Row::Dyn))
}

/// The type of what a box of this type holds, if it is one of boxes.
pub fn box_content(types: &TypeTable, ty: TypeId) -> Option<TypeId>
    ensures { option_map (λ t. t.0) result ≡ box_content (row_at types.now ty.0) }
{
    match row(types, ty) {
        Some(Row::Ref(content)) => Some(*content),
        _ => None,
    }
}

/// The type of the elements of a vector of this type, if it is one of vectors.
pub fn vector_content(types: &TypeTable, ty: TypeId) -> Option<TypeId>
    ensures { option_map (λ t. t.0) result ≡ vector_content (row_at types.now ty.0) }
{
    match row(types, ty) {
        Some(Row::Vect(content)) => Some(*content),
        _ => None,
    }
}

/// The type of an integer.
pub fn int_type(types: &TypeTable, n: i64) -> Option<TypeId>
    ensures { option_map (λ t. t.0) result ≡ int_type types.now n }
{
    place_of(types, &Row::Int)
}

/// The type of a function that is written with this type, where its body has a type and is to have another.
pub fn lambda_type(written: TypeId, answer: TypeId, ty: TypeId) -> Option<TypeId>
    ensures { option_map (λ t. t.0) result ≡ lambda_type written.0 answer.0 ty.0 }
{
    if ty.0 == answer.0 {
        Some(written)
    } else {
        None
    }
}

/// The type of a call of a function of this type with arguments of these types.
#[tactic(auto, using(crate::proofs::Chains::chain_steps), unfolding(crate::specs::TypeOf::and_then))]
pub fn call_type(types: &TypeTable, whole: TypeId, given: &[TypeId]) -> Option<TypeId>
    ensures { option_map (λ t. t.0) result ≡ call_type types.now whole.0 (places_of given.now) }
{
    match row(types, whole) {
        Some(Row::Fun(parameters, answer)) if same_types(given, parameters.as_slice()) => {
            Some(*answer)
        }
        _ => None,
    }
}

/// The type of an `if` whose condition and branches have these types.
pub fn if_type(types: &TypeTable, truth: TypeId, ty: TypeId, other: TypeId) -> Option<TypeId>
    ensures { option_map (λ t. t.0) result ≡ if_type types.now truth.0 ty.0 other.0 }
{
    if is_bool(types, truth) && ty.0 == other.0 {
        Some(ty)
    } else {
        None
    }
}

/// The type of a cast of a term of the first type.
pub fn cast_type(types: &TypeTable, given: TypeId, from: TypeId, to: TypeId) -> Option<TypeId>
    ensures { option_map (λ t. t.0) result ≡ cast_type types.now given.0 from.0 to.0 }
{
    if given.0 == from.0 && row(types, to).is_some() {
        Some(to)
    } else {
        None
    }
}

/// The type of a part of a term of this type.
pub fn part_type(types: &TypeTable, whole: TypeId, k: i64) -> Option<TypeId>
    ensures { option_map (λ t. t.0) result ≡ part_type (row_at types.now whole.0) k }
{
    match row(types, whole) {
        Some(Row::Tuple(parts)) if k >= 0 => parts.get(k as u64).copied(),
        _ => None,
    }
}

/// The type of a part of what a term of this type holds, which is to be Dyn.
pub fn dyn_part_type(types: &TypeTable, ty: TypeId) -> Option<TypeId>
    ensures { option_map (λ t. t.0) result ≡ dyn_part_type types.now ty.0 }
{
    if is_dyn(types, ty) { Some(ty) } else { None }
}

/// The type of a tuple of parts of these types.
pub fn tuple_type(alloc: Global, types: &TypeTable, given: &[TypeId]) -> Result<TypeId, Untyped>
    ensures { Finds result (λ t. t.0) (tuple_type types.now (places_of given.now)) }
{
    let row = Row::Tuple(TypeIds::from_slice(alloc, given)?);
    found(place_of(types, &row))
}

/// The type of the last of these.
pub fn last_of(given: &[TypeId]) -> Option<TypeId>
    ensures { option_map (λ t. t.0) result ≡ last_of (places_of given.now) }
{
    given.last().copied()
}

/// Whether two lists have the same types.
pub fn same_types(given: &[TypeId], wanted: &[TypeId]) -> bool
    ensures { result ≡ equal_numbers (places_of given.now) (places_of wanted.now) }
{
    given == wanted
}

/// The type, or that there is none.
pub fn found(ty: Option<TypeId>) -> Result<TypeId, Untyped>
    ensures { Finds result (λ t. t.0) (option_map (λ t. t.0) ty) }
{
    ty.ok_or(Untyped::NoType)
}
