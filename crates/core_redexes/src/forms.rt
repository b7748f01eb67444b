// Terms that are values, and rows of types.

ghost use Rattle.std.specs.Prelude.{◌≡◌, is_some, option_map, option_and_then, Some, None, IsTrue, IsFalse, IfNone};
ghost use Rattle.grift_base.specs.Types.{content_of, dyn_place, is_base, is_dyn, row_at, same_head, tuple_part};
ghost use Rattle.type_graph.specs.Rows.{row_of};
ghost use Rattle.core_calc.specs.Terms.{ValueTerm, all_values, as_value, bound_values};
ghost use Rattle.core_redexes.specs.Values.{held_of, wrapped_of, wrapper_in, wrapper_view};
ghost use Rattle.core_calc.specs.Views.{bindings_of, term_of, terms_of, value_of};

use core_calc::terms::{Core, CoreBindings, CoreList, Value};
use grift_base::places::{LabelId, TypeId};
use std::mem;
use type_graph::rows::Row;
use type_graph::tables::TypeTable;

/// Whether a term is a value.
pub fn is_value(term: &Core) -> bool
    ensures { result ≡ is_some (as_value (term_of term.now)) }
{
    match term {
        Core::Int(_) | Core::Bool(_) | Core::Unit | Core::Value(_) => true,
        _ => false,
    }
}

/// Whether terms are all values.
pub fn are_values(terms: &CoreList) -> bool
    ensures { result ≡ is_some (all_values (terms_of terms.now)) }
{
    let mut left = terms;
    while let CoreList::Cons(first, rest) = left {
        if !is_value(first) {
            return false;
        }
        left = rest;
    }
    true
}

/// Whether bound terms are all values.
pub fn are_bound(bindings: &CoreBindings) -> bool
    ensures { result ≡ is_some (bound_values (bindings_of bindings.now)) }
{
    let mut left = bindings;
    while let CoreBindings::Cons(first, rest) = left {
        if !is_value(&first.value) {
            return false;
        }
        left = rest;
    }
    true
}

/// Takes out the value that a term is. A term that is none stays.
pub fn take_value(term: &mut Core) -> Option<Value>
    ensures taken { option_map value_of result ≡ as_value (term_of term.old) }
    ensures stays { IfNone result (term_of term.new ≡ term_of term.old) }
{
    match term {
        Core::Int(n) => Some(Value::Int(*n)),
        Core::Bool(b) => Some(Value::Bool(*b)),
        Core::Unit => Some(Value::Unit),
        Core::Value(v) => Some(mem::replace(v, Value::Unit)),
        _ => None,
    }
}

/// Takes out what Dyn holds, and the type that it kept. A term that is no such value stays.
pub fn take_injected(term: &mut Core) -> Option<(Value, TypeId)>
    ensures taken { option_map (λ held. (value_of held.0, held.1.0)) result ≡ held_of (as_value (term_of term.old)) }
    ensures stays { IfNone result (term_of term.new ≡ term_of term.old) }
{
    let Core::Value(v) = term else {
        return None;
    };
    let Value::Inject(held, kept) = v else {
        return None;
    };
    let kept = *kept;
    let held = mem::replace(&mut **held, Value::Unit);
    Some((held, kept))
}

/// What a wrapper says: from a type, under a label, to a type.
#[derive(Clone, Copy)]
pub struct Wrapper {
    pub from: TypeId,
    pub label: LabelId,
    pub to: TypeId,
}

/// What a term's wrapper says, if it is a value with one.
pub fn wrapper_of(term: &Core) -> Option<Wrapper>
    ensures { option_map wrapper_view result ≡ wrapper_in (as_value (term_of term.now)) }
{
    match term {
        Core::Value(Value::Wrap(_, from, label, to)) => Some(Wrapper {
            from: *from,
            label: *label,
            to: *to,
        }),
        _ => None,
    }
}

/// Takes a wrapper off the value that a term is. A term without one stays, and says so.
pub fn unwrap_value(term: &mut Core) -> bool
    ensures done { IsTrue result
        → option_map ValueTerm (wrapped_of (as_value (term_of term.old))) ≡ Some (term_of term.new) }
    ensures stays { IsFalse result → wrapped_of (as_value (term_of term.old)) ≡ None }
    ensures same { IsFalse result → term_of term.new ≡ term_of term.old }
{
    let Core::Value(v) = term else {
        return false;
    };
    let Value::Wrap(inner, _, _, _) = v else {
        return false;
    };
    let inner = mem::replace(&mut **inner, Value::Unit);
    *v = inner;
    true
}

/// The type of a part, if the type is one of tuples that have it.
pub fn part_of(types: &TypeTable, ty: TypeId, k: i64) -> Option<TypeId>
    ensures { option_map (λ t. t.0) result ≡ option_and_then (λ row. tuple_part row k) (row_at types.now ty.0) }
{
    match row(types, ty) {
        Some(Row::Tuple(parts)) if k >= 0 => parts.get(k as u64).copied(),
        _ => None,
    }
}

/// The type of what a box or a vector of this type holds, if it is one of these.
pub fn content_of(types: &TypeTable, ty: TypeId) -> Option<TypeId>
    ensures { option_map (λ t. t.0) result ≡ option_and_then content_of (row_at types.now ty.0) }
{
    match row(types, ty) {
        Some(Row::Ref(content) | Row::Vect(content)) => Some(*content),
        _ => None,
    }
}

/// The place of Dyn, if the table has it.
pub fn dyn_type(types: &TypeTable) -> Option<TypeId>
    ensures { option_map (λ t. t.0) result ≡ dyn_place types.now }
{
    // The table is one: `len` says that no row stands twice.
    types.len();
    types.place_of(&Row::Dyn)
}

/// The row of a type, if the table has it.
pub fn row(types: &TypeTable, ty: TypeId) -> Option<&Row>
    ensures { option_map (λ row. row_of row.now) result ≡ row_at types.now ty.0 }
{
    if ty.0 < types.len() {
        Some(types.row(ty))
    } else {
        None
    }
}

/// Whether a row is Dyn.
pub fn is_dyn(row: &Row) -> bool
    ensures { result ≡ is_dyn (row_of row.now) }
{
    matches!(row, Row::Dyn)
}

/// Whether a row is Int, Bool or Unit.
pub fn is_base(row: &Row) -> bool
    ensures { result ≡ is_base (row_of row.now) }
{
    matches!(row, Row::Int | Row::Bool | Row::Unit)
}

/// Whether two rows have equal heads.
pub fn same_head(row: &Row, other: &Row) -> bool
    ensures { result ≡ same_head (row_of row.now) (row_of other.now) }
{
    match row {
        Row::Int => matches!(other, Row::Int),
        Row::Bool => matches!(other, Row::Bool),
        Row::Unit => matches!(other, Row::Unit),
        Row::Dyn => matches!(other, Row::Dyn),
        Row::Fun(parameters, _) => match other {
            Row::Fun(others, _) => parameters.len() == others.len(),
            _ => false,
        },
        Row::Tuple(parts) => match other {
            Row::Tuple(others) => parts.len() == others.len(),
            _ => false,
        },
        Row::Ref(_) => matches!(other, Row::Ref(_)),
        Row::Vect(_) => matches!(other, Row::Vect(_)),
    }
}
