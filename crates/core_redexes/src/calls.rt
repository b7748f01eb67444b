// Calls, groups and bindings. What takes memory is made first and put in afterwards, so that nothing has changed where
// memory runs out.

ghost use Rattle.std.specs.Prelude.{◌≡◌, IfNone, IfOk, None, OnErr, Some, false, if◌then◌else◌, option_map};
ghost use Rattle.std.specs.Global.{Box};
ghost use Rattle.grift_base.specs.Types.{row_at};
ghost use Rattle.type_graph.specs.Rows.{places_of};
ghost use Rattle.core_calc.specs.Terms.{Cast, as_value};
ghost use Rattle.core_calc.specs.Substitution.{group_values};
ghost use Rattle.core_calc.specs.Views.{bindings_of, members_of, names_of, term_of, terms_of};
ghost use Rattle.core_redexes.specs.Entered.{entered, with_arguments};
ghost use Rattle.core_terms.specs.Entries.{entries_of};
ghost use Rattle.core_redexes.specs.Moves.{Moves, MovesBy};
ghost use Rattle.core_redexes.specs.Redexes.{call_redex, enter_redex, group_redex, let_redex};
ghost use Rattle.core_redexes.specs.Taken.{as_many, casts, taken_arguments, taken_bindings, wrapped_casts};

use crate::forms::{Wrapper, are_bound, are_values, row, unwrap_value, wrapper_of};
use crate::moves::Moved;
use core_calc::terms::{Core, CoreBindings, CoreList, GroupMembers, Value, VarId};
use core_terms::copies::{copy_as_value, copy_term};
use core_terms::lists::{boxed_then, terms_onto};
use core_terms::substitution::{Entry, push_entry, substitute};
use grift_base::lists::OutOfMemory;
use grift_base::made::boxed;
use grift_base::places::{LabelId, TypeId};
use std::alloc::Global;
use std::mem;
use type_graph::rows::Row;
use type_graph::tables::TypeTable;

/// Enters a call whose function and arguments are values.
pub fn call_redex(alloc: Global, term: &mut Core) -> Result<Moved, OutOfMemory>
    ensures moves { IfOk result (MovesBy call_redex (term_of term.old) (term_of term.new)) }
    ensures stays { OnErr result (term_of term.new ≡ term_of term.old) }
{
    let place = boxed(alloc, Core::Unit)?;
    let Core::Call(function, arguments) = term else {
        return Ok(Moved::Stuck);
    };
    let function = mem::replace(function, place);
    let arguments = mem::replace(arguments, CoreList::Nil);
    *term = Core::Enter(function, arguments);
    Ok(Moved::Goes)
}

/// Puts the functions of a group into its body.
pub fn group_redex(alloc: Global, term: &mut Core) -> Result<Moved, OutOfMemory>
    ensures moves { IfOk result (MovesBy group_redex (term_of term.old) (term_of term.new)) }
    ensures stays { OnErr result (term_of term.new ≡ term_of term.old) }
{
    let Core::Group(members, body) = term else {
        return Ok(Moved::Stuck);
    };
    substitute(alloc, body, &[], members)?;
    let body = mem::replace(&mut **body, Core::Unit);
    *term = body;
    Ok(Moved::Goes)
}

// The names of bindings with copies of their values.
fn bound_entries(alloc: Global, bindings: &CoreBindings) -> Result<Vec<Entry>, OutOfMemory>
    ensures { IfOk result (λ entries. entries_of entries.items ≡ taken_bindings (bindings_of bindings.now)) }
{
    let mut entries = Vec::new(alloc);
    let mut left = bindings;
    while let CoreBindings::Cons(first, rest) = left {
        if let Some(value) = copy_as_value(alloc, &first.value)? {
            push_entry(&mut entries, first.name, value)?;
        }
        left = rest;
    }
    Ok(entries)
}

/// Puts bound values into the body.
#[tactic(auto, using(crate::proofs::Taking::let_taken))]
pub fn let_redex(alloc: Global, term: &mut Core) -> Result<Moved, OutOfMemory>
    ensures moves { IfOk result (MovesBy let_redex (term_of term.old) (term_of term.new)) }
    ensures stays { OnErr result (term_of term.new ≡ term_of term.old) }
{
    let Core::Let(bindings, _) = &*term else {
        return Ok(Moved::Stuck);
    };
    if !are_bound(bindings) {
        return Ok(Moved::Stuck);
    }
    let entries = bound_entries(alloc, bindings)?;
    let none = GroupMembers::Nil;
    let Core::Let(_, body) = term else {
        return Ok(Moved::Stuck);
    };
    substitute(alloc, body, entries.as_slice(), &none)?;
    let body = mem::replace(&mut **body, Core::Unit);
    *term = body;
    Ok(Moved::Goes)
}

// Whether there are as many of these as terms.
fn as_many<T>(items: &[T], terms: &CoreList) -> bool
    ensures { result ≡ as_many items.now (terms_of terms.now) }
{
    let mut items = items;
    let mut left = terms;
    while let CoreList::Cons(_, rest) = left {
        let [_, others @ ..] = items else {
            return false;
        };
        items = others;
        left = rest;
    }
    matches!(items, [])
}

// Names with copies of the values of arguments, as far as there are both.
fn argument_entries(
    alloc: Global,
    names: &[VarId],
    arguments: &CoreList,
) -> Result<Vec<Entry>, OutOfMemory>
    ensures { IfOk result (λ entries. entries_of entries.items
        ≡ taken_arguments (names_of names.now) (terms_of arguments.now)) }
{
    let mut entries = Vec::new(alloc);
    let mut names = names;
    let mut left = arguments;
    while let CoreList::Cons(first, rest) = left {
        let [name, others @ ..] = names else {
            return Ok(entries);
        };
        if let Some(value) = copy_as_value(alloc, first)? {
            push_entry(&mut entries, *name, value)?;
        }
        names = others;
        left = rest;
    }
    Ok(entries)
}

// Puts arguments in the place of as many parameters, and the functions of a group in the place of their names. None
// where the numbers differ; then nothing has changed.
fn put_arguments(
    alloc: Global,
    params: &[VarId],
    body: &mut Core,
    arguments: &CoreList,
    members: &GroupMembers,
) -> Result<bool, OutOfMemory>
    ensures put { IfOk result (λ b. (if b then Some (term_of body.new) else None)
        ≡ with_arguments (names_of params.now) (term_of body.old) (group_values (members_of members.now))
        (terms_of arguments.now)) }
    ensures same { IfOk result (λ b. (b ≡ false) → term_of body.new ≡ term_of body.old) }
    ensures stays { OnErr result (term_of body.new ≡ term_of body.old) }
{
    if !as_many(params, arguments) {
        return Ok(false);
    }
    let entries = argument_entries(alloc, params, arguments)?;
    substitute(alloc, body, entries.as_slice(), members)?;
    Ok(true)
}

// A copy of a body, with arguments in the place of as many parameters, and with the functions of a group in the place
// of their names. None where the numbers differ.
fn copy_entered(
    alloc: Global,
    params: &[VarId],
    body: &Core,
    arguments: &CoreList,
    members: &GroupMembers,
) -> Result<Option<Box<Core>>, OutOfMemory>
    ensures { IfOk result (λ o. option_map (λ b. term_of b.value) o
        ≡ with_arguments (names_of params.now) (term_of body.now) (group_values (members_of members.now))
        (terms_of arguments.now)) }
{
    let mut body = copy_term(alloc, body)?;
    if !put_arguments(alloc, params, &mut body, arguments, members)? {
        return Ok(None);
    }
    Ok(Some(body))
}

// A copy of a term in a cast.
fn copy_in_cast(
    alloc: Global,
    term: &Core,
    from: TypeId,
    to: TypeId,
    label: LabelId,
) -> Result<Box<Core>, OutOfMemory>
    ensures { IfOk result (λ made. term_of made.value ≡ Cast (term_of term.now) from.0 to.0 label.0) }
{
    let below = copy_term(alloc, term)?;
    boxed(alloc, Core::Cast(below, from, to, label))
}

// Copies of arguments, each in a cast from one type to the other, as far as there are types.
fn cast_arguments(
    alloc: Global,
    arguments: &CoreList,
    froms: &[TypeId],
    tos: &[TypeId],
    label: LabelId,
) -> Result<CoreList, OutOfMemory>
    ensures { IfOk result (λ made. terms_of made
        ≡ casts (terms_of arguments.now) (places_of froms.now) (places_of tos.now) label.0) }
{
    let mut done = CoreList::Nil;
    let mut froms = froms;
    let mut tos = tos;
    let mut left = arguments;
    while let CoreList::Cons(first, rest) = left {
        let [from, other_froms @ ..] = froms else {
            return Ok(terms_onto(done, CoreList::Nil));
        };
        let [to, other_tos @ ..] = tos else {
            return Ok(terms_onto(done, CoreList::Nil));
        };
        let made = copy_in_cast(alloc, first, *from, *to, label)?;
        done = boxed_then(alloc, made, done)?;
        froms = other_froms;
        tos = other_tos;
        left = rest;
    }
    Ok(terms_onto(done, CoreList::Nil))
}

// The arguments of a function that is seen through a cast, copied into casts to what it takes, with the types of its
// answer and of the answer that is wanted. None where the types are no functions of so many parameters.
#[tactic(auto, using(crate::proofs::Entering::casts_are, crate::proofs::Entering::no_casts, crate::proofs::Entering::no_casts_to))]
fn wrapped_casts(
    alloc: Global,
    types: &TypeTable,
    wrapper: Wrapper,
    arguments: &CoreList,
) -> Result<Option<(CoreList, TypeId, TypeId)>, OutOfMemory>
    ensures { IfOk result (λ o. option_map (λ made. (terms_of made.0, made.1.0, made.2.0)) o
        ≡ wrapped_casts (row_at types.now wrapper.from.0) (row_at types.now wrapper.to.0) (terms_of arguments.now)
        wrapper.label.0) }
{
    let Some(Row::Fun(inner, answer)) = row(types, wrapper.from) else {
        return Ok(None);
    };
    let Some(Row::Fun(outer, wanted)) = row(types, wrapper.to) else {
        return Ok(None);
    };
    if !as_many(outer.as_slice(), arguments) {
        return Ok(None);
    }
    if !as_many(inner.as_slice(), arguments) {
        return Ok(None);
    }
    let outer = outer.as_slice();
    let inner = inner.as_slice();
    let casts = cast_arguments(alloc, arguments, outer, inner, wrapper.label)?;
    Ok(Some((casts, *answer, *wanted)))
}

// The body of a function with arguments in the place of its parameters, and with the functions of its group in the
// place of their names. None where it is no function of so many parameters; then nothing has changed.
fn entered(
    alloc: Global,
    function: &mut Core,
    arguments: &CoreList,
) -> Result<Option<Box<Core>>, OutOfMemory>
    ensures body { IfOk result (λ o. option_map (λ b. term_of b.value) o
        ≡ entered (as_value (term_of function.old)) (terms_of arguments.now)) }
    ensures same { IfOk result (λ o. IfNone o (term_of function.new ≡ term_of function.old)) }
    ensures stays { OnErr result (term_of function.new ≡ term_of function.old) }
{
    if let Core::Value(Value::GroupMember(members, place)) = &*function {
        let Some(member) = members.get(*place as u64) else {
            return Ok(None);
        };
        let params = member.params.as_slice();
        let body = copy_entered(alloc, params, &member.body, arguments, members)?;
        return Ok(body);
    }
    let place = boxed(alloc, Core::Unit)?;
    let Core::Value(v) = function else {
        return Ok(None);
    };
    let Value::Fun(params, body, _) = v else {
        return Ok(None);
    };
    let none = GroupMembers::Nil;
    if !put_arguments(alloc, params.as_slice(), body, arguments, &none)? {
        return Ok(None);
    }
    Ok(Some(mem::replace(body, place)))
}

/// Enters a function: one that is seen through a cast with its arguments in casts, and any other with values in the
/// place of its parameters and of the names of its group.
pub fn enter_redex(alloc: Global, types: &TypeTable, term: &mut Core) -> Result<Moved, OutOfMemory>
    ensures moves { IfOk result (Moves (enter_redex types.now) (term_of term.old) (term_of term.new)) }
    ensures stays { OnErr result (term_of term.new ≡ term_of term.old) }
{
    let Core::Enter(function, arguments) = term else {
        return Ok(Moved::Stuck);
    };
    if let Some(wrapper) = wrapper_of(function) {
        let Some((casts, answer, wanted)) = wrapped_casts(alloc, types, wrapper, arguments)? else {
            return Ok(Moved::Stuck);
        };
        let mut place = boxed(alloc, Core::Unit)?;
        if !unwrap_value(function) {
            return Ok(Moved::Stuck);
        }
        *arguments = casts;
        *place = mem::replace(term, Core::Unit);
        *term = Core::Cast(place, answer, wanted, wrapper.label);
        return Ok(Moved::Goes);
    }
    if !are_values(arguments) {
        return Ok(Moved::Stuck);
    }
    match entered(alloc, function, arguments)? {
        Some(body) => {
            *term = Box::into_inner(body);
            Ok(Moved::Goes)
        }
        None => Ok(Moved::Stuck),
    }
}
