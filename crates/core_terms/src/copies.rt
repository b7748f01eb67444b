// Copies of values and terms.

ghost use Rattle.std.specs.Prelude.{◌≡◌, IfOk, option_map};
ghost use Rattle.std.specs.Global.{Box};
ghost use Rattle.core_calc.specs.Terms.{as_value};
ghost use Rattle.core_calc.specs.Views.{bindings_of, members_of, term_of, terms_of, value_of, values_of};

use crate::lists::{
    binding_then, bindings_onto, boxed_then, member_then, members_onto, terms_onto, value_then,
    values_onto,
};
use core_calc::terms::{
    Core, CoreBinding, CoreBindings, CoreList, GroupMember, GroupMembers, Value, Values, VarIds,
};
use grift_base::lists::OutOfMemory;
use grift_base::made::boxed;
use std::alloc::Global;

/// The same names again.
pub fn copy_names(alloc: Global, names: &VarIds) -> Result<VarIds, OutOfMemory>
    ensures { IfOk result (λ copy. copy ≡ names.now) }
{
    Ok(VarIds::from_slice(alloc, names.as_slice())?)
}

// Forms of several parts are copied in a function of their own: what a proof costs goes by the calls of a function
// times its exits. Copies of terms are answered in boxes, since each step that holds a term by value shows all its
// forms.

// A copy of a value, in a box.
#[cycle(copies)]
fn copy_value_in_box(alloc: Global, v: &Value) -> Result<Box<Value>, OutOfMemory>
    ensures { IfOk result (λ copy. value_of copy.value ≡ value_of v.now) }
{
    let copy = copy_value(alloc, v)?;
    boxed(alloc, copy)
}

// The parameters and the body of a function again.
#[cycle(copies)]
fn copy_function(
    alloc: Global,
    params: &VarIds,
    body: &Core,
) -> Result<(VarIds, Box<Core>), OutOfMemory>
    ensures { IfOk result (λ copy. (copy.0 ≡ params.now) × (term_of copy.1.value ≡ term_of body.now)) }
{
    let params = copy_names(alloc, params)?;
    let body = copy_term(alloc, body)?;
    Ok((params, body))
}

// The same term again, of a form that joins several parts; no other form comes here.
#[cycle(copies)]
fn copy_joined(alloc: Global, core: &Core) -> Result<Box<Core>, OutOfMemory>
    ensures { IfOk result (λ copy. term_of copy.value ≡ term_of core.now) }
{
    match core {
        Core::Group(members, body) => {
            let members = copy_members(alloc, members)?;
            let body = copy_term(alloc, body)?;
            boxed(alloc, Core::Group(members, body))
        }
        Core::Let(bindings, body) => {
            let bindings = copy_bindings(alloc, bindings)?;
            let body = copy_term(alloc, body)?;
            boxed(alloc, Core::Let(bindings, body))
        }
        Core::Call(function, arguments) => {
            let function = copy_term(alloc, function)?;
            let arguments = copy_terms(alloc, arguments)?;
            boxed(alloc, Core::Call(function, arguments))
        }
        Core::Enter(function, arguments) => {
            let function = copy_term(alloc, function)?;
            let arguments = copy_terms(alloc, arguments)?;
            boxed(alloc, Core::Enter(function, arguments))
        }
        Core::If(condition, on_true, on_false) => {
            let condition = copy_term(alloc, condition)?;
            let on_true = copy_term(alloc, on_true)?;
            let on_false = copy_term(alloc, on_false)?;
            boxed(alloc, Core::If(condition, on_true, on_false))
        }
        _ => Err(OutOfMemory),
    }
}

/// The same value again.
#[cycle(copies)]
pub fn copy_value(alloc: Global, v: &Value) -> Result<Value, OutOfMemory>
    ensures { IfOk result (λ copy. value_of copy ≡ value_of v.now) }
{
    match v {
        Value::Int(n) => Ok(Value::Int(*n)),
        Value::Bool(b) => Ok(Value::Bool(*b)),
        Value::Unit => Ok(Value::Unit),
        Value::Fun(params, body, ty) => {
            let (params, body) = copy_function(alloc, params, body)?;
            Ok(Value::Fun(params, body, *ty))
        }
        Value::GroupMember(members, place) => {
            let members = copy_members(alloc, members)?;
            Ok(Value::GroupMember(members, *place))
        }
        Value::Tuple(parts) => {
            let parts = copy_values(alloc, parts)?;
            Ok(Value::Tuple(parts))
        }
        Value::Loc(cell, is_vector) => Ok(Value::Loc(*cell, *is_vector)),
        Value::Wrap(v, from, label, to) => {
            let v = copy_value_in_box(alloc, v)?;
            Ok(Value::Wrap(v, *from, *label, *to))
        }
        Value::Inject(v, kept) => {
            let v = copy_value_in_box(alloc, v)?;
            Ok(Value::Inject(v, *kept))
        }
    }
}

/// The same term again.
#[cycle(copies)]
pub fn copy_term(alloc: Global, core: &Core) -> Result<Box<Core>, OutOfMemory>
    ensures { IfOk result (λ copy. term_of copy.value ≡ term_of core.now) }
{
    match core {
        Core::Int(n) => boxed(alloc, Core::Int(*n)),
        Core::Bool(b) => boxed(alloc, Core::Bool(*b)),
        Core::Unit => boxed(alloc, Core::Unit),
        Core::Var(name) => boxed(alloc, Core::Var(*name)),
        Core::Lambda(params, body, ty) => {
            let (params, body) = copy_function(alloc, params, body)?;
            boxed(alloc, Core::Lambda(params, body, *ty))
        }
        Core::Group(..) | Core::Let(..) | Core::Call(..) | Core::Enter(..) | Core::If(..) => {
            copy_joined(alloc, core)
        }
        Core::Seq(terms) => {
            let terms = copy_terms(alloc, terms)?;
            boxed(alloc, Core::Seq(terms))
        }
        Core::Cast(term, from, to, label) => {
            let term = copy_term(alloc, term)?;
            boxed(alloc, Core::Cast(term, *from, *to, *label))
        }
        Core::Proj(term, k) => {
            let term = copy_term(alloc, term)?;
            boxed(alloc, Core::Proj(term, *k))
        }
        Core::ProjDyn(term, k, label) => {
            let term = copy_term(alloc, term)?;
            boxed(alloc, Core::ProjDyn(term, *k, *label))
        }
        Core::Tuple(parts) => {
            let parts = copy_terms(alloc, parts)?;
            boxed(alloc, Core::Tuple(parts))
        }
        Core::Prim(operator, operands) => {
            let operands = copy_terms(alloc, operands)?;
            boxed(alloc, Core::Prim(*operator, operands))
        }
        Core::Value(v) => {
            let v = copy_value(alloc, v)?;
            boxed(alloc, Core::Value(v))
        }
    }
}

/// The same terms again.
#[cycle(copies)]
pub fn copy_terms(alloc: Global, terms: &CoreList) -> Result<CoreList, OutOfMemory>
    ensures { IfOk result (λ copy. terms_of copy ≡ terms_of terms.now) }
{
    let mut done = CoreList::Nil;
    let mut left = terms;
    while let CoreList::Cons(first, rest) = left {
        let term = copy_term(alloc, first)?;
        done = boxed_then(alloc, term, done)?;
        left = rest;
    }
    Ok(terms_onto(done, CoreList::Nil))
}

/// The same functions of a group again.
#[cycle(copies)]
pub fn copy_members(alloc: Global, members: &GroupMembers) -> Result<GroupMembers, OutOfMemory>
    ensures { IfOk result (λ copy. members_of copy ≡ members_of members.now) }
{
    let mut done = GroupMembers::Nil;
    let mut left = members;
    while let GroupMembers::Cons(first, rest) = left {
        let params = copy_names(alloc, &first.params)?;
        let body = copy_term(alloc, &first.body)?;
        let member = GroupMember {
            name: first.name,
            params,
            body: Box::into_inner(body),
            ty: first.ty,
        };
        done = member_then(alloc, member, done)?;
        left = rest;
    }
    Ok(members_onto(done, GroupMembers::Nil))
}

/// The same bindings again.
#[cycle(copies)]
pub fn copy_bindings(alloc: Global, bindings: &CoreBindings) -> Result<CoreBindings, OutOfMemory>
    ensures { IfOk result (λ copy. bindings_of copy ≡ bindings_of bindings.now) }
{
    let mut done = CoreBindings::Nil;
    let mut left = bindings;
    while let CoreBindings::Cons(first, rest) = left {
        let value = copy_term(alloc, &first.value)?;
        let binding = CoreBinding {
            name: first.name,
            value: Box::into_inner(value),
        };
        done = binding_then(alloc, binding, done)?;
        left = rest;
    }
    Ok(bindings_onto(done, CoreBindings::Nil))
}

/// The same values again.
#[cycle(copies)]
pub fn copy_values(alloc: Global, values: &Values) -> Result<Values, OutOfMemory>
    ensures { IfOk result (λ copy. values_of copy ≡ values_of values.now) }
{
    let mut done = Values::Nil;
    let mut left = values;
    while let Values::Cons(first, rest) = left {
        let v = copy_value(alloc, first)?;
        done = value_then(alloc, v, done)?;
        left = rest;
    }
    Ok(values_onto(done, Values::Nil))
}

/// A copy of the value that a term is, if it is one.
pub fn copy_as_value(alloc: Global, term: &Core) -> Result<Option<Value>, OutOfMemory>
    ensures { IfOk result (λ o. option_map value_of o ≡ as_value (term_of term.now)) }
{
    match term {
        Core::Int(n) => Ok(Some(Value::Int(*n))),
        Core::Bool(b) => Ok(Some(Value::Bool(*b))),
        Core::Unit => Ok(Some(Value::Unit)),
        Core::Value(v) => {
            let v = copy_value(alloc, v)?;
            Ok(Some(v))
        }
        _ => Ok(None),
    }
}
