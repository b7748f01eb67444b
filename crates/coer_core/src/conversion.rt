// Terms of the calculus as terms whose casts are numbers.

ghost use Rattle.std.specs.Prelude.{◌≡◌, IfOk, OnOk};
ghost use Rattle.core_calc.specs.Views.{bindings_of, members_of, term_of, terms_of};
ghost use Rattle.coer_core.specs.Conversion.{cast_views, converted, converted_all, converted_bindings};
ghost use Rattle.coer_core.specs.Conversion.{converted_members};
ghost use Rattle.coer_core.specs.Views.{row_bindings_of, row_members_of, row_term_of, row_terms_of};

use crate::casts::{Casts, number};
use crate::terms::{CoerBinding, CoerBindings, CoerList, CoerMember, CoerMembers, CoerTerm};
use coercion_norm::casts::Cast;
use core_calc::terms::{Core, CoreBindings, CoreList, GroupMembers, VarIds};
use grift_base::lists::OutOfMemory;
use grift_base::made::boxed;
use std::alloc::Global;

// A term with the numbers of its casts, those that were not met before added to the casts. A program term has neither
// `Enter` nor a value.
#[cycle(conversion)]
pub fn converted(alloc: Global, casts: &mut Casts, core: &Core) -> Result<CoerTerm, OutOfMemory>
    ensures term { IfOk result (λ t. row_term_of t ≡ (converted (cast_views casts.old) (term_of core.now)).term) }
    ensures casts { OnOk result
        (cast_views casts.new ≡ (converted (cast_views casts.old) (term_of core.now)).casts) }
{
    let term = match core {
        Core::Int(n) => CoerTerm::Int(*n),
        Core::Bool(b) => CoerTerm::Bool(*b),
        Core::Unit | Core::Enter(..) | Core::Value(_) => CoerTerm::Unit,
        Core::Var(name) => CoerTerm::Var(*name),
        Core::Lambda(params, body, ty) => {
            let body = part(alloc, casts, body)?;
            CoerTerm::Lambda(copied(alloc, params)?, body, *ty)
        }
        Core::Group(..) | Core::Let(..) | Core::Call(..) | Core::If(..) => {
            return several(alloc, casts, core);
        }
        Core::Seq(terms) => CoerTerm::Seq(converted_all(alloc, casts, terms)?),
        Core::Cast(term, from, to, label) => {
            let term = part(alloc, casts, term)?;
            let cast = Cast {
                from: *from,
                to: *to,
                label: *label,
            };
            CoerTerm::Coerce(term, number(casts, cast)?)
        }
        Core::Proj(term, k) => CoerTerm::Proj(part(alloc, casts, term)?, *k),
        Core::ProjDyn(term, k, label) => {
            CoerTerm::ProjDyn(part(alloc, casts, term)?, *k, *label)
        }
        Core::Tuple(parts) => CoerTerm::Tuple(converted_all(alloc, casts, parts)?),
        Core::Prim(operator, operands) => {
            CoerTerm::Prim(*operator, converted_all(alloc, casts, operands)?)
        }
    };
    Ok(term)
}

// The same of a form of several parts; no other form comes here. It is a function of its own, since what a proof costs
// goes by the calls of a function times its exits.
#[cycle(conversion)]
fn several(alloc: Global, casts: &mut Casts, core: &Core) -> Result<CoerTerm, OutOfMemory>
    ensures term { IfOk result (λ t. row_term_of t ≡ (converted (cast_views casts.old) (term_of core.now)).term) }
    ensures casts { OnOk result
        (cast_views casts.new ≡ (converted (cast_views casts.old) (term_of core.now)).casts) }
{
    let term = match core {
        Core::Group(members, body) => {
            let members = converted_members(alloc, casts, members)?;
            CoerTerm::Group(members, part(alloc, casts, body)?)
        }
        Core::Let(bindings, body) => {
            let bindings = converted_bindings(alloc, casts, bindings)?;
            CoerTerm::Let(bindings, part(alloc, casts, body)?)
        }
        Core::Call(function, arguments) => {
            let function = part(alloc, casts, function)?;
            CoerTerm::Call(function, converted_all(alloc, casts, arguments)?)
        }
        Core::If(condition, on_true, on_false) => {
            let condition = part(alloc, casts, condition)?;
            let on_true = part(alloc, casts, on_true)?;
            CoerTerm::If(condition, on_true, part(alloc, casts, on_false)?)
        }
        _ => return Err(OutOfMemory),
    };
    Ok(term)
}

// The same in a box.
#[cycle(conversion)]
fn part(alloc: Global, casts: &mut Casts, core: &Core) -> Result<Box<CoerTerm>, OutOfMemory>
    ensures term { IfOk result (λ b.
        row_term_of b.value ≡ (converted (cast_views casts.old) (term_of core.now)).term) }
    ensures casts { OnOk result
        (cast_views casts.new ≡ (converted (cast_views casts.old) (term_of core.now)).casts) }
{
    let term = converted(alloc, casts, core)?;
    boxed(alloc, term)
}

// The same names in a list of their own.
fn copied(alloc: Global, names: &VarIds) -> Result<VarIds, OutOfMemory>
    ensures { IfOk result (λ copy. copy ≡ names.now) }
{
    Ok(VarIds::from_slice(alloc, names.as_slice())?)
}

// Terms in order.
#[cycle(conversion)]
fn converted_all(
    alloc: Global,
    casts: &mut Casts,
    terms: &CoreList,
) -> Result<CoerList, OutOfMemory>
    ensures term { IfOk result (λ t.
        row_terms_of t ≡ (converted_all (cast_views casts.old) (terms_of terms.now)).term) }
    ensures casts { OnOk result
        (cast_views casts.new ≡ (converted_all (cast_views casts.old) (terms_of terms.now)).casts) }
{
    let mut done = CoerList::new();
    let mut left = terms;
    while let CoreList::Cons(first, rest) = left {
        let term = converted(alloc, casts, first)?;
        done.push_front(alloc, term)?;
        left = rest;
    }
    Ok(done.reversed())
}

// The functions of a group in order.
#[cycle(conversion)]
fn converted_members(
    alloc: Global,
    casts: &mut Casts,
    members: &GroupMembers,
) -> Result<CoerMembers, OutOfMemory>
    ensures term { IfOk result (λ t.
        row_members_of t ≡ (converted_members (cast_views casts.old) (members_of members.now)).term) }
    ensures casts { OnOk result
        (cast_views casts.new ≡ (converted_members (cast_views casts.old) (members_of members.now)).casts) }
{
    let mut functions = CoerMembers::new();
    let mut left = members;
    while let GroupMembers::Cons(first, rest) = left {
        let body = converted(alloc, casts, &first.body)?;
        let member = CoerMember {
            name: first.name,
            params: copied(alloc, &first.params)?,
            body,
            ty: first.ty,
        };
        functions.push_front(alloc, member)?;
        left = rest;
    }
    Ok(functions.reversed())
}

// Bindings in order.
#[cycle(conversion)]
fn converted_bindings(
    alloc: Global,
    casts: &mut Casts,
    bindings: &CoreBindings,
) -> Result<CoerBindings, OutOfMemory>
    ensures term { IfOk result (λ t.
        row_bindings_of t ≡ (converted_bindings (cast_views casts.old) (bindings_of bindings.now)).term) }
    ensures casts { OnOk result
        (cast_views casts.new
        ≡ (converted_bindings (cast_views casts.old) (bindings_of bindings.now)).casts) }
{
    let mut bound = CoerBindings::new();
    let mut left = bindings;
    while let CoreBindings::Cons(first, rest) = left {
        let value = converted(alloc, casts, &first.value)?;
        let binding = CoerBinding {
            name: first.name,
            value,
        };
        bound.push_front(alloc, binding)?;
        left = rest;
    }
    Ok(bound.reversed())
}
