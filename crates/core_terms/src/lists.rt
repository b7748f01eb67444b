// Lists turned round in front of others, by loops.

ghost use Rattle.std.specs.Prelude.{◌≡◌, IfOk};
ghost use Rattle.std.specs.Global.{Box};
ghost use Rattle.core_calc.specs.Terms.{BindingThen, MemberThen, TermThen, ValueThen};
ghost use Rattle.core_calc.specs.Views.{bindings_of, members_of, names_of, term_of, terms_of, value_of, values_of};
ghost use Rattle.core_calc.specs.declared.terms.CoreBinding.{out-CoreBinding};
ghost use Rattle.core_calc.specs.declared.terms.GroupMember.{out-GroupMember};
ghost use Rattle.core_terms.specs.Lists.{bindings_onto, members_onto, terms_onto, values_onto};

use core_calc::terms::{
    Core, CoreBinding, CoreBindings, CoreList, GroupMember, GroupMembers, Value, Values,
};
use grift_base::lists::OutOfMemory;
use grift_base::made::{both_boxed, boxed_beside};
use std::alloc::Global;
use std::mem;

// A list turned round in front of another of its type.
macro_rules! turned_onto {
    ($list:ident, $done:ident, $rest:ident) => {{
        let mut made = $rest;
        while let $list::Cons(_, rest) = &mut $done {
            let next = mem::replace(&mut **rest, made);
            made = mem::replace(&mut $done, next);
        }
        made
    }};
}

/// What was made, unless no memory was left.
pub type Made<T> = Result<T, OutOfMemory>;

/// A term in front of others.
pub fn term_then(alloc: Global, first: Core, rest: CoreList) -> Made<CoreList>
    ensures { IfOk result (λ made. terms_of made ≡ TermThen (term_of first) (terms_of rest)) }
{
    let (first, rest) = both_boxed(alloc, first, rest)?;
    Ok(CoreList::Cons(first, rest))
}

/// A term that is in a box already in front of others.
pub fn boxed_then(alloc: Global, first: Box<Core>, rest: CoreList) -> Made<CoreList>
    ensures { IfOk result (λ made. terms_of made ≡ TermThen (term_of first.value) (terms_of rest)) }
{
    let (rest, first) = boxed_beside(alloc, rest, first)?;
    Ok(CoreList::Cons(first, rest))
}

/// A function of a group in front of others.
pub fn member_then(alloc: Global, first: GroupMember, rest: GroupMembers) -> Made<GroupMembers>
    ensures { IfOk result (λ made. members_of made
        ≡ MemberThen (out-GroupMember first).name.0 (names_of (out-GroupMember first).params)
        (term_of (out-GroupMember first).body) (out-GroupMember first).ty.0 (members_of rest)) }
{
    let (first, rest) = both_boxed(alloc, first, rest)?;
    Ok(GroupMembers::Cons(first, rest))
}

/// A binding in front of others.
pub fn binding_then(alloc: Global, first: CoreBinding, rest: CoreBindings) -> Made<CoreBindings>
    ensures { IfOk result (λ made. bindings_of made
        ≡ BindingThen (out-CoreBinding first).name.0 (term_of (out-CoreBinding first).value) (bindings_of rest)) }
{
    let (first, rest) = both_boxed(alloc, first, rest)?;
    Ok(CoreBindings::Cons(first, rest))
}

/// A value in front of others.
pub fn value_then(alloc: Global, first: Value, rest: Values) -> Made<Values>
    ensures { IfOk result (λ made. values_of made ≡ ValueThen (value_of first) (values_of rest)) }
{
    let (first, rest) = both_boxed(alloc, first, rest)?;
    Ok(Values::Cons(first, rest))
}

/// Terms, of which the last comes first, in front of others.
pub fn terms_onto(mut done: CoreList, rest: CoreList) -> CoreList
    ensures { terms_of result ≡ terms_onto (terms_of done) (terms_of rest) }
{
    turned_onto!(CoreList, done, rest)
}

/// The same for functions of a group.
pub fn members_onto(mut done: GroupMembers, rest: GroupMembers) -> GroupMembers
    ensures { members_of result ≡ members_onto (members_of done) (members_of rest) }
{
    turned_onto!(GroupMembers, done, rest)
}

/// The same for bindings.
pub fn bindings_onto(mut done: CoreBindings, rest: CoreBindings) -> CoreBindings
    ensures { bindings_of result ≡ bindings_onto (bindings_of done) (bindings_of rest) }
{
    turned_onto!(CoreBindings, done, rest)
}

/// The same for values.
pub fn values_onto(mut done: Values, rest: Values) -> Values
    ensures { values_of result ≡ values_onto (values_of done) (values_of rest) }
{
    turned_onto!(Values, done, rest)
}
