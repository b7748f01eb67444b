// Lists that are gathered in vectors, since these grow at their ends.

ghost use Rattle.std.specs.Prelude.{◌≡◌, ◌++◌, ◌∷◌, [], IfOk};
ghost use Rattle.surface_trees.specs.Trees.{NoExprs, NoLets, NoLetrecs};
ghost use Rattle.surface_trees.specs.Views.{exprs_of, lets_of, letrecs_of};
ghost use Rattle.surface_syntax.specs.Parts.{exprs_before, lets_before, letrecs_before};

use derived_forms::nodes::{bound_first, cons, member_first};
use grift_base::lists::OutOfMemory;
use std::alloc::Global;
use surface_trees::exprs::{Binding, Bindings, Expr, ExprList, Member, Members};

/// Adds one at the end.
pub fn push<T: Drop>(gathered: &mut Vec<T>, last: T) -> Result<(), OutOfMemory>
    ensures { IfOk result (λ done. gathered.new.items ≡ gathered.old.items ++ last ∷ []) }
{
    gathered.push(last)?;
    Ok(())
}

/// These expressions as a list.
pub fn expr_list(alloc: Global, mut gathered: Vec<Box<Expr>>) -> Result<ExprList, OutOfMemory>
    ensures { IfOk result (λ list. exprs_of list ≡ exprs_before gathered.items NoExprs) }
{
    let mut list = ExprList::Nil;
    while let Some(last) = gathered.pop() {
        list = cons(alloc, last, list)?;
    }
    Ok(list)
}

/// These bindings as a list.
pub fn binding_list(alloc: Global, mut gathered: Vec<Box<Binding>>) -> Result<Bindings, OutOfMemory>
    ensures { IfOk result (λ list. lets_of list ≡ lets_before gathered.items NoLets) }
{
    let mut list = Bindings::Nil;
    while let Some(last) = gathered.pop() {
        list = bound_first(alloc, last, list)?;
    }
    Ok(list)
}

/// These members as a list.
pub fn member_list(alloc: Global, mut gathered: Vec<Box<Member>>) -> Result<Members, OutOfMemory>
    ensures { IfOk result (λ list. letrecs_of list ≡ letrecs_before gathered.items NoLetrecs) }
{
    let mut list = Members::Nil;
    while let Some(last) = gathered.pop() {
        list = member_first(alloc, last, list)?;
    }
    Ok(list)
}
