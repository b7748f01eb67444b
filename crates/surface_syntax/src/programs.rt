// Programs: their forms put together.

ghost use Rattle.std.specs.Prelude.{◌≡◌, map, IfOk};
ghost use Rattle.surface_trees.specs.Trees.{ExprAt, UnitNode, LetNode, LetThen, NoLets};
ghost use Rattle.derived_forms.specs.Expansion.{ExprPart, Alone, closed, one_expr, with_function, before, ending};
ghost use Rattle.derived_forms.specs.Expansion.{whole};
ghost use Rattle.surface_trees.specs.Views.{expr_of, name_of_member, type_of_member, fun_of_member, name_of_binding};
ghost use Rattle.surface_trees.specs.Views.{type_of_binding, value_of_binding};
ghost use Rattle.surface_syntax.specs.TopParts.{part_of, rest_of};

use crate::tops::Part;
use derived_forms::nodes::{
    binding_of, bound_first, let_at, letrec_at, member_first, member_of, one, sequence_at, two,
    unit_at,
};
use grift_base::lists::OutOfMemory;
use grift_base::made::{beside, both};
use grift_base::places::Pos;
use std::alloc::Global;
use surface_trees::exprs::{Binding, Bindings, Expr, Member, Members};
use surface_trees::names::Ident;

/// The rest of a program.
#[derive(Drop)]
pub enum Rest {
    /// An expression.
    Alone(Box<Expr>),
    /// A run of functions from this place on, and what follows them.
    Run(Pos, Members, Box<Expr>),
}

// The expression that a rest is.
fn closed(alloc: Global, rest: Rest) -> Result<Box<Expr>, OutOfMemory>
    ensures { IfOk result (λ e. expr_of e.value ≡ closed (rest_of rest)) }
{
    match rest {
        Rest::Alone(expr) => Ok(expr),
        Rest::Run(pos, members, body) => {
            let (members, body) = beside(members, one(alloc, body))?;
            letrec_at(alloc, pos, members, body)
        }
    }
}

// A function defined before the rest.
fn with_function(
    alloc: Global,
    pos: Pos,
    member: Box<Member>,
    rest: Rest,
) -> Result<Rest, OutOfMemory>
    ensures { IfOk result (λ r. rest_of r ≡ with_function pos (name_of_member member.value)
        (type_of_member member.value) (fun_of_member member.value) (rest_of rest)) }
{
    let (members, body) = match rest {
        Rest::Alone(body) => (Members::Nil, body),
        Rest::Run(_, members, body) => (members, body),
    };
    let (body, members) = beside(body, member_first(alloc, member, members))?;
    Ok(Rest::Run(pos, members, body))
}

// An expression before the rest. Each form has a function of its own, since what a proof costs goes by the calls of a
// function times its exits.
fn with_expression(
    alloc: Global,
    pos: Pos,
    expr: Box<Expr>,
    rest: Rest,
) -> Result<Rest, OutOfMemory>
    ensures { IfOk result (λ r. rest_of r ≡ before (ExprPart pos (expr_of expr.value)) (rest_of rest)) }
{
    let (expr, rest) = beside(expr, closed(alloc, rest))?;
    let both = two(alloc, expr, rest)?;
    Ok(Rest::Alone(sequence_at(alloc, pos, both)?))
}

// A value defined before the rest.
fn with_value(
    alloc: Global,
    pos: Pos,
    binding: Box<Binding>,
    rest: Rest,
) -> Result<Rest, OutOfMemory>
    ensures { IfOk result (λ r. rest_of r ≡ Alone (ExprAt pos (LetNode (LetThen (name_of_binding binding.value)
        (type_of_binding binding.value) (value_of_binding binding.value) NoLets) (one_expr (closed (rest_of rest)))))) }
{
    let (binding, rest) = beside(binding, closed(alloc, rest))?;
    let bindings = bound_first(alloc, binding, Bindings::Nil);
    let (bindings, body) = both(bindings, one(alloc, rest))?;
    Ok(Rest::Alone(let_at(alloc, pos, bindings, body)?))
}

// A form before the rest.
fn before(alloc: Global, part: Part, rest: Rest) -> Result<Rest, OutOfMemory>
    ensures { IfOk result (λ r. rest_of r ≡ before (part_of part) (rest_of rest)) }
{
    match part {
        Part::Expr { pos, expr } => with_expression(alloc, pos, expr, rest),
        Part::Value {
            pos,
            name,
            ty,
            value,
        } => {
            let binding = binding_of(alloc, Ident::Source(name), ty, value);
            let (rest, binding) = beside(rest, binding)?;
            with_value(alloc, pos, binding, rest)
        }
        Part::Function { pos, name, ty, fun } => {
            let member = member_of(alloc, Ident::Source(name), ty, fun);
            let (rest, member) = beside(rest, member)?;
            with_function(alloc, pos, member, rest)
        }
    }
}

// The value `()` at this place.
fn nothing_behind(alloc: Global, pos: Pos) -> Result<Rest, OutOfMemory>
    ensures { IfOk result (λ r. rest_of r ≡ Alone (ExprAt pos UnitNode)) }
{
    Ok(Rest::Alone(unit_at(alloc, pos)?))
}

// The last form. Behind a definition comes `()`, at the place of the definition.
fn ending(alloc: Global, part: Part) -> Result<Rest, OutOfMemory>
    ensures { IfOk result (λ r. rest_of r ≡ ending (part_of part)) }
{
    match part {
        Part::Expr { expr, .. } => Ok(Rest::Alone(expr)),
        Part::Value {
            pos,
            name,
            ty,
            value,
        } => {
            let definition = Part::Value {
                pos,
                name,
                ty,
                value,
            };
            let (definition, rest) = beside(definition, nothing_behind(alloc, pos))?;
            before(alloc, definition, rest)
        }
        Part::Function { pos, name, ty, fun } => {
            let definition = Part::Function { pos, name, ty, fun };
            let (definition, rest) = beside(definition, nothing_behind(alloc, pos))?;
            before(alloc, definition, rest)
        }
    }
}

/// The expression of a program with these forms; one without a form is `()`.
pub fn whole(alloc: Global, mut parts: Vec<Part>) -> Result<Box<Expr>, OutOfMemory>
    ensures { IfOk result (λ e. expr_of e.value ≡ whole (map part_of parts.items)) }
{
    let Some(last) = parts.pop() else {
        return unit_at(alloc, Pos { line: 1, col: 1 });
    };
    let mut rest = ending(alloc, last)?;
    while let Some(part) = parts.pop() {
        rest = before(alloc, part, rest)?;
    }
    closed(alloc, rest)
}
