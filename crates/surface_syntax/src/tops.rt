// Forms of programs from s-expressions. `names` counts the fresh names so far.
#![tactic(auto, using(crate::proofs::Rows::top), unfolding(form_table::specs::Pass::then_with, form_table::specs::Pass::paired))]

ghost use Rattle.std.specs.Prelude.{◌≡◌, ◌≤◌, ◌++◌, ◌∷◌, [], List, ℕ, length, map, IfOk};
ghost use Rattle.sexpr_reader.specs.View.{datum_of, datums_of};
ghost use Rattle.form_table.specs.Marked.{marked, all_marked, list as list_at, ◌▹◌, how_many};
ghost use Rattle.form_table.specs.TopWalk.{run_for};
ghost use Rattle.form_table.specs.TopTable.{is_lambda_form};
ghost use Rattle.form_table.specs.Pass.{parse_bound, parse_define, parse_top, parse_tops, run_behind};
ghost use Rattle.surface_trees.specs.Views.{written_of};
ghost use Rattle.surface_syntax.specs.TopParts.{part_of, parse_named, is_definition, parse_definition, Grows};
ghost use Rattle.form_table.specs.Claims.{Parses};

use crate::collect::push;
use crate::elements::has_body;
use crate::forms::{expr, function, lambda_with};
use crate::params::{params, typed_name};
use form_table::lists::{bad_form, binder, is_define_at, is_lambda_at, refused};
use form_table::scopes::Scope;
use grift_base::lists::Name;
use grift_base::places::Pos;
use grift_base::refusals::{FrontFault, RefusalKind};
use sexpr_reader::sexps::{Sexp, SexpList, SexpNode};
use std::alloc::Global;
use surface_trees::exprs::{Expr, LambdaExpr};
use surface_trees::types::TypeExpr;

/// The most forms of a program.
const MOST_FORMS: u32 = 500;

/// A form of a program and its place.
#[derive(Drop)]
pub enum Part {
    /// An expression.
    Expr {
        pos: Pos,
        expr: Box<Expr>,
    },
    /// The definition of a value.
    Value {
        pos: Pos,
        name: Name,
        ty: Option<TypeExpr>,
        value: Box<Expr>,
    },
    /// The definition of a function.
    Function {
        pos: Pos,
        name: Name,
        ty: Option<TypeExpr>,
        fun: Box<LambdaExpr>,
    },
}

// Whether this is a `lambda` form, by its head alone.
fn is_lambda_form(sexp: &Sexp) -> bool
    ensures { result ≡ is_lambda_form (marked (datum_of sexp.now)) }
{
    match &sexp.node {
        SexpNode::List(SexpList::Cons(head, _)) => is_lambda_at(head),
        _ => false,
    }
}

// Whether this is a list that `define` heads.
fn is_definition(sexp: &Sexp) -> bool
    ensures { result ≡ is_definition (marked (datum_of sexp.now)) }
{
    match &sexp.node {
        SexpNode::List(SexpList::Cons(head, _)) => is_define_at(head),
        _ => false,
    }
}

// Ends the run of functions before the definition of a value.
fn run_for(alloc: Global, run: &mut Scope, value: &Sexp)
    ensures { run.new ≡ run_for (marked (datum_of value.now)) run.old }
{
    if is_lambda_form(value) {
        return;
    }
    *run = Scope::new(alloc);
}

// The definition of a name, from what is bound to it.
fn bound(
    alloc: Global,
    names: &mut u32,
    pos: Pos,
    name: Name,
    ty: Option<TypeExpr>,
    sexp: &Sexp,
) -> Result<Part, FrontFault>
    ensures part { Parses result part_of names.new (parse_bound pos name (written_of ty) (marked (datum_of sexp.now))
        names.old) }
    ensures run { IfOk result (λ part. (run : List (List ℕ)) → Grows run (run_for (marked (datum_of sexp.now)) run
        ++ name ∷ []) (part_of part)) }
{
    if is_lambda_form(sexp) {
        let fun = function(alloc, names, sexp)?;
        return Ok(Part::Function { pos, name, ty, fun });
    }
    let value = expr(alloc, names, sexp)?;
    Ok(Part::Value {
        pos,
        name,
        ty,
        value,
    })
}

// `(define (x param ...) body)`, from what stands behind the word; `place` is that of the inner list.
fn define_function(
    alloc: Global,
    names: &mut u32,
    run: &mut Scope,
    pos: Pos,
    place: Pos,
    head: &SexpList,
    rest: &SexpList,
) -> Result<Part, FrontFault>
    ensures part { Parses result part_of names.new (parse_define run.old pos (list_at place (all_marked (datums_of
        head.now)) ▹ all_marked (datums_of rest.now)) names.old) }
    ensures run { IfOk result (λ part. Grows run.old run.new (part_of part)) }
{
    if !has_body(rest) {
        return bad_form(pos);
    }
    let SexpList::Cons(name, inner) = head else {
        return bad_form(place);
    };
    let name = binder(alloc, run, name)?;
    let params = params(alloc, inner)?;
    let fun = lambda_with(alloc, names, pos, params, rest)?;
    Ok(Part::Function {
        pos,
        name,
        ty: None,
        fun,
    })
}

// `(define x e)` or `(define x : T e)`, from the name and what stands behind it.
fn define_name(
    alloc: Global,
    names: &mut u32,
    run: &mut Scope,
    pos: Pos,
    name: &Sexp,
    rest: &SexpList,
) -> Result<Part, FrontFault>
    ensures part { Parses result part_of names.new (parse_named run.old pos (marked (datum_of name.now)) (all_marked
        (datums_of rest.now)) names.old) }
    ensures run { IfOk result (λ part. Grows run.old run.new (part_of part)) }
{
    let SexpList::Cons(second, rest) = rest else {
        return bad_form(pos);
    };
    let SexpList::Cons(third, rest) = &**rest else {
        run_for(alloc, run, second);
        let name = binder(alloc, run, name)?;
        return bound(alloc, names, pos, name, None, second);
    };
    let SexpList::Cons(fourth, rest) = &**rest else {
        return bad_form(pos);
    };
    let SexpList::Nil = &**rest else {
        return bad_form(pos);
    };
    run_for(alloc, run, fourth);
    let typed = typed_name(alloc, run, name, second, third)?;
    bound(alloc, names, pos, typed.name, Some(typed.ty), fourth)
}

// A definition, from what stands behind the word.
fn define(
    alloc: Global,
    names: &mut u32,
    run: &mut Scope,
    pos: Pos,
    elements: &SexpList,
) -> Result<Part, FrontFault>
    ensures part { Parses result part_of names.new (parse_define run.old pos (all_marked (datums_of elements.now))
        names.old) }
    ensures run { IfOk result (λ part. Grows run.old run.new (part_of part)) }
{
    let SexpList::Cons(first, rest) = elements else {
        return bad_form(pos);
    };
    match &first.node {
        SexpNode::List(head) => define_function(alloc, names, run, pos, first.pos, head, rest),
        _ => define_name(alloc, names, run, pos, first, rest),
    }
}

// A list that `define` heads.
fn definition(
    alloc: Global,
    names: &mut u32,
    run: &mut Scope,
    sexp: &Sexp,
) -> Result<Part, FrontFault>
    ensures part { Parses result part_of names.new (parse_definition run.old (marked (datum_of sexp.now)) names.old) }
    ensures run { IfOk result (λ part. Grows run.old run.new (part_of part)) }
{
    let SexpNode::List(SexpList::Cons(_, rest)) = &sexp.node else {
        return bad_form(sexp.pos);
    };
    define(alloc, names, run, sexp.pos, rest)
}

// A form of a program, behind a run of functions with these names.
fn top(alloc: Global, names: &mut u32, run: &mut Scope, sexp: &Sexp) -> Result<Part, FrontFault>
    ensures part { Parses result part_of names.new (parse_top run.old (marked (datum_of sexp.now)) names.old) }
    ensures run { IfOk result (λ part. Grows run.old run.new (part_of part)) }
{
    if is_definition(sexp) {
        return definition(alloc, names, run, sexp);
    }
    let expr = expr(alloc, names, sexp)?;
    Ok(Part::Expr {
        pos: sexp.pos,
        expr,
    })
}

// The same, with the names of the run behind it.
fn next_part(
    alloc: Global,
    names: &mut u32,
    run: &mut Scope,
    sexp: &Sexp,
) -> Result<Part, FrontFault>
    ensures part { Parses result part_of names.new (parse_top run.old (marked (datum_of sexp.now)) names.old) }
    ensures run { IfOk result (λ part. run.new ≡ run_behind run.old (part_of part)) }
{
    let part = top(alloc, names, run, sexp)?;
    if let Part::Function { .. } = &part {
        return Ok(part);
    }
    *run = Scope::new(alloc);
    Ok(part)
}

/// The forms of a program: at most 500.
pub fn parts(alloc: Global, names: &mut u32, list: &SexpList) -> Result<Vec<Part>, FrontFault>
    ensures parts { Parses result (λ parts. map part_of parts.items) names.new (parse_tops 500 [] (all_marked
        (datums_of list.now)) names.old) }
    ensures few { IfOk result (λ parts. length parts.items ≤ 500) }
    ensures all { IfOk result (λ parts. length parts.items ≡ how_many (all_marked (datums_of list.now))) }
{
    let mut run = Scope::new(alloc);
    let mut parts = Vec::new(alloc);
    let mut room = MOST_FORMS;
    let mut left = list;
    while let SexpList::Cons(first, rest) = left {
        if room == 0 {
            return refused(RefusalKind::TooManyForms, first.pos);
        }
        let part = next_part(alloc, names, &mut run, first)?;
        push(&mut parts, part)?;
        room -= 1;
        left = rest;
    }
    Ok(parts)
}
