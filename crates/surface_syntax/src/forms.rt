// Expressions from s-expressions. `names` counts the fresh names so far.
#![tactic(auto)]

ghost use Rattle.std.specs.Prelude.{◌≡◌, ◌++◌, ◌∷◌, [], IfOk};
ghost use Rattle.sexpr_reader.specs.View.{datum_of, datums_of};
ghost use Rattle.surface_trees.specs.declared.names.Ident.TheVariants.{Source};
ghost use Rattle.form_table.specs.Marked.{marked, all_marked, marked_symbol};
ghost use Rattle.form_table.specs.Words.{mark_of};
ghost use Rattle.form_table.specs.Pass.{parse, parse_list, parse_each, parse_within, parse_binding, parse_lets};
ghost use Rattle.form_table.specs.Pass.{parse_member, parse_lambda_form, parse_letrecs, parse_range};
ghost use Rattle.surface_trees.specs.Views.{params_of, source_of, expr_of, exprs_of, lets_of, letrecs_of, lambda_of};
ghost use Rattle.surface_trees.specs.Views.{name_of_binding, name_of_member};
ghost use Rattle.surface_syntax.specs.Parts.{parse_call, parse_behind, part_number, range_of, bound_of, member_of};
ghost use Rattle.surface_syntax.specs.Parts.{in_box};
ghost use Rattle.surface_syntax.specs.Forms.{let_of, letrec_of, if_of, ascribed, ascription_of, projected};
ghost use Rattle.surface_syntax.specs.Forms.{projection_of, applied_of, parse_operands, repeat_form_of, headed_of};
ghost use Rattle.surface_syntax.specs.Forms.{lambda_from};
ghost use Rattle.form_table.specs.Claims.{Answers, Parses};

use crate::collect::{binding_list, expr_list, member_list, push};
use crate::elements::{
    behind_lambda, lambda_parts, names_and_body, range_parts, repeat_parts, three_of, two_of,
    typed_body,
};
use crate::operands::{Head, applied_to, room};
use crate::params::{bound_to, only_name, param_list};
use crate::repeats::{counted_repeat, gathered_repeat};
use crate::type_forms::type_expr;
use derived_forms::loops::Range;
use derived_forms::nodes::{
    ascription_at, binding_of, called, cons, function_at, if_at, integer_at, lambda_at, let_at,
    letrec_at, member_of, part_at, source_at, truth_at, unit_at,
};
use form_table::lists::{bad_form, refused, word_at};
use form_table::scopes::Scope;
use form_table::words::{Mark, Word, mark_of};
use grift_base::lists::{Name, OutOfMemory};
use grift_base::places::Pos;
use grift_base::refusals::{FrontFault, RefusalKind};
use sexpr_reader::sexps::{Sexp, SexpList, SexpNode};
use std::alloc::Global;
use surface_trees::exprs::{Binding, Bindings, Expr, ExprList, LambdaExpr, Member, Members};
use surface_trees::names::Ident;
use surface_trees::types::Params;

/// The most arguments of a call.
const MOST_ARGUMENTS: u64 = 6;

// The scope that binds this name alone.
fn scope_of(alloc: Global, name: &Name) -> Result<Scope, OutOfMemory>
    ensures { IfOk result (λ scope. scope ≡ name.now ∷ []) }
{
    let mut scope = Scope::new(alloc);
    scope.bind(Name::from_slice(alloc, name.as_slice())?)?;
    Ok(scope)
}

// The number of a tuple's part.
#[tactic(auto, using(crate::proofs::FormRows::number_steps))]
fn part_number(sexp: &Sexp) -> Result<i64, FrontFault>
    ensures { Answers result (λ k. k) (part_number (marked (datum_of sexp.now))) }
{
    match &sexp.node {
        SexpNode::Int(number) if *number >= 0 => Ok(*number),
        _ => bad_form(sexp.pos),
    }
}

// The part of a tuple with this number.
#[tactic(auto, using(form_table::proofs::Public::walk_steps), unfolding(form_table::specs::Walking::followed_by))]
fn projected(
    alloc: Global,
    pos: Pos,
    tuple: Box<Expr>,
    number: &Sexp,
) -> Result<Box<Expr>, FrontFault>
    ensures { Answers result (in_box expr_of) (projected pos (expr_of tuple.value) (marked (datum_of number.now))) }
{
    let part = part_number(number)?;
    Ok(part_at(alloc, pos, tuple, part, number.pos)?)
}

// An expression at the type that this writes.
#[tactic(auto, using(form_table::proofs::Public::walk_steps), unfolding(form_table::specs::Walking::followed_by))]
fn ascribed(
    alloc: Global,
    pos: Pos,
    inner: Box<Expr>,
    written: &Sexp,
) -> Result<Box<Expr>, FrontFault>
    ensures { Answers result (in_box expr_of) (ascribed pos (expr_of inner.value) (marked (datum_of written.now))) }
{
    let ty = type_expr(alloc, written)?;
    Ok(ascription_at(alloc, pos, inner, ty)?)
}

// The use of a name.
fn symbol(alloc: Global, pos: Pos, name: &Name) -> Result<Box<Expr>, FrontFault>
    ensures { (names : _) → Parses result (in_box expr_of) names (parse (marked_symbol pos name.now
        (mark_of name.now)) names) }
{
    if let Mark::Reserved(_) = mark_of(name.as_slice()) {
        return bad_form(pos);
    }
    Ok(source_at(alloc, pos, name)?)
}

/// The expression that an s-expression is.
#[cycle(read_form)]
pub fn expr(alloc: Global, names: &mut u32, sexp: &Sexp) -> Result<Box<Expr>, FrontFault>
    ensures { Parses result (in_box expr_of) names.new (parse (marked (datum_of sexp.now)) names.old) }
{
    let pos = sexp.pos;
    let literal = match &sexp.node {
        SexpNode::Int(number) => integer_at(alloc, pos, *number),
        SexpNode::Bool(truth) => truth_at(alloc, pos, *truth),
        SexpNode::Symbol(name) => return symbol(alloc, pos, name),
        SexpNode::List(elements) => return list(alloc, names, pos, elements),
    };
    Ok(literal?)
}

// The expression that a list with these elements is.
#[cycle(read_form)]
fn list(
    alloc: Global,
    names: &mut u32,
    pos: Pos,
    elements: &SexpList,
) -> Result<Box<Expr>, FrontFault>
    ensures { Parses result (in_box expr_of) names.new (parse_list pos (all_marked (datums_of elements.now))
        names.old) }
{
    let SexpList::Cons(head, rest) = elements else {
        return Ok(unit_at(alloc, pos)?);
    };
    let Some(word) = word_at(head) else {
        return call(alloc, names, pos, elements);
    };
    if word.is_arrow() {
        return bad_form(head.pos);
    }
    headed(alloc, names, pos, word, rest)
}

// The form that a word other than `->` heads.
#[cycle(read_form)]
fn headed(
    alloc: Global,
    names: &mut u32,
    pos: Pos,
    word: Word,
    rest: &SexpList,
) -> Result<Box<Expr>, FrontFault>
    ensures { Parses result (in_box expr_of) names.new (headed_of word pos (all_marked (datums_of rest.now))
        names.old) }
{
    match word {
        Word::Lambda => {
            let lambda = lambda(alloc, names, pos, rest)?;
            Ok(function_at(alloc, pos, lambda)?)
        }
        Word::Let => let_form(alloc, names, pos, rest),
        Word::Letrec => letrec_form(alloc, names, pos, rest),
        Word::If => if_form(alloc, names, pos, rest),
        Word::Begin => applied(alloc, names, pos, Head::Begin, rest),
        Word::Colon => ascription(alloc, names, pos, rest),
        Word::And => applied(alloc, names, pos, Head::And, rest),
        Word::Or => applied(alloc, names, pos, Head::Or, rest),
        Word::Repeat => repeat(alloc, names, pos, rest),
        Word::Tuple => applied(alloc, names, pos, Head::Tuple, rest),
        Word::TupleProj => projection(alloc, names, pos, rest),
        Word::Operator(operator) => applied(alloc, names, pos, Head::Operator(operator), rest),
        Word::Define | Word::Arrow => bad_form(pos),
    }
}

#[cycle(read_form)]
fn call(
    alloc: Global,
    names: &mut u32,
    pos: Pos,
    elements: &SexpList,
) -> Result<Box<Expr>, FrontFault>
    ensures { Parses result (in_box expr_of) names.new (parse_call pos (all_marked (datums_of elements.now))
        names.old) }
{
    let SexpList::Cons(function, arguments) = elements else {
        return bad_form(pos);
    };
    let function = expr(alloc, names, function)?;
    let arguments = within(alloc, names, MOST_ARGUMENTS, arguments)?;
    Ok(called(alloc, pos, function, arguments)?)
}

#[cycle(read_form)]
fn let_form(
    alloc: Global,
    names: &mut u32,
    pos: Pos,
    rest: &SexpList,
) -> Result<Box<Expr>, FrontFault>
    ensures { Parses result (in_box expr_of) names.new (let_of pos (all_marked (datums_of rest.now)) names.old) }
{
    let (bindings, body) = names_and_body(pos, rest)?;
    let bindings = lets(alloc, names, bindings)?;
    let body = each(alloc, names, body)?;
    Ok(let_at(alloc, pos, bindings, body)?)
}

#[cycle(read_form)]
fn letrec_form(
    alloc: Global,
    names: &mut u32,
    pos: Pos,
    rest: &SexpList,
) -> Result<Box<Expr>, FrontFault>
    ensures { Parses result (in_box expr_of) names.new (letrec_of pos (all_marked (datums_of rest.now)) names.old) }
{
    let (members, body) = names_and_body(pos, rest)?;
    let members = letrecs(alloc, names, members)?;
    let body = each(alloc, names, body)?;
    Ok(letrec_at(alloc, pos, members, body)?)
}

#[cycle(read_form)]
fn if_form(
    alloc: Global,
    names: &mut u32,
    pos: Pos,
    rest: &SexpList,
) -> Result<Box<Expr>, FrontFault>
    ensures { Parses result (in_box expr_of) names.new (if_of pos (all_marked (datums_of rest.now)) names.old) }
{
    let parts = three_of(pos, rest)?;
    let condition = expr(alloc, names, parts.first)?;
    let on_true = expr(alloc, names, parts.second)?;
    let on_false = expr(alloc, names, parts.third)?;
    Ok(if_at(alloc, pos, condition, on_true, on_false)?)
}

#[cycle(read_form)]
fn ascription(
    alloc: Global,
    names: &mut u32,
    pos: Pos,
    rest: &SexpList,
) -> Result<Box<Expr>, FrontFault>
    ensures { Parses result (in_box expr_of) names.new (ascription_of pos (all_marked (datums_of rest.now)) names.old) }
{
    let (inner, written) = two_of(pos, rest)?;
    let inner = expr(alloc, names, inner)?;
    ascribed(alloc, pos, inner, written)
}

#[cycle(read_form)]
fn projection(
    alloc: Global,
    names: &mut u32,
    pos: Pos,
    rest: &SexpList,
) -> Result<Box<Expr>, FrontFault>
    ensures { Parses result (in_box expr_of) names.new (projection_of pos (all_marked (datums_of rest.now)) names.old) }
{
    let (tuple, number) = two_of(pos, rest)?;
    let tuple = expr(alloc, names, tuple)?;
    projected(alloc, pos, tuple, number)
}

// A form that is a head and operands.
#[cycle(read_form)]
fn applied(
    alloc: Global,
    names: &mut u32,
    pos: Pos,
    head: Head,
    rest: &SexpList,
) -> Result<Box<Expr>, FrontFault>
    ensures { Parses result (in_box expr_of) names.new (applied_of head pos (all_marked (datums_of rest.now))
        names.old) }
{
    let room = room(head, pos, rest)?;
    let operands = operands(alloc, names, room, rest)?;
    Ok(applied_to(alloc, head, pos, operands)?)
}

// Expressions of which there may be so many, or any number.
#[cycle(read_form)]
fn operands(
    alloc: Global,
    names: &mut u32,
    room: Option<u64>,
    rest: &SexpList,
) -> Result<ExprList, FrontFault>
    ensures { Parses result exprs_of names.new (parse_operands room (all_marked (datums_of rest.now)) names.old) }
{
    match room {
        None => each(alloc, names, rest),
        Some(room) => within(alloc, names, room, rest),
    }
}

#[cycle(read_form)]
fn repeat(
    alloc: Global,
    names: &mut u32,
    pos: Pos,
    rest: &SexpList,
) -> Result<Box<Expr>, FrontFault>
    ensures { Parses result (in_box expr_of) names.new (repeat_form_of pos (all_marked (datums_of rest.now))
        names.old) }
{
    let parts = repeat_parts(pos, rest)?;
    let range = range(alloc, names, parts.head)?;
    let Some(start) = parts.start else {
        let body = expr(alloc, names, parts.body)?;
        return Ok(counted_repeat(alloc, names, pos, range, body)?);
    };
    let mut scope = scope_of(alloc, &range.counter)?;
    let start = binding(alloc, names, &mut scope, start)?;
    let body = expr(alloc, names, parts.body)?;
    Ok(gathered_repeat(alloc, names, pos, range, start, body)?)
}

// Expressions one after another.
#[cycle(read_form)]
fn each(alloc: Global, names: &mut u32, list: &SexpList) -> Result<ExprList, FrontFault>
    ensures { Parses result exprs_of names.new (parse_each (all_marked (datums_of list.now)) names.old) }
{
    let mut gathered = Vec::new(alloc);
    let mut left = list;
    while let SexpList::Cons(first, rest) = left {
        let first = expr(alloc, names, first)?;
        push(&mut gathered, first)?;
        left = rest;
    }
    Ok(expr_list(alloc, gathered)?)
}

// Expressions of which there may be so many.
#[cycle(read_form)]
fn within(
    alloc: Global,
    names: &mut u32,
    room: u64,
    list: &SexpList,
) -> Result<ExprList, FrontFault>
    ensures { Parses result exprs_of names.new (parse_within room (all_marked (datums_of list.now)) names.old) }
{
    let SexpList::Cons(first, rest) = list else {
        return Ok(ExprList::Nil);
    };
    if room == 0 {
        return refused(RefusalKind::TooWide, first.pos);
    }
    let first = expr(alloc, names, first)?;
    let rest = within(alloc, names, room - 1, rest)?;
    Ok(cons(alloc, first, rest)?)
}

// A lambda without its head.
#[cycle(read_form)]
fn lambda(
    alloc: Global,
    names: &mut u32,
    pos: Pos,
    elements: &SexpList,
) -> Result<Box<LambdaExpr>, FrontFault>
    ensures { Parses result (in_box lambda_of) names.new (lambda_from pos (all_marked (datums_of elements.now))
        names.old) }
{
    let (params, rest) = lambda_parts(pos, elements)?;
    let params = param_list(alloc, params)?;
    lambda_with(alloc, names, pos, params, rest)
}

/// The lambda with these parameters, from what stands behind them.
#[cycle(read_form)]
pub fn lambda_with(
    alloc: Global,
    names: &mut u32,
    pos: Pos,
    params: Params,
    rest: &SexpList,
) -> Result<Box<LambdaExpr>, FrontFault>
    ensures { Parses result (in_box lambda_of) names.new (parse_behind pos (params_of params) (all_marked (datums_of
        rest.now)) names.old) }
{
    let typed = typed_body(pos, rest)?;
    let Some(typed) = typed else {
        let body = each(alloc, names, rest)?;
        return Ok(lambda_at(alloc, pos, params, None, body)?);
    };
    let result_type = type_expr(alloc, typed.written)?;
    let body = each(alloc, names, typed.body)?;
    Ok(lambda_at(alloc, pos, params, Some(result_type), body)?)
}

// The name of a value, in a scope.
#[cycle(read_form)]
fn binding(
    alloc: Global,
    names: &mut u32,
    scope: &mut Scope,
    sexp: &Sexp,
) -> Result<Box<Binding>, FrontFault>
    ensures binding { Parses result (in_box bound_of) names.new (parse_binding scope.old (marked (datum_of sexp.now))
        names.old) }
    ensures bound { IfOk result (λ b. scope.new ≡ scope.old ++ source_of (name_of_binding b.value) ∷ []) }
    ensures source { IfOk result (λ b. name_of_binding b.value ≡ Source (source_of (name_of_binding b.value))) }
{
    let (bound, value) = bound_to(alloc, scope, sexp)?;
    let value = expr(alloc, names, value)?;
    Ok(binding_of(alloc, Ident::Source(bound.name), bound.ty, value)?)
}

// The names of values that a scope of their own binds.
#[cycle(read_form)]
fn lets(alloc: Global, names: &mut u32, list: &SexpList) -> Result<Bindings, FrontFault>
    ensures { Parses result lets_of names.new (parse_lets [] (all_marked (datums_of list.now)) names.old) }
{
    let mut scope = Scope::new(alloc);
    let mut gathered = Vec::new(alloc);
    let mut left = list;
    while let SexpList::Cons(first, rest) = left {
        let first = binding(alloc, names, &mut scope, first)?;
        push(&mut gathered, first)?;
        left = rest;
    }
    Ok(binding_list(alloc, gathered)?)
}

// The name of a function, in a scope.
#[cycle(read_form)]
fn member(
    alloc: Global,
    names: &mut u32,
    scope: &mut Scope,
    sexp: &Sexp,
) -> Result<Box<Member>, FrontFault>
    ensures member { Parses result (in_box member_of) names.new (parse_member scope.old (marked (datum_of sexp.now))
        names.old) }
    ensures bound { IfOk result (λ m. scope.new ≡ scope.old ++ source_of (name_of_member m.value) ∷ []) }
    ensures source { IfOk result (λ m. name_of_member m.value ≡ Source (source_of (name_of_member m.value))) }
{
    let (bound, value) = bound_to(alloc, scope, sexp)?;
    let fun = function(alloc, names, value)?;
    Ok(member_of(alloc, Ident::Source(bound.name), bound.ty, fun)?)
}

// The names of functions that a scope of their own binds.
#[cycle(read_form)]
fn letrecs(alloc: Global, names: &mut u32, list: &SexpList) -> Result<Members, FrontFault>
    ensures { Parses result letrecs_of names.new (parse_letrecs [] (all_marked (datums_of list.now)) names.old) }
{
    let mut scope = Scope::new(alloc);
    let mut gathered = Vec::new(alloc);
    let mut left = list;
    while let SexpList::Cons(first, rest) = left {
        let first = member(alloc, names, &mut scope, first)?;
        push(&mut gathered, first)?;
        left = rest;
    }
    Ok(member_list(alloc, gathered)?)
}

/// The function that a `lambda` form is.
#[cycle(read_form)]
pub fn function(alloc: Global, names: &mut u32, sexp: &Sexp) -> Result<Box<LambdaExpr>, FrontFault>
    ensures { Parses result (in_box lambda_of) names.new (parse_lambda_form (marked (datum_of sexp.now)) names.old) }
{
    let elements = behind_lambda(sexp)?;
    lambda(alloc, names, sexp.pos, elements)
}

// The head of a `repeat`.
#[cycle(read_form)]
fn range(alloc: Global, names: &mut u32, sexp: &Sexp) -> Result<Range, FrontFault>
    ensures { Parses result range_of names.new (parse_range (marked (datum_of sexp.now)) names.old) }
{
    let parts = range_parts(sexp)?;
    let counter = only_name(alloc, parts.first)?;
    let first = expr(alloc, names, parts.second)?;
    let bound = expr(alloc, names, parts.third)?;
    Ok(Range {
        counter,
        first,
        bound,
    })
}
