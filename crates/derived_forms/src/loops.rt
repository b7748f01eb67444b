// Counting loops and gathering loops in terms of the other forms.

ghost use Rattle.std.specs.Prelude.{◌≡◌, ◌∷◌, [], IfOk, Some, None};
ghost use Rattle.surface_trees.specs.declared.names.Ident.TheVariants.{Source, Fresh};
ghost use Rattle.surface_trees.specs.Trees.{ExprAt, IfNode, BeginNode, CallNode, LetrecNode, ExprThen, LetThen, NoLets};
ghost use Rattle.surface_trees.specs.Trees.{NoLetrecs, LetrecThen};
ghost use Rattle.derived_forms.specs.Expansion.{one_expr, two_exprs, name_at, int_at, typed_param, goes_on, next_count};
ghost use Rattle.derived_forms.specs.Expansion.{loop_of, counting, gathering, repeat_of, repeat_into_of, type_or_dyn};
ghost use Rattle.surface_trees.specs.Views.{type_of, written_of, param_of, params_of, expr_of, exprs_of, lets_of};
ghost use Rattle.surface_trees.specs.Views.{source_of, lambda_of, name_of_binding, type_of_binding, value_of_binding};

use crate::nodes::{
    base_at, bound_first, bytes_of, call_at, cons, fresh_at, if_at, int_at, integer_at, lambda_at,
    let_at, letrec_at, member_first, member_of, one, one_param, operation, sequence_at, source,
    source_at, two, two_params, typed_binding, typed_param, unit_at,
};
use grift_base::lists::{Name, OutOfMemory};
use grift_base::made::{beside, both, boxed};
use grift_base::operators::PrimOp;
use grift_base::places::Pos;
use std::alloc::Global;
use surface_trees::exprs::{Binding, Bindings, Expr, ExprList, LambdaExpr, Members};
use surface_trees::names::Ident;
use surface_trees::types::{Param, Params, TypeExpr};
use type_graph::rows::Row;

/// The numbers of a loop's fresh names: its first count, its bound and its function.
#[derive(Clone, Copy)]
pub struct LoopNames {
    pub start: u32,
    pub bound: u32,
    pub function: u32,
}

/// The head of a `repeat`: the counter, its first value and the bound.
#[derive(Drop)]
pub struct Range {
    pub counter: Name,
    pub first: Box<Expr>,
    pub bound: Box<Expr>,
}

// Whether the count is below the bound.
fn goes_on(alloc: Global, pos: Pos, counter: &Name, bound: u32) -> Result<Box<Expr>, OutOfMemory>
    ensures { IfOk result (λ e. expr_of e.value ≡ goes_on pos (Source counter.now) (Fresh bound)) }
{
    let count = source_at(alloc, pos, counter);
    let (count, bound) = both(count, fresh_at(alloc, pos, bound))?;
    operation(alloc, pos, PrimOp::Lt, count, bound)
}

// The next count.
fn next_count(alloc: Global, pos: Pos, counter: &Name) -> Result<Box<Expr>, OutOfMemory>
    ensures { IfOk result (λ e. expr_of e.value ≡ next_count pos (Source counter.now)) }
{
    let count = source_at(alloc, pos, counter);
    let (count, step) = both(count, integer_at(alloc, pos, 1))?;
    operation(alloc, pos, PrimOp::Add, count, step)
}

// The parameter that counts.
fn counter_param(alloc: Global, pos: Pos, counter: &Name) -> Result<Param, OutOfMemory>
    ensures { IfOk result (λ param. param_of param ≡ typed_param pos (Source counter.now) (int_at pos)) }
{
    let name = source(alloc, counter)?;
    Ok(typed_param(pos, name, int_at(pos)))
}

// The parameter that counts, as a list.
fn counter_params(alloc: Global, pos: Pos, counter: &Name) -> Result<Params, OutOfMemory>
    ensures { IfOk result (λ params. params_of params ≡ typed_param pos (Source counter.now) (int_at pos) ∷ []) }
{
    let param = counter_param(alloc, pos, counter)?;
    one_param(alloc, param)
}

// The body of a loop's function: a turn where the count is below the bound.
fn loop_body(
    alloc: Global,
    pos: Pos,
    bound: u32,
    counter: &Name,
    turn: Box<Expr>,
    done: Box<Expr>,
) -> Result<ExprList, OutOfMemory>
    ensures { IfOk result (λ body. exprs_of body ≡ one_expr (ExprAt pos (IfNode (goes_on pos (Source counter.now)
        (Fresh bound)) (expr_of turn.value) (expr_of done.value)))) }
{
    let ((turn, done), test) = beside((turn, done), goes_on(alloc, pos, counter, bound))?;
    let body = if_at(alloc, pos, test, turn, done)?;
    one(alloc, body)
}

// The call for the next count.
fn next_call(
    alloc: Global,
    pos: Pos,
    function: u32,
    counter: &Name,
) -> Result<Box<Expr>, OutOfMemory>
    ensures { IfOk result (λ e. expr_of e.value ≡ ExprAt pos (CallNode (name_at pos (Fresh function)) (one_expr
        (next_count pos (Source counter.now))))) }
{
    let next = next_count(alloc, pos, counter)?;
    let next = one(alloc, next)?;
    call_at(alloc, pos, function, next)
}

// The turn of a loop that only counts: its body, and the call for the next count.
fn counting_turn(
    alloc: Global,
    pos: Pos,
    function: u32,
    counter: &Name,
    body: Box<Expr>,
) -> Result<Box<Expr>, OutOfMemory>
    ensures { IfOk result (λ e. expr_of e.value ≡ ExprAt pos (BeginNode (two_exprs (expr_of body.value) (ExprAt pos
        (CallNode (name_at pos (Fresh function)) (one_expr (next_count pos (Source counter.now)))))))) }
{
    let call = next_call(alloc, pos, function, counter);
    let (body, call) = beside(body, call)?;
    let turn = two(alloc, body, call)?;
    sequence_at(alloc, pos, turn)
}

// The function of a loop that only counts.
fn counting(
    alloc: Global,
    pos: Pos,
    names: LoopNames,
    counter: &Name,
    body: Box<Expr>,
) -> Result<Box<LambdaExpr>, OutOfMemory>
    ensures { IfOk result (λ l. lambda_of l.value ≡ counting pos names (Source counter.now) (expr_of body.value)) }
{
    let turn = counting_turn(alloc, pos, names.function, counter, body);
    let (turn, done) = both(turn, unit_at(alloc, pos))?;
    let body = loop_body(alloc, pos, names.bound, counter, turn, done);
    let (body, params) = both(body, counter_params(alloc, pos, counter))?;
    let result = Some(base_at(pos, Row::Unit));
    lambda_at(alloc, pos, params, result, body)
}

// An accumulator: its name, its type and its first value.
#[derive(Drop)]
struct Sum {
    name: Name,
    ty: TypeExpr,
    value: Box<Expr>,
}

// The accumulator that is bound so; its type is Dyn where none is written.
fn sum_of(alloc: Global, pos: Pos, start: Box<Binding>) -> Result<Sum, OutOfMemory>
    ensures name { IfOk result (λ sum. sum.name ≡ source_of (name_of_binding start.value)) }
    ensures written { IfOk result (λ sum. type_of sum.ty ≡ type_or_dyn pos (type_of_binding start.value)) }
    ensures value { IfOk result (λ sum. expr_of sum.value.value ≡ value_of_binding start.value) }
{
    let name = bytes_of(alloc, &start.name);
    let (start, name) = beside(start, name)?;
    let (_, ty, value) = Box::into_inner(start).parts();
    let value = boxed(alloc, value)?;
    Ok(Sum {
        name,
        ty: type_or_dyn(pos, ty),
        value,
    })
}

// The parameter that hands the accumulator on.
fn sum_param(alloc: Global, pos: Pos, sum: &Name, ty: &TypeExpr) -> Result<Param, OutOfMemory>
    ensures { IfOk result (λ param. param_of param ≡ typed_param pos (Source sum.now) (type_of ty.now)) }
{
    let (name, ty) = both(source(alloc, sum), ty.duplicate(alloc))?;
    Ok(typed_param(pos, name, ty))
}

// The parameters of a loop's function: the counter and the accumulator.
fn gathering_params(
    alloc: Global,
    pos: Pos,
    counter: &Name,
    sum: &Name,
    ty: &TypeExpr,
) -> Result<Params, OutOfMemory>
    ensures { IfOk result (λ params. params_of params ≡ typed_param pos (Source counter.now) (int_at pos)
        ∷ typed_param pos (Source sum.now) (type_of ty.now) ∷ []) }
{
    let first = counter_param(alloc, pos, counter);
    let (first, second) = both(first, sum_param(alloc, pos, sum, ty))?;
    two_params(alloc, first, second)
}

// The turn of a loop with an accumulator: the call for the next count and the next sum.
fn gathering_turn(
    alloc: Global,
    pos: Pos,
    function: u32,
    counter: &Name,
    body: Box<Expr>,
) -> Result<Box<Expr>, OutOfMemory>
    ensures { IfOk result (λ e. expr_of e.value ≡ ExprAt pos (CallNode (name_at pos (Fresh function)) (two_exprs
        (next_count pos (Source counter.now)) (expr_of body.value)))) }
{
    let (body, next) = beside(body, next_count(alloc, pos, counter))?;
    let next = two(alloc, next, body)?;
    call_at(alloc, pos, function, next)
}

// The function of a loop that hands an accumulator on.
fn gathering(
    alloc: Global,
    pos: Pos,
    names: LoopNames,
    counter: &Name,
    sum: &Name,
    ty: &TypeExpr,
    body: Box<Expr>,
) -> Result<Box<LambdaExpr>, OutOfMemory>
    ensures { IfOk result (λ l. lambda_of l.value ≡ gathering pos names (Source counter.now) (Source sum.now)
        (type_of ty.now) (expr_of body.value)) }
{
    let turn = gathering_turn(alloc, pos, names.function, counter, body);
    let (turn, done) = both(turn, source_at(alloc, pos, sum))?;
    let body = loop_body(alloc, pos, names.bound, counter, turn, done);
    let params = gathering_params(alloc, pos, counter, sum, ty);
    let types = both(params, ty.duplicate(alloc));
    let (body, (params, result)) = both(body, types)?;
    lambda_at(alloc, pos, params, Some(result), body)
}

// The first call of a loop's function.
fn loop_call(
    alloc: Global,
    pos: Pos,
    names: LoopNames,
    arguments: ExprList,
) -> Result<Box<Expr>, OutOfMemory>
    ensures { IfOk result (λ e. expr_of e.value ≡ ExprAt pos (CallNode (name_at pos (Fresh names.function)) (ExprThen
        (name_at pos (Fresh names.start)) (exprs_of arguments)))) }
{
    let (arguments, start) = beside(arguments, fresh_at(alloc, pos, names.start))?;
    let arguments = cons(alloc, start, arguments)?;
    call_at(alloc, pos, names.function, arguments)
}

// One function under a fresh name, and an expression in its scope.
fn with_function(
    alloc: Global,
    pos: Pos,
    name: u32,
    lambda: Box<LambdaExpr>,
    body: Box<Expr>,
) -> Result<Box<Expr>, OutOfMemory>
    ensures { IfOk result (λ e. expr_of e.value ≡ ExprAt pos (LetrecNode (LetrecThen (Fresh name) None
        (lambda_of lambda.value) NoLetrecs) (one_expr (expr_of body.value)))) }
{
    let (body, member) = beside(body, member_of(alloc, Ident::Fresh(name), None, lambda))?;
    let members = member_first(alloc, member, Members::Nil);
    let (members, body) = both(members, one(alloc, body))?;
    letrec_at(alloc, pos, members, body)
}

// The bindings of a loop: its first count, its bound and others.
fn loop_bindings(
    alloc: Global,
    pos: Pos,
    names: LoopNames,
    bounds: (Box<Expr>, Box<Expr>),
    others: Bindings,
) -> Result<Bindings, OutOfMemory>
    ensures { IfOk result (λ list. lets_of list ≡ LetThen (Fresh names.start) (Some (int_at pos))
        (expr_of bounds.0.value) (LetThen (Fresh names.bound) (Some (int_at pos))
        (expr_of bounds.1.value) (lets_of others))) }
{
    let (first, bound) = bounds;
    let bound = typed_binding(alloc, names.bound, int_at(pos), bound);
    let start = typed_binding(alloc, names.start, int_at(pos), first);
    let (others, (start, bound)) = beside(others, both(start, bound))?;
    let (start, bindings) = beside(start, bound_first(alloc, bound, others))?;
    bound_first(alloc, start, bindings)
}

// The function of a loop, and the first call of it.
fn loop_start(
    alloc: Global,
    pos: Pos,
    names: LoopNames,
    lambda: Box<LambdaExpr>,
    arguments: ExprList,
) -> Result<ExprList, OutOfMemory>
    ensures { IfOk result (λ list. exprs_of list ≡ one_expr (ExprAt pos (LetrecNode (LetrecThen (Fresh names.function)
        None (lambda_of lambda.value) NoLetrecs) (one_expr (ExprAt pos (CallNode (name_at pos (Fresh names.function))
        (ExprThen (name_at pos (Fresh names.start)) (exprs_of arguments)))))))) }
{
    let (lambda, call) = beside(lambda, loop_call(alloc, pos, names, arguments))?;
    let body = with_function(alloc, pos, names.function, lambda, call)?;
    one(alloc, body)
}

// A loop: its names, its function and the call of it.
fn loop_of(
    alloc: Global,
    pos: Pos,
    names: LoopNames,
    bounds: (Box<Expr>, Box<Expr>),
    others: Bindings,
    lambda: Box<LambdaExpr>,
    arguments: ExprList,
) -> Result<Box<Expr>, OutOfMemory>
    ensures { IfOk result (λ e. expr_of e.value ≡ loop_of pos names (expr_of bounds.0.value) (expr_of bounds.1.value)
        (lets_of others) (lambda_of lambda.value) (exprs_of arguments)) }
{
    let bindings = loop_bindings(alloc, pos, names, bounds, others);
    let body = loop_start(alloc, pos, names, lambda, arguments);
    let (bindings, body) = both(bindings, body)?;
    let_at(alloc, pos, bindings, body)
}

/// A `repeat` without an accumulator.
pub fn counted_loop(
    alloc: Global,
    pos: Pos,
    names: LoopNames,
    range: Range,
    body: Box<Expr>,
) -> Result<Box<Expr>, OutOfMemory>
    ensures { IfOk result (λ e. expr_of e.value ≡ repeat_of pos names range.counter (expr_of range.first.value)
        (expr_of range.bound.value) (expr_of body.value)) }
{
    let lambda = counting(alloc, pos, names, &range.counter, body);
    let (range, lambda) = beside(range, lambda)?;
    loop_of(
        alloc,
        pos,
        names,
        (range.first, range.bound),
        Bindings::Nil,
        lambda,
        ExprList::Nil,
    )
}

// The written type, or Dyn.
fn type_or_dyn(pos: Pos, written: Option<TypeExpr>) -> TypeExpr
    ensures { type_of result ≡ type_or_dyn pos (written_of written) }
{
    match written {
        Some(ty) => ty,
        None => base_at(pos, Row::Dyn),
    }
}

// The binding of an accumulator to this fresh name, and the use of that name, each as a list.
fn sum_start(
    alloc: Global,
    pos: Pos,
    name: u32,
    sum: Sum,
) -> Result<(Bindings, ExprList), OutOfMemory>
    ensures bindings { IfOk result (λ two. lets_of two.0 ≡ LetThen (Fresh name) (Some (type_of sum.ty))
        (expr_of sum.value.value) NoLets) }
    ensures uses { IfOk result (λ two. exprs_of two.1 ≡ one_expr (name_at pos (Fresh name))) }
{
    let binding = typed_binding(alloc, name, sum.ty, sum.value);
    let (binding, value) = both(binding, fresh_at(alloc, pos, name))?;
    both(
        bound_first(alloc, binding, Bindings::Nil),
        one(alloc, value),
    )
}

/// A `repeat` with an accumulator, of which this is the fresh name.
pub fn gathering_loop(
    alloc: Global,
    pos: Pos,
    names: LoopNames,
    value: u32,
    range: Range,
    start: Box<Binding>,
    body: Box<Expr>,
) -> Result<Box<Expr>, OutOfMemory>
    ensures { IfOk result (λ e. expr_of e.value ≡ repeat_into_of pos names (Fresh value) range.counter
        (expr_of range.first.value) (expr_of range.bound.value) (source_of (name_of_binding start.value))
        (type_or_dyn pos (type_of_binding start.value)) (value_of_binding start.value) (expr_of body.value)) }
{
    let sum = sum_of(alloc, pos, start)?;
    let lambda = gathering(alloc, pos, names, &range.counter, &sum.name, &sum.ty, body);
    let first = sum_start(alloc, pos, value, sum);
    let (lambda, (others, arguments)) = both(lambda, first)?;
    loop_of(
        alloc,
        pos,
        names,
        (range.first, range.bound),
        others,
        lambda,
        arguments,
    )
}
