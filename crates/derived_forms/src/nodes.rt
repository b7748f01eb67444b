// Expressions on the heap, form by form.

ghost use Rattle.std.specs.Prelude.{◌≡◌, ◌∷◌, [], IfOk, Some};
ghost use Rattle.type_graph.specs.Rows.{row_of};
ghost use Rattle.surface_trees.specs.declared.names.Ident.TheVariants.{Source, Fresh};
ghost use Rattle.surface_trees.specs.Trees.{TypeAt, BaseType, ExprAt, PrimNode, IfNode, BeginNode, CallNode, LetNode};
ghost use Rattle.surface_trees.specs.Trees.{LetrecNode, ExprThen, LetThen, LetrecThen, IntNode, BoolNode, UnitNode};
ghost use Rattle.surface_trees.specs.Trees.{LambdaNode, LambdaAt, TupleNode, ProjNode, AscribeNode};
ghost use Rattle.derived_forms.specs.Expansion.{linked, one_expr, two_exprs, name_at, int_at, typed_param, chain_of};
ghost use Rattle.surface_trees.specs.Views.{type_of, written_of, param_of, params_of, expr_of, exprs_of, lets_of};
ghost use Rattle.surface_trees.specs.Views.{source_of, node_of, lambda_of, letrecs_of, name_of_binding};
ghost use Rattle.surface_trees.specs.Views.{type_of_binding, value_of_binding, name_of_member, type_of_member};
ghost use Rattle.surface_trees.specs.Views.{fun_of_member};

use grift_base::lists::{Name, OutOfMemory};
use grift_base::made::{beside, boxed};
use grift_base::operators::PrimOp;
use grift_base::places::Pos;
use std::alloc::Global;
use surface_trees::exprs::{
    Binding, Bindings, Expr, ExprList, ExprNode, LambdaExpr, Member, Members,
};
use surface_trees::names::Ident;
use surface_trees::types::{Param, Params, TypeExpr, TypeNode};
use type_graph::rows::Row;

/// A name of the source.
pub fn source(alloc: Global, name: &Name) -> Result<Ident, OutOfMemory>
    ensures { IfOk result (λ ident. ident ≡ Source name.now) }
{
    Ok(Ident::Source(Name::from_slice(alloc, name.as_slice())?))
}

// The bytes of a name of the source; none of a fresh one.
pub(crate) fn bytes_of(alloc: Global, name: &Ident) -> Result<Name, OutOfMemory>
    ensures { IfOk result (λ bytes. bytes ≡ source_of name.now) }
{
    match name {
        Ident::Source(bytes) => Name::from_slice(alloc, bytes.as_slice()),
        Ident::Fresh(_) => Ok(Name::new(alloc)),
    }
}

// What an expression is, on the heap. Readers hand it on there, since what a proof costs goes by the types that a
// function holds: a box shows nothing of what is in it.
fn placed(alloc: Global, pos: Pos, node: ExprNode) -> Result<Box<Expr>, OutOfMemory>
    ensures { IfOk result (λ e. expr_of e.value ≡ ExprAt pos (node_of node)) }
{
    boxed(alloc, Expr { pos, node })
}

/// An integer.
pub fn integer_at(alloc: Global, pos: Pos, number: i64) -> Result<Box<Expr>, OutOfMemory>
    ensures { IfOk result (λ e. expr_of e.value ≡ ExprAt pos (IntNode number)) }
{
    placed(alloc, pos, ExprNode::Int(number))
}

/// A truth value.
pub fn truth_at(alloc: Global, pos: Pos, truth: bool) -> Result<Box<Expr>, OutOfMemory>
    ensures { IfOk result (λ e. expr_of e.value ≡ ExprAt pos (BoolNode truth)) }
{
    placed(alloc, pos, ExprNode::Bool(truth))
}

/// The value `()`.
pub fn unit_at(alloc: Global, pos: Pos) -> Result<Box<Expr>, OutOfMemory>
    ensures { IfOk result (λ e. expr_of e.value ≡ ExprAt pos UnitNode) }
{
    placed(alloc, pos, ExprNode::Unit)
}

/// The use of a name.
pub fn name_at(alloc: Global, pos: Pos, name: Ident) -> Result<Box<Expr>, OutOfMemory>
    ensures { IfOk result (λ e. expr_of e.value ≡ name_at pos name) }
{
    placed(alloc, pos, ExprNode::Name(name))
}

/// A function as an expression.
pub fn function_at(
    alloc: Global,
    pos: Pos,
    lambda: Box<LambdaExpr>,
) -> Result<Box<Expr>, OutOfMemory>
    ensures { IfOk result (λ e. expr_of e.value ≡ ExprAt pos (LambdaNode (lambda_of lambda.value))) }
{
    placed(alloc, pos, ExprNode::Lambda(Box::into_inner(lambda)))
}

/// A function with these parameters, and the type of what it answers, where one is written.
pub fn lambda_at(
    alloc: Global,
    pos: Pos,
    params: Params,
    answer: Option<TypeExpr>,
    body: ExprList,
) -> Result<Box<LambdaExpr>, OutOfMemory>
    ensures { IfOk result (λ l. lambda_of l.value ≡ LambdaAt pos (params_of params) (written_of answer)
        (exprs_of body)) }
{
    let lambda = LambdaExpr {
        pos,
        params,
        result: answer,
        body,
    };
    boxed(alloc, lambda)
}

/// Expressions one after another.
pub fn sequence_at(alloc: Global, pos: Pos, body: ExprList) -> Result<Box<Expr>, OutOfMemory>
    ensures { IfOk result (λ e. expr_of e.value ≡ ExprAt pos (BeginNode (exprs_of body))) }
{
    placed(alloc, pos, ExprNode::Begin(body))
}

/// A tuple of these parts.
pub fn tuple_at(alloc: Global, pos: Pos, parts: ExprList) -> Result<Box<Expr>, OutOfMemory>
    ensures { IfOk result (λ e. expr_of e.value ≡ ExprAt pos (TupleNode (exprs_of parts))) }
{
    placed(alloc, pos, ExprNode::Tuple(parts))
}

/// The part of a tuple with this number, which stands at a place of its own.
pub fn part_at(
    alloc: Global,
    pos: Pos,
    tuple: Box<Expr>,
    number: i64,
    at: Pos,
) -> Result<Box<Expr>, OutOfMemory>
    ensures { IfOk result (λ e. expr_of e.value ≡ ExprAt pos (ProjNode (expr_of tuple.value) number at)) }
{
    placed(alloc, pos, ExprNode::Proj(tuple, number, at))
}

/// An expression at a written type.
pub fn ascription_at(
    alloc: Global,
    pos: Pos,
    inner: Box<Expr>,
    ty: TypeExpr,
) -> Result<Box<Expr>, OutOfMemory>
    ensures { IfOk result (λ e. expr_of e.value ≡ ExprAt pos (AscribeNode (expr_of inner.value) (type_of ty))) }
{
    placed(alloc, pos, ExprNode::Ascribe(inner, ty))
}

/// An operator with these operands.
pub fn operator_at(
    alloc: Global,
    pos: Pos,
    operator: PrimOp,
    operands: ExprList,
) -> Result<Box<Expr>, OutOfMemory>
    ensures { IfOk result (λ e. expr_of e.value ≡ ExprAt pos (PrimNode operator (exprs_of operands))) }
{
    placed(alloc, pos, ExprNode::Prim(operator, operands))
}

/// A call of what this expression is.
pub fn called(
    alloc: Global,
    pos: Pos,
    function: Box<Expr>,
    arguments: ExprList,
) -> Result<Box<Expr>, OutOfMemory>
    ensures { IfOk result (λ e. expr_of e.value ≡ ExprAt pos (CallNode (expr_of function.value) (exprs_of arguments))) }
{
    placed(alloc, pos, ExprNode::Call(function, arguments))
}

/// Names for values, and the body.
pub fn let_at(
    alloc: Global,
    pos: Pos,
    bindings: Bindings,
    body: ExprList,
) -> Result<Box<Expr>, OutOfMemory>
    ensures { IfOk result (λ e. expr_of e.value ≡ ExprAt pos (LetNode (lets_of bindings) (exprs_of body))) }
{
    placed(alloc, pos, ExprNode::Let(bindings, body))
}

/// Functions that may call one another, and the body.
pub fn letrec_at(
    alloc: Global,
    pos: Pos,
    members: Members,
    body: ExprList,
) -> Result<Box<Expr>, OutOfMemory>
    ensures { IfOk result (λ e. expr_of e.value ≡ ExprAt pos (LetrecNode (letrecs_of members) (exprs_of body))) }
{
    placed(alloc, pos, ExprNode::Letrec(members, body))
}

// The use of a fresh name.
pub(crate) fn fresh_at(alloc: Global, pos: Pos, number: u32) -> Result<Box<Expr>, OutOfMemory>
    ensures { IfOk result (λ e. expr_of e.value ≡ name_at pos (Fresh number)) }
{
    name_at(alloc, pos, Ident::Fresh(number))
}

// A type without parts.
pub(crate) fn base_at(pos: Pos, row: Row) -> TypeExpr
    ensures { type_of result ≡ TypeAt pos (BaseType (row_of row)) }
{
    TypeExpr {
        pos,
        node: TypeNode::Base(row),
    }
}

// The type of integers.
pub(crate) fn int_at(pos: Pos) -> TypeExpr
    ensures { type_of result ≡ int_at pos }
{
    base_at(pos, Row::Int)
}

/// An expression in front of others.
pub fn cons(alloc: Global, first: Box<Expr>, rest: ExprList) -> Result<ExprList, OutOfMemory>
    ensures { IfOk result (λ list. exprs_of list ≡ ExprThen (expr_of first.value) (exprs_of rest)) }
{
    let rest = boxed(alloc, rest)?;
    Ok(ExprList::Cons(first, rest))
}

/// One expression as a list.
pub fn one(alloc: Global, expr: Box<Expr>) -> Result<ExprList, OutOfMemory>
    ensures { IfOk result (λ list. exprs_of list ≡ one_expr (expr_of expr.value)) }
{
    cons(alloc, expr, ExprList::Nil)
}

/// Two expressions as a list.
pub fn two(alloc: Global, first: Box<Expr>, second: Box<Expr>) -> Result<ExprList, OutOfMemory>
    ensures { IfOk result (λ list. exprs_of list ≡ two_exprs (expr_of first.value) (expr_of second.value)) }
{
    let (first, rest) = beside(first, one(alloc, second))?;
    cons(alloc, first, rest)
}

/// The use of a source's name.
pub fn source_at(alloc: Global, pos: Pos, name: &Name) -> Result<Box<Expr>, OutOfMemory>
    ensures { IfOk result (λ e. expr_of e.value ≡ name_at pos (Source name.now)) }
{
    let name = source(alloc, name)?;
    name_at(alloc, pos, name)
}

pub(crate) fn typed_param(pos: Pos, name: Ident, ty: TypeExpr) -> Param
    ensures { param_of result ≡ typed_param pos name (type_of ty) }
{
    Param {
        pos,
        name,
        ty: Some(ty),
    }
}

// An operator with two operands.
pub(crate) fn operation(
    alloc: Global,
    pos: Pos,
    operator: PrimOp,
    first: Box<Expr>,
    second: Box<Expr>,
) -> Result<Box<Expr>, OutOfMemory>
    ensures { IfOk result (λ e. expr_of e.value ≡ ExprAt pos (PrimNode operator (two_exprs (expr_of first.value)
        (expr_of second.value)))) }
{
    let operands = two(alloc, first, second)?;
    operator_at(alloc, pos, operator, operands)
}

/// These operands of an `and`, where all are to hold, or of an `or`. A recursion along the list: there are eight at
/// most.
pub fn chain(
    alloc: Global,
    all: bool,
    pos: Pos,
    operands: ExprList,
) -> Result<Box<Expr>, OutOfMemory>
    ensures { IfOk result (λ e. expr_of e.value ≡ chain_of all pos (exprs_of operands)) }
{
    let Some((first, rest)) = operands.split() else {
        return truth_at(alloc, pos, all);
    };
    if let ExprList::Nil = &rest {
        return Ok(first);
    }
    let others = chain(alloc, all, pos, rest)?;
    linked(alloc, all, pos, first, others)
}

/// A link of an `and`, where all operands are to hold, or of an `or`.
pub fn linked(
    alloc: Global,
    all: bool,
    pos: Pos,
    first: Box<Expr>,
    rest: Box<Expr>,
) -> Result<Box<Expr>, OutOfMemory>
    ensures { IfOk result (λ e. expr_of e.value ≡ linked all pos (expr_of first.value) (expr_of rest.value)) }
{
    let ((first, rest), known) = beside((first, rest), truth_at(alloc, pos, !all))?;
    if all {
        return if_at(alloc, pos, first, rest, known);
    }
    if_at(alloc, pos, first, known, rest)
}

/// A choice.
pub fn if_at(
    alloc: Global,
    pos: Pos,
    condition: Box<Expr>,
    on_true: Box<Expr>,
    on_false: Box<Expr>,
) -> Result<Box<Expr>, OutOfMemory>
    ensures { IfOk result (λ e. expr_of e.value ≡ ExprAt pos (IfNode (expr_of condition.value) (expr_of on_true.value)
        (expr_of on_false.value))) }
{
    placed(alloc, pos, ExprNode::If(condition, on_true, on_false))
}

// A call of a function with a fresh name.
pub(crate) fn call_at(
    alloc: Global,
    pos: Pos,
    function: u32,
    arguments: ExprList,
) -> Result<Box<Expr>, OutOfMemory>
    ensures { IfOk result (λ e. expr_of e.value ≡ ExprAt pos (CallNode (name_at pos (Fresh function))
        (exprs_of arguments))) }
{
    let (arguments, function) = beside(arguments, fresh_at(alloc, pos, function))?;
    called(alloc, pos, function, arguments)
}

// One parameter as a list.
pub(crate) fn one_param(alloc: Global, param: Param) -> Result<Params, OutOfMemory>
    ensures { IfOk result (λ params. params ≡ param ∷ []) }
{
    let mut params = Params::new(alloc);
    params.push(param)?;
    Ok(params)
}

// Two parameters as a list.
pub(crate) fn two_params(alloc: Global, first: Param, second: Param) -> Result<Params, OutOfMemory>
    ensures { IfOk result (λ params. params ≡ first ∷ second ∷ []) }
{
    let (second, mut params) = beside(second, one_param(alloc, first))?;
    params.push(second)?;
    Ok(params)
}

/// A name for a value, and its type where one is written.
pub fn binding_of(
    alloc: Global,
    name: Ident,
    ty: Option<TypeExpr>,
    value: Box<Expr>,
) -> Result<Box<Binding>, OutOfMemory>
    ensures name { IfOk result (λ b. name_of_binding b.value ≡ name) }
    ensures written { IfOk result (λ b. type_of_binding b.value ≡ written_of ty) }
    ensures value { IfOk result (λ b. value_of_binding b.value ≡ expr_of value.value) }
{
    let value = Box::into_inner(value);
    boxed(alloc, Binding { name, ty, value })
}

/// A name for a function, and its type where one is written.
pub fn member_of(
    alloc: Global,
    name: Ident,
    ty: Option<TypeExpr>,
    fun: Box<LambdaExpr>,
) -> Result<Box<Member>, OutOfMemory>
    ensures name { IfOk result (λ m. name_of_member m.value ≡ name) }
    ensures written { IfOk result (λ m. type_of_member m.value ≡ written_of ty) }
    ensures fun { IfOk result (λ m. fun_of_member m.value ≡ lambda_of fun.value) }
{
    let fun = Box::into_inner(fun);
    boxed(alloc, Member { name, ty, fun })
}

// A typed binding of a fresh name.
pub(crate) fn typed_binding(
    alloc: Global,
    name: u32,
    ty: TypeExpr,
    value: Box<Expr>,
) -> Result<Box<Binding>, OutOfMemory>
    ensures name { IfOk result (λ b. name_of_binding b.value ≡ Fresh name) }
    ensures written { IfOk result (λ b. type_of_binding b.value ≡ Some (type_of ty)) }
    ensures value { IfOk result (λ b. value_of_binding b.value ≡ expr_of value.value) }
{
    binding_of(alloc, Ident::Fresh(name), Some(ty), value)
}

/// A binding in front of others.
pub fn bound_first(
    alloc: Global,
    first: Box<Binding>,
    rest: Bindings,
) -> Result<Bindings, OutOfMemory>
    ensures { IfOk result (λ list. lets_of list ≡ LetThen (name_of_binding first.value) (type_of_binding first.value)
        (value_of_binding first.value) (lets_of rest)) }
{
    let rest = boxed(alloc, rest)?;
    Ok(Bindings::Cons(first, rest))
}

/// A member in front of others.
pub fn member_first(
    alloc: Global,
    first: Box<Member>,
    rest: Members,
) -> Result<Members, OutOfMemory>
    ensures { IfOk result (λ list. letrecs_of list ≡ LetrecThen (name_of_member first.value)
        (type_of_member first.value) (fun_of_member first.value) (letrecs_of rest)) }
{
    let rest = boxed(alloc, rest)?;
    Ok(Members::Cons(first, rest))
}
