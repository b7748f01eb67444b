// Expressions and programs, with every derived form expanded.

use crate::names::Ident;
use crate::types::{Params, TypeExpr};
use grift_base::drop_along;
use grift_base::operators::PrimOp;
use grift_base::places::Pos;

/// An expression and its place. What a derived form expands to has the place of that form.
#[cycle(expr)]
pub struct Expr {
    pub pos: Pos,
    pub node: ExprNode,
}

/// What an expression is.
#[cycle(expr)]
pub enum ExprNode {
    /// An integer.
    Int(i64),
    /// A truth value.
    Bool(bool),
    /// The one value `()`.
    Unit,
    /// The use of a name.
    Name(Ident),
    /// A function.
    Lambda(LambdaExpr),
    /// A call: the function and the arguments.
    Call(Box<Expr>, ExprList),
    /// Names for values, and the body.
    Let(Bindings, ExprList),
    /// Functions that may call one another, and the body.
    Letrec(Members, ExprList),
    /// The condition, and what is evaluated where it holds and where not.
    If(Box<Expr>, Box<Expr>, Box<Expr>),
    /// Expressions one after another.
    Begin(ExprList),
    /// An expression at a written type.
    Ascribe(Box<Expr>, TypeExpr),
    /// A tuple, by its parts.
    Tuple(ExprList),
    /// A part of a tuple: the tuple, the number of the part from 0, and the place of that number.
    Proj(Box<Expr>, i64, Pos),
    /// An operator and its operands.
    Prim(PrimOp, ExprList),
}

/// A function: its parameters, its result's type where one is written, and its body.
#[cycle(expr)]
pub struct LambdaExpr {
    pub pos: Pos,
    pub params: Params,
    pub result: Option<TypeExpr>,
    pub body: ExprList,
}

/// A name for a value: the name, its type where one is written, and the value.
#[cycle(expr)]
pub struct Binding {
    pub name: Ident,
    pub ty: Option<TypeExpr>,
    pub value: Expr,
}

/// A name for a function: the name, its type where one is written, and the function.
#[cycle(expr)]
pub struct Member {
    pub name: Ident,
    pub ty: Option<TypeExpr>,
    pub fun: LambdaExpr,
}

/// Expressions in order.
#[cycle(expr)]
pub enum ExprList {
    /// No expression.
    Nil,
    /// The first one, and those behind it.
    Cons(Box<Expr>, Box<ExprList>),
}

/// Names for values in order.
#[cycle(expr)]
pub enum Bindings {
    /// No name.
    Nil,
    /// The first one, and those behind it.
    Cons(Box<Binding>, Box<Bindings>),
}

/// Names for functions in order.
#[cycle(expr)]
pub enum Members {
    /// No name.
    Nil,
    /// The first one, and those behind it.
    Cons(Box<Member>, Box<Members>),
}

// By hand, so that each place where an expression goes is one call.
impl Drop for ExprNode {
    #[cycle(expr)]
    fn drop(self) {
        match self {
            ExprNode::Int(_) | ExprNode::Bool(_) | ExprNode::Unit => {}
            ExprNode::Name(name) => drop(name),
            ExprNode::Lambda(lambda) => drop(lambda),
            ExprNode::Call(function, arguments) => drop((function, arguments)),
            ExprNode::Let(bindings, body) => drop((bindings, body)),
            ExprNode::Letrec(members, body) => drop((members, body)),
            ExprNode::If(condition, on_true, on_false) => drop((condition, on_true, on_false)),
            ExprNode::Begin(list) | ExprNode::Tuple(list) | ExprNode::Prim(_, list) => drop(list),
            ExprNode::Ascribe(inner, ty) => drop((inner, ty)),
            ExprNode::Proj(tuple, _, _) => drop(tuple),
        }
    }
}

impl Drop for Expr {
    #[cycle(expr)]
    fn drop(self) {
        let Expr { pos: _, node } = self;
        drop(node);
    }
}

impl Drop for LambdaExpr {
    #[cycle(expr)]
    fn drop(self) {
        let LambdaExpr {
            pos: _,
            params,
            result,
            body,
        } = self;
        drop(params);
        drop(result);
        drop(body);
    }
}

impl Drop for Binding {
    #[cycle(expr)]
    fn drop(self) {
        let Binding { name, ty, value } = self;
        drop(name);
        drop(ty);
        drop(value);
    }
}

impl Binding {
    ghost use Rattle.std.specs.Prelude.{◌≡◌};

    /// The name, the type where one is written, and the value.
    pub fn parts(self) -> (Ident, Option<TypeExpr>, Expr)
        ensures { result ≡ (self.name, self.ty, self.value) }
    {
        let Binding { name, ty, value } = self;
        (name, ty, value)
    }
}

impl Drop for Member {
    #[cycle(expr)]
    fn drop(self) {
        let Member { name, ty, fun } = self;
        drop(name);
        drop(ty);
        drop(fun);
    }
}

// Loops, since a list may be longer than the process's stack is deep.
impl Drop for ExprList {
    #[cycle(expr)]
    fn drop(mut self) {
        drop_along!(self, ExprList)
    }
}

impl Drop for Bindings {
    #[cycle(expr)]
    fn drop(mut self) {
        drop_along!(self, Bindings)
    }
}

impl Drop for Members {
    #[cycle(expr)]
    fn drop(mut self) {
        drop_along!(self, Members)
    }
}

impl ExprList {
    ghost use Rattle.std.specs.Prelude.{◌≡◌, ◌<◌, IfNone, IfSome};
    ghost use Rattle.surface_trees.specs.Trees.{NoExprs, ExprThen};
    ghost use Rattle.surface_trees.specs.Views.{expr_of, exprs_of};
    ghost use Rattle.surface_trees.specs.declared.exprs.ExprList.{size-ExprList};

    /// The first expression and those behind it, if there is one.
    pub fn split(self) -> Option<(Box<Expr>, ExprList)>
        ensures none { IfNone result (exprs_of self ≡ NoExprs) }
        ensures some { IfSome result (λ two. exprs_of self ≡ ExprThen (expr_of two.0.value) (exprs_of two.1)) }
        ensures smaller { IfSome result (λ two. size-ExprList two.1 < size-ExprList self) }
    {
        match self {
            ExprList::Nil => None,
            ExprList::Cons(first, rest) => Some((first, Box::into_inner(rest))),
        }
    }
}

/// A program: its one expression, and how many forms its source has at top level.
pub struct Program {
    pub body: Expr,
    pub forms: u32,
}

// By hand, so that each place where one goes is one call.
impl Drop for Program {
    fn drop(self) {
        let Program { body, forms: _ } = self;
        drop(body);
    }
}
