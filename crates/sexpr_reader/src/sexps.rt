// S-expressions.

use grift_base::drop_along;
use grift_base::lists::Name;
use grift_base::places::Pos;

/// An s-expression and the place of its first byte; the place of a list is that of its opening bracket.
#[cycle(sexp)]
#[derive(Drop)]
pub struct Sexp {
    pub pos: Pos,
    pub node: SexpNode,
}

/// What an s-expression is.
#[cycle(sexp)]
#[derive(Drop)]
pub enum SexpNode {
    /// An integer.
    Int(i64),
    /// A truth value.
    Bool(bool),
    /// The bytes of a symbol.
    Symbol(Name),
    /// The elements between two brackets.
    List(SexpList),
}

/// S-expressions in order.
#[cycle(sexp)]
pub enum SexpList {
    /// No s-expression.
    Nil,
    /// The first one, and those behind it.
    Cons(Box<Sexp>, Box<SexpList>),
}

impl Drop for SexpList {
    #[cycle(sexp)]
    fn drop(mut self) {
        drop_along!(self, SexpList)
    }
}
