// Types as a source writes them, and parameters.

ghost use Rattle.std.specs.Prelude.{◌≡◌, IfOk};

use crate::names::Ident;
use grift_base::drop_along;
use grift_base::lists::{Items, OutOfMemory};
use grift_base::made::{both, boxed_made};
use grift_base::places::Pos;
use std::alloc::Global;
use type_graph::rows::Row;

/// A type and its place: that of its word, or of its opening bracket.
#[cycle(written_type)]
pub struct TypeExpr {
    pub pos: Pos,
    pub node: TypeNode,
}

/// What a written type is.
#[cycle(written_type)]
pub enum TypeNode {
    /// A type without parts.
    Base(Row),
    /// Functions: the types of the parameters, and that of the result.
    Fun(TypeExprs, Box<TypeExpr>),
    /// Tuples, by the types of their parts.
    Tuple(TypeExprs),
    /// Boxes, by the type of what they hold.
    Ref(Box<TypeExpr>),
    /// Vectors, by the type of their elements.
    Vect(Box<TypeExpr>),
}

/// Written types in order.
#[cycle(written_type)]
pub enum TypeExprs {
    /// No type.
    Nil,
    /// The first one, and those behind it.
    Cons(Box<TypeExpr>, Box<TypeExprs>),
}

// By hand, so that each place where a type goes is one call.
impl Drop for TypeExpr {
    #[cycle(written_type)]
    fn drop(self) {
        let TypeExpr { pos: _, node } = self;
        drop(node);
    }
}

impl Drop for TypeNode {
    #[cycle(written_type)]
    fn drop(self) {
        match self {
            TypeNode::Base(row) => drop(row),
            TypeNode::Fun(parameters, result) => drop((parameters, result)),
            TypeNode::Tuple(parts) => drop(parts),
            TypeNode::Ref(content) | TypeNode::Vect(content) => drop(content),
        }
    }
}

// A loop, since a list may be longer than the process's stack is deep.
impl Drop for TypeExprs {
    #[cycle(written_type)]
    fn drop(mut self) {
        drop_along!(self, TypeExprs)
    }
}

impl TypeExpr {
    ghost use Rattle.surface_trees.specs.Views.{type_of};

    /// The same type again.
    #[cycle(duplicate)]
    pub fn duplicate(&self, alloc: Global) -> Result<TypeExpr, OutOfMemory>
        ensures { IfOk result (λ same. type_of same ≡ type_of self.now) }
    {
        let node = self.node.duplicate(alloc)?;
        Ok(TypeExpr {
            pos: self.pos,
            node,
        })
    }
}

impl TypeNode {
    ghost use Rattle.surface_trees.specs.Views.{type_node_of};

    #[cycle(duplicate)]
    fn duplicate(&self, alloc: Global) -> Result<TypeNode, OutOfMemory>
        ensures { IfOk result (λ same. type_node_of same ≡ type_node_of self.now) }
    {
        match self {
            TypeNode::Base(row) => Ok(TypeNode::Base(row.duplicate(alloc)?)),
            TypeNode::Fun(parameters, result) => {
                let result = boxed_made(alloc, result.duplicate(alloc));
                let (parameters, result) = both(parameters.duplicate(alloc), result)?;
                Ok(TypeNode::Fun(parameters, result))
            }
            TypeNode::Tuple(parts) => Ok(TypeNode::Tuple(parts.duplicate(alloc)?)),
            TypeNode::Ref(content) => {
                let content = boxed_made(alloc, content.duplicate(alloc))?;
                Ok(TypeNode::Ref(content))
            }
            TypeNode::Vect(content) => {
                let content = boxed_made(alloc, content.duplicate(alloc))?;
                Ok(TypeNode::Vect(content))
            }
        }
    }
}

impl TypeExprs {
    ghost use Rattle.surface_trees.specs.Views.{types_of};

    // A recursion along the list: a tuple has at most eight parts, a function at most six parameters.
    #[cycle(duplicate)]
    fn duplicate(&self, alloc: Global) -> Result<TypeExprs, OutOfMemory>
        ensures { IfOk result (λ same. types_of same ≡ types_of self.now) }
    {
        match self {
            TypeExprs::Nil => Ok(TypeExprs::Nil),
            TypeExprs::Cons(first, rest) => {
                let first = boxed_made(alloc, first.duplicate(alloc));
                let rest = boxed_made(alloc, rest.duplicate(alloc));
                let (first, rest) = both(first, rest)?;
                Ok(TypeExprs::Cons(first, rest))
            }
        }
    }
}

/// A parameter: its place, its name, and its type where one is written.
pub struct Param {
    pub pos: Pos,
    pub name: Ident,
    pub ty: Option<TypeExpr>,
}

impl Drop for Param {
    fn drop(self) {
        let Param { pos: _, name, ty } = self;
        drop(name);
        drop(ty);
    }
}

/// Parameters in order.
pub type Params = Items<Param>;
