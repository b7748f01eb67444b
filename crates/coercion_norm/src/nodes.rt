// Coercions one constructor deep.

ghost use Rattle.std.specs.Prelude.{◌≡◌, IfOk, length};
ghost use Rattle.coercion_norm.specs.Nodes.{KindHasWidth, MiddleNode, coercion_places, node_of, node_parts};

use crate::middles::MiddleKind;
use grift_base::lists::{Items, OutOfMemory};
use grift_base::places::{LabelId, TypeId};
use std::alloc::Global;

/// A place in a table of coercions, from 0.
#[derive(Clone, Copy, PartialEq, Eq, Hash)]
pub struct CoercionId(pub u32);

/// Coercions in order, by their places in a table.
pub type CoercionIds = Items<CoercionId>;

/// A coercion: its constructor, and the places of its parts in the table that the node stands in.
#[derive(PartialEq, Eq, Hash)]
pub enum CoercionNode {
    /// Changes nothing.
    Id,
    /// Blames the label.
    Fail(LabelId),
    /// Between functions: the coercions of the arguments, which run backwards, and that of the result.
    Fun(CoercionIds, CoercionId),
    /// Between tuples: the coercions of the parts.
    Tup(CoercionIds),
    /// Between references: that of what is read, and that of what is written, which runs backwards.
    Ref(CoercionId, CoercionId),
    /// Between vectors: that of what is read, and that of what is written, which runs backwards.
    Vec(CoercionId, CoercionId),
    /// Into Dyn: what comes before, and the type that is kept beside the value.
    Inject(CoercionId, TypeId),
    /// Out of Dyn: the type that is wanted, the label that is blamed where another is found, and what comes after.
    Project(TypeId, LabelId, CoercionId),
}

impl Drop for CoercionNode {
    fn drop(self) {
        match self {
            CoercionNode::Id => {}
            CoercionNode::Fail(_) => {}
            CoercionNode::Fun(a, _) => {
                drop(a);
            }
            CoercionNode::Tup(a) => {
                drop(a);
            }
            CoercionNode::Ref(_, _) => {}
            CoercionNode::Vec(_, _) => {}
            CoercionNode::Inject(_, _) => {}
            CoercionNode::Project(_, _, _) => {}
        }
    }
}

impl CoercionNode {
    /// The places of its parts, in order.
    pub fn parts(&self, alloc: Global) -> Result<Vec<CoercionId>, OutOfMemory>
        ensures { IfOk result (λ parts. coercion_places parts.items ≡ node_parts (node_of self.now)) }
    {
        match self {
            CoercionNode::Id | CoercionNode::Fail(_) => Ok(Vec::new(alloc)),
            CoercionNode::Fun(arguments, result) => {
                let mut parts = Vec::from_slice(alloc, arguments.as_slice())?;
                parts.push(*result)?;
                Ok(parts)
            }
            CoercionNode::Tup(parts) => Ok(Vec::from_slice(alloc, parts.as_slice())?),
            CoercionNode::Ref(read, write) | CoercionNode::Vec(read, write) => {
                Ok(Vec::from_slice(alloc, &[*read, *write])?)
            }
            CoercionNode::Inject(part, _) | CoercionNode::Project(_, _, part) => {
                Ok(Vec::from_slice(alloc, &[*part])?)
            }
        }
    }
}

/// The middle with these parts.
pub fn middle_node(
    alloc: Global,
    kind: MiddleKind,
    parts: &[CoercionId],
) -> Result<CoercionNode, OutOfMemory>
    requires { KindHasWidth kind (length parts.now) }
    ensures { IfOk result (λ node. node_of node ≡ MiddleNode kind (coercion_places parts.now)) }
{
    match kind {
        MiddleKind::Fun => {
            let last = parts.len() - 1;
            let arguments = CoercionIds::from_slice(alloc, &parts[..last])?;
            Ok(CoercionNode::Fun(arguments, parts[last]))
        }
        MiddleKind::Tup => Ok(CoercionNode::Tup(CoercionIds::from_slice(alloc, parts)?)),
        MiddleKind::Ref => Ok(CoercionNode::Ref(parts[0], parts[1])),
        MiddleKind::Vec => Ok(CoercionNode::Vec(parts[0], parts[1])),
    }
}
