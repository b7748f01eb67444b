// Rows of a table of types.

ghost use Rattle.std.specs.Prelude.{◌≡◌, IfOk};

use grift_base::lists::{Items, OutOfMemory};
use grift_base::places::TypeId;
use std::alloc::Global;

/// Types in order, by their places in a table.
pub type TypeIds = Items<TypeId>;

/// A type: its constructor, and the places of its parts in the table that the row stands in.
#[derive(PartialEq, Eq, Hash, Drop)]
pub enum Row {
    /// 64-bit integers.
    Int,
    /// Truth values.
    Bool,
    /// The one value `()`.
    Unit,
    /// Values of any type, each with its type.
    Dyn,
    /// Functions: the types of the parameters, and that of the result.
    Fun(TypeIds, TypeId),
    /// Tuples, by the types of their parts.
    Tuple(TypeIds),
    /// Boxes, by the type of what they hold.
    Ref(TypeId),
    /// Vectors, by the type of their elements.
    Vect(TypeId),
}

impl Row {
    /// The same row again; `Err` is want of memory for the places of its parts.
    pub fn duplicate(&self, alloc: Global) -> Result<Row, OutOfMemory>
        ensures { IfOk result (λ same. same ≡ self.now) }
    {
        match self {
            Row::Int => Ok(Row::Int),
            Row::Bool => Ok(Row::Bool),
            Row::Unit => Ok(Row::Unit),
            Row::Dyn => Ok(Row::Dyn),
            Row::Fun(parameters, result) => Ok(Row::Fun(
                TypeIds::from_slice(alloc, parameters.as_slice())?,
                *result,
            )),
            Row::Tuple(parts) => Ok(Row::Tuple(TypeIds::from_slice(alloc, parts.as_slice())?)),
            Row::Ref(content) => Ok(Row::Ref(*content)),
            Row::Vect(content) => Ok(Row::Vect(*content)),
        }
    }
}
