// The coercions between types of one head that have parts, and what their parts speak of.

ghost use Rattle.std.specs.Prelude.{◌≡◌, ◌<◌, ◌≤◌, length, slice_index};
ghost use Rattle.grift_base.specs.Types.{is_dyn, same_head};
ghost use Rattle.type_graph.specs.Rows.{row_of};
ghost use Rattle.coercion_norm.specs.Coercions.{kind_of, runs_back, slots_of};

use grift_base::places::TypeId;
use type_graph::rows::Row;

/// The constructor of a middle: of a coercion between two functions, tuples, references or vectors.
#[derive(Clone, Copy, PartialEq, Eq)]
pub enum MiddleKind {
    /// Its parts are those of the arguments, then that of the result.
    Fun,
    /// Its parts are those of the parts.
    Tup,
    /// Its parts are that of what is read, then that of what is written.
    Ref,
    /// Its parts are that of what is read, then that of what is written.
    Vec,
}

impl MiddleKind {
    /// Whether a part runs backwards, by whether it is the last one: arguments and what is written do.
    pub fn runs_back(self, last: bool) -> bool
        ensures { result ≡ runs_back self last }
    {
        match self {
            MiddleKind::Fun => !last,
            MiddleKind::Tup => false,
            MiddleKind::Ref | MiddleKind::Vec => last,
        }
    }
}

/// Whether the type is Dyn.
pub fn is_dyn(row: &Row) -> bool
    ensures { result ≡ is_dyn (row_of row.now) }
{
    matches!(row, Row::Dyn)
}

/// Whether two types have the same constructor, with as many parameters or parts.
pub fn same_head(row: &Row, other: &Row) -> bool
    ensures { result ≡ same_head (row_of row.now) (row_of other.now) }
{
    match (row, other) {
        (Row::Int, Row::Int) | (Row::Bool, Row::Bool) => true,
        (Row::Unit, Row::Unit) | (Row::Dyn, Row::Dyn) => true,
        (Row::Fun(parameters, _), Row::Fun(others, _)) => parameters.len() == others.len(),
        (Row::Tuple(parts), Row::Tuple(others)) => parts.len() == others.len(),
        (Row::Ref(_), Row::Ref(_)) | (Row::Vect(_), Row::Vect(_)) => true,
        _ => false,
    }
}

/// The constructor of the middles between types of this head, if there are any.
pub fn kind_of(row: &Row) -> Option<MiddleKind>
    ensures { result ≡ kind_of (row_of row.now) }
{
    match row {
        Row::Fun(..) => Some(MiddleKind::Fun),
        Row::Tuple(_) => Some(MiddleKind::Tup),
        Row::Ref(_) => Some(MiddleKind::Ref),
        Row::Vect(_) => Some(MiddleKind::Vec),
        Row::Int | Row::Bool | Row::Unit | Row::Dyn => None,
    }
}

/// How many parts the middles between types of this head have.
pub fn slots(row: &Row) -> u64
    requires { length (slots_of (row_of row.now)) ≤ 8 }
    ensures { result ≡ length (slots_of (row_of row.now)) }
{
    match row {
        Row::Fun(parameters, _) => parameters.len() + 1,
        Row::Tuple(parts) => parts.len(),
        Row::Ref(_) | Row::Vect(_) => 2,
        Row::Int | Row::Bool | Row::Unit | Row::Dyn => 0,
    }
}

/// The type that part `j` of such a middle speaks of.
pub fn slot(row: &Row, j: u64) -> TypeId
    requires { j < length (slots_of (row_of row.now)) }
    ensures { result.0 ≡ slice_index (slots_of (row_of row.now)) j }
{
    match row {
        Row::Fun(parameters, answer) => parameters.get(j).copied().unwrap_or(*answer),
        Row::Tuple(parts) => parts.as_slice()[j as usize],
        Row::Ref(content) | Row::Vect(content) => *content,
        Row::Int | Row::Bool | Row::Unit | Row::Dyn => TypeId(0),
    }
}
