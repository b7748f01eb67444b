// Tables of types.

use grift_base::places::TypeId;
use std::alloc::Global;
use std::process::Abort;
use type_graph::rows::{Row, TypeIds};
use type_graph::tables::TypeTable;

// A row of types that stand before it, by their places.
#[derive(Clone, Copy)]
pub(crate) enum Sample {
    Int,
    Bool,
    Unit,
    Dyn,
    Box(u32),
    Vector(u32),
    Function(&'static [u32], u32),
    Tuple(&'static [u32]),
}

// The types with these places.
fn ids(rt: &impl Abort, alloc: Global, places: &[u32]) -> TypeIds {
    let mut ids = TypeIds::new(alloc);
    for place in places {
        ids.push(TypeId(*place)).expect(rt, "memory");
    }
    ids
}

// The row that a sample tells.
pub(crate) fn row_of(rt: &impl Abort, alloc: Global, sample: Sample) -> Row {
    match sample {
        Sample::Int => Row::Int,
        Sample::Bool => Row::Bool,
        Sample::Unit => Row::Unit,
        Sample::Dyn => Row::Dyn,
        Sample::Box(content) => Row::Ref(TypeId(content)),
        Sample::Vector(content) => Row::Vect(TypeId(content)),
        Sample::Function(parameters, to) => Row::Fun(ids(rt, alloc, parameters), TypeId(to)),
        Sample::Tuple(parts) => Row::Tuple(ids(rt, alloc, parts)),
    }
}

// Puts a row into a table that it fits.
pub(crate) fn put(rt: &impl Abort, types: &mut TypeTable, row: Row) -> TypeId {
    assert!(rt; types.fits(&row));
    types.intern(row).expect(rt, "memory")
}

// A table of these rows.
pub(crate) fn table_of(rt: &impl Abort, alloc: Global, samples: &[Sample]) -> TypeTable {
    let mut types = TypeTable::new(alloc).expect(rt, "memory");
    for sample in samples {
        put(rt, &mut types, row_of(rt, alloc, *sample));
    }
    types
}
