// Types and terms that several tests make.

use core_calc::terms::{Core, CoreBinding, CoreBindings, CoreList, VarId, VarIds};
use grift_base::lists::OutOfMemory;
use grift_base::places::{LabelId, TypeId};
use std::alloc::Global;
use std::process::Abort;
use type_graph::rows::{Row, TypeIds};
use type_graph::tables::TypeTable;

pub(crate) const INT: TypeId = TypeId(0);

pub(crate) const BOOL: TypeId = TypeId(1);

pub(crate) const DYN: TypeId = TypeId(2);

pub(crate) const INT_TO_INT: TypeId = TypeId(3);

pub(crate) const DYN_TO_DYN: TypeId = TypeId(4);

pub(crate) const PAIR: TypeId = TypeId(5);

fn ids(rt: &impl Abort, alloc: Global, ids: &[TypeId]) -> TypeIds {
    TypeIds::from_slice(alloc, ids).expect(rt, "memory")
}

// The type at this place.
fn sample_type(rt: &impl Abort, alloc: Global, place: TypeId) -> Row {
    match place {
        INT => Row::Int,
        BOOL => Row::Bool,
        DYN => Row::Dyn,
        INT_TO_INT => Row::Fun(ids(rt, alloc, &[INT]), INT),
        DYN_TO_DYN => Row::Fun(ids(rt, alloc, &[DYN]), DYN),
        _ => Row::Tuple(ids(rt, alloc, &[INT, BOOL])),
    }
}

// The types that the tests name by their places.
pub(crate) fn sample_types(rt: &impl Abort, alloc: Global) -> TypeTable {
    let mut types = TypeTable::new(alloc).expect(rt, "memory");
    for place in 0..=PAIR.0 {
        let row = sample_type(rt, alloc, TypeId(place));
        assert!(rt; types.fits(&row));
        types.intern(row).expect(rt, "memory");
    }
    types
}

// A term in a box, if there is memory for it.
fn put_in_box(alloc: Global, term: Core) -> Result<Box<Core>, OutOfMemory> {
    Ok(Box::new(alloc, term)?)
}

pub(crate) fn boxed(rt: &impl Abort, alloc: Global, term: Core) -> Box<Core> {
    put_in_box(alloc, term).expect(rt, "memory")
}

pub(crate) fn one(rt: &impl Abort, alloc: Global, term: Core) -> CoreList {
    let mut terms = CoreList::new();
    terms.push_front(alloc, term).expect(rt, "memory");
    terms
}

pub(crate) fn two(rt: &impl Abort, alloc: Global, first: Core, second: Core) -> CoreList {
    let mut terms = one(rt, alloc, second);
    terms.push_front(alloc, first).expect(rt, "memory");
    terms
}

pub(crate) fn cast(
    rt: &impl Abort,
    alloc: Global,
    term: Core,
    from: TypeId,
    to: TypeId,
    label: u32,
) -> Core {
    Core::Cast(boxed(rt, alloc, term), from, to, LabelId(label))
}

// The identity of this type.
pub(crate) fn identity(rt: &impl Abort, alloc: Global, name: VarId, ty: TypeId) -> Core {
    let params = VarIds::from_slice(alloc, &[name]).expect(rt, "memory");
    Core::Lambda(params, boxed(rt, alloc, Core::Var(name)), ty)
}

// `name` bound to a value in a body.
pub(crate) fn let_one(
    rt: &impl Abort,
    alloc: Global,
    name: VarId,
    value: Core,
    body: Core,
) -> Core {
    let mut bindings = CoreBindings::new();
    bindings
        .push_front(alloc, CoreBinding { name, value })
        .expect(rt, "memory");
    Core::Let(bindings, boxed(rt, alloc, body))
}
