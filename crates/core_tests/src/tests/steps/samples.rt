// Types that several tests name, and runs of terms.

use calc_stepper::runs::{run, start};
use core_calc::ends::Stepped;
use core_calc::terms::{Core, VarId};
use grift_base::lists::Bytes;
use grift_base::places::{LabelId, TypeId};
use std::alloc::Global;
use std::process::Abort;
use type_graph::rows::{Row, TypeIds};
use type_graph::tables::TypeTable;

pub(crate) const INT: TypeId = TypeId(0);

pub(crate) const BOOL: TypeId = TypeId(1);

pub(crate) const DYN: TypeId = TypeId(2);

pub(crate) const INT_TO_INT: TypeId = TypeId(3);

pub(crate) const DYN_TO_INT: TypeId = TypeId(4);

pub(crate) const REF_INT: TypeId = TypeId(5);

pub(crate) const REF_DYN: TypeId = TypeId(6);

pub(crate) const VECT_INT: TypeId = TypeId(7);

pub(crate) const VECT_DYN: TypeId = TypeId(8);

pub(crate) const PAIR: TypeId = TypeId(9);

pub(crate) const PAIR_OF_DYN: TypeId = TypeId(10);

pub(crate) const P: LabelId = LabelId(0);

pub(crate) const Q: LabelId = LabelId(1);

pub(crate) const X: VarId = VarId(0);

pub(crate) const F: VarId = VarId(1);

// Puts a row into a table that it fits.
fn put(rt: &impl Abort, types: &mut TypeTable, row: Row) {
    assert!(rt; types.fits(&row));
    types.intern(row).expect(rt, "memory");
}

// Puts the type of functions from this type to Int.
fn put_function(rt: &impl Abort, alloc: Global, types: &mut TypeTable, from: TypeId) {
    let parameters = TypeIds::from_slice(alloc, &[from]).expect(rt, "memory");
    put(rt, types, Row::Fun(parameters, INT));
}

// Puts the type of pairs of these types.
fn put_pair(rt: &impl Abort, alloc: Global, types: &mut TypeTable, first: TypeId, second: TypeId) {
    let parts = TypeIds::from_slice(alloc, &[first, second]).expect(rt, "memory");
    put(rt, types, Row::Tuple(parts));
}

// Puts the types that the tests name by their places.
fn put_types(rt: &impl Abort, alloc: Global, types: &mut TypeTable) {
    put(rt, types, Row::Int);
    put(rt, types, Row::Bool);
    put(rt, types, Row::Dyn);
    put_function(rt, alloc, types, INT);
    put_function(rt, alloc, types, DYN);
    put(rt, types, Row::Ref(INT));
    put(rt, types, Row::Ref(DYN));
    put(rt, types, Row::Vect(INT));
    put(rt, types, Row::Vect(DYN));
    put_pair(rt, alloc, types, INT, BOOL);
    put_pair(rt, alloc, types, DYN, DYN);
}

// What a run of a term has come to after so many steps, and what it has printed.
fn ran_over(
    rt: &impl Abort,
    alloc: Global,
    types: &TypeTable,
    core: &Core,
    input: Bytes,
    steps: u64,
) -> (Stepped, Bytes) {
    let mut state = start(alloc, core, input).expect(rt, "memory");
    let stepped = run(alloc, &mut state, types, steps).expect(rt, "memory");
    let output = Bytes::from_slice(alloc, state.world.output.as_slice());
    (stepped, output.expect(rt, "memory"))
}

// The same over the types of the tests.
pub(crate) fn ran(
    rt: &impl Abort,
    alloc: Global,
    core: &Core,
    input: &[u8],
    steps: u64,
) -> (Stepped, Bytes) {
    let mut types = TypeTable::new(alloc).expect(rt, "memory");
    put_types(rt, alloc, &mut types);
    let input = Bytes::from_slice(alloc, input).expect(rt, "memory");
    ran_over(rt, alloc, &types, core, input, steps)
}

// Whether a run of a term comes to this in so many steps.
pub(crate) fn comes_to(
    rt: &impl Abort,
    alloc: Global,
    core: &Core,
    steps: u64,
    wanted: Stepped,
) -> bool {
    let (stepped, _output) = ran(rt, alloc, core, b"", steps);
    stepped == wanted
}

// Whether it prints this in so many steps, with this input.
pub(crate) fn prints(
    rt: &impl Abort,
    alloc: Global,
    core: &Core,
    input: &[u8],
    steps: u64,
    wanted: &[u8],
) -> bool {
    let (_stepped, output) = ran(rt, alloc, core, input, steps);
    output.as_slice() == wanted
}
