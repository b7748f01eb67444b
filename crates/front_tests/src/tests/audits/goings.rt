// Which casts go up, over tables of types that are made by hand.

use blame_audit::ups::up;
use grift_base::places::TypeId;
use std::alloc::Global;
use std::process::Abort;
use type_graph::rows::{Row, TypeIds};
use type_graph::tables::TypeTable;

// Puts a row into a table that it fits.
fn put(rt: &impl Abort, types: &mut TypeTable, row: Row) -> TypeId {
    assert!(rt; types.fits(&row));
    types.intern(row).expect(rt, "memory")
}

fn ids(rt: &impl Abort, alloc: Global, types: &[TypeId]) -> TypeIds {
    TypeIds::from_slice(alloc, types).expect(rt, "memory")
}

fn function(
    rt: &impl Abort,
    alloc: Global,
    types: &mut TypeTable,
    parameters: &[TypeId],
    answer: TypeId,
) -> TypeId {
    let row = Row::Fun(ids(rt, alloc, parameters), answer);
    put(rt, types, row)
}

fn tuple(rt: &impl Abort, alloc: Global, types: &mut TypeTable, parts: &[TypeId]) -> TypeId {
    let row = Row::Tuple(ids(rt, alloc, parts));
    put(rt, types, row)
}

// Whether casts between types that are there go up as it is told.
fn go_up(rt: &impl Abort, alloc: Global, types: &TypeTable, casts: &[(TypeId, TypeId, bool)]) {
    for (a, b, answer) in casts {
        assert!(rt; a.0 < types.len() && b.0 < types.len());
        let goes_up = up(alloc, types, *a, *b).expect(rt, "memory");
        assert!(rt; goes_up == *answer);
    }
}

// The types that the tests name by their places.
fn sample(rt: &impl Abort, alloc: Global) -> TypeTable {
    let mut types = TypeTable::new(alloc).expect(rt, "memory");
    put(rt, &mut types, Row::Int);
    put(rt, &mut types, Row::Bool);
    put(rt, &mut types, Row::Dyn);
    put(rt, &mut types, Row::Ref(INT));
    put(rt, &mut types, Row::Ref(DYN));
    put(rt, &mut types, Row::Vect(INT));
    function(rt, alloc, &mut types, &[DYN], INT);
    function(rt, alloc, &mut types, &[INT], DYN);
    function(rt, alloc, &mut types, &[], INT);
    put_tuples(rt, alloc, &mut types);
    put(rt, &mut types, Row::Unit);
    put(rt, &mut types, Row::Vect(DYN));
    types
}

fn put_tuples(rt: &impl Abort, alloc: Global, types: &mut TypeTable) {
    tuple(rt, alloc, types, &[INT, DYN]);
    tuple(rt, alloc, types, &[DYN, DYN]);
    tuple(rt, alloc, types, &[INT]);
}

const INT: TypeId = TypeId(0);

const BOOL: TypeId = TypeId(1);

const DYN: TypeId = TypeId(2);

const INT_BOX: TypeId = TypeId(3);

const DYN_BOX: TypeId = TypeId(4);

const INT_VECTOR: TypeId = TypeId(5);

const TO_INT: TypeId = TypeId(6);

const FROM_INT: TypeId = TypeId(7);

const THUNK: TypeId = TypeId(8);

const PAIR: TypeId = TypeId(9);

const LOOSE_PAIR: TypeId = TypeId(10);

const SINGLE: TypeId = TypeId(11);

const UNIT: TypeId = TypeId(12);

const DYN_VECTOR: TypeId = TypeId(13);

const CASTS: &[(TypeId, TypeId, bool)] = &[
    (INT, INT, true),
    (UNIT, UNIT, true),
    (INT, BOOL, false),
    (INT, DYN, true),
    (DYN, DYN, true),
    (DYN, INT, false),
    (DYN, INT_BOX, false),
    (INT_BOX, DYN, true),
    // from `(Dyn -> Int)` to `(Int -> Dyn)`, and back
    (TO_INT, FROM_INT, true),
    (FROM_INT, TO_INT, false),
    (TO_INT, THUNK, false),
    (PAIR, LOOSE_PAIR, true),
    (LOOSE_PAIR, PAIR, false),
    (PAIR, SINGLE, false),
];

#[test]
fn casts_go_up_or_not(rt: HostRuntime) {
    let types = sample(&rt, rt.alloc());
    go_up(&rt, rt.alloc(), &types, CASTS);
}

// What is read is also written, so what a box or a vector holds has to go up both ways.
const CELLS: &[(TypeId, TypeId, bool)] = &[
    (INT_BOX, INT_BOX, true),
    (INT_BOX, DYN_BOX, false),
    (DYN_BOX, INT_BOX, false),
    (INT_BOX, INT_VECTOR, false),
    (INT_VECTOR, INT_VECTOR, true),
    (INT_VECTOR, DYN_VECTOR, false),
    (DYN_VECTOR, INT_VECTOR, false),
];

#[test]
fn boxes_and_vectors_go_up_both_ways(rt: HostRuntime) {
    let types = sample(&rt, rt.alloc());
    go_up(&rt, rt.alloc(), &types, CELLS);
}

// The pair of this type with itself, the pair of that with itself, and so on forty times.
fn pairs_of_pairs(rt: &impl Abort, alloc: Global, types: &mut TypeTable, part: TypeId) -> TypeId {
    let mut pair = part;
    for _ in 0..40 {
        pair = tuple(rt, alloc, types, &[pair, pair]);
    }
    pair
}

// Two types of forty shared rows each, which are trees of 2 to the 41 leaves.
#[test]
fn types_of_shared_rows_take_no_time(rt: HostRuntime) {
    let mut types = sample(&rt, rt.alloc());
    let first = pairs_of_pairs(&rt, rt.alloc(), &mut types, TO_INT);
    let second = pairs_of_pairs(&rt, rt.alloc(), &mut types, FROM_INT);
    let casts = [(first, second, true), (second, first, false)];
    go_up(&rt, rt.alloc(), &types, casts.as_slice());
}
