// Types that are consistent, and their blends.

use crate::tests::samples::{Sample, put, table_of};
use consistency::blends::blend;
use consistency::checks::{consistent, same_head};
use grift_base::places::TypeId;
use std::alloc::Global;
use std::process::Abort;
use type_graph::rows::{Row, TypeIds};
use type_graph::tables::TypeTable;

const TYPES: &[Sample] = &[
    Sample::Int,
    Sample::Bool,
    Sample::Dyn,
    Sample::Box(0),
    Sample::Box(2),
    Sample::Vector(0),
    Sample::Function(&[0], 2),
    Sample::Function(&[2], 1),
    Sample::Function(&[], 0),
    Sample::Tuple(&[0, 3]),
    Sample::Tuple(&[0, 4]),
    Sample::Tuple(&[0]),
];

const INT: u32 = 0;

const BOOL: u32 = 1;

const DYN: u32 = 2;

const INT_BOX: u32 = 3;

const DYN_BOX: u32 = 4;

const INT_VECTOR: u32 = 5;

const FROM_INT: u32 = 6;

const TO_BOOL: u32 = 7;

const THUNK: u32 = 8;

const PAIR: u32 = 9;

const LOOSE_PAIR: u32 = 10;

const SINGLE: u32 = 11;

// `(Dyn -> Dyn)`, which only the blend puts there.
const LOOSE_FUNCTION: u32 = 12;

// Two types; whether they have one head, and their blend, where they are consistent.
const PAIRS: &[(u32, u32, bool, Option<u32>)] = &[
    (INT, INT, true, Some(INT)),
    (INT, BOOL, false, None),
    (INT, DYN, false, Some(DYN)),
    (DYN, THUNK, false, Some(DYN)),
    (INT_BOX, DYN_BOX, true, Some(DYN_BOX)),
    (INT_BOX, INT_VECTOR, false, None),
    (FROM_INT, TO_BOOL, true, Some(LOOSE_FUNCTION)),
    (FROM_INT, THUNK, false, None),
    (PAIR, LOOSE_PAIR, true, Some(LOOSE_PAIR)),
    (PAIR, SINGLE, false, None),
];

// Whether two types have one head, and their blend.
fn related(
    rt: &impl Abort,
    alloc: Global,
    types: &mut TypeTable,
    a: TypeId,
    b: TypeId,
) -> (bool, Option<u32>) {
    assert!(rt; a.0 < types.len() && b.0 < types.len());
    let head = same_head(types, a, b);
    if !consistent(alloc, types, a, b).expect(rt, "memory") {
        return (head, None);
    }
    let both = blend(alloc, types, a, b).expect(rt, "memory");
    (head, Some(both.0))
}

// What two types are, in one order and in the other.
fn both_ways(
    rt: &impl Abort,
    alloc: Global,
    types: &mut TypeTable,
    a: u32,
    b: u32,
) -> [(bool, Option<u32>); 2] {
    let there = related(rt, alloc, types, TypeId(a), TypeId(b));
    [there, related(rt, alloc, types, TypeId(b), TypeId(a))]
}

#[test]
fn types_are_compared_and_blended(rt: HostRuntime) {
    let mut types = table_of(&rt, rt.alloc(), TYPES);
    for (a, b, head, both) in PAIRS {
        assert!(rt;
            both_ways(&rt, rt.alloc(), &mut types, *a, *b) == [(*head, *both); 2],
            "{a} and {b}"
        );
    }
}

// The pair of this type with itself, the pair of that with itself, and so on forty times.
fn pairs_of_pairs(rt: &impl Abort, alloc: Global, types: &mut TypeTable, part: u32) -> TypeId {
    let mut pair = TypeId(part);
    for _ in 0..40 {
        let parts = TypeIds::from_slice(alloc, &[pair, pair]).expect(rt, "memory");
        pair = put(rt, types, Row::Tuple(parts));
    }
    pair
}

// Two types of forty shared rows each, which are trees of 2 to the 41 leaves, have a blend of forty rows more.
#[test]
fn types_of_shared_rows_take_no_time(rt: HostRuntime) {
    let mut types = table_of(&rt, rt.alloc(), TYPES);
    let first = pairs_of_pairs(&rt, rt.alloc(), &mut types, FROM_INT);
    let second = pairs_of_pairs(&rt, rt.alloc(), &mut types, TO_BOOL);
    let both = related(&rt, rt.alloc(), &mut types, first, second);
    assert!(rt; (both, types.len()) == ((true, Some(132)), 133));
}
