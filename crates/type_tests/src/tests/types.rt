// Types as rows of a table, with their texts, heights and sizes.

use crate::tests::samples::{Sample, put, row_of, table_of};
use std::alloc::Global;
use std::process::Abort;
use type_graph::tables::TypeTable;
use type_graph::texts::show_type;

// A row, and what its type is told to be.
struct Told {
    sample: Sample,
    text: &'static str,
    height: u32,
    size: u64,
}

// In order of their places; the size of a type of more than 1,000 nodes is told as 1,001.
const TYPES: &[Told] = &[
    Told {
        sample: Sample::Int,
        text: "Int",
        height: 0,
        size: 1,
    },
    Told {
        sample: Sample::Bool,
        text: "Bool",
        height: 0,
        size: 1,
    },
    Told {
        sample: Sample::Unit,
        text: "Unit",
        height: 0,
        size: 1,
    },
    Told {
        sample: Sample::Dyn,
        text: "Dyn",
        height: 0,
        size: 1,
    },
    Told {
        sample: Sample::Function(&[], 0),
        text: "(-> Int)",
        height: 1,
        size: 2,
    },
    Told {
        sample: Sample::Function(&[3, 4], 1),
        text: "(Dyn (-> Int) -> Bool)",
        height: 2,
        size: 5,
    },
    Told {
        sample: Sample::Tuple(&[5, 2]),
        text: "(Tuple (Dyn (-> Int) -> Bool) Unit)",
        height: 3,
        size: 7,
    },
    Told {
        sample: Sample::Box(6),
        text: "(Ref (Tuple (Dyn (-> Int) -> Bool) Unit))",
        height: 4,
        size: 8,
    },
    Told {
        sample: Sample::Vector(7),
        text: "(Vect (Ref (Tuple (Dyn (-> Int) -> Bool) Unit)))",
        height: 5,
        size: 9,
    },
];

// Tuples of eight parts in one another, from the place of Int on, with their heights and sizes.
const TUPLES: &[(Sample, u32, u64)] = &[
    (Sample::Tuple(&[0; 8]), 1, 9),
    (Sample::Tuple(&[9; 8]), 2, 73),
    (Sample::Tuple(&[10; 8]), 3, 585),
    (Sample::Tuple(&[11; 8]), 4, 1001),
    (Sample::Tuple(&[12; 8]), 5, 1001),
];

// Puts a row, and tells its place, height and size.
fn measured(
    rt: &impl Abort,
    alloc: Global,
    types: &mut TypeTable,
    sample: Sample,
) -> (u32, u32, u64) {
    let t = put(rt, types, row_of(rt, alloc, sample));
    assert!(rt; t.0 < types.len());
    (t.0, types.height(t), types.size(t))
}

// Whether a type is as it is told, at a place where it stands.
fn is_told(rt: &impl Abort, alloc: Global, types: &TypeTable, told: &Told) -> bool {
    let row = row_of(rt, alloc, told.sample);
    let Some(t) = types.place_of(&row) else {
        return false;
    };
    if t.0 >= types.len() || *types.row(t) != row || !types.same(t, t) {
        return false;
    }
    show_type(alloc, types, t).expect(rt, "memory").as_slice() == told.text.as_bytes()
}

// Each row stands in the order of the table, and is as it is told.
fn are_told(rt: &impl Abort, alloc: Global, types: &mut TypeTable) {
    for (place, told) in TYPES.iter().enumerate() {
        let (t, height, size) = measured(rt, alloc, types, told.sample);
        let is = (t as usize, height, size) == (place, told.height, told.size);
        assert!(rt; is && is_told(rt, alloc, types, told), "{}", told.text);
    }
}

// Each tuple has its height and its size.
fn tuples_are_told(rt: &impl Abort, alloc: Global, types: &mut TypeTable) {
    for (sample, height, size) in TUPLES {
        let (_place, high, nodes) = measured(rt, alloc, types, *sample);
        assert!(rt; (high, nodes) == (*height, *size), "{height}");
    }
}

// A row that is put again keeps its place.
#[test]
fn types_stand_once_and_are_written(rt: HostRuntime) {
    let mut types = TypeTable::new(rt.alloc()).expect(&rt, "memory");
    for _ in 0..2 {
        are_told(&rt, rt.alloc(), &mut types);
    }
    tuples_are_told(&rt, rt.alloc(), &mut types);
}

// Functions and tuples of so many parts, and whether they fit.
const WIDTHS: &[(Sample, bool)] = &[
    (Sample::Function(&[], 0), true),
    (Sample::Function(&[0; 6], 0), true),
    (Sample::Function(&[0; 7], 0), false),
    (Sample::Tuple(&[]), false),
    (Sample::Tuple(&[0]), true),
    (Sample::Tuple(&[0; 8]), true),
    (Sample::Tuple(&[0; 9]), false),
    (Sample::Box(0), true),
    (Sample::Vector(1), false),
];

#[test]
fn rows_that_do_not_fit_are_told(rt: HostRuntime) {
    let types = table_of(&rt, rt.alloc(), &[Sample::Int]);
    for (sample, fits) in WIDTHS {
        assert!(rt; types.fits(&row_of(&rt, rt.alloc(), *sample)) == *fits);
    }
}
