// Tables of labels.

use grift_base::lists::OutOfMemory;
use grift_base::places::{LabelId, LabelTable, Pos};
use std::alloc::Global;

const FIRST: Pos = Pos { line: 3, col: 14 };

const SECOND: Pos = Pos { line: 3, col: 1 };

// Whether labels get their places in order, and keep them.
fn labels_have_places(labels: &mut LabelTable) -> Result<bool, OutOfMemory> {
    let mut all = labels.is_empty();
    for (pos, place) in [(FIRST, 0), (SECOND, 1), (FIRST, 0)] {
        let label = labels.intern(pos)?;
        all = all && label == LabelId(place);
    }
    Ok(all)
}

// Whether both labels stand once, in order of their first use.
fn stand_in_order(labels: &LabelTable) -> bool {
    let there = (labels.len(), labels.get(1), labels.get(2)) == (2, Some(&SECOND), None);
    there && labels.as_slice() == [FIRST, SECOND].as_slice()
}

// Whether labels get places in this order in a new table.
fn labels_stand_once(alloc: Global) -> Result<bool, OutOfMemory> {
    let mut labels = LabelTable::new(alloc);
    let have_places = labels_have_places(&mut labels)?;
    Ok(have_places && stand_in_order(&labels))
}

#[test]
fn labels_stand_once_in_order_of_first_use(rt: HostRuntime) {
    assert!(rt; matches!(labels_stand_once(rt.alloc()), Ok(true)));
}

// Whether each of 1,000 labels gets the next place.
fn many_have_places(labels: &mut LabelTable) -> Result<bool, OutOfMemory> {
    let mut all = true;
    for line in 0..1000 {
        let label = labels.intern(Pos { line, col: 7 })?;
        all = all && label == LabelId(line);
    }
    Ok(all)
}

// The same twice, so that each label keeps its place, and how many labels there are.
fn many_keep_places(alloc: Global) -> Result<(bool, u64), OutOfMemory> {
    let mut labels = LabelTable::new(alloc);
    let mut all = true;
    for _round in 0..2 {
        all = many_have_places(&mut labels)? && all;
    }
    Ok((all, labels.len()))
}

#[test]
fn many_labels_have_places(rt: HostRuntime) {
    assert!(rt; matches!(many_keep_places(rt.alloc()), Ok((true, 1000))));
}
