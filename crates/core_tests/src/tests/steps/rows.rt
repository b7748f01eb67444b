// Tables of rows, each of which says something that must hold. One loop with one message serves all of them, since each
// test is proved.

use std::alloc::Global;
use std::process::Abort;

// What a row says.
pub(crate) trait Row {
    fn holds(&self, rt: &impl Abort, alloc: Global) -> bool;
}

// Each row of a table holds. A test that fails tells the place of the first row that does not.
pub(crate) fn each_holds<R: Row>(rt: &impl Abort, alloc: Global, rows: &[R]) {
    for (place, row) in rows.iter().enumerate() {
        assert!(rt; row.holds(rt, alloc), "row {place}");
    }
}
