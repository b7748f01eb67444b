// What rows of calls have in common, and whether all of a table come to what they tell.

use crate::tests::calling::{Content, Row, bytes_of, comes_to};
use Content::Text;
use std::alloc::Global;
use std::process::Abort;

// A run of the file `a`, and an answer.
pub(crate) const RUN: Row = Row {
    words: "run a",
    file: Text(""),
    input: "",
    shelf_fails: &[],
    out_fails: &[],
    err_fails: &[],
    img_fails: &[],
    status: 0,
    asked: 1,
    img: true,
    out: Text(""),
    err: "",
};

pub(crate) const BLAMED: Row = Row { status: 3, ..RUN };

pub(crate) const TRAPPED: Row = Row { status: 4, ..RUN };

// No image is put.
const NO_IMAGE: Row = Row { img: false, ..RUN };

pub(crate) const REFUSED: Row = Row {
    status: 1,
    ..NO_IMAGE
};

pub(crate) const CHECK: Row = Row {
    words: "check a",
    ..NO_IMAGE
};

pub(crate) const MODEL: Row = Row {
    words: "model a --steps 1000",
    ..NO_IMAGE
};

pub(crate) const EXEC: Row = Row {
    words: "exec a",
    ..NO_IMAGE
};

pub(crate) const ON_INPUT: Row = Row {
    words: "run a --input b",
    asked: 2,
    ..RUN
};

// Words that are no command.
pub(crate) const UNREAD: Row = Row {
    file: Text("42"),
    status: 2,
    asked: 0,
    img: false,
    err: "words refused\n",
    ..RUN
};

// Two casts of one function; the first argument is blamed for the first of them.
pub(crate) const TWICE_CAST: &str = "(let ([f (lambda ([a : Int] [b : Int]) : Int a)])\n\
    (let ([g (: f (Dyn Int -> Int))])\n(let ([h (: g (Dyn Dyn -> Int))])\n(h #t #f))))";

// What tells a row from others.
fn name_of(row: &'static Row) -> &'static str {
    match row.file {
        Text(text) if !text.is_empty() => text,
        _ => row.words,
    }
}

// Each of these rows comes to what it tells. A table has some ten rows, since the check of a function that names one
// costs the number of its texts times their length.
pub(crate) fn all_right(rt: &impl Abort, alloc: Global, rows: &'static [Row]) {
    for row in rows {
        let file = bytes_of(rt, alloc, row.file);
        let is_right = comes_to(rt, alloc, row, file.as_slice());
        assert!(rt; is_right, "{}", name_of(row));
    }
}
