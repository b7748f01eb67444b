// The image that a run puts, which `exec` runs on other inputs; and a source that is cut short.

use crate::tests::calling::{Content, Row, bytes_of, call, comes_to};
use crate::tests::calls::{EXEC, ON_INPUT, RUN, TWICE_CAST};
use Content::Text;
use std::alloc::Global;
use std::process::Abort;

// Runs of one source on two inputs.
const RUNS: [&Row; 2] = [
    &Row {
        file: Text("(begin (print-int (read-int)) (read-int))"),
        input: "5",
        ..ON_INPUT
    },
    &Row {
        file: Text("(begin (print-int (read-int)) (read-int))"),
        input: "6 7",
        ..ON_INPUT
    },
];

const EXEC_ON_INPUT: Row = Row {
    words: "exec a --input b",
    asked: 2,
    ..EXEC
};

// What the image of that source comes to on other inputs, and on none.
const ANSWERS: &[Row] = &[
    Row {
        input: "8 9",
        out: Text("8"),
        err: "answer 9\n",
        ..EXEC_ON_INPUT
    },
    Row {
        input: "8",
        status: 4,
        out: Text("8"),
        err: "trap input\n",
        ..EXEC_ON_INPUT
    },
    Row {
        input: "8 9",
        words: "exec a",
        status: 4,
        asked: 1,
        err: "trap input\n",
        ..EXEC
    },
];

// What a run puts as its image.
fn image_put(rt: &impl Abort, alloc: Global, row: &Row) -> Vec<u8> {
    let file = bytes_of(rt, alloc, row.file);
    let left = call(rt, alloc, row, file.as_slice());
    Vec::from_slice(alloc, left.img.bytes()).expect(rt, "memory")
}

// The image of each run, where they are equal.
fn one_image_put(rt: &impl Abort, alloc: Global) -> Option<Vec<u8>> {
    let [first, second] = RUNS;
    let image = image_put(rt, alloc, first);
    if image == image_put(rt, alloc, second) {
        Some(image)
    } else {
        None
    }
}

// One image serves each input: that of a run on one input is that of a run on another, and `exec` runs it on any.
#[test]
fn one_image(rt: HostRuntime) {
    let image = one_image_put(&rt, rt.alloc()).expect(&rt, "two images");
    for row in ANSWERS {
        assert!(rt;
            comes_to(&rt, rt.alloc(), row, image.as_slice()),
            "{}",
            row.err
        );
    }
}

// Whether a source is refused, and nothing is put but the line that says so.
fn is_refused(rt: &impl Abort, alloc: Global, file: &[u8]) -> bool {
    let left = call(rt, alloc, &RUN, file);
    left.status == 1 && left.out.bytes().is_empty() && left.img.bytes().is_empty()
}

#[test]
fn a_source_that_is_cut_short_is_refused(rt: HostRuntime) {
    let source = TWICE_CAST.as_bytes();
    for length in 0..source.len() {
        assert!(rt; is_refused(&rt, rt.alloc(), &source[..length]), "{length}");
    }
}
