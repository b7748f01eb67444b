// Devices that fail, and words.

use crate::tests::calling::{Content, Row, comes_to};
use crate::tests::calls::{CHECK, EXEC, MODEL, ON_INPUT, REFUSED, RUN, UNREAD};
use crate::tests::files::POINTS;
use Content::{Copies, Image, Text};
use std::alloc::Global;
use std::process::Abort;

// A run that prints, for devices that fail.
const DEVICES: Row = Row {
    file: Text("(begin (print-int (+ 40 2)) (newline) 7)"),
    ..RUN
};

// A run that prints 5,000 bytes.
const SEVENS: Row = Row {
    file: Text("(repeat (i 0 5000) (print-int 7))"),
    ..RUN
};

// Words that are no command, whatever the file holds.
const NO_COMMANDS: &[&str] = &[
    "run",
    "",
    "run a a",
    "run ",
    "run a --steps 5 --region 8",
    "run a --region 12",
    "run a --stack 12",
    "run a --region 8 --region 8",
    "run a --region 1073741832",
    "run a --stack 268435464",
    "run a --steps 9999999999999999999",
    "run a --steps 9223372036854775808",
    "run a --steps 00000000000000000005",
    "run a --steps +5",
    "run a --steps ",
    "run a --steps",
    "run --region 8",
    "run a --image",
    "run a --image ",
    "run a --image b --steps 7",
    "run a --input",
    "run a --input ",
    "run a --input --image c",
    "run a --image c --input b",
    "run a --input b --steps 7",
    "exec ",
    "exec a --image b",
    "exec a --input b --image c",
    "exec a --steps 9223372036854775808",
    "check",
    "check ",
    "check a --steps 5",
    "audit",
    "audit ",
    "audit a a",
    "audit a --steps 5",
    "model a",
    "model a --steps",
    "model a --steps 10000001",
    "model a --steps 5 --image b",
    "model a --input b --steps 5",
    "model a --steps 5 --input",
    "model  --steps 5",
    "b",
];

// Devices that fail at one call; each put is one call, and what is empty is not put.
pub(crate) const FAILING: &[Row] = &[
    Row {
        shelf_fails: &[0],
        status: 8,
        img: false,
        err: "load failed\n",
        ..DEVICES
    },
    Row {
        img_fails: &[0],
        status: 9,
        img: false,
        err: "put failed\n",
        ..DEVICES
    },
    Row {
        out_fails: &[0],
        status: 9,
        err: "put failed\n",
        ..DEVICES
    },
    Row {
        err_fails: &[0],
        status: 9,
        out: Text("42\n"),
        ..DEVICES
    },
    Row {
        shelf_fails: &[1],
        out_fails: &[1],
        err_fails: &[1],
        img_fails: &[1],
        out: Text("42\n"),
        err: "answer 7\n",
        ..DEVICES
    },
    Row {
        file: Text("(print-int 7)"),
        err_fails: &[0],
        status: 9,
        out: Text("7"),
        ..RUN
    },
    Row {
        file: Text("42"),
        out_fails: &[0],
        err: "answer 42\n",
        ..RUN
    },
    Row {
        file: Text("42"),
        err_fails: &[0],
        img_fails: &[0],
        status: 9,
        img: false,
        ..RUN
    },
    Row {
        file: Text("42"),
        shelf_fails: &[0],
        status: 8,
        img: false,
        err: "load failed\n",
        ..RUN
    },
    Row {
        file: Text("x"),
        err_fails: &[0],
        status: 9,
        ..REFUSED
    },
    Row {
        file: Text("x"),
        out_fails: &[0],
        err_fails: &[1],
        img_fails: &[0],
        err: "refused unbound 1:1\n",
        ..REFUSED
    },
    Row {
        file: Text("42"),
        shelf_fails: &[0],
        status: 8,
        err: "load failed\n",
        ..CHECK
    },
    Row {
        file: Text("42"),
        out_fails: &[0],
        status: 9,
        err: "put failed\n",
        ..CHECK
    },
    Row {
        file: Text("42"),
        out_fails: &[1],
        err_fails: &[0],
        img_fails: &[0],
        out: Text("type Int\ncasts 0\n"),
        ..CHECK
    },
    Row {
        words: "audit a",
        file: Text("42"),
        shelf_fails: &[0],
        status: 8,
        err: "load failed\n",
        ..CHECK
    },
    Row {
        words: "audit a",
        file: Text("42"),
        out_fails: &[0],
        status: 9,
        err: "put failed\n",
        ..CHECK
    },
    Row {
        words: "audit a",
        file: Text("x"),
        err_fails: &[0],
        status: 9,
        ..CHECK
    },
    Row {
        file: Image(&[0x02a0_0593, 0x0000_0073]),
        out_fails: &[0],
        img_fails: &[0],
        err: "answer 42\n",
        ..EXEC
    },
    Row {
        file: Image(&[0x02a0_0593, 0x0000_0073]),
        shelf_fails: &[0],
        status: 8,
        err: "load failed\n",
        ..EXEC
    },
    Row {
        file: Image(POINTS),
        out_fails: &[0],
        status: 9,
        err: "put failed\n",
        ..EXEC
    },
];

// Output of more than a block: one put of 4,096 bytes, and one of the rest.
pub(crate) const BLOCKS: &[Row] = &[
    Row {
        out_fails: &[2],
        out: Copies(&[("7", 5000)]),
        err: "answer ()\n",
        ..SEVENS
    },
    Row {
        out_fails: &[0],
        status: 9,
        err: "put failed\n",
        ..SEVENS
    },
    Row {
        out_fails: &[1],
        status: 9,
        out: Copies(&[("7", 4096)]),
        err: "put failed\n",
        ..SEVENS
    },
];

// Names that the shelf has not.
pub(crate) const NO_NAMES: &[Row] = &[
    Row {
        words: "run a --region 12",
        err_fails: &[1],
        ..UNREAD
    },
    Row {
        words: "run",
        err_fails: &[0],
        status: 9,
        err: "",
        ..UNREAD
    },
    Row {
        words: "run c",
        status: 8,
        asked: 1,
        err: "load failed\n",
        ..UNREAD
    },
    Row {
        words: "exec c",
        status: 8,
        asked: 1,
        err: "load failed\n",
        ..UNREAD
    },
    Row {
        words: "check c",
        status: 8,
        asked: 1,
        err: "load failed\n",
        ..UNREAD
    },
    Row {
        words: "audit c",
        status: 8,
        asked: 1,
        err: "load failed\n",
        ..UNREAD
    },
    Row {
        words: "model c --steps 5",
        status: 8,
        asked: 1,
        err: "load failed\n",
        ..UNREAD
    },
];

// Whether words are refused, whatever the file holds.
fn are_no_command(rt: &impl Abort, alloc: Global, words: &'static str) -> bool {
    comes_to(rt, alloc, &Row { words, ..UNREAD }, b"42")
}

#[test]
fn words_that_are_no_command(rt: HostRuntime) {
    for words in NO_COMMANDS {
        assert!(rt; are_no_command(&rt, rt.alloc(), words), "{words}");
    }
}
