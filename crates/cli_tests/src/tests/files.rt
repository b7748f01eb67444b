// Images, and inputs.

use crate::tests::calling::{Content, Row};
use crate::tests::calls::{EXEC, ON_INPUT};
use Content::{Bytes, Copies, Image, Text};

// A loop that prints 100,000 points.
pub(crate) const POINTS: &[u32] = &[
    0x000182b7, // lui x5, 24
    0x6a028293, // addi x5, x5, 1696
    0x00200893, // addi x17, x0, 2
    0x02e00513, // addi x10, x0, 46
    0x00000073, // ecall
    0xfff28293, // addi x5, x5, -1
    0xfe0298e3, // bne x5, x0, -16
    0x00000893, // addi x17, x0, 0
    0x00200513, // addi x10, x0, 2
    0x00000593, // addi x11, x0, 0
    0x00000073, // ecall
    0x00000013, // addi x0, x0, 0
];

// A file that is no image, or an image that goes wrong.
macro_rules! ended {
    ($file:expr, $status:expr, $err:expr) => {
        Row {
            file: $file,
            status: $status,
            err: $err,
            ..EXEC
        }
    };
}

// Images, one that answers 42 among them.
pub(crate) const IMAGES: &[Row] = &[
    Row {
        file: Image(&[0x02a0_0593, 0x0000_0073]),
        err: "answer 42\n",
        ..EXEC
    },
    Row {
        words: "exec a --steps 1",
        file: Image(&[0x02a0_0593, 0x0000_0073]),
        status: 7,
        err: "spent steps\n",
        ..EXEC
    },
    Row {
        words: "exec a --steps 2",
        file: Image(&[0x02a0_0593, 0x0000_0073]),
        err: "answer 42\n",
        ..EXEC
    },
    Row {
        file: Bytes(
            b"GRIFTRV1H\0\0\0\0\0\0\0\0\0\0\0\0\0\0\0\x08\0\0\0\0\0\0\0\0\0\0\0\0\0\0\0\0\0\0\0\0\0\0\0\0\0\0\0\0\0\0\0\0\0\0\0\0\0\0\0\x93\x05\xa0\x02s\0\0\0",
        ),
        err: "answer 42\n",
        ..EXEC
    },
    ended!(
        Bytes(
            b"GRIFTRV1H\0\0\0\0\0\0\0\0\0\0\0\0\0\0\0\x08\0\0\0\0\0\0\0\0\0\0\0\0\0\0\0\0\0\0\0\0\0\0\0\0\0\0\0\0\0\0\0\0\0\0\0\0\0\0\0\x93\x05\xa0\x02s\0\0"
        ),
        13,
        "bad image length\n"
    ),
    ended!(
        Bytes(
            b"\0RIFTRV1H\0\0\0\0\0\0\0\0\0\0\0\0\0\0\0\x08\0\0\0\0\0\0\0\0\0\0\0\0\0\0\0\0\0\0\0\0\0\0\0\0\0\0\0\0\0\0\0\0\0\0\0\0\0\0\0\x93\x05\xa0\x02s\0\0\0"
        ),
        13,
        "bad image magic\n"
    ),
    ended!(
        Bytes(
            b"GRIFTRV1H\0\0\0\0\0\0\0\0\0\0\0\0\0\0\0\x08\0\0\0\0\0\0\0\0\0\0\0\0\0\0\0\x02\0\0\0\0\0\0\0\0\0\0\0\0\0\0\0\0\0\0\0\0\0\0\0\x93\x05\xa0\x02s\0\0\0"
        ),
        13,
        "bad image section\n"
    ),
    ended!(Copies(&[("\0", 262145)]), 13, "bad image magic\n"),
    ended!(Image(&[0, 0]), 11, "machine undefined 00010000\n"),
    ended!(Image(&[0x0000_3023, 0]), 11, "machine address 00010000\n"),
    ended!(
        Image(&[0x0020_0067, 0]),
        11,
        "machine misaligned 00010000\n"
    ),
    ended!(Image(&[0x0010_0073, 0]), 11, "machine undefined 00010000\n"),
    Row {
        words: "exec a --steps 100",
        file: Image(&[0x0000_006f, 0]),
        status: 7,
        err: "spent steps\n",
        ..EXEC
    },
    Row {
        file: Image(POINTS),
        out: Copies(&[(".", 100000)]),
        err: "answer ()\n",
        ..EXEC
    },
];

// An input; without the option it is empty.
pub(crate) const INPUTS: &[Row] = &[
    Row {
        file: Text("(begin (print-int (read-int)) (read-int))"),
        input: "5",
        status: 4,
        out: Text("5"),
        err: "trap input\n",
        ..ON_INPUT
    },
    Row {
        file: Text("(begin (print-int (read-int)) (read-int))"),
        input: "5 6",
        out: Text("5"),
        err: "answer 6\n",
        ..ON_INPUT
    },
    Row {
        file: Text("(begin (print-int (read-int)) (read-int))"),
        input: " -9223372036854775808 9223372036854775808",
        status: 4,
        out: Text("-9223372036854775808"),
        err: "trap input\n",
        ..ON_INPUT
    },
    Row {
        words: "run a",
        file: Text("(read-int)"),
        input: "5",
        status: 4,
        asked: 1,
        err: "trap input\n",
        ..ON_INPUT
    },
    Row {
        file: Text("(+ (read-int) (* 10 (read-int)))"),
        input: "+3\n4",
        err: "answer 43\n",
        ..ON_INPUT
    },
    Row {
        file: Text("(+ (read-int) (* 10 (read-int)))"),
        input: "3 - 4",
        status: 4,
        err: "trap input\n",
        ..ON_INPUT
    },
    Row {
        file: Text(
            "(define (sum [total : Int]) : Int\n(let ([n (read-int)]) (if (= n 0) total (sum (+ total n)))))\n(sum 0)",
        ),
        input: "1 2\t3\r\n4 0 9",
        err: "answer 10\n",
        ..ON_INPUT
    },
    Row {
        file: Text(
            "(define (sum [total : Int]) : Int\n(let ([n (read-int)]) (if (= n 0) total (sum (+ total n)))))\n(sum 0)",
        ),
        input: "9223372036854775807 1 0",
        err: "answer -9223372036854775808\n",
        ..ON_INPUT
    },
    Row {
        file: Text("(+ 1 (: (read-int) Dyn))"),
        input: "7",
        err: "answer 8\n",
        ..ON_INPUT
    },
    Row {
        file: Text("(: (: (read-int) Dyn) Bool)"),
        input: "7",
        status: 3,
        err: "blame 1:1\n",
        ..ON_INPUT
    },
    Row {
        file: Text("(if (= (read-int) 1) (read-int) 5)"),
        input: "1 x",
        status: 4,
        err: "trap input\n",
        ..ON_INPUT
    },
    Row {
        file: Text("(if (= (read-int) 1) (read-int) 5)"),
        input: "2 x",
        err: "answer 5\n",
        ..ON_INPUT
    },
    Row {
        file: Text("(unbox (box (read-int)))"),
        input: "-1",
        err: "answer -1\n",
        ..ON_INPUT
    },
    Row {
        words: "model a --steps 1000 --input b",
        file: Text(
            "(define (sum [total : Int]) : Int\n(let ([n (read-int)]) (if (= n 0) total (sum (+ total n)))))\n(sum 0)",
        ),
        input: "1 2\t3\r\n4 0 9",
        img: false,
        err: "answer 10\n",
        ..ON_INPUT
    },
    Row {
        words: "model a --steps 1000 --input b",
        file: Text("(+ (read-int) (* 10 (read-int)))"),
        input: "3 - 4",
        status: 4,
        img: false,
        err: "trap input\n",
        ..ON_INPUT
    },
    Row {
        words: "model a --steps 1000 --input b",
        file: Text("(: (: (read-int) Dyn) Bool)"),
        input: "7",
        status: 3,
        img: false,
        err: "blame 1:1\n",
        ..ON_INPUT
    },
    Row {
        words: "run a --steps 5 --input b --image c",
        file: Text("(begin (print-int (read-int)) (read-int))"),
        input: "5",
        status: 7,
        err: "spent steps\n",
        ..ON_INPUT
    },
];

// A call whose input holds 5, and whose load fails.
const UNLOADED: Row = Row {
    input: "5",
    status: 8,
    img: false,
    err: "load failed\n",
    ..ON_INPUT
};

// The file is loaded first, then the input, then the source is read.
pub(crate) const LOADS: &[Row] = &[
    Row {
        file: Text("(begin (print-int (read-int)) (read-int))"),
        shelf_fails: &[0],
        asked: 1,
        ..UNLOADED
    },
    Row {
        file: Text("(begin (print-int (read-int)) (read-int))"),
        shelf_fails: &[1],
        ..UNLOADED
    },
    Row {
        words: "run a --input c",
        file: Text("(begin (print-int (read-int)) (read-int))"),
        ..UNLOADED
    },
    Row {
        file: Text("("),
        shelf_fails: &[1],
        ..UNLOADED
    },
    Row {
        file: Text("("),
        input: "5",
        status: 1,
        img: false,
        err: "refused unclosed 1:1\n",
        ..ON_INPUT
    },
    Row {
        words: "run a",
        file: Text("(read-int)"),
        input: "5",
        shelf_fails: &[1],
        status: 4,
        asked: 1,
        err: "trap input\n",
        ..ON_INPUT
    },
    Row {
        words: "model a --steps 5 --input b",
        file: Text("("),
        shelf_fails: &[1],
        ..UNLOADED
    },
];
