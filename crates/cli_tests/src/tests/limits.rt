// Region, stack and steps; and programs as long, as wide and as deep as they may be.

use crate::tests::calling::{Content, Row};
use crate::tests::calls::{RUN, UNREAD};
use Content::{Copies, Text};

// Region, stack and steps.
pub(crate) const LIMITS: &[Row] = &[
    Row {
        words: "run a --steps 1000",
        file: Text("(letrec ([f (lambda ([x : Int]) : Int (f x))]) (f 0))"),
        status: 7,
        err: "spent steps\n",
        ..RUN
    },
    Row {
        words: "run a --stack 4096",
        file: Text("(letrec ([f (lambda ([x : Int]) : Int (+ 1 (f x)))]) (f 0))"),
        status: 6,
        err: "exhausted stack\n",
        ..RUN
    },
    Row {
        file: Text("(letrec ([f (lambda ([x : Int]) : Int (+ 1 (f x)))]) (f 0))"),
        status: 6,
        err: "exhausted stack\n",
        ..RUN
    },
    Row {
        words: "run a --stack 32768",
        file: Text("42"),
        err: "answer 42\n",
        ..RUN
    },
    Row {
        words: "run a --region 0",
        file: Text("(let ([x 1]) (if (< x 2) (print-int x) ()))"),
        out: Text("1"),
        err: "answer ()\n",
        ..RUN
    },
    Row {
        words: "run a --region 0",
        file: Text("(let ([d : Dyn 5]) d)"),
        err: "answer 5\n",
        ..RUN
    },
    Row {
        words: "run a --region 0",
        file: Text("(let ([d : Dyn 1152921504606846976]) d)"),
        status: 5,
        err: "exhausted region\n",
        ..RUN
    },
    Row {
        words: "run a --region 24",
        file: Text("(let ([d : Dyn 1152921504606846976]) d)"),
        err: "answer 1152921504606846976\n",
        ..RUN
    },
    // six casts in place, each of which would take more than twenty instructions by the procedure for casts
    Row {
        words: "run a --steps 60",
        file: Text("(begin (: (: 5 Dyn) Int) (: (: #t Dyn) Bool) (: (: () Dyn) Unit))"),
        err: "answer ()\n",
        ..RUN
    },
    Row {
        words: "run a --region 8000008",
        file: Text("(vector-ref (make-vector 1000000 7) 999999)"),
        err: "answer 7\n",
        ..RUN
    },
    Row {
        words: "run a --region 8000000",
        file: Text("(vector-ref (make-vector 1000000 7) 999999)"),
        status: 5,
        err: "exhausted region\n",
        ..RUN
    },
    Row {
        words: "run a --region 8",
        file: Text("(vector-length (make-vector 0 7))"),
        err: "answer 0\n",
        ..RUN
    },
    Row {
        words: "run a --region 0",
        file: Text("(vector-length (make-vector 0 7))"),
        status: 5,
        err: "exhausted region\n",
        ..RUN
    },
    Row {
        words: "run a --region 16",
        file: Text("(tuple-proj (tuple 1 2) 0)"),
        status: 5,
        err: "exhausted region\n",
        ..RUN
    },
    Row {
        words: "run a --region 24",
        file: Text("(tuple-proj (tuple 1 2) 0)"),
        err: "answer 1\n",
        ..RUN
    },
];

// Tail calls without an end to the stack, and programs as long, as wide and as deep as they may be.
pub(crate) const LARGE: &[Row] = &[
    Row {
        words: "run a --stack 4096",
        file: Text(
            "(letrec ([f (lambda ([n : Int]) : Bool\n(if (= n 0) #t (and #t (or #f (let ([m (- n 1)]) (begin 1 (f m)))))))]) (f 100000))",
        ),
        err: "answer #t\n",
        ..RUN
    },
    Row {
        file: Text(
            "(letrec ([f (lambda ([n : Int]) : Int (if (= n 0) 7 (g (- n 1))))]\n[g (lambda ([n : Int]) : Int (f n))]) (f 100000))",
        ),
        err: "answer 7\n",
        ..RUN
    },
    Row {
        file: Copies(&[(" ", 262142), ("42", 1)]),
        err: "answer 42\n",
        ..RUN
    },
    Row {
        words: "run a",
        file: Copies(&[(" ", 262145)]),
        status: 12,
        asked: 1,
        err: "file too long\n",
        ..UNREAD
    },
    Row {
        file: Copies(&[("(begin", 1), ("(newline)", 29000), (")", 1)]),
        out: Copies(&[("\n", 29000)]),
        err: "answer ()\n",
        ..RUN
    },
    Row {
        file: Copies(&[("(+ ", 199), ("1", 1), (" 1)", 199)]),
        err: "answer 200\n",
        ..RUN
    },
    Row {
        file: Copies(&[("(+ 1 ", 199), ("1", 1), (")", 199)]),
        err: "answer 200\n",
        ..RUN
    },
    Row {
        file: Copies(&[
            ("(letrec (", 1),
            ("[f@ (lambda ([n : Int]) : Int (f$ n))]\n", 499),
            ("[f499 (lambda ([n : Int]) : Int (* n 2))]) (f0 21))", 1),
        ]),
        err: "answer 42\n",
        ..RUN
    },
    Row {
        file: Copies(&[
            ("(let (", 1),
            ("[x@ $]\n", 300),
            (") ((lambda () (begin", 1),
            (" (print-int (- x@ $))\n", 300),
            ("(+ x0 x299)))))", 1),
        ]),
        out: Copies(&[("0", 300)]),
        err: "answer 301\n",
        ..RUN
    },
];
