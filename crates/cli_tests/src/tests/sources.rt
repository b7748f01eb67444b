// What is said of a source: refusals, of each kind at least one, types and casts, labels, and the calculus itself.

use crate::tests::calling::{Content, Row};
use crate::tests::calls::{CHECK, MODEL, REFUSED, RUN};
use Content::{Bytes, Copies, Text};

// Texts that are not read.
pub(crate) const UNREADABLE: &[Row] = &[
    Row {
        file: Text("{"),
        err: "refused bad-byte 1:1\n",
        ..REFUSED
    },
    Row {
        file: Text("(+ 1 2"),
        err: "refused unclosed 1:1\n",
        ..REFUSED
    },
    Row {
        file: Text("(("),
        err: "refused unclosed 1:2\n",
        ..REFUSED
    },
    Row {
        file: Text("\n  (define (f) 1"),
        err: "refused unclosed 2:3\n",
        ..REFUSED
    },
    Row {
        file: Text("(+ 1 2]"),
        err: "refused unopened 1:7\n",
        ..REFUSED
    },
    Row {
        file: Copies(&[("(", 201)]),
        err: "refused too-deep 1:201\n",
        ..REFUSED
    },
    Row {
        file: Copies(&[("(", 200)]),
        err: "refused unclosed 1:200\n",
        ..REFUSED
    },
    Row {
        file: Text("1.5"),
        err: "refused not-in-profile 1:1\n",
        ..REFUSED
    },
];

// Forms that are none, and casts that can not be.
pub(crate) const REFUSALS: &[Row] = &[
    Row {
        file: Text("(if #t 1)"),
        err: "refused bad-form 1:1\n",
        ..REFUSED
    },
    Row {
        file: Text("(read-int 1)"),
        err: "refused bad-form 1:1\n",
        ..REFUSED
    },
    Row {
        file: Text("(begin)"),
        err: "refused bad-form 1:1\n",
        ..REFUSED
    },
    Row {
        file: Text("(lambda (x x) 1)"),
        err: "refused repeated-name 1:12\n",
        ..REFUSED
    },
    Row {
        file: Text("(lambda (a b c d e f g) 1)"),
        err: "refused too-wide 1:22\n",
        ..REFUSED
    },
    Row {
        file: Copies(&[("1\n", 501)]),
        err: "refused too-many-forms 501:1\n",
        ..REFUSED
    },
    Row {
        file: Copies(&[("1\n", 500)]),
        err: "answer 1\n",
        ..RUN
    },
    Row {
        file: Text("(let ([if 1]) 2)"),
        err: "refused reserved-name 1:8\n",
        ..REFUSED
    },
    Row {
        file: Text("x"),
        err: "refused unbound 1:1\n",
        ..REFUSED
    },
    Row {
        file: Text("(if 1 2 3)"),
        err: "refused not-consistent 1:5\n",
        ..REFUSED
    },
    Row {
        file: Text("(print-int (newline))"),
        err: "refused not-consistent 1:12\n",
        ..REFUSED
    },
    Row {
        file: Text("(1 2)"),
        err: "refused not-function 1:2\n",
        ..REFUSED
    },
    Row {
        file: Text("((lambda (x) x) 1 2)"),
        err: "refused wrong-count 1:1\n",
        ..REFUSED
    },
    Row {
        file: Text("(tuple-proj 5 0)"),
        err: "refused not-tuple 1:13\n",
        ..REFUSED
    },
    Row {
        file: Text("(tuple-proj (tuple 1 2) 2)"),
        err: "refused no-such-part 1:25\n",
        ..REFUSED
    },
    Row {
        file: Text("(unbox 5)"),
        err: "refused not-ref 1:8\n",
        ..REFUSED
    },
    Row {
        file: Text("(vector-length 5)"),
        err: "refused not-vector 1:16\n",
        ..REFUSED
    },
    Row {
        file: Text(
            "(define a (tuple 1 1 1 1 1 1 1 1))\n(define b (tuple a a a a a a a a))\n(define c (tuple b b b b b b b b))\n(define d (tuple c c c c c c c c))",
        ),
        err: "refused type-too-large 4:11\n",
        ..REFUSED
    },
];

// Two faults: the reader first, then the forms, then the first in the text.
pub(crate) const FIRST_FAULTS: &[Row] = &[
    Row {
        file: Text("(+ 1 #t) y"),
        err: "refused not-consistent 1:6\n",
        ..REFUSED
    },
    Row {
        file: Text("y (+ 1 #t)"),
        err: "refused unbound 1:1\n",
        ..REFUSED
    },
    Row {
        file: Text("(begin (box 1) (unbox 5))"),
        err: "refused not-ref 1:23\n",
        ..REFUSED
    },
    Row {
        file: Text("y (if #t 1)"),
        err: "refused bad-form 1:3\n",
        ..REFUSED
    },
    Row {
        file: Text("y (if #t 1) ("),
        err: "refused unclosed 1:13\n",
        ..REFUSED
    },
];

// `check`: the type and the number of casts.
pub(crate) const CHECKS: &[Row] = &[
    Row {
        file: Text("(: (: #t Dyn) Int)"),
        out: Text("type Int\ncasts 2\n"),
        ..CHECK
    },
    Row {
        file: Text("(lambda (x) x)"),
        out: Text("type (Dyn -> Dyn)\ncasts 0\n"),
        ..CHECK
    },
    Row {
        file: Text("42"),
        out: Text("type Int\ncasts 0\n"),
        ..CHECK
    },
    Row {
        file: Text("(define x 3)"),
        out: Text("type Unit\ncasts 0\n"),
        ..CHECK
    },
    Row {
        file: Text("(tuple 1 #t ())"),
        out: Text("type (Tuple Int Bool Unit)\ncasts 0\n"),
        ..CHECK
    },
    Row {
        file: Text("(box (lambda () 1))"),
        out: Text("type (Ref (-> Int))\ncasts 0\n"),
        ..CHECK
    },
    Row {
        file: Text("(make-vector 2 (: 1 Dyn))"),
        out: Text("type (Vect Dyn)\ncasts 1\n"),
        ..CHECK
    },
    Row {
        file: Text("(tuple-proj (: (tuple 1 #t) Dyn) 0)"),
        out: Text("type Dyn\ncasts 2\n"),
        ..CHECK
    },
    Row {
        file: Text("(define (fib n) (if (< n 2) n (+ (fib (- n 1)) (fib (- n 2))))) (fib 15)"),
        out: Text("type Dyn\ncasts 9\n"),
        ..CHECK
    },
    Row {
        file: Text("(repeat (i 0 5) (s : Int 0) (+ s i))"),
        out: Text("type Int\ncasts 0\n"),
        ..CHECK
    },
    Row {
        file: Text("(if #t 1)"),
        status: 1,
        err: "refused bad-form 1:1\n",
        ..CHECK
    },
    Row {
        file: Text("(+ 1 #t)"),
        status: 1,
        err: "refused not-consistent 1:6\n",
        ..CHECK
    },
    Row {
        file: Copies(&[(" ", 262145)]),
        status: 12,
        err: "file too long\n",
        ..CHECK
    },
];

// Types of a thousand nodes, written and of a tuple, and of one more.
pub(crate) const LARGE_TYPES: &[Row] = &[
    Row {
        file: Copies(&[
            ("(begin (: (: 1 Dyn)\n ", 1),
            ("(Tuple Int Int Int Int Int Int Int ", 124),
            ("(Tuple Int Int Int Int Int Int Int)", 1),
            (")", 124),
            (") 1)", 1),
        ]),
        out: Text("type Int\ncasts 2\n"),
        ..CHECK
    },
    Row {
        file: Copies(&[
            ("(begin (: (: 1 Dyn)\n ", 1),
            ("(Tuple Int Int Int Int Int Int Int ", 124),
            ("(Tuple Int Int Int Int Int Int Int Int)", 1),
            (")", 124),
            (") 1)", 1),
        ]),
        status: 1,
        err: "refused type-too-large 2:2\n",
        ..CHECK
    },
    Row {
        file: Copies(&[
            ("(begin\n ", 1),
            ("(tuple 1 1 1 1 1 1 1 ", 124),
            ("(tuple 1 1 1 1 1 1 1)", 1),
            (")", 124),
            (" 1)", 1),
        ]),
        out: Text("type Int\ncasts 0\n"),
        ..CHECK
    },
    Row {
        file: Copies(&[
            ("(begin\n ", 1),
            ("(tuple 1 1 1 1 1 1 1 ", 124),
            ("(tuple 1 1 1 1 1 1 1 1)", 1),
            (")", 124),
            (" 1)", 1),
        ]),
        status: 1,
        err: "refused type-too-large 2:2\n",
        ..CHECK
    },
];

// `audit`: the labels that no run can blame.
pub(crate) const AUDITS: &[Row] = &[
    Row {
        words: "audit a",
        file: Text("(: (: #t Dyn) Int)"),
        out: Text("1:4\nsafe 1 of 2\n"),
        ..CHECK
    },
    Row {
        words: "audit a",
        file: Text(
            "(let ([b (box 1)]) (let ([d (: b (Ref Dyn))]) (begin (box-set! d #t) (unbox b))))",
        ),
        out: Text("1:66\nsafe 1 of 2\n"),
        ..CHECK
    },
    Row {
        words: "audit a",
        file: Text("42"),
        out: Text("safe 0 of 0\n"),
        ..CHECK
    },
    Row {
        words: "audit a",
        file: Text("(define (half n) (%/ n 2))\n(print-int (half 84))"),
        out: Text("1:18\n2:18\nsafe 2 of 4\n"),
        ..CHECK
    },
    Row {
        words: "audit a",
        file: Text(""),
        status: 1,
        err: "refused empty 1:1\n",
        ..CHECK
    },
    Row {
        words: "audit a",
        file: Text("(if #t 1)"),
        status: 1,
        err: "refused bad-form 1:1\n",
        ..CHECK
    },
    Row {
        words: "audit a",
        file: Text("(+ 1 x)"),
        status: 1,
        err: "refused unbound 1:6\n",
        ..CHECK
    },
    Row {
        words: "audit a",
        file: Text("(if 1 2 3)"),
        status: 1,
        err: "refused not-consistent 1:5\n",
        ..CHECK
    },
    Row {
        words: "audit a",
        file: Copies(&[(" ", 262145)]),
        status: 12,
        err: "file too long\n",
        ..CHECK
    },
];

// `model`: the calculus itself, for so many steps at most.
pub(crate) const MODELS: &[Row] = &[
    Row {
        words: "model a --steps 0",
        file: Text("(+ 1 2)"),
        status: 7,
        err: "spent steps\n",
        ..MODEL
    },
    Row {
        words: "model a --steps 1",
        file: Text("(+ 1 2)"),
        err: "answer 3\n",
        ..MODEL
    },
    Row {
        words: "model a --steps 0",
        file: Text("42"),
        err: "answer 42\n",
        ..MODEL
    },
    Row {
        file: Text("(: (: #t Dyn) Int)"),
        status: 3,
        err: "blame 1:1\n",
        ..MODEL
    },
    Row {
        file: Text("(define (f [g : (Int -> Int)]) : Int (g 1))\n(f (lambda (x) (: #t Dyn)))"),
        status: 3,
        err: "blame 2:4\n",
        ..MODEL
    },
    Row {
        file: Text("(begin (print-int 4) (newline) (%/ 1 0))"),
        status: 4,
        out: Text("4\n"),
        err: "trap zero-divisor\n",
        ..MODEL
    },
    Row {
        file: Text("(letrec ([f (lambda ([x : Int]) : Int (f x))]) (f 0))"),
        status: 7,
        err: "spent steps\n",
        ..MODEL
    },
    Row {
        file: Text("(read-int)"),
        status: 4,
        err: "trap input\n",
        ..MODEL
    },
    Row {
        file: Text("("),
        status: 1,
        err: "refused unclosed 1:1\n",
        ..MODEL
    },
    Row {
        file: Text("(print-int 4)"),
        out_fails: &[0],
        status: 9,
        err: "put failed\n",
        ..MODEL
    },
];
