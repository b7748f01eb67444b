// What runs with `--space` tell of their storage: a row for each.

use crate::tests::calling::{Content, Row, call_by};
use crate::tests::calls::{RUN, UNREAD};
use Content::Text;
use std::alloc::Global;
use std::process::Abort;

const SPACE: Row = Row {
    words: "run a --space",
    ..RUN
};

// All lines, of programs whose objects are counted by hand.
pub(crate) const LINES: &[Row] = &[
    Row {
        file: Text("42"),
        err: "answer 42\nspace bytes 0\nspace objects 0\nspace proxies 0\nspace stacked 0\nspace highest 0\nspace tallest 0\n",
        ..SPACE
    },
    Row {
        file: Text("(let ([t (tuple 1 2)]) (begin (box t) (make-vector 3 0) 5))"),
        err: "answer 5\nspace bytes 72\nspace objects 3\nspace proxies 0\nspace stacked 0\nspace highest 0\nspace tallest 0\n",
        ..SPACE
    },
    Row {
        file: Text("(box-set! (: (box 1) (Ref Dyn)) #t)"),
        status: 3,
        err: "blame 1:11\nspace bytes 40\nspace objects 2\nspace proxies 1\nspace stacked 0\nspace highest 1\nspace tallest 1\n",
        ..SPACE
    },
    Row {
        file: Text("(%/ 1 0)"),
        status: 4,
        err: "trap zero-divisor\nspace bytes 0\nspace objects 0\nspace proxies 0\nspace stacked 0\nspace highest 0\nspace tallest 0\n",
        ..SPACE
    },
    Row {
        words: "run a --steps 1000 --space",
        file: Text("(letrec ([f (lambda ([x : Int]) : Int (f x))]) (f 0))"),
        status: 7,
        err: "spent steps\nspace bytes 16\nspace objects 1\nspace proxies 0\nspace stacked 0\nspace highest 0\nspace tallest 0\n",
        ..SPACE
    },
    Row {
        words: "run a --stack 4096 --space",
        file: Text("(letrec ([f (lambda ([x : Int]) : Int (+ 1 (f x)))]) (f 0))"),
        status: 6,
        err: "exhausted stack\nspace bytes 16\nspace objects 1\nspace proxies 0\nspace stacked 0\nspace highest 0\nspace tallest 0\n",
        ..SPACE
    },
    Row {
        words: "run a --region 64 --space",
        file: Text("(make-vector 100 0)"),
        status: 5,
        err: "exhausted region\nspace bytes 0\nspace objects 0\nspace proxies 0\nspace stacked 0\nspace highest 0\nspace tallest 0\n",
        ..SPACE
    },
    Row {
        words: "run a --input b --space --image c",
        asked: 2,
        file: Text("(read-int)"),
        input: "5",
        err: "answer 5\nspace bytes 0\nspace objects 0\nspace proxies 0\nspace stacked 0\nspace highest 0\nspace tallest 0\n",
        ..SPACE
    },
];

// No lines but those of a verdict have more behind them.
pub(crate) const NO_LINES: &[Row] = &[
    Row {
        file: Text("(+ 1 #t)"),
        status: 1,
        img: false,
        err: "refused not-consistent 1:6\n",
        ..SPACE
    },
    Row {
        file: Text("42"),
        shelf_fails: &[0],
        status: 8,
        img: false,
        err: "load failed\n",
        ..SPACE
    },
    Row {
        file: Text("42"),
        err_fails: &[0],
        status: 9,
        ..SPACE
    },
    Row {
        file: Text("42"),
        err: "answer 42\n",
        ..RUN
    },
    Row {
        words: "run a --space --space",
        ..UNREAD
    },
    Row {
        words: "run a --image b --space",
        ..UNREAD
    },
    Row {
        words: "run a --space --input b",
        ..UNREAD
    },
    Row {
        words: "exec a --space",
        ..UNREAD
    },
];

// However often a function is cast, it stands in one wrapper, whose coercion is as high as that of one cast. A turn
// leaves seven objects, two of them wrappers, in 192 bytes; the first leaves five in 136, beside two functions in 32.
pub(crate) const LOOPS: &[Row] = &[
    Row {
        file: Text(
            "(letrec ([loop (lambda ([n : Int] [f : (Dyn -> Dyn)]) : (Dyn -> Dyn)\n(if (= n 0) f (loop (- n 1) (: (: f (Int -> Int)) (Dyn -> Dyn)))))])\n((loop 3 (lambda (x) x)) 7))",
        ),
        err: "answer 7\nspace bytes 552\nspace objects 21\nspace proxies 6\nspace stacked 0\nspace highest 1\nspace tallest 1\n",
        ..SPACE
    },
    Row {
        file: Text(
            "(letrec ([loop (lambda ([n : Int] [f : (Dyn -> Dyn)]) : (Dyn -> Dyn)\n(if (= n 0) f (loop (- n 1) (: (: f (Int -> Int)) (Dyn -> Dyn)))))])\n((loop 1000 (lambda (x) x)) 7))",
        ),
        err: "answer 7\nspace bytes 191976\nspace objects 7000\nspace proxies 2000\nspace stacked 0\nspace highest 1\nspace tallest 1\n",
        ..SPACE
    },
    Row {
        file: Text(
            "(letrec ([loop (lambda ([n : Int] [f : (Dyn -> Dyn)]) : (Dyn -> Dyn)\n(if (= n 0) f (loop (- n 1) (: (: f (Int -> Int)) (Dyn -> Dyn)))))])\n((loop 1000 (lambda (x) x)) #t))",
        ),
        status: 3,
        err: "blame 2:29\nspace bytes 191976\nspace objects 7000\nspace proxies 2000\nspace stacked 0\nspace highest 1\nspace tallest 1\n",
        ..SPACE
    },
    Row {
        words: "run a --region 1073741824 --steps 9223372036854775807 --space",
        file: Text(
            "(letrec ([loop (lambda ([n : Int] [f : (Dyn -> Dyn)]) : (Dyn -> Dyn)\n(if (= n 0) f (loop (- n 1) (: (: f (Int -> Int)) (Dyn -> Dyn)))))])\n((loop 1000000 (lambda (x) x)) 7))",
        ),
        err: "answer 7\nspace bytes 191999976\nspace objects 7000000\nspace proxies 2000000\nspace stacked 0\nspace highest 1\nspace tallest 1\n",
        ..SPACE
    },
];

// How a run in a region of so many bytes ends.
#[derive(Clone, Copy, PartialEq)]
enum End {
    Answers,
    Exhausted,
    // It tells something else, or a proxy on a proxy, or one that is higher than one cast.
    Otherwise,
}

// Whether the lines end so that no proxy stands on a proxy, and none is higher than one cast.
fn is_lean(text: &[u8]) -> bool {
    text.ends_with(b"space stacked 0\nspace highest 0\nspace tallest 1\n")
        || text.ends_with(b"space stacked 0\nspace highest 1\nspace tallest 1\n")
}

// How a call with this status and these lines ended.
fn end_told(status: u8, text: &[u8]) -> End {
    match status {
        0 if is_lean(text) && text.starts_with(b"answer 7\n") => End::Answers,
        5 if is_lean(text) && text.starts_with(b"exhausted region\n") => End::Exhausted,
        _ => End::Otherwise,
    }
}

// How the run of a program that casts a box ends in a region of so many bytes.
fn end_in(rt: &impl Abort, alloc: Global, region: u64) -> End {
    let words = format!(in alloc; "run a --region {region} --space").expect(rt, "memory");
    let file = b"(let ([b (box 1)]) (let ([d (: b (Ref Dyn))]) (begin (box-set! d 7) (unbox b))))";
    let left = call_by(rt, alloc, words.as_str(), &SPACE, file);
    end_told(left.status, left.err.bytes())
}

// A run with every region up to 1,024 bytes is exhausted or ends; and once one ends, each with more room does.
#[test]
fn regions_of_all_sizes(rt: HostRuntime) {
    let mut last = End::Exhausted;
    for eighth in 0..129_u64 {
        let end = end_in(&rt, rt.alloc(), 8 * eighth);
        assert!(rt;
            end != End::Otherwise && (end == last || last == End::Exhausted),
            "{eighth}"
        );
        last = end;
    }
    assert!(rt; last == End::Answers);
}
