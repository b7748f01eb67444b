// The programs made from a number.

use front_end::elaborate_text;
use grift_base::lists::Text;
use grift_gen::program_of;
use std::alloc::Global;
use std::process::Abort;

// The program of a number.
fn program(rt: &impl Abort, alloc: Global, n: u32) -> Text {
    assert!(rt; 1 <= n && n <= 200);
    program_of(alloc, n).expect(rt, "memory")
}

// Whether the program of a number has so many bytes, and is this text.
fn is_text(rt: &impl Abort, alloc: Global, n: u32, bytes: u64, lines: &[u8]) -> bool {
    let text = program(rt, alloc, n);
    text.len() == bytes && text.as_slice() == lines
}

const SMALL: &[(u32, u64, &str)] = &[
    (
        1,
        133,
        "(define (f0 x) (+ x 0))\n\
          (define r : (Ref Dyn) (box 0))\n\
          (repeat (k 0 20) (box-set! r (f0 (unbox r))))\n\
          (print-int (unbox r))\n\
          (unbox r)\n",
    ),
    (
        2,
        217,
        "(define (f0 x) (+ x 0))\n\
          (define (f1 [x : Int]) : Int (+ x 1))\n\
          (define r : (Ref Dyn) (box 0))\n\
          (repeat (k 0 20) (box-set! r (f0 (unbox r))))\n\
          (repeat (k 0 20) (box-set! r (f1 (unbox r))))\n\
          (print-int (unbox r))\n\
          (unbox r)\n",
    ),
];

#[test]
fn small_programs_are_written_line_by_line(rt: HostRuntime) {
    for (n, bytes, lines) in SMALL {
        assert!(rt;
            is_text(&rt, rt.alloc(), *n, *bytes, lines.as_bytes()),
            "{n}"
        );
    }
}

// How many forms and casts the program of a number has.
fn counted(rt: &impl Abort, alloc: Global, n: u32) -> (u32, u64) {
    let text = program(rt, alloc, n);
    assert!(rt; text.len() <= 262144);
    let done = elaborate_text(alloc, text.as_slice()).expect(rt, "a program");
    (done.program.forms, done.elab.casts.len())
}

// The program of n has 2n + 3 forms and 2n + 2 casts.
const COUNTS: &[(u32, u32, u64)] = &[
    (1, 5, 4),
    (2, 7, 6),
    (3, 9, 8),
    (10, 23, 22),
    (11, 25, 24),
    (100, 203, 202),
    (101, 205, 204),
    (200, 403, 402),
];

#[test]
fn programs_are_elaborated(rt: HostRuntime) {
    for (n, forms, casts) in COUNTS {
        assert!(rt; counted(&rt, rt.alloc(), *n) == (*forms, *casts), "{n}");
    }
}
