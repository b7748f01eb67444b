// Texts that are read, parsed and elaborated: the type of a program and how many casts it has, or its first refusal.

use front_end::{Elaborated, elaborate_text};
use grift_base::places::{LabelId, Pos, TypeId};
use grift_base::refusals::{FrontFault, Refusal};
use insert_steps::casts::CastEntry;
use std::alloc::Global;
use std::fmt::Write;
use std::process::Abort;
use type_graph::texts::show_type;

// What is shown of a refusal.
fn refusal_shown(rt: &impl Abort, alloc: Global, refusal: Refusal) -> String {
    let kind = refusal.kind.text();
    let line = refusal.pos.line;
    let col = refusal.pos.col;
    let mut out = String::new(alloc);
    write!(out, "refused {kind} {line}:{col}").expect(rt, "memory");
    out
}

// A program's type, and how many casts and parts it has.
fn elaborated_shown(rt: &impl Abort, alloc: Global, done: &Elaborated) -> String {
    assert!(rt; done.elab.ty.0 < done.types.len());
    let casts = done.elab.casts.len();
    let ty = show_type(alloc, &done.types, done.elab.ty).expect(rt, "memory");
    let ty = str::from_utf8(ty.as_slice()).expect(rt, "a text");
    let mut out = String::new(alloc);
    write!(out, "{ty}, {casts}").expect(rt, "memory");
    out
}

// What a text comes to.
fn outcome(rt: &impl Abort, alloc: Global, text: &[u8]) -> String {
    assert!(rt; text.len() <= 262144);
    match elaborate_text(alloc, text) {
        Ok(done) => elaborated_shown(rt, alloc, &done),
        Err(FrontFault::Refused(refusal)) => refusal_shown(rt, alloc, refusal),
        Err(FrontFault::OutOfMemory) => panic!(rt; "no memory"),
    }
}

// Whether a text comes to this.
fn comes_to(rt: &impl Abort, alloc: Global, text: &[u8], expected: &str) -> bool {
    outcome(rt, alloc, text).as_str() == expected
}

// Each text comes to what its row says.
fn come_to(rt: &impl Abort, alloc: Global, rows: &[(&str, &str)]) {
    for (text, expected) in rows {
        assert!(rt; comes_to(rt, alloc, text.as_bytes(), expected), "{text}");
    }
}

const REFUSED: &[(&str, &str)] = &[
    ("x", "refused unbound 1:1"),
    ("(if 1 2 3)", "refused not-consistent 1:5"),
    ("(if #t 1 #f)", "refused not-consistent 1:1"),
    ("(1 2)", "refused not-function 1:2"),
    ("((lambda (x) x) 1 2)", "refused wrong-count 1:1"),
    ("(tuple-proj 5 0)", "refused not-tuple 1:13"),
    ("(tuple-proj (tuple 1 2) 2)", "refused no-such-part 1:25"),
    ("(unbox 5)", "refused not-ref 1:8"),
    ("(vector-length 5)", "refused not-vector 1:16"),
    (
        "(define a (tuple 1 1 1 1 1 1 1 1))\n(define b (tuple a a a a a a a a))\n\
          (define c (tuple b b b b b b b b))\n(define d (tuple c c c c c c c c))",
        "refused type-too-large 4:11",
    ),
];

#[test]
fn refusals_have_kinds_and_places(rt: HostRuntime) {
    come_to(&rt, rt.alloc(), REFUSED);
}

const WITHOUT_CASTS: &[(&str, &str)] = &[
    ("1", "Int, 0"),
    ("(read-int)", "Int, 0"),
    ("()", "Unit, 0"),
    ("(lambda (x) x)", "(Dyn -> Dyn), 0"),
    (
        "(lambda () (lambda ([x : Int]) #t))",
        "(-> (Int -> Bool)), 0",
    ),
    ("(tuple 1 #t)", "(Tuple Int Bool), 0"),
    ("(box 1)", "(Ref Int), 0"),
    ("(make-vector 3 (newline))", "(Vect Unit), 0"),
    ("(vector-ref (make-vector 3 0) 1)", "Int, 0"),
    ("(repeat (i 0 5) (s : Int 0) (+ s i))", "Int, 0"),
];

#[test]
fn programs_without_casts_have_types(rt: HostRuntime) {
    come_to(&rt, rt.alloc(), WITHOUT_CASTS);
}

const WITH_CASTS: &[(&str, &str)] = &[
    ("(: (: #t Dyn) Int)", "Int, 2"),
    ("(if (: #f Dyn) 1 (: 2 Dyn))", "Dyn, 4"),
    ("(+ (: 1 Dyn) 2)", "Int, 2"),
    ("((: (lambda () 1) Dyn) 5)", "Dyn, 2"),
    ("(tuple-proj (: (tuple 1 #t) Dyn) 0)", "Dyn, 2"),
    ("(unbox (: (box 1) Dyn))", "Dyn, 2"),
    (
        "(letrec ([f : (Int -> Int) (lambda (x) x)]) (f 1))",
        "Int, 1",
    ),
    ("(define (f x) x) (f 1)", "Dyn, 1"),
    ("(let ([x : Dyn 1]) x)", "Dyn, 1"),
    ("(lambda ([x : Int]) : Dyn x)", "(Int -> Dyn), 1"),
    ("(box-set! (box (: 1 Dyn)) 2)", "Unit, 2"),
];

#[test]
fn casts_stand_where_types_differ(rt: HostRuntime) {
    come_to(&rt, rt.alloc(), WITH_CASTS);
}

const ENTRIES: &[CastEntry] = &[
    CastEntry::Cast {
        label: LabelId(0),
        from: TypeId(0),
        to: TypeId(1),
        inside: None,
    },
    CastEntry::Cast {
        label: LabelId(1),
        from: TypeId(1),
        to: TypeId(2),
        inside: Some(0),
    },
];

const PLACES: &[Pos] = &[Pos { line: 1, col: 4 }, Pos { line: 1, col: 1 }];

// Whether a program is of the third type, and has these casts at these places.
fn is_in_order(done: &Elaborated) -> bool {
    done.elab.ty == TypeId(2)
        && done.elab.labels.as_slice() == PLACES
        && done.elab.casts.as_slice() == ENTRIES
}

#[test]
fn casts_stand_in_the_order_in_which_they_are_formed(rt: HostRuntime) {
    let done = elaborate_text(rt.alloc(), b"(: (: #t Dyn) Int)").expect(&rt, "a program");
    assert!(rt; is_in_order(&done));
}
