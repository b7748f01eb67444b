// Long runs, wide terms, and what runs print.

use crate::tests::steps::rows::{Row, each_holds};
use crate::tests::steps::samples::{F, X, comes_to, prints};
use crate::tests::steps::terms::{Part, made_of, term_of};
use core_calc::ends::Stepped;
use core_calc::terms::{Core, CoreList};
use grift_base::operators::PrimOp;
use grift_base::verdicts::{Answer, AnswerKind};
use std::alloc::Global;
use std::process::Abort;

fn int(word: i64) -> Stepped {
    Stepped::Answer(Answer {
        kind: AnswerKind::Int,
        word,
    })
}

// A function F that calls itself with less by one, down to 0, where it answers 7; its body is a call with n.
fn counting(rt: &impl Abort, alloc: Global, n: i64) -> Core {
    let parts = [
        Part::Var(X),
        Part::Int(0),
        Part::Prim(PrimOp::Eq, 2),
        Part::Int(7),
        Part::Var(F),
        Part::Var(X),
        Part::Int(1),
        Part::Prim(PrimOp::Sub, 2),
        Part::Call,
        Part::If,
        Part::Var(F),
        Part::Int(n),
        Part::Call,
        Part::Group(F),
    ];
    term_of(rt, alloc, &parts)
}

// A number of calls, the step before the last, and the last one: five for each call but the last, which takes four, and
// one for the group.
struct Counted(i64, u64, u64);

impl Row for Counted {
    fn holds(&self, rt: &impl Abort, alloc: Global) -> bool {
        let core = counting(rt, alloc, self.0);
        comes_to(rt, alloc, &core, self.1, Stepped::More)
            && comes_to(rt, alloc, &core, self.2, int(7))
    }
}

const COUNTED: &[Counted] = &[
    Counted(0, 4, 5),
    Counted(3, 19, 20),
    Counted(19_999, 99_999, 100_000),
];

#[test]
fn loops_run_by_steps(rt: HostRuntime) {
    each_holds(&rt, rt.alloc(), COUNTED);
}

// The name X 100,000 times.
fn names(rt: &impl Abort, alloc: Global) -> CoreList {
    let mut terms = CoreList::new();
    for _ in 0..100_000 {
        terms.push_front(alloc, Core::Var(X)).expect(rt, "memory");
    }
    terms
}

// Puts 1, and a sequence of these names.
fn put_wide(rt: &impl Abort, alloc: Global, made: &mut Vec<Core>) {
    made.push(Core::Int(1)).expect(rt, "memory");
    made.push(Core::Seq(names(rt, alloc))).expect(rt, "memory");
}

// The sequence, in which X is 1.
fn wide(rt: &impl Abort, alloc: Global) -> Core {
    let mut made = Vec::new(alloc);
    put_wide(rt, alloc, &mut made);
    made_of(rt, alloc, &mut made, Part::Let(X))
}

// Whether it runs to its end in one step more than it has terms.
fn wide_runs(rt: &impl Abort, alloc: Global) -> bool {
    let core = wide(rt, alloc);
    comes_to(rt, alloc, &core, 100_000, Stepped::More)
        && comes_to(rt, alloc, &core, 100_001, int(1))
}

// A name that is put into 100,000 places by one step, and a sequence of as many terms.
#[test]
fn wide_terms_run(rt: HostRuntime) {
    assert!(rt; wide_runs(&rt, rt.alloc()));
}

// Prints the number that is read, and a new line.
const PRINTING: &[Part] = &[
    Part::Prim(PrimOp::ReadInt, 0),
    Part::Prim(PrimOp::PrintInt, 1),
    Part::Prim(PrimOp::Newline, 0),
    Part::Int(7),
    Part::Seq(3),
];

// A number of steps, and what is printed then.
struct Printed(u64, &'static [u8]);

impl Row for Printed {
    fn holds(&self, rt: &impl Abort, alloc: Global) -> bool {
        let core = term_of(rt, alloc, PRINTING);
        prints(rt, alloc, &core, b" -42 ", self.0, self.1)
    }
}

const PRINTED: &[Printed] = &[
    Printed(1, b""),
    Printed(2, b"-42"),
    Printed(4, b"-42\n"),
    Printed(9, b"-42\n"),
];

#[test]
fn sequences_print_in_order(rt: HostRuntime) {
    each_holds(&rt, rt.alloc(), PRINTED);
}
