// Terms, and what their runs have come to after some steps.

use crate::tests::steps::rows::{Row, each_holds};
use crate::tests::steps::samples::{
    BOOL, DYN, DYN_TO_INT, F, INT, INT_TO_INT, P, PAIR, PAIR_OF_DYN, Q, REF_DYN, REF_INT, VECT_DYN,
    VECT_INT, X, comes_to,
};
use crate::tests::steps::terms::{Part, term_of};
use core_calc::ends::Stepped;
use grift_base::operators::PrimOp;
use grift_base::places::LabelId;
use grift_base::verdicts::{Answer, AnswerKind, Trap};
use std::alloc::Global;
use std::process::Abort;

// What a run has come to.
#[derive(Clone, Copy)]
enum End {
    More,
    Int(i64),
    Answer(AnswerKind, i64),
    Blame(LabelId),
    Trap(Trap),
}

impl End {
    fn stepped(self) -> Stepped {
        match self {
            End::More => Stepped::More,
            End::Int(word) => Stepped::Answer(Answer {
                kind: AnswerKind::Int,
                word,
            }),
            End::Answer(kind, word) => Stepped::Answer(Answer { kind, word }),
            End::Blame(label) => Stepped::Blame(label),
            End::Trap(trap) => Stepped::Trap(trap),
        }
    }
}

// The parts of a term, a number of steps, and what stands then.
struct Run(&'static [Part], u64, End);

impl Row for Run {
    fn holds(&self, rt: &impl Abort, alloc: Global) -> bool {
        let core = term_of(rt, alloc, self.0);
        comes_to(rt, alloc, &core, self.1, self.2.stepped())
    }
}

// Values take no step. A sum takes one.
const SUMS: &[Run] = &[
    Run(&[Part::Int(42)], 0, End::Int(42)),
    Run(&[Part::Bool(true)], 0, End::Answer(AnswerKind::Bool, 1)),
    Run(&[Part::Unit], 3, End::Answer(AnswerKind::Unit, 0)),
    Run(&[Part::Vector(0)], 0, End::Answer(AnswerKind::Vector, 0)),
    Run(
        &[Part::Int(1), Part::Int(2), Part::Prim(PrimOp::Add, 2)],
        0,
        End::More,
    ),
    Run(
        &[Part::Int(1), Part::Int(2), Part::Prim(PrimOp::Add, 2)],
        1,
        End::Int(3),
    ),
    Run(
        &[Part::Int(1), Part::Int(0), Part::Prim(PrimOp::Quot, 2)],
        1,
        End::Trap(Trap::ZeroDivisor),
    ),
    Run(
        &[
            Part::Int(i64::MIN),
            Part::Int(-1),
            Part::Prim(PrimOp::Quot, 2),
        ],
        1,
        End::Int(i64::MIN),
    ),
    Run(
        &[Part::Int(-7), Part::Int(2), Part::Prim(PrimOp::Rem, 2)],
        1,
        End::Int(-1),
    ),
    Run(
        &[Part::Int(1), Part::Int(2), Part::Prim(PrimOp::Lt, 2)],
        1,
        End::Answer(AnswerKind::Bool, 1),
    ),
];

#[test]
fn runs_come_to_their_ends(rt: HostRuntime) {
    each_holds(&rt, rt.alloc(), SUMS);
}

// A choice, a sequence, a function, and names that are bound again.
const FORMS: &[Run] = &[
    Run(
        &[Part::Bool(true), Part::Int(1), Part::Int(2), Part::If],
        1,
        End::Int(1),
    ),
    Run(
        &[Part::Bool(false), Part::Int(1), Part::Int(2), Part::If],
        1,
        End::Int(2),
    ),
    Run(&[Part::Unit, Part::Int(5), Part::Seq(2)], 2, End::Int(5)),
    Run(
        &[Part::Var(X), Part::Lambda],
        1,
        End::Answer(AnswerKind::Function, 0),
    ),
    Run(
        &[
            Part::Int(1),
            Part::Int(2),
            Part::Var(X),
            Part::Let(X),
            Part::Let(X),
        ],
        2,
        End::Int(2),
    ),
    Run(
        &[
            Part::Var(X),
            Part::Int(3),
            Part::Var(F),
            Part::Let(F),
            Part::Group(F),
        ],
        2,
        End::Int(3),
    ),
    Run(
        &[
            Part::Int(1),
            Part::Var(X),
            Part::Var(F),
            Part::Int(4),
            Part::Call,
            Part::Group(F),
            Part::Let(F),
        ],
        4,
        End::Int(4),
    ),
];

#[test]
fn other_forms_run(rt: HostRuntime) {
    each_holds(&rt, rt.alloc(), FORMS);
}

// A truth value that is cast into Dyn and out of it to Int.
const CAST_TWICE: &[Part] = &[
    Part::Bool(true),
    Part::Cast(BOOL, DYN, Q),
    Part::Cast(DYN, INT, P),
];

// The cast in takes a step, the cast out two.
const CASTS: &[Run] = &[
    Run(CAST_TWICE, 2, End::More),
    Run(CAST_TWICE, 3, End::Blame(P)),
    Run(CAST_TWICE, 9, End::Blame(P)),
];

#[test]
fn casts_blame(rt: HostRuntime) {
    each_holds(&rt, rt.alloc(), CASTS);
}

// A function that is wrapped, and called with a value that its type has or has not.
const WRAPPED_FUNCTIONS: &[Run] = &[
    Run(
        &[
            Part::Var(X),
            Part::Lambda,
            Part::Cast(INT_TO_INT, DYN_TO_INT, Q),
            Part::Var(F),
            Part::Bool(true),
            Part::Cast(BOOL, DYN, P),
            Part::Call,
            Part::Let(F),
        ],
        100,
        End::Blame(Q),
    ),
    Run(
        &[
            Part::Var(X),
            Part::Lambda,
            Part::Cast(INT_TO_INT, DYN_TO_INT, Q),
            Part::Var(F),
            Part::Int(5),
            Part::Cast(INT, DYN, P),
            Part::Call,
            Part::Let(F),
        ],
        100,
        End::Int(5),
    ),
];

#[test]
fn wrapped_functions_are_called(rt: HostRuntime) {
    each_holds(&rt, rt.alloc(), WRAPPED_FUNCTIONS);
}

// A box of 1 that is seen as one of Dyn: this is cast to Dyn and written to it, and then the box itself is read.
macro_rules! written_through {
    ($value:expr, $type:expr, $end:expr) => {
        Run(
            &[
                Part::Int(1),
                Part::Prim(PrimOp::MakeBox, 1),
                Part::Var(F),
                Part::Cast(REF_INT, REF_DYN, Q),
                Part::Var(X),
                $value,
                Part::Cast($type, DYN, P),
                Part::Prim(PrimOp::BoxSet, 2),
                Part::Var(F),
                Part::Prim(PrimOp::Unbox, 1),
                Part::Seq(2),
                Part::Let(X),
                Part::Let(F),
            ],
            100,
            $end,
        )
    };
}

// A box that is seen through a wrapper: what is written is cast, and stands in the box then.
const BOXES: &[Run] = &[
    written_through!(Part::Bool(true), BOOL, End::Blame(Q)),
    written_through!(Part::Int(7), INT, End::Int(7)),
];

#[test]
fn boxes_are_seen_through_wrappers(rt: HostRuntime) {
    each_holds(&rt, rt.alloc(), BOXES);
}

// A vector of three 9s, of which the element at a place is read.
macro_rules! element_read {
    ($place:expr, $end:expr) => {
        Run(
            &[
                Part::Int(3),
                Part::Int(9),
                Part::Prim(PrimOp::MakeVector, 2),
                Part::Int($place),
                Part::Prim(PrimOp::VectorRef, 2),
            ],
            2,
            $end,
        )
    };
}

// A vector of 1s that is seen as one of Dyn: a truth value is written to a place of it.
macro_rules! element_written {
    ($place:expr, $end:expr) => {
        Run(
            &[
                Part::Int(3),
                Part::Int(1),
                Part::Prim(PrimOp::MakeVector, 2),
                Part::Cast(VECT_INT, VECT_DYN, Q),
                Part::Var(X),
                Part::Int($place),
                Part::Bool(true),
                Part::Cast(BOOL, DYN, P),
                Part::Prim(PrimOp::VectorSet, 3),
                Part::Let(X),
            ],
            100,
            $end,
        )
    };
}

// A pair in Dyn, of which the part at a place is taken.
macro_rules! part_of_dyn {
    ($place:expr, $end:expr) => {
        Run(
            &[
                Part::Int(1),
                Part::Bool(true),
                Part::Tuple(2),
                Part::Cast(PAIR, DYN, P),
                Part::ProjDyn($place, Q),
            ],
            100,
            $end,
        )
    };
}

// Reads of a vector of three 9s, and vectors that are seen through a wrapper: the index is tested before the written
// value is cast.
const VECTORS: &[Run] = &[
    element_read!(3, End::Trap(Trap::Index)),
    element_read!(-1, End::Trap(Trap::Index)),
    element_read!(2, End::Int(9)),
    Run(
        &[
            Part::Int(-1),
            Part::Int(0),
            Part::Prim(PrimOp::MakeVector, 2),
        ],
        1,
        End::Trap(Trap::Length),
    ),
    element_written!(0, End::Blame(Q)),
    element_written!(3, End::Trap(Trap::Index)),
];

#[test]
fn vectors_are_seen_through_wrappers(rt: HostRuntime) {
    each_holds(&rt, rt.alloc(), VECTORS);
}

// Parts of a pair: bare, through a wrapper, and of Dyn. A sequence of no term does not go on.
const PARTS: &[Run] = &[
    Run(
        &[Part::Int(1), Part::Bool(true), Part::Tuple(2)],
        1,
        End::Answer(AnswerKind::Tuple, 0),
    ),
    Run(
        &[
            Part::Int(1),
            Part::Bool(true),
            Part::Tuple(2),
            Part::Proj(0),
        ],
        2,
        End::Int(1),
    ),
    Run(
        &[
            Part::Int(1),
            Part::Bool(true),
            Part::Tuple(2),
            Part::Cast(PAIR, PAIR_OF_DYN, Q),
            Part::Proj(1),
        ],
        5,
        End::Answer(AnswerKind::Bool, 1),
    ),
    part_of_dyn!(0, End::Int(1)),
    part_of_dyn!(2, End::Blame(Q)),
    Run(&[Part::Seq(0)], 1, End::More),
];

#[test]
fn parts_are_taken(rt: HostRuntime) {
    each_holds(&rt, rt.alloc(), PARTS);
}
