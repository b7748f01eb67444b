// Calls, tail calls and frames.

use crate::tests::machines::{LABEL, Run, all_are_so, answer, comes_to, silent};
use crate::tests::programs::{End, Op, Proc, procedure, program, push, step};
use low_ir::code::LowSource::{Number, Word};
use low_ir::code::{LowCode, WordOp};
use low_ir::programs::{LowProc, LowProcs, LowProgram};
use machine_words::conditions::Cond;
use rv_emulator::stops::Stop;
use std::alloc::Global;
use std::process::Abort;

// Calls procedure 1 in its place with these numbers.
macro_rules! begins_with {
    ($($number:expr),*) => {
        Proc {
            params: 0,
            words: 0,
            steps: &[],
            end: End::TailCall(1, &[$(Number($number)),*]),
        }
    };
}

// Adds the numbers from 1 to a million to the second word of a procedure, counting with its first.
const SUMS: &[Proc] = &[
    begins_with!(0, 0),
    Proc {
        params: 2,
        words: 2,
        steps: &[
            Op::Unless(Cond::Eq, Word(0), Number(1_000_000), Word(1)),
            Op::Compute(WordOp::Add, 0, Word(0), Number(1)),
            Op::Compute(WordOp::Add, 1, Word(1), Word(0)),
        ],
        end: End::TailCall(1, &[Word(0), Word(1)]),
    },
];

// Answers a number where its word is 0, and else calls another procedure in its place with one less.
macro_rules! counts_down {
    ($other:expr, $at_end:expr) => {
        Proc {
            params: 1,
            words: 1,
            steps: &[
                Op::Unless(Cond::Eq, Word(0), Number(0), Number($at_end)),
                Op::Compute(WordOp::Sub, 0, Word(0), Number(1)),
            ],
            end: End::TailCall($other, &[Word(0)]),
        }
    };
}

const A_MILLION_TAIL_CALLS: &[Proc] = &[
    begins_with!(1_000_000),
    counts_down!(2, 1),
    counts_down!(1, 0),
];

// The sum of the numbers to its word, by as many calls, each of which waits for the next.
macro_rules! sums_below {
    () => {
        Proc {
            params: 1,
            words: 2,
            steps: &[
                Op::Unless(Cond::Eq, Word(0), Number(0), Number(0)),
                Op::Set(1, Word(0)),
                Op::Compute(WordOp::Sub, 1, Word(1), Number(1)),
                Op::Call(1, 1, &[Word(1)]),
                Op::Compute(WordOp::Add, 1, Word(1), Word(0)),
            ],
            end: End::Return(Word(1)),
        }
    };
}

// Word 0 takes these words behind it, as digits of sixteen.
macro_rules! digits {
    ($($word:expr),*) => {
        &[$(
            Op::Compute(WordOp::Sll, 0, Word(0), Number(4)),
            Op::Compute(WordOp::Add, 0, Word(0), Word($word)),
        )*]
    };
}

// Its eight words as digits of sixteen.
const EIGHT_WORDS: &[Proc] = &[
    begins_with!(1, 2, 3, 4, 5, 6, 7, 8),
    Proc {
        params: 8,
        words: 8,
        steps: digits!(1, 2, 3, 4, 5, 6, 7),
        end: End::Return(Word(0)),
    },
];

// The first procedure calls the second, whose code address it loads, and answers twice what that answers. The second
// calls the third in its place by its address, with one more than its word.
const BY_ADDRESS: &[Proc] = &[
    Proc {
        params: 0,
        words: 2,
        steps: &[
            Op::CodeOf(0, 1),
            Op::CallAt(1, Word(0), &[Number(20)]),
            Op::Compute(WordOp::Add, 1, Word(1), Word(1)),
        ],
        end: End::Return(Word(1)),
    },
    Proc {
        params: 1,
        words: 2,
        steps: &[
            Op::CodeOf(1, 2),
            Op::Compute(WordOp::Add, 0, Word(0), Number(1)),
        ],
        end: End::TailCallAt(Word(1), &[Word(0)]),
    },
    Proc {
        params: 1,
        words: 1,
        steps: &[],
        end: End::Return(Word(0)),
    },
];

// A million tail calls take a stack of one frame. A frame of the recursion has 16 bytes, for the link and the one word
// that is needed behind the call, and 256 of them fill the stack.
const RUNS: &[Run] = &[
    silent!(SUMS, (0, 32), answer!(500_000_500_000)),
    silent!(A_MILLION_TAIL_CALLS, (0, 8), answer!(1)),
    silent!(A_MILLION_TAIL_CALLS, (0, 0), Stop::StackOut),
    silent!(
        &[begins_with!(255), sums_below!()],
        (0, 4096),
        answer!(32_640)
    ),
    silent!(
        &[begins_with!(256), sums_below!()],
        (0, 4096),
        Stop::StackOut
    ),
    silent!(EIGHT_WORDS, (0, 128), answer!(0x12345678)),
    silent!(BY_ADDRESS, (0, 128), answer!(42)),
];

#[test]
fn procedures_are_called(rt: HostRuntime) {
    all_are_so(&rt, rt.alloc(), RUNS);
}

// The sum of 300 words and of what a call answers. All of them are kept in the frame, since they are needed behind the
// call, the last of them too far from the stack's register for the offset of one instruction.
fn sums_behind_a_call(rt: &impl Abort, alloc: Global) -> LowProc {
    let mut code = LowCode::Return(Word(300));
    for i in 0..300 {
        let add = Op::Compute(WordOp::Add, 300, Word(300), Word(i));
        code = step(rt, alloc, &add, code);
    }
    code = step(rt, alloc, &Op::Call(300, 1, &[]), code);
    for i in 0..300 {
        code = step(rt, alloc, &Op::Set(i, Number(u64::from(i))), code);
    }
    procedure(0, 301, code)
}

// Such a program, whose call answers 7.
fn wide(rt: &impl Abort, alloc: Global) -> LowProgram {
    let mut procs = LowProcs::new(alloc);
    push(rt, &mut procs, Ok(sums_behind_a_call(rt, alloc)));
    push(
        rt,
        &mut procs,
        Ok(procedure(0, 0, LowCode::Return(Number(7)))),
    );
    program(alloc, procs, 0)
}

// It has 2,408 bytes with its link, and the frame of the procedure that is called 8.
const STACKS: &[(u64, Stop)] = &[(2416, answer!(44_857)), (2408, Stop::StackOut)];

#[test]
fn a_frame_of_three_hundred_words(rt: HostRuntime) {
    for (stack, stop) in STACKS {
        let low = wide(&rt, rt.alloc());
        assert!(rt; comes_to(&rt, rt.alloc(), low, &[LABEL], (0, *stack)) == *stop);
    }
}
