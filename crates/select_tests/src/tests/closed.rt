// Programs that are closed, and programs that aren't.

use crate::tests::programs::{
    End, Op, Proc, alone, of_two_words, program_of, repeated, with_arithmetic,
};
use low_ir::code::LowSource::{Number, Word};
use low_ir::code::{LowCode, WordOp};
use low_ir::programs::LowProgram;
use machine_words::conditions::Cond;
use rt_refs::procs::{ARITHMETIC_PROCS, arithmetic_procs};
use std::alloc::Global;
use std::process::Abort;

// Word 0 is set in the one branch and this one in the other; then word 0 is returned.
macro_rules! branches {
    ($other:expr) => {
        of_two_words!(
            &[Op::SetEither(
                Cond::Eq,
                [Number(1), Number(1)],
                (0, Number(1)),
                ($other, Number(2)),
            )],
            End::Return(Word(0))
        )
    };
}

// Words are set before they are read, in both branches of what stands before; calls hand on as many words as are taken;
// code leaves; offsets are small.
const PROGRAMS: &[(&[Proc], bool)] = &[
    (
        of_two_words!(&[Op::Set(1, Number(7))], End::Return(Word(1))),
        true,
    ),
    (
        of_two_words!(&[Op::Set(1, Number(7))], End::Return(Word(0))),
        false,
    ),
    (
        of_two_words!(&[Op::Set(2, Number(7))], End::Return(Word(2))),
        false,
    ),
    (branches!(0), true),
    (branches!(1), false),
    (of_two_words!(&[], End::TailCall(0, &[])), true),
    (of_two_words!(&[], End::TailCall(1, &[])), false),
    (of_two_words!(&[], End::TailCall(0, &[Number(3)])), false),
    (of_two_words!(&[], End::Done), false),
    (
        of_two_words!(&[Op::Load(1, Number(65536), 2040)], End::Return(Word(1))),
        true,
    ),
    (
        of_two_words!(&[Op::Load(1, Number(65536), 2048)], End::Return(Word(1))),
        false,
    ),
];

// Whether a program is closed, which is taken, so that no caller keeps it.
fn is_closed(low: LowProgram) -> bool {
    low.is_closed()
}

// Each program is closed where its row says so.
fn all_are_so(rt: &impl Abort, alloc: Global, rows: &[(&'static [Proc], bool)]) {
    for (place, (program, closed)) in rows.iter().enumerate() {
        let low = program_of(rt, alloc, program);
        assert!(rt; is_closed(low) == *closed, "row {place}");
    }
}

#[test]
fn words_and_procedures_are_there(rt: HostRuntime) {
    all_are_so(&rt, rt.alloc(), PROGRAMS);
}

// 200,000 sums, one after another, are longer than the process's stack is deep.
#[test]
fn a_long_program_is_closed(rt: HostRuntime) {
    let sum = Op::Compute(WordOp::Add, 1, Number(1), Number(2));
    let code = repeated(&rt, rt.alloc(), &sum, 200_000, LowCode::Return(Word(1)));
    let low = alone(&rt, rt.alloc(), 2, code);
    assert!(rt; is_closed(low));
}

// Calls the procedure of products, of number 2 among the four that stand before it, in its place.
const MULTIPLIES: &[Proc] = &[Proc {
    params: 0,
    words: 0,
    steps: &[],
    end: End::TailCall(2, &[Number(6), Number(7)]),
}];

#[test]
fn a_program_with_the_procedures_of_arithmetic_is_closed(rt: HostRuntime) {
    let procs = arithmetic_procs(rt.alloc(), 0).expect(&rt, "memory");
    assert!(rt; procs.len() == ARITHMETIC_PROCS as u64);
    let low = with_arithmetic(&rt, rt.alloc(), MULTIPLIES);
    assert!(rt; is_closed(low));
}
