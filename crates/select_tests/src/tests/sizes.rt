// Long code.

use crate::tests::machines::{LABEL, answer, assembled, comes_to};
use crate::tests::programs::{Op, alone, branches, repeated, steps};
use low_ir::code::LowSource::{Number, Word};
use low_ir::code::{LowCode, WordOp};
use low_ir::programs::LowProgram;
use machine_words::conditions::Cond;
use rv_emulator::stops::Stop;
use std::alloc::Global;
use std::process::Abort;

// What is repeated.
const OPERATION: Op = Op::Compute(WordOp::Add, 0, Word(0), Word(1));

// Two words.
const WORDS: &[Op] = &[Op::Set(0, Number(5)), Op::Set(1, Number(1))];

// The two words, where the condition holds of 1 and 1 two thousand operations on them, and the first.
fn branching(rt: &impl Abort, alloc: Global, cond: Cond) -> LowProgram {
    let one = repeated(rt, alloc, &OPERATION, 2000, LowCode::Done);
    let compared = [Word(1), Number(1)];
    let rest = LowCode::Return(Word(0));
    let code = branches(rt, alloc, cond, compared, one, LowCode::Done, rest);
    alone(rt, alloc, 2, steps(rt, alloc, WORDS, code))
}

const BRANCHES: &[(Cond, Stop)] = &[(Cond::Eq, answer!(2005)), (Cond::Ne, answer!(5))];

#[test]
fn a_branch_over_many_bytes(rt: HostRuntime) {
    for (cond, stop) in BRANCHES {
        let low = branching(&rt, rt.alloc(), *cond);
        assert!(rt; comes_to(&rt, rt.alloc(), low, &[LABEL], (0, 64)) == *stop);
    }
}

// The two words, and so many operations on them.
fn operating(rt: &impl Abort, alloc: Global, count: u64) -> LowProgram {
    let code = repeated(rt, alloc, &OPERATION, count, LowCode::Return(Word(0)));
    alone(rt, alloc, 2, steps(rt, alloc, WORDS, code))
}

// How many bytes its image has.
fn bytes_of(rt: &impl Abort, alloc: Global, count: u64) -> u64 {
    let image = assembled(rt, alloc, operating(rt, alloc, count), &[LABEL]);
    image.bytes().len() as u64
}

// One sum of two real registers for each operation.
#[test]
fn code_is_linear(rt: HostRuntime) {
    let few = bytes_of(&rt, rt.alloc(), 1000);
    let many = bytes_of(&rt, rt.alloc(), 100_000);
    assert!(rt; many == few.saturating_add(4 * 99_000), "{few} {many}");
}
