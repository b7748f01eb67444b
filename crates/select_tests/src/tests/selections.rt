// The code of small programs.

use crate::tests::programs::{End, Op, Proc, alone, of_two_words, program_of, step};
use low_ir::code::LowSource::{Number, Word};
use low_ir::code::{LowCode, WordOp};
use low_ir::programs::LowProgram;
use machine_words::conditions::Cond;
use rv_select::code::{VReg, VirtualCode, VirtualItem};
use rv_select::selection::select;
use std::alloc::Global;
use std::process::Abort;

// Items in tables are numbers, since no constant can hold a register of the machine: the kind of an item, and what
// stands in it. A register of the machine has its number, and a virtual one this and its number.
const VIRTUAL: u64 = 1_000_000;

const W0: u64 = VIRTUAL;

const W1: u64 = VIRTUAL + 1;

const W2: u64 = VIRTUAL + 2;

const W3: u64 = VIRTUAL + 3;

const X0: u64 = 0;

const X5: u64 = 5;

const X6: u64 = 6;

const X7: u64 = 7;

const X10: u64 = 10;

const X11: u64 = 11;

const X17: u64 = 17;

const X26: u64 = 26;

const X27: u64 = 27;

const ADD: u64 = WordOp::Add as u64;

const SUB: u64 = WordOp::Sub as u64;

const SLL: u64 = WordOp::Sll as u64;

const SRL: u64 = WordOp::Srl as u64;

const LT: u64 = Cond::Lt as u64;

const LTU: u64 = Cond::Ltu as u64;

const CONSTANT: u64 = 0;

const MOVE: u64 = 1;

const COMPUTE: u64 = 2;

const COMPUTE_WITH: u64 = 3;

const LOAD: u64 = 4;

const STORE: u64 = 5;

const CODE_OF: u64 = 6;

const MARK: u64 = 7;

const PROCEDURE: u64 = 8;

const JUMP: u64 = 9;

const BRANCH: u64 = 10;

const CALL: u64 = 11;

const CALL_AT: u64 = 12;

const TAIL_CALL: u64 = 13;

const TAIL_CALL_AT: u64 = 14;

const RETURN: u64 = 15;

const ENVIRONMENT: u64 = 16;

// The number of a register in tables.
fn told(register: VReg) -> u64 {
    match register {
        VReg::Real(real) => real.index() as u64,
        VReg::Virtual(number) => VIRTUAL + u64::from(number),
    }
}

// The numbers of an item in tables, with 0 where it has fewer.
fn numbers(item: VirtualItem) -> [u64; 5] {
    match item {
        VirtualItem::Constant(d, n) => [CONSTANT, told(d), n, 0, 0],
        VirtualItem::Move(d, a) => [MOVE, told(d), told(a), 0, 0],
        VirtualItem::Compute(op, d, a, b) => [COMPUTE, op as u64, told(d), told(a), told(b)],
        VirtualItem::ComputeWith(op, d, a, n) => {
            [COMPUTE_WITH, op as u64, told(d), told(a), n.into()]
        }
        VirtualItem::Load(d, a, offset) => [LOAD, told(d), told(a), offset.into(), 0],
        VirtualItem::Store(a, b, offset) => [STORE, told(a), told(b), offset.into(), 0],
        VirtualItem::CodeOf(d, k) => [CODE_OF, told(d), k.into(), 0, 0],
        VirtualItem::Mark(mark) => [MARK, mark.into(), 0, 0, 0],
        VirtualItem::Procedure(k, from, count) => {
            [PROCEDURE, k.into(), from.into(), count.into(), 0]
        }
        VirtualItem::Jump(mark) => [JUMP, mark.into(), 0, 0, 0],
        VirtualItem::Branch(cond, a, b, mark) => {
            [BRANCH, cond as u64, told(a), told(b), mark.into()]
        }
        VirtualItem::Call(k, count) => [CALL, k.into(), count.into(), 0, 0],
        VirtualItem::CallAt(a, count) => [CALL_AT, told(a), count.into(), 0, 0],
        VirtualItem::TailCall(k, count) => [TAIL_CALL, k.into(), count.into(), 0, 0],
        VirtualItem::TailCallAt(a, count) => [TAIL_CALL_AT, told(a), count.into(), 0, 0],
        VirtualItem::Return => [RETURN, 0, 0, 0, 0],
        VirtualItem::Environment => [ENVIRONMENT, 0, 0, 0, 0],
    }
}

// Whether these items stand from a place on.
fn stand_at(items: &[VirtualItem], place: usize, wanted: &[[u64; 5]]) -> bool {
    for (i, row) in wanted.iter().enumerate() {
        match items.get(place.saturating_add(i)) {
            Some(item) if numbers(*item) == *row => {}
            _ => return false,
        }
    }
    true
}

// A program, of how many registers and how many items its code is, and some of these items, which stand from a place
// on.
struct Selection {
    program: &'static [Proc],
    registers: u32,
    count: usize,
    place: usize,
    items: &'static [[u64; 5]],
}

macro_rules! selection {
    ($program:expr, $registers:literal registers, $count:literal items, from $place:literal: $items:expr) => {
        Selection {
            program: $program,
            registers: $registers,
            count: $count,
            place: $place,
            items: $items,
        }
    };
}

// The code that is selected for a program, which is closed.
fn selected(rt: &impl Abort, alloc: Global, low: LowProgram) -> VirtualCode {
    assert!(rt; low.is_closed(), "the program is not closed");
    select(alloc, &low).expect(rt, "memory")
}

// Whether the code of a program is as its row says.
fn is_so(rt: &impl Abort, alloc: Global, row: &Selection) -> bool {
    let code = selected(rt, alloc, program_of(rt, alloc, row.program));
    let items = code.items.as_slice();
    (code.registers, items.len()) == (row.registers, row.count)
        && stand_at(items, row.place, row.items)
}

// The code of each program is as its row says.
fn all_are_so(rt: &impl Abort, alloc: Global, rows: &[Selection]) {
    for (place, row) in rows.iter().enumerate() {
        assert!(rt; is_so(rt, alloc, row), "row {place}");
    }
}

// A program that answers a number.
const ANSWERS: &[Proc] = of_two_words!(&[], End::Return(Number(42)));

// A word is set in both branches.
const BRANCHES: &[Proc] = of_two_words!(
    &[Op::SetEither(
        Cond::Lt,
        [Number(7), Number(0)],
        (0, Number(1)),
        (0, Number(2)),
    )],
    End::Return(Word(0))
);

// An object of two words.
const BUILDS: &[Proc] = of_two_words!(
    &[Op::Build(1, &[Number(9), Number(0)])],
    End::Return(Word(1))
);

// Two procedures: the second takes two words, and calls itself with their difference in place of the first.
const TWO: &[Proc] = &[
    Proc {
        params: 0,
        words: 1,
        steps: &[Op::Call(0, 1, &[Number(5), Number(3)])],
        end: End::Return(Word(0)),
    },
    Proc {
        params: 2,
        words: 3,
        steps: &[Op::Compute(WordOp::Sub, 2, Word(0), Number(1))],
        end: End::TailCall(1, &[Word(2), Word(1)]),
    },
];

// Each kind of code that no other program has, and an end in a call by address.
const OTHER_KINDS: &[Proc] = of_two_words!(
    &[
        Op::Compute(WordOp::Sll, 0, Number(3), Number(4)),
        Op::Load(1, Number(65536), 8),
        Op::Request(0, Number(300)),
        Op::Store(Word(1), Word(0), 16),
        Op::Take(Number(300)),
        Op::Environment(1, Word(1), Number(0), 0, 1),
        Op::CodeOf(0, 0),
        Op::CallAt(1, Word(0), &[]),
    ],
    End::TailCallAt(Word(0), &[])
);

// The first row has all items of its program; a lone procedure's own stand behind the six of the start and the mark of
// the procedure, and before the six that stand at its end for want of room. A branch has two marks. An object is
// written before the allocation word moves. Words are handed on from x10 on.
const SELECTIONS: &[Selection] = &[
    selection!(ANSWERS, 2 registers, 15 items, from 0: &[
        [CALL, 0, 0, 0, 0],
        [MOVE, X11, X10, 0, 0],
        [CONSTANT, X10, 0, 0, 0],
        [CONSTANT, X17, 0, 0, 0],
        [ENVIRONMENT, 0, 0, 0, 0],
        [RETURN, 0, 0, 0, 0],
        [PROCEDURE, 0, 0, 2, 0],
        [CONSTANT, X10, 42, 0, 0],
        [RETURN, 0, 0, 0, 0],
        [MARK, 1, 0, 0, 0],
        [CONSTANT, X10, 0, 0, 0],
        [CONSTANT, X11, 0, 0, 0],
        [CONSTANT, X17, 5, 0, 0],
        [ENVIRONMENT, 0, 0, 0, 0],
        [JUMP, 1, 0, 0, 0],
    ]),
    selection!(BRANCHES, 2 registers, 22 items, from 7: &[
        [CONSTANT, X5, 7, 0, 0],
        [BRANCH, LT, X5, X0, 2],
        [CONSTANT, W0, 2, 0, 0],
        [JUMP, 3, 0, 0, 0],
        [MARK, 2, 0, 0, 0],
        [CONSTANT, W0, 1, 0, 0],
        [MARK, 3, 0, 0, 0],
        [MOVE, X10, W0, 0, 0],
        [RETURN, 0, 0, 0, 0],
    ]),
    selection!(BUILDS, 2 registers, 23 items, from 7: &[
        [COMPUTE, SUB, X5, X27, X26],
        [CONSTANT, X6, 16, 0, 0],
        [BRANCH, LTU, X5, X6, 1],
        [CONSTANT, X5, 9, 0, 0],
        [STORE, X5, X26, 0, 0],
        [STORE, X0, X26, 8, 0],
        [MOVE, W1, X26, 0, 0],
        [COMPUTE, ADD, X26, X26, X6],
        [MOVE, X10, W1, 0, 0],
        [RETURN, 0, 0, 0, 0],
    ]),
    selection!(TWO, 4 registers, 32 items, from 6: &[
        [PROCEDURE, 0, 0, 1, 0],
        [CONSTANT, X10, 5, 0, 0],
        [CONSTANT, X11, 3, 0, 0],
        [CALL, 1, 2, 0, 0],
        [MOVE, W0, X10, 0, 0],
        [MOVE, X10, W0, 0, 0],
        [RETURN, 0, 0, 0, 0],
    ]),
    selection!(TWO, 4 registers, 32 items, from 19: &[
        [PROCEDURE, 1, 1, 3, 0],
        [MOVE, W1, X10, 0, 0],
        [MOVE, W2, X11, 0, 0],
        [COMPUTE_WITH, SUB, W3, W1, 1],
        [MOVE, X10, W3, 0, 0],
        [MOVE, X11, W2, 0, 0],
        [TAIL_CALL, 1, 2, 0, 0],
    ]),
    selection!(OTHER_KINDS, 2 registers, 36 items, from 7: &[
        [CONSTANT, X5, 3, 0, 0],
        [COMPUTE_WITH, SLL, W0, X5, 4],
        [CONSTANT, X5, 65536, 0, 0],
        [LOAD, W1, X5, 8, 0],
        [CONSTANT, X7, 300, 0, 0],
        [COMPUTE, SUB, X5, X27, X26],
        [COMPUTE_WITH, SRL, X5, X5, 3],
        [BRANCH, LTU, X5, X7, 1],
        [MOVE, W0, X26, 0, 0],
        [STORE, W1, W0, 16, 0],
        [CONSTANT, X7, 300, 0, 0],
        [COMPUTE_WITH, SLL, X5, X7, 3],
        [COMPUTE, ADD, X26, X26, X5],
        [MOVE, X10, W1, 0, 0],
        [CONSTANT, X11, 0, 0, 0],
        [CONSTANT, X17, 1, 0, 0],
        [ENVIRONMENT, 0, 0, 0, 0],
        [MOVE, W0, X10, 0, 0],
        [MOVE, W1, X11, 0, 0],
        [CODE_OF, W0, 0, 0, 0],
        [CALL_AT, W0, 0, 0, 0],
        [MOVE, W1, X10, 0, 0],
        [TAIL_CALL_AT, W0, 0, 0, 0],
    ]),
];

#[test]
fn programs_are_selected(rt: HostRuntime) {
    all_are_so(&rt, rt.alloc(), SELECTIONS);
}

// A word is set so many times.
fn long(rt: &impl Abort, alloc: Global, times: u64) -> LowCode {
    let mut code = LowCode::Return(Word(0));
    for n in 0..times {
        code = step(rt, alloc, &Op::Set(0, Number(n)), code);
    }
    code
}

#[test]
fn a_long_code_is_selected_without_recursion(rt: HostRuntime) {
    let low = alone(&rt, rt.alloc(), 2, long(&rt, rt.alloc(), 200_000));
    assert!(rt; selected(&rt, rt.alloc(), low).items.len() == 200_015);
}
