// Products, quotients and remainders against the host's arithmetic.

use crate::tests::machines::{LABEL, answer, comes_to};
use crate::tests::programs::{
    End, Op, Proc, branches, procedure, push, sources, steps, with_arithmetic,
};
use grift_base::verdicts::Trap;
use grift_base::words::WordList;
use low_ir::code::LowSource::{Number, Word};
use low_ir::code::{LowCode, WordOp};
use low_ir::programs::{LowProc, LowProgram};
use machine_words::conditions::Cond;
use rv_emulator::stops::Stop;
use std::alloc::Global;
use std::process::Abort;

// Words near which arithmetic has its edges.
const CORNERS: [u64; 30] = [
    0,
    1,
    2,
    3,
    5,
    7,
    10,
    63,
    64,
    65,
    255,
    256,
    0x7FFF_FFFF,
    0x8000_0000,
    0xFFFF_FFFF,
    0x1_0000_0000,
    0x1_0000_0001,
    0x5555_5555_5555_5555,
    0xAAAA_AAAA_AAAA_AAAA,
    0x3FFF_FFFF_FFFF_FFFF,
    0x4000_0000_0000_0000,
    0x7FFF_FFFF_FFFF_FFFE,
    0x7FFF_FFFF_FFFF_FFFF,
    0x8000_0000_0000_0000,
    0x8000_0000_0000_0001,
    0xFFFF_FFFF_0000_0000,
    0xFFFF_FFFF_FFFF_FFF6,
    0xFFFF_FFFF_FFFF_FFFD,
    0xFFFF_FFFF_FFFF_FFFE,
    0xFFFF_FFFF_FFFF_FFFF,
];

// Two words with their product, quotient and remainder, which are 0 where the second is 0.
fn push_row(rt: &impl Abort, rows: &mut WordList, a: u64, b: u64) {
    let dividend = a.cast_signed();
    let divisor = b.cast_signed();
    let (mut quotient, mut remainder) = (0, 0);
    if divisor != 0 {
        quotient = dividend.wrapping_div(divisor).cast_unsigned();
        remainder = dividend.wrapping_rem(divisor).cast_unsigned();
    }
    let row = [a, b, a.wrapping_mul(b), quotient, remainder];
    rows.extend(&row).expect(rt, "memory");
}

// All pairs of corners.
fn pairs_of_corners(rt: &impl Abort, alloc: Global) -> WordList {
    let mut rows = WordList::new(alloc);
    for a in &CORNERS {
        for b in &CORNERS {
            push_row(rt, &mut rows, *a, *b);
        }
    }
    rows
}

// A word of up to 64 bits, fewer by a count, from the state of a generator.
fn random_word(state: u64, fewer: u64) -> u64 {
    (state ^ (state >> 29)) >> (fewer % 64)
}

// The next state of the generator.
fn next_state(state: u64) -> u64 {
    state
        .wrapping_mul(6_364_136_223_846_793_005)
        .wrapping_add(1_442_695_040_888_963_407)
}

// Pairs of random words of all lengths, where every other one has the sign turned.
fn random_pairs(rt: &impl Abort, alloc: Global, count: u64) -> WordList {
    let mut rows = WordList::new(alloc);
    let mut state = 20_261_127;
    for i in 0..count {
        let mut a = random_word(state, i);
        state = next_state(state);
        let b = random_word(state, i / 64);
        state = next_state(state);
        if i % 2 == 1 {
            a = a.wrapping_neg();
        }
        push_row(rt, &mut rows, a, b);
    }
    rows
}

// Looks at the rows from the address in word 0 to that in word 1, each of 40 bytes. Word 4 is set to what a procedure
// answers to the first two words of a row, and compared with another of its words: where they differ the row's address
// is answered. Here are the products, which procedure 2 makes.
const PRODUCTS: &[Op] = &[
    Op::Unless(Cond::Eq, Word(0), Word(1), Number(0)),
    Op::Load(2, Word(0), 0),
    Op::Load(3, Word(0), 8),
    Op::Call(4, 2, &[Word(2), Word(3)]),
    Op::Load(5, Word(0), 16),
    Op::Unless(Cond::Ne, Word(4), Word(5), Word(0)),
];

// Quotients and remainders are looked at where the divisor isn't 0. Procedure 3 makes both.
const QUOTIENTS: &[Op] = &[
    Op::Call(4, 3, &[Word(2), Word(3), Number(0)]),
    Op::Load(5, Word(0), 24),
    Op::Unless(Cond::Ne, Word(4), Word(5), Word(0)),
    Op::Call(4, 3, &[Word(2), Word(3), Number(1)]),
    Op::Load(5, Word(0), 32),
    Op::Unless(Cond::Ne, Word(4), Word(5), Word(0)),
];

const NEXT_ROW: &[Op] = &[Op::Compute(WordOp::Add, 0, Word(0), Number(40))];

// The procedure that looks at the rows, of number 5. It answers 0, or the address of the first row whose words aren't
// what the procedures 2 and 3 answer.
fn looks(rt: &impl Abort, alloc: Global) -> LowProc {
    let again = LowCode::TailCall(5, sources(rt, alloc, &[Word(0), Word(1)]));
    let next = steps(rt, alloc, NEXT_ROW, again);
    let divided = steps(rt, alloc, QUOTIENTS, LowCode::Done);
    let compared = [Word(3), Number(0)];
    let code = branches(rt, alloc, Cond::Ne, compared, divided, LowCode::Done, next);
    procedure(2, 6, steps(rt, alloc, PRODUCTS, code))
}

// A program that looks at these rows, which are its statics.
fn looks_at(rt: &impl Abort, alloc: Global, rows: WordList) -> LowProgram {
    let end = rows.len().wrapping_mul(8).wrapping_add(65_536);
    let words = sources(rt, alloc, &[Number(65_536), Number(end)]);
    let mut low = with_arithmetic(rt, alloc, &[]);
    let begins = procedure(0, 0, LowCode::TailCall(5, words));
    push(rt, &mut low.procs, Ok(begins));
    push(rt, &mut low.procs, Ok(looks(rt, alloc)));
    low.statics.words = rows;
    low
}

// What such a program comes to.
fn looked_at(rt: &impl Abort, alloc: Global, rows: WordList) -> Stop {
    comes_to(rt, alloc, looks_at(rt, alloc, rows), &[LABEL], (0, 4096))
}

#[test]
fn arithmetic_of_corners(rt: HostRuntime) {
    let rows = pairs_of_corners(&rt, rt.alloc());
    assert!(rt; looked_at(&rt, rt.alloc(), rows) == answer!(0));
}

#[test]
fn arithmetic_of_random_words(rt: HostRuntime) {
    let rows = random_pairs(&rt, rt.alloc(), 20_000);
    assert!(rt; looked_at(&rt, rt.alloc(), rows) == answer!(0));
}

// A right row, and one with a wrong product.
const WRONG: &[u64] = &[6, 7, 42, 0, 6, 6, 7, 43, 0, 6];

// A table with a wrong product is found.
#[test]
fn a_wrong_row_is_found(rt: HostRuntime) {
    let rows = WordList::from_slice(rt.alloc(), WRONG).expect(&rt, "memory");
    assert!(rt; looked_at(&rt, rt.alloc(), rows) == answer!(65_576));
}

// The quotient of 5 and 0, behind the four procedures.
const BY_ZERO: &[Proc] = &[Proc {
    params: 0,
    words: 0,
    steps: &[],
    end: End::TailCall(3, &[Number(5), Number(0), Number(0)]),
}];

#[test]
fn a_divisor_zero_traps(rt: HostRuntime) {
    let low = with_arithmetic(&rt, rt.alloc(), BY_ZERO);
    let stop = comes_to(&rt, rt.alloc(), low, &[LABEL], (0, 4096));
    assert!(rt; stop == Stop::Trapped(Trap::ZeroDivisor));
}
