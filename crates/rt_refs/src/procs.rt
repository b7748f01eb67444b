// The procedures of product, quotient and remainder, and all procedures of this crate in order.

ghost use Rattle.std.specs.Prelude.{◌≡◌, ◌+◌, ◌≤◌, ◌^◌, ◌++◌, List, IfOk};
ghost use Rattle.low_ir.specs.Codes.{Extends, Chooses};
ghost use Rattle.machine_words.specs.declared.conditions.Cond.TheVariants.{Eq};
ghost use Rattle.low_ir.specs.declared.code.LowSource.TheVariants.{Number, Word};
ghost use Rattle.low_ir.specs.Procedures.{Proc, If};
ghost use Rattle.low_ir.specs.Views.{code_of, proc_of, procs_of};
ghost use Rattle.rt_refs.specs.Products.{sum_code, product_loop, multiply};
ghost use Rattle.rt_refs.specs.Quotients.{signed_answer, subtract_code, next_bit, quotient_loop, magnitude_code};
ghost use Rattle.rt_refs.specs.Quotients.{divide};
ghost use Rattle.rt_refs.specs.Quotients.{sign_code, arithmetic_procs};
ghost use Rattle.rt_refs.specs.RefProcs.{ref_procs};

use crate::calls::apply_proc;
use crate::cells::{read_proc, write_proc};
use crate::fills::{fill_loop, fill_proc};
use crate::numbers::RefProc;
use grift_base::lists::OutOfMemory;
use grift_base::verdicts::Trap;
use low_ir::code::LowSource::{Number, Word};
use low_ir::code::{LowSource, WordOp};
use low_ir::codes::{
    CodeResult, answer, choose, compute, done, proc, set, tail_call, trap, with_proc,
};
use low_ir::programs::{LowProc, LowProcs};
use machine_words::conditions::Cond;
use std::alloc::Global;

/// How many procedures `arithmetic_procs` gives.
pub const ARITHMETIC_PROCS: u32 = 4;

/// The quotient is asked for.
pub const ASKS_QUOTIENT: u64 = 0;

/// The remainder is.
pub const ASKS_REMAINDER: u64 = 1;

// What the loop of quotient and remainder goes on with: its own words.
const LOOP_WORDS: [LowSource; 7] = [
    Word(0),
    Word(1),
    Word(2),
    Word(3),
    Word(4),
    Word(5),
    Word(6),
];

// What it begins with: dividend and divisor without signs, remainder and quotient, how many bits are left, the sign of
// the answer, and what is asked for.
const FIRST_WORDS: [LowSource; 7] = [
    Word(3),
    Word(4),
    Number(0),
    Number(0),
    Number(64),
    Word(5),
    Word(2),
];

// Where the lowest bit of word 1 is set, word 2 gains word 0.
fn sum_code(alloc: Global, rest: CodeResult) -> CodeResult
    ensures { Extends rest result sum_code }
{
    let gain = compute(alloc, WordOp::Add, 2, (Word(2), Word(0)), done(alloc));
    let ways = (done(alloc), gain);
    let rest = choose(alloc, Cond::Eq, (Word(3), Number(0)), ways, rest);
    compute(alloc, WordOp::And, 3, (Word(1), Number(1)), rest)
}

// The loop of a product, told its own number.
fn product_loop(alloc: Global, own: u32) -> Result<LowProc, OutOfMemory>
    ensures { IfOk result (λ proc. proc_of proc ≡ product_loop own) }
{
    let rest = tail_call(alloc, own, &[Word(0), Word(1), Word(2)]);
    let rest = compute(alloc, WordOp::Srl, 1, (Word(1), Number(1)), rest);
    let rest = compute(alloc, WordOp::Sll, 0, (Word(0), Number(1)), rest);
    let rest = sum_code(alloc, rest);
    let ends = (answer(alloc, Word(2)), done(alloc));
    proc(
        3,
        4,
        choose(alloc, Cond::Eq, (Word(1), Number(0)), ends, rest),
    )
}

// The procedure of a product, told the number of its loop.
fn multiply(alloc: Global, loop_number: u32) -> Result<LowProc, OutOfMemory>
    ensures { IfOk result (λ proc. proc_of proc ≡ multiply loop_number) }
{
    proc(
        2,
        2,
        tail_call(alloc, loop_number, &[Word(0), Word(1), Number(0)]),
    )
}

// What is done where a word says that the quotient is asked for, what where it is the remainder, and what behind both.
fn by_asked(
    alloc: Global,
    word: u32,
    ways: (CodeResult, CodeResult),
    rest: CodeResult,
) -> CodeResult
    ensures { Chooses ways rest result (If Eq (Word word) (Number 0)) }
{
    let asked = (Word(word), Number(ASKS_QUOTIENT));
    choose(alloc, Cond::Eq, asked, ways, rest)
}

// The quotient or the remainder, with its sign.
fn signed_answer(alloc: Global) -> CodeResult
    ensures { IfOk result (λ code. code_of code.value ≡ signed_answer) }
{
    let turned = compute(alloc, WordOp::Sub, 2, (Number(0), Word(2)), done(alloc));
    let ways = (turned, done(alloc));
    let end = answer(alloc, Word(2));
    let rest = choose(alloc, Cond::Lt, (Word(5), Number(0)), ways, end);
    let quotient = set(alloc, 2, Word(3), done(alloc));
    by_asked(alloc, 6, (quotient, done(alloc)), rest)
}

// Where the remainder has grown to the divisor it loses it, and the quotient gains one.
fn subtract_code(alloc: Global, rest: CodeResult) -> CodeResult
    ensures { Extends rest result subtract_code }
{
    let gain = compute(alloc, WordOp::Add, 3, (Word(3), Number(1)), done(alloc));
    let lose = compute(alloc, WordOp::Sub, 2, (Word(2), Word(1)), gain);
    let ways = (done(alloc), lose);
    choose(alloc, Cond::Ltu, (Word(2), Word(1)), ways, rest)
}

// The next bit of the dividend goes to the remainder.
fn next_bit(alloc: Global, rest: CodeResult) -> CodeResult
    ensures { Extends rest result next_bit }
{
    let rest = compute(alloc, WordOp::Sll, 3, (Word(3), Number(1)), rest);
    let rest = compute(alloc, WordOp::Add, 2, (Word(2), Word(7)), rest);
    let rest = compute(alloc, WordOp::Sll, 2, (Word(2), Number(1)), rest);
    let rest = compute(alloc, WordOp::And, 7, (Word(7), Number(1)), rest);
    let rest = compute(alloc, WordOp::Srl, 7, (Word(0), Word(4)), rest);
    compute(alloc, WordOp::Sub, 4, (Word(4), Number(1)), rest)
}

// The loop of quotient and remainder, told its own number.
fn quotient_loop(alloc: Global, own: u32) -> Result<LowProc, OutOfMemory>
    ensures { IfOk result (λ proc. proc_of proc ≡ quotient_loop own) }
{
    let rest = tail_call(alloc, own, &LOOP_WORDS);
    let rest = next_bit(alloc, subtract_code(alloc, rest));
    let ends = (signed_answer(alloc), done(alloc));
    proc(
        7,
        8,
        choose(alloc, Cond::Eq, (Word(4), Number(0)), ends, rest),
    )
}

// A word without its sign.
fn magnitude(alloc: Global, word: u32, of: u32, rest: CodeResult) -> CodeResult
    ensures { Extends rest result (magnitude_code word of) }
{
    let minus = (Number(0), Word(of));
    let turned = compute(alloc, WordOp::Sub, word, minus, done(alloc));
    let ways = (turned, set(alloc, word, Word(of), done(alloc)));
    choose(alloc, Cond::Lt, (Word(of), Number(0)), ways, rest)
}

// The sign of the answer, and the call of the loop.
fn signs(alloc: Global, loop_number: u32) -> CodeResult
    ensures { IfOk result (λ code. code_of code.value ≡ sign_code loop_number) }
{
    let quotient = compute(alloc, WordOp::Xor, 5, (Word(0), Word(1)), done(alloc));
    let ways = (quotient, set(alloc, 5, Word(0), done(alloc)));
    by_asked(alloc, 2, ways, tail_call(alloc, loop_number, &FIRST_WORDS))
}

// The procedure of quotient and remainder, told the number of its loop.
fn divide(alloc: Global, loop_number: u32) -> Result<LowProc, OutOfMemory>
    ensures { IfOk result (λ proc. proc_of proc ≡ divide loop_number) }
{
    let rest = magnitude(alloc, 4, 1, signs(alloc, loop_number));
    let rest = magnitude(alloc, 3, 0, rest);
    let ways = (trap(alloc, Trap::ZeroDivisor, 3, 4), done(alloc));
    proc(
        3,
        8,
        choose(alloc, Cond::Eq, (Word(1), Number(0)), ways, rest),
    )
}

/// The procedures of products and quotients, numbered from `first` on, go last.
pub fn with_arithmetic(
    alloc: Global,
    procs: Result<LowProcs, OutOfMemory>,
    first: u32,
) -> Result<LowProcs, OutOfMemory>
    requires { first + 4 ≤ 2 ^ 32 }
    ensures { (before : List Proc) → IfOk procs (λ all. procs_of all ≡ before)
        → IfOk result (λ all. procs_of all ≡ before ++ arithmetic_procs first) }
{
    let procs = with_proc(procs, product_loop(alloc, first));
    let procs = with_proc(procs, quotient_loop(alloc, first + 1));
    let procs = with_proc(procs, multiply(alloc, first));
    with_proc(procs, divide(alloc, first + 1))
}

/// The procedures of products and quotients, numbered from `first` on: two loops, then that of the product, which takes
/// two words, and that of quotient and remainder, which takes dividend, divisor, and 0 for the quotient or 1 for the
/// remainder.
pub fn arithmetic_procs(alloc: Global, first: u32) -> Result<LowProcs, OutOfMemory>
    requires { first + 4 ≤ 2 ^ 32 }
    ensures { IfOk result (λ procs. procs_of procs ≡ arithmetic_procs first) }
{
    with_arithmetic(alloc, Ok(LowProcs::new(alloc)), first)
}

/// All nine procedures, numbered from `first` on, where `cast` is the number of the procedure that casts. Apply takes
/// a function with a proxy, six words that begin with its arguments, and how many these are. Read takes what is read
/// (0 the content of a box, 1 an element of a vector, 2 a vector's length), an address and an index, which is 0 for a
/// box. Write takes what is written to (0 a box, 1 a vector), an address, an index and a word. Fill takes a length and
/// a word, and answers a vector; its loop follows. The last four are those of `arithmetic_procs`.
pub fn ref_procs(alloc: Global, first: u32, cast: u32) -> Result<LowProcs, OutOfMemory>
    requires { first + 9 ≤ 2 ^ 32 }
    ensures { IfOk result (λ procs. procs_of procs ≡ ref_procs first cast) }
{
    let fills = RefProc::FillLoop.number(first);
    let procs = with_proc(Ok(LowProcs::new(alloc)), apply_proc(alloc, cast));
    let procs = with_proc(procs, read_proc(alloc, cast));
    let procs = with_proc(procs, write_proc(alloc, cast));
    let procs = with_proc(procs, fill_proc(alloc, fills));
    let procs = with_proc(procs, fill_loop(alloc, fills));
    with_arithmetic(alloc, procs, RefProc::ProductLoop.number(first))
}
