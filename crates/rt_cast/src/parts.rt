// The procedures of heights and of middles that are made part by part.

ghost use Rattle.std.specs.Prelude.{◌≡◌, ℕ, ◌+◌, ◌<◌, ◌≤◌, ◌^◌, ◌∷◌, IfOk};
ghost use Rattle.low_ir.specs.Codes.{Extends};
ghost use Rattle.machine_words.specs.declared.conditions.Cond.TheVariants.{Eq};
ghost use Rattle.low_ir.specs.declared.code.LowSource.TheVariants.{Word};
ghost use Rattle.low_ir.specs.Procedures.{TailCall};
ghost use Rattle.low_ir.specs.Views.{code_of, proc_of};
ghost use Rattle.rt_cast.specs.PartCodes.{finish_code, part_step, parts_code};
ghost use Rattle.low_ir.specs.Codes.{proc, either};
ghost use Rattle.rt_cast.specs.PartCodes.{middle_code, apart, part_turns, pick};
ghost use Rattle.rt_cast.specs.Procs.{raise_proc, final_proc};

use crate::codes::{by_kind, load_unless_id, unless_zero};
use crate::numbers::MOST_PARTS;
use grift_base::lists::OutOfMemory;
use low_ir::code::LowSource::{Number, Word};
use low_ir::code::{LowSource, WordOp};
use low_ir::codes::{
    CodeResult, answer, build, call, compute, either, load, proc, set, tail_call, with_words,
};
use low_ir::programs::LowProc;
use machine_words::conditions::Cond;
use object_layout::kinds::Kind;
use object_layout::words::{COUNT_UNIT, HEIGHT_MASK, HEIGHT_SHIFT};
use std::alloc::Global;

/// The greater of a height and an object's, which stand in words 0 and 1.
pub fn raise_proc(alloc: Global) -> Result<LowProc, OutOfMemory>
    ensures { IfOk result (λ proc. proc_of proc ≡ raise_proc) }
{
    let ends = (answer(alloc, Word(2)), answer(alloc, Word(0)));
    let rest = either(alloc, Cond::Ltu, (Word(0), Word(2)), ends);
    let rest = compute(alloc, WordOp::And, 2, (Word(2), Number(HEIGHT_MASK)), rest);
    let rest = compute(alloc, WordOp::Srl, 2, (Word(2), Number(HEIGHT_SHIFT)), rest);
    let rest = load(alloc, 2, Word(1), 0, rest);
    proc(2, 3, unless_zero(alloc, 1, Word(0), rest))
}

/// What may stand behind a projection.
pub fn final_proc(alloc: Global) -> Result<LowProc, OutOfMemory>
    ensures { IfOk result (λ proc. proc_of proc ≡ final_proc) }
{
    let ends = (answer(alloc, Number(0)), answer(alloc, Word(0)));
    let rest = by_kind(alloc, 1, Kind::Project, ends);
    proc(1, 2, load_unless_id(alloc, (1, 1), 0, Word(0), rest))
}

// The object of so many parts, or 0 where all are Id.
fn finish_code(alloc: Global, total: u32) -> CodeResult
    requires few { total ≤ 8 }
    ensures { IfOk result (λ code. code_of code.value ≡ finish_code total) }
{
    let words = with_words(alloc, Word(5), 16, total)?;
    let rest = build(alloc, 7, words.as_slice(), answer(alloc, Word(7)));
    let count = u64::from(total) * COUNT_UNIT;
    let rest = compute(alloc, WordOp::Add, 5, (Word(5), Number(count)), rest);
    let rest = compute(alloc, WordOp::Add, 5, (Word(5), Word(2)), rest);
    let rest = compute(alloc, WordOp::Sll, 5, (Word(5), Number(HEIGHT_SHIFT)), rest);
    let rest = compute(alloc, WordOp::Add, 5, (Word(5), Number(1)), rest);
    unless_zero(alloc, 6, Number(0), rest)
}

/// How a middle is made: by which procedures of a height and of a part, and how many bytes the parts lie apart in the
/// two objects that it comes from.
#[derive(Clone, Copy)]
pub struct Making {
    pub raise: u32,
    pub part: u32,
    pub step: u32,
}

// Part k, and what is done behind it.
fn part_step(alloc: Global, making: Making, k: u32, rest: CodeResult) -> CodeResult
    requires few { k < 8 }
    requires near { making.step ≤ 8 }
    ensures { (total : ℕ) → Extends rest result (part_step making.raise making.part (apart making.step) total k) }
{
    let offset = 8 + making.step * k;
    let made = 16 + k;
    let rest = compute(alloc, WordOp::Add, 6, (Word(6), Word(10)), rest);
    let rest = compute(alloc, WordOp::Sltu, 10, (Number(0), Word(made)), rest);
    let rest = call(alloc, 5, making.raise, &[Word(5), Word(made)], rest);
    let number = Number(k as u64 + 1);
    let words = [Word(2), Word(3), number, Word(8), Word(9), Word(4)];
    let rest = call(alloc, made, making.part, &words, rest);
    let rest = load(alloc, 9, Word(1), offset, rest);
    load(alloc, 8, Word(0), offset, rest)
}

// All parts, the last one first.
fn parts_code(alloc: Global, making: Making, total: u32) -> CodeResult
    requires few { total ≤ 8 }
    requires near { making.step ≤ 8 }
    ensures { IfOk result (λ code. code_of code.value
        ≡ parts_code making.raise making.part (apart making.step) total total 0) }
{
    let mut code = finish_code(alloc, total);
    for j in 0..total {
        code = part_step(alloc, making, total - 1 - j, code);
    }
    code
}

/// A middle of so many parts, at most eight.
pub fn middle_proc(alloc: Global, making: Making, total: u32) -> Result<LowProc, OutOfMemory>
    requires few { total ≤ 8 }
    requires near { making.step ≤ 8 }
    ensures { IfOk result (λ p. proc_of p
        ≡ proc 5 24 (middle_code making.raise making.part (apart making.step) total)) }
{
    let rest = parts_code(alloc, making, total);
    let rest = set(alloc, 6, Number(0), rest);
    proc(5, 24, set(alloc, 5, Number(0), rest))
}

// A procedure goes on with the words in one list where the part is the last one, and else with those in another.
fn by_last(alloc: Global, procedure: u32, last: &[LowSource], others: &[LowSource]) -> CodeResult
    ensures { IfOk result (λ code. code_of code.value
        ≡ either Eq (Word 1) (Word 2) (TailCall procedure last.now) (TailCall procedure others.now)) }
{
    let last = tail_call(alloc, procedure, last);
    let branches = (last, tail_call(alloc, procedure, others));
    either(alloc, Cond::Eq, (Word(1), Word(2)), branches)
}

/// One part: a procedure goes on with these words, or with the other ones where the part runs backwards.
pub fn part_proc(
    alloc: Global,
    procedure: u32,
    on: &[LowSource],
    back: &[LowSource],
) -> Result<LowProc, OutOfMemory>
    ensures { IfOk result (λ p. proc_of p
        ≡ proc 6 6 (part_turns (TailCall procedure on.now) (TailCall procedure back.now))) }
{
    let functions = by_last(alloc, procedure, on, back);
    let branches = (functions, by_last(alloc, procedure, back, on));
    let others = by_kind(alloc, 0, Kind::Fun, branches);
    let branches = (tail_call(alloc, procedure, on), others);
    proc(6, 6, by_kind(alloc, 0, Kind::Tup, branches))
}

/// The procedure for so many parts as a word says goes on with these words; those for no parts to eight parts are
/// numbered from `base` behind the first procedure.
pub fn pick(alloc: Global, word: u32, base: u32, first: u32, words: &[LowSource]) -> CodeResult
    requires room { first + 27 ≤ 2 ^ 32 }
    requires near { base ≤ 18 }
    ensures { IfOk result (λ code. code_of code.value ≡ pick word 8 (λ r. base + r + first) words.now) }
{
    let mut code = tail_call(alloc, base + 0 + first, words);
    for r in 0..MOST_PARTS {
        let parts = r + 1;
        let here = tail_call(alloc, base + parts + first, words);
        let test = (Word(word), Number(parts as u64));
        code = either(alloc, Cond::Eq, test, (here, code));
    }
    code
}
