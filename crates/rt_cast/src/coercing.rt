// The procedure of coerce.

ghost use Rattle.std.specs.Prelude.{◌≡◌, ◌+◌, ◌≤◌, ◌^◌, IfOk};
ghost use Rattle.low_ir.specs.Views.{code_of, proc_of};
ghost use Rattle.rt_cast.specs.CoerceCodes.{coerce_fail, coerce_alike, coerce_heads, coerce_kinds};
ghost use Rattle.rt_cast.specs.CoerceCodes.{coerce_from_dyn, coerce_to_dyn};
ghost use Rattle.rt_cast.specs.Procs.{coerce_proc};

use crate::codes::{by_kind, load_kind, put_header};
use crate::numbers::{COERCE_MIDDLES, CastProc};
use crate::parts::pick;
use crate::words::{header, kind};
use grift_base::lists::OutOfMemory;
use low_ir::code::LowSource::{Number, Word};
use low_ir::code::WordOp;
use low_ir::codes::{CodeResult, answer, build, call, compute, either, proc, tail_call};
use low_ir::programs::LowProc;
use machine_words::conditions::Cond;
use object_layout::kinds::Kind;
use object_layout::words::{COUNT_SHIFT, TYPE_OVER_MIDDLE};
use std::alloc::Global;

// A failure with the label.
fn coerce_fail(alloc: Global) -> CodeResult
    ensures { IfOk result (λ code. code_of code.value ≡ coerce_fail) }
{
    let words = [Number(header(Kind::Fail, 1)), Word(2)];
    build(alloc, 10, &words, answer(alloc, Word(10)))
}

// Between types of one head.
fn coerce_alike(alloc: Global, first: u32) -> CodeResult
    requires room { first + 27 ≤ 2 ^ 32 }
    ensures { IfOk result (λ code. code_of code.value ≡ coerce_alike first) }
{
    let pair = CastProc::Pair.number(first);
    let wide = [Word(0), Word(1), Word(9), Word(7), Word(2)];
    let twice = [Word(0), Word(1), Word(9), Number(2), Word(2)];
    let branches = (
        pick(alloc, 7, COERCE_MIDDLES, first, &wide),
        tail_call(alloc, pair, &twice),
    );
    let rest = either(alloc, Cond::Ltu, (Word(9), kind(Kind::Ref)), branches);
    let rest = compute(
        alloc,
        WordOp::Sub,
        9,
        (Word(4), Number(TYPE_OVER_MIDDLE)),
        rest,
    );
    let branches = (answer(alloc, Number(0)), rest);
    either(alloc, Cond::Ltu, (Word(4), kind(Kind::FunType)), branches)
}

// By whether both have one head.
fn coerce_heads(alloc: Global, first: u32) -> CodeResult
    requires room { first + 27 ≤ 2 ^ 32 }
    ensures { IfOk result (λ code. code_of code.value ≡ coerce_heads first) }
{
    let branches = (coerce_alike(alloc, first), coerce_fail(alloc));
    let rest = either(alloc, Cond::Eq, (Word(7), Word(8)), branches);
    let branches = (rest, coerce_fail(alloc));
    let rest = either(alloc, Cond::Eq, (Word(4), Word(6)), branches);
    let rest = compute(alloc, WordOp::Srl, 8, (Word(5), Number(COUNT_SHIFT)), rest);
    compute(alloc, WordOp::Srl, 7, (Word(3), Number(COUNT_SHIFT)), rest)
}

// From Dyn.
fn coerce_from_dyn(alloc: Global, first: u32) -> CodeResult
    requires room { first + 27 ≤ 2 ^ 32 }
    ensures { IfOk result (λ code. code_of code.value ≡ coerce_from_dyn first) }
{
    let raise = CastProc::Raise.number(first);
    let words = [Word(9), Word(1), Word(2), Number(0)];
    let rest = build(alloc, 10, &words, answer(alloc, Word(10)));
    let rest = put_header(alloc, 9, header(Kind::Project, 3), rest);
    call(alloc, 9, raise, &[Number(0), Word(1)], rest)
}

// To Dyn.
fn coerce_to_dyn(alloc: Global, first: u32) -> CodeResult
    requires room { first + 27 ≤ 2 ^ 32 }
    ensures { IfOk result (λ code. code_of code.value ≡ coerce_to_dyn first) }
{
    let raise = CastProc::Raise.number(first);
    let words = [Word(9), Number(0), Word(0)];
    let rest = build(alloc, 10, &words, answer(alloc, Word(10)));
    let rest = put_header(alloc, 9, header(Kind::Inject, 2), rest);
    call(alloc, 9, raise, &[Number(0), Word(0)], rest)
}

// With the kinds of both types.
fn coerce_kinds(alloc: Global, first: u32) -> CodeResult
    requires room { first + 27 ≤ 2 ^ 32 }
    ensures { IfOk result (λ code. code_of code.value ≡ coerce_kinds first) }
{
    let branches = (coerce_to_dyn(alloc, first), coerce_heads(alloc, first));
    let rest = by_kind(alloc, 6, Kind::DynType, branches);
    let branches = (coerce_from_dyn(alloc, first), rest);
    by_kind(alloc, 4, Kind::DynType, branches)
}

/// The coercion of a cast between the two types in words 0 and 1, with the label in word 2.
pub fn coerce_proc(alloc: Global, first: u32) -> Result<LowProc, OutOfMemory>
    requires room { first + 27 ≤ 2 ^ 32 }
    ensures { IfOk result (λ proc. proc_of proc ≡ coerce_proc first) }
{
    let rest = load_kind(alloc, (5, 6), 1, coerce_kinds(alloc, first));
    let rest = load_kind(alloc, (3, 4), 0, rest);
    let branches = (answer(alloc, Number(0)), rest);
    proc(3, 11, either(alloc, Cond::Eq, (Word(0), Word(1)), branches))
}
