// The procedure of compose.

ghost use Rattle.std.specs.Prelude.{◌≡◌, ◌+◌, ◌≤◌, ◌^◌, IfOk};
ghost use Rattle.low_ir.specs.Views.{code_of, proc_of};
ghost use Rattle.rt_cast.specs.ComposeCodes.{compose_project, compose_inject, compose_onto, compose_both};
ghost use Rattle.rt_cast.specs.ComposeCodes.{compose_middle, compose_third, compose_second, compose_first};
ghost use Rattle.rt_cast.specs.Procs.{compose_proc};

use crate::codes::{by_kind, load_unless_id, put_header};
use crate::numbers::{CastProc, MIDDLES};
use crate::parts::pick;
use crate::words::header;
use grift_base::lists::OutOfMemory;
use low_ir::code::LowSource::{Number, Word};
use low_ir::code::WordOp;
use low_ir::codes::{CodeResult, answer, build, call, compute, either, load, proc, tail_call};
use low_ir::programs::LowProc;
use machine_words::conditions::Cond;
use object_layout::kinds::Kind;
use object_layout::words::COUNT_SHIFT;
use std::alloc::Global;

// A projection first.
fn compose_project(alloc: Global, first: u32) -> CodeResult
    requires room { first + 27 ≤ 2 ^ 32 }
    ensures { IfOk result (λ code. code_of code.value ≡ compose_project first) }
{
    let raise = CastProc::Raise.number(first);
    let behind = CastProc::Final.number(first);
    let compose = CastProc::Compose.number(first);
    let rest = answer(alloc, Word(10));
    let rest = build(alloc, 10, &[Word(9), Word(7), Word(8), Word(6)], rest);
    let rest = put_header(alloc, 9, header(Kind::Project, 3), rest);
    let rest = call(alloc, 9, raise, &[Word(9), Word(6)], rest);
    let rest = call(alloc, 9, raise, &[Number(0), Word(7)], rest);
    let rest = load(alloc, 8, Word(0), 16, rest);
    let rest = load(alloc, 7, Word(0), 8, rest);
    let rest = call(alloc, 6, behind, &[Word(6)], rest);
    let rest = call(alloc, 6, compose, &[Word(6), Word(1)], rest);
    load(alloc, 6, Word(0), 24, rest)
}

// An injection first.
fn compose_inject(alloc: Global, first: u32) -> CodeResult
    requires room { first + 27 ≤ 2 ^ 32 }
    ensures { IfOk result (λ code. code_of code.value ≡ compose_inject first) }
{
    let compose = CastProc::Compose.number(first);
    let coerce = CastProc::Coerce.number(first);
    let rest = tail_call(alloc, compose, &[Word(11), Word(9)]);
    let rest = load(alloc, 11, Word(0), 8, rest);
    let rest = call(alloc, 9, compose, &[Word(9), Word(10)], rest);
    let rest = load(alloc, 10, Word(1), 24, rest);
    let rest = call(alloc, 9, coerce, &[Word(6), Word(7), Word(8)], rest);
    let rest = load(alloc, 8, Word(1), 16, rest);
    let rest = load(alloc, 7, Word(1), 8, rest);
    let rest = load(alloc, 6, Word(0), 16, rest);
    let branches = (rest, answer(alloc, Number(0)));
    by_kind(alloc, 5, Kind::Project, branches)
}

// A middle before an injection.
fn compose_onto(alloc: Global, first: u32) -> CodeResult
    requires room { first + 27 ≤ 2 ^ 32 }
    ensures { IfOk result (λ code. code_of code.value ≡ compose_onto first) }
{
    let raise = CastProc::Raise.number(first);
    let compose = CastProc::Compose.number(first);
    let rest = answer(alloc, Word(10));
    let rest = build(alloc, 10, &[Word(9), Word(6), Word(7)], rest);
    let rest = put_header(alloc, 9, header(Kind::Inject, 2), rest);
    let rest = call(alloc, 9, raise, &[Word(9), Word(7)], rest);
    let rest = call(alloc, 9, raise, &[Number(0), Word(6)], rest);
    let rest = load(alloc, 7, Word(1), 16, rest);
    let rest = call(alloc, 6, compose, &[Word(0), Word(6)], rest);
    load(alloc, 6, Word(1), 8, rest)
}

// Two middles of one kind.
fn compose_both(alloc: Global, first: u32) -> CodeResult
    requires room { first + 27 ≤ 2 ^ 32 }
    ensures { IfOk result (λ code. code_of code.value ≡ compose_both first) }
{
    let words = [Word(0), Word(1), Word(3), Word(6), Number(0)];
    let branches = (
        pick(alloc, 6, MIDDLES, first, &words),
        pick(alloc, 7, MIDDLES, first, &words),
    );
    let rest = either(alloc, Cond::Ltu, (Word(6), Word(7)), branches);
    let rest = compute(alloc, WordOp::Srl, 7, (Word(4), Number(COUNT_SHIFT)), rest);
    compute(alloc, WordOp::Srl, 6, (Word(2), Number(COUNT_SHIFT)), rest)
}

// A middle first, with the kind of the second.
fn compose_middle(alloc: Global, first: u32) -> CodeResult
    requires room { first + 27 ≤ 2 ^ 32 }
    ensures { IfOk result (λ code. code_of code.value ≡ compose_middle first) }
{
    let branches = (compose_both(alloc, first), answer(alloc, Number(0)));
    let rest = either(alloc, Cond::Eq, (Word(3), Word(5)), branches);
    let branches = (compose_onto(alloc, first), rest);
    by_kind(alloc, 5, Kind::Inject, branches)
}

// With the kinds of both.
fn compose_third(alloc: Global, first: u32) -> CodeResult
    requires room { first + 27 ≤ 2 ^ 32 }
    ensures { IfOk result (λ code. code_of code.value ≡ compose_third first) }
{
    let branches = (compose_inject(alloc, first), compose_middle(alloc, first));
    let rest = by_kind(alloc, 3, Kind::Inject, branches);
    by_kind(alloc, 5, Kind::Fail, (answer(alloc, Word(1)), rest))
}

// With the kind of the first.
fn compose_first(alloc: Global, first: u32) -> CodeResult
    requires room { first + 27 ≤ 2 ^ 32 }
    ensures { IfOk result (λ code. code_of code.value ≡ compose_first first) }
{
    let second = load_unless_id(alloc, (4, 5), 1, Word(0), compose_third(alloc, first));
    let branches = (answer(alloc, Word(0)), second);
    let rest = by_kind(alloc, 3, Kind::Fail, branches);
    let branches = (compose_project(alloc, first), rest);
    by_kind(alloc, 3, Kind::Project, branches)
}

/// The composition of the two coercions in words 0 and 1.
pub fn compose_proc(alloc: Global, first: u32) -> Result<LowProc, OutOfMemory>
    requires room { first + 27 ≤ 2 ^ 32 }
    ensures { IfOk result (λ proc. proc_of proc ≡ compose_proc first) }
{
    let rest = load_unless_id(alloc, (2, 3), 0, Word(1), compose_first(alloc, first));
    proc(2, 12, rest)
}
