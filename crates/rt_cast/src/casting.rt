// The procedures of cast and project.

ghost use Rattle.std.specs.Prelude.{◌≡◌, ◌+◌, ◌≤◌, ◌^◌, IfOk};
ghost use Rattle.low_ir.specs.Views.{code_of, proc_of};
ghost use Rattle.rt_cast.specs.CastCodes.{dyn_object, dyn_base, into_dyn, cast_inject};
ghost use Rattle.rt_cast.specs.CastCodes.{project_small, project_object, cast_project, cast_proxy, cast_middle};
ghost use Rattle.rt_cast.specs.CastCodes.{cast_kinds, project_dyn_part, project_dyn_object, project_dyn, project_proxy};
ghost use Rattle.rt_cast.specs.CastCodes.{project_tuple};
ghost use Rattle.rt_cast.specs.Procs.{cast_proc, project_proc};

use crate::codes::{by_kind, load_kind, load_unless_id, unless_zero};
use crate::numbers::CastProc;
use crate::words::{header, kind};
use grift_base::lists::OutOfMemory;
use low_ir::code::LowSource::{Number, Word};
use low_ir::code::WordOp;
use low_ir::codes::{
    CodeResult, answer, blame, build, call, compute, either, load, proc, tail_call,
};
use low_ir::programs::LowProc;
use machine_words::conditions::Cond;
use object_layout::kinds::Kind;
use object_layout::words::{COUNT_SHIFT, TAG_MASK, TAG_SHIFT, TYPE_OVER_TAG, WORD_SHIFT};
use std::alloc::Global;

// A value in Dyn as an object: word 8 is the type that it keeps, word 9 the value.
fn dyn_object(alloc: Global) -> CodeResult
    ensures { IfOk result (λ code. code_of code.value ≡ dyn_object) }
{
    let words = [Number(header(Kind::Dyn, 2)), Word(8), Word(9)];
    build(alloc, 7, &words, answer(alloc, Word(7)))
}

// A value of a type without parts, whose kind is in word 6: behind a tag, unless it takes more than 61 bits.
fn dyn_base(alloc: Global) -> CodeResult
    ensures { IfOk result (λ code. code_of code.value ≡ dyn_base) }
{
    let add = WordOp::Add;
    let rest = compute(alloc, add, 7, (Word(7), Word(6)), answer(alloc, Word(7)));
    let rest = compute(
        alloc,
        WordOp::Sub,
        6,
        (Word(6), Number(TYPE_OVER_TAG)),
        rest,
    );
    let branches = (rest, dyn_object(alloc));
    let rest = either(alloc, Cond::Eq, (Word(5), Word(9)), branches);
    let rest = compute(alloc, WordOp::Sra, 5, (Word(7), Number(TAG_SHIFT)), rest);
    compute(alloc, WordOp::Sll, 7, (Word(9), Number(TAG_SHIFT)), rest)
}

// A value goes into Dyn; the kinds of types whose values have a tag come before that of Dyn.
fn into_dyn(alloc: Global) -> CodeResult
    ensures { IfOk result (λ code. code_of code.value ≡ into_dyn) }
{
    let branches = (dyn_base(alloc), dyn_object(alloc));
    either(alloc, Cond::Ltu, (Word(6), kind(Kind::DynType)), branches)
}

// An injection: what stands before it, and then a Dyn.
fn cast_inject(alloc: Global, first: u32) -> CodeResult
    requires room { first + 27 ≤ 2 ^ 32 }
    ensures { IfOk result (λ code. code_of code.value ≡ cast_inject first) }
{
    let cast = CastProc::Cast.number(first);
    let rest = load_kind(alloc, (6, 6), 8, into_dyn(alloc));
    let rest = load(alloc, 8, Word(1), 16, rest);
    let rest = call(alloc, 9, cast, &[Word(0), Word(4)], rest);
    load(alloc, 4, Word(1), 8, rest)
}

// A projection of what stands behind a tag: where the tag is that of the wanted type it goes on as it is.
fn project_small(alloc: Global, first: u32) -> CodeResult
    requires room { first + 27 ≤ 2 ^ 32 }
    ensures { IfOk result (λ code. code_of code.value ≡ project_small first) }
{
    let cast = CastProc::Cast.number(first);
    let rest = tail_call(alloc, cast, &[Word(5), Word(9)]);
    let rest = load(alloc, 9, Word(1), 24, rest);
    let same = compute(alloc, WordOp::Sra, 5, (Word(0), Number(TAG_SHIFT)), rest);
    let other = load(alloc, 7, Word(1), 16, blame(alloc, Word(7)));
    let rest = either(alloc, Cond::Eq, (Word(4), Word(5)), (same, other));
    let rest = compute(
        alloc,
        WordOp::Add,
        4,
        (Word(4), Number(TYPE_OVER_TAG)),
        rest,
    );
    let rest = load_kind(alloc, (5, 5), 5, rest);
    load(alloc, 5, Word(1), 8, rest)
}

// A projection of what is in an object, by the cast between both types and what stands behind it.
fn project_object(alloc: Global, first: u32) -> CodeResult
    requires room { first + 27 ≤ 2 ^ 32 }
    ensures { IfOk result (λ code. code_of code.value ≡ project_object first) }
{
    let cast = CastProc::Cast.number(first);
    let compose = CastProc::Compose.number(first);
    let coerce = CastProc::Coerce.number(first);
    let rest = tail_call(alloc, cast, &[Word(5), Word(8)]);
    let rest = call(alloc, 8, compose, &[Word(8), Word(9)], rest);
    let rest = load(alloc, 9, Word(1), 24, rest);
    let rest = call(alloc, 8, coerce, &[Word(4), Word(6), Word(7)], rest);
    let rest = load(alloc, 7, Word(1), 16, rest);
    let rest = load(alloc, 6, Word(1), 8, rest);
    let rest = load(alloc, 5, Word(0), 16, rest);
    load(alloc, 4, Word(0), 8, rest)
}

// A projection, by the tag of what is in Dyn.
fn cast_project(alloc: Global, first: u32) -> CodeResult
    requires room { first + 27 ≤ 2 ^ 32 }
    ensures { IfOk result (λ code. code_of code.value ≡ cast_project first) }
{
    let branches = (project_object(alloc, first), project_small(alloc, first));
    let rest = either(alloc, Cond::Eq, (Word(4), Number(0)), branches);
    compute(alloc, WordOp::And, 4, (Word(0), Number(TAG_MASK)), rest)
}

// A proxy: what it stands on, by both coercions as one.
fn cast_proxy(alloc: Global, first: u32) -> CodeResult
    requires room { first + 27 ≤ 2 ^ 32 }
    ensures { IfOk result (λ code. code_of code.value ≡ cast_proxy first) }
{
    let compose = CastProc::Compose.number(first);
    let words = [Number(header(Kind::Proxy, 2)), Word(7), Word(6)];
    let rest = build(alloc, 8, &words, answer(alloc, Word(8)));
    let rest = unless_zero(alloc, 6, Word(7), rest);
    let rest = load(alloc, 7, Word(0), 8, rest);
    let rest = call(alloc, 6, compose, &[Word(6), Word(1)], rest);
    load(alloc, 6, Word(0), 16, rest)
}

// A middle: a proxy on a bare value, or a proxy in place of one.
fn cast_middle(alloc: Global, first: u32) -> CodeResult
    requires room { first + 27 ≤ 2 ^ 32 }
    ensures { IfOk result (λ code. code_of code.value ≡ cast_middle first) }
{
    let words = [Number(header(Kind::Proxy, 2)), Word(0), Word(1)];
    let bare = build(alloc, 8, &words, answer(alloc, Word(8)));
    let branches = (cast_proxy(alloc, first), bare);
    let rest = by_kind(alloc, 5, Kind::Proxy, branches);
    load_kind(alloc, (4, 5), 0, rest)
}

// With the kind of the coercion.
fn cast_kinds(alloc: Global, first: u32) -> CodeResult
    requires room { first + 27 ≤ 2 ^ 32 }
    ensures { IfOk result (λ code. code_of code.value ≡ cast_kinds first) }
{
    let branches = (cast_project(alloc, first), cast_middle(alloc, first));
    let rest = by_kind(alloc, 3, Kind::Project, branches);
    let branches = (cast_inject(alloc, first), rest);
    let rest = by_kind(alloc, 3, Kind::Inject, branches);
    let failure = load(alloc, 4, Word(1), 8, blame(alloc, Word(4)));
    let branches = (failure, rest);
    by_kind(alloc, 3, Kind::Fail, branches)
}

/// A cast of the value in word 0 by the coercion in word 1.
pub fn cast_proc(alloc: Global, first: u32) -> Result<LowProc, OutOfMemory>
    requires room { first + 27 ≤ 2 ^ 32 }
    ensures { IfOk result (λ proc. proc_of proc ≡ cast_proc first) }
{
    let rest = load_unless_id(alloc, (2, 3), 1, Word(0), cast_kinds(alloc, first));
    proc(2, 10, rest)
}

// The part of what is in the Dyn, in a Dyn that keeps the part's type, unless that is Dyn.
fn project_dyn_part(alloc: Global, first: u32) -> CodeResult
    requires room { first + 27 ≤ 2 ^ 32 }
    ensures { IfOk result (λ code. code_of code.value ≡ project_dyn_part first) }
{
    let project = CastProc::Project.number(first);
    let branches = (answer(alloc, Word(9)), into_dyn(alloc));
    let rest = by_kind(alloc, 6, Kind::DynType, branches);
    let rest = load_kind(alloc, (6, 6), 8, rest);
    let words = [Word(5), Word(1), Number(1), Word(3)];
    let rest = call(alloc, 9, project, &words, rest);
    let rest = load(alloc, 8, Word(8), 8, rest);
    let rest = compute(alloc, WordOp::Add, 8, (Word(8), Word(4)), rest);
    compute(alloc, WordOp::Sll, 8, (Word(1), Number(WORD_SHIFT)), rest)
}

// A part of what is in an object: the label is blamed where the kept type has none.
fn project_dyn_object(alloc: Global, first: u32) -> CodeResult
    requires room { first + 27 ≤ 2 ^ 32 }
    ensures { IfOk result (λ code. code_of code.value ≡ project_dyn_object first) }
{
    let branches = (project_dyn_part(alloc, first), blame(alloc, Word(3)));
    let rest = either(alloc, Cond::Ltu, (Word(1), Word(6)), branches);
    let branches = (rest, blame(alloc, Word(3)));
    let rest = by_kind(alloc, 7, Kind::TupleType, branches);
    let rest = compute(alloc, WordOp::Srl, 6, (Word(6), Number(COUNT_SHIFT)), rest);
    let rest = load_kind(alloc, (6, 7), 4, rest);
    let rest = load(alloc, 5, Word(0), 16, rest);
    load(alloc, 4, Word(0), 8, rest)
}

// A part of a Dyn: what stands behind a tag has none.
fn project_dyn(alloc: Global, first: u32) -> CodeResult
    requires room { first + 27 ≤ 2 ^ 32 }
    ensures { IfOk result (λ code. code_of code.value ≡ project_dyn first) }
{
    let branches = (project_dyn_object(alloc, first), blame(alloc, Word(3)));
    let rest = either(alloc, Cond::Eq, (Word(4), Number(0)), branches);
    compute(alloc, WordOp::And, 4, (Word(0), Number(TAG_MASK)), rest)
}

// A part of what a proxy stands on, by the part of its coercion.
fn project_proxy(alloc: Global, first: u32) -> CodeResult
    requires room { first + 27 ≤ 2 ^ 32 }
    ensures { IfOk result (λ code. code_of code.value ≡ project_proxy first) }
{
    let cast = CastProc::Cast.number(first);
    let rest = tail_call(alloc, cast, &[Word(8), Word(9)]);
    let rest = load(alloc, 9, Word(9), 8, rest);
    let rest = compute(alloc, WordOp::Add, 9, (Word(9), Word(6)), rest);
    let rest = load(alloc, 9, Word(0), 16, rest);
    let rest = load(alloc, 8, Word(8), 8, rest);
    let rest = compute(alloc, WordOp::Add, 8, (Word(8), Word(6)), rest);
    load(alloc, 8, Word(0), 8, rest)
}

// A part of a tuple, bare or with a proxy.
fn project_tuple(alloc: Global, first: u32) -> CodeResult
    requires room { first + 27 ≤ 2 ^ 32 }
    ensures { IfOk result (λ code. code_of code.value ≡ project_tuple first) }
{
    let rest = load(alloc, 8, Word(8), 8, answer(alloc, Word(8)));
    let bare = compute(alloc, WordOp::Add, 8, (Word(0), Word(6)), rest);
    let branches = (project_proxy(alloc, first), bare);
    let rest = by_kind(alloc, 7, Kind::Proxy, branches);
    let rest = load_kind(alloc, (7, 7), 0, rest);
    compute(alloc, WordOp::Sll, 6, (Word(1), Number(WORD_SHIFT)), rest)
}

/// The part with the number in word 1 of the value in word 0, which is in Dyn where word 2 is 0, and a tuple where it
/// is 1. The label in word 3 is blamed where the type that a Dyn keeps has no such part.
pub fn project_proc(alloc: Global, first: u32) -> Result<LowProc, OutOfMemory>
    requires room { first + 27 ≤ 2 ^ 32 }
    ensures { IfOk result (λ proc. proc_of proc ≡ project_proc first) }
{
    let branches = (project_dyn(alloc, first), project_tuple(alloc, first));
    let code = either(alloc, Cond::Eq, (Word(2), Number(0)), branches);
    proc(4, 12, code)
}
