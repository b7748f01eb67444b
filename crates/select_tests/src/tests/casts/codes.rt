// Programs over words that call the procedures of casts.

use grift_base::lists::OutOfMemory;
use grift_base::words::Statics;
use low_ir::code::{LowCode, LowSource, LowSources, WordOp};
use low_ir::programs::{LowProc, LowProcs, LowProgram};
use machine_words::conditions::Cond;
use rt_cast::procs::cast_procs;
use std::alloc::Global;
use std::process::Abort;

// The procedures of casts, which stand first in each program.
pub(crate) const COERCE: u32 = 0;

pub(crate) const COMPOSE: u32 = 1;

pub(crate) const CAST: u32 = 2;

// The procedure that goes round, behind the 27 of casts; the entry stands behind it.
pub(crate) const ROUNDS_PROC: u32 = 27;

// A word of the procedure.
pub(crate) fn word(number: u32) -> LowSource {
    LowSource::Word(number)
}

// A number.
pub(crate) fn number(n: u64) -> LowSource {
    LowSource::Number(n)
}

// These words.
fn sources(rt: &impl Abort, alloc: Global, words: &[LowSource]) -> LowSources {
    LowSources::from_slice(alloc, words).expect(rt, "memory")
}

// A code in a box, if there is memory for it.
fn put_in_box(alloc: Global, code: LowCode) -> Result<Box<LowCode>, OutOfMemory> {
    Ok(Box::new(alloc, code)?)
}

// A code in a box.
fn in_box(rt: &impl Abort, alloc: Global, code: LowCode) -> Box<LowCode> {
    put_in_box(alloc, code).expect(rt, "memory")
}

// The procedure goes round with these words.
pub(crate) fn round(rt: &impl Abort, alloc: Global, words: &[LowSource]) -> LowCode {
    LowCode::TailCall(ROUNDS_PROC, sources(rt, alloc, words))
}

// Word d is set to what an operation gives of it and a number, and then this is done.
pub(crate) fn change(
    rt: &impl Abort,
    alloc: Global,
    op: WordOp,
    d: u32,
    n: u64,
    rest: LowCode,
) -> LowCode {
    LowCode::Compute(op, d, word(d), number(n), in_box(rt, alloc, rest))
}

// Word d is loaded from the address in word 0 and an offset, and then this is done.
pub(crate) fn load(rt: &impl Abort, alloc: Global, d: u32, offset: u32, rest: LowCode) -> LowCode {
    LowCode::Load(d, word(0), offset, in_box(rt, alloc, rest))
}

// Word d is set to the answer of a procedure that takes these words, and then this is done.
pub(crate) fn call(
    rt: &impl Abort,
    alloc: Global,
    d: u32,
    procedure: u32,
    words: &[LowSource],
    rest: LowCode,
) -> LowCode {
    LowCode::Call(
        d,
        procedure,
        sources(rt, alloc, words),
        in_box(rt, alloc, rest),
    )
}

// Word d is set to an object of these words, and then this is done.
pub(crate) fn build(
    rt: &impl Abort,
    alloc: Global,
    d: u32,
    words: &[LowSource],
    rest: LowCode,
) -> LowCode {
    LowCode::Build(d, sources(rt, alloc, words), in_box(rt, alloc, rest))
}

// Answers a word where word 0 is a source, and else does this.
pub(crate) fn until(
    rt: &impl Abort,
    alloc: Global,
    last: LowSource,
    answer: LowSource,
    rest: LowCode,
) -> LowCode {
    let one = in_box(rt, alloc, LowCode::Return(answer));
    let other = in_box(rt, alloc, LowCode::Done);
    LowCode::If(Cond::Eq, word(0), last, one, other, in_box(rt, alloc, rest))
}

// A program with these procedures and statics, which begins with the procedure behind the one that goes round. Where
// the procedures of casts are not 27 it isn't closed: then it begins with none, or with one that takes words.
pub(crate) fn program(procs: LowProcs, statics: Statics) -> LowProgram {
    LowProgram {
        procs,
        entry: ROUNDS_PROC + 1,
        statics,
    }
}

// The procedures of casts, one that goes round, and one that begins.
pub(crate) fn procs_with(
    rt: &impl Abort,
    alloc: Global,
    goes_round: LowProc,
    begins: LowProc,
) -> LowProcs {
    let mut procs = cast_procs(alloc, 0).expect(rt, "memory");
    procs.push(goes_round).expect(rt, "memory");
    procs.push(begins).expect(rt, "memory");
    procs
}
