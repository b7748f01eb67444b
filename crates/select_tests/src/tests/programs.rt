// Programs over words, made of rows.

use grift_base::lists::OutOfMemory;
use grift_base::words::Statics;
use low_ir::code::{LowCode, LowSource, LowSources, WordOp};
use low_ir::programs::{LowProc, LowProcs, LowProgram};
use machine_words::conditions::Cond;
use rt_refs::procs::arithmetic_procs;
use std::alloc::Global;
use std::process::Abort;

// A step of a procedure, as `LowCode` has it, without what is done next.
#[derive(Clone, Copy)]
pub(crate) enum Op {
    Set(u32, LowSource),
    Compute(WordOp, u32, LowSource, LowSource),
    Load(u32, LowSource, u32),
    Store(LowSource, LowSource, u32),
    CodeOf(u32, u32),
    Build(u32, &'static [LowSource]),
    Request(u32, LowSource),
    Take(LowSource),
    Environment(u64, LowSource, LowSource, u32, u32),
    Call(u32, u32, &'static [LowSource]),
    CallAt(u32, LowSource, &'static [LowSource]),
    // Where a condition holds of two sources, a third is answered.
    Unless(Cond, LowSource, LowSource, LowSource),
    // Where a condition holds of two sources, the first of two words is set to its source, and else the second.
    SetEither(Cond, [LowSource; 2], (u32, LowSource), (u32, LowSource)),
}

// How a procedure ends.
pub(crate) enum End {
    Done,
    Return(LowSource),
    TailCall(u32, &'static [LowSource]),
    TailCallAt(LowSource, &'static [LowSource]),
}

// A procedure: how many words it takes, how many it has, and what it does.
pub(crate) struct Proc {
    pub(crate) params: u32,
    pub(crate) words: u32,
    pub(crate) steps: &'static [Op],
    pub(crate) end: End,
}

// A lone procedure that takes no words and has two.
macro_rules! of_two_words {
    ($steps:expr, $end:expr) => {
        &[Proc {
            params: 0,
            words: 2,
            steps: $steps,
            end: $end,
        }]
    };
}

pub(crate) use of_two_words;

// These sources.
pub(crate) fn sources(rt: &impl Abort, alloc: Global, words: &[LowSource]) -> LowSources {
    LowSources::from_slice(alloc, words).expect(rt, "memory")
}

// Code in a box, if there is memory for it.
fn put_in_box(alloc: Global, code: LowCode) -> Result<Box<LowCode>, OutOfMemory> {
    Ok(Box::new(alloc, code)?)
}

// Code in a box.
pub(crate) fn boxed(rt: &impl Abort, alloc: Global, code: LowCode) -> Box<LowCode> {
    put_in_box(alloc, code).expect(rt, "memory")
}

// A branch that sets a word.
fn set_alone(rt: &impl Abort, alloc: Global, set: &(u32, LowSource)) -> Box<LowCode> {
    let (d, a) = *set;
    let done = boxed(rt, alloc, LowCode::Done);
    boxed(rt, alloc, LowCode::Set(d, a, done))
}

// Where a condition holds of two sources the one code is done, else the other, and then the rest.
pub(crate) fn branches(
    rt: &impl Abort,
    alloc: Global,
    cond: Cond,
    compared: [LowSource; 2],
    one: LowCode,
    other: LowCode,
    rest: LowCode,
) -> LowCode {
    let [a, b] = compared;
    let one = boxed(rt, alloc, one);
    let other = boxed(rt, alloc, other);
    let rest = boxed(rt, alloc, rest);
    LowCode::If(cond, a, b, one, other, rest)
}

// A step, and what is done next.
pub(crate) fn step(rt: &impl Abort, alloc: Global, op: &Op, rest: LowCode) -> LowCode {
    let rest = boxed(rt, alloc, rest);
    match op {
        Op::Set(d, a) => LowCode::Set(*d, *a, rest),
        Op::Compute(op, d, a, b) => LowCode::Compute(*op, *d, *a, *b, rest),
        Op::Load(d, a, offset) => LowCode::Load(*d, *a, *offset, rest),
        Op::Store(a, b, offset) => LowCode::Store(*a, *b, *offset, rest),
        Op::CodeOf(d, k) => LowCode::CodeOf(*d, *k, rest),
        Op::Build(d, words) => LowCode::Build(*d, sources(rt, alloc, words), rest),
        Op::Request(d, a) => LowCode::Request(*d, *a, rest),
        Op::Take(a) => LowCode::Take(*a, rest),
        Op::Environment(kind, a, b, d, e) => LowCode::Environment(*kind, *a, *b, *d, *e, rest),
        Op::Call(d, k, words) => LowCode::Call(*d, *k, sources(rt, alloc, words), rest),
        Op::CallAt(d, a, words) => LowCode::CallAt(*d, *a, sources(rt, alloc, words), rest),
        Op::Unless(cond, a, b, answer) => {
            let one = boxed(rt, alloc, LowCode::Return(*answer));
            let other = boxed(rt, alloc, LowCode::Done);
            LowCode::If(*cond, *a, *b, one, other, rest)
        }
        Op::SetEither(cond, [a, b], one, other) => {
            let one = set_alone(rt, alloc, one);
            let other = set_alone(rt, alloc, other);
            LowCode::If(*cond, *a, *b, one, other, rest)
        }
    }
}

// Steps in their order, and what is done behind them.
pub(crate) fn steps(rt: &impl Abort, alloc: Global, steps: &[Op], rest: LowCode) -> LowCode {
    let mut code = rest;
    for op in steps.iter().rev() {
        code = step(rt, alloc, op, code);
    }
    code
}

// A step so many times, and what is done behind it.
pub(crate) fn repeated(
    rt: &impl Abort,
    alloc: Global,
    op: &Op,
    count: u64,
    rest: LowCode,
) -> LowCode {
    let mut code = rest;
    for _ in 0..count {
        code = step(rt, alloc, op, code);
    }
    code
}

// The last code of a procedure.
fn ended(rt: &impl Abort, alloc: Global, end: &End) -> LowCode {
    match end {
        End::Done => LowCode::Done,
        End::Return(a) => LowCode::Return(*a),
        End::TailCall(k, words) => LowCode::TailCall(*k, sources(rt, alloc, words)),
        End::TailCallAt(a, words) => LowCode::TailCallAt(*a, sources(rt, alloc, words)),
    }
}

// A procedure that takes so many words and has so many.
pub(crate) fn procedure(params: u32, words: u32, code: LowCode) -> LowProc {
    LowProc {
        params,
        words,
        code,
    }
}

// Adds a procedure that there was memory for.
pub(crate) fn push(rt: &impl Abort, procs: &mut LowProcs, made: Result<LowProc, OutOfMemory>) {
    procs.push(made.expect(rt, "memory")).expect(rt, "memory");
}

// The procedure of a row.
fn proc_of(rt: &impl Abort, alloc: Global, row: &Proc) -> LowProc {
    let code = steps(rt, alloc, row.steps, ended(rt, alloc, &row.end));
    procedure(row.params, row.words, code)
}

// Adds the procedures of these rows.
pub(crate) fn push_procs(rt: &impl Abort, alloc: Global, procs: &mut LowProcs, rows: &[Proc]) {
    for row in rows {
        push(rt, procs, Ok(proc_of(rt, alloc, row)));
    }
}

// A program without statics that begins with a procedure of that number.
pub(crate) fn program(alloc: Global, procs: LowProcs, entry: u32) -> LowProgram {
    LowProgram {
        procs,
        entry,
        statics: Statics::new(alloc),
    }
}

// A program of these rows, which begins with the first.
pub(crate) fn program_of(rt: &impl Abort, alloc: Global, rows: &[Proc]) -> LowProgram {
    let mut procs = LowProcs::new(alloc);
    push_procs(rt, alloc, &mut procs, rows);
    program(alloc, procs, 0)
}

// A program of a lone procedure that takes no words and has so many.
pub(crate) fn alone(rt: &impl Abort, alloc: Global, words: u32, code: LowCode) -> LowProgram {
    let mut procs = LowProcs::new(alloc);
    push(rt, &mut procs, Ok(procedure(0, words, code)));
    program(alloc, procs, 0)
}

// A program of the four procedures of products and quotients and those of these rows, which begins with the first of
// the rows.
pub(crate) fn with_arithmetic(rt: &impl Abort, alloc: Global, rows: &[Proc]) -> LowProgram {
    let mut procs = arithmetic_procs(alloc, 0).expect(rt, "memory");
    push_procs(rt, alloc, &mut procs, rows);
    program(alloc, procs, 4)
}
