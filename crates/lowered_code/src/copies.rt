// Copies of procedures: a list hands out no element of its own, so procedures of one list go into another as copies.

ghost use Rattle.std.specs.Prelude.{◌≡◌, ◌++◌, IfOk, OnOk};
ghost use Rattle.low_ir.specs.Views.{code_of, procs_of};
ghost use Rattle.lowered_code.specs.Steps.{words_named};

use crate::steps::{Step, Steps};
use grift_base::lists::OutOfMemory;
use grift_base::made::{both, boxed};
use low_ir::code::{LowCode, LowSources};
use low_ir::codes::{self, CodeResult, answer, done};
use low_ir::programs::{LowProc, LowProcs};
use std::alloc::Global;

// A copy of the words that the first step of code hands on.
fn copied_words(alloc: Global, code: &LowCode) -> Result<LowSources, OutOfMemory>
    ensures { IfOk result (λ words. words ≡ words_named (code_of code.now)) }
{
    match code {
        LowCode::Build(_, words, _) => LowSources::from_slice(alloc, words.as_slice()),
        LowCode::Call(_, _, words, _) => LowSources::from_slice(alloc, words.as_slice()),
        LowCode::CallAt(_, _, words, _) => LowSources::from_slice(alloc, words.as_slice()),
        LowCode::TailCall(_, words) => LowSources::from_slice(alloc, words.as_slice()),
        LowCode::TailCallAt(_, words) => LowSources::from_slice(alloc, words.as_slice()),
        _ => Ok(LowSources::new(alloc)),
    }
}

// A copy of code. Recursion goes into branches alone.
#[cycle(copies)]
fn copied(alloc: Global, code: &LowCode) -> CodeResult
    ensures { IfOk result (λ copy. code_of copy.value ≡ code_of code.now) }
{
    let mut steps = Steps::new(alloc);
    let mut left = code;
    loop {
        let words = copied_words(alloc, left)?;
        let (step, rest) = match left {
            LowCode::Done => return steps.before(done(alloc)),
            LowCode::Set(d, a, rest) => (Step::Set(*d, *a), rest),
            LowCode::Compute(op, d, a, b, rest) => (Step::Compute(*op, *d, *a, *b), rest),
            LowCode::Load(d, a, at, rest) => (Step::Load(*d, *a, *at), rest),
            LowCode::Store(b, a, at, rest) => (Step::Store(*b, *a, *at), rest),
            LowCode::CodeOf(d, k, rest) => (Step::CodeOf(*d, *k), rest),
            LowCode::Build(d, _, rest) => (Step::Build(*d, words), rest),
            LowCode::Request(d, n, rest) => (Step::Request(*d, *n), rest),
            LowCode::Take(n, rest) => (Step::Take(*n), rest),
            LowCode::Environment(number, a, b, d, e, rest) => {
                (Step::Environment(*number, *a, *b, *d, *e), rest)
            }
            LowCode::Call(d, k, _, rest) => (Step::Call(*d, *k, words), rest),
            LowCode::CallAt(d, f, _, rest) => (Step::CallAt(*d, *f, words), rest),
            LowCode::If(cond, a, b, one, other, rest) => {
                let (one, other) = both(copied(alloc, one), copied(alloc, other))?;
                (Step::If(*cond, *a, *b, one, other), rest)
            }
            LowCode::Return(a) => return steps.before(answer(alloc, *a)),
            LowCode::TailCall(k, _) => {
                return steps.before(boxed(alloc, LowCode::TailCall(*k, words)));
            }
            LowCode::TailCallAt(f, _) => {
                return steps.before(boxed(alloc, LowCode::TailCallAt(*f, words)));
            }
        };
        left = steps.add(step, rest)?;
    }
}

/// Copies of these procedures go to the end of a list.
pub fn push_copies(alloc: Global, procs: &mut LowProcs, more: &[LowProc]) -> Result<(), OutOfMemory>
    ensures { OnOk result (procs_of procs.new ≡ procs_of procs.old ++ procs_of more.now) }
{
    let mut left = more;
    while let [proc, rest @ ..] = left {
        let copy = codes::proc(proc.params, proc.words, copied(alloc, &proc.code))?;
        procs.push(copy)?;
        left = rest;
    }
    Ok(())
}
