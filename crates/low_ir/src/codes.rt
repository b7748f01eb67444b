// Code in front of other code, and the procedures that are made of it. `Err` is want of memory for the boxes and lists
// that the code is made of, and nothing else: whether what is made may stand in a program, `LowProgram::is_closed`
// tells of the whole. What is made is handed on as it was answered, so a function that makes code has no exit: where
// memory was wanting once, all that is put in front of it is `Err` too.

ghost use Rattle.std.specs.Prelude.{◌≡◌, ◌+◌, ◌≤◌, ◌^◌, ◌++◌, ◌∷◌, [], List, IfOk, IsOkAnd};
ghost use Rattle.low_ir.specs.Procedures.{Proc, Done, Set, Compute, Load, Store, Build, Request, Take, Call, CallAt};
ghost use Rattle.low_ir.specs.Procedures.{If};
ghost use Rattle.low_ir.specs.Procedures.{Return, TailCall};
ghost use Rattle.low_ir.specs.Views.{code_of, proc_of, procs_of};
ghost use Rattle.low_ir.specs.Codes.{Extends, Joins, Chooses};
ghost use Rattle.low_ir.specs.Codes.{proc, either, words_from, blame_code, trap_code};

use crate::code::LowSource::{Number, Word};
use crate::code::{LowCode, LowSource, LowSources, WordOp};
use crate::programs::{LowProc, LowProcs};
use grift_base::environment::{BLAME_CALL, TRAP_CALL};
use grift_base::lists::OutOfMemory;
use grift_base::made::{both, boxed};
use grift_base::verdicts::Trap;
use machine_words::conditions::Cond;
use std::alloc::Global;

/// Code that was made, or want of memory.
pub type CodeResult = Result<Box<LowCode>, OutOfMemory>;

/// Nothing is done but what stands behind the branch that ends here.
pub fn done(alloc: Global) -> CodeResult
    ensures { IfOk result (λ code. code_of code.value ≡ Done) }
{
    boxed(alloc, LowCode::Done)
}

/// The procedure's answer.
pub fn answer(alloc: Global, source: LowSource) -> CodeResult
    ensures { IfOk result (λ code. code_of code.value ≡ Return source) }
{
    boxed(alloc, LowCode::Return(source))
}

/// A word is set, and then the rest is done.
pub fn set(alloc: Global, word: u32, source: LowSource, rest: CodeResult) -> CodeResult
    ensures { Extends rest result (Set word source) }
{
    boxed(alloc, LowCode::Set(word, source, rest?))
}

/// A word is set to what an operation gives of two, and then the rest is done.
pub fn compute(
    alloc: Global,
    op: WordOp,
    word: u32,
    operands: (LowSource, LowSource),
    rest: CodeResult,
) -> CodeResult
    ensures { Extends rest result (Compute op word operands.0 operands.1) }
{
    boxed(
        alloc,
        LowCode::Compute(op, word, operands.0, operands.1, rest?),
    )
}

/// A word is loaded from an address and an offset in bytes, and then the rest is done. In a closed program the offset
/// is below 2,048, which an instruction holds.
pub fn load(
    alloc: Global,
    word: u32,
    address: LowSource,
    offset: u32,
    rest: CodeResult,
) -> CodeResult
    ensures { Extends rest result (Load word address offset) }
{
    boxed(alloc, LowCode::Load(word, address, offset, rest?))
}

/// A word is stored at an address and an offset in bytes, and then the rest is done.
pub fn store(
    alloc: Global,
    word: LowSource,
    address: LowSource,
    offset: u32,
    rest: CodeResult,
) -> CodeResult
    ensures { Extends rest result (Store word address offset) }
{
    boxed(alloc, LowCode::Store(word, address, offset, rest?))
}

/// An object of these words is built, and then the rest is done. In a closed program there are fewer than 256 of them.
pub fn build(alloc: Global, word: u32, words: &[LowSource], rest: CodeResult) -> CodeResult
    ensures { Extends rest result (Build word words.now) }
{
    let (words, rest) = both(LowSources::from_slice(alloc, words), rest)?;
    boxed(alloc, LowCode::Build(word, words, rest))
}

/// Room for a number of words is asked for, and then the rest is done.
pub fn request(alloc: Global, word: u32, count: LowSource, rest: CodeResult) -> CodeResult
    ensures { Extends rest result (Request word count) }
{
    boxed(alloc, LowCode::Request(word, count, rest?))
}

/// The allocation word moves past a number of words, and then the rest is done.
pub fn take(alloc: Global, count: LowSource, rest: CodeResult) -> CodeResult
    ensures { Extends rest result (Take count) }
{
    boxed(alloc, LowCode::Take(count, rest?))
}

/// A procedure is called with these words, and then the rest is done.
pub fn call(
    alloc: Global,
    word: u32,
    procedure: u32,
    words: &[LowSource],
    rest: CodeResult,
) -> CodeResult
    ensures { Extends rest result (Call word procedure words.now) }
{
    let (words, rest) = both(LowSources::from_slice(alloc, words), rest)?;
    boxed(alloc, LowCode::Call(word, procedure, words, rest))
}

/// The procedure with a code address is called with these words, and then the rest is done.
pub fn call_at(
    alloc: Global,
    word: u32,
    address: LowSource,
    words: &[LowSource],
    rest: CodeResult,
) -> CodeResult
    ensures { Extends rest result (CallAt word address words.now) }
{
    let (words, rest) = both(LowSources::from_slice(alloc, words), rest)?;
    boxed(alloc, LowCode::CallAt(word, address, words, rest))
}

/// A procedure goes on with these words.
pub fn tail_call(alloc: Global, procedure: u32, words: &[LowSource]) -> CodeResult
    ensures { IfOk result (λ code. code_of code.value ≡ TailCall procedure words.now) }
{
    let words = LowSources::from_slice(alloc, words)?;
    boxed(alloc, LowCode::TailCall(procedure, words))
}

/// What is done where a condition holds of two words, what where not, and what behind both.
pub fn choose(
    alloc: Global,
    cond: Cond,
    operands: (LowSource, LowSource),
    branches: (CodeResult, CodeResult),
    rest: CodeResult,
) -> CodeResult
    ensures { Chooses branches rest result (If cond operands.0 operands.1) }
{
    let ((one, other), rest) = both(both(branches.0, branches.1), rest)?;
    boxed(
        alloc,
        LowCode::If(cond, operands.0, operands.1, one, other, rest),
    )
}

/// One of two codes is done, by whether a condition holds of two words.
pub fn either(
    alloc: Global,
    cond: Cond,
    operands: (LowSource, LowSource),
    branches: (CodeResult, CodeResult),
) -> CodeResult
    ensures { Joins branches result (either cond operands.0 operands.1) }
{
    choose(alloc, cond, operands, branches, done(alloc))
}

/// The label of this number is blamed. The call of the environment doesn't go on; its answers would go to words 4 and
/// 5, so a procedure with this code has six words at least.
pub fn blame(alloc: Global, label: LowSource) -> CodeResult
    ensures { IfOk result (λ code. code_of code.value ≡ blame_code label) }
{
    let rest = answer(alloc, Number(0))?;
    boxed(
        alloc,
        LowCode::Environment(BLAME_CALL, label, Number(0), 4, 5, rest),
    )
}

/// A trap, by a call of the environment that doesn't go on; its answers would go to these two words.
pub fn trap(alloc: Global, trap: Trap, first: u32, second: u32) -> CodeResult
    ensures { IfOk result (λ code. code_of code.value ≡ trap_code trap first second) }
{
    let kind = Number(u64::from(trap.number()));
    let rest = answer(alloc, Number(0))?;
    boxed(
        alloc,
        LowCode::Environment(TRAP_CALL, kind, Number(0), first, second, rest),
    )
}

/// A source, and behind it so many words from one on, in their order.
pub fn with_words(
    alloc: Global,
    source: LowSource,
    from: u32,
    count: u32,
) -> Result<Vec<LowSource>, OutOfMemory>
    requires room { from + count ≤ 2 ^ 32 }
    ensures { IfOk result (λ sources. sources.items ≡ source ∷ words_from count from) }
{
    let mut sources = Vec::new(alloc);
    sources.push(source)?;
    for k in 0..count {
        sources.push(Word(from + k))?;
    }
    Ok(sources)
}

/// A procedure that takes so many words, and has so many.
pub fn proc(params: u32, words: u32, code: CodeResult) -> Result<LowProc, OutOfMemory>
    ensures { IfOk result (λ p. IsOkAnd code (λ c. proc_of p ≡ proc params words (code_of c.value))) }
{
    let code = Box::into_inner(code?);
    Ok(LowProc {
        params,
        words,
        code,
    })
}

/// A procedure goes last, where it and those before it were made. So its caller holds no value at an exit.
pub fn with_proc(
    procs: Result<LowProcs, OutOfMemory>,
    made: Result<LowProc, OutOfMemory>,
) -> Result<LowProcs, OutOfMemory>
    ensures { (before : List Proc) (last : Proc) → IfOk procs (λ all. procs_of all ≡ before)
        → IfOk made (λ p. proc_of p ≡ last) → IfOk result (λ all. procs_of all ≡ before ++ last ∷ []) }
{
    let (mut procs, made) = both(procs, made)?;
    procs.push(made)?;
    Ok(procs)
}
