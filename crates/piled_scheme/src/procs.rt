// The procedures of the scheme.

ghost use Rattle.std.specs.Prelude.{◌≡◌, ◌<◌, ◌^◌, IfOk, IsOkAnd};
ghost use Rattle.low_ir.specs.Codes.{Extends};
ghost use Rattle.machine_words.specs.declared.conditions.Cond.TheVariants.{Eq};
ghost use Rattle.low_ir.specs.Procedures.{Load, Return, Set, Store};
ghost use Rattle.low_ir.specs.declared.code.LowSource.TheVariants.{Number as NumberCase, Word};
ghost use Rattle.low_ir.specs.Codes.{either, proc};
ghost use Rattle.low_ir.specs.Views.{code_of, proc_of, procs_of};
ghost use Rattle.piled_scheme.specs.Codes.{blame_part, cast_proc, idle_proc, in_vector, piled_procs};
ghost use Rattle.piled_scheme.specs.Codes.{look, read_proc, set_proc, unbox_proc, write_proc};
ghost use Rattle.piled_scheme.specs.Piling.{wrapper_kind};

use grift_base::lists::OutOfMemory;
use grift_base::verdicts::Trap;
use low_ir::code::LowSource::{Number, Word};
use low_ir::code::{LowSource, WordOp};
use low_ir::codes::{
    CodeResult, answer, blame, build, compute, either, load, proc, set, store, tail_call, trap,
    with_proc,
};
use low_ir::programs::{LowProc, LowProcs};
use machine_words::conditions::Cond;
use object_layout::words::{COUNT_SHIFT, COUNT_UNIT, WORD_SHIFT};
use rt_cast::codes::{load_kind, unless_zero};
use rt_refs::cells::{ASKS_BOX, ASKS_LENGTH};
use rt_refs::fills::{fill_loop, fill_proc};
use rt_refs::procs::with_arithmetic;
use std::alloc::Global;

// The kind of wrappers, which no other object has.
const WRAPPER: u64 = 25;

// A word is stored at an offset of 8, and 0 is returned.
fn store_and_return(alloc: Global, word: LowSource, address: LowSource) -> CodeResult
    ensures { IfOk result (λ code. code_of code.value ≡ Store word address 8 (Return (NumberCase 0))) }
{
    store(alloc, word, address, 8, answer(alloc, Number(0)))
}

// Word 3 is one more than the label that is blamed.
fn blame_part(alloc: Global) -> CodeResult
    ensures { IfOk result (λ code. code_of code.value ≡ blame_part) }
{
    let rest = blame(alloc, Word(3));
    compute(alloc, WordOp::Sub, 3, (Word(3), Number(1)), rest)
}

// A cast: the value is kept, blamed or wrapped.
fn cast_proc(alloc: Global) -> Result<LowProc, OutOfMemory>
    ensures { IfOk result (λ proc. proc_of proc ≡ cast_proc) }
{
    let rest = unless_zero(alloc, 3, Word(0), blame_part(alloc));
    let header = Number(WRAPPER + 2 * COUNT_UNIT);
    let made = answer(alloc, Word(4));
    let branches = (build(alloc, 4, &[header, Word(0), Word(3)], made), rest);
    let rest = either(alloc, Cond::Eq, (Word(2), Number(1)), branches);
    let rest = compute(alloc, WordOp::Srl, 3, (Word(1), Number(1)), rest);
    let code = compute(alloc, WordOp::And, 2, (Word(1), Number(1)), rest);
    proc(2, 6, code)
}

// A procedure that is never called.
fn idle_proc(alloc: Global, params: u32) -> Result<LowProc, OutOfMemory>
    ensures { IfOk result (λ proc. proc_of proc ≡ idle_proc params) }
{
    proc(params, 8, answer(alloc, Number(0)))
}

// Where a wrapper stands at the address in word 0, it is passed, and what is done then goes by whether it does nothing;
// else the bare box is there.
fn by_wrapper(
    alloc: Global,
    ways: (CodeResult, CodeResult),
    bare: CodeResult,
) -> Result<LowProc, OutOfMemory>
    ensures { IfOk result (λ p. IsOkAnd ways.0 (λ one. IsOkAnd ways.1 (λ other. IsOkAnd bare (λ b.
        proc_of p ≡ proc 2 6 (look (either Eq (Word 2) (NumberCase wrapper_kind) (Load 3 (Word 0) 16
        (Load 0 (Word 0) 8 (either Eq (Word 3) (NumberCase 0) (code_of one.value) (code_of other.value))))
        (code_of b.value))))))) }
{
    let rest = either(alloc, Cond::Eq, (Word(3), Number(0)), ways);
    let rest = load(alloc, 0, Word(0), 8, rest);
    let branches = (load(alloc, 3, Word(0), 16, rest), bare);
    let rest = either(alloc, Cond::Eq, (Word(2), Number(WRAPPER)), branches);
    proc(2, 6, load_kind(alloc, (2, 2), 0, rest))
}

// What is in a bare box is answered, or blamed as word 1 says.
fn unbox_bare(alloc: Global) -> CodeResult
    ensures { IfOk result (λ code. code_of code.value ≡ either Eq (Word 1) (NumberCase 0)
        (Load 2 (Word 0) 8 (Return (Word 2))) (Set 3 (Word 1) blame_part)) }
{
    let blamed = set(alloc, 3, Word(1), blame_part(alloc));
    let found = load(alloc, 2, Word(0), 8, answer(alloc, Word(2)));
    either(alloc, Cond::Eq, (Word(1), Number(0)), (found, blamed))
}

// A box is read through its wrappers.
fn unbox_proc(alloc: Global, own: u32) -> Result<LowProc, OutOfMemory>
    ensures { IfOk result (λ proc. proc_of proc ≡ unbox_proc own) }
{
    let kept = tail_call(alloc, own, &[Word(0), Word(1)]);
    let ways = (kept, tail_call(alloc, own, &[Word(0), Word(3)]));
    by_wrapper(alloc, ways, unbox_bare(alloc))
}

// A box is written through its wrappers.
fn set_proc(alloc: Global, own: u32) -> Result<LowProc, OutOfMemory>
    ensures { IfOk result (λ proc. proc_of proc ≡ set_proc own) }
{
    let ways = (
        tail_call(alloc, own, &[Word(0), Word(1)]),
        blame_part(alloc),
    );
    by_wrapper(alloc, ways, store_and_return(alloc, Word(1), Word(0)))
}

// An index of a vector is tested.
fn in_vector(alloc: Global, rest: CodeResult) -> CodeResult
    ensures { Extends rest result in_vector }
{
    let rest = compute(alloc, WordOp::Add, 2, (Word(2), Word(1)), rest);
    let inside = compute(alloc, WordOp::Sll, 2, (Word(2), Number(WORD_SHIFT)), rest);
    let branches = (inside, trap(alloc, Trap::Index, 4, 5));
    let rest = either(alloc, Cond::Ltu, (Word(2), Word(4)), branches);
    let rest = compute(alloc, WordOp::Srl, 4, (Word(4), Number(COUNT_SHIFT)), rest);
    load(alloc, 4, Word(1), 0, rest)
}

// Reads, told the number of the procedure that reads boxes.
fn read_proc(alloc: Global, unbox: u32) -> Result<LowProc, OutOfMemory>
    ensures { IfOk result (λ proc. proc_of proc ≡ read_proc unbox) }
{
    let count = answer(alloc, Word(4));
    let length = compute(alloc, WordOp::Srl, 4, (Word(4), Number(COUNT_SHIFT)), count);
    let length = load(alloc, 4, Word(1), 0, length);
    let element = load(alloc, 2, Word(2), 8, answer(alloc, Word(2)));
    let branches = (length, in_vector(alloc, element));
    let vector = either(alloc, Cond::Eq, (Word(0), Number(ASKS_LENGTH)), branches);
    let branches = (tail_call(alloc, unbox, &[Word(1), Number(0)]), vector);
    let code = either(alloc, Cond::Eq, (Word(0), Number(ASKS_BOX)), branches);
    proc(3, 6, code)
}

// Writes, told the number of the procedure that writes boxes.
fn write_proc(alloc: Global, set: u32) -> Result<LowProc, OutOfMemory>
    ensures { IfOk result (λ proc. proc_of proc ≡ write_proc set) }
{
    let element = in_vector(alloc, store_and_return(alloc, Word(3), Word(2)));
    let branches = (tail_call(alloc, set, &[Word(1), Word(3)]), element);
    let code = either(alloc, Cond::Eq, (Word(0), Number(ASKS_BOX)), branches);
    proc(4, 6, code)
}

/// All procedures, numbered from `first` on.
pub fn piled_procs(alloc: Global, first: u32) -> Result<LowProcs, OutOfMemory>
    requires { first < 2 ^ 31 }
    ensures { IfOk result (λ procs. procs_of procs ≡ piled_procs first) }
{
    let procs = with_proc(Ok(LowProcs::new(alloc)), cast_proc(alloc));
    let procs = with_proc(procs, idle_proc(alloc, 4));
    let procs = with_proc(procs, idle_proc(alloc, 8));
    let procs = with_proc(procs, read_proc(alloc, 7 + first));
    let procs = with_proc(procs, write_proc(alloc, 8 + first));
    let procs = with_proc(procs, fill_proc(alloc, 6 + first));
    let procs = with_proc(procs, fill_loop(alloc, 6 + first));
    let procs = with_proc(procs, unbox_proc(alloc, 7 + first));
    let procs = with_proc(procs, set_proc(alloc, 8 + first));
    with_arithmetic(alloc, procs, 9 + first)
}
