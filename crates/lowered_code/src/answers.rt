// The end of a program: its answer is shown by its type.

ghost use Rattle.std.specs.Prelude.{◌≡◌, IfOk};
ghost use Rattle.grift_base.specs.Types.{DynRow};
ghost use Rattle.type_graph.specs.Rows.{row_of};
ghost use Rattle.grift_base.specs.AnswerKind.{answer_kind_number};
ghost use Rattle.object_layout.specs.Kinds.{kind_number};
ghost use Rattle.machine_words.specs.declared.conditions.Cond.TheVariants.{Eq};
ghost use Rattle.low_ir.specs.declared.code.LowSource.TheVariants.{Word, Number};
ghost use Rattle.low_ir.specs.Procedures.{Done, If};
ghost use Rattle.low_ir.specs.Views.{code_of, proc_of};
ghost use Rattle.lowered_code.specs.Lowered.{ends, entry_proc, open_object, open_small, show_by, show_compound};
ghost use Rattle.lowered_code.specs.Lowered.{show_kept};
ghost use Rattle.low_ir.specs.Codes.{Extends};

use crate::steps::Step;
use grift_base::environment::END_CALL;
use grift_base::lists::OutOfMemory;
use grift_base::verdicts::AnswerKind;
use low_ir::code::LowSource::{Number, Word};
use low_ir::code::{LowSource, WordOp};
use low_ir::codes::{CodeResult, answer, call, choose, compute, done, load, proc};
use low_ir::programs::LowProc;
use machine_words::conditions::Cond;
use object_layout::kinds::Kind;
use object_layout::words::{KIND_MASK, TAG_MASK, TAG_SHIFT, TYPE_OVER_TAG};
use std::alloc::Global;
use type_graph::rows::Row;

// The run ends with an answer of a kind and a word.
fn ends(alloc: Global, kind: AnswerKind, word: LowSource) -> CodeResult
    ensures { IfOk result (λ code. code_of code.value ≡ ends (answer_kind_number kind) word) }
{
    let kind = Number(u64::from(kind.number()));
    let step = Step::Environment(END_CALL, kind, word, 1, 1);
    step.before(alloc, answer(alloc, Number(0)))
}

// The end for what Dyn keeps where the kind of its type, in word 1, is this one.
fn ends_if(
    alloc: Global,
    kept: Kind,
    kind: AnswerKind,
    word: LowSource,
    rest: CodeResult,
) -> CodeResult
    ensures { Extends rest result
        (If Eq (Word 1) (Number (kind_number kept)) (ends (answer_kind_number kind) word) Done) }
{
    let ways = (ends(alloc, kind, word), done(alloc));
    choose(alloc, Cond::Eq, (Word(1), Number(kept.word())), ways, rest)
}

// The end for a value in Dyn that has parts, whose type's kind is in word 1.
fn show_compound(alloc: Global) -> CodeResult
    ensures { IfOk result (λ code. code_of code.value ≡ show_compound) }
{
    let zero = Number(0);
    let rest = ends(alloc, AnswerKind::Vector, zero);
    let rest = ends_if(alloc, Kind::RefType, AnswerKind::Boxed, zero, rest);
    let rest = ends_if(alloc, Kind::TupleType, AnswerKind::Tuple, zero, rest);
    ends_if(alloc, Kind::FunType, AnswerKind::Function, zero, rest)
}

// The end for any value in Dyn, whose type's kind is in word 1, and whose word is in word 2.
fn show_kept(alloc: Global) -> CodeResult
    ensures { IfOk result (λ code. code_of code.value ≡ show_kept) }
{
    let rest = show_compound(alloc);
    let rest = ends_if(alloc, Kind::UnitType, AnswerKind::Unit, Number(0), rest);
    let rest = ends_if(alloc, Kind::BoolType, AnswerKind::Bool, Word(2), rest);
    ends_if(alloc, Kind::IntType, AnswerKind::Int, Word(2), rest)
}

// Of a value in Dyn whose object's address is in word 0: the kind of its type into word 1, its word into word 2.
fn open_object(alloc: Global) -> CodeResult
    ensures { IfOk result (λ code. code_of code.value ≡ open_object) }
{
    let rest = load(alloc, 2, Word(0), 16, done(alloc));
    let rest = compute(alloc, WordOp::And, 1, (Word(1), Number(KIND_MASK)), rest);
    let rest = load(alloc, 1, Word(1), 0, rest);
    load(alloc, 1, Word(0), 8, rest)
}

// The same of one that stands in word 0 behind a tag, which is in word 1.
fn open_small(alloc: Global) -> CodeResult
    ensures { IfOk result (λ code. code_of code.value ≡ open_small) }
{
    let rest = compute(
        alloc,
        WordOp::Sra,
        2,
        (Word(0), Number(TAG_SHIFT)),
        done(alloc),
    );
    compute(
        alloc,
        WordOp::Add,
        1,
        (Word(1), Number(TYPE_OVER_TAG)),
        rest,
    )
}

// The end for a value in Dyn, whose word is word 0.
fn show_dyn(alloc: Global) -> CodeResult
    ensures { IfOk result (λ code. code_of code.value ≡ show_by DynRow) }
{
    let ways = (open_object(alloc), open_small(alloc));
    let rest = show_kept(alloc);
    let rest = choose(alloc, Cond::Eq, (Word(1), Number(0)), ways, rest);
    compute(alloc, WordOp::And, 1, (Word(0), Number(TAG_MASK)), rest)
}

// The end of a program whose answer, of a type of this row, is in word 0.
fn show_by(alloc: Global, row: &Row) -> CodeResult
    ensures { IfOk result (λ code. code_of code.value ≡ show_by (row_of row.now)) }
{
    match row {
        Row::Int => ends(alloc, AnswerKind::Int, Word(0)),
        Row::Bool => ends(alloc, AnswerKind::Bool, Word(0)),
        Row::Unit => ends(alloc, AnswerKind::Unit, Number(0)),
        Row::Dyn => show_dyn(alloc),
        Row::Fun(..) => ends(alloc, AnswerKind::Function, Number(0)),
        Row::Tuple(_) => ends(alloc, AnswerKind::Tuple, Number(0)),
        Row::Ref(_) => ends(alloc, AnswerKind::Boxed, Number(0)),
        Row::Vect(_) => ends(alloc, AnswerKind::Vector, Number(0)),
    }
}

/// The procedure that a program begins with: it calls the flat one of this number, and ends with its answer, shown by
/// the row of its type.
pub fn entry_proc(alloc: Global, entry: u32, answer: &Row) -> Result<LowProc, OutOfMemory>
    ensures { IfOk result (λ proc. proc_of proc ≡ entry_proc entry (row_of answer.now)) }
{
    proc(
        0,
        3,
        call(alloc, 0, entry, &[Number(0)], show_by(alloc, answer)),
    )
}
