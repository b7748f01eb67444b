// Pieces that procedures are made of, in front of other code; the other steps are those of `low_ir::codes`.

ghost use Rattle.machine_words.specs.declared.conditions.Cond.TheVariants.{Eq};
ghost use Rattle.object_layout.specs.Kinds.{kind_number};
ghost use Rattle.object_layout.specs.Words.{kind_mask};
ghost use Rattle.low_ir.specs.Codes.{Extends, Joins, either};
ghost use Rattle.low_ir.specs.declared.code.LowSource.TheVariants.{Number, Word};
ghost use Rattle.low_ir.specs.declared.code.WordOp.TheVariants.{And};
ghost use Rattle.low_ir.specs.Procedures.{Compute, Load, Return};
ghost use Rattle.rt_cast.specs.PartCodes.{put_header};

use crate::words::kind;
use low_ir::code::LowSource::{Number, Word};
use low_ir::code::{LowSource, WordOp};
use low_ir::codes::{CodeResult, answer, compute, either, load};
use machine_words::conditions::Cond;
use object_layout::kinds::Kind;
use object_layout::words::{HEIGHT_SHIFT, KIND_MASK};
use std::alloc::Global;

/// A word becomes the header of an object, whose height it was; the header is told without its height.
pub fn put_header(alloc: Global, word: u32, header: u64, rest: CodeResult) -> CodeResult
    ensures { Extends rest result (put_header word header) }
{
    let rest = compute(alloc, WordOp::Add, word, (Word(word), Number(header)), rest);
    compute(
        alloc,
        WordOp::Sll,
        word,
        (Word(word), Number(HEIGHT_SHIFT)),
        rest,
    )
}

/// The header of the object whose address is in a word goes into the first of two words, and its kind into the second.
pub fn load_kind(alloc: Global, words: (u32, u32), object: u32, rest: CodeResult) -> CodeResult
    ensures { Extends rest result (λ k. Load words.0 (Word object) 0
        (Compute And words.1 (Word words.0) (Number kind_mask) k)) }
{
    let (header, kind) = words;
    let rest = compute(
        alloc,
        WordOp::And,
        kind,
        (Word(header), Number(KIND_MASK)),
        rest,
    );
    load(alloc, header, Word(object), 0, rest)
}

/// One of two codes is done, by whether a word is the number of a kind.
pub fn by_kind(
    alloc: Global,
    word: u32,
    wanted: Kind,
    branches: (CodeResult, CodeResult),
) -> CodeResult
    ensures { Joins branches result (either Eq (Word word) (Number (kind_number wanted))) }
{
    either(alloc, Cond::Eq, (Word(word), kind(wanted)), branches)
}

/// A source is returned where a word is 0, and else the rest is done.
pub fn unless_zero(alloc: Global, word: u32, source: LowSource, rest: CodeResult) -> CodeResult
    ensures { Extends rest result (either Eq (Word word) (Number 0) (Return source)) }
{
    let branches = (answer(alloc, source), rest);
    either(alloc, Cond::Eq, (Word(word), Number(0)), branches)
}

/// A source is returned where the word of a coercion is 0, and else the coercion's header goes into the first of two
/// words and its kind into the second, and then the rest is done.
pub fn load_unless_id(
    alloc: Global,
    words: (u32, u32),
    coercion: u32,
    source: LowSource,
    rest: CodeResult,
) -> CodeResult
    ensures { Extends rest result (λ k. either Eq (Word coercion) (Number 0) (Return source)
        (Load words.0 (Word coercion) 0 (Compute And words.1 (Word words.0) (Number kind_mask) k))) }
{
    let rest = load_kind(alloc, words, coercion, rest);
    unless_zero(alloc, coercion, source, rest)
}
