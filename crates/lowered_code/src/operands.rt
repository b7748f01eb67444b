// Operands as sources.

ghost use Rattle.std.specs.Prelude.{◌≡◌, IfOk, OnOk};
ghost use Rattle.lowered_code.specs.Emit.{fetch, fetch_all, found, found_all, leader, leader_code, load_far, store_far};
ghost use Rattle.lowered_code.specs.Numbering.{operand_word};
ghost use Rattle.lowered_code.specs.Steps.{Adds};

use crate::numbering::{Shape, captured_offset, function_offset, narrow};
use crate::steps::{Emitted, Step, Steps};
use flat_ir::code::{Operand, Operands};
use grift_base::lists::OutOfMemory;
use low_ir::code::LowSource::{Number, Word};
use low_ir::code::{LowSource, LowSources, WordOp};
use std::alloc::Global;

/// Offsets below this one stand in a load or a store; others are added to the address first.
const NEAR: u64 = 2048;

/// A word is loaded at an offset of any size from an address.
pub fn load_far(steps: &mut Steps, d: u32, base: LowSource, offset: u64) -> Emitted
    ensures { OnOk result (Adds steps.old.steps.items steps.new.steps.items (λ k. load_far d base offset k)) }
{
    if offset < NEAR {
        steps.push(Step::Load(d, base, offset as u32))
    } else {
        steps.push(Step::Compute(WordOp::Add, d, base, Number(offset)))?;
        steps.push(Step::Load(d, Word(d), 0))
    }
}

/// A source is stored at an offset of any size from the address in a word. The word `scratch` is computed in.
pub fn store_far(
    steps: &mut Steps,
    scratch: u32,
    base: u32,
    source: LowSource,
    offset: u64,
) -> Emitted
    ensures { OnOk result
        (Adds steps.old.steps.items steps.new.steps.items (λ k. store_far scratch base source offset k)) }
{
    if offset < NEAR {
        steps.push(Step::Store(source, Word(base), offset as u32))
    } else {
        steps.push(Step::Compute(WordOp::Add, scratch, Word(base), Number(offset)))?;
        steps.push(Step::Store(source, Word(scratch), 0))
    }
}

// The first function of the group of the procedure that runs, found in a word if it is another.
fn leader(steps: &mut Steps, shape: Shape, d: u32) -> Result<LowSource, OutOfMemory>
    ensures source { IfOk result (λ source. source ≡ leader shape d) }
    ensures steps { OnOk result (Adds steps.old.steps.items steps.new.steps.items (λ k. leader_code shape d k)) }
{
    if shape.place == 0 {
        return Ok(Word(0));
    }
    let offset = function_offset(shape.captured, shape.place);
    steps.push(Step::Compute(WordOp::Sub, d, Word(0), Number(offset)))?;
    Ok(Word(d))
}

/// Where an operand is found. What is captured is loaded into the word for the operand of this place, and a function of
/// the group is found in it.
pub fn fetch(
    steps: &mut Steps,
    shape: Shape,
    place: u32,
    operand: Operand,
) -> Result<LowSource, OutOfMemory>
    ensures source { IfOk result (λ source. source ≡ found shape (operand_word shape place) operand) }
    ensures steps { OnOk result
        (Adds steps.old.steps.items steps.new.steps.items (λ k. fetch shape (operand_word shape place) operand k)) }
{
    let d = shape.operand_word(place)?;
    match operand {
        Operand::Local(level) => Ok(Word(shape.local_word(level)?)),
        Operand::Captured(i) => {
            let first = leader(steps, shape, d)?;
            load_far(steps, d, first, captured_offset(i))?;
            Ok(Word(d))
        }
        Operand::Sibling(i) => {
            let first = leader(steps, shape, d)?;
            let offset = function_offset(shape.captured, i);
            steps.push(Step::Compute(WordOp::Add, d, first, Number(offset)))?;
            Ok(Word(d))
        }
        Operand::Int(n) => Ok(Number(n.cast_unsigned())),
        Operand::Bool(b) => Ok(Number(b as u64)),
        Operand::Unit => Ok(Number(0)),
    }
}

/// Where operands are found, the first of them with the word of this place.
pub fn fetch_all(
    alloc: Global,
    steps: &mut Steps,
    shape: Shape,
    first: u32,
    operands: &Operands,
) -> Result<LowSources, OutOfMemory>
    ensures sources { IfOk result (λ sources. sources ≡ found_all shape first operands.now) }
    ensures steps { OnOk result
        (Adds steps.old.steps.items steps.new.steps.items (λ k. fetch_all shape first operands.now k)) }
{
    let mut sources = LowSources::new(alloc);
    let mut place = first;
    let mut left = operands.as_slice();
    while let [operand, rest @ ..] = left {
        sources.push(fetch(steps, shape, place, *operand)?)?;
        place = narrow(place as u64 + 1)?;
        left = rest;
    }
    Ok(sources)
}
