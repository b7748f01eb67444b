// Groups of functions: room is asked for, their objects are stored, and the allocation word moves past them.

ghost use Rattle.std.specs.Prelude.{◌≡◌, length, IfOk, OnOk};
ghost use Rattle.lowered_code.specs.Emit.{group_words, make_group, name_others, store_captured, store_others};
ghost use Rattle.lowered_code.specs.Steps.{Adds};

use crate::numbering::{TEST_PLACE, captured_offset, function_offset, narrow};
use crate::operands::{fetch, store_far};
use crate::operations::{Emitter, header};
use crate::steps::{Emitted, Step, Steps};
use flat_ir::code::Operands;
use low_ir::code::LowSource::{Number, Word};
use low_ir::code::WordOp;
use object_layout::kinds::Kind;

/// A group: the local name of its first function, the number of that one's procedure, and how many functions stand
/// behind the first.
#[derive(Clone, Copy, PartialEq, Eq)]
pub struct Group {
    pub slot: u32,
    pub first: u32,
    pub others: u32,
}

// The words of a group's objects, which has captured so many names.
fn group_words(captured: u32, others: u32) -> u64
    ensures { result ≡ group_words captured others }
{
    2 + captured as u64 + 2 * others as u64
}

impl Emitter<'_> {
    // The captured words are stored one after another, behind the address in a word.
    fn store_captured(&self, steps: &mut Steps, d: u32, captured: &Operands) -> Emitted
        ensures { OnOk result (Adds steps.old.steps.items steps.new.steps.items
            (λ k. store_captured self.now.shape d 0 captured.now k)) }
    {
        let test = self.shape.operand_word(TEST_PLACE)?;
        let mut place = 0;
        let mut left = captured.as_slice();
        while let [operand, rest @ ..] = left {
            let source = fetch(steps, self.shape, 0, *operand)?;
            store_far(steps, test, d, source, captured_offset(place))?;
            place = narrow(place as u64 + 1)?;
            left = rest;
        }
        Ok(())
    }

    // The functions behind the first are stored, behind the address in a word.
    fn store_others(&self, steps: &mut Steps, d: u32, captured: u32, group: Group) -> Emitted
        ensures { OnOk result (Adds steps.old.steps.items steps.new.steps.items
            (λ k. store_others self.now.shape d captured group.first 1 group.others k)) }
    {
        let test = self.shape.operand_word(TEST_PLACE)?;
        let address = self.shape.operand_word(0)?;
        let one = Number(header(Kind::Closure, 1)?);
        let mut place: u32 = 1;
        let mut left = group.others;
        while left != 0 {
            let offset = function_offset(captured, place);
            store_far(steps, test, d, one, offset)?;
            steps.push(Step::CodeOf(address, narrow(group.first as u64 + place as u64)?))?;
            store_far(steps, test, d, Word(address), offset + 8)?;
            place = narrow(place as u64 + 1)?;
            left -= 1;
        }
        Ok(())
    }

    // The functions behind the first get their local names.
    fn name_others(&self, steps: &mut Steps, captured: u32, group: Group) -> Emitted
        ensures { OnOk result (Adds steps.old.steps.items steps.new.steps.items
            (λ k. name_others self.now.shape group.slot captured 1 group.others k)) }
    {
        let first = self.shape.local_word(group.slot)?;
        let mut place: u32 = 1;
        let mut left = group.others;
        while left != 0 {
            let level = narrow(group.slot as u64 + place as u64)?;
            let offset = Number(function_offset(captured, place));
            steps.push(Step::Compute(
                WordOp::Add,
                self.shape.local_word(level)?,
                Word(first),
                offset,
            ))?;
            place = narrow(place as u64 + 1)?;
            left -= 1;
        }
        Ok(())
    }

    /// A group is made that has captured these operands, and its functions get their local names.
    pub fn make_group(&self, steps: &mut Steps, group: Group, captured: &Operands) -> Emitted
        ensures { OnOk result (Adds steps.old.steps.items steps.new.steps.items
            (λ k. make_group self.now.shape group.slot group.first group.others captured.now k)) }
    {
        let d = self.shape.local_word(group.slot)?;
        let code = self.shape.operand_word(0)?;
        let count = narrow(captured.len())?;
        let words = Number(group_words(count, group.others));
        steps.push(Step::Request(d, words))?;
        steps.push(Step::Store(Number(header(Kind::Closure, count as u64 + 1)?), Word(d), 0))?;
        steps.push(Step::CodeOf(code, group.first))?;
        steps.push(Step::Store(Word(code), Word(d), 8))?;
        self.store_captured(steps, d, captured)?;
        self.store_others(steps, d, count, group)?;
        steps.push(Step::Take(words))?;
        self.name_others(steps, count, group)
    }
}
