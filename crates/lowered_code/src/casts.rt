// Casts: those that join Dyn with a type that has a tag are made in place where the word allows it.

ghost use Rattle.std.specs.Prelude.{◌≡◌, IfOk, OnOk, slice_get};
ghost use Rattle.coercion_norm.specs.Coercions.{rows_of};
ghost use Rattle.coercion_norm.specs.CastRows.{row_cast, row_casts};
ghost use Rattle.grift_base.specs.Types.{is_dyn};
ghost use Rattle.low_ir.specs.Procedures.{Done};
ghost use Rattle.low_ir.specs.Views.{code_of};
ghost use Rattle.lowered_code.specs.declared.served.CastWay.TheVariants.{IntoDyn, OutOfDyn};
ghost use Rattle.lowered_code.specs.CastWays.{cast_way, cast_ways, tag_number, tag_of, way_at};
ghost use Rattle.lowered_code.specs.Emit.{call_cast, cast_word, make_cast};
ghost use Rattle.lowered_code.specs.Steps.{Adds};

use crate::numbering::TEST_PLACE;
use crate::operations::Emitter;
use crate::served::{CastWay, CastWays, Tag};
use crate::steps::{Emitted, Step, Steps};
use coercion_norm::cast_rows::{CastRow, CastRows};
use grift_base::lists::OutOfMemory;
use grift_base::places::TypeId;
use low_ir::code::LowSource::{Number, Word};
use low_ir::code::{LowSource, WordOp};
use low_ir::codes::{CodeResult, compute, done};
use machine_words::conditions::Cond;
use object_layout::words::{TAG_MASK, TAG_SHIFT};
use std::alloc::Global;
use type_graph::rows::Row;
use type_graph::tables::TypeTable;

// Whether a type is Dyn, as one that isn't there is taken to be.
fn is_dyn(types: &TypeTable, place: TypeId) -> bool
    ensures { result ≡ is_dyn (rows_of types.now place.0) }
{
    place.0 >= types.len() || matches!(types.row(place), Row::Dyn)
}

// The tag of a type, if it has one.
fn tag_of(types: &TypeTable, place: TypeId) -> Option<Tag>
    ensures { result ≡ tag_of (rows_of types.now place.0) }
{
    if place.0 >= types.len() {
        return None;
    }
    match types.row(place) {
        Row::Int => Some(Tag::Int),
        Row::Bool => Some(Tag::Bool),
        Row::Unit => Some(Tag::Unit),
        Row::Dyn | Row::Fun(..) | Row::Tuple(..) | Row::Ref(..) | Row::Vect(..) => None,
    }
}

// How the cast of a row is made.
fn cast_way(types: &TypeTable, cast: &CastRow) -> CastWay
    ensures { result ≡ cast_way types.now (row_cast cast.now) }
{
    let (from, to) = (cast.from, cast.to);
    if is_dyn(types, from) {
        tag_of(types, to).map_or(CastWay::Called, CastWay::OutOfDyn)
    } else if is_dyn(types, to) {
        tag_of(types, from).map_or(CastWay::Called, CastWay::IntoDyn)
    } else {
        CastWay::Called
    }
}

/// How the casts of rows are made, over the types that they name.
pub fn cast_ways(
    alloc: Global,
    types: &TypeTable,
    casts: &CastRows,
) -> Result<CastWays, OutOfMemory>
    ensures { IfOk result (λ ways. ways ≡ cast_ways types.now (row_casts casts.now)) }
{
    let mut ways = CastWays::new(alloc);
    let mut left = casts.as_slice();
    while let [cast, rest @ ..] = left {
        ways.push(cast_way(types, cast))?;
        left = rest;
    }
    Ok(ways)
}

// The number of a tag.
fn tag_number(tag: Tag) -> u64
    ensures { result ≡ tag_number tag }
{
    match tag {
        Tag::Int => 1,
        Tag::Bool => 2,
        Tag::Unit => 3,
    }
}

impl Emitter<'_> {
    // The word that is handed on for a cast.
    fn cast_word(&self, number: u32) -> u64
        ensures { result ≡ cast_word (slice_get self.now.run.now.cast_at number) }
    {
        match self.run.cast_at.get(number as u64) {
            Some(word) => *word,
            None => 0,
        }
    }

    // How a cast is made.
    fn cast_way(&self, number: u32) -> CastWay
        ensures { result ≡ way_at (slice_get self.now.run.now.ways number) }
    {
        match self.run.ways.get(number as u64) {
            Some(way) => *way,
            None => CastWay::Called,
        }
    }

    // A cast by the procedure.
    fn call_cast(&self, steps: &mut Steps, d: u32, a: LowSource, number: u32) -> Emitted
        ensures { OnOk result (Adds steps.old.steps.items steps.new.steps.items
            (λ k. call_cast self.now.run.now d a number k)) }
    {
        let words = [a, Number(self.cast_word(number))];
        self.call(steps, d, self.run.cast, &words)
    }

    // A cast by the procedure, and nothing behind it.
    fn only_call_cast(&self, d: u32, a: LowSource, number: u32) -> CodeResult
        ensures { IfOk result (λ code. code_of code.value ≡ call_cast self.now.run.now d a number Done) }
    {
        self.only_call(d, self.run.cast, &[a, Number(self.cast_word(number))])
    }

    /// A cast of what a source is.
    pub fn make_cast(&self, steps: &mut Steps, d: u32, a: LowSource, number: u32) -> Emitted
        ensures { OnOk result (Adds steps.old.steps.items steps.new.steps.items (λ k.
            make_cast self.now.run.now self.now.shape d a number (way_at (slice_get self.now.run.now.ways number)) k)) }
    {
        match self.cast_way(number) {
            CastWay::Called => self.call_cast(steps, d, a, number),
            CastWay::IntoDyn(tag) => self.put_in_dyn(steps, d, a, number, tag),
            CastWay::OutOfDyn(tag) => self.take_from_dyn(steps, d, a, number, tag),
        }
    }

    // A word goes behind a tag, where its four upper bits are alike, so that the shift loses nothing.
    fn put_in_dyn(&self, steps: &mut Steps, d: u32, a: LowSource, number: u32, tag: Tag) -> Emitted
        ensures { OnOk result (Adds steps.old.steps.items steps.new.steps.items
            (λ k. make_cast self.now.run.now self.now.shape d a number (IntoDyn tag) k)) }
    {
        let shifted = self.shape.operand_word(TEST_PLACE)?;
        let back = self.shape.operand_word(1)?;
        let bits = Number(TAG_SHIFT);
        steps.push(Step::Compute(WordOp::Sll, shifted, a, bits))?;
        steps.push(Step::Compute(WordOp::Sra, back, Word(shifted), bits))?;
        let words = (Word(shifted), Number(tag_number(tag)));
        let tagged = compute(self.alloc, WordOp::Add, d, words, done(self.alloc));
        let called = self.only_call_cast(d, a, number);
        steps.push_if((Cond::Eq, Word(back), a), (tagged, called))
    }

    // A word is taken from behind a tag, where it has this one.
    fn take_from_dyn(
        &self,
        steps: &mut Steps,
        d: u32,
        a: LowSource,
        number: u32,
        tag: Tag,
    ) -> Emitted
        ensures { OnOk result (Adds steps.old.steps.items steps.new.steps.items
            (λ k. make_cast self.now.run.now self.now.shape d a number (OutOfDyn tag) k)) }
    {
        let found = self.shape.operand_word(TEST_PLACE)?;
        steps.push(Step::Compute(WordOp::And, found, a, Number(TAG_MASK)))?;
        let bits = (a, Number(TAG_SHIFT));
        let taken = compute(self.alloc, WordOp::Sra, d, bits, done(self.alloc));
        let called = self.only_call_cast(d, a, number);
        let tag = Number(tag_number(tag));
        steps.push_if((Cond::Eq, Word(found), tag), (taken, called))
    }
}
