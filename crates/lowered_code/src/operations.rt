// Operations: what gives a value and calls no procedure of the program.

ghost use Rattle.std.specs.Prelude.{◌≡◌, ◌<◌, ◌∷◌, [], length, IfOk, OnOk, IsOkAnd};
ghost use Rattle.object_layout.specs.declared.kinds.Kind.TheVariants.{Boxed as BoxedKind, Tuple as TupleKind};
ghost use Rattle.object_layout.specs.Kinds.{kind_number};
ghost use Rattle.low_ir.specs.declared.code.LowSource.TheVariants.{Word, Number};
ghost use Rattle.low_ir.specs.declared.code.WordOp.TheVariants.{And, Xor, Slt, Sltu};
ghost use Rattle.object_layout.specs.Words.{kind_mask};
ghost use Rattle.flat_ir.specs.declared.code.Operation.TheVariants.{ProjDyn};
ghost use Rattle.low_ir.specs.Procedures.{Done, Set, Compute, Load, Store, Build, Environment, Call};
ghost use Rattle.low_ir.specs.Views.{code_of};
ghost use Rattle.lowered_code.specs.Emit.{fetch, fetch_all, found, found_all, header, of_kind, operator, part};
ghost use Rattle.lowered_code.specs.Emit.{perform, read_number};
ghost use Rattle.lowered_code.specs.Emit.{source_at, turned};
ghost use Rattle.lowered_code.specs.Numbering.{operand_word, test_word};
ghost use Rattle.lowered_code.specs.Steps.{Adds};

use crate::numbering::{Shape, TEST_PLACE};
use crate::operands::{fetch, fetch_all};
use crate::served::Served;
use crate::steps::{Emitted, Step, Steps};
use flat_ir::code::{Operand, Operands, Operation};
use grift_base::environment::{PRINT_BYTE_CALL, PRINT_INT_CALL, READ_INT_CALL, TRAP_CALL};
use grift_base::lists::OutOfMemory;
use grift_base::made::beside;
use grift_base::operators::PrimOp;
use grift_base::places::LabelId;
use grift_base::verdicts::Trap;
use low_ir::code::LowSource::{Number, Word};
use low_ir::code::{LowSource, LowSources, WordOp};
use low_ir::codes::{CodeResult, call, done, load, set, store};
use machine_words::conditions::Cond;
use object_layout::kinds::Kind;
use object_layout::words::{COUNT_UNIT, KIND_MASK};
use rt_refs::cells::{ASKS_BOX, ASKS_ELEMENT, ASKS_LENGTH};
use rt_refs::procs::{ASKS_QUOTIENT, ASKS_REMAINDER};
use std::alloc::Global;

// The byte of a line feed.
const LINE_FEED: u64 = 10;

/// A part of a tuple has a number below this.
const MOST_PARTS: i64 = 8;

/// The header of an object of a kind with so many words, of height 0.
pub fn header(kind: Kind, count: u64) -> Result<u64, OutOfMemory>
    ensures { IfOk result (λ word. word ≡ header (kind_number kind) count) }
{
    if count <= u32::MAX as u64 {
        Ok(kind.word() + COUNT_UNIT * count)
    } else {
        Err(OutOfMemory)
    }
}

/// The source at a place, 0 where there is none.
pub fn source_at(sources: &LowSources, place: u64) -> LowSource
    ensures { result ≡ source_at sources.now place }
{
    match sources.get(place) {
        Some(source) => *source,
        None => Number(0),
    }
}

/// What code needs to be made: where memory comes from, the procedures that serve, and what is known of the procedure.
#[derive(Clone, Copy)]
pub struct Emitter<'a> {
    pub alloc: Global,
    pub run: &'a Served,
    pub shape: Shape,
}

impl Emitter<'_> {
    /// A code that is one call.
    pub fn only_call(&self, d: u32, number: u32, words: &[LowSource]) -> CodeResult
        ensures { IfOk result (λ code. code_of code.value ≡ Call d number words.now Done) }
    {
        call(self.alloc, d, number, words, done(self.alloc))
    }

    // A word for tests becomes the kind of the object at an address.
    fn load_kind(&self, steps: &mut Steps, object: LowSource) -> Result<u32, OutOfMemory>
        ensures test { IfOk result (λ test. test ≡ test_word self.now.shape) }
        ensures added { OnOk result (Adds steps.old.steps.items steps.new.steps.items
            (λ k. Load (test_word self.now.shape) object 0 (Compute And (test_word self.now.shape)
            (Word (test_word self.now.shape)) (Number kind_mask) k))) }
    {
        let test = self.shape.operand_word(TEST_PLACE)?;
        steps.push(Step::Load(test, object, 0))?;
        steps.push(Step::Compute(WordOp::And, test, Word(test), Number(KIND_MASK)))?;
        Ok(test)
    }

    /// Goes one way where the object at an address is of a kind, and else the other.
    pub fn of_kind(
        &self,
        steps: &mut Steps,
        object: LowSource,
        kind: Kind,
        ways: (CodeResult, CodeResult),
    ) -> Emitted
        ensures { OnOk result (IsOkAnd ways.0 (λ one. IsOkAnd ways.1 (λ other.
            Adds steps.old.steps.items steps.new.steps.items
            (λ k. of_kind self.now.shape object (kind_number kind) (code_of one.value) (code_of other.value) k)))) }
    {
        let (ways, test) = beside(ways, self.load_kind(steps, object))?;
        steps.push_if((Cond::Eq, Word(test), Number(kind.word())), ways)
    }

    /// A procedure is called, and its answer put into a word.
    pub fn call(&self, steps: &mut Steps, d: u32, number: u32, words: &[LowSource]) -> Emitted
        ensures { OnOk result (Adds steps.old.steps.items steps.new.steps.items (λ k. Call d number words.now k)) }
    {
        let words = LowSources::from_slice(self.alloc, words)?;
        steps.push(Step::Call(d, number, words))
    }

    // What an operation gives of two sources, and then another one of that and 1.
    fn compute_twice(
        &self,
        steps: &mut Steps,
        d: u32,
        ops: (WordOp, WordOp),
        sources: (LowSource, LowSource),
    ) -> Emitted
        ensures { OnOk result (Adds steps.old.steps.items steps.new.steps.items
            (λ k. Compute ops.0 d sources.0 sources.1 (Compute ops.1 d (Word d) (Number 1) k))) }
    {
        let (op, then) = ops;
        steps.push(Step::Compute(op, d, sources.0, sources.1))?;
        steps.push(Step::Compute(then, d, Word(d), Number(1)))
    }

    // An environment call that goes on, with the value `()`.
    fn environment(&self, steps: &mut Steps, d: u32, number: u64, word: LowSource) -> Emitted
        ensures { OnOk result (Adds steps.old.steps.items steps.new.steps.items
            (λ k. Environment number word (Number 0) (test_word self.now.shape) (test_word self.now.shape)
            (Set d (Number 0) k))) }
    {
        let test = self.shape.operand_word(TEST_PLACE)?;
        steps.push(Step::Environment(number, word, Number(0), test, test))?;
        steps.push(Step::Set(d, Number(0)))
    }

    // The next number of the input. Where there is none, the program traps.
    fn read_number(&self, steps: &mut Steps, d: u32) -> Emitted
        ensures { OnOk result (Adds steps.old.steps.items steps.new.steps.items (λ k. read_number self.now.shape d k)) }
    {
        let number = self.shape.operand_word(0)?;
        let test = self.shape.operand_word(TEST_PLACE)?;
        let (zero, input) = (Number(0), Number(u64::from(Trap::Input.number())));
        steps.push(Step::Environment(READ_INT_CALL, zero, zero, number, test))?;
        let trapped = Step::Environment(TRAP_CALL, input, zero, test, test);
        let ways = (
            trapped.before(self.alloc, done(self.alloc)),
            done(self.alloc),
        );
        steps.push_if((Cond::Ne, Word(test), Number(0)), ways)?;
        steps.push(Step::Set(d, Word(number)))
    }

    // What is in a box.
    fn unbox(&self, steps: &mut Steps, d: u32, a: LowSource) -> Emitted
        ensures { OnOk result (Adds steps.old.steps.items steps.new.steps.items (λ k.
            of_kind self.now.shape a (kind_number BoxedKind) (Load d a 8 Done)
            (Call d self.now.run.now.read (Number 0 ∷ a ∷ Number 0 ∷ []) Done) k)) }
    {
        let loaded = load(self.alloc, d, a, 8, done(self.alloc));
        let read = self.only_call(d, self.run.read, &[Number(ASKS_BOX), a, Number(0)]);
        self.of_kind(steps, a, Kind::Boxed, (loaded, read))
    }

    // A new value for a box.
    fn set_box(&self, steps: &mut Steps, d: u32, a: LowSource, b: LowSource) -> Emitted
        ensures { OnOk result (Adds steps.old.steps.items steps.new.steps.items (λ k.
            of_kind self.now.shape a (kind_number BoxedKind) (Store b a 8 (Set d (Number 0) Done))
            (Call d self.now.run.now.write (Number 0 ∷ a ∷ Number 0 ∷ b ∷ []) Done) k)) }
    {
        let stored = set(self.alloc, d, Number(0), done(self.alloc));
        let stored = store(self.alloc, b, a, 8, stored);
        let written = self.only_call(d, self.run.write, &[Number(ASKS_BOX), a, Number(0), b]);
        self.of_kind(steps, a, Kind::Boxed, (stored, written))
    }

    // A box with a value.
    fn make_box(&self, steps: &mut Steps, d: u32, a: LowSource) -> Emitted
        ensures { OnOk result (Adds steps.old.steps.items steps.new.steps.items
            (λ k. Build d (Number (header (kind_number BoxedKind) 1) ∷ a ∷ []) k)) }
    {
        let words = LowSources::from_slice(self.alloc, &[Number(header(Kind::Boxed, 1)?), a])?;
        steps.push(Step::Build(d, words))
    }

    // An operator of up to three sources.
    fn operator(
        &self,
        steps: &mut Steps,
        d: u32,
        primitive: PrimOp,
        sources: (LowSource, LowSource, LowSource),
    ) -> Emitted
        ensures { OnOk result (Adds steps.old.steps.items steps.new.steps.items
            (λ k. operator self.now.run.now self.now.shape d primitive sources.0 sources.1 sources.2 k)) }
    {
        let (a, b, c) = sources;
        match primitive {
            PrimOp::Add => steps.push(Step::Compute(WordOp::Add, d, a, b)),
            PrimOp::Sub => steps.push(Step::Compute(WordOp::Sub, d, a, b)),
            PrimOp::Mul => self.call(steps, d, self.run.multiply, &[a, b]),
            PrimOp::Quot => self.call(steps, d, self.run.divide, &[a, b, Number(ASKS_QUOTIENT)]),
            PrimOp::Rem => self.call(steps, d, self.run.divide, &[a, b, Number(ASKS_REMAINDER)]),
            PrimOp::Lt => steps.push(Step::Compute(WordOp::Slt, d, a, b)),
            PrimOp::Gt => steps.push(Step::Compute(WordOp::Slt, d, b, a)),
            PrimOp::Le => self.compute_twice(steps, d, (WordOp::Slt, WordOp::Xor), (b, a)),
            PrimOp::Ge => self.compute_twice(steps, d, (WordOp::Slt, WordOp::Xor), (a, b)),
            PrimOp::Eq => self.compute_twice(steps, d, (WordOp::Xor, WordOp::Sltu), (a, b)),
            PrimOp::Not => steps.push(Step::Compute(WordOp::Xor, d, a, Number(1))),
            PrimOp::PrintInt => self.environment(steps, d, PRINT_INT_CALL, a),
            PrimOp::Newline => self.environment(steps, d, PRINT_BYTE_CALL, Number(LINE_FEED)),
            PrimOp::ReadInt => self.read_number(steps, d),
            PrimOp::MakeBox => self.make_box(steps, d, a),
            PrimOp::Unbox => self.unbox(steps, d, a),
            PrimOp::BoxSet => self.set_box(steps, d, a, b),
            PrimOp::MakeVector => self.call(steps, d, self.run.fill, &[a, b]),
            PrimOp::VectorRef => self.call(steps, d, self.run.read, &[Number(ASKS_ELEMENT), a, b]),
            PrimOp::VectorSet => {
                self.call(steps, d, self.run.write, &[Number(ASKS_ELEMENT), a, b, c])
            }
            PrimOp::VectorLength => {
                self.call(
                    steps,
                    d,
                    self.run.read,
                    &[Number(ASKS_LENGTH), a, Number(0)],
                )
            }
        }
    }

    // A part of what a source is: of a tuple, or by the procedure for parts.
    fn part(&self, steps: &mut Steps, d: u32, a: LowSource, i: i64) -> Emitted
        ensures { OnOk result (Adds steps.old.steps.items steps.new.steps.items
            (λ k. part self.now.run.now self.now.shape d a i k)) }
    {
        let words = [a, Number(i.cast_unsigned()), Number(1), Number(0)];
        if 0 <= i && i < MOST_PARTS {
            let loaded = load(self.alloc, d, a, 8 + 8 * i as u32, done(self.alloc));
            let taken = self.only_call(d, self.run.project, &words);
            self.of_kind(steps, a, Kind::Tuple, (loaded, taken))
        } else {
            self.call(steps, d, self.run.project, &words)
        }
    }

    // A part of a tuple.
    fn proj(&self, steps: &mut Steps, d: u32, operand: Operand, i: &i64) -> Emitted
        ensures { OnOk result (Adds steps.old.steps.items steps.new.steps.items (λ k.
            fetch self.now.shape (operand_word self.now.shape 0) operand (part self.now.run.now self.now.shape d
            (found self.now.shape (operand_word self.now.shape 0) operand) i.now k))) }
    {
        let source = fetch(steps, self.shape, 0, operand)?;
        self.part(steps, d, source, *i)?;
        Ok(())
    }

    // A part of what Dyn holds, and the label to blame.
    fn proj_dyn(
        &self,
        steps: &mut Steps,
        d: u32,
        operand: Operand,
        i: &i64,
        label: LabelId,
    ) -> Emitted
        ensures { OnOk result (Adds steps.old.steps.items steps.new.steps.items (λ k.
            perform self.now.run.now self.now.shape d (ProjDyn operand i.now label) k)) }
    {
        let source = fetch(steps, self.shape, 0, operand)?;
        let part = Number(i.cast_unsigned());
        let words = [source, part, Number(0), Number(label.0 as u64)];
        self.call(steps, d, self.run.project, &words)?;
        Ok(())
    }

    /// The value of an operation is put into a word.
    pub fn perform(&self, steps: &mut Steps, d: u32, operation: &Operation) -> Emitted
        ensures { OnOk result (Adds steps.old.steps.items steps.new.steps.items
            (λ k. perform self.now.run.now self.now.shape d operation.now k)) }
    {
        let shape = self.shape;
        match operation {
            Operation::Move(operand) => {
                let source = fetch(steps, shape, 0, *operand)?;
                steps.push(Step::Set(d, source))
            }
            Operation::Prim(operator, operands) => {
                let found = fetch_all(self.alloc, steps, shape, 0, operands)?;
                let sources = (
                    source_at(&found, 0),
                    source_at(&found, 1),
                    source_at(&found, 2),
                );
                self.operator(steps, d, *operator, sources)
            }
            Operation::Cast(operand, number) => {
                let source = fetch(steps, shape, 0, *operand)?;
                self.make_cast(steps, d, source, *number)
            }
            Operation::Tuple(parts) => self.tuple(steps, d, parts),
            Operation::Proj(operand, i) => self.proj(steps, d, *operand, i),
            Operation::ProjDyn(operand, i, label) => self.proj_dyn(steps, d, *operand, i, *label),
        }
    }

    // A tuple of operands.
    fn tuple(&self, steps: &mut Steps, d: u32, parts: &Operands) -> Emitted
        ensures { OnOk result (Adds steps.old.steps.items steps.new.steps.items (λ k.
            fetch_all self.now.shape 0 parts.now (Build d (Number (header (kind_number TupleKind) (length parts.now))
            ∷ found_all self.now.shape 0 parts.now) k))) }
    {
        let found = fetch_all(self.alloc, steps, self.shape, 0, parts)?;
        let first = Number(header(Kind::Tuple, parts.len())?);
        let mut words = LowSources::from_slice(self.alloc, &[first])?;
        words.extend(found.as_slice())?;
        steps.push(Step::Build(d, words))
    }
}
