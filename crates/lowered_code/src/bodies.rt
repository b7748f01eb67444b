// Bodies.

ghost use Rattle.std.specs.Prelude.{◌≡◌, ◌∷◌, IfOk, OnOk};
ghost use Rattle.flat_ir.specs.Views.{body_of};
ghost use Rattle.low_ir.specs.Views.{code_of};
ghost use Rattle.low_ir.specs.Procedures.{Done};
ghost use Rattle.lowered_code.specs.Emit.{Into, ToCaller, apply_words, call_bare, call_by, emit, give, group_code};
ghost use Rattle.lowered_code.specs.Emit.{is_sibling};
ghost use Rattle.lowered_code.specs.Steps.{ahead, Adds};

use crate::groups::Group;
use crate::numbering::TEST_PLACE;
use crate::operands::{fetch, fetch_all};
use crate::operations::{Emitter, source_at};
use crate::steps::{Emitted, Step, Steps};
use flat_ir::code::{FlatBody, Operand, Operands, Operation};
use grift_base::lists::OutOfMemory;
use grift_base::made::boxed;
use low_ir::code::LowSource::{Number, Word};
use low_ir::code::{LowCode, LowSource, LowSources};
use low_ir::codes::{CodeResult, answer, done, tail_call};
use machine_words::conditions::Cond;
use object_layout::kinds::Kind;

// Whether an operand is a function of the group of the procedure that runs, which is never a proxy.
fn is_sibling(operand: Operand) -> bool
    ensures { result ≡ is_sibling operand }
{
    matches!(operand, Operand::Sibling(_))
}

impl Emitter<'_> {
    // A function and its arguments.
    fn with_function(
        &self,
        function: LowSource,
        arguments: &LowSources,
    ) -> Result<LowSources, OutOfMemory>
        ensures { IfOk result (λ words. words ≡ function ∷ arguments.now) }
    {
        let mut words = LowSources::from_slice(self.alloc, &[function])?;
        words.extend(arguments.as_slice())?;
        Ok(words)
    }

    // What the procedure for calls is handed.
    fn apply_words(&self, function: LowSource, arguments: &LowSources) -> [LowSource; 8]
        ensures { result ≡ apply_words function arguments.now }
    {
        [
            function,
            source_at(arguments, 0),
            source_at(arguments, 1),
            source_at(arguments, 2),
            source_at(arguments, 3),
            source_at(arguments, 4),
            source_at(arguments, 5),
            Number(arguments.len()),
        ]
    }

    // A call of a function that is no proxy, whose answer is put into a word.
    fn call_bare_into(
        &self,
        steps: &mut Steps,
        function: LowSource,
        arguments: &LowSources,
        d: u32,
    ) -> Emitted
        ensures { OnOk result (Adds steps.old.steps.items steps.new.steps.items
            (λ k. call_bare self.now.shape function arguments.now (Into d k))) }
    {
        let test = self.shape.operand_word(TEST_PLACE)?;
        steps.push(Step::Load(test, function, 8))?;
        steps.push(Step::CallAt(d, Word(test), self.with_function(function, arguments)?))
    }

    // A call whose answer is put into a word, of a function that is known to be no proxy, or of any.
    fn call_into(
        &self,
        steps: &mut Steps,
        bare: bool,
        function: LowSource,
        arguments: &LowSources,
        d: u32,
    ) -> Emitted
        ensures { OnOk result (Adds steps.old.steps.items steps.new.steps.items
            (λ k. call_by self.now.run.now bare self.now.shape function arguments.now (Into d k))) }
    {
        if bare {
            return self.call_bare_into(steps, function, arguments, d);
        }
        let test = self.shape.operand_word(TEST_PLACE)?;
        let mut plain = Steps::new(self.alloc);
        plain.push(Step::Load(test, function, 8))?;
        plain.push(Step::CallAt(d, Word(test), self.with_function(function, arguments)?))?;
        let words = self.apply_words(function, arguments);
        let plain = plain.before(done(self.alloc));
        let applied = self.only_call(d, self.run.apply, &words);
        self.of_kind(steps, function, Kind::Closure, (plain, applied))
    }

    // A call of a function that is no proxy, whose answer goes to the caller.
    fn call_bare_last(
        &self,
        mut steps: Steps,
        function: LowSource,
        arguments: &LowSources,
    ) -> CodeResult
        ensures { IfOk result (λ code. code_of code.value ≡ ahead steps.steps.items
            (call_bare self.now.shape function arguments.now ToCaller)) }
    {
        let test = self.shape.operand_word(TEST_PLACE)?;
        steps.push(Step::Load(test, function, 8))?;
        let words = self.with_function(function, arguments)?;
        steps.before(boxed(self.alloc, LowCode::TailCallAt(Word(test), words)))
    }

    // A call whose answer goes to the caller, of a function that is known to be no proxy, or of any.
    fn call_last(
        &self,
        mut steps: Steps,
        bare: bool,
        function: LowSource,
        arguments: &LowSources,
    ) -> CodeResult
        ensures { IfOk result (λ code. code_of code.value ≡ ahead steps.steps.items
            (call_by self.now.run.now bare self.now.shape function arguments.now ToCaller)) }
    {
        if bare {
            return self.call_bare_last(steps, function, arguments);
        }
        let test = self.shape.operand_word(TEST_PLACE)?;
        let mut plain = Steps::new(self.alloc);
        plain.push(Step::Load(test, function, 8))?;
        let words = self.with_function(function, arguments)?;
        let plain = plain.before(boxed(self.alloc, LowCode::TailCallAt(Word(test), words)));
        self.of_kind(
            &mut steps,
            function,
            Kind::Closure,
            (plain, done(self.alloc)),
        )?;
        let words = self.apply_words(function, arguments);
        steps.before(tail_call(self.alloc, self.run.apply, &words))
    }

    // A group, where it has a function.
    fn group(
        &self,
        steps: &mut Steps,
        slot: u32,
        first: u32,
        count: u32,
        captured: &Operands,
    ) -> Emitted
        ensures { OnOk result (Adds steps.old.steps.items steps.new.steps.items
            (λ k. group_code self.now.shape slot first count captured.now k)) }
    {
        if count == 0 {
            return Ok(());
        }
        let group = Group {
            slot,
            first,
            others: count - 1,
        };
        self.make_group(steps, group, captured)
    }

    /// A body whose value is put into a word.
    #[cycle(emission)]
    pub fn emit_into(&self, steps: &mut Steps, body: &FlatBody, d: u32) -> Emitted
        ensures { OnOk result (Adds steps.old.steps.items steps.new.steps.items
            (λ k. emit self.now.run.now self.now.shape (body_of body.now) (Into d k))) }
    {
        let mut left = body;
        loop {
            match left {
                FlatBody::Give(operation) => return self.perform(steps, d, operation),
                FlatBody::Call(called, arguments) => {
                    let function = fetch(steps, self.shape, 0, *called)?;
                    let arguments = fetch_all(self.alloc, steps, self.shape, 1, arguments)?;
                    return self.call_into(steps, is_sibling(*called), function, &arguments, d);
                }
                FlatBody::Choose(operand, on_true, on_false) => {
                    let source = fetch(steps, self.shape, 0, *operand)?;
                    let one = self.inner(on_true, d);
                    let other = self.inner(on_false, d);
                    return steps.push_if((Cond::Ne, source, Number(0)), (one, other));
                }
                FlatBody::LetBody(slot, inner, rest) => {
                    self.emit_into(steps, inner, self.shape.local_word(*slot)?)?;
                    left = rest;
                }
                FlatBody::LetGroup(slot, first, count, captured, rest) => {
                    self.group(steps, *slot, *first, *count, captured)?;
                    left = rest;
                }
            }
        }
    }

    // A branch whose value is put into a word.
    #[cycle(emission)]
    fn inner(&self, body: &FlatBody, d: u32) -> CodeResult
        ensures { IfOk result (λ code. code_of code.value
            ≡ emit self.now.run.now self.now.shape (body_of body.now) (Into d Done)) }
    {
        let mut steps = Steps::new(self.alloc);
        self.emit_into(&mut steps, body, d)?;
        steps.before(done(self.alloc))
    }

    /// A body whose value goes to the caller.
    #[cycle(last)]
    pub fn emit_last(&self, body: &FlatBody) -> CodeResult
        ensures { IfOk result (λ code. code_of code.value
            ≡ emit self.now.run.now self.now.shape (body_of body.now) ToCaller) }
    {
        let mut steps = Steps::new(self.alloc);
        let mut left = body;
        loop {
            match left {
                FlatBody::Give(operation) => return self.give_last(steps, operation),
                FlatBody::Call(called, arguments) => {
                    let function = fetch(&mut steps, self.shape, 0, *called)?;
                    let arguments = fetch_all(self.alloc, &mut steps, self.shape, 1, arguments)?;
                    return self.call_last(steps, is_sibling(*called), function, &arguments);
                }
                FlatBody::Choose(operand, on_true, on_false) => {
                    let source = fetch(&mut steps, self.shape, 0, *operand)?;
                    let one = self.emit_last(on_true);
                    steps.push_if((Cond::Ne, source, Number(0)), (one, done(self.alloc)))?;
                    return steps.before(self.emit_last(on_false));
                }
                FlatBody::LetBody(slot, inner, rest) => {
                    self.emit_into(&mut steps, inner, self.shape.local_word(*slot)?)?;
                    left = rest;
                }
                FlatBody::LetGroup(slot, first, count, captured, rest) => {
                    self.group(&mut steps, *slot, *first, *count, captured)?;
                    left = rest;
                }
            }
        }
    }

    // The value of an operation goes to the caller.
    fn give_last(&self, mut steps: Steps, operation: &Operation) -> CodeResult
        ensures { IfOk result (λ code. code_of code.value ≡ ahead steps.steps.items
            (give self.now.run.now self.now.shape operation.now ToCaller)) }
    {
        match operation {
            Operation::Move(operand) => {
                let source = fetch(&mut steps, self.shape, 0, *operand)?;
                steps.before(answer(self.alloc, source))
            }
            Operation::Prim(..)
            | Operation::Cast(..)
            | Operation::Tuple(_)
            | Operation::Proj(..)
            | Operation::ProjDyn(..) => {
                let place = self.shape.operand_word(TEST_PLACE)?;
                self.perform(&mut steps, place, operation)?;
                steps.before(answer(self.alloc, Word(place)))
            }
        }
    }
}
