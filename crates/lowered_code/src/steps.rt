// Code without its end: steps that are gathered one after another, since code begins with its first step.

ghost use Rattle.std.specs.Prelude.{◌≡◌, ◌++◌, ◌∷◌, [], IfOk, OnOk, IsOkAnd};
ghost use Rattle.low_ir.specs.Procedures.{If};
ghost use Rattle.low_ir.specs.Codes.{Extends};
ghost use Rattle.low_ir.specs.Views.{code_of};
ghost use Rattle.lowered_code.specs.Steps.{put, ahead, Adds};

use grift_base::lists::OutOfMemory;
use grift_base::made::{beside, both, boxed};
use low_ir::code::{LowCode, LowSource, LowSources, WordOp};
use low_ir::codes::CodeResult;
use machine_words::conditions::Cond;
use std::alloc::Global;

/// What a function answers that adds steps: no value, or want of memory.
pub type Emitted = Result<(), OutOfMemory>;

/// A step of code, without what is done next.
#[derive(Drop)]
pub enum Step {
    Set(u32, LowSource),
    Compute(WordOp, u32, LowSource, LowSource),
    Load(u32, LowSource, u32),
    Store(LowSource, LowSource, u32),
    CodeOf(u32, u32),
    Build(u32, LowSources),
    Request(u32, LowSource),
    Take(LowSource),
    Environment(u64, LowSource, LowSource, u32, u32),
    Call(u32, u32, LowSources),
    CallAt(u32, LowSource, LowSources),
    If(Cond, LowSource, LowSource, Box<LowCode>, Box<LowCode>),
}

impl Step {
    // The step, and behind it this code.
    fn put(self, rest: Box<LowCode>) -> LowCode
        ensures { code_of result ≡ put self (code_of rest.value) }
    {
        match self {
            Step::Set(d, a) => LowCode::Set(d, a, rest),
            Step::Compute(op, d, a, b) => LowCode::Compute(op, d, a, b, rest),
            Step::Load(d, a, offset) => LowCode::Load(d, a, offset, rest),
            Step::Store(b, a, offset) => LowCode::Store(b, a, offset, rest),
            Step::CodeOf(d, k) => LowCode::CodeOf(d, k, rest),
            Step::Build(d, words) => LowCode::Build(d, words, rest),
            Step::Request(d, n) => LowCode::Request(d, n, rest),
            Step::Take(n) => LowCode::Take(n, rest),
            Step::Environment(number, a, b, d, e) => LowCode::Environment(number, a, b, d, e, rest),
            Step::Call(d, k, words) => LowCode::Call(d, k, words, rest),
            Step::CallAt(d, f, words) => LowCode::CallAt(d, f, words, rest),
            Step::If(cond, a, b, one, other) => LowCode::If(cond, a, b, one, other, rest),
        }
    }

    /// The step, and behind it code that was made.
    pub fn before(self, alloc: Global, rest: CodeResult) -> CodeResult
        ensures { Extends rest result (put self) }
    {
        let (step, rest) = beside(self, rest)?;
        boxed(alloc, step.put(rest))
    }
}

/// Steps in order, the last one last.
#[derive(Drop)]
pub struct Steps {
    alloc: Global,
    steps: Vec<Step>,
}

impl Steps {
    /// No step.
    pub fn new(alloc: Global) -> Steps
        ensures { result.steps.items ≡ [] }
    {
        Steps {
            alloc,
            steps: Vec::new(alloc),
        }
    }

    // Adds a step at the end.
    fn append(&mut self, step: Step) -> Emitted
        ensures { OnOk result (self.new.steps.items ≡ self.old.steps.items ++ step ∷ []) }
    {
        self.steps.push(step)?;
        Ok(())
    }

    /// Adds a step at the end.
    pub fn push(&mut self, step: Step) -> Emitted
        ensures { OnOk result (Adds self.old.steps.items self.new.steps.items (put step)) }
    {
        self.append(step)?;
        Ok(())
    }

    /// Adds at the end what is done where a condition holds of two words, and what where not.
    pub fn push_if(
        &mut self,
        test: (Cond, LowSource, LowSource),
        branches: (CodeResult, CodeResult),
    ) -> Emitted
        ensures { OnOk result (IsOkAnd branches.0 (λ one. IsOkAnd branches.1 (λ other.
            Adds self.old.steps.items self.new.steps.items
            (If test.0 test.1 test.2 (code_of one.value) (code_of other.value))))) }
    {
        let (cond, a, b) = test;
        let (one, other) = both(branches.0, branches.1)?;
        self.push(Step::If(cond, a, b, one, other))
    }

    /// Adds a step at the end, and hands on the code that is done behind it.
    pub fn add<'a>(&mut self, step: Step, rest: &'a LowCode) -> Result<&'a LowCode, OutOfMemory>
        ensures added { OnOk result (Adds self.old.steps.items self.new.steps.items (put step)) }
        ensures rest { IfOk result (λ code. code.now ≡ rest.now) }
    {
        self.push(step)?;
        Ok(rest)
    }

    /// All steps, and behind them code that was made.
    pub fn before(mut self, end: CodeResult) -> CodeResult
        ensures { Extends end result (ahead self.steps.items) }
    {
        let mut code = end;
        while let Some(step) = self.steps.pop() {
            code = step.before(self.alloc, code);
        }
        code
    }
}
