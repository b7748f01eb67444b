// Bodies without their end: what is bound in front of it, gathered one after another.

ghost use Rattle.std.specs.Prelude.{◌≡◌, ◌+◌, suc, [], IfOk, OnOk};
ghost use Rattle.flat_ir.specs.Bodies.{LetBody, LetGroup};
ghost use Rattle.flat_ir.specs.Views.{body_of};
ghost use Rattle.closure_convert.specs.Waits.{Puts, ahead, put};

use crate::numbers::narrow;
use flat_ir::code::{FlatBody, Operand, Operands};
use grift_base::lists::OutOfMemory;
use std::alloc::Global;

/// What is bound in front of a body.
#[derive(Drop)]
pub enum Wait {
    /// The value of a body gets this local name.
    Body(u32, FlatBody),
    /// The functions of a group get the local names from this one on: the number of the group's first procedure, how
    /// many functions it has, and what they capture.
    Group(u32, u32, u32, Operands),
}

impl Wait {
    // What is bound, and behind it this body.
    fn put(self, alloc: Global, rest: FlatBody) -> Result<FlatBody, OutOfMemory>
        ensures { IfOk result (λ body. body_of body ≡ put self (body_of rest)) }
    {
        let rest = Box::new(alloc, rest)?;
        Ok(match self {
            Wait::Body(slot, inner) => FlatBody::LetBody(slot, Box::new(alloc, inner)?, rest),
            Wait::Group(slot, first, count, captured) => {
                FlatBody::LetGroup(slot, first, count, captured, rest)
            }
        })
    }
}

/// What is bound in front of a body, the last one last, and the next local name.
#[derive(Drop)]
pub struct Waits {
    alloc: Global,
    waits: Vec<Wait>,
    pub depth: u32,
}

impl Waits {
    /// Nothing yet, where this is the next local name.
    pub fn new(alloc: Global, depth: u32) -> Waits
        ensures waits { result.waits.items ≡ [] }
        ensures depth { result.depth ≡ depth }
    {
        Waits {
            alloc,
            waits: Vec::new(alloc),
            depth,
        }
    }

    // Adds what is bound last.
    fn push(&mut self, wait: Wait) -> Result<(), OutOfMemory>
        ensures waits { OnOk result (Puts self.old.waits.items self.new.waits.items (put wait)) }
        ensures depth { self.new.depth ≡ self.old.depth }
    {
        self.waits.push(wait)?;
        Ok(())
    }

    /// The value of a body gets the next local name, which is the answer.
    pub fn bind(&mut self, inner: FlatBody) -> Result<Operand, OutOfMemory>
        ensures operand { IfOk result (λ o. o ≡ Operand.Local self.old.depth) }
        ensures waits { OnOk result (Puts self.old.waits.items self.new.waits.items
            (λ rest. LetBody self.old.depth (body_of inner) rest)) }
        ensures depth { OnOk result (self.new.depth ≡ suc self.old.depth) }
    {
        let slot = self.depth;
        self.push(Wait::Body(slot, inner))?;
        self.depth = narrow(slot as u64 + 1)?;
        Ok(Operand::Local(slot))
    }

    /// The functions of a group get the next local names.
    pub fn bind_group(
        &mut self,
        first: u32,
        count: u32,
        captured: Operands,
    ) -> Result<(), OutOfMemory>
        ensures waits { OnOk result (Puts self.old.waits.items self.new.waits.items
            (λ rest. LetGroup self.old.depth first count captured rest)) }
        ensures depth { OnOk result (self.new.depth ≡ self.old.depth + count) }
    {
        let slot = self.depth;
        self.push(Wait::Group(slot, first, count, captured))?;
        self.depth = narrow(slot as u64 + count as u64)?;
        Ok(())
    }

    /// All that is bound, and behind it this body.
    pub fn ahead_of(mut self, end: FlatBody) -> Result<FlatBody, OutOfMemory>
        ensures { IfOk result (λ body. body_of body ≡ ahead self.waits.items (body_of end)) }
    {
        let mut body = end;
        while let Some(wait) = self.waits.pop() {
            body = wait.put(self.alloc, body)?;
        }
        Ok(body)
    }
}
