// What the names of a function have become, and which names it captures.

ghost use Rattle.std.specs.Prelude.{◌≡◌, [], ◌∷◌, Some, IfOk, OnOk, length, drop, take};
ghost use Rattle.core_calc.specs.Views.{names_of};
ghost use Rattle.closure_convert.specs.Conversion.{Scope, bind_operands, nothing_known};
ghost use Rattle.closure_convert.specs.Keeping.{Kept, Opened};
ghost use Rattle.closure_convert.specs.Scopes.{Reaches, known, over, set_meaning, undone, with_free};

use crate::captured::Captured;
use core_calc::terms::VarId;
use flat_ir::code::Operand;
use grift_base::lists::OutOfMemory;
use indexmap::IndexMap;
use std::alloc::Global;

// What a name meant before it was bound.
#[derive(Drop)]
struct Meaning {
    name: u32,
    operand: Option<Operand>,
}

/// What the names of a function have become that are bound in it, what each of these meant before, and the names that
/// it captures in order of first appearance.
pub struct Names {
    bound: IndexMap<u32, Operand>,
    before: Vec<Meaning>,
    captured: Captured,
}

// By hand, so that each exit at which names are alive has one call in its proof, and not all that is in it.
impl Drop for Names {
    fn drop(self) {
        let Names {
            bound,
            before,
            captured,
        } = self;
        drop(bound);
        drop(before);
        drop(captured);
    }
}

impl Names {
    /// No name.
    pub fn new(alloc: Global) -> Names
        ensures known { known result ≡ nothing_known }
        ensures before { result.before.items ≡ [] }
        ensures captured { result.captured ≡ [] }
    {
        Names {
            bound: IndexMap::new(alloc),
            before: Vec::new(alloc),
            captured: Captured::new(alloc),
        }
    }

    // Gives a name a meaning, or none; what it meant before is the answer.
    fn set(&mut self, name: u32, meaning: Option<Operand>) -> Result<Option<Operand>, OutOfMemory>
        ensures answer { IfOk result (λ before. before ≡ known self.old name) }
        ensures known { OnOk result (known self.new ≡ set_meaning name meaning (known self.old)) }
        ensures before { self.new.before.items ≡ self.old.before.items }
        ensures captured { self.new.captured ≡ self.old.captured }
    {
        match meaning {
            Some(operand) => Ok(self.bound.insert(name, operand)?),
            None => Ok(self.bound.swap_remove(&name)),
        }
    }

    /// Binds a name.
    pub fn bind(&mut self, name: VarId, operand: Operand) -> Result<(), OutOfMemory>
        ensures known { OnOk result (known self.new ≡ set_meaning name.0 (Some operand) (known self.old)) }
        ensures opened { OnOk result (Opened self.old self.new) }
        ensures captured { self.new.captured ≡ self.old.captured }
    {
        let before = self.set(name.0, Some(operand))?;
        self.before.push(Meaning {
            name: name.0,
            operand: before,
        })?;
        Ok(())
    }

    /// Binds names at once; the first of equal names counts.
    pub fn bind_all(&mut self, names: &[VarId], operands: &[Operand]) -> Result<(), OutOfMemory>
        requires { length names.now ≡ length operands.now }
        ensures known { OnOk result
            (known self.new ≡ bind_operands (names_of names.now) operands.now (known self.old)) }
        ensures opened { OnOk result (Opened self.old self.new) }
        ensures captured { OnOk result (self.new.captured ≡ self.old.captured) }
    {
        let mut left = names.len();
        while left > 0 {
            left -= 1;
            self.bind(names[left], operands[left])?;
        }
        Ok(())
    }

    /// How often names were bound.
    pub fn mark(&self) -> usize
        ensures { result ≡ length self.now.before.items }
    {
        self.before.len()
    }

    /// Undoes all bindings but the first so many.
    pub fn undo(&mut self, mark: usize) -> Result<(), OutOfMemory>
        ensures known { OnOk result
            (known self.new ≡ undone (drop mark self.old.before.items) (known self.old)) }
        ensures before { OnOk result (self.new.before.items ≡ take mark self.old.before.items) }
        ensures captured { OnOk result (self.new.captured ≡ self.old.captured) }
    {
        while self.before.len() > mark {
            let Some(last) = self.before.pop() else {
                unreachable!();
            };
            self.set(last.name, last.operand)?;
        }
        Ok(())
    }

    /// The operand of a name, which is captured where it is not bound.
    pub fn operand(&mut self, name: u32) -> Result<Operand, OutOfMemory>
        ensures kept { OnOk result (Kept self.old self.new) }
        ensures captured { OnOk result
            (self.new.captured ≡ with_free (known self.old) self.old.captured name) }
        ensures meaning { IfOk result (λ o. (outer : Scope) → Reaches self.new.captured outer
            → over (known self.old) outer name ≡ Some o) }
    {
        if let Some(operand) = self.bound.get(&name) {
            return Ok(*operand);
        }
        let operand = self.captured.operand(name)?;
        Ok(operand)
    }

    /// The captured names in order.
    pub fn captured(&self) -> &[u32]
        ensures { result.now ≡ self.now.captured }
    {
        self.captured.as_slice()
    }
}
