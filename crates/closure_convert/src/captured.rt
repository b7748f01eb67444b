// The names that a function captures.

use crate::numbers::narrow;
use flat_ir::code::Operand;
use grift_base::lists::OutOfMemory;
use indexmap::IndexMap;
use smallvec::SmallVec;
use std::alloc::Global;
use std::marker::Model;

/// The names that a function captures, in order of first appearance, and by hashing the operand that each of them is.
/// Most functions capture few names, so that their list needs no memory of its own.
#[derive(Drop)]
pub struct Captured {
    names: SmallVec<u32, 8>,
    operands: IndexMap<u32, Operand>,
}

impl Model for Captured {
    ghost use Rattle.std.specs.Prelude.{◌≡◌, ℕ, List, nat_eq};
    ghost use Rattle.indexmap.specs.IndexMap.{get};
    ghost use Rattle.closure_convert.specs.Conversion.{captured_scope};

    ghost Value = { List ℕ };

    ghost view = { λ a. a.names.items };

    ghost invariant = { λ a. (name : ℕ) → get nat_eq a.operands name ≡ captured_scope a.names.items name };
}

impl Captured {
    ghost use Rattle.std.specs.Prelude.{◌≡◌, [], Some, IfOk, OnOk};
    ghost use Rattle.closure_convert.specs.Conversion.{captured_scope};
    ghost use Rattle.closure_convert.specs.Scopes.{with_name};

    /// No name.
    pub fn new(alloc: Global) -> Captured
        ensures { result ≡ [] }
    {
        Captured {
            names: SmallVec::new(alloc),
            operands: IndexMap::new(alloc),
        }
    }

    /// The operand that this name is, which is captured from now on.
    pub fn operand(&mut self, name: u32) -> Result<Operand, OutOfMemory>
        ensures names { OnOk result (self.new ≡ with_name self.old name) }
        ensures operand { IfOk result (λ o. captured_scope self.new name ≡ Some o) }
    {
        if let Some(operand) = self.operands.get(&name) {
            return Ok(*operand);
        }
        let operand = Operand::Captured(narrow(self.names.len() as u64)?);
        self.names.reserve(1)?;
        self.operands.insert(name, operand)?;
        self.names.push_reserved(name);
        Ok(operand)
    }

    /// The names in order.
    pub fn as_slice(&self) -> &[u32]
        ensures { result.now ≡ self.now }
    {
        self.names.as_slice()
    }
}
