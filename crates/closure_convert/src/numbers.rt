// Numbers of names and procedures.

ghost use Rattle.std.specs.Prelude.{◌≡◌, ◌++◌, IfOk};
ghost use Rattle.closure_convert.specs.Numbers.{counted, operand_of};

use flat_ir::code::{Operand, Operands};
use grift_base::lists::OutOfMemory;
use std::alloc::Global;

/// A number of 32 bits. No memory holds as many names or procedures as do not fit.
pub fn narrow(n: u64) -> Result<u32, OutOfMemory>
    ensures { IfOk result (λ narrow. narrow ≡ n) }
{
    if n <= u32::MAX as u64 {
        Ok(n as u32)
    } else {
        Err(OutOfMemory)
    }
}

/// What names become that are numbered.
#[derive(Clone, Copy, PartialEq, Eq)]
pub enum Kind {
    /// Local names.
    Local,
    /// The functions of a group, as they know each other.
    Sibling,
}

impl Kind {
    // The operand of this number.
    fn operand(self, number: u32) -> Operand
        ensures { result ≡ operand_of self number }
    {
        match self {
            Kind::Local => Operand::Local(number),
            Kind::Sibling => Operand::Sibling(number),
        }
    }

    /// So many operands, numbered from this number on.
    pub fn operands(self, alloc: Global, first: u32, count: u64) -> Result<Operands, OutOfMemory>
        ensures { IfOk result (λ operands. operands ≡ counted (operand_of self) count first) }
    {
        let mut operands = Operands::new(alloc);
        let mut number = first;
        let mut left = count;
        while left != 0 {
            operands.push(self.operand(number))?;
            number = narrow(number as u64 + 1)?;
            left -= 1;
        }
        Ok(operands)
    }
}
