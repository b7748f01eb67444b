// Branches by conditions.

ghost use Rattle.std.specs.Prelude.{◌≡◌};
ghost use Rattle.rv_machine.specs.Branches.{branch_when};

use machine_words::conditions::Cond;
use rv_isa::inst::Inst;
use rv_isa::number::{Imm13, Reg};

/// The branch that is taken where the condition holds of rs1 and rs2.
pub fn branch(cond: Cond, rs1: Reg, rs2: Reg, offset: Imm13) -> Inst
    ensures { result ≡ branch_when cond rs1 rs2 offset }
{
    match cond {
        Cond::Eq => Inst::Beq(rs1, rs2, offset),
        Cond::Ne => Inst::Bne(rs1, rs2, offset),
        Cond::Lt => Inst::Blt(rs1, rs2, offset),
        Cond::Ge => Inst::Bge(rs1, rs2, offset),
        Cond::Ltu => Inst::Bltu(rs1, rs2, offset),
        Cond::Geu => Inst::Bgeu(rs1, rs2, offset),
    }
}
