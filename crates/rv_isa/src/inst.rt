// The instructions.

ghost use Rattle.std.specs.Prelude.{◌≡◌, ◌<◌, ◌^◌, ℕ, Some, IfSome};
ghost use Rattle.rv_isa.specs.Table.{IsWordOf};
ghost use Rattle.rv_isa.specs.Encoding.{encode_of};
ghost use Rattle.rv_isa.specs.Decoding.{decode_of};
ghost use Rattle.rv_isa.specs.declared.inst.Inst.{Inst};

use crate::decoder::inst_of;
use crate::encoder::fields_of;
use crate::fields::Fields;
use crate::number::{Imm12, Imm13, Imm21, Reg, Shift5, Shift6, Upper};

/// An instruction of RV64I, as The RISC-V Instruction Set Manual, Volume I: Unprivileged Architecture, has them.
/// The parts stand in the order in which an assembler writes them: rd or, in a store, rs2 first, then rs1, then
/// the rest; in a branch rs1, rs2 and the offset from the branch itself. A FENCE keeps its rd, rs1 and immediate,
/// which it does not use, so that each word has an instruction of its own.
#[derive(Clone, Copy)]
pub enum Inst {
    Lui(Reg, Upper),
    Auipc(Reg, Upper),
    Jal(Reg, Imm21),
    Jalr(Reg, Reg, Imm12),
    Beq(Reg, Reg, Imm13),
    Bne(Reg, Reg, Imm13),
    Blt(Reg, Reg, Imm13),
    Bge(Reg, Reg, Imm13),
    Bltu(Reg, Reg, Imm13),
    Bgeu(Reg, Reg, Imm13),
    Lb(Reg, Reg, Imm12),
    Lh(Reg, Reg, Imm12),
    Lw(Reg, Reg, Imm12),
    Ld(Reg, Reg, Imm12),
    Lbu(Reg, Reg, Imm12),
    Lhu(Reg, Reg, Imm12),
    Lwu(Reg, Reg, Imm12),
    Sb(Reg, Reg, Imm12),
    Sh(Reg, Reg, Imm12),
    Sw(Reg, Reg, Imm12),
    Sd(Reg, Reg, Imm12),
    Addi(Reg, Reg, Imm12),
    Slti(Reg, Reg, Imm12),
    Sltiu(Reg, Reg, Imm12),
    Xori(Reg, Reg, Imm12),
    Ori(Reg, Reg, Imm12),
    Andi(Reg, Reg, Imm12),
    Slli(Reg, Reg, Shift6),
    Srli(Reg, Reg, Shift6),
    Srai(Reg, Reg, Shift6),
    Add(Reg, Reg, Reg),
    Sub(Reg, Reg, Reg),
    Sll(Reg, Reg, Reg),
    Slt(Reg, Reg, Reg),
    Sltu(Reg, Reg, Reg),
    Xor(Reg, Reg, Reg),
    Srl(Reg, Reg, Reg),
    Sra(Reg, Reg, Reg),
    Or(Reg, Reg, Reg),
    And(Reg, Reg, Reg),
    Addiw(Reg, Reg, Imm12),
    Slliw(Reg, Reg, Shift5),
    Srliw(Reg, Reg, Shift5),
    Sraiw(Reg, Reg, Shift5),
    Addw(Reg, Reg, Reg),
    Subw(Reg, Reg, Reg),
    Sllw(Reg, Reg, Reg),
    Srlw(Reg, Reg, Reg),
    Sraw(Reg, Reg, Reg),
    Fence(Reg, Reg, Imm12),
    Ecall,
    Ebreak,
}

/// The word of an instruction.
pub fn encode(i: Inst) -> u32
    ensures value { result ≡ encode_of i }
    ensures row { IsWordOf i result }
    ensures only { (word : ℕ) → word < 2 ^ 32 → IsWordOf i word → word ≡ result }
    ensures back { decode_of result ≡ Some i }
{
    fields_of(i).word()
}

/// The instruction of a word: None exactly where the word is that of no instruction.
pub fn decode(word: u32) -> Option<Inst>
    ensures value { result ≡ decode_of word }
    ensures row { IfSome result (λ i. IsWordOf i word) }
    ensures exact { (i : Inst) → IsWordOf i word → result ≡ Some i }
    ensures back { IfSome result (λ i. encode_of i ≡ word) }
{
    inst_of(Fields::of_word(word))
}
