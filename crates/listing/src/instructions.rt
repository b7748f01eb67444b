// How an instruction is written.

ghost use Rattle.std.specs.Prelude.{◌≡◌, ◌++◌, OnOk};
ghost use Rattle.std.specs.Fmt.{signed_decimal};
ghost use Rattle.listing.specs.Instructions.{name_text, operands_of, operands_text, register_text, word_text};

use grift_base::lists::{OutOfMemory, Text};
use itoa::Buffer;
use rv_isa::inst::{Inst, decode};
use rv_isa::number::Reg;

/// What stands behind the name of an instruction.
#[derive(Clone, Copy)]
pub enum Operands {
    /// Nothing.
    Nothing,
    /// Three registers.
    Registers(Reg, Reg, Reg),
    /// Two registers, and an immediate, the amount of a shift or the offset of a branch.
    RegistersAndNumber(Reg, Reg, i64),
    /// A register, and the upper bits of a number or the offset of a jump.
    RegisterAndNumber(Reg, i64),
    /// A register, and the distance from the address in another.
    AtAddress(Reg, i64, Reg),
}

// The name of an instruction.
fn name_of(i: &Inst) -> &'static [u8]
    ensures { result.now ≡ name_text i.now }
{
    match i {
        Inst::Lui(..) => b"lui",
        Inst::Auipc(..) => b"auipc",
        Inst::Jal(..) => b"jal",
        Inst::Jalr(..) => b"jalr",
        Inst::Beq(..) => b"beq",
        Inst::Bne(..) => b"bne",
        Inst::Blt(..) => b"blt",
        Inst::Bge(..) => b"bge",
        Inst::Bltu(..) => b"bltu",
        Inst::Bgeu(..) => b"bgeu",
        Inst::Lb(..) => b"lb",
        Inst::Lh(..) => b"lh",
        Inst::Lw(..) => b"lw",
        Inst::Ld(..) => b"ld",
        Inst::Lbu(..) => b"lbu",
        Inst::Lhu(..) => b"lhu",
        Inst::Lwu(..) => b"lwu",
        Inst::Sb(..) => b"sb",
        Inst::Sh(..) => b"sh",
        Inst::Sw(..) => b"sw",
        Inst::Sd(..) => b"sd",
        Inst::Addi(..) => b"addi",
        Inst::Slti(..) => b"slti",
        Inst::Sltiu(..) => b"sltiu",
        Inst::Xori(..) => b"xori",
        Inst::Ori(..) => b"ori",
        Inst::Andi(..) => b"andi",
        Inst::Slli(..) => b"slli",
        Inst::Srli(..) => b"srli",
        Inst::Srai(..) => b"srai",
        Inst::Add(..) => b"add",
        Inst::Sub(..) => b"sub",
        Inst::Sll(..) => b"sll",
        Inst::Slt(..) => b"slt",
        Inst::Sltu(..) => b"sltu",
        Inst::Xor(..) => b"xor",
        Inst::Srl(..) => b"srl",
        Inst::Sra(..) => b"sra",
        Inst::Or(..) => b"or",
        Inst::And(..) => b"and",
        Inst::Addiw(..) => b"addiw",
        Inst::Slliw(..) => b"slliw",
        Inst::Srliw(..) => b"srliw",
        Inst::Sraiw(..) => b"sraiw",
        Inst::Addw(..) => b"addw",
        Inst::Subw(..) => b"subw",
        Inst::Sllw(..) => b"sllw",
        Inst::Srlw(..) => b"srlw",
        Inst::Sraw(..) => b"sraw",
        Inst::Fence(..) => b"fence",
        Inst::Ecall => b"ecall",
        Inst::Ebreak => b"ebreak",
    }
}

// The operands of an instruction.
fn operands_of(i: Inst) -> Operands
    ensures { result ≡ operands_of i }
{
    match i {
        Inst::Lui(rd, upper) | Inst::Auipc(rd, upper) => Operands::RegisterAndNumber(
            rd,
            upper.get(),
        ),
        Inst::Jal(rd, offset) => Operands::RegisterAndNumber(rd, offset.get()),
        Inst::Beq(rs1, rs2, offset)
        | Inst::Bne(rs1, rs2, offset)
        | Inst::Blt(rs1, rs2, offset)
        | Inst::Bge(rs1, rs2, offset)
        | Inst::Bltu(rs1, rs2, offset)
        | Inst::Bgeu(rs1, rs2, offset) => Operands::RegistersAndNumber(rs1, rs2, offset.get()),
        Inst::Jalr(rd, rs1, offset)
        | Inst::Lb(rd, rs1, offset)
        | Inst::Lh(rd, rs1, offset)
        | Inst::Lw(rd, rs1, offset)
        | Inst::Ld(rd, rs1, offset)
        | Inst::Lbu(rd, rs1, offset)
        | Inst::Lhu(rd, rs1, offset)
        | Inst::Lwu(rd, rs1, offset) => Operands::AtAddress(rd, offset.get(), rs1),
        Inst::Sb(rs2, rs1, offset)
        | Inst::Sh(rs2, rs1, offset)
        | Inst::Sw(rs2, rs1, offset)
        | Inst::Sd(rs2, rs1, offset) => Operands::AtAddress(rs2, offset.get(), rs1),
        Inst::Addi(rd, rs1, immediate)
        | Inst::Slti(rd, rs1, immediate)
        | Inst::Sltiu(rd, rs1, immediate)
        | Inst::Xori(rd, rs1, immediate)
        | Inst::Ori(rd, rs1, immediate)
        | Inst::Andi(rd, rs1, immediate)
        | Inst::Addiw(rd, rs1, immediate) => Operands::RegistersAndNumber(rd, rs1, immediate.get()),
        Inst::Slli(rd, rs1, amount) | Inst::Srli(rd, rs1, amount) | Inst::Srai(rd, rs1, amount) =>
            Operands::RegistersAndNumber(rd, rs1, amount.get()),
        Inst::Slliw(rd, rs1, amount)
        | Inst::Srliw(rd, rs1, amount)
        | Inst::Sraiw(rd, rs1, amount) => Operands::RegistersAndNumber(rd, rs1, amount.get()),
        Inst::Add(rd, rs1, rs2)
        | Inst::Sub(rd, rs1, rs2)
        | Inst::Sll(rd, rs1, rs2)
        | Inst::Slt(rd, rs1, rs2)
        | Inst::Sltu(rd, rs1, rs2)
        | Inst::Xor(rd, rs1, rs2)
        | Inst::Srl(rd, rs1, rs2)
        | Inst::Sra(rd, rs1, rs2)
        | Inst::Or(rd, rs1, rs2)
        | Inst::And(rd, rs1, rs2)
        | Inst::Addw(rd, rs1, rs2)
        | Inst::Subw(rd, rs1, rs2)
        | Inst::Sllw(rd, rs1, rs2)
        | Inst::Srlw(rd, rs1, rs2)
        | Inst::Sraw(rd, rs1, rs2) => Operands::Registers(rd, rs1, rs2),
        Inst::Fence(..) | Inst::Ecall | Inst::Ebreak => Operands::Nothing,
    }
}

// Writes a register behind the text, and these bytes before it.
fn write_register(text: &mut Text, before: &[u8], r: Reg) -> Result<(), OutOfMemory>
    ensures { OnOk result (text.new ≡ text.old ++ before.now ++ register_text r) }
{
    text.extend(before)?;
    text.extend(b"x")?;
    text.extend(Buffer::new().format(r.index()).as_bytes())
}

// Writes a number behind the text, and these bytes before it.
fn write_number(text: &mut Text, before: &[u8], n: i64) -> Result<(), OutOfMemory>
    ensures { OnOk result (text.new ≡ text.old ++ before.now ++ signed_decimal n) }
{
    text.extend(before)?;
    text.extend(Buffer::new().format(n).as_bytes())
}

// Writes operands behind the text.
fn write_operands(text: &mut Text, operands: Operands) -> Result<(), OutOfMemory>
    ensures { OnOk result (text.new ≡ text.old ++ operands_text operands) }
{
    match operands {
        Operands::Nothing => Ok(()),
        Operands::Registers(a, b, c) => {
            write_register(text, b" ", a)?;
            write_register(text, b", ", b)?;
            write_register(text, b", ", c)
        }
        Operands::RegistersAndNumber(a, b, n) => {
            write_register(text, b" ", a)?;
            write_register(text, b", ", b)?;
            write_number(text, b", ", n)
        }
        Operands::RegisterAndNumber(a, n) => {
            write_register(text, b" ", a)?;
            write_number(text, b", ", n)
        }
        Operands::AtAddress(a, n, base) => {
            write_register(text, b" ", a)?;
            write_number(text, b", ", n)?;
            write_register(text, b"(", base)?;
            text.extend(b")")
        }
    }
}

// Writes the instruction of a word behind the text, or `.word` where the word is that of none.
pub(crate) fn write_instruction(text: &mut Text, word: u32) -> Result<(), OutOfMemory>
    ensures { OnOk result (text.new ≡ text.old ++ word_text word) }
{
    match decode(word) {
        Some(i) => {
            text.extend(name_of(&i))?;
            write_operands(text, operands_of(i))
        }
        None => text.extend(b".word"),
    }
}
