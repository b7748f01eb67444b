// The fields of an instruction, one function for each form.

ghost use Rattle.std.specs.Prelude.{◌≡◌, ◌<◌};
ghost use Rattle.rv_isa.specs.Bits.{IsIn, IsEven};
ghost use Rattle.rv_isa.specs.Fields.{Fit};
ghost use Rattle.rv_isa.specs.Encoding.{inst_fields, register_form, immediate_form, shift_form, store_form};
ghost use Rattle.rv_isa.specs.Encoding.{branch_form, upper_form, jump_form};
ghost use Rattle.rv_isa.specs.Valid.{IsValid};

use crate::fields::Fields;
use crate::inst::Inst;
use crate::number::{Imm12, Imm13, Imm21, Reg, Shift5, Shift6, Upper};

// The fields of the word of an instruction.
pub(crate) fn fields_of(inst: Inst) -> Fields
    ensures value { result ≡ inst_fields inst }
    ensures fit { Fit result }
    ensures valid { IsValid inst }
{
    match inst {
        Inst::Lui(rd, upper) => upper_form(0x37, rd, upper),
        Inst::Auipc(rd, upper) => upper_form(0x17, rd, upper),
        Inst::Jal(rd, offset) => jump_form(rd, offset),
        Inst::Jalr(rd, rs1, immediate) => immediate_form(0x67, 0, rd, rs1, immediate),
        Inst::Beq(rs1, rs2, offset) => branch_form(0, rs1, rs2, offset),
        Inst::Bne(rs1, rs2, offset) => branch_form(1, rs1, rs2, offset),
        Inst::Blt(rs1, rs2, offset) => branch_form(4, rs1, rs2, offset),
        Inst::Bge(rs1, rs2, offset) => branch_form(5, rs1, rs2, offset),
        Inst::Bltu(rs1, rs2, offset) => branch_form(6, rs1, rs2, offset),
        Inst::Bgeu(rs1, rs2, offset) => branch_form(7, rs1, rs2, offset),
        Inst::Lb(rd, rs1, immediate) => immediate_form(0x03, 0, rd, rs1, immediate),
        Inst::Lh(rd, rs1, immediate) => immediate_form(0x03, 1, rd, rs1, immediate),
        Inst::Lw(rd, rs1, immediate) => immediate_form(0x03, 2, rd, rs1, immediate),
        Inst::Ld(rd, rs1, immediate) => immediate_form(0x03, 3, rd, rs1, immediate),
        Inst::Lbu(rd, rs1, immediate) => immediate_form(0x03, 4, rd, rs1, immediate),
        Inst::Lhu(rd, rs1, immediate) => immediate_form(0x03, 5, rd, rs1, immediate),
        Inst::Lwu(rd, rs1, immediate) => immediate_form(0x03, 6, rd, rs1, immediate),
        Inst::Sb(rs2, rs1, offset) => store_form(0, rs2, rs1, offset),
        Inst::Sh(rs2, rs1, offset) => store_form(1, rs2, rs1, offset),
        Inst::Sw(rs2, rs1, offset) => store_form(2, rs2, rs1, offset),
        Inst::Sd(rs2, rs1, offset) => store_form(3, rs2, rs1, offset),
        Inst::Addi(rd, rs1, immediate) => immediate_form(0x13, 0, rd, rs1, immediate),
        Inst::Slti(rd, rs1, immediate) => immediate_form(0x13, 2, rd, rs1, immediate),
        Inst::Sltiu(rd, rs1, immediate) => immediate_form(0x13, 3, rd, rs1, immediate),
        Inst::Xori(rd, rs1, immediate) => immediate_form(0x13, 4, rd, rs1, immediate),
        Inst::Ori(rd, rs1, immediate) => immediate_form(0x13, 6, rd, rs1, immediate),
        Inst::Andi(rd, rs1, immediate) => immediate_form(0x13, 7, rd, rs1, immediate),
        Inst::Slli(rd, rs1, amount) => shift_form(1, 0, rd, rs1, amount),
        Inst::Srli(rd, rs1, amount) => shift_form(5, 0, rd, rs1, amount),
        Inst::Srai(rd, rs1, amount) => shift_form(5, 0x10, rd, rs1, amount),
        Inst::Add(rd, rs1, rs2) => register_form(0x33, 0, 0, rd, rs1, rs2),
        Inst::Sub(rd, rs1, rs2) => register_form(0x33, 0, 0x20, rd, rs1, rs2),
        Inst::Sll(rd, rs1, rs2) => register_form(0x33, 1, 0, rd, rs1, rs2),
        Inst::Slt(rd, rs1, rs2) => register_form(0x33, 2, 0, rd, rs1, rs2),
        Inst::Sltu(rd, rs1, rs2) => register_form(0x33, 3, 0, rd, rs1, rs2),
        Inst::Xor(rd, rs1, rs2) => register_form(0x33, 4, 0, rd, rs1, rs2),
        Inst::Srl(rd, rs1, rs2) => register_form(0x33, 5, 0, rd, rs1, rs2),
        Inst::Sra(rd, rs1, rs2) => register_form(0x33, 5, 0x20, rd, rs1, rs2),
        Inst::Or(rd, rs1, rs2) => register_form(0x33, 6, 0, rd, rs1, rs2),
        Inst::And(rd, rs1, rs2) => register_form(0x33, 7, 0, rd, rs1, rs2),
        Inst::Addiw(rd, rs1, immediate) => immediate_form(0x1B, 0, rd, rs1, immediate),
        Inst::Slliw(rd, rs1, amount) => word_shift_form(1, 0, rd, rs1, amount),
        Inst::Srliw(rd, rs1, amount) => word_shift_form(5, 0, rd, rs1, amount),
        Inst::Sraiw(rd, rs1, amount) => word_shift_form(5, 0x20, rd, rs1, amount),
        Inst::Addw(rd, rs1, rs2) => register_form(0x3B, 0, 0, rd, rs1, rs2),
        Inst::Subw(rd, rs1, rs2) => register_form(0x3B, 0, 0x20, rd, rs1, rs2),
        Inst::Sllw(rd, rs1, rs2) => register_form(0x3B, 1, 0, rd, rs1, rs2),
        Inst::Srlw(rd, rs1, rs2) => register_form(0x3B, 5, 0, rd, rs1, rs2),
        Inst::Sraw(rd, rs1, rs2) => register_form(0x3B, 5, 0x20, rd, rs1, rs2),
        Inst::Fence(rd, rs1, immediate) => immediate_form(0x0F, 0, rd, rs1, immediate),
        Inst::Ecall => Fields::of_word(0x0000_0073),
        Inst::Ebreak => Fields::of_word(0x0010_0073),
    }
}

fn register_form(opcode: u32, funct3: u32, funct7: u32, rd: Reg, rs1: Reg, rs2: Reg) -> Fields
    requires opcode { opcode < 128 }
    requires funct3 { funct3 < 8 }
    requires funct7 { funct7 < 128 }
    ensures value { result ≡ register_form opcode funct3 funct7 rd rs1 rs2 }
    ensures fit { Fit result }
    ensures valid { (rd < 32) × (rs1 < 32) × (rs2 < 32) }
{
    Fields {
        opcode,
        rd: rd.bits(),
        funct3,
        rs1: rs1.bits(),
        rs2: rs2.bits(),
        funct7,
    }
}

fn immediate_form(opcode: u32, funct3: u32, rd: Reg, rs1: Reg, immediate: Imm12) -> Fields
    requires opcode { opcode < 128 }
    requires funct3 { funct3 < 8 }
    ensures value { result ≡ immediate_form opcode funct3 rd rs1 immediate }
    ensures fit { Fit result }
    ensures valid { (rd < 32) × (rs1 < 32) × IsIn 2048 immediate }
{
    let bits = immediate.bits();
    Fields {
        opcode,
        rd: rd.bits(),
        funct3,
        rs1: rs1.bits(),
        rs2: bits % 32,
        funct7: bits >> 5,
    }
}

fn shift_form(funct3: u32, kind: u32, rd: Reg, rs1: Reg, amount: Shift6) -> Fields
    requires funct3 { funct3 < 8 }
    requires kind { kind < 64 }
    ensures value { result ≡ shift_form funct3 kind rd rs1 amount }
    ensures fit { Fit result }
    ensures valid { (rd < 32) × (rs1 < 32) × (amount < 64) }
{
    let bits = amount.bits();
    Fields {
        opcode: 0x13,
        rd: rd.bits(),
        funct3,
        rs1: rs1.bits(),
        rs2: bits % 32,
        funct7: (bits >> 5) + 2 * kind,
    }
}

fn word_shift_form(funct3: u32, funct7: u32, rd: Reg, rs1: Reg, amount: Shift5) -> Fields
    requires funct3 { funct3 < 8 }
    requires funct7 { funct7 < 128 }
    ensures value { result ≡ register_form 0x1B funct3 funct7 rd rs1 amount }
    ensures fit { Fit result }
    ensures valid { (rd < 32) × (rs1 < 32) × (amount < 32) }
{
    Fields {
        opcode: 0x1B,
        rd: rd.bits(),
        funct3,
        rs1: rs1.bits(),
        rs2: amount.bits(),
        funct7,
    }
}

fn store_form(funct3: u32, rs2: Reg, rs1: Reg, offset: Imm12) -> Fields
    requires { funct3 < 8 }
    ensures value { result ≡ store_form funct3 rs2 rs1 offset }
    ensures fit { Fit result }
    ensures valid { (rs2 < 32) × (rs1 < 32) × IsIn 2048 offset }
{
    let bits = offset.bits();
    Fields {
        opcode: 0x23,
        rd: bits % 32,
        funct3,
        rs1: rs1.bits(),
        rs2: rs2.bits(),
        funct7: bits >> 5,
    }
}

fn branch_form(funct3: u32, rs1: Reg, rs2: Reg, offset: Imm13) -> Fields
    requires { funct3 < 8 }
    ensures value { result ≡ branch_form funct3 rs1 rs2 offset }
    ensures fit { Fit result }
    ensures valid { (rs1 < 32) × (rs2 < 32) × IsIn 4096 offset × IsEven offset }
{
    let bits = offset.bits();
    Fields {
        opcode: 0x63,
        rd: (bits >> 11) % 2 + 2 * ((bits >> 1) % 16),
        funct3,
        rs1: rs1.bits(),
        rs2: rs2.bits(),
        funct7: (bits >> 5) % 64 + 64 * (bits >> 12),
    }
}

fn upper_form(opcode: u32, rd: Reg, upper: Upper) -> Fields
    requires { opcode < 128 }
    ensures value { result ≡ upper_form opcode rd upper }
    ensures fit { Fit result }
    ensures valid { (rd < 32) × (upper < 1048576) }
{
    let bits = upper.bits();
    Fields {
        opcode,
        rd: rd.bits(),
        funct3: bits % 8,
        rs1: (bits >> 3) % 32,
        rs2: (bits >> 8) % 32,
        funct7: bits >> 13,
    }
}

fn jump_form(rd: Reg, offset: Imm21) -> Fields
    ensures value { result ≡ jump_form rd offset }
    ensures fit { Fit result }
    ensures valid { (rd < 32) × IsIn 1048576 offset × IsEven offset }
{
    let bits = offset.bits();
    Fields {
        opcode: 0x6F,
        rd: rd.bits(),
        funct3: (bits >> 12) % 8,
        rs1: (bits >> 15) % 32,
        rs2: (bits >> 11) % 2 + 2 * ((bits >> 1) % 16),
        funct7: (bits >> 5) % 64 + 64 * (bits >> 20),
    }
}
