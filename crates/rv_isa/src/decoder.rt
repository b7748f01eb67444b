// The instruction that the fields of a word make, one function for each opcode with several.

ghost use Rattle.std.specs.Prelude.{◌≡◌};
ghost use Rattle.rv_isa.specs.Fields.{Fit};
ghost use Rattle.rv_isa.specs.Decoding.{inst_of, branch_inst, load_inst, store_inst, immediate_inst, register_inst};
ghost use Rattle.rv_isa.specs.Decoding.{word_immediate_inst, word_register_inst, system_inst, immediate_in};
ghost use Rattle.rv_isa.specs.Decoding.{store_offset_in, branch_offset_in, upper_in, jump_offset_in, shift_amount_in};

use crate::fields::Fields;
use crate::inst::Inst;
use crate::number::{Imm12, Imm13, Imm21, Reg, Shift5, Shift6, Upper};

// The instruction with these fields, or none where there is none.
pub(crate) fn inst_of(f: Fields) -> Option<Inst>
    requires { Fit f }
    ensures { result ≡ inst_of f }
{
    match f.opcode {
        0x37 => Some(Inst::Lui(Reg::from_bits(f.rd), upper_in(f))),
        0x17 => Some(Inst::Auipc(Reg::from_bits(f.rd), upper_in(f))),
        0x6F => Some(Inst::Jal(Reg::from_bits(f.rd), jump_offset_in(f))),
        0x67 if f.funct3 == 0 => Some(Inst::Jalr(
            Reg::from_bits(f.rd),
            Reg::from_bits(f.rs1),
            immediate_in(f),
        )),
        0x63 => branch_inst(f),
        0x03 => load_inst(f),
        0x23 => store_inst(f),
        0x13 => immediate_inst(f),
        0x33 => register_inst(f),
        0x1B => word_immediate_inst(f),
        0x3B => word_register_inst(f),
        0x0F if f.funct3 == 0 => Some(Inst::Fence(
            Reg::from_bits(f.rd),
            Reg::from_bits(f.rs1),
            immediate_in(f),
        )),
        0x73 => system_inst(f),
        _ => None,
    }
}

fn immediate_in(f: Fields) -> Imm12
    requires { Fit f }
    ensures { result ≡ immediate_in f }
{
    Imm12::from_bits(f.rs2 + 32 * f.funct7)
}

fn store_offset_in(f: Fields) -> Imm12
    requires { Fit f }
    ensures { result ≡ store_offset_in f }
{
    Imm12::from_bits(f.rd + 32 * f.funct7)
}

fn branch_offset_in(f: Fields) -> Imm13
    requires { Fit f }
    ensures { result ≡ branch_offset_in f }
{
    Imm13::from_bits(
        2 * (f.rd / 2) + 32 * (f.funct7 % 64) + 2048 * (f.rd % 2) + 4096 * (f.funct7 / 64),
    )
}

fn upper_in(f: Fields) -> Upper
    requires { Fit f }
    ensures { result ≡ upper_in f }
{
    Upper::from_bits(f.funct3 + 8 * f.rs1 + 256 * f.rs2 + 8192 * f.funct7)
}

fn jump_offset_in(f: Fields) -> Imm21
    requires { Fit f }
    ensures { result ≡ jump_offset_in f }
{
    Imm21::from_bits(
        2 * (f.rs2 / 2)
            + 32 * (f.funct7 % 64)
            + 2048 * (f.rs2 % 2)
            + 4096 * f.funct3
            + 32768 * f.rs1
            + 1048576 * (f.funct7 / 64),
    )
}

fn shift_amount_in(f: Fields) -> Shift6
    requires { Fit f }
    ensures { result ≡ shift_amount_in f }
{
    Shift6::from_bits(f.rs2 + 32 * (f.funct7 % 2))
}

fn branch_inst(f: Fields) -> Option<Inst>
    requires { Fit f }
    ensures { result ≡ branch_inst f }
{
    let rs1 = Reg::from_bits(f.rs1);
    let rs2 = Reg::from_bits(f.rs2);
    let offset = branch_offset_in(f);
    match f.funct3 {
        0 => Some(Inst::Beq(rs1, rs2, offset)),
        1 => Some(Inst::Bne(rs1, rs2, offset)),
        4 => Some(Inst::Blt(rs1, rs2, offset)),
        5 => Some(Inst::Bge(rs1, rs2, offset)),
        6 => Some(Inst::Bltu(rs1, rs2, offset)),
        7 => Some(Inst::Bgeu(rs1, rs2, offset)),
        _ => None,
    }
}

fn load_inst(f: Fields) -> Option<Inst>
    requires { Fit f }
    ensures { result ≡ load_inst f }
{
    let rd = Reg::from_bits(f.rd);
    let rs1 = Reg::from_bits(f.rs1);
    let immediate = immediate_in(f);
    match f.funct3 {
        0 => Some(Inst::Lb(rd, rs1, immediate)),
        1 => Some(Inst::Lh(rd, rs1, immediate)),
        2 => Some(Inst::Lw(rd, rs1, immediate)),
        3 => Some(Inst::Ld(rd, rs1, immediate)),
        4 => Some(Inst::Lbu(rd, rs1, immediate)),
        5 => Some(Inst::Lhu(rd, rs1, immediate)),
        6 => Some(Inst::Lwu(rd, rs1, immediate)),
        _ => None,
    }
}

fn store_inst(f: Fields) -> Option<Inst>
    requires { Fit f }
    ensures { result ≡ store_inst f }
{
    let rs2 = Reg::from_bits(f.rs2);
    let rs1 = Reg::from_bits(f.rs1);
    let offset = store_offset_in(f);
    match f.funct3 {
        0 => Some(Inst::Sb(rs2, rs1, offset)),
        1 => Some(Inst::Sh(rs2, rs1, offset)),
        2 => Some(Inst::Sw(rs2, rs1, offset)),
        3 => Some(Inst::Sd(rs2, rs1, offset)),
        _ => None,
    }
}

fn immediate_inst(f: Fields) -> Option<Inst>
    requires { Fit f }
    ensures { result ≡ immediate_inst f }
{
    let rd = Reg::from_bits(f.rd);
    let rs1 = Reg::from_bits(f.rs1);
    let immediate = immediate_in(f);
    let amount = shift_amount_in(f);
    match f.funct3 {
        0 => Some(Inst::Addi(rd, rs1, immediate)),
        2 => Some(Inst::Slti(rd, rs1, immediate)),
        3 => Some(Inst::Sltiu(rd, rs1, immediate)),
        4 => Some(Inst::Xori(rd, rs1, immediate)),
        6 => Some(Inst::Ori(rd, rs1, immediate)),
        7 => Some(Inst::Andi(rd, rs1, immediate)),
        1 if f.funct7 / 2 == 0 => Some(Inst::Slli(rd, rs1, amount)),
        5 if f.funct7 / 2 == 0 => Some(Inst::Srli(rd, rs1, amount)),
        5 if f.funct7 / 2 == 0x10 => Some(Inst::Srai(rd, rs1, amount)),
        _ => None,
    }
}

fn register_inst(f: Fields) -> Option<Inst>
    requires { Fit f }
    ensures { result ≡ register_inst f }
{
    let rd = Reg::from_bits(f.rd);
    let rs1 = Reg::from_bits(f.rs1);
    let rs2 = Reg::from_bits(f.rs2);
    match (f.funct3, f.funct7) {
        (0, 0) => Some(Inst::Add(rd, rs1, rs2)),
        (0, 0x20) => Some(Inst::Sub(rd, rs1, rs2)),
        (1, 0) => Some(Inst::Sll(rd, rs1, rs2)),
        (2, 0) => Some(Inst::Slt(rd, rs1, rs2)),
        (3, 0) => Some(Inst::Sltu(rd, rs1, rs2)),
        (4, 0) => Some(Inst::Xor(rd, rs1, rs2)),
        (5, 0) => Some(Inst::Srl(rd, rs1, rs2)),
        (5, 0x20) => Some(Inst::Sra(rd, rs1, rs2)),
        (6, 0) => Some(Inst::Or(rd, rs1, rs2)),
        (7, 0) => Some(Inst::And(rd, rs1, rs2)),
        _ => None,
    }
}

fn word_immediate_inst(f: Fields) -> Option<Inst>
    requires { Fit f }
    ensures { result ≡ word_immediate_inst f }
{
    let rd = Reg::from_bits(f.rd);
    let rs1 = Reg::from_bits(f.rs1);
    let amount = Shift5::from_bits(f.rs2);
    match (f.funct3, f.funct7) {
        (1, 0) => Some(Inst::Slliw(rd, rs1, amount)),
        (5, 0) => Some(Inst::Srliw(rd, rs1, amount)),
        (5, 0x20) => Some(Inst::Sraiw(rd, rs1, amount)),
        (0, _) => Some(Inst::Addiw(rd, rs1, immediate_in(f))),
        _ => None,
    }
}

fn word_register_inst(f: Fields) -> Option<Inst>
    requires { Fit f }
    ensures { result ≡ word_register_inst f }
{
    let rd = Reg::from_bits(f.rd);
    let rs1 = Reg::from_bits(f.rs1);
    let rs2 = Reg::from_bits(f.rs2);
    match (f.funct3, f.funct7) {
        (0, 0) => Some(Inst::Addw(rd, rs1, rs2)),
        (0, 0x20) => Some(Inst::Subw(rd, rs1, rs2)),
        (1, 0) => Some(Inst::Sllw(rd, rs1, rs2)),
        (5, 0) => Some(Inst::Srlw(rd, rs1, rs2)),
        (5, 0x20) => Some(Inst::Sraw(rd, rs1, rs2)),
        _ => None,
    }
}

fn system_inst(f: Fields) -> Option<Inst>
    ensures { result ≡ system_inst f }
{
    if f.rd == 0 && f.funct3 == 0 && f.rs1 == 0 && f.funct7 == 0 {
        match f.rs2 {
            0 => Some(Inst::Ecall),
            1 => Some(Inst::Ebreak),
            _ => None,
        }
    } else {
        None
    }
}
