// Words of an independent assembler, and words of no instruction.

use machine_words::conditions::Cond;
use rv_isa::inst::{Inst, decode, encode};
use rv_isa::number::{Imm12, Imm13, Imm21, Reg, Shift5, Shift6, Upper};
use rv_machine::branches::branch;
use std::process::Abort;

// The numbers of an instruction in the order in which an assembler writes them, zeros after the last. A register
// is its number; the offset of a load or a store comes last.
type Numbers = (i64, i64, i64);

// The last of three operands.
#[derive(Clone, Copy)]
enum Last {
    Register(Reg),
    Immediate(Imm12),
    Branch(Imm13),
    Shift(Shift6),
    WordShift(Shift5),
}

impl Last {
    fn get(self) -> i64 {
        match self {
            Last::Register(register) => register.get(),
            Last::Immediate(immediate) => immediate.get(),
            Last::Branch(offset) => offset.get(),
            Last::Shift(amount) => amount.get(),
            Last::WordShift(amount) => amount.get(),
        }
    }
}

// The operands of an instruction in the order of its numbers.
#[derive(Clone, Copy)]
enum Operands {
    None,
    Upper(Reg, Upper),
    Jump(Reg, Imm21),
    Three(Reg, Reg, Last),
}

impl Operands {
    fn numbers(self) -> Numbers {
        match self {
            Operands::None => (0, 0, 0),
            Operands::Upper(rd, upper) => (rd.get(), upper.get(), 0),
            Operands::Jump(rd, offset) => (rd.get(), offset.get(), 0),
            Operands::Three(first, second, last) => (first.get(), second.get(), last.get()),
        }
    }
}

// The name of an instruction and its operands.
fn parts_of(inst: Inst) -> (&'static str, Operands) {
    match inst {
        Inst::Lui(rd, upper) => ("lui", Operands::Upper(rd, upper)),
        Inst::Auipc(rd, upper) => ("auipc", Operands::Upper(rd, upper)),
        Inst::Jal(rd, offset) => ("jal", Operands::Jump(rd, offset)),
        Inst::Beq(rs1, rs2, offset) => ("beq", Operands::Three(rs1, rs2, Last::Branch(offset))),
        Inst::Bne(rs1, rs2, offset) => ("bne", Operands::Three(rs1, rs2, Last::Branch(offset))),
        Inst::Blt(rs1, rs2, offset) => ("blt", Operands::Three(rs1, rs2, Last::Branch(offset))),
        Inst::Bge(rs1, rs2, offset) => ("bge", Operands::Three(rs1, rs2, Last::Branch(offset))),
        Inst::Bltu(rs1, rs2, offset) => ("bltu", Operands::Three(rs1, rs2, Last::Branch(offset))),
        Inst::Bgeu(rs1, rs2, offset) => ("bgeu", Operands::Three(rs1, rs2, Last::Branch(offset))),
        Inst::Slli(rd, rs1, amount) => ("slli", Operands::Three(rd, rs1, Last::Shift(amount))),
        Inst::Srli(rd, rs1, amount) => ("srli", Operands::Three(rd, rs1, Last::Shift(amount))),
        Inst::Srai(rd, rs1, amount) => ("srai", Operands::Three(rd, rs1, Last::Shift(amount))),
        Inst::Slliw(rd, rs1, amount) => (
            "slliw",
            Operands::Three(rd, rs1, Last::WordShift(amount)),
        ),
        Inst::Srliw(rd, rs1, amount) => (
            "srliw",
            Operands::Three(rd, rs1, Last::WordShift(amount)),
        ),
        Inst::Sraiw(rd, rs1, amount) => (
            "sraiw",
            Operands::Three(rd, rs1, Last::WordShift(amount)),
        ),
        Inst::Ecall => ("ecall", Operands::None),
        Inst::Ebreak => ("ebreak", Operands::None),
        _ => parts_with_immediate(inst),
    }
}

// The same of one with an immediate of 12 bits, or of one on three registers.
fn parts_with_immediate(inst: Inst) -> (&'static str, Operands) {
    match inst {
        Inst::Jalr(rd, rs1, immediate) => (
            "jalr",
            Operands::Three(rd, rs1, Last::Immediate(immediate)),
        ),
        Inst::Lb(rd, rs1, immediate) => (
            "lb",
            Operands::Three(rd, rs1, Last::Immediate(immediate)),
        ),
        Inst::Lh(rd, rs1, immediate) => (
            "lh",
            Operands::Three(rd, rs1, Last::Immediate(immediate)),
        ),
        Inst::Lw(rd, rs1, immediate) => (
            "lw",
            Operands::Three(rd, rs1, Last::Immediate(immediate)),
        ),
        Inst::Ld(rd, rs1, immediate) => (
            "ld",
            Operands::Three(rd, rs1, Last::Immediate(immediate)),
        ),
        Inst::Lbu(rd, rs1, immediate) => (
            "lbu",
            Operands::Three(rd, rs1, Last::Immediate(immediate)),
        ),
        Inst::Lhu(rd, rs1, immediate) => (
            "lhu",
            Operands::Three(rd, rs1, Last::Immediate(immediate)),
        ),
        Inst::Lwu(rd, rs1, immediate) => (
            "lwu",
            Operands::Three(rd, rs1, Last::Immediate(immediate)),
        ),
        Inst::Sb(rs2, rs1, offset) => ("sb", Operands::Three(rs2, rs1, Last::Immediate(offset))),
        Inst::Sh(rs2, rs1, offset) => ("sh", Operands::Three(rs2, rs1, Last::Immediate(offset))),
        Inst::Sw(rs2, rs1, offset) => ("sw", Operands::Three(rs2, rs1, Last::Immediate(offset))),
        Inst::Sd(rs2, rs1, offset) => ("sd", Operands::Three(rs2, rs1, Last::Immediate(offset))),
        Inst::Addi(rd, rs1, immediate) => (
            "addi",
            Operands::Three(rd, rs1, Last::Immediate(immediate)),
        ),
        Inst::Slti(rd, rs1, immediate) => (
            "slti",
            Operands::Three(rd, rs1, Last::Immediate(immediate)),
        ),
        Inst::Sltiu(rd, rs1, immediate) => (
            "sltiu",
            Operands::Three(rd, rs1, Last::Immediate(immediate)),
        ),
        Inst::Xori(rd, rs1, immediate) => (
            "xori",
            Operands::Three(rd, rs1, Last::Immediate(immediate)),
        ),
        Inst::Ori(rd, rs1, immediate) => (
            "ori",
            Operands::Three(rd, rs1, Last::Immediate(immediate)),
        ),
        Inst::Andi(rd, rs1, immediate) => (
            "andi",
            Operands::Three(rd, rs1, Last::Immediate(immediate)),
        ),
        Inst::Addiw(rd, rs1, immediate) => (
            "addiw",
            Operands::Three(rd, rs1, Last::Immediate(immediate)),
        ),
        Inst::Fence(rd, rs1, immediate) => (
            "fence",
            Operands::Three(rd, rs1, Last::Immediate(immediate)),
        ),
        _ => parts_with_registers(inst),
    }
}

// The same of one on three registers; no other comes here.
fn parts_with_registers(inst: Inst) -> (&'static str, Operands) {
    match inst {
        Inst::Add(rd, rs1, rs2) => ("add", Operands::Three(rd, rs1, Last::Register(rs2))),
        Inst::Sub(rd, rs1, rs2) => ("sub", Operands::Three(rd, rs1, Last::Register(rs2))),
        Inst::Sll(rd, rs1, rs2) => ("sll", Operands::Three(rd, rs1, Last::Register(rs2))),
        Inst::Slt(rd, rs1, rs2) => ("slt", Operands::Three(rd, rs1, Last::Register(rs2))),
        Inst::Sltu(rd, rs1, rs2) => ("sltu", Operands::Three(rd, rs1, Last::Register(rs2))),
        Inst::Xor(rd, rs1, rs2) => ("xor", Operands::Three(rd, rs1, Last::Register(rs2))),
        Inst::Srl(rd, rs1, rs2) => ("srl", Operands::Three(rd, rs1, Last::Register(rs2))),
        Inst::Sra(rd, rs1, rs2) => ("sra", Operands::Three(rd, rs1, Last::Register(rs2))),
        Inst::Or(rd, rs1, rs2) => ("or", Operands::Three(rd, rs1, Last::Register(rs2))),
        Inst::And(rd, rs1, rs2) => ("and", Operands::Three(rd, rs1, Last::Register(rs2))),
        Inst::Addw(rd, rs1, rs2) => ("addw", Operands::Three(rd, rs1, Last::Register(rs2))),
        Inst::Subw(rd, rs1, rs2) => ("subw", Operands::Three(rd, rs1, Last::Register(rs2))),
        Inst::Sllw(rd, rs1, rs2) => ("sllw", Operands::Three(rd, rs1, Last::Register(rs2))),
        Inst::Srlw(rd, rs1, rs2) => ("srlw", Operands::Three(rd, rs1, Last::Register(rs2))),
        Inst::Sraw(rd, rs1, rs2) => ("sraw", Operands::Three(rd, rs1, Last::Register(rs2))),
        _ => ("", Operands::None),
    }
}

// An instruction's name, and its numbers with their words, in several rows. The words are those of GNU as and objdump,
// of Debian's binutils-riscv64-linux-gnu 2.40, at -march=rv64i.
type Assembled = (&'static str, &'static [(Numbers, u32)]);

// Upper immediates, jumps and branches.
static JUMPS: [Assembled; 10] = [
    (
        "lui",
        &[
            ((1, 0, 0), 0x000000b7),
            ((31, 1, 0), 0x00001fb7),
            ((0, 349525, 0), 0x55555037),
            ((1, 524288, 0), 0x800000b7),
            ((31, 699050, 0), 0xaaaaafb7),
            ((0, 1048575, 0), 0xfffff037),
        ],
    ),
    (
        "auipc",
        &[
            ((1, 0, 0), 0x00000097),
            ((31, 1, 0), 0x00001f97),
            ((0, 349525, 0), 0x55555017),
            ((1, 524288, 0), 0x80000097),
            ((31, 699050, 0), 0xaaaaaf97),
            ((0, 1048575, 0), 0xfffff017),
        ],
    ),
    (
        "jal",
        &[
            ((1, -1048576, 0), 0x800000ef),
            ((31, -699052, 0), 0xd5455fef),
            ((0, -2, 0), 0xfffff06f),
            ((1, 0, 0), 0x000000ef),
            ((31, 2, 0), 0x00200fef),
            ((0, 699050, 0), 0x2abaa06f),
            ((1, 1048574, 0), 0x7ffff0ef),
        ],
    ),
    (
        "jalr",
        &[
            ((1, 0, -2048), 0x800000e7),
            ((0, 1, -1366), 0xaaa08067),
            ((31, 0, -1), 0xfff00fe7),
            ((1, 31, 0), 0x000f80e7),
            ((0, 31, 1), 0x001f8067),
            ((31, 1, 1365), 0x55508fe7),
            ((1, 0, 2047), 0x7ff000e7),
        ],
    ),
    (
        "beq",
        &[
            ((0, 1, -4096), 0x80100063),
            ((31, 0, -2732), 0xd40f8a63),
            ((1, 31, -2), 0xfff08fe3),
            ((0, 31, 0), 0x01f00063),
            ((31, 1, 2), 0x001f8163),
            ((1, 0, 2730), 0x2a0085e3),
            ((0, 1, 4094), 0x7e100fe3),
        ],
    ),
    (
        "bne",
        &[
            ((31, 0, -4096), 0x800f9063),
            ((1, 31, -2732), 0xd5f09a63),
            ((0, 31, -2), 0xfff01fe3),
            ((31, 1, 0), 0x001f9063),
            ((1, 0, 2), 0x00009163),
            ((0, 1, 2730), 0x2a1015e3),
            ((31, 0, 4094), 0x7e0f9fe3),
        ],
    ),
    (
        "blt",
        &[
            ((1, 31, -4096), 0x81f0c063),
            ((0, 31, -2732), 0xd5f04a63),
            ((31, 1, -2), 0xfe1fcfe3),
            ((1, 0, 0), 0x0000c063),
            ((0, 1, 2), 0x00104163),
            ((31, 0, 2730), 0x2a0fc5e3),
            ((1, 31, 4094), 0x7ff0cfe3),
        ],
    ),
    (
        "bge",
        &[
            ((0, 31, -4096), 0x81f05063),
            ((31, 1, -2732), 0xd41fda63),
            ((1, 0, -2), 0xfe00dfe3),
            ((0, 1, 0), 0x00105063),
            ((31, 0, 2), 0x000fd163),
            ((1, 31, 2730), 0x2bf0d5e3),
            ((0, 31, 4094), 0x7ff05fe3),
        ],
    ),
    (
        "bltu",
        &[
            ((31, 1, -4096), 0x801fe063),
            ((1, 0, -2732), 0xd400ea63),
            ((0, 1, -2), 0xfe106fe3),
            ((31, 0, 0), 0x000fe063),
            ((1, 31, 2), 0x01f0e163),
            ((0, 31, 2730), 0x2bf065e3),
            ((31, 1, 4094), 0x7e1fefe3),
        ],
    ),
    (
        "bgeu",
        &[
            ((1, 0, -4096), 0x8000f063),
            ((0, 1, -2732), 0xd4107a63),
            ((31, 0, -2), 0xfe0fffe3),
            ((1, 31, 0), 0x01f0f063),
            ((0, 31, 2), 0x01f07163),
            ((31, 1, 2730), 0x2a1ff5e3),
            ((1, 0, 4094), 0x7e00ffe3),
        ],
    ),
];

// Loads and stores.
static MEMORY: [Assembled; 11] = [
    (
        "lb",
        &[
            ((0, 1, -2048), 0x80008003),
            ((31, 0, -1366), 0xaaa00f83),
            ((1, 31, -1), 0xffff8083),
            ((0, 31, 0), 0x000f8003),
            ((31, 1, 1), 0x00108f83),
            ((1, 0, 1365), 0x55500083),
            ((0, 1, 2047), 0x7ff08003),
        ],
    ),
    (
        "lh",
        &[
            ((31, 0, -2048), 0x80001f83),
            ((1, 31, -1366), 0xaaaf9083),
            ((0, 31, -1), 0xffff9003),
            ((31, 1, 0), 0x00009f83),
            ((1, 0, 1), 0x00101083),
            ((0, 1, 1365), 0x55509003),
            ((31, 0, 2047), 0x7ff01f83),
        ],
    ),
    (
        "lw",
        &[
            ((1, 31, -2048), 0x800fa083),
            ((0, 31, -1366), 0xaaafa003),
            ((31, 1, -1), 0xfff0af83),
            ((1, 0, 0), 0x00002083),
            ((0, 1, 1), 0x0010a003),
            ((31, 0, 1365), 0x55502f83),
            ((1, 31, 2047), 0x7fffa083),
        ],
    ),
    (
        "ld",
        &[
            ((0, 31, -2048), 0x800fb003),
            ((31, 1, -1366), 0xaaa0bf83),
            ((1, 0, -1), 0xfff03083),
            ((0, 1, 0), 0x0000b003),
            ((31, 0, 1), 0x00103f83),
            ((1, 31, 1365), 0x555fb083),
            ((0, 31, 2047), 0x7fffb003),
        ],
    ),
    (
        "lbu",
        &[
            ((31, 1, -2048), 0x8000cf83),
            ((1, 0, -1366), 0xaaa04083),
            ((0, 1, -1), 0xfff0c003),
            ((31, 0, 0), 0x00004f83),
            ((1, 31, 1), 0x001fc083),
            ((0, 31, 1365), 0x555fc003),
            ((31, 1, 2047), 0x7ff0cf83),
        ],
    ),
    (
        "lhu",
        &[
            ((1, 0, -2048), 0x80005083),
            ((0, 1, -1366), 0xaaa0d003),
            ((31, 0, -1), 0xfff05f83),
            ((1, 31, 0), 0x000fd083),
            ((0, 31, 1), 0x001fd003),
            ((31, 1, 1365), 0x5550df83),
            ((1, 0, 2047), 0x7ff05083),
        ],
    ),
    (
        "lwu",
        &[
            ((0, 1, -2048), 0x8000e003),
            ((31, 0, -1366), 0xaaa06f83),
            ((1, 31, -1), 0xffffe083),
            ((0, 31, 0), 0x000fe003),
            ((31, 1, 1), 0x0010ef83),
            ((1, 0, 1365), 0x55506083),
            ((0, 1, 2047), 0x7ff0e003),
        ],
    ),
    (
        "sb",
        &[
            ((31, 0, -2048), 0x81f00023),
            ((1, 31, -1366), 0xaa1f8523),
            ((0, 31, -1), 0xfe0f8fa3),
            ((31, 1, 0), 0x01f08023),
            ((1, 0, 1), 0x001000a3),
            ((0, 1, 1365), 0x54008aa3),
            ((31, 0, 2047), 0x7ff00fa3),
        ],
    ),
    (
        "sh",
        &[
            ((1, 31, -2048), 0x801f9023),
            ((0, 31, -1366), 0xaa0f9523),
            ((31, 1, -1), 0xfff09fa3),
            ((1, 0, 0), 0x00101023),
            ((0, 1, 1), 0x000090a3),
            ((31, 0, 1365), 0x55f01aa3),
            ((1, 31, 2047), 0x7e1f9fa3),
        ],
    ),
    (
        "sw",
        &[
            ((0, 31, -2048), 0x800fa023),
            ((31, 1, -1366), 0xabf0a523),
            ((1, 0, -1), 0xfe102fa3),
            ((0, 1, 0), 0x0000a023),
            ((31, 0, 1), 0x01f020a3),
            ((1, 31, 1365), 0x541faaa3),
            ((0, 31, 2047), 0x7e0fafa3),
        ],
    ),
    (
        "sd",
        &[
            ((31, 1, -2048), 0x81f0b023),
            ((1, 0, -1366), 0xaa103523),
            ((0, 1, -1), 0xfe00bfa3),
            ((31, 0, 0), 0x01f03023),
            ((1, 31, 1), 0x001fb0a3),
            ((0, 31, 1365), 0x540fbaa3),
            ((31, 1, 2047), 0x7ff0bfa3),
        ],
    ),
];

// Operations on a register and a number.
static IMMEDIATES: [Assembled; 9] = [
    (
        "addi",
        &[
            ((1, 0, -2048), 0x80000093),
            ((0, 1, -1366), 0xaaa08013),
            ((31, 0, -1), 0xfff00f93),
            ((1, 31, 0), 0x000f8093),
            ((0, 31, 1), 0x001f8013),
            ((31, 1, 1365), 0x55508f93),
            ((1, 0, 2047), 0x7ff00093),
        ],
    ),
    (
        "slti",
        &[
            ((0, 1, -2048), 0x8000a013),
            ((31, 0, -1366), 0xaaa02f93),
            ((1, 31, -1), 0xffffa093),
            ((0, 31, 0), 0x000fa013),
            ((31, 1, 1), 0x0010af93),
            ((1, 0, 1365), 0x55502093),
            ((0, 1, 2047), 0x7ff0a013),
        ],
    ),
    (
        "sltiu",
        &[
            ((31, 0, -2048), 0x80003f93),
            ((1, 31, -1366), 0xaaafb093),
            ((0, 31, -1), 0xffffb013),
            ((31, 1, 0), 0x0000bf93),
            ((1, 0, 1), 0x00103093),
            ((0, 1, 1365), 0x5550b013),
            ((31, 0, 2047), 0x7ff03f93),
        ],
    ),
    (
        "xori",
        &[
            ((1, 31, -2048), 0x800fc093),
            ((0, 31, -1366), 0xaaafc013),
            ((31, 1, -1), 0xfff0cf93),
            ((1, 0, 0), 0x00004093),
            ((0, 1, 1), 0x0010c013),
            ((31, 0, 1365), 0x55504f93),
            ((1, 31, 2047), 0x7fffc093),
        ],
    ),
    (
        "ori",
        &[
            ((0, 31, -2048), 0x800fe013),
            ((31, 1, -1366), 0xaaa0ef93),
            ((1, 0, -1), 0xfff06093),
            ((0, 1, 0), 0x0000e013),
            ((31, 0, 1), 0x00106f93),
            ((1, 31, 1365), 0x555fe093),
            ((0, 31, 2047), 0x7fffe013),
        ],
    ),
    (
        "andi",
        &[
            ((31, 1, -2048), 0x8000ff93),
            ((1, 0, -1366), 0xaaa07093),
            ((0, 1, -1), 0xfff0f013),
            ((31, 0, 0), 0x00007f93),
            ((1, 31, 1), 0x001ff093),
            ((0, 31, 1365), 0x555ff013),
            ((31, 1, 2047), 0x7ff0ff93),
        ],
    ),
    (
        "slli",
        &[
            ((1, 0, 0), 0x00001093),
            ((0, 1, 1), 0x00109013),
            ((31, 0, 31), 0x01f01f93),
            ((1, 31, 32), 0x020f9093),
            ((0, 31, 63), 0x03ff9013),
        ],
    ),
    (
        "srli",
        &[
            ((31, 1, 0), 0x0000df93),
            ((1, 0, 1), 0x00105093),
            ((0, 1, 31), 0x01f0d013),
            ((31, 0, 32), 0x02005f93),
            ((1, 31, 63), 0x03ffd093),
        ],
    ),
    (
        "srai",
        &[
            ((0, 31, 0), 0x400fd013),
            ((31, 1, 1), 0x4010df93),
            ((1, 0, 31), 0x41f05093),
            ((0, 1, 32), 0x4200d013),
            ((31, 0, 63), 0x43f05f93),
        ],
    ),
];

// Operations on two registers.
static REGISTERS: [Assembled; 10] = [
    (
        "add",
        &[
            ((31, 0, 1), 0x00100fb3),
            ((0, 1, 31), 0x01f08033),
            ((1, 31, 0), 0x000f80b3),
        ],
    ),
    (
        "sub",
        &[
            ((31, 0, 1), 0x40100fb3),
            ((0, 1, 31), 0x41f08033),
            ((1, 31, 0), 0x400f80b3),
        ],
    ),
    (
        "sll",
        &[
            ((31, 0, 1), 0x00101fb3),
            ((0, 1, 31), 0x01f09033),
            ((1, 31, 0), 0x000f90b3),
        ],
    ),
    (
        "slt",
        &[
            ((31, 0, 1), 0x00102fb3),
            ((0, 1, 31), 0x01f0a033),
            ((1, 31, 0), 0x000fa0b3),
        ],
    ),
    (
        "sltu",
        &[
            ((31, 0, 1), 0x00103fb3),
            ((0, 1, 31), 0x01f0b033),
            ((1, 31, 0), 0x000fb0b3),
        ],
    ),
    (
        "xor",
        &[
            ((31, 0, 1), 0x00104fb3),
            ((0, 1, 31), 0x01f0c033),
            ((1, 31, 0), 0x000fc0b3),
        ],
    ),
    (
        "srl",
        &[
            ((31, 0, 1), 0x00105fb3),
            ((0, 1, 31), 0x01f0d033),
            ((1, 31, 0), 0x000fd0b3),
        ],
    ),
    (
        "sra",
        &[
            ((31, 0, 1), 0x40105fb3),
            ((0, 1, 31), 0x41f0d033),
            ((1, 31, 0), 0x400fd0b3),
        ],
    ),
    (
        "or",
        &[
            ((31, 0, 1), 0x00106fb3),
            ((0, 1, 31), 0x01f0e033),
            ((1, 31, 0), 0x000fe0b3),
        ],
    ),
    (
        "and",
        &[
            ((31, 0, 1), 0x00107fb3),
            ((0, 1, 31), 0x01f0f033),
            ((1, 31, 0), 0x000ff0b3),
        ],
    ),
];

// Operations on words of 32 bits.
static WORDS: [Assembled; 9] = [
    (
        "addiw",
        &[
            ((1, 31, -2048), 0x800f809b),
            ((0, 31, -1366), 0xaaaf801b),
            ((31, 1, -1), 0xfff08f9b),
            ((1, 0, 0), 0x0000009b),
            ((0, 1, 1), 0x0010801b),
            ((31, 0, 1365), 0x55500f9b),
            ((1, 31, 2047), 0x7fff809b),
        ],
    ),
    (
        "slliw",
        &[
            ((0, 31, 0), 0x000f901b),
            ((31, 1, 1), 0x00109f9b),
            ((1, 0, 30), 0x01e0109b),
            ((0, 1, 31), 0x01f0901b),
        ],
    ),
    (
        "srliw",
        &[
            ((31, 0, 0), 0x00005f9b),
            ((1, 31, 1), 0x001fd09b),
            ((0, 31, 30), 0x01efd01b),
            ((31, 1, 31), 0x01f0df9b),
        ],
    ),
    (
        "sraiw",
        &[
            ((1, 0, 0), 0x4000509b),
            ((0, 1, 1), 0x4010d01b),
            ((31, 0, 30), 0x41e05f9b),
            ((1, 31, 31), 0x41ffd09b),
        ],
    ),
    (
        "addw",
        &[
            ((0, 1, 31), 0x01f0803b),
            ((1, 31, 0), 0x000f80bb),
            ((31, 0, 1), 0x00100fbb),
        ],
    ),
    (
        "subw",
        &[
            ((0, 1, 31), 0x41f0803b),
            ((1, 31, 0), 0x400f80bb),
            ((31, 0, 1), 0x40100fbb),
        ],
    ),
    (
        "sllw",
        &[
            ((0, 1, 31), 0x01f0903b),
            ((1, 31, 0), 0x000f90bb),
            ((31, 0, 1), 0x00101fbb),
        ],
    ),
    (
        "srlw",
        &[
            ((0, 1, 31), 0x01f0d03b),
            ((1, 31, 0), 0x000fd0bb),
            ((31, 0, 1), 0x00105fbb),
        ],
    ),
    (
        "sraw",
        &[
            ((0, 1, 31), 0x41f0d03b),
            ((1, 31, 0), 0x400fd0bb),
            ((31, 0, 1), 0x40105fbb),
        ],
    ),
];

// What orders memory, and what calls the environment.
static SYSTEM: [Assembled; 3] = [
    (
        "fence",
        &[
            ((0, 0, 255), 0x0ff0000f),
            ((0, 0, -1997), 0x8330000f),
            ((0, 0, 19), 0x0130000f),
            ((0, 1, -2048), 0x8000800f),
            ((31, 0, -1366), 0xaaa00f8f),
            ((1, 31, -1), 0xffff808f),
            ((0, 31, 0), 0x000f800f),
            ((31, 1, 1), 0x00108f8f),
            ((1, 0, 1365), 0x5550008f),
            ((0, 1, 2047), 0x7ff0800f),
        ],
    ),
    ("ecall", &[((0, 0, 0), 0x00000073)]),
    ("ebreak", &[((0, 0, 0), 0x00100073)]),
];

// Whether a word decodes to the instruction with this name and these numbers.
fn decodes_to(word: u32, name: &str, numbers: Numbers) -> bool {
    match decode(word) {
        None => false,
        Some(inst) => {
            let (found, operands) = parts_of(inst);
            let found_numbers = operands.numbers();
            found == name && found_numbers == numbers
        }
    }
}

// Whether what a word decodes to encodes to that word.
fn encodes_back(word: u32) -> bool {
    match decode(word) {
        None => false,
        Some(inst) => encode(inst) == word,
    }
}

// Each word decodes as its row says, and encodes back.
fn decode_and_encode(rt: &impl Abort, assembled: &[Assembled]) {
    for (name, rows) in assembled {
        for (numbers, word) in *rows {
            let decodes = decodes_to(*word, name, *numbers);
            assert!(rt; decodes && encodes_back(*word), "at {word:#010x}");
        }
    }
}

#[test]
fn assembled_words_decode_and_encode(rt: HostRuntime) {
    decode_and_encode(&rt, &JUMPS);
}

#[test]
fn loads_and_stores_decode_and_encode(rt: HostRuntime) {
    decode_and_encode(&rt, &MEMORY);
}

#[test]
fn words_with_immediates_decode_and_encode(rt: HostRuntime) {
    decode_and_encode(&rt, &IMMEDIATES);
}

#[test]
fn words_on_registers_decode_and_encode(rt: HostRuntime) {
    decode_and_encode(&rt, &REGISTERS);
}

#[test]
fn operations_on_words_decode_and_encode(rt: HostRuntime) {
    decode_and_encode(&rt, &WORDS);
}

#[test]
fn fences_and_calls_decode_and_encode(rt: HostRuntime) {
    decode_and_encode(&rt, &SYSTEM);
}

// Words that stand in no row of the manual's table for RV64I.
const OTHERS: [u32; 17] = [
    0x00000000, // all zero
    0xFFFFFFFF, // all one
    0x44005013, // SRAI with bit 26 set
    0x04001013, // SLLI with bit 26 set
    0x0200501B, // SRLIW with bit 25 set
    0x00001067, // JALR with funct3 1
    0x00002063, // BRANCH with funct3 2
    0x00007003, // LOAD with funct3 7
    0x00004023, // STORE with funct3 4
    0x02208033, // MUL of the extension M
    0x0220803B, // MULW of the extension M
    0x40001033, // SLL with funct7 0x20
    0x0000100F, // FENCE.I
    0x00001073, // CSRRW
    0x000000F3, // ECALL with rd 1
    0x00200073, // URET
    0x00008082, // a compressed return
];

#[test]
fn other_words_decode_to_none(rt: HostRuntime) {
    for word in &OTHERS {
        assert!(rt; decode(*word).is_none(), "at {word:#010x}");
    }
}

#[test]
fn numbers_are_kept(rt: HostRuntime) {
    let register = Reg::new(31);
    let upper = Upper::new(1048575);
    let six = Shift6::new(63);
    let five = Shift5::new(31);
    let kept = [
        Imm12::new(-2048).get(),
        Imm13::new(-4096).get(),
        Imm21::new(1048574).get(),
        register.get(),
        upper.get(),
        six.get(),
        five.get(),
    ];
    assert!(rt; kept == [-2048, -4096, 1048574, 31, 1048575, 63, 31]);
    let bits = [upper.bits(), six.bits(), five.bits()];
    assert!(rt; register.index() == 31 && bits == [1048575, 63, 31]);
}

// Conditions, and the words of branches by them 8 bytes back.
const BRANCHES: [(Cond, u32); 6] = [
    (Cond::Eq, 0xFE208CE3),
    (Cond::Ne, 0xFE209CE3),
    (Cond::Lt, 0xFE20CCE3),
    (Cond::Ge, 0xFE20DCE3),
    (Cond::Ltu, 0xFE20ECE3),
    (Cond::Geu, 0xFE20FCE3),
];

#[test]
fn branches_encode(rt: HostRuntime) {
    let (first, second, back) = (Reg::new(1), Reg::new(2), Imm13::new(-8));
    for (cond, word) in &BRANCHES {
        assert!(rt;
            encode(branch(*cond, first, second, back)) == *word,
            "at {word:#010x}"
        );
    }
}

#[test]
fn instructions_encode(rt: HostRuntime) {
    let (zero, first, second) = (Reg::new(0), Reg::new(1), Reg::new(2));
    for (inst, word) in [
        (Inst::Addi(first, zero, Imm12::new(-1)), 0xFFF00093),
        (Inst::Jal(zero, Imm21::new(-4)), 0xFFDFF06F),
        (Inst::Sd(second, first, Imm12::new(8)), 0x0020B423),
    ] {
        assert!(rt; encode(inst) == word, "at {word:#010x}");
    }
}
