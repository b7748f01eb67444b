// The code listings of images.

use crate::tests::readings::is_read;
use assembler::image::{Image, read_image};
use grift_base::lists::Text;
use listing::code::code_text;
use std::alloc::Global;
use std::process::Abort;

// An image with this code, and neither statics nor labels.
fn image_of(rt: &impl Abort, alloc: Global, code: &[u32]) -> Image {
    let bytes = 4 * code.len() as u64;
    let mut image = Vec::new(alloc);
    image.extend_from_slice(b"GRIFTRV1").expect(rt, "memory");
    for field in [64 + bytes, 0, bytes, 0, 0, 0, 0] {
        image
            .extend_from_slice(&field.to_le_bytes())
            .expect(rt, "memory");
    }
    for word in code {
        image
            .extend_from_slice(&word.to_le_bytes())
            .expect(rt, "memory");
    }
    read_image(alloc, image.as_slice()).expect(rt, "an image")
}

// The code listing of that.
fn listing_of(rt: &impl Abort, alloc: Global, code: &[u32]) -> Text {
    let image = image_of(rt, alloc, code);
    code_text(alloc, &image).expect(rt, "memory")
}

// The words of rows.
fn words_of(rt: &impl Abort, alloc: Global, rows: &[(u32, &str)]) -> Vec<u32> {
    let mut code = Vec::new(alloc);
    for (word, _text) in rows {
        code.push(*word).expect(rt, "memory");
    }
    code
}

// The lines of rows, from the first address of memory on.
fn lines_of(rt: &impl Abort, alloc: Global, rows: &[(u32, &str)]) -> String {
    let mut lines = String::new(alloc);
    let mut address = 0x10000u32;
    for (word, text) in rows {
        writeln!(lines, "{address:08x}: {word:08x} {text}").expect(rt, "memory");
        address = address.wrapping_add(4);
    }
    lines
}

// The code listing of the words of rows.
fn listing_of_rows(rt: &impl Abort, alloc: Global, rows: &[(u32, &str)]) -> Text {
    listing_of(rt, alloc, words_of(rt, alloc, rows).as_slice())
}

// The words of rows are listed as their texts.
fn are_written(rt: &impl Abort, alloc: Global, rows: &[(u32, &str)]) {
    let text = listing_of_rows(rt, alloc, rows);
    assert!(rt; text.as_slice() == lines_of(rt, alloc, rows).as_bytes());
}

// The words of these rows are those of LLVM's assembler, and their texts what it was given. A table has an even number
// of them, since the code of an image has.
const JUMPS_LOADS_AND_STORES: &[(u32, &str)] = &[
    (0xffffffb7, "lui x31, 1048575"),
    (0x00010397, "auipc x7, 16"),
    (0xffdff06f, "jal x0, -4"),
    (0x7ffff0ef, "jal x1, 1048574"),
    (0x000280e7, "jalr x1, 0(x5)"),
    (0xfe208ce3, "beq x1, x2, -8"),
    (0x7e941fe3, "bne x8, x9, 4094"),
    (0x80054063, "blt x10, x0, -4096"),
    (0x00c5d363, "bge x11, x12, 6"),
    (0x00e6e0e3, "bltu x13, x14, 2048"),
    (0x0107f063, "bgeu x15, x16, 0"),
    (0xfff90883, "lb x17, -1(x18)"),
    (0x7ffa1983, "lh x19, 2047(x20)"),
    (0x800b2a83, "lw x21, -2048(x22)"),
    (0x00813083, "ld x1, 8(x2)"),
    (0x001c4b83, "lbu x23, 1(x24)"),
    (0x000d5c83, "lhu x25, 0(x26)"),
    (0x00ce6d83, "lwu x27, 12(x28)"),
    (0xffdf0fa3, "sb x29, -1(x30)"),
    (0x7ff01fa3, "sh x31, 2047(x0)"),
    (0x80322023, "sw x3, -2048(x4)"),
    (0x0020b423, "sd x2, 8(x1)"),
];

const OPERATIONS: &[(u32, &str)] = &[
    (0xffb10093, "addi x1, x2, -5"),
    (0x7ff32293, "slti x5, x6, 2047"),
    (0x80043393, "sltiu x7, x8, -2048"),
    (0xfff54493, "xori x9, x10, -1"),
    (0x00166593, "ori x11, x12, 1"),
    (0x0ff77693, "andi x13, x14, 255"),
    (0x03f81793, "slli x15, x16, 63"),
    (0x02095893, "srli x17, x18, 32"),
    (0x401a5993, "srai x19, x20, 1"),
    (0x003100b3, "add x1, x2, x3"),
    (0x417b0ab3, "sub x21, x22, x23"),
    (0x01ac9c33, "sll x24, x25, x26"),
    (0x01de2db3, "slt x27, x28, x29"),
    (0x000fbf33, "sltu x30, x31, x0"),
    (0x0062c233, "xor x4, x5, x6"),
    (0x009453b3, "srl x7, x8, x9"),
    (0x40c5d533, "sra x10, x11, x12"),
    (0x00f766b3, "or x13, x14, x15"),
    (0x0128f833, "and x16, x17, x18"),
    (0xff9a099b, "addiw x19, x20, -7"),
    (0x01fb1a9b, "slliw x21, x22, 31"),
    (0x010c5b9b, "srliw x23, x24, 16"),
    (0x400d5c9b, "sraiw x25, x26, 0"),
    (0x01de0dbb, "addw x27, x28, x29"),
    (0x401f8f3b, "subw x30, x31, x1"),
    (0x0041913b, "sllw x2, x3, x4"),
    (0x007352bb, "srlw x5, x6, x7"),
    (0x40a4d43b, "sraw x8, x9, x10"),
    (0x0ff0000f, "fence"),
    (0x00000073, "ecall"),
    (0x00100073, "ebreak"),
    (0x00000000, ".word"),
];

#[test]
fn instructions_are_written_by_their_forms(rt: HostRuntime) {
    for table in [JUMPS_LOADS_AND_STORES, OPERATIONS] {
        are_written(&rt, rt.alloc(), table);
    }
}

const TWO: &[u32] = &[0x02a00593, 0x00000073];

// Two instructions at the first address of memory, and their words read back.
#[test]
fn a_small_image_is_listed_and_read_back(rt: HostRuntime) {
    let lines = b"00010000: 02a00593 addi x11, x0, 42\n00010004: 00000073 ecall\n";
    let text = listing_of(&rt, rt.alloc(), TWO);
    assert!(rt;
        text.as_slice() == lines.as_slice() && is_read(&rt, rt.alloc(), text.as_slice(), TWO)
    );
}
