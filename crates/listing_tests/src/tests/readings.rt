// Texts that are code listings, and texts that aren't.

use listing::reading::read_code_text;
use std::alloc::Global;
use std::process::Abort;

// Whether a text is read as these words.
pub(crate) fn is_read(rt: &impl Abort, alloc: Global, text: &[u8], words: &[u32]) -> bool {
    match read_code_text(alloc, text).expect(rt, "memory") {
        Some(found) => found.as_slice() == words,
        None => false,
    }
}

const LISTINGS: &[(&str, &[u32])] = &[
    ("", &[]),
    ("00010000: 00000073 ecall\n", &[0x73]),
    // the first address is free, as long as it is a multiple of 4
    (
        "00000000: 00000013 addi x0, x0, 0\n00000004: 00000000 .word\n",
        &[0x13, 0],
    ),
    // addresses of more than eight digits
    (
        "fffffffc: 00000073 ecall\n100000000: 00000073 ecall\n",
        &[0x73, 0x73],
    ),
    // the last address of all
    ("fffffffffffffffc: fe208ce3 beq x1, x2, -8\n", &[0xfe208ce3]),
];

#[test]
fn listings_are_read(rt: HostRuntime) {
    for (text, words) in LISTINGS {
        assert!(rt; is_read(&rt, rt.alloc(), text.as_bytes(), words), "{text}");
    }
}

// Whether a text is no listing.
fn is_none(rt: &impl Abort, alloc: Global, text: &[u8]) -> bool {
    read_code_text(alloc, text).expect(rt, "memory").is_none()
}

const OTHERS: &[&str] = &[
    // a gap in the addresses, and addresses that don't rise
    "00010000: 00000073 ecall\n00010008: 00000073 ecall\n",
    "00010004: 00000073 ecall\n00010000: 00000073 ecall\n",
    // no multiple of 4
    "00010002: 00000073 ecall\n",
    // no line feed at the end, or one too many
    "00010000: 00000073 ecall",
    "00010000: 00000073 ecall\n\n",
    "\n",
    // an instruction that isn't that of the word
    "00010000: 00000073 ebreak\n",
    "00010000: 02a00593 addi x11, x0, 43\n",
    "00010000: 00000000 ecall\n",
    // more or fewer digits, and capitals
    "000010000: 00000073 ecall\n",
    "10000: 00000073 ecall\n",
    "00010000: 73 ecall\n",
    "00010000: 0020B423 sd x2, 8(x1)\n",
    "0000FFF8: 00000073 ecall\n",
    // past the last address of all
    "fffffffffffffffc: 00000073 ecall\n10000000000000000: 00000073 ecall\n",
    // no listing at all
    "ecall\n",
];

#[test]
fn other_texts_are_no_listings(rt: HostRuntime) {
    for text in OTHERS {
        assert!(rt; is_none(&rt, rt.alloc(), text.as_bytes()), "{text}");
    }
}
