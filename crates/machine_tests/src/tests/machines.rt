// Small images and what they come to. The words are those of GNU as of Debian's binutils for the
// instructions that stand beside them.

ghost use Rattle.rv_machine.specs.Start.{IsRegionSize, IsStackSize};

use crate::tests::images::{SMALLEST, image_of_groups};
use assembler::image::{Image, is_image};
use grift_base::lists::{Bytes, OutOfMemory};
use grift_base::places::Pos;
use grift_base::verdicts::{Answer, AnswerKind, Trap};
use grift_base::words::Words;
use grift_base::worlds::World;
use rv_emulator::flat::FlatRam;
use rv_emulator::machine::Machine;
use rv_emulator::stops::Stop;
use rv_isa::number::Reg;
use std::alloc::Global;
use std::process::Abort;

// Adds a header of these words.
fn put_header(bytes: &mut Bytes, words: &[u64]) -> Result<(), OutOfMemory> {
    bytes.extend(b"GRIFTRV1")?;
    for word in words {
        bytes.extend(&word.to_le_bytes())?;
    }
    Ok(())
}

// Adds this code, with a word 0 where it needs one.
fn put_code(bytes: &mut Bytes, code: &[u32]) -> Result<(), OutOfMemory> {
    for word in code {
        bytes.extend(&word.to_le_bytes())?;
    }
    if code.len() % 2 == 1 {
        bytes.extend(&[0, 0, 0, 0])?;
    }
    Ok(())
}

// Adds an image of this code and these labels.
fn put_image(bytes: &mut Bytes, code: &[u32], labels: &[Pos]) -> Result<(), OutOfMemory> {
    let code_len = (code.len() as u64).div_ceil(2).wrapping_mul(8);
    let count = labels.len() as u64;
    let len = count
        .wrapping_mul(8)
        .wrapping_add(code_len)
        .wrapping_add(64);
    put_header(bytes, &[len, 0, code_len, count, 0, 0, 0])?;
    put_code(bytes, code)?;
    for label in labels {
        bytes.extend(&label.line.to_le_bytes())?;
        bytes.extend(&label.col.to_le_bytes())?;
    }
    Ok(())
}

// The bytes of an image of this code and these labels.
fn bytes_of(rt: &impl Abort, alloc: Global, code: &[u32], labels: &[Pos]) -> Bytes {
    let mut bytes = Bytes::new(alloc);
    put_image(&mut bytes, code, labels).expect(rt, "memory");
    bytes
}

// An image of this code and these labels.
pub(crate) fn image_of(rt: &impl Abort, alloc: Global, code: &[u32], labels: &[Pos]) -> Image {
    let bytes = bytes_of(rt, alloc, code, labels);
    assert!(rt; is_image(bytes.as_slice()), "an image");
    Image::new(bytes)
}

// A machine with this image, a region and a stack of these sizes and no input.
pub(crate) fn machine_of(
    rt: &impl Abort,
    alloc: Global,
    image: &Image,
    region: u64,
    stack: u64,
) -> Machine<FlatRam>
    requires region { IsRegionSize region }
    requires stack { IsStackSize stack }
{
    machine_on(rt, alloc, image, region, stack, Bytes::new(alloc))
}

// One with this input.
fn machine_on(
    rt: &impl Abort,
    alloc: Global,
    image: &Image,
    region: u64,
    stack: u64,
    input: Bytes,
) -> Machine<FlatRam>
    requires region { IsRegionSize region }
    requires stack { IsStackSize stack }
{
    let size = image.loaded().len() as u64 + region + stack;
    let ram = FlatRam::new(alloc, size).expect(rt, "memory");
    let world = World::new(alloc, input);
    Machine::load(alloc, image, ram, region, stack, world).expect(rt, "memory")
}

pub(crate) fn ended(kind: AnswerKind, word: i64) -> Stop {
    Stop::Ended(Answer { kind, word })
}

// The one label of small images.
const LABEL: Pos = Pos { line: 3, col: 7 };

// A machine with this code and these labels, a region and a stack of these sizes and no input.
fn machine_for(
    rt: &impl Abort,
    alloc: Global,
    code: &[u32],
    labels: &[Pos],
    region: u64,
    stack: u64,
) -> Machine<FlatRam>
    requires region { IsRegionSize region }
    requires stack { IsStackSize stack }
{
    let image = image_of(rt, alloc, code, labels);
    machine_of(rt, alloc, &image, region, stack)
}

// Whether this code, with one label, comes to this stop within 100 steps, and prints this text.
fn comes_to(rt: &impl Abort, alloc: Global, code: &[u32], stop: Stop, printed: &[u8]) -> bool {
    let mut machine = machine_for(rt, alloc, code, &[LABEL], 16, 16);
    let came_to = machine.run(100);
    came_to == stop && machine.world().output.as_slice() == printed
}

// A code, what it comes to, and what it prints.
type Row = (&'static [u32], Stop, &'static [u8]);

const ANSWERS: [Row; 7] = [
    // addi x11, x0, 42; ecall
    (
        &[0x02a00593, 0x00000073],
        Stop::Ended(Answer {
            kind: AnswerKind::Int,
            word: 42,
        }),
        b"",
    ),
    // addi x10, x0, 1; addi x11, x0, 1; ecall
    (
        &[0x00100513, 0x00100593, 0x00000073],
        Stop::Ended(Answer {
            kind: AnswerKind::Bool,
            word: 1,
        }),
        b"",
    ),
    // addi x10, x0, 2; ecall
    (
        &[0x00200513, 0x00000073],
        Stop::Ended(Answer {
            kind: AnswerKind::Unit,
            word: 0,
        }),
        b"",
    ),
    // addi x10, x0, 6; ecall
    (
        &[0x00600513, 0x00000073],
        Stop::Ended(Answer {
            kind: AnswerKind::Vector,
            word: 0,
        }),
        b"",
    ),
    // addi x10, x0, 7; ecall: no such kind
    (&[0x00700513, 0x00000073], Stop::Undefined(65540), b""),
    // addi x10, x0, 1; addi x11, x0, 2; ecall: no truth value
    (
        &[0x00100513, 0x00200593, 0x00000073],
        Stop::Undefined(65544),
        b"",
    ),
    // addi x10, x0, 2; addi x11, x0, 1; ecall: unit has no word
    (
        &[0x00200513, 0x00100593, 0x00000073],
        Stop::Undefined(65544),
        b"",
    ),
];

const CALLS: [Row; 10] = [
    // addi x10, x0, -7; call 1; then 0
    (
        &[
            0xff900513, 0x00100893, 0x00000073, 0x00000513, 0x00050593, 0x00000893, 0x00000073,
        ],
        Stop::Ended(Answer {
            kind: AnswerKind::Int,
            word: 0,
        }),
        b"-7",
    ),
    // addi x10, x0, 0x141; call 2; then 5
    (
        &[
            0x14100513, 0x00200893, 0x00000073, 0x00000893, 0x00500593, 0x00057513, 0x00000073,
        ],
        Stop::Ended(Answer {
            kind: AnswerKind::Int,
            word: 5,
        }),
        b"A",
    ),
    // call 3 with label 0
    (&[0x00300893, 0x00000073], Stop::Blamed(LABEL), b""),
    // call 3 with label 1, of which there is none
    (
        &[0x00300893, 0x00100513, 0x00000073],
        Stop::Undefined(65544),
        b"",
    ),
    // call 4 with kind 2
    (
        &[0x00400893, 0x00200513, 0x00000073],
        Stop::Trapped(Trap::Index),
        b"",
    ),
    // call 4 with kind 5
    (
        &[0x00400893, 0x00500513, 0x00000073],
        Stop::Undefined(65544),
        b"",
    ),
    // call 5
    (&[0x00500893, 0x00000073], Stop::RegionOut, b""),
    // call 6
    (&[0x00600893, 0x00000073], Stop::StackOut, b""),
    // call 7 without input, and past the code
    (&[0x00700893, 0x00000073], Stop::BadAddress(65544), b""),
    // call 8
    (&[0x00800893, 0x00000073], Stop::Undefined(65540), b""),
];

const STOPS: [Row; 14] = [
    // no instruction
    (&[0x00000000], Stop::Undefined(65536), b""),
    // addi x0, x0, 0; ebreak
    (&[0x00000013, 0x00100073], Stop::Undefined(65540), b""),
    // two of addi x0, x0, 0, and past the code
    (&[0x00000013, 0x00000013], Stop::BadAddress(65544), b""),
    // jal x0, 64: past the code
    (&[0x0400006f], Stop::BadAddress(65600), b""),
    // addi x0, x0, 0; ld x1, 0(x0): below memory
    (&[0x00000013, 0x00003083], Stop::BadAddress(65540), b""),
    // ld x1, 0(x2): past memory
    (&[0x00013083], Stop::BadAddress(65536), b""),
    // ld x11, -8(x2); ecall: the last word of the stack
    (
        &[0xff813583, 0x00000073],
        Stop::Ended(Answer {
            kind: AnswerKind::Int,
            word: 0,
        }),
        b"",
    ),
    // auipc x5, 0; sd x1, 0(x5): into code
    (&[0x00000297, 0x0012b023], Stop::BadAddress(65540), b""),
    // addi x5, x0, -3; sd x5, 0(x26); lw x11, 0(x26); ecall
    (
        &[0xffd00293, 0x005d3023, 0x000d2583, 0x00000073],
        Stop::Ended(Answer {
            kind: AnswerKind::Int,
            word: -3,
        }),
        b"",
    ),
    // sd x1, 0(x2): past the stack
    (&[0x00113023], Stop::BadAddress(65536), b""),
    // ld x1, 4(x26)
    (&[0x004d3083], Stop::Misaligned(65536), b""),
    // ld x1, 1(x0): misaligned and below memory
    (&[0x00103083], Stop::Misaligned(65536), b""),
    // sh x1, 1(x26)
    (&[0x001d10a3], Stop::Misaligned(65536), b""),
    // auipc x5, 0; jalr x0, 6(x5)
    (&[0x00000297, 0x00628067], Stop::Misaligned(65540), b""),
];

const ARITHMETIC: [Row; 6] = [
    // auipc x5, 0; jalr x1, 9(x5); addi x11, x0, 7; ecall
    (
        &[0x00000297, 0x009280e7, 0x00700593, 0x00000073],
        Stop::Ended(Answer {
            kind: AnswerKind::Int,
            word: 7,
        }),
        b"",
    ),
    // addi x5, x0, -1; srli x5, x5, 1; addiw x11, x5, 1; ecall
    (
        &[0xfff00293, 0x0012d293, 0x0012859b, 0x00000073],
        Stop::Ended(Answer {
            kind: AnswerKind::Int,
            word: 0,
        }),
        b"",
    ),
    // lui x5, 0x80000; addi x6, x0, 33; sraw x11, x5, x6; ecall
    (
        &[0x800002b7, 0x02100313, 0x4062d5bb, 0x00000073],
        Stop::Ended(Answer {
            kind: AnswerKind::Int,
            word: -1073741824,
        }),
        b"",
    ),
    // x5 is -1 and x6 is 1; bltu x6, x5, 8 goes past addi x11, x0, 2
    (
        &[
            0xfff00293, 0x00100313, 0x00100593, 0x00536463, 0x00200593, 0x00000073,
        ],
        Stop::Ended(Answer {
            kind: AnswerKind::Int,
            word: 1,
        }),
        b"",
    ),
    // addi x0, x0, 5; addi x0, x0, 7; addi x11, x0, 0; ecall
    (
        &[0x00500013, 0x00700013, 0x00000593, 0x00000073],
        Stop::Ended(Answer {
            kind: AnswerKind::Int,
            word: 0,
        }),
        b"",
    ),
    // lw and lwu of -2, their difference shifted right by 32
    (
        &[
            0xffe00293, 0x005d2023, 0x000d2303, 0x000d6383, 0x407305b3, 0x4205d593, 0x00000073,
        ],
        Stop::Ended(Answer {
            kind: AnswerKind::Int,
            word: -1,
        }),
        b"",
    ),
];

// Each code comes to what its row says.
fn come_to(rt: &impl Abort, alloc: Global, rows: &[Row]) {
    for (code, stop, printed) in rows {
        assert!(rt; comes_to(rt, alloc, code, *stop, printed), "{code:?}");
    }
}

#[test]
fn small_images_come_to_their_ends(rt: HostRuntime) {
    come_to(&rt, rt.alloc(), &ANSWERS);
}

#[test]
fn calls_come_to_their_ends(rt: HostRuntime) {
    come_to(&rt, rt.alloc(), &CALLS);
}

#[test]
fn steps_that_fail_come_to_their_ends(rt: HostRuntime) {
    come_to(&rt, rt.alloc(), &STOPS);
}

#[test]
fn arithmetic_comes_to_its_ends(rt: HostRuntime) {
    come_to(&rt, rt.alloc(), &ARITHMETIC);
}

// How a machine stops after these many steps, with the pc and the number in x11.
fn after(machine: &mut Machine<FlatRam>, steps: u64) -> (Stop, u64, u64) {
    let stop = machine.run(steps);
    (stop, machine.pc(), machine.reg(Reg::new(11)))
}

// Whether the smallest image, with the default region and stack, goes on like this: one step, and then the end; a run
// goes on where the one before it came to.
fn goes_on(machine: &mut Machine<FlatRam>) -> bool {
    let answer = ended(AnswerKind::Int, 42);
    for (steps, wanted) in [
        (0, (Stop::StepsSpent, 65536, 0)),
        (1, (Stop::StepsSpent, 65540, 42)),
        (1, (answer, 65540, 42)),
        (7, (answer, 65540, 42)),
    ] {
        if after(machine, steps) != wanted {
            return false;
        }
    }
    true
}

// The same of a new machine.
fn smallest_goes_on(rt: &impl Abort, alloc: Global) -> bool {
    let image = image_of_groups(rt, alloc, &SMALLEST);
    let mut machine = machine_of(rt, alloc, &image, 16777216, 1048576);
    goes_on(&mut machine)
}

#[test]
fn a_run_goes_on(rt: HostRuntime) {
    assert!(&rt; smallest_goes_on(&rt, rt.alloc()));
}

// Whether each call 7 hands back a number and 0, or 0 and 1 where there is none, leaves the number of the call as it
// is, and the input read up to a place.
fn reads(machine: &mut Machine<FlatRam>) -> bool {
    for (steps, number, none, place) in [
        (2, 42, 0, 2),
        (1, 0xFFFF_FFFF_FFFF_FFFF, 0, 5),
        (1, 0, 1, 6),
    ] {
        let stop = machine.run(steps);
        let words = [
            machine.reg(Reg::new(10)),
            machine.reg(Reg::new(11)),
            machine.reg(Reg::new(17)),
            machine.world().input.place,
        ];
        if stop != Stop::StepsSpent || words != [number, none, 7, place] {
            return false;
        }
    }
    true
}

// The same of a new machine.
fn new_machine_reads(rt: &impl Abort, alloc: Global) -> bool {
    // addi x17, x0, 7; ecall; ecall; ecall
    let code = [0x00700893, 0x00000073, 0x00000073, 0x00000073];
    let image = image_of(rt, alloc, &code, &[]);
    let input = Bytes::from_slice(alloc, b"42 -1 x").expect(rt, "memory");
    let mut machine = machine_on(rt, alloc, &image, 0, 0, input);
    reads(&mut machine)
}

#[test]
fn call_7_reads(rt: HostRuntime) {
    assert!(&rt; new_machine_reads(&rt, rt.alloc()));
}

// What a code comes to that writes the last word of a region of 64 MiB, reads it back and blames the label of that
// number.
fn blames_from_a_large_region(rt: &impl Abort, alloc: Global, labels: &[Pos]) -> Stop {
    // addi x5, x0, 2; sd x5, -8(x27); ld x10, -8(x27); addi x17, x0, 3; ecall
    let code = [0x00200293, 0xfe5dbc23, 0xff8db503, 0x00300893, 0x00000073];
    let mut machine = machine_for(rt, alloc, &code, labels, 67_108_864, 1_048_576);
    machine.run(100)
}

#[test]
fn runs_with_several_labels_and_a_large_region(rt: HostRuntime) {
    let last = Pos {
        line: 4_294_967_295,
        col: 12,
    };
    let rows: [(&[Pos], Stop); 2] = [
        (&[LABEL, Pos { line: 1, col: 1 }, last], Stop::Blamed(last)),
        (&[LABEL], Stop::Undefined(65552)),
    ];
    for (labels, stop) in rows {
        assert!(&rt; blames_from_a_large_region(&rt, rt.alloc(), labels) == stop);
    }
}

// The word that a machine with this code tells at an address.
fn word_at(rt: &impl Abort, alloc: Global, code: &[u32], at: u64) -> Option<u64> {
    let machine = machine_for(rt, alloc, code, &[LABEL], 16, 16);
    machine.word(at)
}

#[test]
fn tells_words(rt: HostRuntime) {
    let code = [0x02a00593, 0x00000073];
    for (at, word) in [
        (65528, None),
        (65536, Some(0x0000_0073_02a0_0593)),
        (65540, None),
        (65568, Some(0)),
        (65576, None),
    ] {
        assert!(&rt; word_at(&rt, rt.alloc(), &code, at) == word, "{at}");
    }
}
