// Calls, reads, writes and vectors, through proxies and without.

use crate::tests::machines::{answer, comes_to};
use crate::tests::programs::Op::{Build, Call, CodeOf, Compute, Set};
use crate::tests::programs::{
    End, Op, Proc, boxed, procedure, program, push, push_procs, sources, step,
};
use crate::tests::proxies::Turn::{Cast, Does, InDyn};
use grift_base::places::Pos;
use grift_base::verdicts::Trap;
use grift_base::words::WordList;
use low_ir::code::LowSource::{Number, Word};
use low_ir::code::{LowCode, LowSource, WordOp};
use low_ir::programs::{LowProc, LowProcs, LowProgram};
use rt_cast::procs::cast_procs;
use rt_refs::calls::apply_proc;
use rt_refs::cells::{read_proc, write_proc};
use rt_refs::fills::{fill_loop, fill_proc};
use rt_refs::procs::ref_procs;
use rv_emulator::stops::Stop;
use std::alloc::Global;
use std::process::Abort;

// The procedures by their numbers: those of casts, then those of this file, and two functions.
const COERCE: u32 = 0;

const CAST: u32 = 2;

const APPLY: u32 = 27;

const READ: u32 = 28;

const WRITE: u32 = 29;

const FILL: u32 = 30;

const FILL_LOOP: u32 = 31;

const NEXT: u32 = 32;

const DIFFERENCE: u32 = 33;

const ENTRY: u32 = 34;

// The addresses of types in the statics.
const INT: u64 = 65_536;

const BOOL: u64 = 65_544;

const DYN: u64 = 65_552;

const BOX_OF_INT: u64 = 65_560;

const BOX_OF_DYN: u64 = 65_576;

const VECTOR_OF_INT: u64 = 65_592;

const VECTOR_OF_DYN: u64 = 65_608;

const INT_TO_INT: u64 = 65_624;

const DYN_TO_INT: u64 = 65_648;

const TWO_INTS_TO_INT: u64 = 65_672;

const DYN_AND_INT_TO_INT: u64 = 65_704;

const TWO_DYNS_TO_INT: u64 = 65_736;

// The labels of the casts: of the first and the second of a function, a box or a vector, and of those to Dyn.
const FIRST: Pos = Pos { line: 1, col: 1 };

const SECOND: Pos = Pos { line: 2, col: 1 };

const TO_DYN: Pos = Pos { line: 3, col: 1 };

// The headers of a closure and of a box, of one word each.
const CLOSURE_HEADER: u64 = 0x1_0000_0001;

const BOX_HEADER: u64 = 0x1_0000_0005;

// The word of -1.
const MINUS_ONE: u64 = u64::MAX;

// The kinds of types with parts.
const FUNCTION: u64 = 20;

const BOX: u64 = 22;

const VECTOR: u64 = 23;

// Kinds of types with their parts, which have no parts of their own, in the order of their addresses behind those of
// the types without parts.
const TYPES: &[(u64, &[u64])] = &[
    (BOX, &[INT]),
    (BOX, &[DYN]),
    (VECTOR, &[INT]),
    (VECTOR, &[DYN]),
    (FUNCTION, &[INT, INT]),
    (FUNCTION, &[DYN, INT]),
    (FUNCTION, &[INT, INT, INT]),
    (FUNCTION, &[DYN, INT, INT]),
    (FUNCTION, &[DYN, DYN, INT]),
];

// The types at their addresses.
fn types(rt: &impl Abort, alloc: Global) -> WordList {
    let mut words = WordList::from_slice(alloc, &[16, 17, 19]).expect(rt, "memory");
    for (kind, parts) in TYPES {
        let header = kind | 0x1_0000 | ((parts.len() as u64) << 32);
        words.push(header).expect(rt, "memory");
        words.extend(parts).expect(rt, "memory");
    }
    words
}

// The procedures that go through proxies.
fn push_proxies(rt: &impl Abort, alloc: Global, procs: &mut LowProcs) {
    push(rt, procs, apply_proc(alloc, CAST));
    push(rt, procs, read_proc(alloc, CAST));
    push(rt, procs, write_proc(alloc, CAST));
    push(rt, procs, fill_proc(alloc, FILL_LOOP));
    push(rt, procs, fill_loop(alloc, FILL_LOOP));
}

// Two functions, of which each takes its own address first.
const FUNCTIONS: &[Proc] = &[
    Proc {
        params: 2,
        words: 2,
        steps: &[Op::Compute(WordOp::Add, 1, Word(1), Number(1))],
        end: End::Return(Word(1)),
    },
    Proc {
        params: 3,
        words: 3,
        steps: &[Op::Compute(WordOp::Sub, 1, Word(1), Word(2))],
        end: End::Return(Word(1)),
    },
];

// What the procedure that a program begins with does, in order.
enum Turn {
    // A step as any procedure has it.
    Does(Op),
    // A word is cast between two types under a label.
    Cast(u32, (u64, u64), u64),
    // A word becomes a value of a type, and is cast to Dyn.
    InDyn(u32, (u64, u64)),
}

// Word d is cast between two types under a label, and then this is done.
fn cast(
    rt: &impl Abort,
    alloc: Global,
    d: u32,
    types: (u64, u64),
    label: u64,
    rest: LowCode,
) -> LowCode {
    let words = sources(rt, alloc, &[Word(d), Word(15)]);
    let cast = LowCode::Call(d, CAST, words, boxed(rt, alloc, rest));
    let (from, to) = types;
    let words = sources(rt, alloc, &[Number(from), Number(to), Number(label)]);
    LowCode::Call(15, COERCE, words, boxed(rt, alloc, cast))
}

// A turn, and what is done next.
fn turned(rt: &impl Abort, alloc: Global, turn: &Turn, rest: LowCode) -> LowCode {
    match turn {
        Turn::Does(op) => step(rt, alloc, op, rest),
        Turn::Cast(d, types, label) => cast(rt, alloc, *d, *types, *label, rest),
        Turn::InDyn(d, (from, word)) => {
            let code = cast(rt, alloc, *d, (*from, DYN), 2, rest);
            step(rt, alloc, &Op::Set(*d, Number(*word)), code)
        }
    }
}

// A procedure of sixteen words that does these turns and answers a source.
fn entry(rt: &impl Abort, alloc: Global, turns: &[Turn], answer: LowSource) -> LowProc {
    let mut code = LowCode::Return(answer);
    for each in turns.iter().rev() {
        code = turned(rt, alloc, each, code);
    }
    procedure(0, 16, code)
}

// What a program does first, what it answers, the size of its region, and what it comes to.
struct Sample {
    turns: &'static [Turn],
    answer: LowSource,
    region: u64,
    stop: Stop,
}

// The program of a row, in which all other procedures stand before the one that it begins with.
fn program_of(rt: &impl Abort, alloc: Global, row: &Sample) -> LowProgram {
    let mut procs = cast_procs(alloc, 0).expect(rt, "memory");
    push_proxies(rt, alloc, &mut procs);
    push_procs(rt, alloc, &mut procs, FUNCTIONS);
    push(rt, &mut procs, Ok(entry(rt, alloc, row.turns, row.answer)));
    let mut low = program(alloc, procs, ENTRY);
    low.statics.words = types(rt, alloc);
    low
}

// Whether the program of a row comes to what the row says.
fn is_so(rt: &impl Abort, alloc: Global, row: &Sample) -> bool {
    let low = program_of(rt, alloc, row);
    let labels = [FIRST, SECOND, TO_DYN];
    comes_to(rt, alloc, low, &labels, (row.region, 4_096)) == row.stop
}

// The program of each row comes to what the row says.
fn all_are_so(rt: &impl Abort, alloc: Global, rows: &[Sample]) {
    for (place, row) in rows.iter().enumerate() {
        assert!(rt; is_so(rt, alloc, row), "row {place}");
    }
}

// The function in word 0 is applied to the words 2 and 3, or to word 2 alone.
macro_rules! applied {
    ($count:expr) => {
        &[
            Word(0),
            Word(2),
            Word(3),
            Number(0),
            Number(0),
            Number(0),
            Number(0),
            Number($count),
        ]
    };
}

// A function of one Int, cast so that it takes a Dyn, is applied to a value in Dyn.
macro_rules! one_argument {
    ($value:expr, $stop:expr) => {
        Sample {
            turns: &[
                Does(CodeOf(1, NEXT)),
                Does(Build(0, &[Number(CLOSURE_HEADER), Word(1)])),
                Does(Set(3, Number(0))),
                Cast(0, (INT_TO_INT, DYN_TO_INT), 0),
                InDyn(2, $value),
                Does(Call(4, APPLY, applied!(1))),
            ],
            answer: Word(4),
            region: 65_536,
            stop: $stop,
        }
    };
}

// A function of two Ints, cast so that it takes a Dyn first and then so that it takes two, under labels of their own.
macro_rules! two_arguments {
    ($first:expr, $second:expr, $stop:expr) => {
        Sample {
            turns: &[
                Does(CodeOf(1, DIFFERENCE)),
                Does(Build(0, &[Number(CLOSURE_HEADER), Word(1)])),
                Cast(0, (TWO_INTS_TO_INT, DYN_AND_INT_TO_INT), 0),
                Cast(0, (DYN_AND_INT_TO_INT, TWO_DYNS_TO_INT), 1),
                InDyn(2, $first),
                InDyn(3, $second),
                Does(Call(4, APPLY, applied!(2))),
            ],
            answer: Word(4),
            region: 65_536,
            stop: $stop,
        }
    };
}

// Word 1 becomes a box of 7, word 0 the same as a box of Dyn; then a value is written to that, and the bare box is
// read.
macro_rules! box_written {
    ($value:expr, $stop:expr) => {
        Sample {
            turns: &[
                Does(Build(0, &[Number(BOX_HEADER), Number(7)])),
                Does(Set(1, Word(0))),
                Cast(0, (BOX_OF_INT, BOX_OF_DYN), 0),
                InDyn(2, $value),
                Does(Call(3, WRITE, &[Number(0), Word(0), Number(0), Word(2)])),
                Does(Call(4, READ, &[Number(0), Word(1), Number(0)])),
            ],
            answer: Word(4),
            region: 65_536,
            stop: $stop,
        }
    };
}

// Word 1 becomes a vector of three times 5, word 0 the same as a vector of Dyn; then an element of that is read, whose
// integer stands above a tag of three bits.
macro_rules! element_read {
    ($index:expr, $stop:expr) => {
        Sample {
            turns: &[
                Does(Call(1, FILL, &[Number(3), Number(5)])),
                Does(Set(0, Word(1))),
                Cast(0, (VECTOR_OF_INT, VECTOR_OF_DYN), 0),
                Does(Call(4, READ, &[Number(1), Word(0), Number($index)])),
                Does(Compute(WordOp::Sra, 4, Word(4), Number(3))),
            ],
            answer: Word(4),
            region: 65_536,
            stop: $stop,
        }
    };
}

// A value is written to an element of such a vector of Dyn, and then that of the bare vector is read.
macro_rules! element_written {
    ($index:expr, $value:expr, $stop:expr) => {
        Sample {
            turns: &[
                Does(Call(1, FILL, &[Number(3), Number(5)])),
                Does(Set(0, Word(1))),
                Cast(0, (VECTOR_OF_INT, VECTOR_OF_DYN), 0),
                InDyn(2, $value),
                Does(Call(3, WRITE, &[Number(1), Word(0), Number($index), Word(2)])),
                Does(Call(4, READ, &[Number(1), Word(1), Number($index)])),
            ],
            answer: Word(4),
            region: 65_536,
            stop: $stop,
        }
    };
}

// A vector of so many times 5 is made, and its length is answered, once this was done with it.
macro_rules! filled {
    ($length:expr, $region:expr, $stop:expr $(, $turn:expr)*) => {
        Sample {
            turns: &[
                Does(Call(1, FILL, &[Number($length), Number(5)])),
                Does(Call(2, READ, &[Number(2), Word(1), Number(0)])),
                $($turn,)*
            ],
            answer: Word(2),
            region: $region,
            stop: $stop,
        }
    };
}

// The same, where its last element is added to its length.
macro_rules! filled_and_read {
    ($length:expr, $region:expr, $stop:expr) => {
        filled!(
            $length,
            $region,
            $stop,
            Does(Call(4, READ, &[Number(1), Word(1), Number($length - 1)])),
            Does(Compute(WordOp::Add, 2, Word(2), Word(4)))
        )
    };
}

const OUTSIDE: Stop = Stop::Trapped(Trap::Index);

// Where both arguments are of the wrong type the first one's label is blamed.
const CALLS: &[Sample] = &[
    one_argument!((INT, 5), answer!(6)),
    one_argument!((BOOL, 1), Stop::Blamed(FIRST)),
    two_arguments!((INT, 7), (INT, 2), answer!(5)),
    two_arguments!((BOOL, 1), (INT, 2), Stop::Blamed(FIRST)),
    two_arguments!((INT, 7), (BOOL, 1), Stop::Blamed(SECOND)),
    two_arguments!((BOOL, 1), (BOOL, 1), Stop::Blamed(FIRST)),
];

#[test]
fn calls_go_through_proxies(rt: HostRuntime) {
    all_are_so(&rt, rt.alloc(), CALLS);
}

const BOXES: &[Sample] = &[
    // A box of 7 is read as a box of Dyn.
    Sample {
        turns: &[
            Does(Build(0, &[Number(BOX_HEADER), Number(7)])),
            Does(Set(1, Word(0))),
            Cast(0, (BOX_OF_INT, BOX_OF_DYN), 0),
            Does(Call(4, READ, &[Number(0), Word(0), Number(0)])),
            Does(Compute(WordOp::Sra, 4, Word(4), Number(3))),
        ],
        answer: Word(4),
        region: 65_536,
        stop: answer!(7),
    },
    box_written!((INT, 9), answer!(9)),
    box_written!((BOOL, 1), Stop::Blamed(FIRST)),
];

#[test]
fn boxes_are_read_and_written_through_proxies(rt: HostRuntime) {
    all_are_so(&rt, rt.alloc(), BOXES);
}

// Where both index and value are wrong it traps, and no label is blamed.
const ELEMENTS: &[Sample] = &[
    element_read!(0, answer!(5)),
    element_read!(2, answer!(5)),
    element_read!(3, OUTSIDE),
    element_read!(MINUS_ONE, OUTSIDE),
    element_written!(0, (INT, 9), answer!(9)),
    element_written!(2, (INT, 9), answer!(9)),
    element_written!(0, (BOOL, 1), Stop::Blamed(FIRST)),
    element_written!(3, (BOOL, 1), OUTSIDE),
    element_written!(MINUS_ONE, (BOOL, 1), OUTSIDE),
    element_written!(MINUS_ONE, (INT, 9), OUTSIDE),
    // The length of a vector of three elements is told through a proxy.
    Sample {
        turns: &[
            Does(Call(1, FILL, &[Number(3), Number(5)])),
            Does(Set(0, Word(1))),
            Cast(0, (VECTOR_OF_INT, VECTOR_OF_DYN), 0),
            Does(Call(4, READ, &[Number(2), Word(0), Number(0)])),
        ],
        answer: Word(4),
        region: 65_536,
        stop: answer!(3),
    },
];

#[test]
fn elements_are_read_and_written_through_proxies(rt: HostRuntime) {
    all_are_so(&rt, rt.alloc(), ELEMENTS);
}

// Vectors fill a region exactly, and one word more doesn't fit. A length below 0 traps, and the greatest has no room.
const LENGTHS: &[Sample] = &[
    filled!(0, 8, answer!(0)),
    filled!(0, 0, Stop::RegionOut),
    filled_and_read!(1, 16, answer!(6)),
    filled_and_read!(1, 8, Stop::RegionOut),
    filled_and_read!(1_000, 8_008, answer!(1_005)),
    filled_and_read!(1_000, 8_000, Stop::RegionOut),
    filled!(MINUS_ONE, 65_536, Stop::Trapped(Trap::Length)),
    filled!(MINUS_ONE / 2, 65_536, Stop::RegionOut),
];

#[test]
fn vectors_fill_a_region(rt: HostRuntime) {
    all_are_so(&rt, rt.alloc(), LENGTHS);
}

#[test]
fn there_are_nine_procedures(rt: HostRuntime) {
    let procs = ref_procs(rt.alloc(), 27, CAST).expect(&rt, "memory");
    assert!(rt; procs.len() == 9);
}
