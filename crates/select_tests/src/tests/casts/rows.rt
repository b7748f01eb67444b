// Procedures that are called for rows of words on the emulator, and their answers against coercions of a table.

use crate::tests::casts::codes::{
    build, call, change, load, number, procs_with, program, round, until, word,
};
use crate::tests::casts::machines::runs;
use crate::tests::casts::pools::Pool;
use crate::tests::casts::trees::Reading;
use coercion_norm::nodes::CoercionId;
use coercion_norm::tables::CoercionTable;
use grift_base::words::Statics;
use low_ir::code::{LowCode, LowSource, WordOp};
use low_ir::programs::{LowProc, LowProcs, LowProgram};
use machine_words::FIRST_ADDRESS;
use object_layout::headers::{Header, pack};
use object_layout::kinds::Kind;
use std::alloc::Global;
use std::process::Abort;

// How many turns are made between two looks at the region.
const TURNS: u64 = 1_000;

// The code that calls a procedure with each row of three words from the address in word 1 to that in word 0, the last
// one first; it takes these of the words 3, 4 and 5. Each answer goes, before word 2, into a tuple with the tuple of
// the one before.
fn calling_code(rt: &impl Abort, alloc: Global, procedure: u32, taken: &[LowSource]) -> LowCode {
    let header = pack(Header {
        kind: Kind::Tuple.number(),
        height: 0,
        count: 2,
    });
    let code = round(rt, alloc, &[word(0), word(1), word(2)]);
    let code = build(rt, alloc, 2, &[number(header), word(6), word(2)], code);
    let code = call(rt, alloc, 6, procedure, taken, code);
    let code = load(rt, alloc, 5, 16, code);
    let code = load(rt, alloc, 4, 8, code);
    let code = load(rt, alloc, 3, 0, code);
    let code = change(rt, alloc, WordOp::Sub, 0, 24, code);
    until(rt, alloc, word(1), word(2), code)
}

// The procedure with that code.
fn calls(rt: &impl Abort, alloc: Global, procedure: u32, taken: &[LowSource]) -> LowProc {
    LowProc {
        params: 3,
        words: 7,
        code: calling_code(rt, alloc, procedure, taken),
    }
}

// Begins with the rows between two addresses.
fn begins(rt: &impl Abort, alloc: Global, end: u64, from: u64) -> LowProc {
    LowProc {
        params: 0,
        words: 0,
        code: round(rt, alloc, &[number(end), number(from), number(0)]),
    }
}

// Statics with rows of three words behind them, and the coercions that the rows are to be answered with.
#[derive(Drop)]
pub(crate) struct Rows {
    pub statics: Statics,
    pub wanted: Vec<CoercionId>,
}

impl Rows {
    // No rows.
    pub(crate) fn new(rt: &impl Abort, alloc: Global, pool: &Pool) -> Rows {
        let statics = pool.place(rt, alloc);
        let wanted = Vec::new(alloc);
        Rows { statics, wanted }
    }

    // One more row.
    pub(crate) fn push(&mut self, rt: &impl Abort, row: [u64; 3], wanted: CoercionId) {
        self.statics.words.extend(&row).expect(rt, "memory");
        self.wanted.push(wanted).expect(rt, "memory");
    }
}

// The procedures of a program that calls one of them with each row behind its statics.
fn calling(
    rt: &impl Abort,
    alloc: Global,
    procedure: u32,
    taken: &[LowSource],
    rows: &Rows,
) -> LowProcs {
    let end = FIRST_ADDRESS.wrapping_add(rows.statics.words.len().wrapping_mul(8));
    let from = end.wrapping_sub((rows.wanted.len() as u64).wrapping_mul(24));
    let goes_round = calls(rt, alloc, procedure, taken);
    let begins = begins(rt, alloc, end, from);
    procs_with(rt, alloc, goes_round, begins)
}

// A word that is told for a place.
pub(crate) fn told(rt: &impl Abort, words: &[u64], place: u32) -> u64 {
    match words.get(place as usize) {
        Some(word) => *word,
        None => panic!(rt; "nothing is told for the place"),
    }
}

// How many answers hold what the table has, and how many of these have parts.
#[derive(Clone, Copy)]
pub(crate) struct Tally {
    pub alike: u64,
    pub high: u64,
}

impl Tally {
    pub(crate) const NONE: Tally = Tally { alike: 0, high: 0 };

    pub(crate) fn and(self, other: Tally) -> Tally {
        Tally {
            alike: self.alike.wrapping_add(other.alike),
            high: self.high.wrapping_add(other.high),
        }
    }
}

// What the machine answers when a procedure takes these words of each row, against the coercions of a table that are
// wanted. Where some are skipped, the first answer is held against the coercion behind those, and so on.
pub(crate) fn answered(
    rt: &impl Abort,
    alloc: Global,
    procedure: u32,
    taken: &[LowSource],
    rows: Rows,
    table: &CoercionTable,
    skipped: usize,
) -> Tally {
    let procs = calling(rt, alloc, procedure, taken, &rows);
    let Rows { statics, wanted } = rows;
    let low = program(procs, statics);
    compared(rt, alloc, &low, table, wanted.as_slice(), skipped)
}

// The answers of a program, the first one first, against these coercions, of which some are skipped.
fn compared(
    rt: &impl Abort,
    alloc: Global,
    low: &LowProgram,
    table: &CoercionTable,
    coercions: &[CoercionId],
    skipped: usize,
) -> Tally {
    let ended = runs(rt, alloc, low, TURNS);
    let reading = Reading {
        machine: &ended.machine,
        table,
        type_at: low.statics.type_at.as_slice(),
    };
    tallied(rt, alloc, &reading, ended.word, coercions, skipped)
}

// The answers in a tuple and those behind it against these coercions, of which some are skipped.
fn tallied(
    rt: &impl Abort,
    alloc: Global,
    reading: &Reading,
    cell: u64,
    coercions: &[CoercionId],
    skipped: usize,
) -> Tally {
    let Some(coercions) = coercions.get(skipped..) else {
        panic!(rt; "there are fewer coercions");
    };
    let mut tally = Tally::NONE;
    let mut cell = cell;
    for c in coercions {
        let (Some(answer), Some(rest)) = (reading.word(cell, 1), reading.word(cell, 2)) else {
            panic!(rt; "an answer is missing");
        };
        if reading.holds(rt, alloc, *c, answer) {
            let high = c.0 < reading.table.len() && reading.table.height(*c) != 0;
            tally = tally.and(Tally {
                alike: 1,
                high: u64::from(high),
            });
        }
        cell = rest;
    }
    tally
}
