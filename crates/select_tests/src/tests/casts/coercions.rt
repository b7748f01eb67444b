// The coercions of random casts, made on the emulator and in tables.

use crate::tests::casts::codes::{COERCE, word};
use crate::tests::casts::pools::Setting;
use crate::tests::casts::rows::{Rows, Tally, answered, told};
use grift_base::places::LabelId;
use std::alloc::Global;
use std::process::Abort;

// How many casts one program has.
const MANY: u64 = 1_000;

// How many programs there are.
const PROGRAMS: u64 = 10;

// Random casts go behind the statics; their coercions in the table are wanted.
fn push_casts(rt: &impl Abort, alloc: Global, setting: &mut Setting, rows: &mut Rows) {
    for _ in 0..MANY {
        let (from, to) = setting.sample.pair(rt, &mut setting.random);
        let label = setting.random.below(1_000_000) as u32;
        let first = told(rt, rows.statics.type_at.as_slice(), from.0);
        let second = told(rt, rows.statics.type_at.as_slice(), to.0);
        let made = setting.pool.cast(rt, alloc, from, to, LabelId(label));
        rows.push(rt, [first, second, u64::from(label)], made);
    }
}

// Random casts between the types of a setting.
fn casts(rt: &impl Abort, alloc: Global, setting: &mut Setting) -> Rows {
    let mut rows = Rows::new(rt, alloc, &setting.pool);
    push_casts(rt, alloc, setting, &mut rows);
    rows
}

// The answers of one program, between random types, against the coercions of these casts, of which some are skipped.
fn tally(rt: &impl Abort, alloc: Global, seed: u64, skipped: usize) -> Tally {
    let mut setting = Setting::new(rt, alloc, seed);
    let rows = casts(rt, alloc, &mut setting);
    let taken = [word(3), word(4), word(5)];
    answered(
        rt,
        alloc,
        COERCE,
        &taken,
        rows,
        setting.pool.table(),
        skipped,
    )
}

// Those of all programs.
fn tally_of_all(rt: &impl Abort, alloc: Global) -> Tally {
    let mut all = Tally::NONE;
    for seed in 0..PROGRAMS {
        all = all.and(tally(rt, alloc, seed, 0));
    }
    all
}

#[test]
fn coercions_are_those_of_tables(rt: HostRuntime) {
    let all = tally_of_all(&rt, rt.alloc());
    assert!(rt; all.alike == MANY * PROGRAMS);
    // many of them have parts
    assert!(rt; all.high > 2_000);
}

// Each answer against the coercion of the cast behind it: few are alike.
#[test]
fn wrong_coercions_are_found(rt: HostRuntime) {
    let wrong = tally(&rt, rt.alloc(), 1, 1);
    assert!(rt; wrong.alike < MANY / 4);
}
