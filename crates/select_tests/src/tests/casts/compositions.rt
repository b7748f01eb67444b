// Random pairs of coercions, composed on the emulator and in tables.

use crate::tests::casts::codes::{COMPOSE, word};
use crate::tests::casts::pools::Setting;
use crate::tests::casts::random::Random;
use crate::tests::casts::rows::{Rows, Tally, answered, told};
use coercion_norm::nodes::CoercionId;
use grift_base::places::LabelId;
use std::alloc::Global;
use std::process::Abort;

// How many pairs one program composes.
const PAIRS: u64 = 1_000;

// How many programs there are.
const PROGRAMS: u64 = 10;

// Coercions of random casts are added to these.
fn add_casts(rt: &impl Abort, alloc: Global, setting: &mut Setting, made: &mut Vec<CoercionId>) {
    for _ in 0..40 {
        let (from, to) = setting.sample.pair(rt, &mut setting.random);
        let label = LabelId(setting.random.below(1_000) as u32);
        let cast = setting.pool.cast(rt, alloc, from, to, label);
        made.push(cast).expect(rt, "memory");
    }
}

// One of these coercions.
fn one_of(rt: &impl Abort, random: &mut Random, made: &[CoercionId]) -> CoercionId {
    let many = made.len() as u64;
    if many == 0 {
        panic!(rt; "no coercion is made");
    }
    match made.get(random.below(many) as usize) {
        Some(c) => *c,
        None => panic!(rt; "no such coercion is made"),
    }
}

// Compositions of some of these coercions are added to them.
fn add_compositions(
    rt: &impl Abort,
    alloc: Global,
    setting: &mut Setting,
    made: &mut Vec<CoercionId>,
) {
    for _ in 0..20 {
        let c = one_of(rt, &mut setting.random, made.as_slice());
        let d = one_of(rt, &mut setting.random, made.as_slice());
        let composed = setting.pool.compose(rt, alloc, c, d);
        made.push(composed).expect(rt, "memory");
    }
}

// Coercions of random casts, and compositions of them.
fn coercions(rt: &impl Abort, alloc: Global, setting: &mut Setting) -> Vec<CoercionId> {
    let mut made = Vec::new(alloc);
    add_casts(rt, alloc, setting, &mut made);
    add_compositions(rt, alloc, setting, &mut made);
    made
}

// Random pairs of these coercions go behind the statics; their compositions in the table are wanted.
fn push_pairs(
    rt: &impl Abort,
    alloc: Global,
    setting: &mut Setting,
    made: &[CoercionId],
    rows: &mut Rows,
) {
    for _ in 0..PAIRS {
        let c = one_of(rt, &mut setting.random, made);
        let d = one_of(rt, &mut setting.random, made);
        let first = told(rt, rows.statics.coercion_at.as_slice(), c.0);
        let second = told(rt, rows.statics.coercion_at.as_slice(), d.0);
        let composed = setting.pool.compose(rt, alloc, c, d);
        rows.push(rt, [first, second, 0], composed);
    }
}

// Random pairs of coercions of a setting.
fn pairs(rt: &impl Abort, alloc: Global, setting: &mut Setting) -> Rows {
    let made = coercions(rt, alloc, setting);
    let mut rows = Rows::new(rt, alloc, &setting.pool);
    push_pairs(rt, alloc, setting, made.as_slice(), &mut rows);
    rows
}

// The answers of one program, between random types, against the compositions of these pairs.
fn tally(rt: &impl Abort, alloc: Global, seed: u64) -> Tally {
    let mut setting = Setting::new(rt, alloc, seed);
    let rows = pairs(rt, alloc, &mut setting);
    let taken = [word(3), word(4)];
    answered(rt, alloc, COMPOSE, &taken, rows, setting.pool.table(), 0)
}

// Those of all programs.
fn tally_of_all(rt: &impl Abort, alloc: Global) -> Tally {
    let mut all = Tally::NONE;
    for seed in 0..PROGRAMS {
        all = all.and(tally(rt, alloc, seed));
    }
    all
}

#[test]
fn compositions_are_those_of_tables(rt: HostRuntime) {
    let all = tally_of_all(&rt, rt.alloc());
    assert!(rt; all.alike == PAIRS * PROGRAMS);
    // many of them have parts
    assert!(rt; all.high > 2_000);
}
