// A value that is cast there and back over and over.

use crate::tests::casts::codes::{
    CAST, build, call, change, number, procs_with, program, round, until, word,
};
use crate::tests::casts::machines::{Ended, runs};
use crate::tests::casts::pools::Pool;
use crate::tests::casts::rows::told;
use crate::tests::casts::samples::put;
use coercion_norm::nodes::CoercionId;
use grift_base::places::{LabelId, TypeId};
use grift_base::words::{Statics, Words};
use low_ir::code::{LowCode, WordOp};
use low_ir::programs::{LowProc, LowProcs, LowProgram};
use object_layout::headers::{Header, pack};
use object_layout::kinds::Kind;
use object_layout::wholes::{header_at, kind_at};
use std::alloc::Global;
use std::process::Abort;
use type_graph::rows::{Row, TypeIds};
use type_graph::tables::TypeTable;

// How many times it goes there and back.
const ROUNDS: u64 = 500;

// The code that casts word 1 by the coercion in word 2, then by that in word 3, as many times as word 0 says.
fn casting_code(rt: &impl Abort, alloc: Global) -> LowCode {
    let code = round(rt, alloc, &[word(0), word(1), word(2), word(3)]);
    let code = change(rt, alloc, WordOp::Sub, 0, 1, code);
    let code = call(rt, alloc, 1, CAST, &[word(1), word(3)], code);
    let code = call(rt, alloc, 1, CAST, &[word(1), word(2)], code);
    until(rt, alloc, number(0), word(1), code)
}

// The procedure with that code.
fn casts(rt: &impl Abort, alloc: Global) -> LowProc {
    LowProc {
        params: 4,
        words: 4,
        code: casting_code(rt, alloc),
    }
}

// Makes an object of a kind with one word, casts it by the coercions with these words 500 times over, and then once
// more by the first.
fn begins(rt: &impl Abort, alloc: Global, kind: Kind, there: u64, back: u64) -> LowProc {
    let header = pack(Header {
        kind: kind.number(),
        height: 0,
        count: 1,
    });
    let words = [number(ROUNDS), word(1), number(back), number(there)];
    let code = round(rt, alloc, &words);
    let code = call(rt, alloc, 1, CAST, &[word(0), number(there)], code);
    let code = build(rt, alloc, 0, &[number(header), number(0)], code);
    LowProc {
        params: 0,
        words: 2,
        code,
    }
}

// The procedures of a program that casts an object of a kind by the coercions with these words.
fn casting(rt: &impl Abort, alloc: Global, kind: Kind, there: u64, back: u64) -> LowProcs {
    let casts = casts(rt, alloc);
    let begins = begins(rt, alloc, kind, there, back);
    procs_with(rt, alloc, casts, begins)
}

// Those of one that casts by two coercions of its statics.
fn casting_by(
    rt: &impl Abort,
    alloc: Global,
    kind: Kind,
    statics: &Statics,
    there: CoercionId,
    back: CoercionId,
) -> LowProcs {
    let there = told(rt, statics.coercion_at.as_slice(), there.0);
    let back = told(rt, statics.coercion_at.as_slice(), back.0);
    casting(rt, alloc, kind, there, back)
}

// How two types become higher: to functions from each to the other, to functions from each to itself, or to boxes.
#[derive(Clone, Copy)]
enum Above {
    Crossed,
    Straight,
    Boxes,
}

// The row of what stands above one of two types.
fn row_above(rt: &impl Abort, alloc: Global, above: Above, one: TypeId, other: TypeId) -> Row {
    let result = match above {
        Above::Crossed => other,
        Above::Straight => one,
        Above::Boxes => return Row::Ref(one),
    };
    Row::Fun(
        TypeIds::from_slice(alloc, &[one]).expect(rt, "memory"),
        result,
    )
}

// Two types over Int and Dyn: the one has Int where the other has Dyn.
fn opposites(
    rt: &impl Abort,
    alloc: Global,
    types: &mut TypeTable,
    heights: &[Above],
) -> (TypeId, TypeId) {
    let mut one = put(rt, types, Row::Int);
    let mut other = put(rt, types, Row::Dyn);
    for above in heights {
        let higher = put(rt, types, row_above(rt, alloc, *above, one, other));
        other = put(rt, types, row_above(rt, alloc, *above, other, one));
        one = higher;
    }
    (one, other)
}

// An object of a kind that is cast between two opposites, the height of the proxy that it ends as, and how many proxies
// are left behind.
struct Case {
    kind: Kind,
    heights: &'static [Above],
    height: u32,
    proxies: u64,
}

// The program that casts over and over, and the height of the cast's coercion.
fn program_of_casts(
    rt: &impl Abort,
    alloc: Global,
    kind: Kind,
    pool: &mut Pool,
    one: TypeId,
    other: TypeId,
) -> (LowProgram, u32) {
    let there = pool.cast(rt, alloc, one, other, LabelId(0));
    let back = pool.cast(rt, alloc, other, one, LabelId(1));
    let high = pool.height(rt, there);
    let statics = pool.place(rt, alloc);
    let procs = casting_by(rt, alloc, kind, &statics, there, back);
    (program(procs, statics), high)
}

// That of a case.
fn program_of(rt: &impl Abort, alloc: Global, case: &Case) -> (LowProgram, u32) {
    let mut types = TypeTable::new(alloc).expect(rt, "memory");
    let (one, other) = opposites(rt, alloc, &mut types, case.heights);
    let mut pool = Pool::new(rt, alloc, types);
    program_of_casts(rt, alloc, case.kind, &mut pool, one, other)
}

// Whether the object ends as one proxy of the case's height, which is that of the cast's coercion and the greatest of
// all, and whether so many proxies are left behind.
fn keeps_one_proxy(rt: &impl Abort, alloc: Global, case: &Case) -> bool {
    let (low, high) = program_of(rt, alloc, case);
    high == case.height && ends_as_one_proxy(rt, alloc, &low, case)
}

// Whether what a program comes to is such a proxy.
fn ends_as_one_proxy(rt: &impl Abort, alloc: Global, low: &LowProgram, case: &Case) -> bool {
    let ended = runs(rt, alloc, low, 1_000);
    is_one_proxy(&ended, case)
}

// Whether an answer is such a proxy.
fn is_one_proxy(ended: &Ended, case: &Case) -> bool {
    ended.report.highest == case.height
        && ended.report.proxies == case.proxies
        && is_proxy(ended, case.kind, case.height)
}

// Whether the answer is a proxy of an object of a kind, with a coercion of a height.
fn is_proxy(ended: &Ended, kind: Kind, high: u32) -> bool {
    let machine = &ended.machine;
    let at = ended.word;
    let target = machine.word(at.wrapping_add(8));
    let coercion = machine.word(at.wrapping_add(16));
    match (kind_at(machine, at), target, coercion) {
        (Some(Kind::Proxy), Some(target), Some(coercion)) => {
            matches!(kind_at(machine, target), Some(found) if found == kind)
                && matches!(header_at(machine, coercion), Some(h) if u32::from(h.height) == high)
        }
        _ => false,
    }
}

const CASES: [Case; 3] = [
    // a function: each cast leaves a proxy behind
    Case {
        kind: Kind::Closure,
        heights: &[Above::Crossed, Above::Crossed],
        height: 2,
        proxies: 2 * ROUNDS + 1,
    },
    // a box of one: so it does here
    Case {
        kind: Kind::Boxed,
        heights: &[Above::Crossed, Above::Crossed, Above::Boxes],
        height: 3,
        proxies: 2 * ROUNDS + 1,
    },
    // from Int to Dyn and back nothing is left to do, so every other cast leaves the bare function
    Case {
        kind: Kind::Closure,
        heights: &[Above::Straight],
        height: 1,
        proxies: ROUNDS + 1,
    },
];

// Each object is cast to what its case says.
fn come_to(rt: &impl Abort, alloc: Global, cases: &[Case]) {
    for case in cases {
        assert!(rt; keeps_one_proxy(rt, alloc, case), "height {}", case.height);
    }
}

#[test]
fn values_keep_one_proxy(rt: HostRuntime) {
    come_to(&rt, rt.alloc(), &CASES);
}
