// Numbered procedures, written by hand, that are lowered with the scheme in which casts of boxes pile up, as images on
// the emulator.

ghost use Rattle.rv_machine.specs.Start.{IsRegionSize};

use crate::tests::images::runs;
use crate::tests::merged::End::{Answers, Blames, Traps};
use crate::tests::merged::Turn::{Cast, Does};
use crate::tests::merged::{
    BOOL, BOX_OF_BOOL, BOX_OF_INT, INT, Program, body, labels, proc, wanted, with_casts,
};
use flat_ir::code::Operand::{Int, Local};
use flat_ir::programs::{FlatProcs, FlatProgram};
use grift_base::operators::PrimOp::{
    BoxSet, MakeBox, MakeVector, Unbox, VectorLength, VectorRef, VectorSet,
};
use grift_base::places::TypeId;
use grift_base::verdicts::Trap;
use low_ir::programs::LowProgram;
use piled_scheme::scheme::Piled;
use rv_emulator::stops::Stop;
use std::alloc::Global;
use std::process::Abort;

// The casts by their numbers, each of which has the label of its number. The scheme covers them all.
const SAME: u32 = 0;

const TO_TRUTH: u32 = 1;

const FROM_TRUTH: u32 = 2;

const KEPT: u32 = 3;

const WRONG: u32 = 4;

const NO_BOX: u32 = 5;

const CASTS: &[(TypeId, TypeId)] = &[
    (BOX_OF_INT, BOX_OF_INT),
    (BOX_OF_INT, BOX_OF_BOOL),
    (BOX_OF_BOOL, BOX_OF_INT),
    (INT, INT),
    (INT, BOOL),
    (BOX_OF_INT, INT),
];

const BOXES: &[Program] = &[
    // what is written through three wrappers that keep it stands in the box
    program!(
        Does(MakeBox, &[Int(40)]), Cast(Local(0), SAME), Cast(Local(1), SAME), Cast(Local(2), SAME),
        Does(BoxSet, &[Local(3), Int(42)]); Does(Unbox, &[Local(0)]) => Answers(42)
    ),
    // and is read through two
    program!(
        Does(MakeBox, &[Int(7)]), Cast(Local(0), SAME), Cast(Local(1), SAME),
        Does(Unbox, &[Local(2)]); Cast(Local(3), KEPT) => Answers(7)
    ),
    // what is read is cast by the innermost wrapper first
    program!(
        Does(MakeBox, &[Int(5)]), Cast(Local(0), SAME), Cast(Local(1), TO_TRUTH),
        Cast(Local(2), FROM_TRUTH); Does(Unbox, &[Local(3)]) => Blames(TO_TRUTH)
    ),
    // and what is written by the outermost
    program!(
        Does(MakeBox, &[Int(5)]), Cast(Local(0), SAME), Cast(Local(1), TO_TRUTH),
        Cast(Local(2), FROM_TRUTH), Does(BoxSet, &[Local(3), Int(6)]);
        Does(Unbox, &[Local(0)]) => Blames(FROM_TRUTH)
    ),
    // a box that is never used blames nothing
    program!(
        Does(MakeBox, &[Int(5)]), Cast(Local(0), TO_TRUTH); Does(Unbox, &[Local(0)]) => Answers(5)
    ),
    program!(Cast(Int(5), WRONG); Cast(Int(5), KEPT) => Blames(WRONG)),
    program!(
        Does(MakeBox, &[Int(5)]), Cast(Local(0), SAME), Cast(Local(1), NO_BOX);
        Cast(Int(5), KEPT) => Blames(NO_BOX)
    ),
];

const VECTORS: &[Program] = &[
    program!(
        Does(MakeVector, &[Int(3), Int(5)]), Does(VectorSet, &[Local(0), Int(2), Int(9)]);
        Does(VectorRef, &[Local(0), Int(2)]) => Answers(9)
    ),
    program!(Does(MakeVector, &[Int(3), Int(5)]); Does(VectorLength, &[Local(0)]) => Answers(3)),
    program!(
        Does(MakeVector, &[Int(3), Int(5)]);
        Does(VectorRef, &[Local(0), Int(3)]) => Traps(Trap::Index)
    ),
    program!(
        Does(MakeVector, &[Int(3), Int(5)]);
        Does(VectorSet, &[Local(0), Int(-1), Int(5)]) => Traps(Trap::Index)
    ),
    program!(; Does(MakeVector, &[Int(-1), Int(5)]) => Traps(Trap::Length)),
];

// The numbered procedures of a row, one alone.
fn flat_program(rt: &impl Abort, alloc: Global, row: &Program) -> FlatProgram {
    let mut procs = FlatProcs::new(alloc);
    let begins = body(rt, alloc, row.turns, &row.last);
    procs.push(proc(0, 0, 0, begins)).expect(rt, "memory");
    FlatProgram {
        procs,
        entry: 0,
        answer: INT,
    }
}

// The program over words of a row.
fn low_program(rt: &impl Abort, alloc: Global, row: &Program) -> LowProgram {
    let flat = flat_program(rt, alloc, row);
    assert!(rt; flat.is_closed());
    with_casts(rt, alloc, CASTS).low_of(rt, alloc, &flat, &Piled)
}

// What the image of a program comes to in a region of this size.
fn stop_of(rt: &impl Abort, alloc: Global, row: &Program, region: u64) -> Stop
    requires { IsRegionSize region }
{
    let low = low_program(rt, alloc, row);
    assert!(rt; low.is_closed());
    runs(rt, alloc, &low, &labels(rt, alloc), region, 65_536)
}

// Each program comes to what its row says.
fn come_to(rt: &impl Abort, alloc: Global, rows: &[Program]) {
    for (at, row) in rows.iter().enumerate() {
        assert!(rt;
            stop_of(rt, alloc, row, 4096) == wanted(&row.end),
            "program {at}"
        );
    }
}

#[test]
fn boxes_are_read_and_written_through_piles_of_wrappers(rt: HostRuntime) {
    come_to(&rt, rt.alloc(), BOXES);
}

#[test]
fn vectors_are_made_read_and_written(rt: HostRuntime) {
    come_to(&rt, rt.alloc(), VECTORS);
}

// A box has two words, and each of its three wrappers three.
#[test]
fn each_cast_of_a_box_takes_three_words(rt: HostRuntime) {
    let row = &BOXES[0];
    assert!(&rt; stop_of(&rt, rt.alloc(), row, 88) == wanted(&row.end));
    assert!(&rt; stop_of(&rt, rt.alloc(), row, 80) == Stop::RegionOut);
}
