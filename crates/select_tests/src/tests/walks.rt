// A walk over the boxes that a program has made.

use crate::tests::machines::{LABEL, assembled, machine_of};
use crate::tests::programs::{
    End, Op, Proc, boxed, procedure, program, push, push_procs, sources, step,
};
use assembler::image::Image;
use low_ir::code::LowSource::{Number, Word};
use low_ir::code::{LowCode, WordOp};
use low_ir::programs::{LowProc, LowProcs, LowProgram};
use machine_words::FIRST_ADDRESS;
use machine_words::conditions::Cond;
use object_layout::headers::{Header, pack};
use object_layout::kinds::Kind;
use object_layout::walks::{SpaceReport, walk};
use rv_emulator::flat::FlatRam;
use rv_emulator::machine::Machine;
use rv_isa::number::Reg;
use std::alloc::Global;
use std::process::Abort;

// How many boxes of 16 bytes fill 16 megabytes.
const BOXES: u64 = 1_048_576;

// Calls procedure 1 in its place, for so many boxes.
const BEGINS: &[Proc] = &[Proc {
    params: 0,
    words: 0,
    steps: &[],
    end: End::TailCall(1, &[Number(BOXES)]),
}];

// Makes as many boxes as its word says.
fn makes(rt: &impl Abort, alloc: Global, header: u64) -> LowProc {
    let again = LowCode::TailCall(1, sources(rt, alloc, &[Word(0)]));
    let one_less = Op::Compute(WordOp::Sub, 0, Word(0), Number(1));
    let next = boxed(rt, alloc, step(rt, alloc, &one_less, again));
    let words = sources(rt, alloc, &[Number(header), Word(0)]);
    let at_end = Op::Unless(Cond::Eq, Word(0), Number(0), Number(0));
    let code = step(rt, alloc, &at_end, LowCode::Build(1, words, next));
    procedure(1, 2, code)
}

// Makes the boxes.
fn boxes(rt: &impl Abort, alloc: Global) -> LowProgram {
    let header = pack(Header {
        kind: Kind::Boxed.number(),
        height: 0,
        count: 1,
    });
    let mut procs = LowProcs::new(alloc);
    push_procs(rt, alloc, &mut procs, BEGINS);
    push(rt, &mut procs, Ok(makes(rt, alloc, header)));
    program(alloc, procs, 0)
}

// The report of what stands from an address to the allocation word.
fn report_from(rt: &impl Abort, machine: &Machine<FlatRam>, from: u64) -> SpaceReport {
    let to = machine.reg(Reg::new(26));
    assert!(rt; from <= to, "no row begins there");
    walk(machine, from, to).expect(rt, "whole objects")
}

// The report of the boxes that the program of an image has made when it stops.
fn report_of(rt: &impl Abort, alloc: Global, image: &Image) -> SpaceReport {
    let mut machine = machine_of(rt, alloc, image, (16_777_216, 64));
    let _stop = machine.run(1_000_000_000);
    let from = FIRST_ADDRESS.wrapping_add(image.loaded().len() as u64);
    report_from(rt, &machine, from)
}

// The report of the boxes of this program.
fn report(rt: &impl Abort, alloc: Global) -> SpaceReport {
    let image = assembled(rt, alloc, boxes(rt, alloc), &[LABEL]);
    report_of(rt, alloc, &image)
}

#[test]
fn sixteen_megabytes_of_boxes_are_walked(rt: HostRuntime) {
    let whole = SpaceReport {
        bytes: 16_777_216,
        objects: BOXES,
        proxies: 0,
        stacked: 0,
        highest: 0,
    };
    assert!(rt; report(&rt, rt.alloc()) == whole);
}
