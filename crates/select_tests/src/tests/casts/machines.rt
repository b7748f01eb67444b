// Programs of casts on the emulator.

ghost use Rattle.std.specs.Prelude.{◌≡◌};
ghost use Rattle.rv_machine.specs.Start.{IsRegionSize, IsStackSize};

use assembler::image::Image;
use grift_base::lists::Bytes;
use grift_base::places::LabelTable;
use grift_base::worlds::World;
use low_ir::programs::LowProgram;
use machine_words::FIRST_ADDRESS;
use object_layout::walks::{SpaceReport, walk};
use reg_assign::images::image_of;
use rv_emulator::flat::FlatRam;
use rv_emulator::machine::Machine;
use rv_emulator::stops::Stop;
use rv_isa::number::Reg;
use std::alloc::Global;
use std::process::Abort;

// The bytes of the region and of the stack.
const REGION: u64 = 4_194_304;

const STACK: u64 = 65_536;

// A program that has come to its answer: the machine, the answer's word, and what fills the region.
#[derive(Drop)]
pub(crate) struct Ended {
    pub machine: Machine<FlatRam>,
    pub word: u64,
    pub report: SpaceReport,
}

// The image of a program that is closed.
fn image_for(rt: &impl Abort, alloc: Global, low: &LowProgram) -> Image {
    assert!(rt; low.is_closed(), "the program is not closed");
    image_of(alloc, low, &LabelTable::new(alloc)).expect(rt, "memory")
}

// The machine of an image at its start.
fn started(rt: &impl Abort, alloc: Global, image: &Image) -> Machine<FlatRam> {
    let size = image.loaded().len() as u64 + REGION + STACK;
    let ram = FlatRam::new(alloc, size).expect(rt, "memory");
    let world = World::new(alloc, Bytes::new(alloc));
    Machine::load(alloc, image, ram, REGION, STACK, world).expect(rt, "memory")
}

// The report of what stands from an address to the allocation word.
fn report_from(rt: &impl Abort, machine: &Machine<FlatRam>, from: u64) -> SpaceReport {
    let to = machine.reg(Reg::new(26));
    if to < from {
        panic!(rt; "the allocation word is too low");
    }
    walk(machine, from, to).expect(rt, "the region is torn")
}

// Why a machine stops, whose region begins at an address. Every so many turns what was added to the region has to be
// whole objects with no proxy on a proxy.
fn run_on(rt: &impl Abort, machine: &mut Machine<FlatRam>, from: u64, turns: u64) -> Stop {
    let mut seen = from;
    for _ in 0..10_000_000 {
        let stop = machine.run(turns);
        let added = report_from(rt, machine, seen);
        assert!(rt; added.stacked == 0, "a proxy stands on a proxy");
        if stop != Stop::StepsSpent {
            return stop;
        }
        seen = seen.wrapping_add(added.bytes);
    }
    Stop::StepsSpent
}

// The answer of a machine.
fn answer_of(rt: &impl Abort, machine: &mut Machine<FlatRam>, from: u64, turns: u64) -> u64 {
    match run_on(rt, machine, from, turns) {
        Stop::Ended(answer) => answer.word.cast_unsigned(),
        _ => panic!(rt; "the program comes to no answer"),
    }
}

// Runs a machine to its answer; what fills the region then is seen at the end.
fn end_of(rt: &impl Abort, machine: Machine<FlatRam>, from: u64, turns: u64) -> Ended {
    let mut machine = machine;
    let word = answer_of(rt, &mut machine, from, turns);
    let report = report_from(rt, &machine, from);
    Ended {
        machine,
        word,
        report,
    }
}

// Runs a program to its answer, looking at the region every so many turns, and at the end at all of it.
pub(crate) fn runs(rt: &impl Abort, alloc: Global, low: &LowProgram, turns: u64) -> Ended {
    let image = image_for(rt, alloc, low);
    let from = FIRST_ADDRESS.wrapping_add(image.loaded().len() as u64);
    end_of(rt, started(rt, alloc, &image), from, turns)
}
