// What programs over words come to on the emulator.

ghost use Rattle.std.specs.Prelude.{◌≡◌, IsTrue};
ghost use Rattle.rv_machine.specs.Start.{IsRegionSize, IsStackSize};

use crate::tests::programs::{Proc, program_of};
use assembler::image::Image;
use grift_base::lists::Bytes;
use grift_base::places::{LabelTable, Pos};
use grift_base::worlds::World;
use low_ir::programs::LowProgram;
use reg_assign::images::image_of;
use rv_emulator::flat::FlatRam;
use rv_emulator::machine::Machine;
use rv_emulator::stops::Stop;
use std::alloc::Global;
use std::process::Abort;

// The label of programs that have one.
pub(crate) const LABEL: Pos = Pos { line: 3, col: 7 };

// The answer Int with a word.
macro_rules! answer {
    ($word:expr) => {
        Stop::Ended(grift_base::verdicts::Answer {
            kind: grift_base::verdicts::AnswerKind::Int,
            word: $word,
        })
    };
}

pub(crate) use answer;

// A table of these labels.
fn table_of(rt: &impl Abort, alloc: Global, labels: &[Pos]) -> LabelTable {
    let mut table = LabelTable::new(alloc);
    for label in labels {
        table.intern(*label).expect(rt, "memory");
    }
    table
}

// The image of a program, which is closed, with these labels.
fn image_with(rt: &impl Abort, alloc: Global, low: &LowProgram, labels: &[Pos]) -> Image {
    assert!(rt; low.is_closed(), "the program is not closed");
    let labels = table_of(rt, alloc, labels);
    image_of(alloc, low, &labels).expect(rt, "memory")
}

// The same of a program that is taken, so that no caller keeps it.
pub(crate) fn assembled(rt: &impl Abort, alloc: Global, low: LowProgram, labels: &[Pos]) -> Image {
    image_with(rt, alloc, &low, labels)
}

// A machine with this image, a region and a stack of these sizes and no input.
pub(crate) fn machine_of(
    rt: &impl Abort,
    alloc: Global,
    image: &Image,
    sizes: (u64, u64),
) -> Machine<FlatRam>
    requires region { IsRegionSize sizes.0 }
    requires stack { IsStackSize sizes.1 }
{
    let (region, stack) = sizes;
    let size = image.loaded().len() as u64 + region + stack;
    let ram = FlatRam::new(alloc, size).expect(rt, "memory");
    let world = World::new(alloc, Bytes::new(alloc));
    Machine::load(alloc, image, ram, region, stack, world).expect(rt, "memory")
}

// Whether a region and a stack may have these sizes.
fn are_sizes(sizes: (u64, u64)) -> bool
    ensures { IsTrue result → IsRegionSize sizes.0 × IsStackSize sizes.1 }
{
    let (region, stack) = sizes;
    region % 8 == 0 && region <= 1_073_741_824 && stack % 8 == 0 && stack <= 268_435_456
}

// What a machine comes to, and whether it has printed this text.
fn stop_of(machine: &mut Machine<FlatRam>, text: &str) -> (Stop, bool) {
    let stop = machine.run(1_000_000_000);
    (stop, machine.world().output.as_slice() == text.as_bytes())
}

// What an image comes to in a region and a stack of these sizes, and whether it prints this text.
fn run_of(
    rt: &impl Abort,
    alloc: Global,
    image: &Image,
    sizes: (u64, u64),
    text: &str,
) -> (Stop, bool) {
    assert!(rt; are_sizes(sizes), "a region or a stack has no such size");
    let mut machine = machine_of(rt, alloc, image, sizes);
    stop_of(&mut machine, text)
}

// What a program with these labels comes to in a region and a stack of these sizes, where it prints nothing.
pub(crate) fn comes_to(
    rt: &impl Abort,
    alloc: Global,
    low: LowProgram,
    labels: &[Pos],
    sizes: (u64, u64),
) -> Stop {
    let image = assembled(rt, alloc, low, labels);
    let (stop, prints_nothing) = run_of(rt, alloc, &image, sizes, "");
    assert!(rt; prints_nothing, "the program prints");
    stop
}

// A program, the sizes of its region and its stack, what it prints and what it comes to.
pub(crate) struct Run {
    pub(crate) program: &'static [Proc],
    pub(crate) sizes: (u64, u64),
    pub(crate) prints: &'static str,
    pub(crate) stop: Stop,
}

// A row of a program that prints nothing.
macro_rules! silent {
    ($program:expr, $sizes:expr, $stop:expr) => {
        Run {
            program: $program,
            sizes: $sizes,
            prints: "",
            stop: $stop,
        }
    };
}

pub(crate) use silent;

// Whether a program comes to what its row says.
fn is_so(rt: &impl Abort, alloc: Global, row: &Run) -> bool {
    let image = assembled(rt, alloc, program_of(rt, alloc, row.program), &[LABEL]);
    run_of(rt, alloc, &image, row.sizes, row.prints) == (row.stop, true)
}

// Each program comes to what its row says.
pub(crate) fn all_are_so(rt: &impl Abort, alloc: Global, rows: &[Run]) {
    for (place, row) in rows.iter().enumerate() {
        assert!(rt; is_so(rt, alloc, row), "row {place}");
    }
}
