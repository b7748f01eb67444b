// Runs over pages, and runs whose output is put in blocks.

ghost use Rattle.std.specs.Prelude.{◌≡◌, []};
ghost use Rattle.rv_emulator.specs.Processor.{state_of};

use crate::tests::images::{SMALLEST, image_of_groups};
use crate::tests::machines::{ended, image_of, machine_of};
use assembler::image::Image;
use grift_base::lists::{Bytes, CallList};
use grift_base::sinks::{MemSink, Sink};
use grift_base::verdicts::AnswerKind;
use grift_base::worlds::World;
use rv_emulator::machine::Machine;
use rv_emulator::paged::PagedRam;
use rv_emulator::ram::{Ram, Width};
use rv_emulator::stops::{BlockStop, Stop};
use std::alloc::Global;
use std::process::Abort;

// A machine with this image over pages, with a region of a gigabyte and the largest stack.
fn paged_machine(rt: &impl Abort, alloc: Global, image: &Image) -> Machine<PagedRam>
    ensures { (state_of ⟦<PagedRam as Ram>⟧.memory result).world.output ≡ [] }
{
    let (region, stack) = (1_073_741_824, 268_435_456);
    let size = image.loaded().len() as u64 + region + stack;
    let ram = PagedRam::new(alloc, size).expect(rt, "memory");
    let world = World::new(alloc, Bytes::new(alloc));
    Machine::load(alloc, image, ram, region, stack, world).expect(rt, "memory")
}

// What an image comes to within 7 steps over bytes in a row.
fn over_bytes(rt: &impl Abort, alloc: Global, image: &Image) -> Stop {
    let mut machine = machine_of(rt, alloc, image, 16_777_216, 1_048_576);
    machine.run(7)
}

// The same over pages.
fn over_pages(rt: &impl Abort, alloc: Global, image: &Image) -> Stop {
    let mut machine = paged_machine(rt, alloc, image);
    machine.run(7)
}

// What the smallest image comes to over both memories.
fn over_both(rt: &impl Abort, alloc: Global) -> [Stop; 2] {
    let image = image_of_groups(rt, alloc, &SMALLEST);
    [over_bytes(rt, alloc, &image), over_pages(rt, alloc, &image)]
}

#[test]
fn answers_over_both_memories(rt: HostRuntime) {
    let answer = ended(AnswerKind::Int, 42);
    assert!(&rt; over_both(&rt, rt.alloc()) == [answer, answer]);
}

// What is stored on both sides of the end of a page, and loaded again; other bytes stay zero.
fn stored_around(rt: &impl Abort, alloc: Global) -> [u64; 4] {
    let mut ram = PagedRam::new(alloc, 12_288).expect(rt, "memory");
    ram.store(4_088, Width::B8, 0x0102_0304_0506_0708)
        .expect(rt, "memory");
    ram.store(4_096, Width::B2, 0x090A).expect(rt, "memory");
    [
        ram.load(4_088, Width::B8),
        ram.load(4_096, Width::B8),
        ram.load(0, Width::B8),
        ram.load(12_280, Width::B8),
    ]
}

#[test]
fn keeps_what_is_stored_in_pages(rt: HostRuntime) {
    assert!(&rt; stored_around(&rt, rt.alloc()) == [0x0102_0304_0506_0708, 0x090A, 0, 0]);
}

// addi x5, x0, 1250; addi x17, x0, 1; addi x10, x0, 1000; and in a loop ecall; addi x5, x5, -1; bne x5, x0, -8; behind
// it addi x17, x0, 0; addi x10, x0, 2; addi x11, x0, 0; ecall
const PRINTS: [u32; 10] = [
    0x4e20_0293,
    0x0010_0893,
    0x3e80_0513,
    0x0000_0073,
    0xfff2_8293,
    0xfe02_9ce3,
    0x0000_0893,
    0x0020_0513,
    0x0000_0593,
    0x0000_0073,
];

// A machine that prints.
fn printer(rt: &impl Abort, alloc: Global) -> Machine<PagedRam>
    ensures { (state_of ⟦<PagedRam as Ram>⟧.memory result).world.output ≡ [] }
{
    let image = image_of(rt, alloc, &PRINTS, &[]);
    paged_machine(rt, alloc, &image)
}

// A sink whose puts of these numbers fail.
fn sink(rt: &impl Abort, alloc: Global, failing: &[u64]) -> MemSink {
    let calls = CallList::from_slice(alloc, failing).expect(rt, "memory");
    MemSink::new(alloc, calls).expect(rt, "memory")
}

// How many bytes a sink has, and how many a machine keeps.
fn lengths(out: &MemSink, machine: &Machine<PagedRam>) -> [usize; 2] {
    [out.bytes().len(), machine.world().output.len()]
}

// How a run of a new machine stops that prints 1000 so many times, and the lengths then.
fn run_in_blocks(rt: &impl Abort, alloc: Global, out: &mut MemSink) -> (BlockStop, [usize; 2]) {
    let mut machine = printer(rt, alloc);
    let stop = machine.run_blocks(100_000, out);
    (stop, lengths(out, &machine))
}

// The same with a sink whose puts of these numbers fail.
fn prints_in_blocks(rt: &impl Abort, alloc: Global, failing: &[u64]) -> (BlockStop, [usize; 2]) {
    let mut out = sink(rt, alloc, failing);
    run_in_blocks(rt, alloc, &mut out)
}

#[test]
fn puts_in_blocks(rt: HostRuntime) {
    let done = BlockStop::Stopped(ended(AnswerKind::Unit, 0));
    for (failing, wanted) in [
        (7, (done, [5_000, 0])),
        (0, (BlockStop::SinkFailed, [0, 4_096])),
        (1, (BlockStop::SinkFailed, [4_096, 904])),
    ] {
        assert!(&rt; prints_in_blocks(&rt, rt.alloc(), &[failing]) == wanted);
    }
}

// How a run that has room for its output stops, whether a sink takes that, and the lengths then.
fn run_and_put(
    rt: &impl Abort,
    alloc: Global,
    machine: &mut Machine<PagedRam>,
) -> (Stop, bool, [usize; 2]) {
    machine.reserve_output().expect(rt, "memory");
    let mut out = sink(rt, alloc, &[]);
    let stop = machine.run(9);
    let put = machine.put_output(&mut out).is_ok();
    (stop, put, lengths(&out, machine))
}

// The same of a new machine.
fn put_at_once(rt: &impl Abort, alloc: Global) -> (Stop, bool, [usize; 2]) {
    let mut machine = printer(rt, alloc);
    run_and_put(rt, alloc, &mut machine)
}

#[test]
fn puts_what_was_printed(rt: HostRuntime) {
    assert!(&rt; put_at_once(&rt, rt.alloc()) == (Stop::StepsSpent, true, [8, 0]));
}
