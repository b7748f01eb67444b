// What first-order programs come to on the emulator.

ghost use Rattle.std.specs.Prelude.{IsTrue};
ghost use Rattle.rv_machine.specs.Start.{IsRegionSize, IsStackSize};
ghost use Rattle.low_ir.specs.Closed.{is_closed};
ghost use Rattle.low_ir.specs.Views.{procs_of};

use flat_ir::programs::FlatProgram;
use grift_base::lists::Bytes;
use grift_base::places::LabelTable;
use grift_base::verdicts::{Answer, AnswerKind};
use grift_base::words::{Statics, WordList};
use grift_base::worlds::World;
use low_ir::code::{LowCode, LowSource};
use low_ir::programs::{LowProc, LowProcs, LowProgram};
use lowered_code::lowering::lowered;
use lowered_code::served::{CastWay, CastWays, Served, Tag};
use reg_assign::images::image_of;
use rv_emulator::flat::FlatRam;
use rv_emulator::machine::Machine;
use rv_emulator::stops::Stop;
use std::alloc::Global;
use std::process::Abort;
use type_graph::rows::Row;

// The number of the first procedure that serves, for programs of two procedures.
const FIRST: u32 = 3;

// The words that each procedure that serves takes.
const TAKEN: [u32; 8] = [2, 4, 8, 3, 4, 2, 2, 3];

// The ways of casts 0 to 4.
const WAYS: [CastWay; 5] = [
    CastWay::IntoDyn(Tag::Int),
    CastWay::OutOfDyn(Tag::Int),
    CastWay::IntoDyn(Tag::Bool),
    CastWay::OutOfDyn(Tag::Bool),
    CastWay::IntoDyn(Tag::Unit),
];

// The procedures that serve, of which these programs call that of casts alone.
fn served(rt: &impl Abort, alloc: Global) -> Served {
    Served {
        cast: FIRST,
        project: FIRST + 1,
        apply: FIRST + 2,
        read: FIRST + 3,
        write: FIRST + 4,
        fill: FIRST + 5,
        multiply: FIRST + 6,
        divide: FIRST + 7,
        cast_at: WordList::new(alloc),
        ways: CastWays::from_slice(alloc, &WAYS).expect(rt, "memory"),
    }
}

// The procedures over words of a program of two procedures, with those that serve behind them, which answer 0.
fn low_procs(rt: &impl Abort, alloc: Global, flat: &FlatProgram, answer: &Row) -> LowProcs {
    let made = lowered(alloc, &served(rt, alloc), flat, answer);
    let mut procs = made.expect(rt, "memory");
    for params in TAKEN {
        let pushed = procs.push(LowProc {
            params,
            words: params,
            code: LowCode::Return(LowSource::Number(0)),
        });
        pushed.expect(rt, "memory");
    }
    procs
}

// The program with these procedures.
fn low_program(rt: &impl Abort, alloc: Global, flat: &FlatProgram, answer: &Row) -> LowProgram {
    LowProgram {
        procs: low_procs(rt, alloc, flat, answer),
        entry: 2,
        statics: Statics::new(alloc),
    }
}

// The machine of the image of a closed program over words at its start, in a region and a stack of these sizes.
fn machine_of(
    rt: &impl Abort,
    alloc: Global,
    low: &LowProgram,
    labels: &LabelTable,
    region: u64,
    stack: u64,
) -> Machine<FlatRam>
    requires closed { IsTrue (is_closed (procs_of low.now.procs) low.now.entry) }
    requires region { IsRegionSize region }
    requires stack { IsStackSize stack }
{
    let image = image_of(alloc, low, labels).expect(rt, "memory");
    let size = image.loaded().len() as u64 + region + stack;
    let ram = FlatRam::new(alloc, size).expect(rt, "memory");
    let world = World::new(alloc, Bytes::new(alloc));
    Machine::load(alloc, &image, ram, region, stack, world).expect(rt, "memory")
}

// What the image of a closed program over words comes to in a region and a stack of these sizes.
pub(crate) fn runs(
    rt: &impl Abort,
    alloc: Global,
    low: &LowProgram,
    labels: &LabelTable,
    region: u64,
    stack: u64,
) -> Stop
    requires closed { IsTrue (is_closed (procs_of low.now.procs) low.now.entry) }
    requires region { IsRegionSize region }
    requires stack { IsStackSize stack }
{
    let mut machine = machine_of(rt, alloc, low, labels, region, stack);
    machine.run(1_000_000_000)
}

// What a program of two procedures comes to in a region and a stack of these sizes.
fn stop_of(
    rt: &impl Abort,
    alloc: Global,
    flat: &FlatProgram,
    answer: &Row,
    region: u64,
    stack: u64,
) -> Stop
    requires region { IsRegionSize region }
    requires stack { IsStackSize stack }
{
    assert!(rt; flat.is_closed());
    let low = low_program(rt, alloc, flat, answer);
    assert!(rt; low.is_closed());
    runs(rt, alloc, &low, &LabelTable::new(alloc), region, stack)
}

// The same of a program that nothing else needs.
pub(crate) fn comes_to(
    rt: &impl Abort,
    alloc: Global,
    flat: FlatProgram,
    answer: &Row,
    region: u64,
    stack: u64,
) -> Stop
    requires region { IsRegionSize region }
    requires stack { IsStackSize stack }
{
    stop_of(rt, alloc, &flat, answer, region, stack)
}

// The answer of a kind with this word.
pub(crate) fn answer(kind: AnswerKind, word: i64) -> Stop {
    Stop::Ended(Answer { kind, word })
}
