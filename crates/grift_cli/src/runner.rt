// The run of an image.

ghost use Rattle.std.specs.Prelude.{◌≡◌, ℕ, List, Option, IfOk, IfErr, IfSome};
ghost use Rattle.rv_machine.specs.Start.{IsRegionSize, IsStackSize, fresh_world, start_of};
ghost use Rattle.rv_emulator.specs.Processor.{state_of};
ghost use Rattle.rv_emulator.specs.Turns.{outcome_of};
ghost use Rattle.rv_emulator.specs.Blocks.{with_output};
ghost use Rattle.grift_base.specs.Sink.{Takes, sink_seen};
ghost use Rattle.grift_cli.specs.Runs.{run_within, printed};
ghost use Rattle.grift_cli.specs.Running.{RunsWell, TellsRun, TellsStop, PutsAll, sink_report};
ghost use Rattle.grift_cli.specs.Running.{StopsShort, Executes, Runs};

use crate::reports::Report;
use assembler::image::Image;
use command_words::commands::Limits;
use grift_base::lists::{Bytes, OutOfMemory};
use grift_base::sinks::{Sink, SinkFault};
use grift_base::verdicts::Verdict;
use grift_base::worlds::World;
use machine_words::faults::MachineFault;
use rv_emulator::machine::Machine;
use rv_emulator::paged::PagedRam;
use rv_emulator::ram::Ram;
use rv_emulator::stops::{BlockStop, Stop};
use std::alloc::Global;

/// Puts an image that never goes wrong, runs it within the limits on this input, and puts what it prints as it goes.
pub fn run_image<O: Sink, I: Sink>(
    alloc: Global,
    image: &Image,
    limits: Limits,
    input: Bytes,
    out: &mut O,
    img: &mut I,
) -> Report
    requires region { IsRegionSize limits.region }
    requires stack { IsStackSize limits.stack }
    requires well { RunsWell limits image.now input }
    ensures { Runs limits image.now input
        (sink_seen O.written O.fault_count out.old out.new)
        (sink_seen I.written I.fault_count img.old img.new)
        result }
{
    match put_all(img, image.bytes()) {
        Ok(()) => exec_image(alloc, image, limits, input, out),
        Err(fault) => report_of(fault),
    }
}

/// Runs an image within the limits on this input, and puts what it prints as it goes.
#[tactic(auto, using(crate::proofs::Putting::executes_told, crate::proofs::Putting::executes_short))]
pub fn exec_image<O: Sink>(
    alloc: Global,
    image: &Image,
    limits: Limits,
    input: Bytes,
    out: &mut O,
) -> Report
    requires region { IsRegionSize limits.region }
    requires stack { IsStackSize limits.stack }
    ensures { Executes limits image.now input (sink_seen O.written O.fault_count out.old out.new) result }
{
    match run_putting(alloc, image, limits, input, out) {
        Ok((report, _)) => report,
        Err(report) => report,
    }
}

/// How the run of an image is reported whose output is put as it goes, and the machine as it stopped; or, where not all
/// of that was put, what is reported in place of it.
pub fn run_putting<O: Sink>(
    alloc: Global,
    image: &Image,
    limits: Limits,
    input: Bytes,
    out: &mut O,
) -> Result<(Report, Machine<PagedRam>), Report>
    requires region { IsRegionSize limits.region }
    requires stack { IsStackSize limits.stack }
    ensures told { IfOk result (λ run. TellsRun (run_within limits image.now input).1 run.0) }
    ensures stopped { IfOk result (λ run. (run_within limits image.now input).0
        ≡ with_output (printed limits image.now input) (state_of ⟦<PagedRam as Ram>⟧.memory run.1)) }
    ensures put { IfOk result (λ _.
        Takes (printed limits image.now input) (sink_seen O.written O.fault_count out.old out.new)) }
    ensures short { IfErr result (λ report.
        StopsShort limits image.now input (sink_seen O.written O.fault_count out.old out.new) report) }
{
    let Ok(mut machine) = machine_of(alloc, image, limits, input) else {
        return Err(Report::NoMemory);
    };
    let BlockStop::Stopped(stop) = machine.run_blocks(limits.steps, out) else {
        return Err(Report::PutFailed);
    };
    match report_of_stop(stop) {
        Some(report) => Ok((report, machine)),
        None => Err(Report::NoMemory),
    }
}

/// Puts these bytes, if there are any.
pub fn put_all<S: Sink>(sink: &mut S, bytes: &[u8]) -> Result<(), SinkFault>
    ensures { PutsAll bytes.now result (sink_seen S.written S.fault_count sink.old sink.new) }
{
    if bytes.is_empty() {
        return Ok(());
    }
    sink.put(bytes)
}

/// What a fault of a sink is reported as.
pub fn report_of(fault: SinkFault) -> Report
    ensures { result ≡ sink_report fault }
{
    match fault {
        SinkFault::Failed => Report::PutFailed,
        SinkFault::OutOfMemory => Report::NoMemory,
    }
}

// The machine in its start state, with these limits and this input.
fn machine_of(
    alloc: Global,
    image: &Image,
    limits: Limits,
    input: Bytes,
) -> Result<Machine<PagedRam>, OutOfMemory>
    requires region { IsRegionSize limits.region }
    requires stack { IsStackSize limits.stack }
    ensures { IfOk result (λ machine.
        state_of ⟦<PagedRam as Ram>⟧.memory machine
        ≡ start_of image.now limits.region limits.stack (fresh_world input)) }
{
    let size = image.loaded().len() as u64 + limits.region + limits.stack;
    let ram = PagedRam::new(alloc, size)?;
    let world = World::new(alloc, input);
    let machine = Machine::load(alloc, image, ram, limits.region, limits.stack, world)?;
    Ok(machine)
}

// The report of a stop; none for want of memory.
fn report_of_stop(stop: Stop) -> Option<Report>
    ensures { TellsStop (outcome_of stop) result }
{
    match stop {
        Stop::Ended(answer) => Some(Report::HasVerdict(Verdict::Answer(answer))),
        Stop::Blamed(label) => Some(Report::HasVerdict(Verdict::Blame(label))),
        Stop::Trapped(trap) => Some(Report::HasVerdict(Verdict::Trap(trap))),
        Stop::RegionOut => Some(Report::HasVerdict(Verdict::RegionOut)),
        Stop::StackOut => Some(Report::HasVerdict(Verdict::StackOut)),
        Stop::StepsSpent => Some(Report::HasVerdict(Verdict::StepsSpent)),
        Stop::Undefined(pc) => Some(Report::HasFault(MachineFault::Undefined(pc))),
        Stop::BadAddress(pc) => Some(Report::HasFault(MachineFault::BadAddress(pc))),
        Stop::Misaligned(pc) => Some(Report::HasFault(MachineFault::Misaligned(pc))),
        Stop::OutOfMemory => None,
    }
}
