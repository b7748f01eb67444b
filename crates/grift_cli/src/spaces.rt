// The run of an image with a report of its storage.

ghost use Rattle.std.specs.Prelude.{◌≡◌, ◌+◌, ℕ, List};
ghost use Rattle.rv_machine.specs.Start.{IsRegionSize, IsStackSize, layout_of};
ghost use Rattle.rv_emulator.specs.Processor.{state_of};
ghost use Rattle.grift_base.specs.Sink.{sink_seen};
ghost use Rattle.object_layout.specs.Reports.{IsReported};
ghost use Rattle.compile_driver.specs.Space.{KeepsSpace, told_by};
ghost use Rattle.grift_cli.specs.Running.{RunsWell, RunsInSpace};
ghost use Rattle.grift_cli.specs.Spaces.{IsFilled, in_space};

use crate::reports::{Report, Space};
use crate::runner::{put_all, report_of, run_putting};
use assembler::image::Image;
use command_words::commands::Limits;
use compile_driver::compiling::Compiled;
use grift_base::lists::Bytes;
use grift_base::sinks::Sink;
use machine_words::FIRST_ADDRESS;
use object_layout::walks::{SpaceReport, walk};
use rv_emulator::machine::Machine;
use rv_emulator::paged::PagedRam;
use rv_emulator::ram::Ram;
use rv_isa::number::Reg;
use std::alloc::Global;

/// Puts the image of a source, which never goes wrong and keeps its storage whole, runs it within the limits on this
/// input, puts what it prints as it goes, and tells beside the verdict how its region is filled as the machine stops.
pub fn run_in_space<O: Sink, I: Sink>(
    alloc: Global,
    compiled: &Compiled,
    limits: Limits,
    input: Bytes,
    out: &mut O,
    img: &mut I,
) -> Report
    requires region { IsRegionSize limits.region }
    requires stack { IsStackSize limits.stack }
    requires well { RunsWell limits compiled.now.image input }
    requires keeps { KeepsSpace compiled.now.image compiled.now.types compiled.now.tallest }
    ensures { RunsInSpace limits compiled.now.image input compiled.now.tallest
        (sink_seen O.written O.fault_count out.old out.new)
        (sink_seen I.written I.fault_count img.old img.new)
        result }
{
    let image = &compiled.image;
    if let Err(fault) = put_all(img, image.bytes()) {
        return report_of(fault);
    }
    let (report, machine) = match run_putting(alloc, image, limits, input, out) {
        Ok(run) => run,
        Err(report) => return report,
    };
    let space = Space {
        report: walked(&machine, region_start(image, limits)),
        tallest: compiled.tallest,
    };
    in_space(report, space)
}

// The address at which the region of an image begins.
fn region_start(image: &Image, limits: Limits) -> u64
    ensures { result ≡ (layout_of image.now limits.region limits.stack).region }
{
    FIRST_ADDRESS + image.loaded().len() as u64
}

// The report of a region that whole objects fill from its start to x26.
fn walked(machine: &Machine<PagedRam>, from: u64) -> SpaceReport
    requires { IsFilled (state_of ⟦<PagedRam as Ram>⟧.memory machine.now) from }
    ensures { IsReported (told_by (state_of ⟦<PagedRam as Ram>⟧.memory machine.now)) from
        ((state_of ⟦<PagedRam as Ram>⟧.memory machine.now).regs 26) result }
{
    match walk(machine, from, machine.reg(Reg::new(26))) {
        Ok(report) => report,
        Err(_) => unreachable!(),
    }
}

// A verdict's report with what is told of storage.
fn in_space(report: Report, space: Space) -> Report
    ensures { result ≡ in_space report space }
{
    match report {
        Report::HasVerdict(verdict) => Report::HasSpace(verdict, space),
        _ => report,
    }
}
