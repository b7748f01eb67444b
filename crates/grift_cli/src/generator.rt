// What `gen` puts.

ghost use Rattle.std.specs.Prelude.{◌≡◌, ◌++◌, [], IfOk, IfSome, OnOk, length};
ghost use Rattle.grift_base.specs.Sink.{sink_seen};
ghost use Rattle.insert_steps.specs.Views.{entries_of};
ghost use Rattle.command_words.specs.Commands.{IsFamilyNumber, default_limits};
ghost use Rattle.grift_cli.specs.Generating.{Generates, PutsNumbers, numbers_text};
ghost use Rattle.grift_cli.specs.Running.{RunsWell, TellsRun};
ghost use Rattle.grift_cli.specs.Runs.{run_within, printed};

use crate::reports::{Report, push_number, report_of_source};
use crate::runner::{report_of, run_putting};
use assembler::image::Image;
use command_words::commands::default_limits;
use compile_driver::compiling::{Compiled, compile};
use grift_base::lists::{Bytes, CallList, OutOfMemory, Text};
use grift_base::sinks::{MemSink, Sink};
use grift_gen::program_of;
use std::alloc::Global;

/// Makes the program of a number, compiles it, runs its image without input, and puts how many bytes, forms and casts
/// it has and how many bytes the run printed, a line each.
pub fn generate<O: Sink>(alloc: Global, number: u32, out: &mut O) -> Report
    requires { IsFamilyNumber number }
    ensures { Generates number (sink_seen O.written O.fault_count out.old out.new) result }
{
    let Ok(text) = program_of(alloc, number) else {
        return Report::NoMemory;
    };
    match compile(alloc, text.as_slice()) {
        Ok(compiled) => put_numbers(alloc, text.len(), &compiled, out),
        Err(fault) => report_of_source(fault),
    }
}

// Runs the image of a program without input, and puts its numbers and how many bytes the run printed.
fn put_numbers<O: Sink>(alloc: Global, source: u64, compiled: &Compiled, out: &mut O) -> Report
    requires { RunsWell default_limits compiled.now.image [] }
    ensures { PutsNumbers compiled.now.image
        (numbers_text source compiled.now.forms (length (entries_of compiled.now.elab.casts)))
        (sink_seen O.written O.fault_count out.old out.new) result }
{
    let Some((report, output)) = run_alone(alloc, &compiled.image) else {
        return Report::NoMemory;
    };
    let casts = compiled.elab.casts.len();
    let Ok(lines) = lines_of(alloc, source, compiled.forms, casts, output) else {
        return Report::NoMemory;
    };
    match out.put(lines.as_slice()) {
        Ok(()) => report,
        Err(fault) => report_of(fault),
    }
}

// How the run of an image without input is reported, and how many bytes it printed, which go to a sink of their own;
// none for want of memory.
fn run_alone(alloc: Global, image: &Image) -> Option<(Report, u64)>
    ensures told { IfSome result (λ run. TellsRun (run_within default_limits image.now []).1 run.0) }
    ensures output { IfSome result (λ run. run.1 ≡ length (printed default_limits image.now [])) }
{
    let Ok(mut sink) = MemSink::new(alloc, CallList::new(alloc)) else {
        return None;
    };
    let input = Bytes::new(alloc);
    match run_putting(alloc, image, default_limits(), input, &mut sink) {
        Ok((report, _)) => Some((report, sink.bytes().len() as u64)),
        Err(_) => None,
    }
}

// The lines of these numbers.
fn lines_of(
    alloc: Global,
    source: u64,
    forms: u32,
    casts: u64,
    output: u64,
) -> Result<Text, OutOfMemory>
    ensures { IfOk result (λ lines. lines ≡ numbers_text source forms casts output) }
{
    let mut lines = Text::new(alloc);
    push_number(&mut lines, b"source ", source)?;
    push_number(&mut lines, b"forms ", u64::from(forms))?;
    push_number(&mut lines, b"casts ", casts)?;
    push_number(&mut lines, b"output ", output)?;
    Ok(lines)
}
