// The top call: all that the program does.

ghost use Rattle.std.specs.Prelude.{◌≡◌, ℕ, List, Option, map, string_bytes};
ghost use Rattle.grift_base.specs.Shelf.{shelf_seen};
ghost use Rattle.grift_base.specs.Sink.{SinkSeen, Untouched, sink_seen};
ghost use Rattle.rv_machine.specs.Start.{IsRegionSize, IsStackSize};
ghost use Rattle.grift_cli.specs.Aspects.{command_about};
ghost use Rattle.command_words.specs.Commands.{IsRun, IsExec, IsModel, IsCommand};
ghost use Rattle.grift_cli.specs.Listing.{command_by};
ghost use Rattle.grift_cli.specs.Outcome.{Says};
ghost use Rattle.command_words.specs.ReadCommands.{name_bytes};
ghost use Rattle.grift_cli.specs.Reporting.{PutsLine, PutsReport, IsAnswered, report_line, report_status};

use crate::aspects::{Aspect, put_aspect};
use crate::generator::generate;
use crate::listings::{View, put_view};
use crate::loads::{Loaded, load_files};
use crate::models::run_model;
use crate::reports::{
    Report, line_of, report_of_image, report_of_load, report_of_source, status_of, status_of_fault,
};
use crate::runner::{exec_image, run_image};
use crate::spaces::run_in_space;
use assembler::image::read_image;
use command_words::commands::{Command, Limits, read_words};
use compile_driver::compiling::compile;
use front_end::elaborate_text;
use grift_base::shelves::Shelf;
use grift_base::sinks::Sink;
use grift_base::sizes::{IMAGE_LIMIT, SOURCE_LIMIT};
use std::alloc::Global;

/// Does all that the program does, and answers its status.
pub fn grift<S: Shelf, O: Sink, E: Sink, I: Sink>(
    alloc: Global,
    words: &[String],
    shelf: &mut S,
    out: &mut O,
    err: &mut E,
    img: &mut I,
) -> u8
    ensures { IsAnswered (record {
      words = map string_bytes words.now;
      shelf = shelf_seen S.holds S.asked S.fault_count shelf.old shelf.new;
      out = sink_seen O.written O.fault_count out.old out.new;
      img = sink_seen I.written I.fault_count img.old img.new;
    }) (sink_seen E.written E.fault_count err.old err.new) result }
{
    let report = report_of_call(alloc, words, shelf, out, img);
    put_report(alloc, err, report)
}

// The report of a call, which is all but the put of its line.
fn report_of_call<S: Shelf, O: Sink, I: Sink>(
    alloc: Global,
    words: &[String],
    shelf: &mut S,
    out: &mut O,
    img: &mut I,
) -> Report
    ensures { Says result (record {
      words = map string_bytes words.now;
      shelf = shelf_seen S.holds S.asked S.fault_count shelf.old shelf.new;
      out = sink_seen O.written O.fault_count out.old out.new;
      img = sink_seen I.written I.fault_count img.old img.new;
    }) }
{
    let Some(command) = read_words(words) else {
        return Report::WordsRefused;
    };
    match command {
        Command::Run {
            file,
            region,
            stack,
            steps,
            input,
            space,
            ..
        } => {
            let limits = Limits {
                region,
                stack,
                steps,
            };
            report_of_run(alloc, file, input, space, limits, shelf, out, img)
        }
        Command::Exec {
            file,
            region,
            stack,
            steps,
            input,
        } => {
            let limits = Limits {
                region,
                stack,
                steps,
            };
            report_of_exec(alloc, file, input, limits, shelf, out)
        }
        Command::Check { file } => report_of_aspect(alloc, Aspect::Summary, file, shelf, out),
        Command::Audit { file } => report_of_aspect(alloc, Aspect::SafeLabels, file, shelf, out),
        Command::Casts { file } => report_of_aspect(alloc, Aspect::Coercions, file, shelf, out),
        Command::Code { file } => report_of_view(alloc, View::Listing, file, shelf, out),
        Command::ImageOf { file } => report_of_view(alloc, View::Bytes, file, shelf, out),
        Command::Model { file, steps, input } => {
            report_of_model(alloc, file, input, steps, shelf, out)
        }
        Command::Gen { number } => generate(alloc, number, out),
    }
}

// The report of a call that compiles the source in this file and runs its image on this file of input.
fn report_of_run<S: Shelf, O: Sink, I: Sink>(
    alloc: Global,
    file: &str,
    input: Option<&str>,
    space: bool,
    limits: Limits,
    shelf: &mut S,
    out: &mut O,
    img: &mut I,
) -> Report
    requires region { IsRegionSize limits.region }
    requires stack { IsStackSize limits.stack }
    ensures { (words : List (List ℕ)) (name : Option (List ℕ))
        → IsRun words file.now limits (name_bytes input.entry) space name → Says result (record {
          words = words;
          shelf = shelf_seen S.holds S.asked S.fault_count shelf.old shelf.new;
          out = sink_seen O.written O.fault_count out.old out.new;
          img = sink_seen I.written I.fault_count img.old img.new;
        }) }
{
    let Loaded { bytes, input } = match load_files(alloc, shelf, file, SOURCE_LIMIT, input) {
        Ok(loaded) => loaded,
        Err(fault) => return report_of_load(fault),
    };
    match compile(alloc, bytes.as_slice()) {
        Err(fault) => report_of_source(fault),
        Ok(compiled) => {
            if space {
                run_in_space(alloc, &compiled, limits, input, out, img)
            } else {
                run_image(alloc, &compiled.image, limits, input, out, img)
            }
        }
    }
}

// The report of a call that runs the image in this file on this file of input.
fn report_of_exec<S: Shelf, O: Sink>(
    alloc: Global,
    file: &str,
    input: Option<&str>,
    limits: Limits,
    shelf: &mut S,
    out: &mut O,
) -> Report
    requires region { IsRegionSize limits.region }
    requires stack { IsStackSize limits.stack }
    ensures { (words : List (List ℕ)) (img : SinkSeen) → IsExec words file.now limits (name_bytes input.entry)
        → Untouched img → Says result (record {
          words = words;
          shelf = shelf_seen S.holds S.asked S.fault_count shelf.old shelf.new;
          out = sink_seen O.written O.fault_count out.old out.new;
          img = img;
        }) }
{
    let Loaded { bytes, input } = match load_files(alloc, shelf, file, IMAGE_LIMIT, input) {
        Ok(loaded) => loaded,
        Err(fault) => return report_of_load(fault),
    };
    match read_image(alloc, bytes.as_slice()) {
        Ok(image) => exec_image(alloc, &image, limits, input, out),
        Err(fault) => report_of_image(fault),
    }
}

// The report of a call that elaborates the source in this file and puts one aspect of it.
fn report_of_aspect<S: Shelf, O: Sink>(
    alloc: Global,
    aspect: Aspect,
    file: &str,
    shelf: &mut S,
    out: &mut O,
) -> Report
    ensures { (words : List (List ℕ)) (img : SinkSeen) → IsCommand words (command_about aspect file.now)
        → Untouched img
        → Says result (record {
          words = words;
          shelf = shelf_seen S.holds S.asked S.fault_count shelf.old shelf.new;
          out = sink_seen O.written O.fault_count out.old out.new;
          img = img;
        }) }
{
    let loaded = match load_files(alloc, shelf, file, SOURCE_LIMIT, None) {
        Ok(loaded) => loaded,
        Err(fault) => return report_of_load(fault),
    };
    match elaborate_text(alloc, loaded.bytes.as_slice()) {
        Ok(done) => put_aspect(alloc, aspect, &done, out),
        Err(fault) => report_of_source(fault),
    }
}

// The report of a call that compiles the source in this file and puts what the view shows of its image.
fn report_of_view<S: Shelf, O: Sink>(
    alloc: Global,
    view: View,
    file: &str,
    shelf: &mut S,
    out: &mut O,
) -> Report
    ensures { (words : List (List ℕ)) (img : SinkSeen) → IsCommand words (command_by view file.now) → Untouched img
        → Says result (record {
          words = words;
          shelf = shelf_seen S.holds S.asked S.fault_count shelf.old shelf.new;
          out = sink_seen O.written O.fault_count out.old out.new;
          img = img;
        }) }
{
    let loaded = match load_files(alloc, shelf, file, SOURCE_LIMIT, None) {
        Ok(loaded) => loaded,
        Err(fault) => return report_of_load(fault),
    };
    match compile(alloc, loaded.bytes.as_slice()) {
        Ok(compiled) => put_view(alloc, view, &compiled.image, out),
        Err(fault) => report_of_source(fault),
    }
}

// The report of a call that runs the calculus of the source in this file, on this file of input.
fn report_of_model<S: Shelf, O: Sink>(
    alloc: Global,
    file: &str,
    input: Option<&str>,
    steps: u64,
    shelf: &mut S,
    out: &mut O,
) -> Report
    ensures { (words : List (List ℕ)) (img : SinkSeen) → IsModel words file.now steps (name_bytes input.entry)
        → Untouched img
        → Says result (record {
          words = words;
          shelf = shelf_seen S.holds S.asked S.fault_count shelf.old shelf.new;
          out = sink_seen O.written O.fault_count out.old out.new;
          img = img;
        }) }
{
    let Loaded { bytes, input } = match load_files(alloc, shelf, file, SOURCE_LIMIT, input) {
        Ok(loaded) => loaded,
        Err(fault) => return report_of_load(fault),
    };
    match elaborate_text(alloc, bytes.as_slice()) {
        Ok(done) => run_model(alloc, &done, steps, input, out),
        Err(fault) => report_of_source(fault),
    }
}

// Puts the line of a report, if it has one, and answers the status.
fn put_report<E: Sink>(alloc: Global, err: &mut E, report: Report) -> u8
    ensures { PutsReport report (sink_seen E.written E.fault_count err.old err.new) result }
{
    if matches!(report, Report::Checked | Report::Audited | Report::Shown) {
        return 0;
    }
    match line_of(alloc, report) {
        Ok(line) => put_line(err, line.as_slice(), status_of(report)),
        Err(_) => put_want_of_memory(err),
    }
}

/// Puts the line of want of memory, and answers the status.
pub fn put_want_of_memory<E: Sink>(err: &mut E) -> u8
    ensures { PutsLine (report_line Report.NoMemory) (report_status Report.NoMemory)
        (sink_seen E.written E.fault_count err.old err.new) result }
{
    put_line(err, b"out of memory\n", 10)
}

// Puts a line, and answers this status, or that of a sink that failed or found no memory.
fn put_line<E: Sink>(err: &mut E, line: &[u8], status: u8) -> u8
    ensures { PutsLine line.now status (sink_seen E.written E.fault_count err.old err.new) result }
{
    match err.put(line) {
        Ok(()) => status,
        Err(fault) => status_of_fault(fault),
    }
}
