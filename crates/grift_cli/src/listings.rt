// What `casts`, `code` and `image` put.

ghost use Rattle.std.specs.Prelude.{◌≡◌, IfOk};
ghost use Rattle.grift_base.specs.Sink.{sink_seen};
ghost use Rattle.insert_steps.specs.Views.{entries_of};
ghost use Rattle.listing.specs.CastLines.{EntriesFit, cast_listing};
ghost use Rattle.grift_cli.specs.Listing.{PutsShown, seen_by};

use crate::reports::Report;
use crate::runner::{put_all, report_of};
use assembler::image::Image;
use front_end::Elaborated;
use grift_base::sinks::Sink;
use listing::casts::casts_text;
use listing::code::code_text;
use std::alloc::Global;

/// What is put of an image.
#[derive(Clone, Copy, PartialEq, Eq)]
pub enum View {
    /// Its code, a line for each instruction.
    Listing,
    /// Its bytes.
    Bytes,
}

/// Puts the casts of a program, a line each.
pub fn put_casts<O: Sink>(alloc: Global, done: &Elaborated, out: &mut O) -> Report
    requires { EntriesFit done.now.types done.now.elab.labels (entries_of done.now.elab.casts) }
    ensures { PutsShown (cast_listing done.now.types done.now.elab.labels (entries_of done.now.elab.casts))
        (sink_seen O.written O.fault_count out.old out.new) result }
{
    match casts_text(alloc, &done.elab, &done.types) {
        Ok(lines) => put_shown(out, lines.as_slice()),
        Err(_) => Report::NoMemory,
    }
}

/// Puts what the view shows of an image.
pub fn put_view<O: Sink>(alloc: Global, view: View, image: &Image, out: &mut O) -> Report
    ensures { PutsShown (seen_by view image.now) (sink_seen O.written O.fault_count out.old out.new) result }
{
    match view {
        View::Listing => put_code(alloc, image, out),
        View::Bytes => put_shown(out, image.bytes()),
    }
}

// Puts the code of an image, a line for each instruction.
fn put_code<O: Sink>(alloc: Global, image: &Image, out: &mut O) -> Report
    ensures { PutsShown (seen_by View.Listing image.now) (sink_seen O.written O.fault_count out.old out.new) result }
{
    match code_text(alloc, image) {
        Ok(lines) => put_shown(out, lines.as_slice()),
        Err(_) => Report::NoMemory,
    }
}

// Puts these bytes, if there are any.
fn put_shown<O: Sink>(out: &mut O, bytes: &[u8]) -> Report
    ensures { PutsShown bytes.now (sink_seen O.written O.fault_count out.old out.new) result }
{
    match put_all(out, bytes) {
        Ok(()) => Report::Shown,
        Err(fault) => report_of(fault),
    }
}
