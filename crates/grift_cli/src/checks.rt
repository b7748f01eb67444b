// What `check` puts.

ghost use Rattle.std.specs.Prelude.{◌≡◌, ◌<◌, IfOk, length};
ghost use Rattle.grift_base.specs.Sink.{sink_seen};
ghost use Rattle.insert_steps.specs.Views.{entries_of};
ghost use Rattle.grift_cli.specs.Checking.{checked_text, PutsLines};

use crate::reports::Report;
use front_end::Elaborated;
use grift_base::lists::{OutOfMemory, Text};
use grift_base::sinks::{Sink, SinkFault};
use itoa::Buffer;
use std::alloc::Global;
use type_graph::texts::show_type;

/// Puts the type of a program and the number of its casts, a line each.
pub fn put_lines<O: Sink>(alloc: Global, done: &Elaborated, out: &mut O) -> Report
    requires { done.now.elab.ty.0 < length done.now.types }
    ensures { PutsLines (checked_text done.now.types done.now.elab.ty.0 (entries_of done.now.elab.casts))
        (sink_seen O.written O.fault_count out.old out.new) result }
{
    let Ok(lines) = lines_of(alloc, done) else {
        return Report::NoMemory;
    };
    match out.put(lines.as_slice()) {
        Ok(()) => Report::Checked,
        Err(SinkFault::Failed) => Report::PutFailed,
        Err(SinkFault::OutOfMemory) => Report::NoMemory,
    }
}

// The two lines of a check.
fn lines_of(alloc: Global, done: &Elaborated) -> Result<Text, OutOfMemory>
    requires { done.now.elab.ty.0 < length done.now.types }
    ensures { IfOk result (λ lines.
        lines ≡ checked_text done.now.types done.now.elab.ty.0 (entries_of done.now.elab.casts)) }
{
    let mut lines = Text::from_slice(alloc, b"type ")?;
    lines.extend(show_type(alloc, &done.types, done.elab.ty)?.as_slice())?;
    lines.extend(b"\ncasts ")?;
    lines.extend(Buffer::new().format(done.elab.casts.len()).as_bytes())?;
    lines.extend(b"\n")?;
    Ok(lines)
}
