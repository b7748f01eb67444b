// What `audit` puts.

ghost use Rattle.grift_base.specs.Sink.{sink_seen};
ghost use Rattle.insert_steps.specs.Views.{entries_of};
ghost use Rattle.blame_audit.specs.Claims.{IsElaborated, program_over};
ghost use Rattle.grift_cli.specs.Auditing.{PutsAudit};

use crate::reports::Report;
use blame_audit::texts::audit_text;
use front_end::Elaborated;
use grift_base::sinks::{Sink, SinkFault};
use std::alloc::Global;

/// Puts the places of a program's safe labels, a line each, and how many labels of how many are safe.
pub fn put_audit<O: Sink>(alloc: Global, done: &Elaborated, out: &mut O) -> Report
    requires { IsElaborated done.now.types done.now.elab }
    ensures { PutsAudit (program_over done.now.types done.now.elab) (entries_of done.now.elab.casts)
        (sink_seen O.written O.fault_count out.old out.new) result }
{
    let Ok(lines) = audit_text(alloc, &done.elab, &done.types) else {
        return Report::NoMemory;
    };
    match out.put(lines.as_slice()) {
        Ok(()) => Report::Audited,
        Err(SinkFault::Failed) => Report::PutFailed,
        Err(SinkFault::OutOfMemory) => Report::NoMemory,
    }
}
