// What is told of a source that is elaborated.

ghost use Rattle.std.specs.Prelude.{◌<◌, length};
ghost use Rattle.grift_base.specs.Sink.{sink_seen};
ghost use Rattle.insert_steps.specs.Views.{entries_of};
ghost use Rattle.blame_audit.specs.Claims.{IsElaborated};
ghost use Rattle.listing.specs.CastLines.{EntriesFit};
ghost use Rattle.grift_cli.specs.Aspects.{PutsAspect};

use crate::audits::put_audit;
use crate::checks::put_lines;
use crate::listings::put_casts;
use crate::reports::Report;
use front_end::Elaborated;
use grift_base::sinks::Sink;
use std::alloc::Global;

/// What is told of a source that is elaborated.
#[derive(Clone, Copy)]
pub enum Aspect {
    /// Its type, and the number of its casts.
    Summary,
    /// Its labels that no run blames.
    SafeLabels,
    /// Its casts, with their coercions.
    Coercions,
}

/// Puts an aspect of a source.
pub fn put_aspect<O: Sink>(alloc: Global, aspect: Aspect, done: &Elaborated, out: &mut O) -> Report
    requires typed { done.now.elab.ty.0 < length done.now.types }
    requires elaborated { IsElaborated done.now.types done.now.elab }
    requires fit { EntriesFit done.now.types done.now.elab.labels (entries_of done.now.elab.casts) }
    ensures { PutsAspect aspect done.now.types done.now.elab
        (sink_seen O.written O.fault_count out.old out.new) result }
{
    match aspect {
        Aspect::Summary => put_lines(alloc, done, out),
        Aspect::SafeLabels => put_audit(alloc, done, out),
        Aspect::Coercions => put_casts(alloc, done, out),
    }
}
