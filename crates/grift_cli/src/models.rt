// The run of the calculus itself.

ghost use Rattle.std.specs.Prelude.{◌≡◌, IfSome, Some, option_map, slice_get};
ghost use Rattle.grift_base.specs.Sink.{sink_seen};
ghost use Rattle.core_calc.specs.Calculus.{blame_at, calc, ending_of};
ghost use Rattle.core_calc.specs.States.{end_of};
ghost use Rattle.blame_audit.specs.Claims.{program_over};
ghost use Rattle.grift_cli.specs.Modelling.{Models, calculus_verdict};

use crate::reports::Report;
use crate::runner::{put_all, report_of};
use calc_stepper::runs::{run, start};
use core_calc::ends::Stepped;
use core_calc::states::CalcState;
use front_end::Elaborated;
use grift_base::lists::Bytes;
use grift_base::places::{LabelId, LabelTable};
use grift_base::sinks::Sink;
use grift_base::verdicts::Verdict;
use std::alloc::Global;

/// Runs a program by the calculus, cast by cast, for so many steps at most on this input, and puts what it prints.
pub fn run_model<O: Sink>(
    alloc: Global,
    done: &Elaborated,
    steps: u64,
    input: Bytes,
    out: &mut O,
) -> Report
    ensures { Models (program_over done.now.types done.now.elab) steps input
        (sink_seen O.written O.fault_count out.old out.new) result }
{
    match model_of(alloc, done, steps, input) {
        None => Report::NoMemory,
        Some((verdict, state)) => match put_all(out, state.world.output.as_slice()) {
            Ok(()) => Report::HasVerdict(verdict),
            Err(fault) => report_of(fault),
        },
    }
}

// The verdict of the calculus within so many steps, and its state then; none for want of memory.
fn model_of(
    alloc: Global,
    done: &Elaborated,
    steps: u64,
    input: Bytes,
) -> Option<(Verdict, CalcState)>
    ensures verdict { IfSome result (λ run. calculus_verdict
        (calc (program_over done.now.types done.now.elab) input steps).ending ≡ Some run.0) }
    ensures printed { IfSome result (λ run.
        run.1.world.output ≡ (calc (program_over done.now.types done.now.elab) input steps).output) }
{
    let Ok(mut state) = start(alloc, &done.elab.core, input) else {
        return None;
    };
    if run(alloc, &mut state, &done.types, steps).is_err() {
        return None;
    }
    let verdict = verdict_of(&done.elab.labels, state.ended)?;
    Some((verdict, state))
}

// The verdict of a run that has ended so, or not; none where it went wrong, which no run of a typed program does.
fn verdict_of(labels: &LabelTable, ended: Option<Stepped>) -> Option<Verdict>
    ensures { result ≡ calculus_verdict (option_map (ending_of labels.now) (option_map end_of ended)) }
{
    match ended {
        None => Some(Verdict::StepsSpent),
        Some(Stepped::Answer(answer)) => Some(Verdict::Answer(answer)),
        Some(Stepped::Blame(label)) => blamed(labels, label),
        Some(Stepped::Trap(trap)) => Some(Verdict::Trap(trap)),
        Some(Stepped::More) => None,
    }
}

// The verdict of the blame of a label, if it has a place.
fn blamed(labels: &LabelTable, label: LabelId) -> Option<Verdict>
    ensures { result ≡ calculus_verdict (Some (blame_at (slice_get labels.now label.0))) }
{
    let place = labels.get(u64::from(label.0)).copied()?;
    Some(Verdict::Blame(place))
}
