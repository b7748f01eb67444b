// The audit: which labels of a program are safe.

ghost use Rattle.std.specs.Prelude.{◌≡◌, ◌<◌, ◌↔◌, ℕ, true, Contains, IfOk, OnOk, length, replicate};
ghost use Rattle.insert_steps.specs.Views.{entries_of, entry_of};
ghost use Rattle.blame_audit.specs.Claims.{IsElaborated, NeverBlames, CastsStayUp, TellsNoSafeBlame, program_over};
ghost use Rattle.blame_audit.specs.Claims.{safe_labels_in};
ghost use Rattle.blame_audit.specs.SafeLabels.{IsSafe, spoils};
ghost use Rattle.blame_audit.specs.Known.{AreUp};
ghost use Rattle.blame_audit.specs.Marks.{AllNameKnown, NamesKnown, marked, spoil};
ghost use Rattle.blame_audit.specs.Views.{labels_of};

use crate::pairs::Pair;
use crate::ups::check;
use cast_insert::insertion::Elab;
use grift_base::lists::{Items, OutOfMemory};
use grift_base::places::LabelId;
use insert_steps::casts::CastEntry;
use std::alloc::Global;
use std::collections::HashSet;
use type_graph::tables::TypeTable;

/// Labels by their places in a table.
pub type LabelIds = Items<LabelId>;

/// The safe labels of an elaborated program, in the order of its table of labels: those that each cast with the label
/// goes up, and that no part of what Dyn holds has. No run of the program blames one of them, whatever the input, and
/// every cast of such a label goes up in every state of every run.
pub fn audit(alloc: Global, elab: &Elab, types: &TypeTable) -> Result<LabelIds, OutOfMemory>
    requires { IsElaborated types.now elab.now }
    ensures listed { IfOk result (λ safe. labels_of safe ≡ safe_labels_in types.now elab.now) }
    ensures exact { IfOk result (λ safe. (p : ℕ) → (Contains (labels_of safe) p
        ↔ ((p < length elab.now.labels) × IsSafe types.now (entries_of elab.now.casts) p))) }
    ensures never_blamed { IfOk result (λ safe. (p : ℕ) → Contains (labels_of safe) p
        → NeverBlames (program_over types.now elab.now) p × CastsStayUp (program_over types.now elab.now) p) }
    ensures no_verdict { IfOk result (λ safe. TellsNoSafeBlame types.now elab.now) }
{
    // The table is one: `len` says that no row stands twice and that its types are trees.
    types.len();
    let labels = elab.labels.len() as u32;
    let marks = marks_of(alloc, elab.casts.as_slice(), types, labels)?;
    let mut safe = LabelIds::new(alloc);
    for label in 0..labels {
        if marks[label as usize] {
            safe.push(LabelId(label))?;
        }
    }
    Ok(safe)
}

// A mark for each of so many labels, whether it is safe.
fn marks_of(
    alloc: Global,
    casts: &[CastEntry],
    types: &TypeTable,
    labels: u32,
) -> Result<Vec<bool>, OutOfMemory>
    requires { AllNameKnown labels (length types.now) (entries_of casts.now) }
    ensures { IfOk result (λ marks.
        marks.items ≡ marked types.now (entries_of casts.now) (replicate labels true)) }
{
    let mut known = HashSet::new(alloc);
    let mut marks = vec![in alloc; true; labels as usize]?;
    for entry in casts {
        mark(&mut marks, &mut known, *entry, types)?;
    }
    Ok(marks)
}

// Takes away the mark of the label that an entry makes unsafe.
fn mark(
    marks: &mut Vec<bool>,
    known: &mut HashSet<Pair>,
    entry: CastEntry,
    types: &TypeTable,
) -> Result<(), OutOfMemory>
    requires entry { NamesKnown (length marks.old.items) (length types.now) (entry_of entry) }
    requires known { AreUp types.now known.old }
    ensures marks { OnOk result (marks.new.items ≡ spoil (spoils types.now (entry_of entry)) marks.old.items) }
    ensures known { AreUp types.now known.new }
{
    match entry {
        CastEntry::Cast {
            label,
            from,
            to,
            ..
        } => {
            if !check(known, types, from, to)? {
                marks[label.0 as usize] = false;
            }
        }
        CastEntry::Part { label, .. } => marks[label.0 as usize] = false,
    }
    Ok(())
}
