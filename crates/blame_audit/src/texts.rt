// How an audit is written.

ghost use Rattle.std.specs.Prelude.{◌≡◌, ◌++◌, IfOk, OnOk};
ghost use Rattle.blame_audit.specs.Claims.{IsElaborated, TellsNoSafeBlame, safe_labels_in};
ghost use Rattle.blame_audit.specs.Texts.{audit_lines, label_line, summary};
ghost use Rattle.std.specs.Option.{option_copied};

use crate::audits::audit;
use cast_insert::insertion::Elab;
use grift_base::lists::{OutOfMemory, Text};
use grift_base::places::Pos;
use itoa::Buffer;
use std::alloc::Global;
use type_graph::tables::TypeTable;

/// The audit of an elaborated program as a text: a line with the place of each safe label, in order of the table of
/// labels, and behind them how many labels of how many are safe. No run of the program blames one of these places.
pub fn audit_text(alloc: Global, elab: &Elab, types: &TypeTable) -> Result<Text, OutOfMemory>
    requires { IsElaborated types.now elab.now }
    ensures text { IfOk result (λ text. text ≡ audit_lines elab.now.labels (safe_labels_in types.now elab.now)) }
    ensures no_verdict { IfOk result (λ text. TellsNoSafeBlame types.now elab.now) }
{
    let safe = audit(alloc, elab, types)?;
    let mut text = Text::new(alloc);
    for label in safe.as_slice() {
        write_line(&mut text, elab.labels.get(u64::from(label.0)))?;
    }
    write_summary(&mut text, safe.len(), elab.labels.len())?;
    Ok(text)
}

// Writes the line of a place behind the text, if there is a place.
fn write_line(text: &mut Text, place: Option<&Pos>) -> Result<(), OutOfMemory>
    ensures { OnOk result (text.new ≡ text.old ++ label_line (option_copied place.entry)) }
{
    let Some(place) = place else {
        return Ok(());
    };
    let mut digits = Buffer::new();
    text.extend(digits.format(place.line).as_bytes())?;
    text.extend(b":")?;
    text.extend(digits.format(place.col).as_bytes())?;
    text.extend(b"\n")
}

// Writes how many labels of how many are safe behind the text.
fn write_summary(text: &mut Text, safe: u64, all: u64) -> Result<(), OutOfMemory>
    ensures { OnOk result (text.new ≡ text.old ++ summary safe all) }
{
    let mut digits = Buffer::new();
    text.extend(b"safe ")?;
    text.extend(digits.format(safe).as_bytes())?;
    text.extend(b" of ")?;
    text.extend(digits.format(all).as_bytes())?;
    text.extend(b"\n")
}
