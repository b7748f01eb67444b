// Images from statics, code and labels.

ghost use Rattle.std.specs.Prelude.{◌≡◌, ◌++◌, ◌≤◌, ◌<◌, ◌*◌, ◌^◌, IfOk, OnOk, length, flat_map};
ghost use Rattle.assembler.specs.Imaging.{word_bytes, half_bytes, label_bytes, header_bytes, code_bytes, image_bytes};
ghost use Rattle.assembler.specs.Imaging.{AreSections};
ghost use Rattle.assembler.specs.Tables.{AreLabels};

use grift_base::lists::{Bytes, OutOfMemory};
use grift_base::places::{LabelTable, Pos};
use std::alloc::Global;

// The offset in code at which an image starts.
const ENTRY: u64 = 0;

// The bytes of the image with these words of statics, these words of code, which it enters at its start, and these
// labels.
pub(crate) fn image_bytes(
    alloc: Global,
    statics: &[u64],
    words: &[u32],
    labels: &LabelTable,
) -> Result<Bytes, OutOfMemory>
    requires few_statics { length statics.now ≤ 2 ^ 40 }
    requires few { length words.now ≤ 11 * 2 ^ 40 }
    requires some { 0 < length words.now }
    ensures bytes { IfOk result (λ bytes.
        bytes ≡ image_bytes (flat_map word_bytes statics.now) (code_bytes words.now) labels.now) }
    ensures sections { OnOk result (AreSections (flat_map word_bytes statics.now) (code_bytes words.now) labels.now) }
    ensures sound { OnOk result (AreLabels labels.now) }
{
    let statics = statics_bytes(alloc, statics)?;
    let code = code_bytes(alloc, words)?;
    let label_part = labels_bytes(alloc, labels.as_slice())?;
    let mut bytes = header(alloc, statics.len(), code.len(), labels.len())?;
    bytes.extend(statics.as_slice())?;
    bytes.extend(code.as_slice())?;
    bytes.extend(label_part.as_slice())?;
    Ok(bytes)
}

// The header, told how many bytes of statics and of code, and how many labels there are.
fn header(alloc: Global, statics: u64, code: u64, labels: u64) -> Result<Bytes, OutOfMemory>
    requires { (statics < 2 ^ 61) × (code < 2 ^ 61) × (labels < 4294967295) }
    ensures { IfOk result (λ bytes. bytes ≡ header_bytes statics code labels) }
{
    let mut bytes = Bytes::from_slice(alloc, b"GRIFTRV1")?;
    extend_by(&mut bytes, 64 + statics + code + 8 * labels)?;
    extend_by(&mut bytes, statics)?;
    extend_by(&mut bytes, code)?;
    extend_by(&mut bytes, labels)?;
    extend_by(&mut bytes, ENTRY)?;
    extend_by(&mut bytes, 0)?;
    extend_by(&mut bytes, 0)?;
    Ok(bytes)
}

// The bytes of statics.
fn statics_bytes(alloc: Global, statics: &[u64]) -> Result<Bytes, OutOfMemory>
    ensures { IfOk result (λ bytes. bytes ≡ flat_map word_bytes statics.now) }
{
    let mut bytes = Bytes::new(alloc);
    for word in statics {
        extend_by(&mut bytes, *word)?;
    }
    Ok(bytes)
}

// The bytes of words of code, with a word 0 behind them where their number is odd.
fn code_bytes(alloc: Global, words: &[u32]) -> Result<Bytes, OutOfMemory>
    ensures { IfOk result (λ bytes. bytes ≡ code_bytes words.now) }
{
    let mut bytes = Bytes::new(alloc);
    for word in words {
        extend_by_half(&mut bytes, *word)?;
    }
    if words.len() % 2 == 1 {
        extend_by_half(&mut bytes, 0)?;
    }
    Ok(bytes)
}

// The bytes of labels.
fn labels_bytes(alloc: Global, labels: &[Pos]) -> Result<Bytes, OutOfMemory>
    ensures bytes { IfOk result (λ bytes. bytes ≡ flat_map label_bytes labels.now) }
    ensures sound { OnOk result (AreLabels labels.now) }
{
    let mut bytes = Bytes::new(alloc);
    for label in labels {
        extend_by_label(&mut bytes, *label)?;
    }
    Ok(bytes)
}

// Adds the eight bytes of a word, the lowest first.
fn extend_by(bytes: &mut Bytes, word: u64) -> Result<(), OutOfMemory>
    ensures { OnOk result (bytes.new ≡ bytes.old ++ word_bytes word) }
{
    bytes.extend(&word.to_le_bytes())
}

// Adds four bytes, the lowest first.
fn extend_by_half(bytes: &mut Bytes, half: u32) -> Result<(), OutOfMemory>
    ensures bytes { OnOk result (bytes.new ≡ bytes.old ++ half_bytes half) }
    ensures small { OnOk result (half < 2 ^ 32) }
{
    bytes.extend(&half.to_le_bytes())
}

// Adds a label.
fn extend_by_label(bytes: &mut Bytes, label: Pos) -> Result<(), OutOfMemory>
    ensures bytes { OnOk result (bytes.new ≡ bytes.old ++ label_bytes label) }
    ensures small { OnOk result ((label.line < 2 ^ 32) × (label.col < 2 ^ 32)) }
{
    extend_by_half(bytes, label.line)?;
    extend_by_half(bytes, label.col)
}
