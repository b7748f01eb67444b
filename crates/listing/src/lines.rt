// The lines of a code listing.

ghost use Rattle.std.specs.Prelude.{◌≡◌, ◌++◌, IfOk, OnOk, string_bytes};
ghost use Rattle.listing.specs.CodeLines.{address_part, code_line, hex_text, word_part};

use crate::instructions::write_instruction;
use grift_base::lists::{OutOfMemory, Text};
use std::alloc::Global;

/// A number in hexadecimal digits, at least eight of them. `OutOfMemory` comes where no memory is left for it.
pub fn hex_text(alloc: Global, n: u64) -> Result<String, OutOfMemory>
    ensures { IfOk result (λ text. string_bytes text ≡ hex_text n) }
{
    let text = format!(in alloc; "{n:08x}")?;
    Ok(text)
}

// Writes what stands before the digits of a word behind the text.
pub(crate) fn write_address(alloc: Global, text: &mut Text, address: u64) -> Result<(), OutOfMemory>
    ensures { OnOk result (text.new ≡ text.old ++ address_part address) }
{
    text.extend(hex_text(alloc, address)?.as_bytes())?;
    text.extend(b": ")
}

// Writes the digits of a word and its instruction behind the text.
pub(crate) fn write_word(alloc: Global, text: &mut Text, word: u32) -> Result<(), OutOfMemory>
    ensures { OnOk result (text.new ≡ text.old ++ word_part word) }
{
    text.extend(hex_text(alloc, u64::from(word))?.as_bytes())?;
    text.extend(b" ")?;
    write_instruction(text, word)?;
    text.extend(b"\n")
}

// Writes the line of a word at an address behind the text.
pub(crate) fn write_line(
    alloc: Global,
    text: &mut Text,
    address: u64,
    word: u32,
) -> Result<(), OutOfMemory>
    ensures { OnOk result (text.new ≡ text.old ++ code_line address word) }
{
    write_address(alloc, text, address)?;
    write_word(alloc, text, word)
}
