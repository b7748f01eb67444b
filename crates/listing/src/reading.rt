// The words of a code listing.

ghost use Rattle.std.specs.Prelude.{◌≡◌, ◌==◌, ◌^◌, ◌<◌, ◌++◌, ℕ, List, Some, IfOk, IfSome, IsSomeAnd, length};
ghost use Rattle.std.specs.List.{position};
ghost use Rattle.listing.specs.CodeLines.{address_part, code_line, hex_text};
ghost use Rattle.listing.specs.Readings.{IsListing, ListsFrom};

use crate::code::CodeWords;
use crate::lines::{write_address, write_word};
use grift_base::lists::{OutOfMemory, Text};
use std::alloc::Global;

/// The words of a code listing; none exactly where the text isn't one: where some line isn't that of its word and its
/// address, the first address is no multiple of 4, or the addresses don't rise by 4 or go past 64 bits. The empty text
/// lists no words. `OutOfMemory` comes where no memory is left.
pub fn read_code_text(alloc: Global, text: &[u8]) -> Result<Option<CodeWords>, OutOfMemory>
    ensures listing { IfOk result (λ found. IfSome found (IsListing text.now)) }
    ensures exact { IfOk result (λ found. (words : List ℕ) → IsListing text.now words → found ≡ Some words) }
{
    if text.is_empty() {
        return Ok(Some(CodeWords::new(alloc)));
    }
    match first_address(text) {
        Some(first) if first % 4 == 0 => read_lines(alloc, text, first),
        _ => Ok(None),
    }
}

// The address in a text that begins with the line of a word.
fn first_address(text: &[u8]) -> Option<u64>
    ensures { (address : ℕ) (rest : List ℕ) → address < 2 ^ 64 → text.now ≡ address_part address ++ rest
        → result ≡ Some address }
{
    let end = colon_in(text)?;
    hex_number(text.get(..end)?)
}

// The place of the first colon.
fn colon_in(text: &[u8]) -> Option<usize>
    ensures { result ≡ position (λ byte. byte == 58) text.now }
{
    text.iter().position(|byte| *byte == b':')
}

// The number that hexadecimal digits write.
fn hex_number(digits: &[u8]) -> Option<u64>
    ensures { (n : ℕ) → n < 2 ^ 64 → digits.now ≡ hex_text n → result ≡ Some n }
{
    let digits = str::from_utf8(digits).ok()?;
    u64::from_str_radix(digits, 16).ok()
}

// The word whose eight digits stand at this place.
fn word_at(text: &[u8], at: usize) -> Option<u32>
    ensures small { IfSome result (λ word. word < 2 ^ 32) }
    ensures exact { (before rest : List ℕ) (word : ℕ) → length before ≡ at → word < 2 ^ 32
        → text.now ≡ before ++ hex_text word ++ rest → result ≡ Some word }
{
    let digits = text.get(at..)?.get(..8)?;
    u32::try_from(hex_number(digits)?).ok()
}

// The word of the first line, whose address is this, and the text behind the line; none where that is no such line.
fn read_line(alloc: Global, text: &[u8], address: u64) -> Result<Option<(u32, &[u8])>, OutOfMemory>
    ensures line { IfOk result (λ found. IfSome found (λ read.
        text.now ≡ code_line address read.0 ++ read.1.now)) }
    ensures small { IfOk result (λ found. IfSome found (λ read. read.0 < 2 ^ 32)) }
    ensures exact { IfOk result (λ found. (word : ℕ) (rest : List ℕ) → word < 2 ^ 32
        → text.now ≡ code_line address word ++ rest → IsSomeAnd found (λ read.
        (read.0 ≡ word) × (read.1.now ≡ rest))) }
{
    let mut line = Text::new(alloc);
    write_address(alloc, &mut line, address)?;
    let Some(word) = word_at(text, line.len() as usize) else {
        return Ok(None);
    };
    write_word(alloc, &mut line, word)?;
    match text.strip_prefix(line.as_slice()) {
        Some(rest) => Ok(Some((word, rest))),
        None => Ok(None),
    }
}

// The words that a text lists from this address on; none where it lists none.
fn read_lines(alloc: Global, text: &[u8], first: u64) -> Result<Option<CodeWords>, OutOfMemory>
    ensures lines { IfOk result (λ found. IfSome found (ListsFrom first text.now)) }
    ensures exact { IfOk result (λ found. (words : List ℕ) → ListsFrom first text.now words → found ≡ Some words) }
{
    let mut words = CodeWords::new(alloc);
    let mut rest = text;
    let mut next = Some(first);
    while !rest.is_empty() {
        let Some(address) = next else {
            return Ok(None);
        };
        let Some((word, behind)) = read_line(alloc, rest, address)? else {
            return Ok(None);
        };
        words.push(word)?;
        rest = behind;
        next = address.checked_add(4);
    }
    Ok(Some(words))
}
