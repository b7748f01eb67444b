// The code of an image as a listing.

ghost use Rattle.std.specs.Prelude.{◌≡◌, IfOk};
ghost use Rattle.listing.specs.CodeLines.{code_listing, code_words};

use crate::lines::write_line;
use assembler::bytes::read_number;
use assembler::image::Image;
use grift_base::lists::{Items, OutOfMemory, Text};
use machine_words::FIRST_ADDRESS;
use std::alloc::Global;

/// The words of a code, in order.
pub type CodeWords = Items<u32>;

// How many bytes stand before the statics of an image.
const HEADER_LEN: usize = 64;

/// The words of an image's code, in order. `OutOfMemory` comes where no memory is left.
pub fn code_words(alloc: Global, image: &Image) -> Result<CodeWords, OutOfMemory>
    ensures { IfOk result (λ words. words ≡ code_words image.now) }
{
    let bytes = image.bytes();
    let start = HEADER_LEN + image.statics_len() as usize;
    let count = image.code_len() as usize / 4;
    let mut words = CodeWords::new(alloc);
    for k in 0..count {
        words.push(read_number::<4>(bytes, start + 4 * k) as u32)?;
    }
    Ok(words)
}

/// The listing of an image's code: a line for each word, with its address in at least eight hexadecimal digits, the
/// word in eight, and its instruction, or `.word` where the word is that of none. `OutOfMemory` comes where no memory
/// is left.
pub fn code_text(alloc: Global, image: &Image) -> Result<Text, OutOfMemory>
    ensures { IfOk result (λ text. text ≡ code_listing image.now) }
{
    let words = code_words(alloc, image)?;
    let first = FIRST_ADDRESS + image.loaded().len() as u64 - image.code_len();
    let mut text = Text::new(alloc);
    for (k, word) in words.as_slice().iter().enumerate() {
        write_line(alloc, &mut text, first + 4 * k as u64, *word)?;
    }
    Ok(text)
}
