// Images from code whose jumps, branches and addresses name marks.

ghost use Rattle.std.specs.Prelude.{◌≡◌, ◌++◌, ◌≤◌, ◌<◌, ◌^◌, IfOk, OnOk, length};
ghost use Rattle.assembler.specs.Assembled.{IsImageOf};
ghost use Rattle.assembler.specs.Expansion.{item_insts, code_insts};
ghost use Rattle.assembler.specs.Imaging.{inst_words};
ghost use Rattle.assembler.specs.Conditions.{CanBeAssembled};
ghost use Rattle.assembler.specs.Encoded.{AllDecode};
ghost use Rattle.assembler.specs.Tables.{IsLayoutOf};

use crate::expansion::{CodeWords, put_item};
use crate::image::Image;
use crate::imaging::image_bytes;
use crate::layout::Layout;
use grift_base::lists::OutOfMemory;
use grift_base::places::LabelTable;
use grift_base::words::Statics;
use machine_words::FIRST_ADDRESS;
use rv_machine::real::{RealCode, RealItem};
use std::alloc::Global;

// How many items there may be, and how many words of statics: the bytes of more find no place in any memory.
const MOST: usize = 1 << 40;

/// The image of a code, which it enters at its start, with these words of statics and these labels. `OutOfMemory`
/// comes where no memory is left, or where there are more than 2^40 items or words of statics.
pub fn assemble(
    alloc: Global,
    code: &RealCode,
    statics: &Statics,
    labels: &LabelTable,
) -> Result<Image, OutOfMemory>
    requires { CanBeAssembled code.now.items }
    ensures { IfOk result (λ image. IsImageOf image code.now.items statics.now.words labels.now) }
{
    let items = code.items.as_slice();
    let statics = statics.words.as_slice();
    if items.len() > MOST || statics.len() > MOST {
        return Err(OutOfMemory);
    }
    let words = code_words(alloc, items, FIRST_ADDRESS + 8 * statics.len() as u64)?;
    let bytes = image_bytes(alloc, statics, words.as_slice(), labels)?;
    Ok(Image::new(bytes))
}

// The words of a code that begins at this address.
fn code_words(alloc: Global, items: &[RealItem], start: u64) -> Result<CodeWords, OutOfMemory>
    requires few { length items.now ≤ 2 ^ 40 }
    requires small { start < 2 ^ 61 }
    ensures words { IfOk result (λ words. words ≡ inst_words (code_insts items.now start)) }
    ensures decode { OnOk result (AllDecode (code_insts items.now start)) }
{
    let layout = Layout::new(alloc, items, start)?;
    let mut words = CodeWords::new(alloc);
    for place in 0..items.len() {
        put_at(&mut words, &layout, items, place, &items[place])?;
    }
    Ok(words)
}

// Adds the words of the item at a place.
fn put_at(
    words: &mut CodeWords,
    layout: &Layout,
    items: &[RealItem],
    place: usize,
    item: &RealItem,
) -> Result<(), OutOfMemory>
    requires few { length items.now ≤ 2 ^ 40 }
    requires small { layout.now.reach.start < 2 ^ 61 }
    requires lies { IsLayoutOf items.now layout.now }
    requires inside { place ≤ length items.now }
    ensures words { OnOk result (
        words.new ≡ words.old ++ inst_words (item_insts items.now layout.now.reach.start place item.now)) }
    ensures decode { OnOk result (AllDecode (item_insts items.now layout.now.reach.start place item.now)) }
{
    let near = layout.is_near(items, place, item);
    let here = layout.address_of(items, place);
    let target = layout.target_of(items, item);
    put_item(words, near, here, target, item)
}
