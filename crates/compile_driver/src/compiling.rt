// Images from sources.

ghost use Rattle.std.specs.Prelude.{◌≡◌, ◌<◌, ◌^◌, ◌≤◌, All, IfOk, IfErr, IsTrue, length};
ghost use Rattle.grift_base.specs.Sizes.{source_limit};
ghost use Rattle.rv_machine.specs.Image.{IsImage};
ghost use Rattle.core_calc.specs.Typing.{ProgramTermHasType};
ghost use Rattle.core_calc.specs.Views.{term_of};
ghost use Rattle.front_end.specs.Texts.{IsFault};
ghost use Rattle.compile_driver.specs.Bounds.{KeepsAccount};
ghost use Rattle.compile_driver.specs.Compiling.{FollowsProgram, HasProgram, IsTold, program_of};
ghost use Rattle.compile_driver.specs.Compiling.{program_over, tallest_in};
ghost use Rattle.compile_driver.specs.Space.{KeepsSpace};
ghost use Rattle.compile_driver.specs.Words.{StandsFor, AreWordsOf};

use assembler::image::Image;
use cast_insert::insertion::Elab;
use closure_convert::program::convert;
use coer_core::program::to_coercions;
use core_calc::laws::output_only_grows;
use front_end::elaborate_text;
use grift_base::lists::OutOfMemory;
use grift_base::refusals::FrontFault;
use low_ir::programs::LowProgram;
use lower::merged::lower;
use machine_words::words::are_words;
use reg_assign::images::image_of;
use std::alloc::Global;
use type_graph::tables::TypeTable;

/// A source that was compiled: its image, its types, its program with all casts, the greatest height of the coercions
/// of its casts, and how many forms it has at top level.
pub struct Compiled {
    pub image: Image,
    pub types: TypeTable,
    pub elab: Elab,
    pub tallest: u32,
    pub forms: u32,
}

// By hand, so that each place where one goes is one call.
impl Drop for Compiled {
    fn drop(self) {
        let Compiled {
            image,
            types,
            elab,
            tallest: _,
            forms: _,
        } = self;
        drop(image);
        drop(types);
        drop(elab);
    }
}

// A program over words, and the greatest height of the coercions of its casts.
#[derive(Drop)]
struct Words {
    low: LowProgram,
    tallest: u32,
}

// An image, and that height.
#[derive(Drop)]
struct Made {
    image: Image,
    tallest: u32,
}

// The most bytes that statics and code may have: with every region they end below 2 ^ 34.
const MOST_LOADED: usize = 8_589_934_592;

// The program over words of a program with all casts.
fn words_over(alloc: Global, types: &TypeTable, elab: &Elab) -> Result<Words, OutOfMemory>
    requires typed { ProgramTermHasType types.now (length elab.now.labels) (term_of elab.now.core) elab.now.ty.0 }
    ensures tallest { IfOk result (λ words. words.tallest ≡ tallest_in (program_over types.now elab.now)) }
    ensures stands { IfOk result (λ words. StandsFor words.low (program_over types.now elab.now)) }
{
    types.len();
    output_only_grows();
    let coer = to_coercions(alloc, &elab.core, types)?;
    let flat = convert(alloc, &coer)?;
    types.row(coer.answer);
    let low = lower(alloc, &flat, types, &coer.casts, &coer.coercions)?;
    are_words(low.statics.words.as_slice());
    are_words(low.statics.cast_at.as_slice());
    Ok(Words {
        low,
        tallest: coer.tallest,
    })
}

// The image of a program with all casts. One whose statics and code are too long for the memory that the procedures
// over words are proved for is want of memory.
fn made_of(alloc: Global, types: &TypeTable, elab: &Elab) -> Result<Made, OutOfMemory>
    requires typed { ProgramTermHasType types.now (length elab.now.labels) (term_of elab.now.core) elab.now.ty.0 }
    ensures whole { IfOk result (λ made. IsImage made.image) }
    ensures tallest { IfOk result (λ made. made.tallest ≡ tallest_in (program_over types.now elab.now)) }
    ensures follows { IfOk result (λ made. FollowsProgram made.image (program_over types.now elab.now)) }
    ensures space { IfOk result (λ made. KeepsSpace made.image types.now made.tallest) }
    ensures account { IfOk result (λ made. KeepsAccount made.image (program_over types.now elab.now)) }
{
    let words = words_over(alloc, types, elab)?;
    let image = image_of(alloc, &words.low, &elab.labels)?;
    if image.loaded().len() > MOST_LOADED {
        return Err(OutOfMemory);
    }
    Ok(Made {
        image,
        tallest: words.tallest,
    })
}

/// A program over words of a source, made as `compile` makes that of its image: it is closed, and each image of it,
/// with the labels of the source and at most 2^33 bytes of statics and code, follows the source's program. A source is
/// refused exactly as it is read, parsed or elaborated.
pub fn words_of(alloc: Global, text: &[u8]) -> Result<LowProgram, FrontFault>
    requires { length text.now ≤ source_limit }
    ensures words { IfOk result (AreWordsOf text.now) }
    ensures refused { IfErr result (IsFault text.now) }
{
    let source = elaborate_text(alloc, text)?;
    let words = words_over(alloc, &source.types, &source.elab)?;
    Ok(words.low)
}

/// Compiles a source: it is read, parsed and elaborated, casts become coercions, functions become procedures, and these
/// become words and instructions. The image follows the source's program, for every region, stack and input, and after
/// each instruction whole objects fill the region, no proxy stands on a proxy, and no proxy's coercion is higher than
/// the tallest of the casts. It lacks region only where the account of the program has more words than the region. It
/// lacks stack only where the frames that the account allows have more bytes than the stack, and where fewer bytes of
/// it are left than a frame may have and 4,096. Within 64 instructions for each unit of the account's work it comes to
/// what the program comes to, or is exhausted. A source is refused exactly as it is read, parsed or elaborated.
pub fn compile(alloc: Global, text: &[u8]) -> Result<Compiled, FrontFault>
    requires { length text.now ≤ source_limit }
    ensures source { IfOk result (λ compiled. HasProgram text.now (program_of compiled)) }
    ensures told { IfOk result (λ compiled. IsTold text.now compiled) }
    ensures whole { IfOk result (λ compiled. IsImage compiled.image) }
    ensures follows { IfOk result (λ compiled. FollowsProgram compiled.image (program_of compiled)) }
    ensures space { IfOk result (λ compiled. KeepsSpace compiled.image compiled.types compiled.tallest) }
    ensures account { IfOk result (λ compiled. KeepsAccount compiled.image (program_of compiled)) }
    ensures refused { IfErr result (IsFault text.now) }
{
    let done = elaborate_text(alloc, text)?;
    let made = made_of(alloc, &done.types, &done.elab)?;
    Ok(Compiled {
        image: made.image,
        types: done.types,
        elab: done.elab,
        tallest: made.tallest,
        forms: done.program.forms,
    })
}
