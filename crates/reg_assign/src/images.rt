// Images of programs over words.

ghost use Rattle.std.specs.Prelude.{◌≡◌, IfOk, IsTrue};
ghost use Rattle.low_ir.specs.Views.{procs_of};
ghost use Rattle.low_ir.specs.Closed.{is_closed};
ghost use Rattle.reg_assign.specs.Images.{IsImageOfWords};
ghost use Rattle.rv_machine.specs.Image.{IsImage};

use crate::apply::apply;
use crate::assign::assign;
use assembler::assembly::assemble;
use assembler::image::Image;
use grift_base::lists::OutOfMemory;
use grift_base::places::LabelTable;
use low_ir::programs::LowProgram;
use rv_select::selection::select;
use std::alloc::Global;

/// The image of a closed program over words with these labels: it is selected, its registers get places, and its code
/// is assembled behind the program's statics. `OutOfMemory` comes where it comes for one of these.
pub fn image_of(alloc: Global, low: &LowProgram, labels: &LabelTable) -> Result<Image, OutOfMemory>
    requires { IsTrue (is_closed (procs_of low.now.procs) low.now.entry) }
    ensures { IfOk result (λ image.
        IsImageOfWords image (procs_of low.now.procs) low.now.entry low.now.statics.words labels.now) }
{
    let selected = select(alloc, low)?;
    let assignment = assign(alloc, &selected)?;
    let code = apply(alloc, &selected, &assignment)?;
    let image = assemble(alloc, &code, &low.statics, labels)?;
    Ok(image)
}
