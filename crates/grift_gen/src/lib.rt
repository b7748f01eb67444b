// Programs made from a number, as large as the number asks.
#![tactic(auto)]

ghost use Rattle.std.specs.Prelude.{◌≡◌, ◌≤◌, ◌++◌, IfOk, OnOk, length};
ghost use Rattle.grift_base.specs.Sizes.{source_limit};
ghost use Rattle.grift_gen.specs.Family.{calls_line, family_text, function_line, lines_below, parameter_text};

use grift_base::lists::{OutOfMemory, Text};
use itoa::Buffer;
use std::alloc::Global;

/// The program of `n`, from 1 to 200: `n` functions, each even one without types and each odd one with them, 20 calls
/// of each on what a box of Dyn holds, and a print of it. It has 2n + 3 forms at top level, and no more bytes than a
/// source may have. `OutOfMemory` comes where no memory is left.
pub fn program_of(alloc: Global, n: u32) -> Result<Text, OutOfMemory>
    requires some { 1 ≤ n }
    requires most { n ≤ 200 }
    ensures text { IfOk result (λ text. text ≡ family_text n) }
    ensures short { IfOk result (λ text. length text ≤ source_limit) }
{
    let mut text = Text::new(alloc);
    write_functions(&mut text, n)?;
    text.extend(b"(define r : (Ref Dyn) (box 0))\n")?;
    write_calls(&mut text, n)?;
    text.extend(b"(print-int (unbox r))\n")?;
    text.extend(b"(unbox r)\n")?;
    Ok(text)
}

// Writes the functions of the numbers below `n` behind the text.
fn write_functions(text: &mut Text, n: u32) -> Result<(), OutOfMemory>
    ensures { OnOk result (text.new ≡ text.old ++ lines_below function_line n) }
{
    for i in 0..n {
        write_function(text, i)?;
    }
    Ok(())
}

// Writes the function of `i` behind the text.
fn write_function(text: &mut Text, i: u32) -> Result<(), OutOfMemory>
    ensures { OnOk result (text.new ≡ text.old ++ function_line i) }
{
    let mut digits = Buffer::new();
    text.extend(b"(define (f")?;
    text.extend(digits.format(i).as_bytes())?;
    text.extend(parameter_text(i))?;
    text.extend(b" (+ x ")?;
    text.extend(digits.format(i).as_bytes())?;
    text.extend(b"))\n")
}

// How the function of `i` writes its parameter, and the type of its answer where it has one.
fn parameter_text(i: u32) -> &'static [u8]
    ensures { result.now ≡ parameter_text i }
{
    if i % 2 == 0 {
        b" x)"
    } else {
        b" [x : Int]) : Int"
    }
}

// Writes the calls of the functions of the numbers below `n` behind the text.
fn write_calls(text: &mut Text, n: u32) -> Result<(), OutOfMemory>
    ensures { OnOk result (text.new ≡ text.old ++ lines_below calls_line n) }
{
    for i in 0..n {
        write_calls_of(text, i)?;
    }
    Ok(())
}

// Writes the calls of the function of `i` behind the text.
fn write_calls_of(text: &mut Text, i: u32) -> Result<(), OutOfMemory>
    ensures { OnOk result (text.new ≡ text.old ++ calls_line i) }
{
    let mut digits = Buffer::new();
    text.extend(b"(repeat (k 0 20) (box-set! r (f")?;
    text.extend(digits.format(i).as_bytes())?;
    text.extend(b" (unbox r))))\n")
}
