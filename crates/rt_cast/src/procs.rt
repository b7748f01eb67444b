// All procedures.

ghost use Rattle.std.specs.Prelude.{◌≡◌, ◌+◌, ◌≤◌, ◌^◌, ◌++◌, ◌∷◌, [], List, IfOk};
ghost use Rattle.low_ir.specs.Procedures.{Proc};
ghost use Rattle.low_ir.specs.Views.{procs_of};
ghost use Rattle.rt_cast.specs.Procs.{middles_from, cast_procs};

use crate::casting::{cast_proc, project_proc};
use crate::coercing::coerce_proc;
use crate::composing::compose_proc;
use crate::numbers::{CastProc, MOST_PARTS};
use crate::parts::{Making, final_proc, middle_proc, part_proc, raise_proc};
use grift_base::lists::OutOfMemory;
use low_ir::code::LowSource::Word;
use low_ir::codes::with_proc;
use low_ir::programs::LowProcs;
use std::alloc::Global;

// The procedures for no parts to eight parts go last.
fn with_middles(
    alloc: Global,
    procs: Result<LowProcs, OutOfMemory>,
    making: Making,
) -> Result<LowProcs, OutOfMemory>
    requires apart { making.step ≡ 8 }
    ensures { (before : List Proc) → IfOk procs (λ all. procs_of all ≡ before)
        → IfOk result (λ all. procs_of all ≡ before ++ middles_from making.raise making.part 9 0) }
{
    let mut made = procs;
    for r in 0..MOST_PARTS + 1 {
        made = with_proc(made, middle_proc(alloc, making, r));
    }
    made
}

/// The procedures coerce, compose, cast and project, numbered from `first` on, and behind them those that they call.
/// Coerce takes the addresses of two types and a label, and answers the word of the coercion of a cast between them.
/// Compose takes the words of two coercions, and answers that of their composition. Cast takes a value and the word of
/// a coercion, and answers the value that it is cast to. Project takes a value, the number of a part, 0 for a value in
/// Dyn or 1 for a tuple, and the label that is blamed where the type that a Dyn keeps has no such part; it answers the
/// part.
pub fn cast_procs(alloc: Global, first: u32) -> Result<LowProcs, OutOfMemory>
    requires room { first + 27 ≤ 2 ^ 32 }
    ensures { IfOk result (λ procs. procs_of procs ≡ cast_procs first) }
{
    let procs = with_proc(Ok(LowProcs::new(alloc)), coerce_proc(alloc, first));
    let procs = with_proc(procs, compose_proc(alloc, first));
    let procs = with_proc(procs, cast_proc(alloc, first));
    let procs = with_proc(procs, project_proc(alloc, first));
    let on = [Word(3), Word(4)];
    let back = [Word(4), Word(3)];
    let composed = part_proc(alloc, CastProc::Compose.number(first), &on, &back);
    let procs = with_proc(procs, composed);
    let procs = with_proc(procs, raise_proc(alloc));
    let procs = with_proc(procs, final_proc(alloc));
    let on = [Word(3), Word(4), Word(5)];
    let back = [Word(4), Word(3), Word(5)];
    let coerced = part_proc(alloc, CastProc::Coerce.number(first), &on, &back);
    let procs = with_proc(procs, coerced);
    let coercions = Making {
        raise: CastProc::Raise.number(first),
        part: CastProc::CoercePart.number(first),
        step: 8,
    };
    let pair = middle_proc(
        alloc,
        Making {
            step: 0,
            ..coercions
        },
        2,
    );
    let procs = with_proc(procs, pair);
    let compositions = Making {
        part: CastProc::Part.number(first),
        ..coercions
    };
    let procs = with_middles(alloc, procs, compositions);
    with_middles(alloc, procs, coercions)
}
