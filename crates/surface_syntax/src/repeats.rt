// Loops with fresh names of their own. `names` counts the fresh names so far.

ghost use Rattle.std.specs.Prelude.{◌≡◌, ◌+◌, IfOk};
ghost use Rattle.surface_trees.specs.declared.names.Ident.TheVariants.{Fresh};
ghost use Rattle.derived_forms.specs.Expansion.{loop_names, repeat_of, repeat_into_of, type_or_dyn};
ghost use Rattle.surface_trees.specs.Views.{expr_of, source_of, name_of_binding, type_of_binding, value_of_binding};

use derived_forms::loops::{LoopNames, Range, counted_loop, gathering_loop};
use grift_base::lists::OutOfMemory;
use grift_base::places::Pos;
use std::alloc::Global;
use surface_trees::exprs::{Binding, Expr};

/// The next fresh name. Where 4,294,967,295 are in use there is none: no memory holds that many loops.
fn fresh(names: &mut u32) -> Result<u32, OutOfMemory>
    ensures number { IfOk result (λ number. number ≡ names.old) }
    ensures next { IfOk result (λ number. names.new ≡ names.old + 1) }
{
    let number = *names;
    if number == u32::MAX {
        return Err(OutOfMemory);
    }
    *names = number + 1;
    Ok(number)
}

// The next three fresh names, as those of a loop.
fn loop_names(names: &mut u32) -> Result<LoopNames, OutOfMemory>
    ensures { IfOk result (λ numbers. loop_names names.old ≡ (numbers, names.new)) }
{
    let start = fresh(names)?;
    let bound = fresh(names)?;
    let function = fresh(names)?;
    Ok(LoopNames {
        start,
        bound,
        function,
    })
}

// The next fresh names of a loop with an accumulator: those of the loop, and that of the accumulator.
fn gathering_names(names: &mut u32) -> Result<(LoopNames, u32), OutOfMemory>
    ensures numbers { IfOk result (λ two. loop_names names.old ≡ (two.0, names.old + 3)) }
    ensures value { IfOk result (λ two. two.1 ≡ names.old + 3) }
    ensures next { IfOk result (λ two. names.new ≡ names.old + 3 + 1) }
{
    let numbers = loop_names(names)?;
    let value = fresh(names)?;
    Ok((numbers, value))
}

/// A `repeat` without an accumulator.
pub fn counted_repeat(
    alloc: Global,
    names: &mut u32,
    pos: Pos,
    range: Range,
    body: Box<Expr>,
) -> Result<Box<Expr>, OutOfMemory>
    ensures expr { IfOk result (λ e. expr_of e.value ≡ repeat_of pos (loop_names names.old).0 range.counter
        (expr_of range.first.value) (expr_of range.bound.value) (expr_of body.value)) }
    ensures next { IfOk result (λ e. names.new ≡ names.old + 3) }
{
    let numbers = loop_names(names)?;
    counted_loop(alloc, pos, numbers, range, body)
}

/// A `repeat` with this accumulator.
pub fn gathered_repeat(
    alloc: Global,
    names: &mut u32,
    pos: Pos,
    range: Range,
    start: Box<Binding>,
    body: Box<Expr>,
) -> Result<Box<Expr>, OutOfMemory>
    ensures expr { IfOk result (λ e. expr_of e.value ≡ repeat_into_of pos (loop_names names.old).0
        (Fresh (names.old + 3)) range.counter (expr_of range.first.value) (expr_of range.bound.value)
        (source_of (name_of_binding start.value)) (type_or_dyn pos (type_of_binding start.value))
        (value_of_binding start.value) (expr_of body.value)) }
    ensures next { IfOk result (λ e. names.new ≡ names.old + 3 + 1) }
{
    let (numbers, value) = gathering_names(names)?;
    gathering_loop(alloc, pos, numbers, value, range, start, body)
}
