// Procedures over words of flat procedures.

ghost use Rattle.std.specs.Prelude.{◌≡◌, ◌<◌, [], length, IfOk};
ghost use Rattle.grift_base.specs.Types.{row_at};
ghost use Rattle.type_graph.specs.Rows.{row_of};
ghost use Rattle.flat_ir.specs.Views.{body_of, proc_of as flat_proc_of, procs_of as flat_procs_of};
ghost use Rattle.flat_ir.specs.Levels.{levels};
ghost use Rattle.low_ir.specs.Views.{proc_of, procs_of};
ghost use Rattle.lowered_code.specs.Lowered.{low_proc, lowered};

use crate::answers::entry_proc;
use crate::numbering::{Shape, narrow};
use crate::operations::Emitter;
use crate::served::Served;
use flat_ir::code::FlatBody;
use flat_ir::programs::{FlatProc, FlatProgram};
use grift_base::lists::OutOfMemory;
use low_ir::codes;
use low_ir::programs::{LowProc, LowProcs};
use std::alloc::Global;
use type_graph::rows::Row;

// The first level above all local names of a body in which the levels below this one are bound.
#[cycle(levels)]
fn levels(first_free: u32, body: &FlatBody) -> Result<u32, OutOfMemory>
    ensures { IfOk result (λ level. level ≡ levels first_free (body_of body.now)) }
{
    let mut most: u32 = 0;
    let mut depth = first_free;
    let mut left = body;
    loop {
        match left {
            FlatBody::Give(_) | FlatBody::Call(..) => return Ok(most.max(depth)),
            FlatBody::Choose(_, on_true, on_false) => {
                let most = most.max(levels(depth, on_true)?);
                return Ok(most.max(levels(depth, on_false)?));
            }
            FlatBody::LetBody(_, inner, rest) => {
                most = most.max(levels(depth, inner)?);
                depth = narrow(depth as u64 + 1)?;
                left = rest;
            }
            FlatBody::LetGroup(_, _, count, _, rest) => {
                depth = narrow(depth as u64 + *count as u64)?;
                left = rest;
            }
        }
    }
}

// The procedure over words of a flat one.
fn low_proc(alloc: Global, run: &Served, proc: &FlatProc) -> Result<LowProc, OutOfMemory>
    ensures { IfOk result (λ low. proc_of low ≡ low_proc run.now (flat_proc_of proc.now)) }
{
    let shape = Shape {
        params: proc.params,
        captured: proc.captured,
        place: proc.place,
    };
    let emitter = Emitter { alloc, run, shape };
    let words = levels(proc.params, &proc.body)?;
    let (params, words) = (narrow(proc.params as u64 + 1)?, narrow(words as u64 + 10)?);
    codes::proc(params, words, emitter.emit_last(&proc.body))
}

/// The procedures over words of a program's procedures, by the same numbers, and behind them the one to begin with,
/// which shows the program's answer by the row of its type. Those that serve go on behind it, by the numbers that `run`
/// tells.
pub fn lowered(
    alloc: Global,
    run: &Served,
    flat: &FlatProgram,
    answer: &Row,
) -> Result<LowProcs, OutOfMemory>
    ensures { IfOk result (λ procs. procs_of procs
        ≡ lowered run.now (flat_procs_of flat.now.procs) flat.now.entry (row_of answer.now) []) }
{
    let mut procs = LowProcs::new(alloc);
    let mut left = flat.procs.as_slice();
    while let [proc, rest @ ..] = left {
        procs.push(low_proc(alloc, run, proc)?)?;
        left = rest;
    }
    procs.push(entry_proc(alloc, flat.entry, answer)?)?;
    Ok(procs)
}
