// The code of a program over words.

ghost use Rattle.std.specs.Prelude.{◌≡◌, ◌<◌, ◌+◌, ◌++◌, None, Some, OnOk, IfOk, IfSome, IsTrue, MatchOption};
ghost use Rattle.low_ir.specs.declared.code.LowCode.{size-LowCode};
ghost use Rattle.low_ir.specs.Views.{code_of, proc_of, procs_of};
ghost use Rattle.low_ir.specs.Closed.{is_closed};
ghost use Rattle.rv_select.specs.Selected.{IsCodeOf};
ghost use Rattle.rv_select.specs.Sizes.{HasSmallNumbers, IsSmall};
ghost use Rattle.rv_select.specs.Select.{code_items, marks_in, proc_items};
ghost use Rattle.rv_select.specs.Stepwise.{step_items, later};

use crate::code::{VirtualCode, VirtualItem, VirtualItems};
use crate::parts::{
    Put, local, put_args, put_branch, put_build, put_call, put_call_at, put_compute,
    put_environment, put_head, put_item, put_load, put_out, put_request, put_return, put_start,
    put_store, put_tail_call_at, put_take,
};
use grift_base::lists::OutOfMemory;
use low_ir::code::LowCode;
use low_ir::programs::{LowProc, LowProgram};
use std::alloc::Global;

// The next number, as that of a mark.
fn fresh(marks: &mut u32) -> Result<u32, OutOfMemory>
    ensures value { IfOk result (λ mark. mark ≡ marks.old) }
    ensures marks { OnOk result (marks.new ≡ marks.old + 1) }
{
    let mark = *marks;
    match mark.checked_add(1) {
        Some(next) => {
            *marks = next;
            Ok(mark)
        }
        None => Err(OutOfMemory),
    }
}

// Adds the items of the first step of a code, told the first register of its procedure and the mark behind which there
// is no room; none for a branch and for a code address, which `put_code` puts.
fn put_step(items: &mut VirtualItems, first: u32, out: u32, code: &LowCode) -> Put
    requires { HasSmallNumbers (code_of code.now) }
    ensures { OnOk result (items.new ≡ items.old ++ step_items first out (code_of code.now)) }
{
    match code {
        LowCode::Done | LowCode::CodeOf(..) | LowCode::If(..) => Ok(()),
        LowCode::Set(d, a, _) => items.push(put_item(first, local(first, *d)?, *a)?),
        LowCode::Compute(op, d, a, b, _) => put_compute(items, first, *op, *d, *a, *b),
        LowCode::Load(d, a, offset, _) => put_load(items, first, *d, *a, *offset),
        LowCode::Store(b, a, offset, _) => put_store(items, first, *b, *a, *offset),
        LowCode::Build(d, args, _) => put_build(items, first, out, *d, args),
        LowCode::Request(d, a, _) => put_request(items, first, out, *d, *a),
        LowCode::Take(a, _) => put_take(items, first, *a),
        LowCode::Environment(number, a, b, d, e, _) => {
            put_environment(items, first, *number, (*a, *b), (*d, *e))
        }
        LowCode::Call(d, k, args, _) => {
            let call = VirtualItem::Call(*k, args.len() as u32);
            put_call(items, first, *d, args, call)
        }
        LowCode::CallAt(d, f, args, _) => put_call_at(items, first, *d, *f, args),
        LowCode::Return(a) => put_return(items, first, *a),
        LowCode::TailCall(k, args) => {
            put_args(items, first, args)?;
            items.push(VirtualItem::TailCall(*k, args.len() as u32))
        }
        LowCode::TailCallAt(f, args) => put_tail_call_at(items, first, *f, args),
    }
}

// What a code does behind such a step; none where that is the last, and for a branch and a code address.
fn later(code: &LowCode) -> Option<&LowCode>
    ensures later { MatchOption result (later (code_of code.now) ≡ None)
        (λ rest. later (code_of code.now) ≡ Some (code_of rest.now)) }
    ensures smaller { IfSome result (λ rest. size-LowCode rest.now < size-LowCode code.now) }
{
    match code {
        LowCode::Set(_, _, rest) => Some(rest),
        LowCode::Compute(_, _, _, _, rest) => Some(rest),
        LowCode::Load(_, _, _, rest) => Some(rest),
        LowCode::Store(_, _, _, rest) => Some(rest),
        LowCode::Build(_, _, rest) => Some(rest),
        LowCode::Request(_, _, rest) => Some(rest),
        LowCode::Take(_, rest) => Some(rest),
        LowCode::Environment(_, _, _, _, _, rest) => Some(rest),
        LowCode::Call(_, _, _, rest) => Some(rest),
        LowCode::CallAt(_, _, _, rest) => Some(rest),
        LowCode::Done
        | LowCode::CodeOf(..)
        | LowCode::If(..)
        | LowCode::Return(..)
        | LowCode::TailCall(..)
        | LowCode::TailCallAt(..) => None,
    }
}

// Adds the items of a code, told the first register of its procedure and the mark behind which there is no room. A
// recursion into branches alone.
fn put_code(items: &mut VirtualItems, marks: &mut u32, first: u32, out: u32, code: &LowCode) -> Put
    requires { HasSmallNumbers (code_of code.now) }
    ensures items { OnOk result (items.new ≡ items.old ++ code_items first out marks.old (code_of code.now)) }
    ensures marks { OnOk result (marks.new ≡ marks.old + marks_in (code_of code.now)) }
{
    let mut left = code;
    loop {
        match left {
            LowCode::CodeOf(d, k, rest) => {
                items.push(VirtualItem::CodeOf(local(first, *d)?, *k))?;
                left = rest;
            }
            LowCode::If(cond, a, b, one, other, rest) => {
                let at_one = fresh(marks)?;
                let at_end = fresh(marks)?;
                put_branch(items, first, *cond, (*a, *b), at_one)?;
                put_code(items, marks, first, out, other)?;
                items.push(VirtualItem::Jump(at_end))?;
                items.push(VirtualItem::Mark(at_one))?;
                put_code(items, marks, first, out, one)?;
                items.push(VirtualItem::Mark(at_end))?;
                left = rest;
            }
            _ => {
                put_step(items, first, out, left)?;
                let Some(rest) = later(left) else {
                    return Ok(());
                };
                left = rest;
            }
        }
    }
}

// Adds the items of a procedure, told its number and its first register.
fn put_proc(
    items: &mut VirtualItems,
    marks: &mut u32,
    number: u32,
    first: u32,
    proc: &LowProc,
) -> Put
    requires { IsSmall (proc_of proc.now) }
    ensures items { OnOk result (items.new ≡ items.old ++ proc_items number first marks.old (proc_of proc.now)) }
    ensures marks { OnOk result (marks.new ≡ marks.old + 1 + marks_in (code_of proc.now.code)) }
{
    let out = fresh(marks)?;
    put_head(items, number, first, proc.words, proc.params)?;
    put_code(items, marks, first, out, &proc.code)?;
    put_out(items, out)
}

/// The code of a closed program over words. `OutOfMemory` comes where no memory is left, or where the words of its
/// procedures, or procedures and branches, are more than 2^32 - 1 numbers can tell apart.
pub fn select(alloc: Global, low: &LowProgram) -> Result<VirtualCode, OutOfMemory>
    requires { IsTrue (is_closed (procs_of low.now.procs) low.now.entry) }
    ensures { IfOk result (λ code. IsCodeOf code.items code.registers (procs_of low.now.procs) low.now.entry) }
{
    let mut items = VirtualItems::new(alloc);
    put_start(&mut items, low.entry)?;
    let procs = low.procs.as_slice();
    let mut marks = match u32::try_from(procs.len()) {
        Ok(count) => count,
        Err(_) => return Err(OutOfMemory),
    };
    let mut registers = 0u32;
    for number in 0..procs.len() {
        let proc = &procs[number];
        put_proc(&mut items, &mut marks, number as u32, registers, proc)?;
        registers = match registers.checked_add(proc.words) {
            Some(more) => more,
            None => return Err(OutOfMemory),
        };
    }
    Ok(VirtualCode { items, registers })
}
