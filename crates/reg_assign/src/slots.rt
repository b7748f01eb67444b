// Real code in which each virtual register has a slot of its procedure's frame.

ghost use Rattle.std.specs.Prelude.{◌≡◌, ◌<◌, ◌^◌, ◌++◌, ◌∷◌, [], true, OnOk, IfOk};
ghost use Rattle.rv_select.specs.Run.{fits_item};
ghost use Rattle.rv_select.specs.Fitting.{fits, each_fits};
ghost use Rattle.placed_code.specs.Slots.{op_inst, op_with, expand, expand_all, fetch_items, save_items};
ghost use Rattle.rv_select.specs.Marks.{marks};
ghost use Rattle.placed_code.specs.Slotted.{above, free_mark, HasFew, EachHasFew, IsSlotsOf};
ghost use Rattle.rv_machine.specs.declared.real.RealItem.TheVariants.{Op};
ghost use Rattle.rv_select.specs.declared.convention.TheConstants.{FIRST_SPILL};

use crate::slot_parts::{
    Put, negated, put, put_constant, put_enter, put_fetch, put_final, put_leave, put_move,
    put_real, put_save, register, register_for, small,
};
use grift_base::lists::OutOfMemory;
use low_ir::code::WordOp;
use machine_words::conditions::Cond;
use rv_isa::inst::Inst;
use rv_isa::number::{Reg, Shift6};
use rv_machine::real::{RealCode, RealItem, RealItems};
use rv_select::code::{VReg, VirtualCode, VirtualItem};
use rv_select::convention::{FIRST_SPILL, LINK, SECOND_SPILL, ZERO};
use std::alloc::Global;

// The instruction of an operation.
fn op_inst(op: WordOp, rd: Reg, a: Reg, b: Reg) -> Inst
    ensures { result ≡ op_inst op rd a b }
{
    match op {
        WordOp::Add => Inst::Add(rd, a, b),
        WordOp::Sub => Inst::Sub(rd, a, b),
        WordOp::And => Inst::And(rd, a, b),
        WordOp::Or => Inst::Or(rd, a, b),
        WordOp::Xor => Inst::Xor(rd, a, b),
        WordOp::Sll => Inst::Sll(rd, a, b),
        WordOp::Srl => Inst::Srl(rd, a, b),
        WordOp::Sra => Inst::Sra(rd, a, b),
        WordOp::Slt => Inst::Slt(rd, a, b),
        WordOp::Sltu => Inst::Sltu(rd, a, b),
    }
}

// That with a small number. A difference with one is a sum with its negative.
fn op_with(op: WordOp, rd: Reg, a: Reg, number: u32) -> Inst
    requires { fits_item op number ≡ true }
    ensures { result ≡ op_with op rd a number }
{
    match op {
        WordOp::Add => Inst::Addi(rd, a, small(u64::from(number))),
        WordOp::Sub => Inst::Addi(rd, a, negated(number)),
        WordOp::And => Inst::Andi(rd, a, small(u64::from(number))),
        WordOp::Or => Inst::Ori(rd, a, small(u64::from(number))),
        WordOp::Xor => Inst::Xori(rd, a, small(u64::from(number))),
        WordOp::Sll => Inst::Slli(rd, a, Shift6::new(i64::from(number))),
        WordOp::Srl => Inst::Srli(rd, a, Shift6::new(i64::from(number))),
        WordOp::Sra => Inst::Srai(rd, a, Shift6::new(i64::from(number))),
        WordOp::Slt => Inst::Slti(rd, a, small(u64::from(number))),
        WordOp::Sltu => Inst::Sltiu(rd, a, small(u64::from(number))),
    }
}

// ---- items that compute, load and store

// Adds what an operation on two registers becomes.
fn put_compute(items: &mut RealItems, first: u32, op: WordOp, rd: &VReg, a: &VReg, b: &VReg) -> Put
    ensures { OnOk result (items.new ≡ items.old ++ expand 0 first 0 (VirtualItem.Compute op rd.now a.now b.now)) }
{
    put_fetch(items, first, FIRST_SPILL, a)?;
    put_fetch(items, first, SECOND_SPILL, b)?;
    let i = op_inst(
        op,
        register_for(FIRST_SPILL, rd),
        register_for(FIRST_SPILL, a),
        register_for(SECOND_SPILL, b),
    );
    put(items, i)?;
    put_save(items, first, rd)
}

// Adds an instruction that reads one register and writes another, between what loads the one and what stores the other.
fn put_between(items: &mut RealItems, first: u32, rd: &VReg, a: &VReg, i: Inst) -> Put
    ensures { OnOk result (items.new ≡ items.old ++ (fetch_items first FIRST_SPILL a.now
        ++ (Op i ∷ save_items first rd.now))) }
{
    put_fetch(items, first, FIRST_SPILL, a)?;
    put(items, i)?;
    put_save(items, first, rd)
}

// Adds what an operation with a small number becomes.
fn put_compute_with(
    items: &mut RealItems,
    first: u32,
    op: WordOp,
    rd: &VReg,
    a: &VReg,
    number: u32,
) -> Put
    requires { fits_item op number ≡ true }
    ensures { OnOk result (items.new ≡ items.old ++ expand 0 first 0 (VirtualItem.ComputeWith op rd.now a.now number)) }
{
    let i = op_with(
        op,
        register_for(FIRST_SPILL, rd),
        register_for(FIRST_SPILL, a),
        number,
    );
    put_between(items, first, rd, a, i)
}

// Adds what a load becomes.
fn put_load(items: &mut RealItems, first: u32, rd: &VReg, a: &VReg, offset: u32) -> Put
    requires { offset < 2048 }
    ensures { OnOk result (items.new ≡ items.old ++ expand 0 first 0 (VirtualItem.Load rd.now a.now offset)) }
{
    let i = Inst::Ld(
        register_for(FIRST_SPILL, rd),
        register_for(FIRST_SPILL, a),
        small(u64::from(offset)),
    );
    put_between(items, first, rd, a, i)
}

// Adds what a store becomes.
fn put_store(items: &mut RealItems, first: u32, b: &VReg, a: &VReg, offset: u32) -> Put
    requires { offset < 2048 }
    ensures { OnOk result (items.new ≡ items.old ++ expand 0 first 0 (VirtualItem.Store b.now a.now offset)) }
{
    put_fetch(items, first, FIRST_SPILL, a)?;
    put_fetch(items, first, SECOND_SPILL, b)?;
    let i = Inst::Sd(
        register_for(SECOND_SPILL, b),
        register_for(FIRST_SPILL, a),
        small(u64::from(offset)),
    );
    put(items, i)
}

// Adds what the code address of a procedure becomes.
fn put_address(items: &mut RealItems, first: u32, rd: &VReg, k: u32) -> Put
    ensures { OnOk result (items.new ≡ items.old ++ expand 0 first 0 (VirtualItem.CodeOf rd.now k)) }
{
    put_real(items, RealItem::Address(register_for(FIRST_SPILL, rd), k))?;
    put_save(items, first, rd)
}

// ---- items that go elsewhere

// Adds what a branch becomes.
fn put_branch(items: &mut RealItems, first: u32, cond: Cond, a: &VReg, b: &VReg, mark: u32) -> Put
    ensures { OnOk result (items.new ≡ items.old ++ expand 0 first 0 (VirtualItem.Branch cond a.now b.now mark)) }
{
    put_fetch(items, first, FIRST_SPILL, a)?;
    put_fetch(items, first, SECOND_SPILL, b)?;
    put_real(
        items,
        RealItem::Branch(
            cond,
            register_for(FIRST_SPILL, a),
            register_for(SECOND_SPILL, b),
            mark,
        ),
    )
}

// Adds what a call of a code address becomes.
fn put_call_at(items: &mut RealItems, first: u32, f: &VReg) -> Put
    ensures { OnOk result (items.new ≡ items.old ++ expand 0 first 0 (VirtualItem.CallAt f.now 0)) }
{
    put_fetch(items, first, FIRST_SPILL, f)?;
    put(
        items,
        Inst::Jalr(register(LINK), register_for(FIRST_SPILL, f), small(0)),
    )
}

// Adds what a tail call of a procedure with so many slots becomes.
fn put_tail_call(items: &mut RealItems, count: u32, k: u32) -> Put
    ensures { OnOk result (items.new ≡ items.old ++ expand 0 0 count (VirtualItem.TailCall k 0)) }
{
    put_leave(items, count)?;
    put_real(items, RealItem::Jump(register(ZERO), k))
}

// Adds what its tail call of a code address becomes.
fn put_tail_call_at(items: &mut RealItems, first: u32, count: u32, f: &VReg) -> Put
    ensures { OnOk result (items.new ≡ items.old ++ expand 0 first count (VirtualItem.TailCallAt f.now 0)) }
{
    put_fetch(items, first, SECOND_SPILL, f)?;
    put_leave(items, count)?;
    put(
        items,
        Inst::Jalr(register(ZERO), register_for(SECOND_SPILL, f), small(0)),
    )
}

// Adds what its return becomes.
fn put_return(items: &mut RealItems, count: u32) -> Put
    ensures { OnOk result (items.new ≡ items.old ++ expand 0 0 count VirtualItem.Return) }
{
    put_leave(items, count)?;
    put(items, Inst::Jalr(register(ZERO), register(LINK), small(0)))
}

// Adds what the mark of a procedure with so many slots becomes, told the mark behind which the stack lacks room.
fn put_procedure(items: &mut RealItems, out: u32, k: u32, count: u32) -> Put
    ensures items { OnOk result (items.new ≡ items.old ++ expand out 0 0 (VirtualItem.Procedure k 0 count)) }
    ensures few { count < 2 ^ 32 }
{
    put_real(items, RealItem::Mark(k))?;
    put_enter(items, out, count)
}

// Adds what an item becomes, told that mark, and the first register of the procedure and how many it has.
fn put_item(items: &mut RealItems, out: u32, first: u32, count: u32, item: &VirtualItem) -> Put
    requires { fits item.now ≡ true }
    ensures items { OnOk result (items.new ≡ items.old ++ expand out first count item.now) }
    ensures few { HasFew item.now }
{
    match item {
        VirtualItem::Constant(rd, word) => put_constant(items, first, rd, *word),
        VirtualItem::Move(rd, a) => put_move(items, first, rd, a),
        VirtualItem::Compute(op, rd, a, b) => put_compute(items, first, *op, rd, a, b),
        VirtualItem::ComputeWith(op, rd, a, number) => put_compute_with(
            items, first, *op, rd, a, *number,
        ),
        VirtualItem::Load(rd, a, offset) => put_load(items, first, rd, a, *offset),
        VirtualItem::Store(b, a, offset) => put_store(items, first, b, a, *offset),
        VirtualItem::CodeOf(rd, k) => put_address(items, first, rd, *k),
        VirtualItem::Mark(mark) => put_real(items, RealItem::Mark(*mark)),
        VirtualItem::Procedure(k, _, count) => put_procedure(items, out, *k, *count),
        VirtualItem::Jump(mark) => put_real(items, RealItem::Jump(register(ZERO), *mark)),
        VirtualItem::Branch(cond, a, b, mark) => put_branch(items, first, *cond, a, b, *mark),
        VirtualItem::Call(k, _) => put_real(items, RealItem::Jump(register(LINK), *k)),
        VirtualItem::CallAt(f, _) => put_call_at(items, first, f),
        VirtualItem::TailCall(k, _) => put_tail_call(items, count, *k),
        VirtualItem::TailCallAt(f, _) => put_tail_call_at(items, first, count, f),
        VirtualItem::Return => put_return(items, count),
        VirtualItem::Environment => put(items, Inst::Ecall),
    }
}

// ---- codes

// The least number that isn't below this one and is above an item's mark, if it has one.
fn above_item(least: u32, item: &VirtualItem) -> Result<u32, OutOfMemory>
    ensures { IfOk result (λ next. next ≡ above least (marks (item.now ∷ []))) }
{
    let mark = match item {
        VirtualItem::Mark(mark) => *mark,
        VirtualItem::Procedure(k, _, _) => *k,
        _ => return Ok(least),
    };
    match mark.checked_add(1) {
        Some(next) => Ok(least.max(next)),
        None => Err(OutOfMemory),
    }
}

// A mark that no item has.
fn free_mark(items: &[VirtualItem]) -> Result<u32, OutOfMemory>
    ensures { IfOk result (λ mark. mark ≡ free_mark items.now) }
{
    let mut least = 0;
    for item in items {
        least = above_item(least, item)?;
    }
    Ok(least)
}

// Adds what items become one after another.
fn put_items(real: &mut RealItems, out: u32, items: &[VirtualItem]) -> Put
    requires { each_fits items.now ≡ true }
    ensures items { OnOk result (real.new ≡ real.old ++ expand_all out 0 0 items.now) }
    ensures few { OnOk result (EachHasFew items.now) }
{
    let mut first = 0;
    let mut count = 0;
    for item in items {
        put_item(real, out, first, count, item)?;
        if let VirtualItem::Procedure(_, its_first, its_count) = item {
            first = *its_first;
            count = *its_count;
        }
    }
    Ok(())
}

/// The real code of a virtual one whose small numbers are small enough, in which each virtual register has a slot of
/// its procedure's frame. `OutOfMemory` comes where no memory is left, or where a mark has the number 2^32 - 1.
pub fn slots(alloc: Global, code: &VirtualCode) -> Result<RealCode, OutOfMemory>
    requires { each_fits code.now.items ≡ true }
    ensures { IfOk result (λ real. IsSlotsOf code.now.items real.items) }
{
    let items = code.items.as_slice();
    let out = free_mark(items)?;
    let mut real = RealItems::new(alloc);
    put_items(&mut real, out, items)?;
    put_final(&mut real, out)?;
    Ok(RealCode { items: real })
}
