// The real code of a virtual one whose registers have places: its registers are renamed, and those that are left get
// slots.

ghost use Rattle.std.specs.Prelude.{◌≡◌, ◌<◌, ◌^◌, ◌+◌, ◌++◌, true, IfOk, OnOk, ℕ};
ghost use Rattle.rv_select.specs.Fitting.{each_fits};
ghost use Rattle.rv_select.specs.Holding.{place_of};
ghost use Rattle.placed_code.specs.Slotted.{EachHasFew};
ghost use Rattle.placed_code.specs.Places.{place_in};
ghost use Rattle.placed_code.specs.Rename.{densely, kept_in, index_of, named, rename, rename_all, renamed};
ghost use Rattle.placed_code.specs.Check.{HasHolding};
ghost use Rattle.placed_code.specs.Applied.{IsApplied};

use crate::assignment::{Assignment, place_at};
use crate::slots::slots;
use grift_base::lists::OutOfMemory;
use indexmap::IndexSet;
use rv_machine::real::RealCode;
use rv_select::code::{Place, VReg, VirtualCode, VirtualItem, VirtualItems};
use std::alloc::Global;

// The slots of a procedure, each once, in the order of the first register that is kept in it, and that procedure's
// first register.
struct Kept {
    first: u32,
    slots: IndexSet<u32>,
}

// By hand, so that each exit at which slots are alive has one call in its proof, and not all that is in a set.
impl Drop for Kept {
    fn drop(self) {
        let Kept { first: _, slots } = self;
        drop(slots);
    }
}

// The sum of two numbers, where it is below 2^32.
fn sum(a: u32, b: u32) -> Result<u32, OutOfMemory>
    ensures { IfOk result (λ c. c ≡ a + b) }
{
    match a.checked_add(b) {
        Some(c) => Ok(c),
        None => Err(OutOfMemory),
    }
}

// A number, where it is below 2^32.
fn narrow(number: usize) -> Result<u32, OutOfMemory>
    ensures { IfOk result (λ n. n ≡ number) }
{
    match u32::try_from(number) {
        Ok(n) => Ok(n),
        Err(_) => Err(OutOfMemory),
    }
}

// The slots of the procedure that has so many registers from a number on.
fn slots_kept(alloc: Global, places: &[Place], first: u32, count: u32) -> Result<Kept, OutOfMemory>
    ensures kept { IfOk result (λ kept.
        (kept.first ≡ first) × (kept.slots.keys ≡ kept_in (place_in places.now) first count)) }
    ensures few { count < 2 ^ 32 }
{
    let mut slots = IndexSet::new(alloc);
    for i in 0..count {
        let number = sum(first, i)?;
        if let Place::Slot(slot) = place_at(places, number) {
            slots.insert(slot)?;
        }
    }
    Ok(Kept { first, slots })
}

// Where a slot stands among others, or how many those are.
fn index_in(slots: &IndexSet<u32>, slot: u32) -> usize
    ensures { result ≡ index_of slot slots.now.keys }
{
    match slots.get_index_of(&slot) {
        Some(index) => index,
        None => slots.len(),
    }
}

// The virtual register that stands for a slot of that procedure.
fn slot_name(kept: &Kept, slot: u32) -> Result<VReg, OutOfMemory>
    ensures { IfOk result (λ a. a ≡ VReg.Virtual (kept.now.first + index_of slot kept.now.slots.keys)) }
{
    let index = narrow(index_in(&kept.slots, slot))?;
    Ok(VReg::Virtual(sum(kept.first, index)?))
}

// The register that stands for a register in that procedure.
fn new_name(places: &[Place], kept: &Kept, a: &VReg) -> Result<VReg, OutOfMemory>
    ensures { IfOk result (λ b.
        b ≡ named (λ slot. kept.now.first + index_of slot kept.now.slots.keys) (place_of (place_in places.now) a.now)) }
{
    match a {
        VReg::Real(r) => Ok(VReg::Real(*r)),
        VReg::Virtual(number) => match place_at(places, *number) {
            Place::InReg(r) => Ok(VReg::Real(r)),
            Place::Slot(slot) => slot_name(kept, slot),
        },
    }
}

// ---- items

// An item with the registers that stand for its own.
fn rename_item(
    places: &[Place],
    kept: &Kept,
    item: &VirtualItem,
) -> Result<VirtualItem, OutOfMemory>
    ensures { IfOk result (λ renamed. renamed
        ≡ rename (λ a. named (λ slot. kept.now.first + index_of slot kept.now.slots.keys)
        (place_of (place_in places.now) a)) item.now) }
{
    match item {
        VirtualItem::Constant(rd, word) => Ok(VirtualItem::Constant(
            new_name(places, kept, rd)?,
            *word,
        )),
        VirtualItem::Move(rd, a) => {
            let rd = new_name(places, kept, rd)?;
            Ok(VirtualItem::Move(rd, new_name(places, kept, a)?))
        }
        VirtualItem::Compute(op, rd, a, b) => {
            let rd = new_name(places, kept, rd)?;
            let a = new_name(places, kept, a)?;
            Ok(VirtualItem::Compute(*op, rd, a, new_name(places, kept, b)?))
        }
        VirtualItem::ComputeWith(op, rd, a, number) => {
            let rd = new_name(places, kept, rd)?;
            Ok(VirtualItem::ComputeWith(*op, rd, new_name(places, kept, a)?, *number))
        }
        VirtualItem::Load(rd, a, offset) => {
            let rd = new_name(places, kept, rd)?;
            Ok(VirtualItem::Load(rd, new_name(places, kept, a)?, *offset))
        }
        VirtualItem::Store(b, a, offset) => {
            let b = new_name(places, kept, b)?;
            Ok(VirtualItem::Store(b, new_name(places, kept, a)?, *offset))
        }
        VirtualItem::CodeOf(rd, k) => Ok(VirtualItem::CodeOf(new_name(places, kept, rd)?, *k)),
        VirtualItem::Branch(cond, a, b, mark) => {
            let a = new_name(places, kept, a)?;
            Ok(VirtualItem::Branch(*cond, a, new_name(places, kept, b)?, *mark))
        }
        VirtualItem::CallAt(f, n) => Ok(VirtualItem::CallAt(new_name(places, kept, f)?, *n)),
        VirtualItem::TailCallAt(f, n) => Ok(VirtualItem::TailCallAt(
            new_name(places, kept, f)?,
            *n,
        )),
        other => Ok(*other),
    }
}

// Adds items one after another, each with the registers that stand for its own.
fn put_renamed(
    alloc: Global,
    places: &[Place],
    items: &[VirtualItem],
    renamed: &mut VirtualItems,
) -> Result<(), OutOfMemory>
    ensures items { OnOk result
        (renamed.new ≡ renamed.old ++ rename_all (densely (place_in places.now)) 0 0 items.now) }
    ensures few { OnOk result (EachHasFew items.now) }
{
    let mut kept = slots_kept(alloc, places, 0, 0)?;
    for item in items {
        if let VirtualItem::Procedure(k, first, count) = item {
            kept = slots_kept(alloc, places, *first, *count)?;
            let slots = narrow(kept.slots.len())?;
            renamed.push(VirtualItem::Procedure(*k, *first, slots))?;
        } else {
            let other = rename_item(places, &kept, item)?;
            renamed.push(other)?;
        }
    }
    Ok(())
}

/// The real code of a virtual one with these places: a register that is kept in a real one is that one, and each other
/// has a slot of its procedure's frame. `OutOfMemory` comes where no memory is left, and where a mark or a register
/// would get a number above 2^32 - 1.
pub fn apply(
    alloc: Global,
    code: &VirtualCode,
    assignment: &Assignment,
) -> Result<RealCode, OutOfMemory>
    requires holds { HasHolding code.now.items (place_in assignment.now.places) }
    requires small { each_fits code.now.items ≡ true }
    ensures { IfOk result (λ real. IsApplied (place_in assignment.now.places) code.now.items real.items) }
{
    let mut items = VirtualItems::new(alloc);
    put_renamed(
        alloc,
        assignment.places.as_slice(),
        code.items.as_slice(),
        &mut items,
    )?;
    let renamed = VirtualCode {
        items,
        registers: code.registers,
    };
    slots(alloc, &renamed)
}
