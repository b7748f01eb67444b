// Whether places fit a code.

ghost use Rattle.std.specs.Prelude.{◌≡◌, ◌<◌, ◌↔◌, ℕ, suc, length, true, IsTrue, OnOk, IfOk, slice_get, option_to_list};
ghost use Rattle.std.specs.Prelude.{Contains};
ghost use Rattle.rv_select.specs.Holding.{place_of, may_hold, NoneAt, SparedByCall, SparedBy, writes};
ghost use Rattle.rv_select.specs.declared.code.VirtualItem.{VirtualItem};
ghost use Rattle.placed_code.specs.Places.{place_in};
ghost use Rattle.placed_code.specs.Check.{AreAllowed, HasHolding};
ghost use Rattle.rv_select.specs.declared.code.Place.TheVariants.{InReg};
ghost use Rattle.reg_assign.specs.Numbers.{register_at};
ghost use Rattle.reg_assign.specs.Flow.{IsKept, IsVirtual, IsListed, IsRead, IsTarget, under};
ghost use Rattle.reg_assign.specs.Walks.{IsIdle};
ghost use Rattle.reg_assign.specs.Fits.{Fit, spot_place, IsBeginning, IsFine};

use crate::assignment::{Assignment, place_at};
use crate::flow::{Flow, flow_of};
use crate::named::{REAL_NUMBERS, writes};
use crate::walks::{Walk, begin, new_walk, next};
use grift_base::lists::OutOfMemory;
use rv_isa::number::Reg;
use rv_select::code::{Place, VReg, VirtualCode, VirtualItem};
use std::alloc::Global;

// Where a register is kept. The real registers beyond x31, which calls with many words name, have one number.
#[derive(Clone, Copy)]
pub(crate) enum Spot {
    Numbered(usize),
    InSlot(u32),
}

// What a place is.
fn spot_at(place: Place) -> Spot
    ensures { spot_place result ≡ place }
{
    match place {
        Place::InReg(r) => Spot::Numbered(r.get() as usize),
        Place::Slot(i) => Spot::InSlot(i),
    }
}

// Where the register of a number is kept.
fn spot_of(places: &[Place], number: usize) -> Result<Spot, OutOfMemory>
    ensures { IfOk result (λ s. spot_place s ≡ place_of (place_in places.now) (register_at number)) }
{
    if number < REAL_NUMBERS {
        return Ok(Spot::Numbered(number));
    }
    let register = u32::try_from(number - REAL_NUMBERS).map_err(|_| OutOfMemory)?;
    Ok(spot_at(place_at(places, register)))
}

// Where a register is kept.
fn spot_of_register(places: &[Place], a: &VReg) -> Spot
    ensures { spot_place result ≡ place_of (place_in places.now) a.now }
{
    match a {
        VReg::Real(r) => Spot::Numbered(r.get() as usize),
        VReg::Virtual(v) => spot_at(place_at(places, *v)),
    }
}

// Whether two places are one.
fn is_same(a: Spot, b: Spot) -> bool
    ensures { IsTrue result ↔ (spot_place a ≡ spot_place b) }
{
    match (a, b) {
        (Spot::Numbered(r), Spot::Numbered(q)) => r == q,
        (Spot::InSlot(i), Spot::InSlot(j)) => i == j,
        _ => false,
    }
}

// Whether a register that is written, if there is one, is kept elsewhere.
fn is_elsewhere(places: &[Place], a: &Option<VReg>, here: Spot) -> bool
    ensures { IsTrue result ↔ NoneAt (place_in places.now) (spot_place here) (option_to_list a.now) }
{
    match a {
        Some(a) => !is_same(spot_of_register(places, a), here),
        None => true,
    }
}

// Whether a call leaves what is at a place.
fn is_spared_by_call(here: Spot) -> bool
    ensures { IsTrue result ↔ SparedByCall (spot_place here) }
{
    match here {
        Spot::Numbered(r) => r == 2 || r == 0 || r == 25 || r == 26 || r == 27,
        Spot::InSlot(_) => true,
    }
}

// Whether the registers that an item writes are kept elsewhere.
fn is_unwritten(places: &[Place], item: &VirtualItem, here: Spot) -> bool
    ensures { IsTrue result ↔ NoneAt (place_in places.now) (spot_place here) (writes item.now) }
{
    let written = writes(item);
    is_elsewhere(places, &written.first, here) && is_elsewhere(places, &written.second, here)
}

// Whether an item leaves what is at a place.
fn is_spared(places: &[Place], item: &VirtualItem, here: Spot) -> bool
    ensures { IsTrue result ↔ SparedBy (place_in places.now) item.now (spot_place here) }
{
    match item {
        VirtualItem::Call(_, _) => is_spared_by_call(here),
        VirtualItem::CallAt(_, _) => is_spared_by_call(here),
        other => is_unwritten(places, other, here),
    }
}

// Whether the item at a place, if one stands there, leaves what is at a place.
fn is_spared_at(places: &[Place], items: &[VirtualItem], place: usize, here: Spot) -> bool
    ensures { IsTrue result ↔ ((item : VirtualItem) → slice_get items.now place ≡ Some item
        → SparedBy (place_in places.now) item (spot_place here)) }
{
    match items.get(place) {
        Some(item) => is_spared(places, item, here),
        None => true,
    }
}

// Whether no virtual register has a word before the item at a place.
fn is_beginning(items: &[VirtualItem], place: usize) -> bool
    ensures { IsTrue result ↔ IsBeginning items.now place }
{
    place == 0 || matches!(items.get(place), Some(VirtualItem::Procedure(_, _, _)))
}

// Whether the register of a number may be needed behind the item at a place, told where it is kept.
fn is_fine(places: &[Place], items: &[VirtualItem], number: usize, here: Spot, place: usize) -> bool
    requires { spot_place here ≡ place_of (place_in places.now) (register_at number) }
    ensures { IsTrue result ↔ IsFine items.now (place_in places.now) (register_at number) place }
{
    if number >= REAL_NUMBERS && is_beginning(items, place) {
        return false;
    }
    is_spared_at(places, items, place, here)
}

// Whether no virtual register is read by the first item.
fn is_unread_at_start(flow: &Flow, number: usize) -> bool
    ensures { IsTrue result ↔ (IsVirtual (register_at number) → Contains (under flow.now.reads number) 0 → ⊥) }
{
    number < REAL_NUMBERS || !flow.reads.under(number).contains(&0)
}

// Whether the register of a number is kept wherever it is needed.
fn is_kept(
    walk: &mut Walk,
    items: &[VirtualItem],
    flow: &Flow,
    places: &[Place],
    number: usize,
) -> Result<bool, OutOfMemory>
    requires idle { IsIdle (length items.now) number walk.old }
    requires reads { IsListed IsRead items.now (under flow.now.reads) }
    requires sources { IsListed IsTarget items.now (under flow.now.sources) }
    ensures idle { OnOk result (IsIdle (length items.now) (suc number) walk.new) }
    ensures kept { IfOk result (λ kept. IsTrue kept
        ↔ IsKept items.now (place_in places.now) (register_at number)) }
{
    let here = spot_of(places, number)?;
    begin(walk, items, flow, number)?;
    while let Some(place) = next(walk, items, flow)? {
        if !is_fine(places, items, number, here, place) {
            return Ok(false);
        }
    }
    Ok(is_unread_at_start(flow, number))
}

// Whether each register of the code is kept wherever it is needed.
fn are_kept(alloc: Global, items: &[VirtualItem], places: &[Place]) -> Result<bool, OutOfMemory>
    requires { AreAllowed (place_in places.now) }
    ensures { IfOk result (λ kept. IsTrue kept ↔ HasHolding items.now (place_in places.now)) }
{
    let flow = flow_of(alloc, items)?;
    let mut walk = new_walk(alloc, items.len())?;
    for number in 0..flow.reads.bound() {
        let kept = is_kept(&mut walk, items, &flow, places, number)?;
        if !kept {
            return Ok(false);
        }
    }
    Ok(true)
}

// Whether a real register may hold a virtual one.
fn may_hold(r: Reg) -> bool
    ensures { result ≡ may_hold r }
{
    let r = r.get();
    r >= 3 && r < 25
}

// Whether a place is none of those registers.
fn is_allowed(place: &Place) -> bool
    ensures { IsTrue result ↔ ((r : ℕ) → place.now ≡ InReg r → may_hold r ≡ true) }
{
    match place {
        Place::InReg(r) => may_hold(*r),
        Place::Slot(_) => true,
    }
}

// Whether no place is a real register that code or the machine needs.
fn are_allowed(places: &[Place]) -> bool
    ensures { IsTrue result ↔ AreAllowed (place_in places.now) }
{
    for place in places {
        if !is_allowed(place) {
            return false;
        }
    }
    true
}

/// Whether an assignment fits a code: it has a place for each virtual register, none of them x0, x1, x2, x25, x26, x27
/// or one from x28 on, and whatever path is taken, each read finds the word that was written last. A register that the
/// assignment has no place for counts as kept in the slot of its number. `OutOfMemory` comes where no memory is left,
/// and where a register or a mark has a number that is too large for a list with an entry for each number below.
pub fn check(
    alloc: Global,
    code: &VirtualCode,
    assignment: &Assignment,
) -> Result<bool, OutOfMemory>
    ensures { IfOk result (λ fits.
        IsTrue fits ↔ Fit code.now.items code.now.registers assignment.now.places) }
{
    let places = assignment.places.as_slice();
    if places.len() < code.registers as usize {
        return Ok(false);
    }
    if !are_allowed(places) {
        return Ok(false);
    }
    are_kept(alloc, code.items.as_slice(), places)
}
