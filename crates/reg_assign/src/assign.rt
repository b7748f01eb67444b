// Real registers for virtual ones, as many as there is room for.

ghost use Rattle.std.specs.Prelude.{◌≡◌, ◌<◌, ◌+◌, ℕ, suc, length, true, IsTrue, OnOk, IfOk, IfSome, None, All};
ghost use Rattle.std.specs.Prelude.{Contains};
ghost use Rattle.std.specs.Prelude.{slice_get, slice_index, option_to_list};
ghost use Rattle.std.specs.Int.{bit_at};
ghost use Rattle.rv_select.specs.Holding.{may_hold, NoneAt, SparedBy, writes};
ghost use Rattle.rv_select.specs.declared.code.Place.TheVariants.{InReg, Slot};
ghost use Rattle.rv_select.specs.declared.code.VirtualItem.{VirtualItem};
ghost use Rattle.placed_code.specs.Places.{place_in};
ghost use Rattle.placed_code.specs.Check.{HasHolding, with_place};
ghost use Rattle.reg_assign.specs.Flow.{IsListed, IsRead, IsWritten, IsTarget, under};
ghost use Rattle.reg_assign.specs.Walks.{IsIdle, IsWalk, IsClosed};
ghost use Rattle.reg_assign.specs.Room.{Tells, IsRoom, IsChosen, IsBest, IsTaken, IsLeft};

use crate::assignment::{Assignment, Places, place_at};
use crate::flow::{Flow, flow_of};
use crate::named::{REAL_NUMBERS, writes};
use crate::walks::{Walk, begin, item_at, new_walk, next};
use grift_base::lists::OutOfMemory;
use rv_isa::number::Reg;
use rv_select::code::{Place, VReg, VirtualCode, VirtualItem};
use std::alloc::Global;

// The real registers that may hold virtual ones, x3 to x24, as bits.
const HOLDING: u32 = 0x01FF_FFF8;

// The real registers that are in use behind each item, as bits, and the walks that told so.
#[derive(Drop)]
struct Room {
    walk: Walk,
    busy: Vec<u32>,
}

// ---- real registers as bits

// A real register.
fn register(number: u8) -> Reg
    requires { number < 32 }
    ensures { result ≡ number }
{
    Reg::new(i64::from(number))
}

// The number of a real register.
fn number_in(r: Reg) -> u32
    ensures value { result ≡ r }
    ensures below { result < 32 }
{
    r.get() as u32
}

// The bit of a real register.
fn bit(r: Reg) -> u32
    ensures same { bit_at result r ≡ 1 }
    ensures other { (q : ℕ) → (q ≡ r → ⊥) → bit_at result q ≡ 0 }
{
    1 << number_in(r)
}

// The bit of the real register in which a register that is written is kept, if there is one and it is kept so.
fn bit_of(places: &[Place], a: &Option<VReg>) -> u32
    ensures { Tells (λ r. NoneAt (place_in places.now) (InReg r) (option_to_list a.now)) result }
{
    match a {
        Some(VReg::Real(r)) => bit(*r),
        Some(VReg::Virtual(v)) => match place_at(places, *v) {
            Place::InReg(r) => bit(r),
            Place::Slot(_) => 0,
        },
        None => 0,
    }
}

// The real registers in which the registers that an item writes are kept.
fn written_bits(places: &[Place], item: &VirtualItem) -> u32
    ensures { Tells (λ r. NoneAt (place_in places.now) (InReg r) (writes item.now)) result }
{
    let written = writes(item);
    bit_of(places, &written.first) | bit_of(places, &written.second)
}

// The real registers in which an item changes words.
fn changes(places: &[Place], item: &VirtualItem) -> u32
    ensures { Tells (λ r. SparedBy (place_in places.now) item.now (InReg r)) result }
{
    match item {
        VirtualItem::Call(_, _) => u32::MAX,
        VirtualItem::CallAt(_, _) => u32::MAX,
        _ => written_bits(places, item),
    }
}

// The real registers in use behind the item at a place.
fn bits_at(busy: &[u32], place: usize) -> u32
    ensures { result ≡ slice_index busy.now place }
{
    match busy.get(place) {
        Some(bits) => *bits,
        None => 0,
    }
}

// The real registers in use behind the items at some places.
fn in_use(busy: &[u32], at: &[usize]) -> u32
    ensures { Tells (λ r. (j : ℕ) → j < length at.now
        → bit_at (slice_index busy.now (slice_index at.now j)) r ≡ 0) result }
{
    let mut taken = 0;
    for place in at {
        taken |= bits_at(busy, *place);
    }
    taken
}

// Whether no real register is left.
fn is_full(taken: u32) -> bool
    ensures { IsTrue result → (r : ℕ) → may_hold r ≡ true → bit_at taken r ≡ 1 }
{
    taken & HOLDING == HOLDING
}

// A real register that is left.
fn free(taken: u32) -> Option<Reg>
    ensures some { IfSome result (λ r. (may_hold r ≡ true) × (bit_at taken r ≡ 0)) }
    ensures none { result ≡ None → (r : ℕ) → may_hold r ≡ true → bit_at taken r ≡ 1 }
{
    for r in 3..25u8 {
        if (taken >> r) & 1 == 0 {
            return Some(Reg::new(i64::from(r)));
        }
    }
    None
}

// Whether a real register may hold others and is left.
fn is_left(taken: u32, r: Reg) -> bool
    ensures { IsTrue result → (may_hold r ≡ true) × (bit_at taken r ≡ 0) }
{
    let number = number_in(r);
    3 <= number && number < 25 && (taken >> number) & 1 == 0
}

// ---- moves

// The real register that a register is or is kept in, if there is one.
fn real_of(places: &[Place], a: &VReg) -> Option<Reg> {
    match a {
        VReg::Real(r) => Some(*r),
        VReg::Virtual(v) => match place_at(places, *v) {
            Place::InReg(r) => Some(r),
            Place::Slot(_) => None,
        },
    }
}

// The real register to or from which an item moves the word of a virtual one, if it does.
fn moved(places: &[Place], item: &VirtualItem, v: u32) -> Option<Reg> {
    match item {
        VirtualItem::Move(VReg::Virtual(to), a) if *to == v => real_of(places, a),
        VirtualItem::Move(a, VReg::Virtual(from)) if *from == v => real_of(places, a),
        _ => None,
    }
}

// The real register to or from which the item at a place moves the word of a virtual one, if it does.
fn wished_at(places: &[Place], items: &[VirtualItem], place: usize, v: u32) -> Option<Reg> {
    match item_at(items, place) {
        Some(item) => moved(places, item, v),
        None => None,
    }
}

// A real register that is left and to or from which an item at one of these places moves the word of a virtual one.
fn wished(places: &[Place], items: &[VirtualItem], at: &[usize], v: u32, taken: u32) -> Option<Reg>
    ensures { IfSome result (λ r. (may_hold r ≡ true) × (bit_at taken r ≡ 0)) }
{
    for place in at {
        if let Some(r) = wished_at(places, items, *place, v) {
            if is_left(taken, r) {
                return Some(r);
            }
        }
    }
    None
}

// A real register that is left for a virtual one, so that a move of its word becomes nothing if there is such a one.
fn choose(places: &[Place], items: &[VirtualItem], flow: &Flow, v: u32, taken: u32) -> Option<Reg>
    ensures some { IfSome result (λ r. (may_hold r ≡ true) × (bit_at taken r ≡ 0)) }
    ensures none { result ≡ None → (r : ℕ) → may_hold r ≡ true → bit_at taken r ≡ 1 }
{
    if is_full(taken) {
        return None;
    }
    let number = REAL_NUMBERS + v as usize;
    if let Some(r) = wished(places, items, flow.writes.under(number), v, taken) {
        return Some(r);
    }
    if let Some(r) = wished(places, items, flow.reads.under(number), v, taken) {
        return Some(r);
    }
    free(taken)
}

// ---- where a register is needed

// The real registers in which the item at a place, if one stands there, changes words.
fn changes_at(places: &[Place], items: &[VirtualItem], place: usize) -> u32
    ensures { Tells (λ r. (item : VirtualItem) → slice_get items.now place ≡ Some item
        → SparedBy (place_in places.now) item (InReg r)) result }
{
    match item_at(items, place) {
        Some(item) => changes(places, item),
        None => 0,
    }
}

// Goes on to the end of a walk.
fn finish(walk: &mut Walk, items: &[VirtualItem], flow: &Flow) -> Result<(), OutOfMemory>
    requires walk { IsWalk items.now walk.old }
    requires closed { IsClosed items.now walk.old }
    requires sources { IsListed IsTarget items.now (under flow.now.sources) }
    ensures number { OnOk result (walk.new.number ≡ walk.old.number) }
    ensures walk { OnOk result (IsWalk items.now walk.new) }
    ensures closed { OnOk result (IsClosed items.now walk.new) }
    ensures all { OnOk result (walk.new.done ≡ length walk.new.found.items) }
{
    while let Some(_place) = next(walk, items, flow)? {}
    Ok(())
}

// The real registers that are taken for the register of a number, told some that are: those in which an item changes
// words behind which it is needed. Where all are taken the walk may end early.
fn gather(
    walk: &mut Walk,
    items: &[VirtualItem],
    flow: &Flow,
    places: &[Place],
    number: usize,
    taken: u32,
) -> Result<u32, OutOfMemory>
    requires idle { IsIdle (length items.now) number walk.old }
    requires reads { IsListed IsRead items.now (under flow.now.reads) }
    requires sources { IsListed IsTarget items.now (under flow.now.sources) }
    ensures idle { OnOk result (IsIdle (length items.now) (suc number) walk.new) }
    ensures taken { IfOk result (λ all. (r : ℕ) → may_hold r ≡ true → bit_at all r ≡ 1
        → IsTaken items.now (place_in places.now) number taken r) }
    ensures left { IfOk result (λ all. (r : ℕ) → may_hold r ≡ true → bit_at all r ≡ 0
        → IsLeft items.now (place_in places.now) number taken r walk.new) }
{
    let mut all = taken;
    begin(walk, items, flow, number)?;
    while let Some(place) = next(walk, items, flow)? {
        all |= changes_at(places, items, place);
        if is_full(all) {
            return Ok(all);
        }
    }
    Ok(all)
}

// Notes that a real register is in use behind the items at these places.
fn note_busy(busy: &mut Vec<u32>, found: &[usize], r: Reg)
    requires { All (λ p. p < length busy.old.items) found.now }
    ensures size { length busy.new.items ≡ length busy.old.items }
    ensures other { (p q : ℕ) → (q ≡ r → ⊥)
        → bit_at (slice_index busy.new.items p) q ≡ bit_at (slice_index busy.old.items p) q }
    ensures found { (p : ℕ) → Contains found.now p → bit_at (slice_index busy.new.items p) r ≡ 1 }
    ensures still { (p : ℕ) → (Contains found.now p → ⊥) → slice_index busy.new.items p ≡ slice_index busy.old.items p }
{
    for place in found {
        let bits = busy[*place] | bit(r);
        busy[*place] = bits;
    }
}

// The place of a register, told those of the registers before it: a real register that is free for it, or else the slot
// of its number.
fn place_for(
    room: &mut Room,
    items: &[VirtualItem],
    flow: &Flow,
    places: &[Place],
    v: u32,
) -> Result<Place, OutOfMemory>
    requires last { length places.now ≡ v }
    requires room { IsRoom items.now (place_in places.now) (33 + v) room.old }
    requires reads { IsListed IsRead items.now (under flow.now.reads) }
    requires writes { IsListed IsWritten items.now (under flow.now.writes) }
    requires sources { IsListed IsTarget items.now (under flow.now.sources) }
    ensures chosen { IfOk result (λ p. IsChosen items.now (place_in places.now) v p) }
    ensures room { IfOk result (λ p.
        IsRoom items.now (with_place (place_in places.now) v p) (suc (33 + v)) room.new) }
{
    let number = REAL_NUMBERS + v as usize;
    let written = in_use(room.busy.as_slice(), flow.writes.under(number));
    let taken = gather(&mut room.walk, items, flow, places, number, written)?;
    match choose(places, items, flow, v, taken) {
        Some(r) => {
            note_busy(&mut room.busy, room.walk.found.as_slice(), r);
            Ok(Place::InReg(r))
        }
        None => Ok(Place::Slot(v)),
    }
}

// What is noted of a code before its first virtual register has a place.
fn new_room(alloc: Global, items: &[VirtualItem], flow: &Flow) -> Result<Room, OutOfMemory>
    requires holds { HasHolding items.now (λ v. Slot v) }
    requires reads { IsListed IsRead items.now (under flow.now.reads) }
    requires sources { IsListed IsTarget items.now (under flow.now.sources) }
    ensures { IfOk result (λ room. IsRoom items.now (λ v. Slot v) 33 room) }
{
    let mut walk = new_walk(alloc, items.len())?;
    let mut busy = vec![in alloc; 0u32; items.len()]?;
    for r in 3..25u8 {
        begin(&mut walk, items, flow, r as usize)?;
        finish(&mut walk, items, flow)?;
        note_busy(&mut busy, walk.found.as_slice(), register(r));
    }
    Ok(Room { walk, busy })
}

/// An assignment that fits a code which has a holding where each virtual register has a slot of its own. Where it gives
/// a register a slot, no holding exists with any real register that may hold one in that place, all others as they are.
/// `OutOfMemory` comes where no memory is left, and where a register or a mark has a number that is too large for a
/// list with an entry for each number below.
pub fn assign(alloc: Global, code: &VirtualCode) -> Result<Assignment, OutOfMemory>
    requires { HasHolding code.now.items (λ v. Slot v) }
    ensures { IfOk result (λ a. IsBest code.now.items code.now.registers a.places) }
{
    let items = code.items.as_slice();
    let flow = flow_of(alloc, items)?;
    let mut room = new_room(alloc, items, &flow)?;
    let mut places = Places::new(alloc);
    for v in 0..code.registers {
        let place = place_for(&mut room, items, &flow, places.as_slice(), v)?;
        places.push(place)?;
    }
    Ok(Assignment { places })
}
