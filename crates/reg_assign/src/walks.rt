// Walks back from where a register is read to all items behind which it is needed.

ghost use Rattle.std.specs.Prelude.{◌≡◌, ◌<◌, ◌≤◌, ◌+◌, ℕ, suc, [], length, None, OnOk, IfOk, MatchOption, All};
ghost use Rattle.std.specs.Prelude.{Contains, slice_get, true};
ghost use Rattle.std.specs.Option.{option_copied};
ghost use Rattle.rv_select.specs.Holding.{Among, writes, has_next, target};
ghost use Rattle.rv_select.specs.declared.code.VirtualItem.{VirtualItem};
ghost use Rattle.placed_code.specs.Check.{Needed};
ghost use Rattle.reg_assign.specs.Numbers.{register_at};
ghost use Rattle.reg_assign.specs.Flow.{IsListed, IsRead, IsTarget, under};
ghost use Rattle.reg_assign.specs.Walks.{IsIdle, IsWalk, Grows, Reaches, IsClosed, Leads, Steps};

use crate::flow::Flow;
use crate::named::{has_next, is_written, mark_of};
use grift_base::lists::OutOfMemory;
use rv_select::code::VirtualItem;
use std::alloc::Global;

/// A walk for the register of a number: the places found so far, and how many of them were gone on from. A place where
/// the register's number and one more is noted was found.
#[derive(Drop)]
pub(crate) struct Walk {
    pub number: usize,
    pub found: Vec<usize>,
    pub done: usize,
    pub seen: Vec<usize>,
}

/// A walk through a code of so many items, before the first register.
pub(crate) fn new_walk(alloc: Global, length: usize) -> Result<Walk, OutOfMemory>
    ensures { IfOk result (λ walk. IsIdle length 0 walk) }
{
    Ok(Walk {
        number: 0,
        found: Vec::new(alloc),
        done: 0,
        seen: vec![in alloc; 0; length]?,
    })
}

/// What comes of going on: want of memory, or else nothing.
pub(crate) type Walked = Result<(), OutOfMemory>;

// The item at a place, if one stands there.
pub(crate) fn item_at(items: &[VirtualItem], place: usize) -> Option<&VirtualItem>
    ensures { option_copied result ≡ slice_get items.now place }
{
    items.get(place)
}

// Finds a place, if its item doesn't write the register and it wasn't found before.
fn reach(walk: &mut Walk, items: &[VirtualItem], place: usize) -> Walked
    requires walk { IsWalk items.now walk.old }
    requires leads { Leads items.now (register_at walk.old.number) place }
    ensures walk { OnOk result (IsWalk items.now walk.new) }
    ensures grows { OnOk result (Grows walk.old walk.new) }
    ensures there { OnOk result ((item : VirtualItem) → slice_get items.now place ≡ Some item
        → (Among (register_at walk.old.number) (writes item) → ⊥) → Contains walk.new.found.items place) }
{
    let Some(item) = item_at(items, place) else {
        return Ok(());
    };
    if is_written(item, walk.number) || walk.seen[place] == walk.number + 1 {
        return Ok(());
    }
    walk.seen[place] = walk.number + 1;
    walk.found.push(place)?;
    Ok(())
}

// Finds the place before one, if its item goes on at the next.
fn reach_before(walk: &mut Walk, items: &[VirtualItem], place: usize) -> Walked
    requires walk { IsWalk items.now walk.old }
    requires needed { Needed items.now place (register_at walk.old.number) }
    ensures walk { OnOk result (IsWalk items.now walk.new) }
    ensures grows { OnOk result (Grows walk.old walk.new) }
    ensures there { OnOk result ((p : ℕ) (item : VirtualItem) → slice_get items.now p ≡ Some item
        → has_next item ≡ true → place ≡ suc p
        → (Among (register_at walk.old.number) (writes item) → ⊥) → Contains walk.new.found.items p) }
{
    if place == 0 {
        return Ok(());
    }
    let Some(item) = items.get(place - 1) else {
        return Ok(());
    };
    if !has_next(item) {
        return Ok(());
    }
    reach(walk, items, place - 1)
}

// Finds the places of the items that go to the mark that stands at a place, if one does.
fn reach_sources(walk: &mut Walk, items: &[VirtualItem], flow: &Flow, place: usize) -> Walked
    requires walk { IsWalk items.now walk.old }
    requires sources { IsListed IsTarget items.now (under flow.now.sources) }
    requires needed { Needed items.now place (register_at walk.old.number) }
    ensures walk { OnOk result (IsWalk items.now walk.new) }
    ensures grows { OnOk result (Grows walk.old walk.new) }
    ensures there { OnOk result ((m p : ℕ) (item : VirtualItem) → slice_get items.now place ≡ Some (VirtualItem.Mark m)
        → slice_get items.now p ≡ Some item → target item ≡ Some m
        → (Among (register_at walk.old.number) (writes item) → ⊥) → Contains walk.new.found.items p) }
{
    let Some(item) = item_at(items, place) else {
        return Ok(());
    };
    let Some(mark) = mark_of(item) else {
        return Ok(());
    };
    for source in flow.sources.under(mark as usize) {
        reach(walk, items, *source)?;
    }
    Ok(())
}

// Finds the places from which the walk comes to a place where the register is needed.
fn expand(walk: &mut Walk, items: &[VirtualItem], flow: &Flow, place: usize) -> Walked
    requires walk { IsWalk items.now walk.old }
    requires sources { IsListed IsTarget items.now (under flow.now.sources) }
    requires needed { Needed items.now place (register_at walk.old.number) }
    ensures walk { OnOk result (IsWalk items.now walk.new) }
    ensures grows { OnOk result (Grows walk.old walk.new) }
    ensures reaches { OnOk result
        (Reaches items.now (register_at walk.old.number) walk.new.found.items place) }
{
    reach_before(walk, items, place)?;
    reach_sources(walk, items, flow, place)?;
    Ok(())
}

/// Begins the walk for the register of a number, which isn't below that of an earlier one.
pub(crate) fn begin(walk: &mut Walk, items: &[VirtualItem], flow: &Flow, number: usize) -> Walked
    requires idle { IsIdle (length items.now) number walk.old }
    requires reads { IsListed IsRead items.now (under flow.now.reads) }
    requires sources { IsListed IsTarget items.now (under flow.now.sources) }
    ensures number { OnOk result (walk.new.number ≡ number) }
    ensures none { OnOk result (walk.new.done ≡ 0) }
    ensures walk { OnOk result (IsWalk items.now walk.new) }
    ensures closed { OnOk result (IsClosed items.now walk.new) }
{
    if number >= usize::MAX - 1 {
        return Err(OutOfMemory);
    }
    walk.number = number;
    walk.found.clear();
    walk.done = 0;
    for place in flow.reads.under(number) {
        expand(walk, items, flow, *place)?;
    }
    Ok(())
}

/// The next place of the walk; none exactly where all were given.
pub(crate) fn next(
    walk: &mut Walk,
    items: &[VirtualItem],
    flow: &Flow,
) -> Result<Option<usize>, OutOfMemory>
    requires walk { IsWalk items.now walk.old }
    requires closed { IsClosed items.now walk.old }
    requires sources { IsListed IsTarget items.now (under flow.now.sources) }
    ensures walk { OnOk result (IsWalk items.now walk.new) }
    ensures closed { OnOk result (IsClosed items.now walk.new) }
    ensures step { IfOk result (λ found. Steps walk.old walk.new found) }
{
    if walk.done == walk.found.len() {
        return Ok(None);
    }
    let place = walk.found[walk.done];
    walk.done += 1;
    expand(walk, items, flow, place)?;
    Ok(Some(place))
}
