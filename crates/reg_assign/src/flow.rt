// The items of a code by the registers that they read and write and by the marks that they go to.

ghost use Rattle.std.specs.Prelude.{◌≡◌, OnOk, IfOk, option_to_list};
ghost use Rattle.rv_select.specs.Holding.{Among, handed_on};
ghost use Rattle.reg_assign.specs.Numbers.{register_at};
ghost use Rattle.reg_assign.specs.Flow.{Adds, IsListed, IsRead, IsWritten, IsTarget, IsTold, ReadsTold};
ghost use Rattle.reg_assign.specs.Flow.{WritesTold, EachTold, under};
ghost use Rattle.rv_select.specs.declared.code.VReg.{VReg};

use crate::named::{number_of, reads, target, writes};
use crate::positions::Positions;
use grift_base::lists::OutOfMemory;
use rv_select::code::{VReg, VirtualItem};
use std::alloc::Global;

// The number of the first register that hands on words.
const FIRST_WORD: usize = 10;

// How many words are handed on in registers that have numbers of their own; the last of them stands for all beyond.
const WORDS_TOLD_APART: u32 = 23;

/// The places of a code's items: those that read a register and those that write it, by its number, and those that go
/// to a mark, by the mark.
#[derive(Drop)]
pub(crate) struct Flow {
    pub reads: Positions,
    pub writes: Positions,
    pub sources: Positions,
}

// Adds a place under the number of a register.
fn note(lists: &mut Positions, a: &Option<VReg>, place: usize) -> Result<(), OutOfMemory>
    ensures added { OnOk result
        (Adds (λ k. Among (register_at k) (option_to_list a.now)) place (under lists.old) (under lists.new)) }
    ensures told { (x : VReg) → Among x (option_to_list a.now) → IsTold x }
{
    match a {
        Some(a) => lists.push(number_of(a), place),
        None => Ok(()),
    }
}

// Adds a place under the numbers of the registers that hand on so many words.
fn note_words(lists: &mut Positions, words: u32, place: usize) -> Result<(), OutOfMemory>
    ensures { OnOk result
        (Adds (λ k. Among (register_at k) (handed_on 0 words)) place (under lists.old) (under lists.new)) }
{
    for i in 0..words.min(WORDS_TOLD_APART) {
        lists.push(FIRST_WORD + i as usize, place)?;
    }
    Ok(())
}

// Adds the place of an item under the numbers of the registers that it reads.
fn note_reads(lists: &mut Positions, item: &VirtualItem, place: usize) -> Result<(), OutOfMemory>
    ensures added { OnOk result (Adds (IsRead item.now) place (under lists.old) (under lists.new)) }
    ensures told { OnOk result (ReadsTold item.now) }
{
    let read = reads(item);
    note(lists, &read.first, place)?;
    note(lists, &read.second, place)?;
    note_words(lists, read.words, place)
}

// Adds it under those that it writes.
fn note_writes(lists: &mut Positions, item: &VirtualItem, place: usize) -> Result<(), OutOfMemory>
    ensures added { OnOk result (Adds (IsWritten item.now) place (under lists.old) (under lists.new)) }
    ensures told { OnOk result (WritesTold item.now) }
{
    let written = writes(item);
    note(lists, &written.first, place)?;
    note(lists, &written.second, place)
}

// Adds it under the mark to which it may go.
fn note_target(lists: &mut Positions, item: &VirtualItem, place: usize) -> Result<(), OutOfMemory>
    ensures { OnOk result (Adds (IsTarget item.now) place (under lists.old) (under lists.new)) }
{
    match target(item) {
        Some(mark) => lists.push(mark as usize, place),
        None => Ok(()),
    }
}

/// The places of a code's items by numbers and marks.
pub(crate) fn flow_of(alloc: Global, items: &[VirtualItem]) -> Result<Flow, OutOfMemory>
    ensures reads { IfOk result (λ flow. IsListed IsRead items.now (under flow.reads)) }
    ensures writes { IfOk result (λ flow. IsListed IsWritten items.now (under flow.writes)) }
    ensures sources { IfOk result (λ flow. IsListed IsTarget items.now (under flow.sources)) }
    ensures told { OnOk result (EachTold items.now) }
{
    let mut reads = Positions::new(alloc);
    let mut writes = Positions::new(alloc);
    let mut sources = Positions::new(alloc);
    for (place, item) in items.iter().enumerate() {
        note_reads(&mut reads, item, place)?;
        note_writes(&mut writes, item, place)?;
        note_target(&mut sources, item, place)?;
    }
    Ok(Flow {
        reads,
        writes,
        sources,
    })
}
