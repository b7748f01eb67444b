// Where the files come from.

ghost use Rattle.std.specs.Prelude.{ℕ, ◌≡◌, List, [], Option, Some, option_map, option_copied, false};
ghost use Rattle.grift_base.specs.Outside.{Counts};
ghost use Rattle.grift_base.specs.Shelf.{Loads, load_failed, asked_after, held, fails_to_load, FailsWhere, shelf_after};

use crate::lists::{Bytes, CallList, Name, NamedFiles, Names, OutOfMemory};
use std::alloc::Global;
use std::marker::Model;

/// Why a file wasn't loaded.
#[derive(Clone, Copy, PartialEq, Eq)]
pub enum LoadFault {
    /// The file is not there, or the outside failed.
    Failed,
    /// The file has more bytes than were wanted.
    TooLong,
    /// No memory was left.
    OutOfMemory,
}

impl From<OutOfMemory> for LoadFault {
    ghost use Rattle.std.specs.Prelude.{◌≡◌};
    ghost use Rattle.grift_base.specs.declared.shelves.LoadFault.TheVariants.{OutOfMemory};

    ghost from_gives = { λ _ fault. fault ≡ OutOfMemory };

    fn from(_error: OutOfMemory) -> LoadFault {
        LoadFault::OutOfMemory
    }
}

/// A source of files, each with a name.
pub trait Shelf {
    // The bytes that a name holds, where they are told.
    ghost holds: { Self → List ℕ → Option (List ℕ) };

    // The names that were asked for, where they are told.
    ghost asked: { Self → Option (List (List ℕ)) };

    // How many loads failed.
    ghost fault_count: { Self → ℕ };

    /// The bytes that the name holds. `TooLong` comes exactly where the load doesn't fail and these are more than
    /// `max`, and `Failed` only where the count of faults rises. After `OutOfMemory` the shelf is as before.
    fn load(&mut self, alloc: Global, name: &str, max: usize) -> Result<Vec<u8>, LoadFault>
        ensures loads { Loads (holds self.old name.now) max result }

        ensures kept { (other : List ℕ) → holds self.new other ≡ holds self.old other }
        ensures names { asked self.new ≡ option_map (asked_after result name.now) (asked self.old) }
        ensures count { Counts (load_failed result) (fault_count self.old) (fault_count self.new) };

    /// How many loads failed, up to the last value of u64.
    fn faults(&self) -> u64
        ensures { result ≡ fault_count self.now };
}

/// A shelf whose files lie in memory. The loads whose numbers, from 0, were told fail, and so do those of names
/// that aren't there; a load that finds no memory isn't counted.
#[derive(Drop)]
pub struct MemShelf {
    files: NamedFiles,
    failing: CallList,
    asked: Names,
    faults: u64,
}

impl Model for MemShelf {
    ghost use Rattle.grift_base.specs.Shelf.{ShelfState};

    ghost Value = { ShelfState };

    ghost view = { λ s. record { files = s.files; failing = s.failing; asked = s.asked; faults = s.faults } };
}

impl MemShelf {
    /// A shelf with these files, which was asked for nothing yet. Where a name stands twice the first is meant.
    pub fn new(alloc: Global, files: NamedFiles, failing: CallList) -> MemShelf
        ensures { result ≡ record { files = files; failing = failing; asked = []; faults = 0 } }
    {
        MemShelf {
            files,
            failing,
            asked: Names::new(alloc),
            faults: 0,
        }
    }

    /// The names that it was asked for, in order.
    pub fn asked(&self) -> &Names
        ensures { result.now ≡ self.now.asked }
    {
        &self.asked
    }

    // The answer to a load, which isn't recorded yet.
    fn answer(&self, alloc: Global, name: &str, max: usize) -> Result<Vec<u8>, LoadFault>
        ensures fails { FailsWhere (fails_to_load self.now name.now) result }
        ensures loads { Loads (held self.now.files name.now) max result }
    {
        if self.failing.as_slice().contains(&self.asked.len()) {
            return Err(LoadFault::Failed);
        }
        match bytes_of(&self.files, name) {
            None => Err(LoadFault::Failed),
            Some(bytes) => copy_within(alloc, bytes.as_slice(), max),
        }
    }
}

// The bytes beside the first place where the name stands.
fn bytes_of<'a>(files: &'a NamedFiles, name: &str) -> Option<&'a Bytes>
    ensures { option_copied result ≡ held files.now name.now }
{
    let file = files
        .as_slice()
        .iter()
        .find(|file| file.0.as_slice() == name.as_bytes())?;
    Some(&file.1)
}

// These bytes, if they are no more than so many.
fn copy_within(alloc: Global, bytes: &[u8], max: usize) -> Result<Vec<u8>, LoadFault>
    ensures no_fault { load_failed result ≡ false }
    ensures loads { Loads (Some bytes.now) max result }
{
    if bytes.len() > max {
        return Err(LoadFault::TooLong);
    }
    Vec::from_slice(alloc, bytes).map_err(|_| LoadFault::OutOfMemory)
}

impl Shelf for MemShelf {
    ghost holds = { λ shelf. held shelf.files };

    ghost asked = { λ shelf. Some shelf.asked };

    ghost fault_count = { λ shelf. shelf.faults };

    fn load(&mut self, alloc: Global, name: &str, max: usize) -> Result<Vec<u8>, LoadFault>
        ensures fails { FailsWhere (fails_to_load self.old name.now) result }
        ensures shelf { self.new ≡ shelf_after result name.now self.old }
        ensures loads { Loads (held self.old.files name.now) max result }
        ensures count { Counts (load_failed result) self.old.faults self.new.faults }
    {
        let answer = self.answer(alloc, name, max);
        if answer == Err(LoadFault::OutOfMemory) {
            return answer;
        }
        let name = Name::from_slice(alloc, name.as_bytes())?;
        self.asked.push(name)?;
        if answer == Err(LoadFault::Failed) {
            self.faults = self.faults.saturating_add(1);
        }
        answer
    }

    fn faults(&self) -> u64 {
        self.faults
    }
}
