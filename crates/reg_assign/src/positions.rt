// Lists of the places of items, one list for each number.

ghost use Rattle.std.specs.Prelude.{◌≡◌, ◌==◌, ◌<◌, ◌≤◌, ◌++◌, ◌∷◌, [], ℕ, OnOk, if◌then◌else◌, length};
ghost use Rattle.reg_assign.specs.Flow.{under};

use grift_base::lists::{Items, OutOfMemory};
use std::alloc::Global;
use std::marker::Model;

/// A list of places of items for each number.
#[derive(Drop)]
pub(crate) struct Positions {
    alloc: Global,
    lists: Vec<Items<usize>>,
}

impl Model for Positions {
    ghost use Rattle.std.specs.Prelude.{ℕ, List};

    ghost Value = { List (List ℕ) };

    ghost view = { λ p. p.lists.items };
}

// Adds empty lists until one has this number.
fn grow(alloc: Global, lists: &mut Vec<Items<usize>>, number: usize) -> Result<(), OutOfMemory>
    ensures there { OnOk result (number < length lists.new.items) }
    ensures same { OnOk result ((k : ℕ) → under lists.new.items k ≡ under lists.old.items k) }
{
    while lists.len() <= number {
        lists.push(Items::new(alloc))?;
    }
    Ok(())
}

impl Positions {
    /// No place under any number.
    pub(crate) fn new(alloc: Global) -> Positions
        ensures { (k : ℕ) → under result k ≡ [] }
    {
        Positions {
            alloc,
            lists: Vec::new(alloc),
        }
    }

    /// A number from which on all lists are empty.
    pub(crate) fn bound(&self) -> usize
        ensures { (k : ℕ) → result ≤ k → under self.now k ≡ [] }
    {
        self.lists.len()
    }

    /// The places under a number.
    pub(crate) fn under(&self, number: usize) -> &[usize]
        ensures { result.now ≡ under self.now number }
    {
        match self.lists.get(number) {
            Some(list) => list.as_slice(),
            None => &[],
        }
    }

    /// Adds a place under a number.
    pub(crate) fn push(&mut self, number: usize, place: usize) -> Result<(), OutOfMemory>
        ensures { OnOk result ((k : ℕ) → under self.new k
            ≡ (if k == number then under self.old k ++ place ∷ [] else under self.old k)) }
    {
        grow(self.alloc, &mut self.lists, number)?;
        self.lists[number].push(place)
    }
}
