// Tables of distinct entries.

use crate::lists::OutOfMemory;
use crate::places::MOST_ENTRIES;
use indexmap::IndexSet;
use std::alloc::Global;
use std::hash::Hash;
use std::marker::Model;

/// What can stand in a table: `==` tells exactly whether two entries are the same.
pub trait Entry: Copy + Eq + Hash {
    ghost use Rattle.std.specs.Prelude.{◌≡◌, ℕ};
    ghost use Rattle.std.proofs.Common.{Decides};

    /// What the number of an entry is kept as.
    type Id;

    // The number that is kept so.
    ghost number: { Self.Id → ℕ };

    /// A number as it is kept.
    fn id(place: u32) -> Self::Id
        ensures { number result ≡ place };

    ghost exact: { (x y : Self) → Decides (Self.eq x y) (x ≡ y) };
}

/// Distinct entries in order of first use. The number of an entry is its place, from 0.
pub struct Numbered<T: Entry> {
    entries: IndexSet<T>,
}

// By hand, so that what is proved of an exit at which a table is alive has one call, and not all that a map is made of.
impl<T: Entry> Drop for Numbered<T> {
    fn drop(self) {
        let Numbered { entries } = self;
        drop(entries);
    }
}

impl<T: Entry> Model for Numbered<T> {
    ghost use Rattle.std.specs.Prelude.{List, length, ◌≤◌};
    ghost use Rattle.grift_base.specs.declared.places.TheConstants.{MOST_ENTRIES};

    ghost Value = { List T };

    ghost view = { λ a. a.entries.keys };

    ghost invariant = { λ a. length a.entries.keys ≤ MOST_ENTRIES };
}

impl<T: Entry> Numbered<T> {
    ghost use Rattle.std.specs.Prelude.{◌≡◌, ◌==◌, ◌≤◌, [], length, Contains, OnOk, OnErr, IfOk, Some, slice_get};
    ghost use Rattle.std.specs.List.{position_or_len};
    ghost use Rattle.std.specs.Option.{option_copied};
    ghost use Rattle.indexmap.specs.IndexSet.{insert_key};
    ghost use Rattle.grift_base.specs.Tables.{HasNoRepeats, Interns};

    /// The empty table, which will take its memory from `alloc`.
    pub fn new(alloc: Global) -> Numbered<T>
        ensures { result ≡ [] }
    {
        Numbered {
            entries: IndexSet::new(alloc),
        }
    }

    /// How many entries there are. No entry stands twice.
    pub fn len(&self) -> u64
        ensures len { result ≡ length self.now }
        ensures most { result ≤ MOST_ENTRIES }
        ensures distinct { HasNoRepeats self.now }
    {
        self.entries.len() as u64
    }

    /// Whether there is no entry.
    pub fn is_empty(&self) -> bool
        ensures { result ≡ (length self.now == 0) }
    {
        self.len() == 0
    }

    /// The entry with number `i`; none exactly where there are no more than `i` entries.
    pub fn get(&self, i: u64) -> Option<&T>
        ensures { option_copied result ≡ slice_get self.now i }
    {
        self.entries.get_index(i as usize)
    }

    /// The entries in order.
    pub fn as_slice(&self) -> &[T]
        ensures { result.now ≡ self.now }
    {
        self.entries.as_slice()
    }

    /// The number of this entry, which is added at the end where it is not there yet. `OutOfMemory` comes only where it
    /// would be added: no memory is left for it, or `MOST_ENTRIES` entries are there.
    pub fn intern(&mut self, entry: T) -> Result<T::Id, OutOfMemory>
        ensures interned { OnOk result (Interns self.old entry self.new) }
        ensures entries { OnOk result (self.new ≡ insert_key T.eq self.old entry) }
        ensures number { IfOk result (λ id. slice_get self.new (T.number id) ≡ Some entry) }
        ensures first { IfOk result (λ id. T.number id ≡ position_or_len (T.eq entry) self.old) }
        ensures err { OnErr result (self.new ≡ self.old) }
        ensures absent { OnErr result (¬ Contains self.old entry) }
    {
        if self.len() >= MOST_ENTRIES && !self.entries.contains(&entry) {
            return Err(OutOfMemory);
        }
        let (place, _) = self.entries.insert_full(entry)?;
        Ok(T::id(place as u32))
    }
}
