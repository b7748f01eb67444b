// What names mean, with scopes that are left again.
#![tactic(auto)]

ghost use Rattle.std.specs.Prelude.{◌≡◌, ◌∷◌, [], drop, OnOk};
ghost use Rattle.cast_rules.specs.Environments.{meaning_of, with_names};
ghost use Rattle.std.specs.HashMap.{get};
ghost use Rattle.surface_trees.specs.contracts.names.IdentPartialEq.TheImpl.{ghosts};
ghost use Rattle.insert_steps.specs.Scoped.{env_of, kept_place};
ghost use Rattle.insert_steps.specs.Views.{meaning_if, meaning_seen};

use crate::copies::copy_of_name;
use core_calc::terms::VarId;
use grift_base::lists::OutOfMemory;
use grift_base::places::{Pos, TypeId};
use indexmap::IndexMap;
use std::alloc::Global;
use std::marker::Model;
use surface_trees::names::Ident;

/// What a name means: its variable, its type, and for a function of a `letrec` with a written type that type and the
/// place of its lambda.
#[derive(Clone, Copy)]
pub struct Meaning {
    pub variable: VarId,
    pub ty: TypeId,
    pub written: Option<TypeId>,
    pub pos: Pos,
}

/// A name and what it means.
#[derive(Drop)]
pub struct Named {
    pub name: Ident,
    pub meaning: Meaning,
}

// A name, what it means, and the place of the entry of this name that it hides.
#[derive(Drop)]
struct Entry {
    name: Ident,
    meaning: Meaning,
    hidden: Option<u32>,
}

/// The names that are bound, newest first.
#[derive(Drop)]
pub struct Scopes {
    entries: Vec<Entry>,
    places: IndexMap<Ident, Option<u32>>,
}

impl Model for Scopes {
    ghost use Rattle.std.specs.Prelude.{reverse};
    ghost use Rattle.cast_rules.specs.Environments.{Environment};
    ghost use Rattle.insert_steps.specs.Scoped.{names_in, AreFound};

    ghost Value = { Environment };

    ghost view = { λ a. names_in (reverse a.entries.items) };

    ghost invariant = { λ a. AreFound a.entries.items a.places };
}

// The place that is kept of a name.
fn newest(places: &IndexMap<Ident, Option<u32>>, name: &Ident) -> Option<u32>
    ensures { result ≡ kept_place (get ghosts.eq places.now name.now) }
{
    match places.get(name) {
        Some(place) => *place,
        None => None,
    }
}

impl Scopes {
    /// No names.
    pub fn new(alloc: Global) -> Scopes
        ensures { result ≡ [] }
    {
        Scopes {
            entries: Vec::new(alloc),
            places: IndexMap::new(alloc),
        }
    }

    /// What a name means.
    pub fn find(&self, name: &Ident) -> Option<Meaning>
        ensures { meaning_if result ≡ meaning_of name.now self.now }
    {
        match newest(&self.places, name) {
            Some(place) => Some(self.entries[place as usize].meaning),
            None => None,
        }
    }

    /// Binds a name.
    pub fn bind(&mut self, alloc: Global, name: &Ident, meaning: Meaning) -> Result<(), OutOfMemory>
        ensures { OnOk result (self.new ≡ (name.now, meaning_seen meaning) ∷ self.old) }
    {
        let place = self.entries.len();
        if place >= u32::MAX as usize {
            return Err(OutOfMemory);
        }
        let hidden = newest(&self.places, name);
        let own = copy_of_name(alloc, name)?;
        let key = copy_of_name(alloc, name)?;
        self.entries.push(Entry {
            name: own,
            meaning,
            hidden,
        })?;
        match self.places.insert(key, Some(place as u32)) {
            Ok(_) => Ok(()),
            Err(_) => {
                self.entries.pop();
                Err(OutOfMemory)
            }
        }
    }

    /// Binds these names, the last of them as the newest.
    pub fn enter(&mut self, alloc: Global, names: &[Named]) -> Result<(), OutOfMemory>
        ensures { OnOk result (self.new ≡ with_names (env_of names.now) self.old) }
    {
        for named in names {
            self.bind(alloc, &named.name, named.meaning)?;
        }
        Ok(())
    }

    // Undoes the newest binding.
    fn leave_one(&mut self) -> Result<(), OutOfMemory>
        ensures { OnOk result (self.new ≡ drop 1 self.old) }
    {
        let Some(entry) = self.entries.pop() else {
            return Ok(());
        };
        self.places.insert(entry.name, entry.hidden)?;
        Ok(())
    }

    /// Undoes so many of the newest bindings.
    pub fn leave(&mut self, count: usize) -> Result<(), OutOfMemory>
        ensures { OnOk result (self.new ≡ drop count self.old) }
    {
        for _taken in 0..count {
            self.leave_one()?;
        }
        Ok(())
    }
}
