// The names that a term binds, and those that are in scope with their types.

ghost use Rattle.std.specs.Prelude.{◌≡◌};

use crate::drop_fields;
use crate::terms::VarId;
use grift_base::lists;
use grift_base::places::TypeId;
use indexmap::{IndexMap, IndexSet};
use std::alloc::{AllocFailed, Global};
use std::marker::Model;

/// Why no type was found.
#[derive(Clone, Copy, PartialEq, Eq)]
pub enum Untyped {
    /// The term has none.
    NoType,
    /// No memory was left.
    OutOfMemory,
}

impl From<lists::OutOfMemory> for Untyped {
    ghost use Rattle.core_calc.specs.declared.scopes.Untyped.TheVariants.{OutOfMemory};

    ghost from_gives = { λ _ fault. fault ≡ OutOfMemory };

    fn from(_want: lists::OutOfMemory) -> Untyped {
        Untyped::OutOfMemory
    }
}

impl<T: Drop> From<AllocFailed<T>> for Untyped {
    ghost use Rattle.core_calc.specs.declared.scopes.Untyped.TheVariants.{OutOfMemory};

    ghost from_gives = { λ _ fault. fault ≡ OutOfMemory };

    fn from(_want: AllocFailed<T>) -> Untyped {
        Untyped::OutOfMemory
    }
}

/// Names that were met, each once, in order.
pub struct Names {
    names: IndexSet<u32>,
}

// By hand, so that what is proved of an exit at which a set of names is alive has one call, and not all that a map is
// made of.
impl Drop for Names {
    fn drop(self) {
        drop_fields!(self, Names, names;)
    }
}

impl Model for Names {
    ghost use Rattle.std.specs.Prelude.{List, ℕ};

    ghost Value = { List ℕ };

    ghost view = { λ a. a.names.keys };
}

impl Names {
    ghost use Rattle.std.specs.Prelude.{[], ◌∷◌};
    ghost use Rattle.core_calc.specs.Views.{names_of};
    ghost use Rattle.core_calc.specs.TypeOf.{Makes, with_names};

    /// No name.
    pub fn new(alloc: Global) -> Names
        ensures { result ≡ [] }
    {
        Names {
            names: IndexSet::new(alloc),
        }
    }

    /// Adds a name. `NoType` says that it is there already.
    pub fn add(&mut self, name: VarId) -> Result<(), Untyped>
        ensures { Makes result self.new (with_names self.old (name.0 ∷ [])) }
    {
        let (_, added) = self.names.insert_full(name.0)?;
        if !added {
            return Err(Untyped::NoType);
        }
        Ok(())
    }

    /// Adds these names in order. `NoType` says that one is there already.
    pub fn add_all(&mut self, names: &[VarId]) -> Result<(), Untyped>
        ensures { Makes result self.new (with_names self.old (names_of names.now)) }
    {
        for name in names {
            self.add(*name)?;
        }
        Ok(())
    }
}

/// The names in scope with their types, each once, in the order in which they were bound.
pub struct Scope {
    names: IndexMap<u32, TypeId>,
}

// By hand, so that what is proved of an exit at which a scope is alive has one call, and not all that a map is made of.
impl Drop for Scope {
    fn drop(self) {
        drop_fields!(self, Scope, names;)
    }
}

impl Model for Scope {
    ghost use Rattle.core_calc.specs.Typing.{Context};
    ghost use Rattle.core_calc.specs.TypeOf.{scope_of};

    ghost Value = { Context };

    ghost view = { λ a. scope_of a.names.entries };
}

impl Scope {
    ghost use Rattle.std.specs.Prelude.{[], ◌∷◌, length, option_map, take};
    ghost use Rattle.core_calc.specs.Substitution.{entry_of};
    ghost use Rattle.core_calc.specs.TypeOf.{Makes, context_of, with_bound};

    /// No name.
    pub fn new(alloc: Global) -> Scope
        ensures { result ≡ [] }
    {
        Scope {
            names: IndexMap::new(alloc),
        }
    }

    /// How many names are in scope.
    pub fn len(&self) -> u64
        ensures { result ≡ length self.now }
    {
        self.names.len() as u64
    }

    /// The type of a name, if it is in scope.
    pub fn type_of(&self, name: VarId) -> Option<TypeId>
        ensures { option_map (λ t. t.0) result ≡ entry_of name.0 self.now }
    {
        self.names.get(&name.0).copied()
    }

    /// Binds a name. `NoType` says that it is in scope already.
    pub fn bind(&mut self, name: VarId, ty: TypeId) -> Result<(), Untyped>
        ensures { Makes result self.new (with_bound self.old ((name.0, ty.0) ∷ [])) }
    {
        if self.names.contains_key(&name.0) {
            return Err(Untyped::NoType);
        }
        self.names.insert(name.0, ty)?;
        Ok(())
    }

    /// Binds these names in order. `NoType` says that one is in scope already.
    pub fn bind_all(&mut self, bound: &[(VarId, TypeId)]) -> Result<(), Untyped>
        ensures { Makes result self.new (with_bound self.old (context_of bound.now)) }
    {
        for (name, ty) in bound {
            self.bind(*name, *ty)?;
        }
        Ok(())
    }

    /// Leaves the scope of all names but the first `outside`.
    pub fn leave(&mut self, outside: u64)
        ensures { self.new ≡ take outside self.old }
    {
        self.names.truncate(outside as usize);
    }
}
