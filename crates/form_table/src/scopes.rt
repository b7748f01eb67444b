// The names that a scope binds.

use grift_base::lists::{Name, OutOfMemory};
use indexmap::IndexSet;
use std::alloc::Global;
use std::marker::Model;

/// The names that a scope binds so far, in order.
pub struct Scope {
    names: IndexSet<Name>,
}

// By hand, so that what is proved of an exit at which a scope is alive has one call, and not all that a map is made of.
impl Drop for Scope {
    fn drop(self) {
        let Scope { names } = self;
        drop(names);
    }
}

impl Model for Scope {
    ghost use Rattle.std.specs.Prelude.{List, ℕ};

    ghost Value = { List (List ℕ) };

    ghost view = { λ a. a.names.keys };
}

impl Scope {
    ghost use Rattle.std.specs.Prelude.{◌≡◌, ◌++◌, ◌∷◌, [], not, true, IfOk, IfSome};
    ghost use Rattle.form_table.specs.Walking.{is_among};

    /// A scope that binds nothing yet.
    pub fn new(alloc: Global) -> Scope
        ensures { result ≡ [] }
    {
        Scope {
            names: IndexSet::new(alloc),
        }
    }

    /// Binds a name, and tells whether it was new.
    pub fn bind(&mut self, name: Name) -> Result<bool, OutOfMemory>
        ensures tells { IfOk result (λ new. new ≡ not (is_among self.old name)) }
        ensures bound { IfOk result (λ new. new ≡ true → self.new ≡ self.old ++ name ∷ []) }
    {
        let (_, added) = self.names.insert_full(name)?;
        Ok(added)
    }
}
