// Lists that contracts see as lists.

ghost use Rattle.std.specs.Prelude.{◌≡◌, ◌==◌, ◌++◌, ◌∷◌, [], OnOk, OnErr, IfOk, length, slice_get};
ghost use Rattle.std.specs.Option.{option_copied};

use std::alloc::{AllocError, AllocFailed, Global};
use std::hash::{Hash, Hasher};
use std::marker::Model;

/// No memory was left. What was passed by `&mut` is as before.
#[derive(Clone, Copy, PartialEq, Eq, Debug)]
pub struct OutOfMemory;

impl From<AllocError> for OutOfMemory {
    fn from(_error: AllocError) -> OutOfMemory {
        OutOfMemory
    }
}

impl<T: Drop> From<AllocFailed<T>> for OutOfMemory {
    fn from(_error: AllocFailed<T>) -> OutOfMemory {
        OutOfMemory
    }
}

/// A list in a vector.
#[derive(Drop)]
pub struct Items<T> {
    items: Vec<T>,
}

impl<T> Model for Items<T> {
    ghost use Rattle.std.specs.Prelude.{List};

    ghost Value = { List T };

    ghost view = { λ a. a.items.items };
}

/// Bytes of any meaning.
pub type Bytes = Items<u8>;

/// The bytes of a text.
pub type Text = Items<u8>;

/// The bytes of a name.
pub type Name = Items<u8>;

/// Names in order.
pub type Names = Items<Name>;

/// Numbers of calls, counted from 0.
pub type CallList = Items<u64>;

/// Names of files, each with what it holds.
pub type NamedFiles = Items<(Name, Bytes)>;

impl<T> Items<T> {
    /// The empty list, which will take its memory from `alloc`.
    pub fn new(alloc: Global) -> Items<T>
        ensures { result ≡ [] }
    {
        Items {
            items: Vec::new(alloc),
        }
    }

    /// The elements of a vector.
    pub fn from_vec(items: Vec<T>) -> Items<T>
        ensures { result ≡ items.items }
    {
        Items { items }
    }

    /// How many elements there are.
    pub fn len(&self) -> u64
        ensures { result ≡ length self.now }
    {
        self.items.len() as u64
    }

    /// Whether there is no element.
    pub fn is_empty(&self) -> bool
        ensures { result ≡ (length self.now == 0) }
    {
        self.items.is_empty()
    }

    /// The element at place `i`, counted from 0; none exactly where there are no more than `i` elements.
    pub fn get(&self, i: u64) -> Option<&T>
        ensures { option_copied result ≡ slice_get self.now i }
    {
        self.items.get(i as usize)
    }

    /// The elements in order.
    pub fn as_slice(&self) -> &[T]
        ensures { result.now ≡ self.now }
    {
        self.items.as_slice()
    }

    /// Adds an element at the end.
    pub fn push(&mut self, x: T) -> Result<(), OutOfMemory>
    where
        T: Drop,
        ensures ok { OnOk result (self.new ≡ self.old ++ x ∷ []) }
        ensures err { OnErr result (self.new ≡ self.old) }
    {
        self.items.push(x)?;
        Ok(())
    }
}

impl<T: Copy> Items<T> {
    /// A list of these elements.
    pub fn from_slice(alloc: Global, items: &[T]) -> Result<Items<T>, OutOfMemory>
        ensures { IfOk result (λ list. list ≡ items.now) }
    {
        let items = Vec::from_slice(alloc, items)?;
        Ok(Items { items })
    }

    /// Adds these elements at the end, all of them or none.
    pub fn extend(&mut self, items: &[T]) -> Result<(), OutOfMemory>
        ensures ok { OnOk result (self.new ≡ self.old ++ items.now) }
        ensures err { OnErr result (self.new ≡ self.old) }
    {
        self.items.extend_from_slice(items)?;
        Ok(())
    }
}

impl<T: PartialEq> PartialEq for Items<T> {
    ghost use Rattle.std.specs.Prelude.{◌≡◌};
    ghost use Rattle.std.specs.Cmp.Lexicographic.{pointwise, lists_per};

    ghost eq = { pointwise T.eq };

    ghost laws = { lists_per T.laws };

    fn eq(&self, other: &Items<T>) -> bool {
        self.items == other.items
    }
}

impl<T: Eq> Eq for Items<T> {
    ghost use Rattle.std.specs.Cmp.Lexicographic.{lists_equiv};

    ghost laws = { lists_equiv T.Eq.laws };
}

impl<T: Hash> Hash for Items<T> {
    ghost use Rattle.std.specs.Hash as fed;

    ghost hash_input = { fed.slice T.hash_input };

    ghost respects_eq = { (fed.items_Alike (record { fed = T.respects_eq })).fed };

    fn hash<H: Hasher>(&self, state: &mut H) {
        self.items.hash(state);
    }
}

/// What a list does when it is dropped: it is taken apart in a loop, since it may be longer than the process's stack is
/// deep. The body of a `drop` calls this with the list and its type, whose cases are `Nil` and `Cons` with the rest in
/// a box.
#[macro_export]
macro_rules! drop_along {
    ($list:ident, $type:ident) => {
        loop {
            match $list {
                $type::Nil => return,
                $type::Cons(_, rest) => $list = Box::into_inner(rest),
            }
        }
    };
}
