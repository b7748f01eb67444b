// Words of eight bytes: memories that tell them, and those that stand in memory before a program starts.

ghost use Rattle.std.specs.Prelude.{◌≡◌, []};

use crate::lists::Items;
use std::alloc::Global;

/// A memory that tells its words.
pub trait Words {
    ghost use Rattle.std.specs.Prelude.{◌≡◌, ℕ};
    ghost use Rattle.grift_base.specs.Words.{word_within};

    // the lowest address
    ghost first: { Self → ℕ };

    // the address past the highest
    ghost end: { Self → ℕ };

    // the word whose eight bytes begin at an address
    ghost word_at: { Self → ℕ → ℕ };

    /// The word of 64 bits at an address: none exactly where the address is no multiple of 8, or one of the eight
    /// bytes doesn't lie in memory.
    fn word(&self, at: u64) -> Option<u64>
        ensures { result ≡ word_within (first self.now) (end self.now) (word_at self.now) at };
}

/// Words in order.
pub type WordList = Items<u64>;

/// The words that stand in memory before the code, and where the objects among them are: the address of each type and
/// of each coercion, and the word of each cast.
#[derive(Drop)]
pub struct Statics {
    pub words: WordList,
    pub type_at: WordList,
    pub coercion_at: WordList,
    pub cast_at: WordList,
}

impl Statics {
    /// No words and no objects.
    pub fn new(alloc: Global) -> Statics
        ensures { result ≡ record { words = []; type_at = []; coercion_at = []; cast_at = [] } }
    {
        Statics {
            words: WordList::new(alloc),
            type_at: WordList::new(alloc),
            coercion_at: WordList::new(alloc),
            cast_at: WordList::new(alloc),
        }
    }
}
