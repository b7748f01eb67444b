// Laws of rows of whole objects. Each function has an empty body: its contract is a law, proved for all memories.

ghost use Rattle.std.specs.Prelude.{◌≡◌, ◌≢◌, ◌≤◌, ◌<◌, ◌++◌, ℕ, List};
ghost use Rattle.object_layout.specs.declared.headers.Header.{Header};
ghost use Rattle.object_layout.specs.declared.wholes.Area.{Area};
ghost use Rattle.object_layout.specs.Wholes.{Telling, IsWhole, Fills, IsRow, IsNth, PointsIntoItself, IsFreeWord};

/// A row of whole objects stays one when whole objects are added at its end.
pub fn rows_join()
    ensures { (memory : Telling) (area : Area) (from mid to : ℕ) (headers more : List Header) → mid ≤ to
        → IsRow memory area from headers mid → Fills memory area to mid more to
        → IsRow memory area from (headers ++ more) to }
{}

/// Two rows of one range are the same objects.
pub fn a_range_is_one_row()
    ensures { (memory : Telling) (area : Area) (from to : ℕ) (headers others : List Header)
        → IsRow memory area from headers to → IsRow memory area from others to → headers ≡ others }
{}

/// An object of a row is whole, and ends in the row.
pub fn an_object_of_a_row_is_whole()
    ensures { (memory : Telling) (area : Area) (from to place at : ℕ) (headers : List Header) (header : Header)
        → IsRow memory area from headers to → IsNth from headers place at header
        → IsWhole memory area to at header }
{}

/// An address at which an object of a row begins is that of exactly one.
pub fn an_address_is_that_of_one_object()
    ensures { (from place other at : ℕ) (headers : List Header) (header another : Header)
        → IsNth from headers place at header → IsNth from headers other at another
        → (place ≡ other) × (header ≡ another) }
{}

/// A row stays one when memory past its end changes.
pub fn a_row_stays_past_its_end()
    ensures { (memory other : Telling) (area : Area) (from to : ℕ) (headers : List Header)
        → ((at : ℕ) → at < to → other at ≡ memory at)
        → IsRow memory area from headers to → IsRow other area from headers to }
{}

/// A row whose words point into it or below it stays one, and goes on to point so, when a word of a closure, a tuple, a
/// box or a vector is changed behind its header.
pub fn a_row_stays_in_a_free_word()
    ensures row { (memory other : Telling) (area : Area) (from to word : ℕ) (headers : List Header)
        → IsFreeWord from headers word → ((at : ℕ) → at ≢ word → other at ≡ memory at)
        → PointsIntoItself memory from headers
        → IsRow memory area from headers to → IsRow other area from headers to }
    ensures points { (memory other : Telling) (area : Area) (from to word : ℕ) (headers : List Header)
        → IsFreeWord from headers word → ((at : ℕ) → at ≢ word → other at ≡ memory at)
        → PointsIntoItself memory from headers
        → IsRow memory area from headers to → PointsIntoItself other from headers }
{}
