// Laws of consistency. Each function has an empty body: its contract is a law, proved for all tables.

ghost use Rattle.std.specs.Prelude.{◌≡◌, ◌<◌, ◌++◌, ℕ, length, true};
ghost use Rattle.grift_base.specs.Types.{TypeRows, row_at};
ghost use Rattle.type_graph.specs.Trees.{AreFinite};
ghost use Rattle.type_graph.specs.TypeTables.{IsOrderedTable};
ghost use Rattle.consistency.specs.Consistency.{consistent, consistent_rows};
ghost use Rattle.consistency.specs.Blending.{blend};
ghost use Rattle.consistency.specs.Known.{FormsBlend};

/// Consistency goes by rows: Dyn is consistent with every type, and two other types are where their heads are equal
/// and their parts are consistent. It stays what it is where rows are added.
pub fn consistency_goes_by_rows()
    ensures rows { (types : TypeRows) (a b : ℕ) → AreFinite types → a < length types
        → consistent types a b ≡ consistent_rows (consistent types) (row_at types a) (row_at types b) }
    ensures kept { (types more : TypeRows) (a b : ℕ) → AreFinite types
        → a < length types → b < length types → consistent (types ++ more) a b ≡ consistent types a b }
{}

/// The blend of two consistent types is Dyn where either is Dyn, else it has their head and the blends of their parts.
/// It is no higher than the higher of the two; forming it leaves the table one, with the rows that were there; and
/// forming it once more adds nothing.
pub fn blends_are_formed()
    ensures { (types : TypeRows) (a b : ℕ) → IsOrderedTable types → a < length types → b < length types
        → consistent types a b ≡ true → FormsBlend types a b (blend a b types) }
{}
