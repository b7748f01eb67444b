// Laws of tables of types. Each function has an empty body: its contract is a law, proved for all tables.

ghost use Rattle.std.specs.Prelude.{◌≡◌, ◌<◌, ◌++◌, suc, ℕ, Some, length};
ghost use Rattle.grift_base.specs.Types.{TypeRow, TypeRows, row_at};
ghost use Rattle.type_graph.specs.Forming.{intern};
ghost use Rattle.type_graph.specs.Trees.{AreFinite, AreSame, PartsFirst, above_all, height, row_parts, size, sum_of};
ghost use Rattle.type_graph.specs.TypeTables.{FitsTable, IsOrderedTable};
ghost use Rattle.type_graph.specs.Texts.{row_text, type_text};

/// Types as trees: a type's size is one more than the sizes of its parts, its height one more than that of the
/// highest part, and its text that of its row with the texts of its parts. Types that agree to every depth are one.
pub fn types_are_trees()
    ensures size { (types : TypeRows) (a : ℕ) → AreFinite types → a < length types
        → size types a ≡ suc (sum_of (size types) (row_parts (row_at types a))) }
    ensures height { (types : TypeRows) (a : ℕ) → AreFinite types → a < length types
        → height types a ≡ above_all (height types) (row_parts (row_at types a)) }
    ensures text { (types : TypeRows) (a : ℕ) → AreFinite types → a < length types
        → type_text types a ≡ row_text (type_text types) (row_at types a) }
    ensures one { (types : TypeRows) (a b : ℕ) → IsOrderedTable types → AreSame types a b → a ≡ b }
{}

/// A table stays one where a row is put into it, which then stands at its place, and parts stand before wholes where
/// they did before; and types keep their sizes and heights where rows are added.
pub fn tables_grow()
    ensures table { (types : TypeRows) (row : TypeRow) → IsOrderedTable types → FitsTable types row
        → IsOrderedTable (intern row types).1 }
    ensures order { (types : TypeRows) (row : TypeRow) → PartsFirst types → FitsTable types row
        → PartsFirst (intern row types).1 }
    ensures place { (types : TypeRows) (row : TypeRow) → row_at (intern row types).1 (intern row types).0 ≡ Some row }
    ensures size { (types more : TypeRows) (a : ℕ) → AreFinite types → a < length types
        → size (types ++ more) a ≡ size types a }
    ensures height { (types more : TypeRows) (a : ℕ) → AreFinite types → a < length types
        → height (types ++ more) a ≡ height types a }
{}
