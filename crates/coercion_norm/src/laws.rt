// Laws of coercions. Each function has an empty body: its contract is a law, proved for all rows of types, also for
// those of types that contain themselves, unless the law bounds their heights.

ghost use Rattle.std.specs.Prelude.{◌≡◌, ◌↔◌, ◌<◌, ◌≤◌, max, suc, ℕ, true, false, Some, None};
ghost use Rattle.grift_base.specs.Types.{TypeRow, TypeRows, is_dyn};
ghost use Rattle.type_graph.specs.Trees.{height};
ghost use Rattle.type_graph.specs.TypeTables.{HasMoreRows, IsOrderedTable};
ghost use Rattle.coercion_norm.specs.Coercions.{Kind, Coercion, Coercions, Id, Fail, Inject, Project, kind_of, rows_of};
ghost use Rattle.coercion_norm.specs.Coercions.{FunKind, RefKind, Middle, slots};
ghost use Rattle.coercion_norm.specs.Paths.{Steps, Stop, Edge, first_clash, joined, last_type, solid};
ghost use Rattle.coercion_norm.specs.StandsFor.{AgreesTo, IsMiddle, PartsAgree, StandsFor};
ghost use Rattle.coercion_norm.specs.Composition.{coerce_solid, coerce_to, coerce_whole, compose_to, follow};
ghost use Rattle.coercion_norm.specs.Heights.{AreHeights, NoHigher, TypeNoHigher, coercion_height};
ghost use Rattle.coercion_norm.specs.Normal.{IsNormal};
ghost use Rattle.coercion_norm.specs.Texts.{HasLabels};
ghost use Rattle.coercion_norm.specs.Samples.{sample, two};
ghost use Rattle.coercion_norm.specs.Nodes.{AreOrdered};
ghost use Rattle.coercion_norm.specs.CoercionTables.{FitsTypes, NodeTable};

/// What a coercion agrees with to a depth above 0, by the first case that fits: a path of Dyn alone, a path that
/// begins with Dyn, one with a clash of heads, one that ends with Dyn, one of base types, and one of types with parts.
pub fn agreement_has_six_cases()
    ensures only_dyn { (rows : ℕ → TypeRow) (k : ℕ) (c : Coercion) (t : ℕ) (l : Steps)
        → is_dyn (rows t) ≡ true → solid rows l ≡ Stop → AgreesTo rows (suc k) c t l ↔ (c ≡ Id) }
    ensures first_dyn { (rows : ℕ → TypeRow) (k : ℕ) (c : Coercion) (t : ℕ) (l : Steps) (p u : ℕ) (m : Steps)
        → is_dyn (rows t) ≡ true → is_dyn (rows u) ≡ false → solid rows l ≡ Edge p u (solid rows m)
        → is_dyn (rows (last_type t l)) ≡ is_dyn (rows (last_type u m))
        → AgreesTo rows (suc k) c t l ↔ ((i : Coercion) × (c ≡ Project u p i) × AgreesTo rows (suc k) i u m) }
    ensures clash { (rows : ℕ → TypeRow) (k : ℕ) (c : Coercion) (t : ℕ) (l : Steps) (p : ℕ)
        → is_dyn (rows t) ≡ false → first_clash rows t (solid rows l) ≡ Some p
        → AgreesTo rows (suc k) c t l ↔ (c ≡ Fail p) }
    ensures last_dyn { (rows : ℕ → TypeRow) (k : ℕ) (c : Coercion) (t : ℕ) (l m : Steps)
        → is_dyn (rows t) ≡ false → is_dyn (rows (last_type t l)) ≡ true → first_clash rows t (solid rows l) ≡ None
        → solid rows m ≡ solid rows l → is_dyn (rows (last_type t m)) ≡ false → AgreesTo rows (suc k) c t l
        ↔ ((g : Coercion) × (c ≡ Inject g (last_type t (solid rows l))) × AgreesTo rows (suc k) g t m) }
    ensures base { (rows : ℕ → TypeRow) (k : ℕ) (c : Coercion) (t : ℕ) (l : Steps)
        → is_dyn (rows t) ≡ false → is_dyn (rows (last_type t l)) ≡ false → first_clash rows t (solid rows l) ≡ None
        → kind_of (rows t) ≡ None → AgreesTo rows (suc k) c t l ↔ (c ≡ Id) }
    ensures middle { (rows : ℕ → TypeRow) (k : ℕ) (c : Coercion) (t : ℕ) (l : Steps) (kind : Kind)
        → is_dyn (rows t) ≡ false → is_dyn (rows (last_type t l)) ≡ false → first_clash rows t (solid rows l) ≡ None
        → kind_of (rows t) ≡ Some kind → AgreesTo rows (suc k) c t l
        ↔ ((parts : Coercions) × PartsAgree rows (AgreesTo rows k) kind parts (slots rows t) 0 t (solid rows l)
        × IsMiddle kind parts c) }
{}

/// The coercion of a cast stands for the path of its two types, is no higher than the higher of them, and is in normal
/// form. Made to a depth it agrees with the path to that depth, whatever the rows; and a depth that neither type
/// exceeds is enough, and the coercion then goes by its table with parts cast alike.
pub fn coercions_of_casts_stand_for_them()
    ensures agrees { (rows : ℕ → TypeRow) (depth made : ℕ) → depth ≤ made → (from to label : ℕ)
        → AgreesTo rows depth (coerce_to rows made from to label) from (Edge label to Stop) }
    ensures stands { (rows : ℕ → TypeRow) (n from to label : ℕ)
        → TypeNoHigher rows n from → TypeNoHigher rows n to
        → StandsFor rows (coerce_to rows n from to label) from (Edge label to Stop) }
    ensures height { (rows : ℕ → TypeRow) (made n from to label : ℕ)
        → TypeNoHigher rows n from → TypeNoHigher rows n to → NoHigher rows (coerce_to rows made from to label) n }
    ensures normal { (rows : ℕ → TypeRow) (made from to label : ℕ)
        → IsNormal rows (coerce_to rows made from to label) }
    ensures more_depth { (rows : ℕ → TypeRow) (n made from to label : ℕ) → n ≤ made
        → TypeNoHigher rows n from → TypeNoHigher rows n to
        → coerce_to rows made from to label ≡ coerce_to rows n from to label }
    ensures table { (rows : ℕ → TypeRow) (n from to label : ℕ) → TypeNoHigher rows n from → TypeNoHigher rows n to
        → coerce_to rows n from to label ≡ coerce_whole rows (coerce_to rows n) from to label }
{}

/// Casts and compositions worked by hand: which label fails, which parts run backwards, and what is read and written.
pub fn casts_are_as_worked_by_hand()
    ensures clash { (p : ℕ) → coerce_to sample 1 0 1 p ≡ Fail p }
    ensures functions { (p : ℕ)
        → coerce_to sample 1 3 4 p ≡ Middle FunKind (two (Project 0 p Id) (Inject Id 1)) }
    ensures references { (p : ℕ)
        → coerce_to sample 1 5 6 p ≡ Middle RefKind (two (Inject Id 0) (Project 0 p Id)) }
    ensures into_and_out_of_dyn { (p q : ℕ)
        → compose_to sample 1 (coerce_to sample 1 0 2 p) (coerce_to sample 1 2 1 q) ≡ Fail q }
    ensures arguments_and_results { (p q : ℕ)
        → compose_to sample 1 (coerce_to sample 1 3 4 p) (coerce_to sample 1 4 15 q)
        ≡ Middle FunKind (two (Fail p) (Fail q)) }
    ensures reads_and_writes { (p q : ℕ)
        → compose_to sample 1 (coerce_to sample 1 5 6 p) (coerce_to sample 1 6 7 q)
        ≡ Middle RefKind (two (Fail q) (Fail p)) }
    ensures agreement { (p q : ℕ)
        → AgreesTo sample 2 (Middle RefKind (two (Fail q) (Fail p))) 5 (Edge p 6 (Edge q 7 Stop)) }
    ensures first_fails { (p q : ℕ) → compose_to sample 1 (Fail p) (Fail q) ≡ Fail p }
{}

/// The law of composition: where the first coercion stands for a path and the second for one that begins with the last
/// type of the first, their composition stands for the one path followed by the other. It is no higher than the higher
/// of the two, and in normal form where they are. Made to a depth it agrees to that depth, whatever the rows; a depth
/// that neither coercion exceeds is enough, and composition then goes by its table with parts composed alike.
pub fn compositions_stand_for_both_paths()
    ensures agrees { (rows : ℕ → TypeRow) (depth made : ℕ) → depth ≤ made
        → (c d : Coercion) (t u : ℕ) (l m : Steps) → u ≡ last_type t l
        → AgreesTo rows depth c t l → AgreesTo rows depth d u m
        → AgreesTo rows depth (compose_to rows made c d) t (joined l m) }
    ensures stands { (rows : ℕ → TypeRow) (n : ℕ) (c d : Coercion) (t u : ℕ) (l m : Steps)
        → NoHigher rows c n → NoHigher rows d n → u ≡ last_type t l
        → StandsFor rows c t l → StandsFor rows d u m → StandsFor rows (compose_to rows n c d) t (joined l m) }
    ensures height { (rows : ℕ → TypeRow) (made n : ℕ) (c d : Coercion)
        → NoHigher rows c n → NoHigher rows d n → NoHigher rows (compose_to rows made c d) n }
    ensures normal { (rows : ℕ → TypeRow) (made : ℕ) (c d : Coercion)
        → IsNormal rows c → IsNormal rows d → IsNormal rows (compose_to rows made c d) }
    ensures more_depth { (rows : ℕ → TypeRow) (n made : ℕ) (c d : Coercion) → n ≤ made
        → NoHigher rows c n → NoHigher rows d n → compose_to rows made c d ≡ compose_to rows n c d }
    ensures table { (rows : ℕ → TypeRow) (n : ℕ) (c d : Coercion) → NoHigher rows c n → NoHigher rows d n
        → compose_to rows n c d ≡ follow (compose_to rows n) (coerce_solid rows (coerce_to rows n)) c d }
{}

/// What a coercion in normal form stands for determines it.
pub fn normal_forms_are_unique()
    ensures { (rows : ℕ → TypeRow) (n : ℕ) (c d : Coercion) (t : ℕ) (l : Steps)
        → IsNormal rows c → IsNormal rows d → NoHigher rows c n → NoHigher rows d n
        → StandsFor rows c t l → StandsFor rows d t l → c ≡ d }
{}

/// Of three coercions that stand for paths, each of which begins where the one before ends, it is all the same which
/// two are composed first: the composition of all three stands for the three paths, one after the other.
pub fn composition_is_associative()
    ensures one { (rows : ℕ → TypeRow) (n : ℕ) (c d e : Coercion) (t u v : ℕ) (l m o : Steps)
        → IsNormal rows c → IsNormal rows d → IsNormal rows e
        → NoHigher rows c n → NoHigher rows d n → NoHigher rows e n → u ≡ last_type t l → v ≡ last_type u m
        → StandsFor rows c t l → StandsFor rows d u m → StandsFor rows e v o
        → compose_to rows n (compose_to rows n c d) e ≡ compose_to rows n c (compose_to rows n d e) }
    ensures stands { (rows : ℕ → TypeRow) (n : ℕ) (c d e : Coercion) (t u v : ℕ) (l m o : Steps)
        → NoHigher rows c n → NoHigher rows d n → NoHigher rows e n → u ≡ last_type t l → v ≡ last_type u m
        → StandsFor rows c t l → StandsFor rows d u m → StandsFor rows e v o
        → StandsFor rows (compose_to rows n c (compose_to rows n d e)) t (joined l (joined m o)) }
{}

/// `Id` in front of a coercion changes nothing, and behind one in normal form neither.
pub fn id_changes_nothing()
    ensures before { (rows : ℕ → TypeRow) (made : ℕ) (d : Coercion) → compose_to rows made Id d ≡ d }
    ensures behind { (rows : ℕ → TypeRow) (made : ℕ) (c : Coercion) → IsNormal rows c → compose_to rows made c Id ≡ c }
{}

/// A Dyn inside a path can be left out: what stands for the path stands for the rest as well, and the other way round.
pub fn a_dyn_inside_changes_nothing()
    ensures { (rows : ℕ → TypeRow) (depth : ℕ) (c : Coercion) (t p d q u : ℕ) (l m : Steps) → is_dyn (rows d) ≡ true
        → AgreesTo rows depth c t (joined l (Edge p d (Edge q u m)))
        ↔ AgreesTo rows depth c t (joined l (Edge q u m)) }
{}

/// The coercion of a cast has no label but that of the cast, and a composition none but those of the two.
pub fn no_labels_are_added()
    ensures casts { (rows : ℕ → TypeRow) (made many from to label : ℕ) → label < many
        → HasLabels many (coerce_to rows made from to label) }
    ensures compositions { (rows : ℕ → TypeRow) (made many : ℕ) (c d : Coercion)
        → HasLabels many c → HasLabels many d → HasLabels many (compose_to rows made c d) }
{}

/// Heights as numbers say the same as bounds, over the heights that a table of types tells: neither the coercion of a
/// cast nor a composition is higher than the higher of what it comes from.
pub fn heights_are_bounds()
    ensures types { (types : TypeRows) → IsOrderedTable types → AreHeights (rows_of types) (height types) }
    ensures coercions { (types : TypeRows) → IsOrderedTable types → (c : Coercion) (n : ℕ)
        → NoHigher (rows_of types) c n ↔ coercion_height (height types) c ≤ n }
    ensures casts { (types : TypeRows) → IsOrderedTable types → (made from to label : ℕ)
        → coercion_height (height types) (coerce_to (rows_of types) made from to label)
        ≤ max (height types from) (height types to) }
    ensures compositions { (types : TypeRows) → IsOrderedTable types → (made : ℕ) (c d : Coercion)
        → coercion_height (height types) (compose_to (rows_of types) made c d)
        ≤ max (coercion_height (height types) c) (coercion_height (height types) d) }
{}

/// A table of coercions that fits a table of types goes on fitting it where rows are added.
pub fn later_types_change_nothing()
    ensures { (types new : TypeRows) (table : NodeTable) → IsOrderedTable types → HasMoreRows types new
        → AreOrdered table.nodes → FitsTypes types table → FitsTypes new table }
{}
