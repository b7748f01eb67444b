// What the procedures do.

ghost use Rattle.std.specs.Prelude.{◌≡◌, ℕ, ◌+◌, ◌*◌, ◌<◌, ◌≤◌, ◌^◌, max, true, false, List, [], ◌∷◌, length};
ghost use Rattle.grift_base.specs.Types.{TypeHead, TypeRows};
ghost use Rattle.run_laws.specs.Runs.{Ending, Exhausted};
ghost use Rattle.machine_words.specs.Memory.{Memory};
ghost use Rattle.machine_words.specs.Halts.{Halt, Lacks, Region};
ghost use Rattle.low_ir.specs.Procedures.{Proc};
ghost use Rattle.low_ir.specs.Closed.{each_closed};
ghost use Rattle.low_ir.specs.Run.{Setting, LowState};
ghost use Rattle.type_graph.specs.declared.tables.TheConstants.{MOST_HEIGHT};
ghost use Rattle.coercion_norm.specs.Coercions.{Coercion, rows_of};
ghost use Rattle.coercion_norm.specs.CoercionTables.{IsSound, cast_of, composition_of};
ghost use Rattle.coercion_norm.specs.Heights.{coercion_height};
ghost use Rattle.coercion_norm.specs.Held.{Layout, Held, HoldsType, TypesStand, height_in, rows_in};
ghost use Rattle.coercion_norm.specs.Normal.{IsNormal};
ghost use Rattle.coercion_norm.specs.Objects.{Object, words_of_all};
ghost use Rattle.rt_cast.specs.Costs.{coerce_cost, compose_cost, cast_cost, tuple_cost, project_cost};
ghost use Rattle.rt_cast.specs.Costs.{coerce_words, compose_words, cast_words};
ghost use Rattle.rt_cast.specs.Costs.{coerce_price, compose_price, cast_price};
ghost use Rattle.low_ir.specs.Frames.{largest_frame};
ghost use Rattle.rt_cast.specs.HeavyTurns.{has_heavy_turn};
ghost use Rattle.rt_cast.specs.LightCasts.{is_light, light_words, light_price};
ghost use Rattle.rt_cast.specs.Objects.{Holds, HoldsWords};
ghost use Rattle.rt_cast.specs.Procs.{Stand, coerce_proc, compose_proc, cast_proc, project_proc};
ghost use Rattle.rt_cast.specs.Procs.{cast_procs};
ghost use Rattle.rt_cast.specs.PartCosts.{tuple_part_words, tuple_part_price, dyn_part_words, dyn_part_price};
ghost use Rattle.rt_cast.specs.PartValues.{part_value, dyn_part_value};
ghost use Rattle.rt_cast.specs.MergedValues.{Merged, Outcome, Stuck, cast_value};
ghost use Rattle.rt_cast.specs.Carried.{IsLow, IsVery, Carries, HaveParts, ComesToOutcome};
ghost use Rattle.rt_cast.specs.States.{Heap, Placed, Filled, IsReady, ComesToHeld, heap_of};
ghost use Rattle.rt_cast.specs.ToldRows.{IsFilled};

/// In any storage of whole objects that holds two coercions, and whatever waits, compose comes to a return of a word
/// that holds their composition, or the region is exhausted. Nothing that was there changes, whole objects fill the
/// region at every state on the way, with no proxy on a proxy, and steps, words, price and the room of frames are
/// bounded by the higher of the two.
pub fn compositions_are_held<V>()
    ensures { (reading : Halt → Ending V) (setting : Setting) (l : Layout) (first : ℕ) (s : LowState)
        → reading (Lacks Region) ≡ Exhausted → IsReady setting l first
        → (objects : List Object) → Filled setting l objects (heap_of s) → (c d : Coercion) (wc wd : ℕ)
        → IsSound l.types c → IsSound l.types d → Held l objects c wc → Held l objects d wd
        → ComesToHeld reading setting l s objects (compose_proc first) (wc ∷ wd ∷ []) (composition_of l.types c d)
        (compose_cost l.width (max (coercion_height (height_in l) c) (coercion_height (height_in l) d)))
        (4 * max (coercion_height (height_in l) c) (coercion_height (height_in l) d) + 4)
        (compose_words l.width (max (coercion_height (height_in l) c) (coercion_height (height_in l) d)))
        (compose_price l.width (max (coercion_height (height_in l) c) (coercion_height (height_in l) d))) }
{}

/// In the same way coerce comes to a return of a word that holds the coercion of a cast between two types, within
/// bounds by the higher of them.
pub fn coercions_of_casts_are_held<V>()
    ensures { (reading : Halt → Ending V) (setting : Setting) (l : Layout) (first : ℕ) (s : LowState)
        → reading (Lacks Region) ≡ Exhausted → IsReady setting l first
        → (objects : List Object) → Filled setting l objects (heap_of s) → (from to label wf wt : ℕ)
        → HoldsType l objects wf from → HoldsType l objects wt to → label < 2 ^ 64
        → ComesToHeld reading setting l s objects (coerce_proc first) (wf ∷ wt ∷ label ∷ [])
        (cast_of l.types from to label) (coerce_cost l.width (max (height_in l from) (height_in l to)))
        (max (height_in l from) (height_in l to) + 1)
        (coerce_words l.width (max (height_in l from) (height_in l to)))
        (coerce_price l.width (max (height_in l from) (height_in l to))) }
{}

/// Whatever the decisions of the merged mode make of a value, cast makes of the word that carries it: it comes to a
/// return of a word that carries the value that is made, or to the call that blames the label, or the region is
/// exhausted. What stands under a proxy stays the very object that it was. A cast that the mode has no decision for
/// isn't spoken of. Steps, words, price and the room of frames are bounded by the height of the tallest coercion.
pub fn casts_are_made<V>()
    ensures { (reading : Halt → Ending V) (setting : Setting) (l : Layout) (first : ℕ) (s : LowState)
        → reading (Lacks Region) ≡ Exhausted → IsReady setting l first → l.tallest ≤ MOST_HEIGHT
        → (objects : List Object) → Filled setting l objects (heap_of s) → (head : ℕ → TypeHead) (c : Coercion)
        → IsLow l c → (u : Merged ℕ) (r : Outcome ℕ) → cast_value head l.types c u ≡ r → (r ≡ Stuck → ⊥)
        → (wv wc : ℕ) → Carries l objects u wv → Held l objects c wc
        → ComesToOutcome reading setting l s (IsVery l) objects (cast_proc first) (wv ∷ wc ∷ []) r
        (cast_cost l.width l.tallest) (4 * l.tallest + 6) (cast_words l.width l.tallest)
        (cast_price l.width l.tallest) }
{}

/// A cast that is light, since no middle meets its value and none is made for it, or since it comes out of Dyn between
/// different heads, takes 77 steps at most, in the room of its frame and of one above it, and words and a price that
/// don't depend on heights.
pub fn light_casts_are_cheap<V>()
    ensures { (reading : Halt → Ending V) (setting : Setting) (l : Layout) (first : ℕ) (s : LowState)
        → reading (Lacks Region) ≡ Exhausted → IsReady setting l first → l.tallest ≤ MOST_HEIGHT
        → (objects : List Object) → Filled setting l objects (heap_of s) → (head : ℕ → TypeHead) (c : Coercion)
        → IsLow l c → (u : Merged ℕ) (r : Outcome ℕ) → cast_value head l.types c u ≡ r → (r ≡ Stuck → ⊥)
        → is_light (rows_in l) c u ≡ true → (wv wc : ℕ) → Carries l objects u wv → Held l objects c wc
        → ComesToOutcome reading setting l s (IsVery l) objects (cast_proc first) (wv ∷ wc ∷ []) r 77 1
        (light_words c) (light_price c) }
{}

/// Any other cast that comes to something has a heavy turn among those that the merged mode makes for it: one that
/// wraps, wraps anew or unwraps, or that opens a value in Dyn whose kept type has parts and the head that is wanted.
pub fn heavy_casts_have_heavy_turns()
    ensures { (head : ℕ → TypeHead) (types : TypeRows) (c : Coercion) → IsNormal (rows_of types) c → (u : Merged ℕ)
        → (cast_value head types c u ≡ Stuck → ⊥) → is_light (rows_of types) c u ≡ false
        → has_heavy_turn head types c u ≡ true }
{}

/// Project, with 1 as its third word, comes to what the merged mode makes of a part of a tuple: the part as it is, or,
/// of a tuple with a proxy, the part cast by the proxy's coercion for it. It asks for the words of that cast alone.
pub fn parts_of_tuples_are_answered<V>()
    ensures { (reading : Halt → Ending V) (setting : Setting) (l : Layout) (first : ℕ) (s : LowState)
        → reading (Lacks Region) ≡ Exhausted → IsReady setting l first → l.tallest ≤ MOST_HEIGHT
        → (objects : List Object) → Filled setting l objects (heap_of s) → (head : ℕ → TypeHead)
        (parts : ℕ → List (Merged ℕ)) → HaveParts l (IsVery l) objects parts → (u : Merged ℕ) (r : Outcome ℕ)
        (wv k label : ℕ) → part_value head parts l.types k u ≡ r → (r ≡ Stuck → ⊥) → Carries l objects u wv
        → ComesToOutcome reading setting l s (IsVery l) objects (project_proc first) (wv ∷ k ∷ 1 ∷ label ∷ []) r
        (tuple_cost l.width l.tallest) (4 * l.tallest + 6) (tuple_part_words parts l k u)
        (tuple_part_price parts l k u) }
{}

/// With 0 as its third word it comes to what that mode makes of a part of a value in Dyn: the part, cast to Dyn, or the
/// blame of the label that is handed in, where the type that the Dyn keeps has no such part. It asks for the words of
/// the cast of the part, where one is made, and three more for the value in Dyn.
pub fn parts_in_dyn_are_answered<V>()
    ensures { (reading : Halt → Ending V) (setting : Setting) (l : Layout) (first : ℕ) (s : LowState)
        → reading (Lacks Region) ≡ Exhausted → IsReady setting l first → l.tallest ≤ MOST_HEIGHT
        → (objects : List Object) → Filled setting l objects (heap_of s) → (head : ℕ → TypeHead)
        (parts : ℕ → List (Merged ℕ)) → HaveParts l (IsVery l) objects parts → (u : Merged ℕ) (r : Outcome ℕ)
        (wv k label : ℕ) → dyn_part_value head parts l.types k label u ≡ r → (r ≡ Stuck → ⊥) → Carries l objects u wv
        → ComesToOutcome reading setting l s (IsVery l) objects (project_proc first) (wv ∷ k ∷ 0 ∷ label ∷ []) r
        (project_cost l.width l.tallest) (4 * l.tallest + 7) (dyn_part_words parts l k u)
        (dyn_part_price parts l k u) }
{}

/// What the other laws say of every state on the way is what a walk of the region asks for: whole objects fill the
/// range from its start to the allocation word without gaps, in what the memory tells.
pub fn objects_fill_the_region()
    ensures { (setting : Setting) (l : Layout) (objects : List Object) (h : Heap) → Placed setting l → TypesStand l
        → l.tallest ≤ MOST_HEIGHT → Filled setting l objects h
        → IsFilled setting.top h.memory l.region h.alloc }
{}

/// Where the words of objects stand in memory, the objects do.
pub fn objects_stand_where_their_words_do()
    ensures { (m : Memory) (at : ℕ) (objects : List Object) → HoldsWords m at (words_of_all objects)
        → Holds m at objects }
{}

/// The procedures are closed wherever they stand in a program, so each calls only procedures of the set, and hands on
/// eight words at most. The largest of their frames has 200 bytes, whatever the program and its casts are.
pub fn procedures_are_closed()
    ensures closed { (procs : List Proc) (first : ℕ) → Stand procs first
        → each_closed procs (cast_procs first) ≡ true }
    ensures many { (first : ℕ) → length (cast_procs first) ≡ 27 }
    ensures frames { (first : ℕ) → largest_frame (cast_procs first) ≡ 200 }
{}

/// What these bounds come to where types have at most so many parts, two at least, by the height.
pub fn bounds_have_closed_forms()
    ensures words { (w h : ℕ) → 2 ≤ w → (coerce_words w h ≤ 7 * w ^ h) × (compose_words w h ≤ 21 * (2 * w) ^ h) }
    ensures prices { (w h : ℕ) → 2 ≤ w
        → (coerce_price w h ≤ 1136 * w ^ h) × (compose_price w h ≤ 3221 * (2 * w) ^ h) }
{}
