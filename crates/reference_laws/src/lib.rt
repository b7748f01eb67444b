//! What the procedures come to that call functions through proxies, read and write boxes and vectors, and make vectors,
//! from a state in which whole objects fill the region. A function here does nothing: its contract is a law.
#![tactic(auto)]

ghost use Rattle.std.specs.Prelude.{◌≡◌, ℕ, ◌+◌, ◌*◌, ◌^◌, ◌<◌, ◌≤◌, ◌==◌, false, List, [], ◌∷◌, length};
ghost use Rattle.std.specs.Prelude.{Some, slice_get};
ghost use Rattle.grift_base.specs.Types.{TypeHead};
ghost use Rattle.run_laws.specs.Runs.{Ending, Exhausted};
ghost use Rattle.machine_words.specs.Halts.{Halt, Lacks, Region};
ghost use Rattle.grift_base.specs.declared.verdicts.Trap.TheVariants.{Index, Length};
ghost use Rattle.low_ir.specs.Run.{Setting, Waiting, LowState};
ghost use Rattle.type_graph.specs.declared.tables.TheConstants.{MOST_HEIGHT};
ghost use Rattle.coercion_norm.specs.Coercions.{Coercion};
ghost use Rattle.coercion_norm.specs.Objects.{Object};
ghost use Rattle.coercion_norm.specs.Held.{Layout};
ghost use Rattle.rt_cast.specs.Costs.{cast_cost};
ghost use Rattle.rt_cast.specs.LightCasts.{cast_words_of, cast_price_of};
ghost use Rattle.rt_cast.specs.ComposeCodes.{cast};
ghost use Rattle.rt_cast.specs.MergedValues.{Merged, Outcome, Stuck, cast_value};
ghost use Rattle.rt_cast.specs.Carried.{IsVery, Carries};
ghost use Rattle.rt_cast.specs.States.{Placed, Filled, IsReady, heap_of};
ghost use Rattle.rt_refs.specs.CellCodes.{asks_box, asks_length, read_proc, write_proc};
ghost use Rattle.rt_refs.specs.FillCodes.{fill_loop, fill_proc};
ghost use Rattle.reference_laws.specs.CallLaws.{Resumes, GoesOnTo};
ghost use Rattle.reference_laws.specs.CellLaws.{under, CellStands, TrapsAt, TellsAt};
ghost use Rattle.reference_laws.specs.CellLaws.{ComesWhere};
ghost use Rattle.reference_laws.specs.FillLaws.{ComesToVector};
ghost use Rattle.reference_laws.specs.ReferenceLaws.{CallsAreMade, ElementsAreRead, ElementsAreWritten};
ghost use Rattle.reference_laws.specs.ReferenceLaws.{BoxWritesAreBlamed};

/// A call of a function with a proxy, of six arguments at most, finds the bare function, and casts the arguments, one
/// after another from the first on, by the parts of the proxy's coercion. Then it comes to the call of that function,
/// which is handed its own address and what the arguments were cast to; one procedure more waits, which casts the
/// answer. Where an argument's cast blames a label, that is blamed, with the arguments before it cast and none behind
/// it. Or the region is exhausted. On the way whole objects fill the region and nothing that was there changes. Steps,
/// words, price and the room of frames are told argument by argument: no words are asked for but those of the casts.
pub fn calls_are_made<V>()
    ensures { CallsAreMade V }
{}

/// With the word of the function's answer in its place, what waits since such a call goes on to what the cast of that
/// answer by the last part of the proxy's coercion comes to.
pub fn answers_are_cast<V>()
    ensures { (reading : Halt → Ending V) (setting : Setting) (l : Layout) (first : ℕ) (s : LowState)
        → reading (Lacks Region) ≡ Exhausted → IsReady setting l first → l.tallest ≤ MOST_HEIGHT
        → (objects : List Object) → Filled setting l objects (heap_of s) → (head : ℕ → TypeHead) (w : Waiting)
        (c : Coercion) → Resumes l first objects w c → (u : Merged ℕ) (wv : ℕ) → Carries l objects u wv
        → (r : Outcome ℕ) → cast_value head l.types c u ≡ r → (r ≡ Stuck → ⊥)
        → GoesOnTo reading setting l s (IsVery l) objects w wv r (cast_cost l.width l.tallest + 1)
        (4 * l.tallest + 6) (cast_words_of l c u) (cast_price_of l c u + 70) }
{}

/// A read of a box, whose index is 0, or of an element of a vector comes to what the cast of that element comes to, by
/// the part for reads of its proxy's coercion, and by the coercion that does nothing where it has no proxy.
pub fn elements_are_read<V>()
    ensures { ElementsAreRead V }
{}

/// A read with an index outside traps in ten steps, whatever the proxy's coercion is, and changes nothing. An index
/// below 0 is outside too.
pub fn indices_outside_trap<V>()
    ensures { (reading : Halt → Ending V) (setting : Setting) (l : Layout) (first : ℕ) (s : LowState)
        → reading (Lacks Region) ≡ Exhausted → IsReady setting l first → l.tallest ≤ MOST_HEIGHT
        → (objects : List Object) → Filled setting l objects (heap_of s) → (u : Merged ℕ) (wv : ℕ)
        → Carries l objects u wv → (a : ℕ) → under u ≡ Some a → (ws : List ℕ) → CellStands l objects s.memory a ws
        → (which i : ℕ) → (which == asks_length) ≡ false → length ws ≤ i
        → ComesWhere reading setting l s (read_proc (cast first)) (which ∷ wv ∷ i ∷ [])
        (TrapsAt reading setting l s Index) 10 0 0 73 }
{}

/// The length of a vector is returned in eight steps, whatever its proxy's coercion is, and nothing changes.
pub fn lengths_are_told<V>()
    ensures { (reading : Halt → Ending V) (setting : Setting) (l : Layout) (first : ℕ) (s : LowState)
        → reading (Lacks Region) ≡ Exhausted → IsReady setting l first → (objects : List Object)
        → Filled setting l objects (heap_of s) → (u : Merged ℕ) (wv : ℕ) → Carries l objects u wv → (a : ℕ)
        → under u ≡ Some a → (ws : List ℕ) → CellStands l objects s.memory a ws → (i : ℕ)
        → ComesWhere reading setting l s (read_proc (cast first)) (asks_length ∷ wv ∷ i ∷ [])
        (TellsAt setting l s objects (length ws)) 8 0 0 57 }
{}

/// A write to a box, whose index is 0, or to an element of a vector comes to a return of 0 where the element is the
/// word of what the cast of the value comes to, by the part for writes of its proxy's coercion, and nothing else that
/// was there has changed; or to the blame of that cast, with nothing written.
pub fn elements_are_written<V>()
    ensures { ElementsAreWritten V }
{}

/// Where the cast of a value that is written to a box blames a label, the write comes to that blame, with nothing
/// written, whatever words the cell has.
pub fn box_writes_are_blamed<V>()
    ensures { BoxWritesAreBlamed V }
{}

/// A write with an index outside a vector traps in ten steps, before the value is cast and whatever the proxy's
/// coercion is, and changes nothing.
pub fn writes_outside_trap<V>()
    ensures { (reading : Halt → Ending V) (setting : Setting) (l : Layout) (first : ℕ) (s : LowState)
        → reading (Lacks Region) ≡ Exhausted → IsReady setting l first → l.tallest ≤ MOST_HEIGHT
        → (objects : List Object) → Filled setting l objects (heap_of s) → (u : Merged ℕ)
        (wv : ℕ) → Carries l objects u wv → (a : ℕ) → under u ≡ Some a → (ws : List ℕ)
        → CellStands l objects s.memory a ws → (which i word : ℕ) → (which == asks_box) ≡ false → length ws ≤ i
        → ComesWhere reading setting l s (write_proc (cast first)) (which ∷ wv ∷ i ∷ word ∷ [])
        (TrapsAt reading setting l s Index) 10 0 0 73 }
{}

/// Fill returns the address of a new vector behind all other objects, of so many times a word, or the region is
/// exhausted. The vector takes one word for each element and one for its header; nothing that was there changes, and
/// whole objects fill the region at every state on the way, since the allocation word moves when all words are stored.
/// Its price is 61 instructions an element and 124.
pub fn vectors_are_made<V>()
    ensures { (reading : Halt → Ending V) (setting : Setting) (l : Layout) (s : LowState)
        → reading (Lacks Region) ≡ Exhausted → Placed setting l → l.region ≡ setting.region
        → setting.top ≤ l.region + 2 ^ 34 → (own : ℕ) → slice_get setting.procs own ≡ Some (fill_loop own)
        → (objects : List Object) → Filled setting l objects (heap_of s) → (n w : ℕ) → w < 2 ^ 64 → n < 2 ^ 63
        → ComesToVector reading setting l s objects (fill_proc own) n w (4 * n + 13) (61 * n + 124) }
{}

/// A length below 0 traps within one step, whose price is 14 at most, and changes nothing.
pub fn lengths_below_zero_trap<V>()
    ensures { (reading : Halt → Ending V) (setting : Setting) (l : Layout) (s : LowState)
        → reading (Lacks Region) ≡ Exhausted → Placed setting l → l.region ≡ setting.region
        → setting.top ≤ l.region + 2 ^ 34 → (own : ℕ) → slice_get setting.procs own ≡ Some (fill_loop own)
        → (objects : List Object) → Filled setting l objects (heap_of s) → (n w : ℕ) → w < 2 ^ 64 → 2 ^ 63 ≤ n
        → n < 2 ^ 64
        → ComesWhere reading setting l s (fill_proc own) (n ∷ w ∷ []) (TrapsAt reading setting l s Length) 1 0 0 14 }
{}
