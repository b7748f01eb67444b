// Laws of the calculus. Each function has an empty body: its contract is a law, proved for all programs.

ghost use Rattle.std.specs.Prelude.{◌≡◌, ◌≢◌, ◌↔◌, [], IsTrue, ℕ, ℤ, Bool, false, List, length, Some, None};
ghost use Rattle.std.specs.Prelude.{option_map};
ghost use Rattle.std.specs.Int.{w64};
ghost use Rattle.std.specs.Int.RustNames.{FitsSigned};
ghost use Rattle.run_laws.specs.Runs.{Verdict as EndsWith, NeverWrong, StaysEnded, OutputGrows};
ghost use Rattle.run_laws.specs.Reductions.{ReductionOnlyAddsOutput};
ghost use Rattle.grift_base.specs.World.{WorldState};
ghost use Rattle.grift_base.specs.Types.{TypeRow, IntRow, BoolRow, UnitRow, DynRow, TypeRows, row_at};
ghost use Rattle.grift_base.specs.Types.{TypeHead, equal_heads, head_of, is_dyn};
ghost use Rattle.grift_base.specs.declared.places.Pos.{Pos};
ghost use Rattle.grift_base.specs.declared.verdicts.Answer.{Answer};
ghost use Rattle.grift_base.specs.declared.verdicts.AnswerKind.{AnswerKind};
ghost use Rattle.grift_base.specs.declared.verdicts.Verdict.TheVariants.{Answer as AnswerVerdict};
ghost use Rattle.core_calc.specs.Terms.{Term, Value, IntValue, BoolValue, UnitValue, InjectValue, as_value};
ghost use Rattle.core_calc.specs.Substitution.{substitute};
ghost use Rattle.core_calc.specs.Outcome.{Store, Stuck, inside};
ghost use Rattle.core_calc.specs.Redex.{focus, here, evaluated_parts, first_unevaluated, IsFocusThrough};
ghost use Rattle.core_calc.specs.Step.{step};
ghost use Rattle.core_calc.specs.Typing.{Context, CellType, IsTypeTable, HasType, ValueHasType, StoreHasTypes};
ghost use Rattle.core_calc.specs.Typing.{StateHasType, Stands, KeepsType, kind_of_type, ProgramTermHasType};
ghost use Rattle.core_calc.specs.ValueHeads.{value_head};
ghost use Rattle.core_calc.specs.Calculus.{Answered, shown_value, CalcState, Program, calculus, calc};

/// No step takes output back, so along a run the output only grows.
pub fn output_only_grows()
    ensures steps { (types : TypeRows) (labels : List Pos) → ReductionOnlyAddsOutput (calculus types labels) }
    ensures runs { (program : Program) (input : List ℕ) → OutputGrows (calc program input) }
{}

/// A value takes no step, and a program that is a value has ended after none, with its answer.
pub fn value_has_ended()
    ensures takes_no_step { (types : TypeRows) (store : Store) (world : WorldState) (term : Term) (v : Value)
        → as_value term ≡ Some v → step types store world term ≡ Stuck }
    ensures ended { (program : Program) (input : List ℕ) (v : Value) → as_value program.term ≡ Some v
        → (calc program input 0).ending ≡ Some (EndsWith (AnswerVerdict (shown_value v))) }
{}

/// At each moment of a run it has ended with an answer exactly where its term is a value that is shown so.
pub fn answers_are_values()
    ensures { (program : Program) (input : List ℕ) (n : ℕ) (shown : Answer)
        → let state = (calc program input n).shown in
        (state.ended ≡ Some (Answered shown) ↔ option_map shown_value (as_value state.term) ≡ Some shown) }
{}

/// A run that has ended, with an answer, a blame, a trap or without a next step, stays as it is.
pub fn what_has_ended_stays()
    ensures { (program : Program) (input : List ℕ) → StaysEnded (calc program input) }
{}

/// A term into which no value is put stays as it is.
pub fn empty_substitution_changes_nothing()
    ensures { (term : Term) → substitute term [] ≡ term }
{}

/// Heads of types are compared exactly.
pub fn heads_are_compared_exactly()
    ensures { (head other : TypeHead) → IsTrue (equal_heads head other) ↔ head ≡ other }
{}

/// A state that has a type and whose term is no value has a next step.
pub fn typed_states_take_steps()
    ensures { (types : TypeRows) (labels : ℕ) (state : CalcState) (type : ℕ) → StateHasType types labels state type
        → as_value state.term ≡ None → step types state.store state.world state.term ≢ Stuck }
{}

/// A step of a typed term keeps its type: it blames a label that there is, traps, or goes on to a
/// term of the same type with a store whose cell types begin with those from before.
pub fn steps_keep_types()
    ensures { (types : TypeRows) (labels : ℕ) (cells : List CellType) (store : Store) (world : WorldState)
        (term : Term) (type : ℕ) → IsTypeTable types → StoreHasTypes types labels store cells
        → HasType types labels cells [] term type
        → as_value term ≡ None → KeepsType types labels type cells (step types store world term) }
{}

/// At each moment the state of a typed program has the program's type, and so the run never goes
/// wrong, whatever the input.
pub fn typed_programs_never_go_wrong()
    ensures typed { (program : Program) (input : List ℕ) (type n : ℕ)
        → ProgramTermHasType program.types (length program.labels) program.term type
        → Stands program.types (length program.labels) (calc program input n).shown type }
    ensures never_wrong { (program : Program) (input : List ℕ) (type : ℕ)
        → ProgramTermHasType program.types (length program.labels) program.term type → NeverWrong (calc program input) }
{}

/// The answer of a typed program is of its type's kind; one of type Dyn may be of any.
pub fn answers_have_their_types_kind()
    ensures { (program : Program) (input : List ℕ) (type n : ℕ) (row : TypeRow) (kind : AnswerKind) (shown : Answer)
        → ProgramTermHasType program.types (length program.labels) program.term type
        → row_at program.types type ≡ Some row → kind_of_type row ≡ Some kind
        → (calc program input n).shown.ended ≡ Some (Answered shown) → shown.kind ≡ kind }
{}

/// A term's step is the step of its redex, in the redex's place: the redex stands in the term, what it comes to is put
/// where it stood, and below a redex there is no other. The redex is that of the first part, from left to right, that
/// is evaluated and is no value, one node further down; a term without such a part is the redex itself.
pub fn the_step_is_that_of_the_redex()
    ensures in_place { (term : Term) → (focus term).around (focus term).redex ≡ term }
    ensures steps { (types : TypeRows) (store : Store) (world : WorldState) (term : Term)
        → step types store world term ≡ inside (focus term).around (step types store world (focus term).redex) }
    ensures is_whole { (term : Term) → focus (focus term).redex ≡ here (focus term).redex }
    ensures through_parts { (term : Term)
        → IsFocusThrough (first_unevaluated (evaluated_parts term)) term (focus term) }
{}

/// A term has no more than one type over a table of distinct rows, and neither has a value.
pub fn a_term_has_one_type()
    ensures terms { (types : TypeRows) (labels : ℕ) (cells : List CellType) (context : Context) (term : Term) (a b : ℕ)
        → IsTypeTable types → HasType types labels cells context term a
        → HasType types labels cells context term b → a ≡ b }
    ensures values { (types : TypeRows) (labels : ℕ) (cells : List CellType) (v : Value) (a b : ℕ)
        → IsTypeTable types → ValueHasType types labels cells v a → ValueHasType types labels cells v b → a ≡ b }
{}

/// What a value of a type can be. Seen through its wrappers it has the head of its type: it is a function of that many
/// parameters, a tuple of that many parts, a box or a vector. A value of type Int is an integer of 64 bits, one of type
/// Bool a truth value, one of type Unit the unit, and one of type Dyn a value that keeps its type, which isn't Dyn.
pub fn values_have_their_types_heads()
    ensures heads { (types : TypeRows) (labels : ℕ) (cells : List CellType) (v : Value) (type : ℕ) (row : TypeRow)
        → ValueHasType types labels cells v type → row_at types type ≡ Some row → value_head v ≡ head_of row }
    ensures integers { (types : TypeRows) (labels : ℕ) (cells : List CellType) (v : Value) (type : ℕ)
        → ValueHasType types labels cells v type → row_at types type ≡ Some IntRow
        → (n : ℤ) × (v ≡ IntValue n) × FitsSigned w64 n }
    ensures truth_values { (types : TypeRows) (labels : ℕ) (cells : List CellType) (v : Value) (type : ℕ)
        → ValueHasType types labels cells v type → row_at types type ≡ Some BoolRow → (b : Bool) × (v ≡ BoolValue b) }
    ensures units { (types : TypeRows) (labels : ℕ) (cells : List CellType) (v : Value) (type : ℕ)
        → ValueHasType types labels cells v type → row_at types type ≡ Some UnitRow → v ≡ UnitValue }
    ensures dyns { (types : TypeRows) (labels : ℕ) (cells : List CellType) (v : Value) (type : ℕ)
        → ValueHasType types labels cells v type → row_at types type ≡ Some DynRow
        → (held : Value) × (kept : ℕ) × (row : TypeRow) × (v ≡ InjectValue held kept)
        × ValueHasType types labels cells held kept × (row_at types kept ≡ Some row) × (is_dyn row ≡ false) }
{}
