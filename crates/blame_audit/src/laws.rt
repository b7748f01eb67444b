// Laws of the audit. Each function has an empty body: its contract is a law, proved for all programs, and over all
// tables of types, also where types have cycles.

ghost use Rattle.std.specs.Prelude.{◌≡◌, ℕ, List, Some, slice_get};
ghost use Rattle.grift_base.specs.Tables.{HasNoRepeats};
ghost use Rattle.grift_base.specs.declared.places.Pos.{Pos};
ghost use Rattle.grift_base.specs.Types.{TypeRows};
ghost use Rattle.core_calc.specs.Step.{step};
ghost use Rattle.core_calc.specs.Calculus.{CalcState, state_after_step, Program};
ghost use Rattle.cast_rules.specs.Making.{Entry};
ghost use Rattle.cast_rules.specs.Listed.{IsListed};
ghost use Rattle.blame_audit.specs.SafeLabels.{IsSafe};
ghost use Rattle.blame_audit.specs.CastsGoUp.{StateGoesUp};
ghost use Rattle.blame_audit.specs.Claims.{NeverBlames, NeverTellsBlame, CastsStayUp};

/// Where every cast of a label in a state goes up and the label isn't blamed, the same holds after a step.
pub fn steps_keep_casts_up()
    ensures { (types : TypeRows) (p : ℕ) (state : CalcState) → StateGoesUp types p state
        → StateGoesUp types p (state_after_step state (step types state.store state.world state.term)) }
{}

/// A label that is safe by a program's list of casts is blamed by no run of the program, whatever the input: every cast
/// of the label goes up, in every state of every run.
pub fn safe_labels_are_never_blamed()
    ensures up { (program : Program) (entries : List Entry) (p : ℕ) → IsListed entries program.term
        → IsSafe program.types entries p → CastsStayUp program p }
    ensures never { (program : Program) (entries : List Entry) (p : ℕ) → IsListed entries program.term
        → IsSafe program.types entries p → NeverBlames program p }
{}

/// No verdict of a run is the blame of a safe label's place, where no place stands twice in the table of labels.
pub fn no_verdict_blames_a_safe_label()
    ensures { (program : Program) (entries : List Entry) (p : ℕ) (place : Pos) → IsListed entries program.term
        → IsSafe program.types entries p → HasNoRepeats program.labels → slice_get program.labels p ≡ Some place
        → NeverTellsBlame program place }
{}
