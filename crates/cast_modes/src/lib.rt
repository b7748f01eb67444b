//! What casts do to values, whatever a cast is: modes, the values of runs, the steps that they make, how runs are
//! counted, and what their turns cost.
//!
//! The definitions stand in `specs`. A function here has an empty body: its contract is a law of them.
#![tactic(auto)]

ghost use Rattle.std.specs.Prelude.{◌≡◌, ℕ};
ghost use Rattle.run_laws.specs.Reductions.{Reduction, state_after};
ghost use Rattle.cast_modes.specs.Counting.{Counted, counted};

/// Whatever is counted, a run goes through the same states.
pub fn counting_changes_no_state<S, A, V>()
    ensures { (reduction : Reduction S A V) (words wraps frames : S → ℕ) (n : ℕ) (s : Counted S)
        → (state_after (counted words wraps frames reduction) s n).state ≡ state_after reduction s.state n }
{}
