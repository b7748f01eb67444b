//! What a run is, what it means that one run follows another, and the laws of following.
//!
//! A run gives a moment for each bound: what is shown, the output so far, and the ending if it has
//! ended. The definitions stand in `specs`. Each function here has an empty body: its contract is a
//! law, proved for all runs and machines. The laws that speak of relations between states are lemmas,
//! which a clause can't say: simulation, lockstep and rounds. `proofs/Public.antt` has all that other
//! crates cite.
#![tactic(auto)]

ghost use Rattle.std.specs.Prelude.{◌≡◌, ℕ, ◌+◌};
ghost use Rattle.run_laws.specs.Runs.{Ending, Run, NeverWrong, NeverExhausted, StaysEnded, OutputGrows, Follows};
ghost use Rattle.run_laws.specs.Runs.{SameAnswer, FollowsBy, Same, Any};
ghost use Rattle.run_laws.specs.Machines.{Machine, and_then, steps, run, OnlyAddsOutput};
ghost use Rattle.run_laws.specs.Reductions.{Reduction, state_after, reduction_run, ReductionOnlyAddsOutput, machine_of};
ghost use Rattle.run_laws.specs.Meters.{Metered, unspent, metered, metered_reduction, SameButMeter, each_one, Spends};
ghost use Rattle.run_laws.specs.Meters.{EndsInTime, ComesInTime};
ghost use Rattle.run_laws.specs.Accounts.{FollowsWithin, KeepsBudget, ComesWithin};

/// Each run that never goes wrong follows itself, and shows the same.
pub fn each_run_follows_itself<A, V>()
    ensures { (x : Run A V) → NeverWrong x → FollowsBy Same Same x x }
{}

/// A run that follows a second, which follows a third, follows the third.
pub fn follows_is_transitive<A, B, C, V>()
    ensures { (x : Run A V) (y : Run B V) (z : Run C V) → Follows x y → Follows y z → Follows x z }
{}

/// A run that follows another never goes wrong.
pub fn follower_never_goes_wrong<A, B, V>()
    ensures { (x : Run A V) (y : Run B V) → Follows x y → NeverWrong x }
{}

/// A run that follows another gives no answer but the other's: where it has a verdict and the other
/// has ended, both have the same verdict and the same output.
pub fn follower_gives_same_answer<A, B, V>()
    ensures { (x : Run A V) (y : Run B V) → Follows x y → StaysEnded y → SameAnswer x y }
{}

/// A run that follows another, at moments of the same output, and never runs out of a resource is
/// followed by the other.
pub fn what_never_runs_out_is_followed_back<A, B, V>()
    ensures { (x : Run A V) (y : Run B V) → NeverExhausted x → FollowsBy Any Any x y → Follows y x }
{}

/// What has ended stays as it is, with its output, its ending and what it shows.
pub fn what_has_ended_stays<S, A, V>()
    ensures machines { (m : Machine S A V) (s : S) → StaysEnded (run m s) }
    ensures reductions { (m : Reduction S A V) (s : S) → StaysEnded (reduction_run m s) }
{}

/// Where no step takes output back, a later moment's output begins with an earlier one's.
pub fn output_only_grows<S, A, V>()
    ensures machines { (m : Machine S A V) (s : S) → OnlyAddsOutput m → OutputGrows (run m s) }
    ensures reductions { (m : Reduction S A V) (s : S)
        → ReductionOnlyAddsOutput m → OutputGrows (reduction_run m s) }
{}

/// A run goes on from where it has come to: more steps lead where they lead from there.
pub fn later_steps_go_on_from_earlier_ones<S, A, V>()
    ensures machines { (m : Machine S A V) (s : S) (n k : ℕ)
        → steps m s (n + k) ≡ and_then (steps m s n) (λ s'. steps m s' k) }
    ensures reductions { (m : Reduction S A V) (s : S) (n k : ℕ)
        → state_after m s (n + k) ≡ state_after m (state_after m s n) k }
{}

/// The run of a reduction, which may have ended after no step, and the run of its machine, which
/// makes one more step to stop, are at the same moment until the reduction ends, and then the
/// machine comes there one step later. So they follow each other and show the same, unless they go
/// wrong.
pub fn reduction_and_machine_follow_each_other<S, A, V>()
    ensures before_end { (m : Reduction S A V) (s : S) (n : ℕ)
        → (reduction_run m s n).ending ≡ None → run (machine_of m) s n ≡ reduction_run m s n }
    ensures after_end { (m : Reduction S A V) (s : S) (n : ℕ) (e : Ending V)
        → (reduction_run m s n).ending ≡ Some e
        → run (machine_of m) s (n + 1) ≡ reduction_run m s n }
    ensures reduction { (m : Reduction S A V) (s : S) → NeverWrong (reduction_run m s)
        → FollowsBy Same Same (reduction_run m s) (run (machine_of m) s) }
    ensures machine { (m : Reduction S A V) (s : S) → NeverWrong (reduction_run m s)
        → FollowsBy Same Same (run (machine_of m) s) (reduction_run m s) }
{}

/// A run with a meter is at each bound the same but for the meter, whatever a step costs.
pub fn meter_changes_nothing_else<S, A, V>()
    ensures machines { (m : Machine S A V) (work : S → ℕ) (s : Metered S) (n : ℕ)
        → SameButMeter (run (metered work m) s n) (run m s.rest n) }
    ensures reductions { (m : Reduction S A V) (work : S → ℕ) (s : Metered S) (n : ℕ)
        → SameButMeter (reduction_run (metered_reduction work m) s n) (reduction_run m s.rest n) }
{}

/// A machine that spends at most `c` times what a run that it follows spends, at one for each of
/// its steps, ends as that run does, or runs out of a resource, within `c` turns for each unit that
/// the run has spent. If no step takes output back, it comes so to whatever the run comes to.
pub fn bounded_spending_bounds_turns<T, A, B, V>()
    ensures ends { (m : Machine T B V) (t : T) (c : ℕ) (y : Run (Metered A) V)
        → FollowsBy Any (Spends c) (run (metered each_one m) (unspent t)) y
        → EndsInTime c (run m t) y }
    ensures comes { (m : Machine T B V) (t : T) (c : ℕ) (y : Run (Metered A) V) → OnlyAddsOutput m
        → FollowsBy Any (Spends c) (run (metered each_one m) (unspent t)) y
        → ComesInTime c (run m t) y }
{}

/// A machine that follows a run within an account of that run's moments, which bounds what the machine
/// spends at one for each step, comes in as many turns to whatever the run comes to, or runs out of a
/// resource. No step takes output back.
pub fn an_account_bounds_turns<T, A, B, V>()
    ensures { (m : Machine T B V) (t : T) (budget : A → ℕ) (y : Run A V) → OnlyAddsOutput m
        → FollowsWithin Any (KeepsBudget budget) (run (metered each_one m) (unspent t)) y
        → ComesWithin budget (run m t) y }
{}
