// Laws of runs over words. A function here has an empty body: its contract is a law, proved for all runs.

ghost use Rattle.std.specs.Prelude.{◌≡◌, ◌*◌, ◌≤◌, ℕ, Some, slice_get, All};
ghost use Rattle.grift_base.specs.World.{WorldState};
ghost use Rattle.run_laws.specs.Runs.{Ending, Run};
ghost use Rattle.run_laws.specs.Machines.{run};
ghost use Rattle.machine_words.specs.Memory.{Memory};
ghost use Rattle.machine_words.specs.Halts.{Halt};
ghost use Rattle.low_ir.specs.Procedures.{Proc};
ghost use Rattle.low_ir.specs.Run.{Setting, LowState, LowShown, code_step, low_machine, low_start};
ghost use Rattle.low_ir.specs.Counting.{CountsWords};
ghost use Rattle.low_ir.specs.Prices.{PaysNext};

/// In each state of a run the words that it took fill the region up to the allocation word, however stops are read.
/// Only where it has stopped for want of region do they exceed it, by those that it asked for last; and it stops for
/// want of region only so, or where the program itself makes environment call 5.
pub fn words_are_counted_where_they_are_taken<V>()
    ensures { (reading : Halt → Ending V) (setting : Setting) (entry : ℕ) (p : Proc) (memory : Memory)
        (world : WorldState) (n : ℕ) → setting.region ≤ setting.top → slice_get setting.procs entry ≡ Some p
        → CountsWords reading setting (run (low_machine reading setting) (low_start setting p memory world) n) }
{}

/// Where no procedure has more than so many words, the active procedures of each state of a run have at most so many
/// each.
pub fn active_procedures_hold_their_words<V>()
    ensures { (reading : Halt → Ending V) (setting : Setting) (most entry : ℕ) (p : Proc) (memory : Memory)
        (world : WorldState) (n : ℕ) → All (λ (q : Proc). q.words ≤ most) setting.procs
        → slice_get setting.procs entry ≡ Some p
        → let x : Run LowShown V = run (low_machine reading setting) (low_start setting p memory world) in
        (x n).shown.held ≤ (x n).shown.frames * most }
{}

/// A step costs no more than what is left to pay of its procedure falls by. Where it goes on in that procedure, as much
/// less is left; where it calls another, which begins, as much less is left of what waits; where another begins in its
/// place, or where it answers the procedure that waits last, that much was left, and of the one that goes on there is
/// left what was left when it began to wait.
pub fn steps_are_paid<V>()
    ensures { (reading : Halt → Ending V) (setting : Setting) (s : LowState)
        → PaysNext setting.procs s (code_step reading setting s.active.code s) }
{}
