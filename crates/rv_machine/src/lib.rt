//! The machine as definitions: its registers and state, what a turn does, the state in which an
//! image starts, and its run.
//!
//! The definitions stand in `specs`. Each function here has an empty body: its contract is a law of the
//! definitions, proved for all states.
#![tactic(auto)]

pub mod branches;
pub mod real;

ghost use Rattle.std.specs.Prelude.{◌≡◌, ℕ, ℤ, ◌+◌, ◌≤◌, List, Some, None};
ghost use Rattle.run_laws.specs.Machines.{run};
ghost use Rattle.rv_machine.specs.State.{State, Stops, reg};
ghost use Rattle.machine_words.specs.Halts.{Halt};
ghost use Rattle.rv_machine.specs.Turn.{turn_of, act, branch_if, is_undefined, IsFetched};
ghost use Rattle.rv_machine.specs.Start.{start_of, fresh_world};
ghost use Rattle.rv_machine.specs.Mach.{run_of, machine, mach, moment_of};
ghost use Rattle.machine_words.specs.Halts.{IsReading};
ghost use Rattle.machine_words.specs.Memory.{load_bytes};
ghost use Rattle.rv_machine.specs.Real.{Setting, real_machine};
ghost use Rattle.machine_words.specs.Conditions.{holds};
ghost use Rattle.run_laws.specs.Runs.{Ending, NeverWrong};
ghost use Rattle.rv_machine.specs.declared.real.RealItem.{RealItem};
ghost use Rattle.machine_words.specs.declared.conditions.Cond.{Cond};
ghost use Rattle.rv_machine.specs.Branches.{branch_when};
ghost use Rattle.rv_isa.specs.declared.inst.Inst.{Inst};
ghost use Rattle.rv_isa.specs.Table.{IsWordOf};

/// The run of a state is what its turns come to, one after another: it shows the state after them and
/// what was printed, and where a turn has stopped, it has that stop's ending.
pub fn run_is_its_turns()
    ensures states { (s : State) (n : ℕ) → run machine s n ≡ moment_of (run_of n s) }
    ensures images { (bytes : List ℕ) (region stack : ℕ) (input : List ℕ) (n : ℕ)
        → mach bytes region stack input n
        ≡ moment_of (run_of n (start_of bytes region stack (fresh_world input))) }
{}

/// Turns add up: where some turns have all gone on, more turns go on from there.
pub fn later_turns_go_on_from_earlier_ones()
    ensures { (n m : ℕ) (s t : State) → run_of n s ≡ (t, None) → run_of (n + m) s ≡ run_of m t }
{}

/// A turn that stops changes nothing, and every later turn stops in the same way.
pub fn what_has_stopped_stays()
    ensures stays { (n m : ℕ) (s t : State) (halt : Halt) → n ≤ m
        → run_of n s ≡ (t, Some halt) → run_of m s ≡ (t, Some halt) }
    ensures stops_again { (n : ℕ) (s t : State) (halt : Halt)
        → run_of n s ≡ (t, Some halt) → turn_of t ≡ Stops halt }
{}

/// A turn goes by the table of instructions: where the pc is in code, the instruction is the one whose
/// word stands there, and where that is the word of none, the turn stops as undefined.
pub fn turn_goes_by_the_table()
    ensures instruction { (s : State) (i : Inst) → IsFetched s (load_bytes 4 s.memory s.pc)
        → IsWordOf i (load_bytes 4 s.memory s.pc) → turn_of s ≡ act i s }
    ensures undefined { (s : State) → IsFetched s (load_bytes 4 s.memory s.pc)
        → ((i : Inst) → ¬ IsWordOf i (load_bytes 4 s.memory s.pc)) → turn_of s ≡ is_undefined s }
{}

/// A condition holds of the words of two registers exactly where the branch that tests it is taken.
pub fn a_condition_is_that_of_its_branch()
    ensures { (cond : Cond) (a b : ℕ) (offset : ℤ) (s : State)
        → act (branch_when cond a b offset) s ≡ branch_if (holds cond (reg s a) (reg s b)) offset s }
{}

/// Whether a code's run goes wrong doesn't depend on the reading of stops as endings.
pub fn a_run_goes_wrong_under_every_reading<V, W>()
    ensures { (first : Halt → Ending V) (second : Halt → Ending W) (code : List RealItem)
        (setting : Setting) (s : State) → IsReading first → IsReading second
        → NeverWrong (run (real_machine first code setting) s) → NeverWrong (run (real_machine second code setting) s) }
{}
