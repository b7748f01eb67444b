// Laws of frames and of calls. A function here has an empty body: its contract is a law, proved for all runs.

ghost use Rattle.std.specs.Prelude.{◌≡◌, ◌≢◌, ◌↔◌, ◌*◌, ◌+◌, ◌<◌, ◌≤◌, ◌||◌, nat_lt, true, ℕ, Some, slice_get};
ghost use Rattle.std.specs.Prelude.{IsSome, All};
ghost use Rattle.grift_base.specs.World.{WorldState};
ghost use Rattle.run_laws.specs.Runs.{Ending, Run};
ghost use Rattle.run_laws.specs.Machines.{run, Go};
ghost use Rattle.machine_words.specs.Memory.{Memory};
ghost use Rattle.machine_words.specs.Halts.{Halt};
ghost use Rattle.low_ir.specs.Procedures.{Proc};
ghost use Rattle.low_ir.specs.Run.{Setting, LowShown, low_machine, low_start};
ghost use Rattle.rv_select.specs.declared.code.Place.TheVariants.{InReg};
ghost use Rattle.rv_select.specs.declared.code.VReg.TheVariants.{Real};
ghost use Rattle.rv_select.specs.declared.convention.TheConstants.{ANSWER};
ghost use Rattle.rv_select.specs.Run.{Setting as VirtualSetting, VirtualState, may_read, value, back_to};
ghost use Rattle.rv_select.specs.Holding.{SparedByCall};
ghost use Rattle.rv_select.specs.Stacks.{frame_size};
ghost use Rattle.rv_select.specs.Stacks.{frames_size};
ghost use Rattle.rv_select.specs.CodeSizes.{code_size, sets_word};

/// Where no procedure has more than so many words, the frames of the active procedures fill no more bytes than as many
/// frames of so many words, in each state of a run over words.
pub fn frames_fill_no_more_than_the_largest<V>()
    ensures bytes { (reading : Halt → Ending V) (setting : Setting) (most entry : ℕ) (p : Proc) (memory : Memory)
        (world : WorldState) (n : ℕ) → All (λ (q : Proc). q.words ≤ most) setting.procs
        → slice_get setting.procs entry ≡ Some p
        → let x : Run LowShown V = run (low_machine reading setting) (low_start setting p memory world) in
        frames_size (x n).shown.frames (x n).shown.held ≤ (x n).shown.frames * frame_size most }
    ensures size { (count : ℕ) → frame_size count ≡ 8 * (1 + count) }
{}

/// The frame of a procedure that has no word but those that it takes and those that its code sets has no more than 16
/// bytes for each operation of its code, 8 for each word that it takes, and 8.
pub fn frames_go_by_the_size_of_code()
    ensures { (p : Proc) → ((i : ℕ) → i < p.words → (nat_lt i p.params || sets_word i p.code) ≡ true)
        → frame_size p.words ≤ 8 * (1 + p.params + 2 * code_size p.code) }
{}

/// A call spares just those real registers, but the one of the answer, that the run still knows when the call comes
/// back.
pub fn calls_spare_what_is_known_behind_them<V>()
    ensures { (reading : Halt → Ending V) (setting : VirtualSetting) (t behind : VirtualState) (r : ℕ)
        → back_to reading setting t.frames t ≡ Go behind → r ≢ ANSWER → may_read r ≡ true
        → SparedByCall (InReg r) ↔ IsSome (value behind (Real r)) }
{}
