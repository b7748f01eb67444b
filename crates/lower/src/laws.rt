// Laws of the merged scheme. A function here does nothing: its contract is a law, proved for all programs.

ghost use Rattle.std.specs.Prelude.{◌≡◌, true, ℕ, suc, List, length};
ghost use Rattle.grift_base.specs.Types.{TypeRow};
ghost use Rattle.flat_ir.specs.Bodies.{Proc as FlatProc};
ghost use Rattle.flat_ir.specs.Closed.{is_closed as is_closed_flat};
ghost use Rattle.low_ir.specs.Closed.{is_closed};
ghost use Rattle.lowered_code.specs.declared.served.CastWay.{CastWay};
ghost use Rattle.lowered_code.specs.Lowered.{lowered};
ghost use Rattle.lower.specs.Following.{WordsFollowBy};
ghost use Rattle.lower.specs.Sets.{with_casts};
ghost use Rattle.lower.specs.SimulationClaims.{RegionIsRow, StorageIsWhole};
ghost use Rattle.lower.specs.MergedMeaning.{merged_meaning};
ghost use Rattle.lower.specs.MergedProcs.{merged_numbers, merged_procs};

/// The procedures over words of a closed flat program are closed with those of the merged scheme behind them, whatever
/// the words of casts are and however these are made.
pub fn merged_programs_are_closed()
    ensures { (words : List ℕ) (ways : List CastWay) (flat : List FlatProc) (entry : ℕ) (answer : TypeRow)
        → is_closed_flat flat entry ≡ true → let first : ℕ = suc (length flat) in
        is_closed (lowered (with_casts (merged_numbers first) words ways) flat entry answer (merged_procs first))
        (length flat) ≡ true }
{}

/// The run over words follows the run of numbered procedures in the merged mode, where a value has one proxy at most,
/// with one coercion. At each moment of the run over words whole objects fill the region up to the allocation word, and
/// are a row without gaps for a walk of it.
pub fn words_follow_procedures()
    ensures storage { WordsFollowBy StorageIsWhole merged_meaning merged_procs merged_numbers }
    ensures rows { WordsFollowBy RegionIsRow merged_meaning merged_procs merged_numbers }
{}
