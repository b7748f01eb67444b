// Programs of procedures.

ghost use Rattle.std.specs.Prelude.{◌≡◌, ℕ, List, false, length, true, IfOk};
ghost use Rattle.run_laws.specs.{Accounts.{FollowsWithin}, Runs.{Any, FollowsBy, NeverWrong}};
ghost use Rattle.type_graph.specs.TypeTables.{HaveWidths, IsOrderedTable};
ghost use Rattle.grift_base.specs.Types.{TypeRows};
ghost use Rattle.core_calc.specs.{Account.{account, extent, measures_of}, Calculus.{Program}};
ghost use Rattle.core_calc.specs.Typing.{ProgramTermHasType};
ghost use Rattle.cast_modes.specs.{AnswerTypes.{Told}, Modes.{TypeCast, piling}};
ghost use Rattle.coercion_norm.specs.MergedMode.{merging};
ghost use Rattle.coer_core.specs.{Counts.{run_in, told_of}, Terms.{core_of}, Views.{row_term_of}};
ghost use Rattle.coer_core.specs.TurnPrices.{merged_prices, piled_prices};
ghost use Rattle.flat_ir.specs.{Closed.{is_closed}, Counts.{flat_run_in}, Levels.{HaveLevels}, Views.{procs_of}};
ghost use Rattle.flat_ir.specs.FlatTally.{FlatBelow, FlatPaidBelow, flat_tally_in};
ghost use Rattle.closure_convert.specs.{Bounds.{CountsKept}, Conversion.{converted, made}, Programs.{HasNoFreeNames}};

use crate::conversion::Converter;
use crate::dyn_parts::have_words;
use coer_core::program::CoerProgram;
use flat_ir::programs::FlatProgram;
use grift_base::lists::OutOfMemory;
use std::alloc::Global;

/// The procedures of a program, of which the last is the one to begin with, and the type of its answer. Where no name
/// is free in the program's term, they are those that the definition gives, and their run follows the run of the term
/// with environments, for all casts and every input, in both modes, where that never goes wrong: both have made as many
/// wrap steps at moments that correspond, and words asked for, active frames and turns are bounded by those of the
/// given run. Where the term reads back to a program term, each procedure has at most as many local names at a time as
/// that has nodes and binders, and where no type is too wide, the procedures are closed; and their run keeps within the
/// account of the calculus: for all casts and every input in the piled mode, and in the merged mode over types without
/// cycles.
pub fn convert(alloc: Global, program: &CoerProgram) -> Result<FlatProgram, OutOfMemory>
    ensures procs { IfOk result (λ flat. HasNoFreeNames (row_term_of program.now.body)
        → procs_of flat.procs ≡ converted (row_term_of program.now.body)) }
    ensures entry { IfOk result (λ flat. flat.entry ≡ made (row_term_of program.now.body)) }
    ensures answer { IfOk result (λ flat. flat.answer ≡ program.now.answer) }
    ensures closed { IfOk result (λ flat. (casts : List TypeCast) (types : TypeRows) (labels : ℕ) (type : ℕ)
        → HaveWidths types → ProgramTermHasType types labels (core_of casts (row_term_of program.now.body)) type
        → is_closed (procs_of flat.procs) flat.entry ≡ true) }
    ensures levels { IfOk result (λ flat. (casts : List TypeCast) (types : TypeRows) (labels : ℕ) (type : ℕ)
        → let core = core_of casts (row_term_of program.now.body) in
        ProgramTermHasType types labels core type → HaveLevels (extent core) (procs_of flat.procs)) }
    ensures account { IfOk result (λ flat. (casts : List TypeCast) (source : Program) (input : List ℕ) (type : ℕ)
        → source.term ≡ core_of casts (row_term_of program.now.body)
        → ProgramTermHasType source.types (length source.labels) source.term type
        → let mode = piling source.types casts in
        FollowsWithin (FlatBelow 1) FlatPaidBelow
        (flat_tally_in (procs_of flat.procs) flat.entry mode (piled_prices mode (measures_of source))
        (told_of source type) input) (account source input)) }
    ensures merged_account { IfOk result (λ flat. (casts : List TypeCast) (source : Program) (input : List ℕ) (type : ℕ)
        → source.term ≡ core_of casts (row_term_of program.now.body)
        → ProgramTermHasType source.types (length source.labels) source.term type
        → IsOrderedTable source.types
        → let mode = merging source.types casts in
        FollowsWithin (FlatBelow 2) FlatPaidBelow
        (flat_tally_in (procs_of flat.procs) flat.entry mode (merged_prices source.types mode (measures_of source))
        (told_of source type) input) (account source input)) }
    ensures piled { IfOk result (λ flat. HasNoFreeNames (row_term_of program.now.body)
        → (casts : List TypeCast) (told : Told) (input : List ℕ)
        → NeverWrong (run_in (piling told.types casts) told (row_term_of program.now.body) input)
        → FollowsBy CountsKept Any
        (flat_run_in (procs_of flat.procs) flat.entry (piling told.types casts) told input)
        (run_in (piling told.types casts) told (row_term_of program.now.body) input)) }
    ensures merged { IfOk result (λ flat. HasNoFreeNames (row_term_of program.now.body)
        → (casts : List TypeCast) (told : Told) (input : List ℕ)
        → NeverWrong (run_in (merging told.types casts) told (row_term_of program.now.body) input)
        → FollowsBy CountsKept Any
        (flat_run_in (procs_of flat.procs) flat.entry (merging told.types casts) told input)
        (run_in (merging told.types casts) told (row_term_of program.now.body) input)) }
{
    have_words(&program.body);
    let (procs, entry) = Converter::program(alloc, &program.body)?;
    Ok(FlatProgram {
        procs,
        entry,
        answer: program.answer,
    })
}
