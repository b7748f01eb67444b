// Schemes: what stands in memory for casts, and which procedures serve.

ghost use Rattle.std.specs.Prelude.{ℕ, true, List, [], All, IfOk, length};
ghost use Rattle.std.specs.Prelude.{◌≡◌, ◌<◌, ◌≤◌, ◌%◌, ◌^◌, ◌++◌};
ghost use Rattle.grift_base.specs.Types.{TypeRows};
ghost use Rattle.grift_base.specs.declared.words.Statics.{Statics};
ghost use Rattle.machine_words.specs.declared.TheConstants.{FIRST_ADDRESS};
ghost use Rattle.type_graph.specs.Rows.{row_of};
ghost use Rattle.coercion_norm.specs.declared.cast_rows.CastRow.{CastRow};
ghost use Rattle.coercion_norm.specs.CoercionTables.{FitsTypes};
ghost use Rattle.coercion_norm.specs.Held.{Layout};
ghost use Rattle.coercion_norm.specs.Nodes.{Node};
ghost use Rattle.coercion_norm.specs.CastRows.{row_casts};
ghost use Rattle.flat_ir.specs.Closed.{is_closed as is_closed_flat};
ghost use Rattle.flat_ir.specs.Views.{procs_of as flat_procs_of};
ghost use Rattle.low_ir.specs.Closed.{is_closed};
ghost use Rattle.low_ir.specs.Procedures.{Proc};
ghost use Rattle.low_ir.specs.Views.{procs_of};
ghost use Rattle.lowered_code.specs.declared.served.Served.{Served};
ghost use Rattle.lowered_code.specs.CastWays.{cast_ways};
ghost use Rattle.lower.specs.Following.{ServesEverywhere};
ghost use Rattle.lowered_code.specs.Lowered.{lowered};
ghost use Rattle.lower.specs.MadePrograms.{HasProcs, MadeFollows, MadeKeeps, StaticsServe, StaysClosed};
ghost use Rattle.lower.specs.Meanings.{Meaning, MeaningLaws};
ghost use Rattle.lowered_code.specs.Serving.{all_narrow};
ghost use Rattle.lower.specs.Sets.{GiveUpNowhere, ServesAnywhere, numbers_of, with_casts};

use coercion_norm::cast_rows::CastRows;
use coercion_norm::tables::CoercionTable;
use flat_ir::programs::{FlatProcs, FlatProgram};
use grift_base::lists::OutOfMemory;
use grift_base::made::both;
use grift_base::words::{Statics, WordList};
use low_ir::programs::{LowProcs, LowProgram};
use lowered_code::casts::cast_ways;
use lowered_code::copies::push_copies;
use lowered_code::lowering::lowered;
use lowered_code::served::Served;
use machine_words::FIRST_ADDRESS;
use std::alloc::Global;
use type_graph::rows::Row;
use type_graph::tables::TypeTable;

// No program has more procedures than this in front of those that serve.
const MOST_PROCS: u64 = 2_147_483_646;

/// Procedures that serve, and the numbers of those that code calls.
#[derive(Drop)]
pub struct ProcSet {
    pub procs: LowProcs,
    pub cast: u32,
    pub project: u32,
    pub apply: u32,
    pub read: u32,
    pub write: u32,
    pub fill: u32,
    pub multiply: u32,
    pub divide: u32,
}

/// A way to make casts, and what else isn't done in place.
pub trait Scheme {
    // its mode, what its wrappers are, and the test of its storage
    ghost meaning: { Self → Meaning };

    // the procedures, numbered without gaps from a first number on
    ghost procs_from: { Self → ℕ → List Proc };

    // the numbers of those that code calls
    ghost numbers_from: { Self → ℕ → Served };

    // the casts, with their coercions in a table, that it is for
    ghost covers: { Self → TypeRows → List Node → List CastRow → Type 0 };

    // what runs are told of statics for these, from an address on, where a region follows
    ghost layout: { Self → TypeRows → List Node → List CastRow → ℕ → Statics → ℕ → Layout };

    /// What stands in memory from the address `start` on, before the code, with a word for each cast. Where the scheme
    /// covers the casts, types stand there, and the words are those that it hands on for them.
    fn statics(
        &self,
        alloc: Global,
        types: &TypeTable,
        table: &CoercionTable,
        casts: &CastRows,
        start: u64,
    ) -> Result<Statics, OutOfMemory>
        requires aligned { start % 8 ≡ 0 }
        requires low { start < 2 ^ 32 }
        requires fits { FitsTypes types.now table.now }
        requires casts { All (λ cast. cast.coercion.0 < length table.now.nodes) casts.now }
        ensures many { IfOk result (λ statics. length statics.cast_at ≡ length casts.now) }
        ensures serves { IfOk result (λ statics. covers self.now types.now table.now.nodes casts.now
            → (region : ℕ) → StaticsServe (meaning self.now) types.now (row_casts casts.now) start statics region
            (layout self.now types.now table.now.nodes casts.now start statics region)) };

    /// The procedures, numbered from `first` on, 64 at most, the last two of which are those of products and quotients.
    /// Wherever they stand in a program, they are closed there, and take what they are handed. None of them gives up
    /// for want of room: only a request or a frame that doesn't fit does.
    fn procs(&self, alloc: Global, first: u32) -> Result<ProcSet, OutOfMemory>
        requires { first < 2 ^ 31 }
        ensures procs { IfOk result (λ set. procs_of set.procs ≡ procs_from self.now first) }
        ensures numbers { IfOk result (λ set. numbers_of set ≡ numbers_from self.now first) }
        ensures few { IfOk result (λ set. length set.procs ≤ 64) }
        ensures serves { IfOk result (λ set.
            ServesAnywhere (procs_from self.now first) first (numbers_from self.now first)) };

    /// Nothing to do: a law. What the scheme means is lawful, and its procedures do what is asked of them, wherever
    /// they stand in a program.
    fn serves(&self)
        ensures lawful { MeaningLaws (meaning self.now) }
        ensures everywhere { ServesEverywhere (meaning self.now) (procs_from self.now) (numbers_from self.now) };
}

// The numbers of the procedures of a set, the words of casts, and how these are made.
fn served_by(
    alloc: Global,
    set: &ProcSet,
    statics: &Statics,
    types: &TypeTable,
    casts: &CastRows,
) -> Result<Served, OutOfMemory>
    ensures { IfOk result (λ run. run ≡ with_casts (numbers_of set.now) statics.now.cast_at
        (cast_ways types.now (row_casts casts.now))) }
{
    let cast_at = WordList::from_slice(alloc, statics.cast_at.as_slice());
    let (cast_at, ways) = both(cast_at, cast_ways(alloc, types, casts))?;
    Ok(Served {
        cast: set.cast,
        project: set.project,
        apply: set.apply,
        read: set.read,
        write: set.write,
        fill: set.fill,
        multiply: set.multiply,
        divide: set.divide,
        cast_at,
        ways,
    })
}

// The lowered procedures, and behind them those of a set.
fn with_set(
    alloc: Global,
    set: &ProcSet,
    statics: &Statics,
    flat: &FlatProgram,
    answer: &Row,
    types: &TypeTable,
    casts: &CastRows,
) -> Result<LowProcs, OutOfMemory>
    ensures { IfOk result (λ procs. procs_of procs ≡ lowered (with_casts (numbers_of set.now) statics.now.cast_at
        (cast_ways types.now (row_casts casts.now))) (flat_procs_of flat.now.procs) flat.now.entry
        (row_of answer.now) [] ++ procs_of set.now.procs) }
{
    let run = served_by(alloc, set, statics, types, casts)?;
    let mut procs = lowered(alloc, &run, flat, answer)?;
    push_copies(alloc, &mut procs, set.procs.as_slice())?;
    Ok(procs)
}

// One more than the greatest number of 32 bits.
const BEYOND: u64 = 4_294_967_296;

// Whether the captured names of each procedure, and one more, can be counted by a number of 32 bits.
fn are_narrow(procs: &FlatProcs) -> bool
    ensures { result ≡ all_narrow (flat_procs_of procs.now) }
{
    let mut left = procs.as_slice();
    while let [proc, rest @ ..] = left {
        if proc.captured as u64 + 1 >= BEYOND || proc.group as u64 >= BEYOND {
            return false;
        }
        left = rest;
    }
    true
}

/// The program over words of a flat program, over what stands in memory for its casts: the procedures that the
/// definition gives, and behind them those of the scheme. More captured names, or functions in a group, than 32 bits
/// count are answered by want of memory.
pub fn lower_over<S: Scheme>(
    alloc: Global,
    flat: &FlatProgram,
    types: &TypeTable,
    casts: &CastRows,
    statics: Statics,
    scheme: &S,
) -> Result<LowProgram, OutOfMemory>
    requires answer { flat.now.answer.0 < length types.now }
    ensures procs { IfOk result (HasProcs (S.procs_from scheme.now) (S.numbers_from scheme.now)
        flat.now types.now (row_casts casts.now)) }
    ensures entry { IfOk result (λ low. low.entry ≡ length flat.now.procs) }
    ensures statics { IfOk result (λ low. low.statics ≡ statics) }
    ensures closed { IfOk result (StaysClosed flat.now) }
    ensures persists { IfOk result (λ low. GiveUpNowhere (procs_of low.procs)) }
    ensures narrow { IfOk result (λ low. all_narrow (flat_procs_of flat.now.procs) ≡ true) }
{
    let entry = flat.procs.len();
    if entry > MOST_PROCS || !are_narrow(&flat.procs) {
        return Err(OutOfMemory);
    }
    let entry = entry as u32;
    let set = scheme.procs(alloc, entry + 1)?;
    let answer = types.row(flat.answer);
    let procs = with_set(alloc, &set, &statics, flat, answer, types, casts)?;
    Ok(LowProgram {
        procs,
        entry,
        statics,
    })
}

/// The program over words of a flat program, whose casts are made as the scheme says where they aren't made in
/// place: the procedures that the definition gives, behind them those of the scheme, and what stands in memory for its
/// casts, which serves the scheme where that covers the casts. It is closed where the flat program is. Then its run
/// follows that of the numbered procedures in the mode of the scheme, wherever it is loaded, within their account. No
/// procedure gives up for want of room by itself.
pub fn lower_with<S: Scheme>(
    alloc: Global,
    flat: &FlatProgram,
    types: &TypeTable,
    casts: &CastRows,
    coercions: &CoercionTable,
    scheme: &S,
) -> Result<LowProgram, OutOfMemory>
    requires answer { flat.now.answer.0 < length types.now }
    requires fits { FitsTypes types.now coercions.now }
    requires casts { All (λ cast. cast.coercion.0 < length coercions.now.nodes) casts.now }
    ensures procs { IfOk result (HasProcs (S.procs_from scheme.now) (S.numbers_from scheme.now)
        flat.now types.now (row_casts casts.now)) }
    ensures entry { IfOk result (λ low. low.entry ≡ length flat.now.procs) }
    ensures casts { IfOk result (λ low. length low.statics.cast_at ≡ length casts.now) }
    ensures closed { IfOk result (StaysClosed flat.now) }
    ensures persists { IfOk result (λ low. GiveUpNowhere (procs_of low.procs)) }
    ensures serves { IfOk result (λ low. S.covers scheme.now types.now coercions.now.nodes casts.now → (region : ℕ)
        → StaticsServe (S.meaning scheme.now) types.now (row_casts casts.now) FIRST_ADDRESS low.statics region
        (S.layout scheme.now types.now coercions.now.nodes casts.now FIRST_ADDRESS low.statics region)) }
    ensures follows { IfOk result (λ low. S.covers scheme.now types.now coercions.now.nodes casts.now
        → is_closed_flat (flat_procs_of flat.now.procs) flat.now.entry ≡ true
        → MadeFollows (S.meaning scheme.now)
        (S.layout scheme.now types.now coercions.now.nodes casts.now FIRST_ADDRESS low.statics)
        flat.now types.now (row_casts casts.now) low) }
    ensures keeps { IfOk result (λ low. S.covers scheme.now types.now coercions.now.nodes casts.now
        → is_closed_flat (flat_procs_of flat.now.procs) flat.now.entry ≡ true
        → MadeKeeps (S.meaning scheme.now)
        (S.layout scheme.now types.now coercions.now.nodes casts.now FIRST_ADDRESS low.statics)
        flat.now types.now (row_casts casts.now) low) }
{
    scheme.serves();
    types.row(flat.answer);
    let statics = scheme.statics(alloc, types, coercions, casts, FIRST_ADDRESS)?;
    lower_over(alloc, flat, types, casts, statics, scheme)
}
