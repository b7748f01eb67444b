// The scheme of the merged mode.

ghost use Rattle.std.specs.Prelude.{◌≡◌, ◌<◌, ◌^◌, true, All, IfOk, length};
ghost use Rattle.machine_words.specs.declared.TheConstants.{FIRST_ADDRESS};
ghost use Rattle.coercion_norm.specs.CoercionTables.{FitsTypes};
ghost use Rattle.coercion_norm.specs.CastRows.{row_casts};
ghost use Rattle.coercion_norm.specs.Statics.{AreStatics};
ghost use Rattle.flat_ir.specs.Views.{procs_of as flat_procs_of};
ghost use Rattle.low_ir.specs.Views.{procs_of};
ghost use Rattle.lowered_code.specs.Serving.{all_narrow};
ghost use Rattle.lower.specs.MadePrograms.{HasProcs, StaysClosed};
ghost use Rattle.lower.specs.MergedProcs.{merged_numbers, merged_procs};

use crate::schemes::{ProcSet, Scheme, lower_over};
use coercion_norm::cast_rows::CastRows;
use coercion_norm::placing::place_rows;
use coercion_norm::tables::CoercionTable;
use flat_ir::programs::FlatProgram;
use grift_base::lists::OutOfMemory;
use grift_base::words::Statics;
use low_ir::programs::{LowProcs, LowProgram};
use lowered_code::copies::push_copies;
use machine_words::FIRST_ADDRESS;
use machine_words::words::are_words;
use rt_cast::numbers::{CAST_PROCS, CastProc};
use rt_cast::procs::cast_procs;
use rt_refs::numbers::RefProc;
use rt_refs::procs::ref_procs;
use std::alloc::Global;
use type_graph::tables::TypeTable;

/// Casts by coercions: a value has one wrapper at most.
#[derive(Clone, Copy)]
pub struct Merged;

// Casts and what they call; apply, read, write and fill; products and quotients.
fn merged_procs(alloc: Global, first: u32) -> Result<LowProcs, OutOfMemory>
    requires { first < 2 ^ 31 }
    ensures { IfOk result (λ procs. procs_of procs ≡ merged_procs first) }
{
    let mut procs = cast_procs(alloc, first)?;
    let others = ref_procs(alloc, CAST_PROCS + first, CastProc::Cast.number(first))?;
    push_copies(alloc, &mut procs, others.as_slice())?;
    Ok(procs)
}

impl Scheme for Merged {
    ghost use Rattle.coer_core.specs.Programs.{HaveCoercions};
    ghost use Rattle.lower.specs.MergedMeaning.{merged_layout, merged_meaning};
    ghost use Rattle.lower.specs.MergedProcs.{merged_numbers, merged_procs};

    ghost meaning = { λ _. merged_meaning };

    ghost procs_from = { λ _ first. merged_procs first };

    ghost numbers_from = { λ _ first. merged_numbers first };

    ghost covers = { λ _ types nodes casts. HaveCoercions types nodes casts };

    ghost layout = { λ _ types nodes casts start statics region. merged_layout types nodes casts start statics region };

    fn statics(
        &self,
        alloc: Global,
        types: &TypeTable,
        table: &CoercionTable,
        casts: &CastRows,
        start: u64,
    ) -> Result<Statics, OutOfMemory> {
        let placed = place_rows(alloc, types, table, casts, start)?;
        are_words(placed.cast_at.as_slice());
        Ok(placed)
    }

    fn procs(&self, alloc: Global, first: u32) -> Result<ProcSet, OutOfMemory> {
        let behind = CAST_PROCS + first;
        Ok(ProcSet {
            procs: merged_procs(alloc, first)?,
            cast: CastProc::Cast.number(first),
            project: CastProc::Project.number(first),
            apply: RefProc::Apply.number(behind),
            read: RefProc::Read.number(behind),
            write: RefProc::Write.number(behind),
            fill: RefProc::Fill.number(behind),
            multiply: RefProc::Multiply.number(behind),
            divide: RefProc::Divide.number(behind),
        })
    }

    fn serves(&self) {}
}

/// The program over words of a flat program over the merged scheme. What stands in memory are its types and coercions,
/// from the first address on. It is closed where the flat program is.
pub fn lower(
    alloc: Global,
    flat: &FlatProgram,
    types: &TypeTable,
    casts: &CastRows,
    coercions: &CoercionTable,
) -> Result<LowProgram, OutOfMemory>
    requires answer { flat.now.answer.0 < length types.now }
    requires fits { FitsTypes types.now coercions.now }
    requires casts { All (λ cast. cast.coercion.0 < length coercions.now.nodes) casts.now }
    ensures procs { IfOk result
        (HasProcs merged_procs merged_numbers flat.now types.now (row_casts casts.now)) }
    ensures entry { IfOk result (λ low. low.entry ≡ length flat.now.procs) }
    ensures statics { IfOk result (λ low.
        AreStatics types.now coercions.now.nodes casts.now FIRST_ADDRESS low.statics) }
    ensures closed { IfOk result (StaysClosed flat.now) }
    ensures narrow { IfOk result (λ low. all_narrow (flat_procs_of flat.now.procs) ≡ true) }
{
    let statics = place_rows(alloc, types, coercions, casts, FIRST_ADDRESS)?;
    lower_over(alloc, flat, types, casts, statics, &Merged)
}
