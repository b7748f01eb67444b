// The scheme.

use crate::procs::piled_procs;
use crate::words::words_of;
use coercion_norm::cast_rows::CastRows;
use coercion_norm::placing::place_rows;
use coercion_norm::tables::CoercionTable;
use grift_base::lists::OutOfMemory;
use grift_base::words::Statics;
use lower::schemes::{ProcSet, Scheme};
use std::alloc::Global;
use type_graph::tables::TypeTable;

/// Casts that pile up, for boxes of integers, truth values and unit.
#[derive(Clone, Copy)]
pub struct Piled;

impl Scheme for Piled {
    ghost use Rattle.piled_scheme.specs.Codes.{piled_numbers, piled_procs};
    ghost use Rattle.coercion_norm.specs.CastRows.{row_casts};
    ghost use Rattle.piled_scheme.specs.Piling.{AreKnown, piled_layout, piled_meaning};

    ghost meaning = { λ _. piled_meaning };

    ghost procs_from = { λ _ first. piled_procs first };

    ghost numbers_from = { λ _ first. piled_numbers first };

    ghost covers = { λ _ types nodes casts. AreKnown types (row_casts casts) };

    ghost layout = { λ _ types nodes casts start statics region. piled_layout types nodes start statics region };

    fn statics(
        &self,
        alloc: Global,
        types: &TypeTable,
        table: &CoercionTable,
        casts: &CastRows,
        start: u64,
    ) -> Result<Statics, OutOfMemory> {
        let placed = place_rows(alloc, types, table, casts, start)?;
        let cast_at = words_of(alloc, types, casts)?;
        Ok(Statics { cast_at, ..placed })
    }

    fn procs(&self, alloc: Global, first: u32) -> Result<ProcSet, OutOfMemory> {
        Ok(ProcSet {
            procs: piled_procs(alloc, first)?,
            cast: first,
            project: 1 + first,
            apply: 2 + first,
            read: 3 + first,
            write: 4 + first,
            fill: 5 + first,
            multiply: 11 + first,
            divide: 12 + first,
        })
    }

    fn serves(&self) {}
}
