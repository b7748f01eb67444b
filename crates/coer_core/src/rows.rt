// Casts with their coercions.

ghost use Rattle.std.specs.Prelude.{◌≡◌, ◌++◌, ◌∷◌, [], All, Contains, IfOk, OnOk};
ghost use Rattle.coercion_norm.specs.CoercionTables.{FitsTypes, IsCast};
ghost use Rattle.coercion_norm.specs.CastRows.{row_cast, row_casts};
ghost use Rattle.coer_core.specs.Conversion.{cast_view, cast_views};
ghost use Rattle.coer_core.specs.Programs.{HaveCoercions, cast_height, tallest_of};

use crate::casts::Casts;
use coercion_norm::cast_rows::{CastRow, CastRows};
use coercion_norm::casts::{Cast, coerce};
use coercion_norm::tables::CoercionTable;
use grift_base::lists::OutOfMemory;
use std::alloc::Global;
use type_graph::tables::TypeTable;

// Each cast with its coercion, which is put into the table, and the height of the highest coercion.
pub fn with_coercions(
    alloc: Global,
    coercions: &mut CoercionTable,
    types: &TypeTable,
    casts: &Casts,
) -> Result<(CastRows, u32), OutOfMemory>
    requires there { All (IsCast types.now) casts.now }
    requires fits { FitsTypes types.now coercions.old }
    ensures rows { IfOk result (λ r. row_casts r.0 ≡ cast_views casts.now) }
    ensures coercions { IfOk result (λ r. HaveCoercions types.now coercions.new.nodes r.0) }
    ensures tallest { IfOk result (λ r. r.1 ≡ tallest_of types.now (cast_views casts.now)) }
    ensures fits { FitsTypes types.now coercions.new }
{
    casts.len();
    let mut rows = CastRows::new(alloc);
    let mut tallest = 0u32;
    for cast in casts.as_slice() {
        let height = add_cast(alloc, coercions, types, &mut rows, *cast)?;
        tallest = tallest.max(height);
    }
    Ok((rows, tallest))
}

// Puts a cast with its coercion behind the others, none of which it is; the answer is the height of the coercion.
fn add_cast(
    alloc: Global,
    coercions: &mut CoercionTable,
    types: &TypeTable,
    rows: &mut CastRows,
    cast: Cast,
) -> Result<u32, OutOfMemory>
    requires there { IsCast types.now cast }
    requires fits { FitsTypes types.now coercions.old }
    requires absent { ¬ Contains (row_casts rows.old) (cast_view cast) }
    requires coercions { HaveCoercions types.now coercions.old.nodes rows.old }
    ensures rows { OnOk result (row_casts rows.new ≡ row_casts rows.old ++ cast_view cast ∷ []) }
    ensures coercions { OnOk result (HaveCoercions types.now coercions.new.nodes rows.new) }
    ensures height { IfOk result (λ h. h ≡ cast_height types.now (cast_view cast)) }
    ensures fits { FitsTypes types.now coercions.new }
{
    coercions.len();
    let coercion = coerce(alloc, coercions, types, cast.from, cast.to, cast.label)?;
    let row = CastRow {
        from: cast.from,
        to: cast.to,
        label: cast.label,
        coercion,
    };
    add(rows, row)?;
    Ok(coercions.height(coercion))
}

// Puts a row behind the others, none of which has its cast.
fn add(rows: &mut CastRows, row: CastRow) -> Result<(), OutOfMemory>
    requires { ¬ Contains (row_casts rows.old) (row_cast row) }
    ensures { OnOk result (rows.new ≡ rows.old ++ row ∷ []) }
{
    rows.intern(row)?;
    Ok(())
}
