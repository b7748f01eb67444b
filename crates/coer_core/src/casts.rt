// The distinct casts of a term, with their numbers.

ghost use Rattle.std.specs.Prelude.{◌≡◌, IfOk, OnOk};
ghost use Rattle.coer_core.specs.Conversion.{cast_view, cast_views, number_of, with_cast};

use coercion_norm::casts::Cast;
use grift_base::lists::OutOfMemory;
use grift_base::tables::Numbered;

// Distinct casts in order of first use. A cast's number is its place, from 0.
pub type Casts = Numbered<Cast>;

// The number of this cast, which is added at the end where it is not there yet. `OutOfMemory` comes only where it would
// be added: no memory is left for it, or there are as many casts as a table can have.
pub fn number(casts: &mut Casts, cast: Cast) -> Result<u32, OutOfMemory>
    ensures number { IfOk result (λ number. number ≡ number_of (cast_views casts.old) (cast_view cast)) }
    ensures casts { OnOk result (cast_views casts.new ≡ with_cast (cast_views casts.old) (cast_view cast)) }
{
    casts.intern(cast)
}
