// Forms whose parts are elaborated.
#![tactic(auto, using(crate::proofs::Rules::rules), unfolding(cast_rules::specs::Making::then_make))]

ghost use Rattle.std.specs.Prelude.{◌≡◌, ◌≤◌, ◌∷◌, IfOk, None, OnOk, length};
ghost use Rattle.grift_base.specs.Types.{TupleRow, row_at, tuple_part};
ghost use Rattle.type_graph.specs.Rows.{places_of, row_of};
ghost use Rattle.type_graph.specs.TypeTables.{FitsTable};
ghost use Rattle.core_calc.specs.Terms.{NoTerms, TermThen, term_list};
ghost use Rattle.core_calc.specs.Views.{term_of, terms_of};
ghost use Rattle.cast_rules.specs.Making.{blend_at};
ghost use Rattle.cast_rules.specs.Environments.{use_at};
ghost use Rattle.cast_rules.specs.Calls.{project_by};
ghost use Rattle.insert_steps.specs.Views.{Answers, meaning_if, place_if, typed_of, work_of};
ghost use Rattle.insert_steps.specs.Gathered.{call_of_dyn, given_of, if_of, literal_of, part_of_dyn, tuple_of};
ghost use Rattle.cast_rules.specs.Room.{AreParts, Grows};
ghost use Rattle.insert_steps.specs.Onto.{terms_onto};

use crate::casts::CastEntry;
use crate::copies::{put_first, refused};
use crate::names::Meaning;
use crate::progress::{Progress, Typed};
use consistency::blends::blend;
use consistency::checks::consistent;
use core_calc::terms::{Core, CoreList};
use grift_base::lists::OutOfMemory;
use grift_base::made::boxed;
use grift_base::places::{Pos, TypeId};
use grift_base::refusals::{FrontFault, RefusalKind};
use std::alloc::Global;
use type_graph::rows::{Row, TypeIds};

/// Terms with their types.
#[derive(Drop)]
pub struct Given {
    pub terms: CoreList,
    pub types: Vec<TypeId>,
}

/// A term and its place.
#[derive(Drop)]
pub struct Placed {
    pub pos: Pos,
    pub e: Typed,
}

/// A term that is no cast.
pub fn plain(alloc: Global, core: Core, ty: TypeId) -> Result<Typed, OutOfMemory>
    ensures { IfOk result (λ e. typed_of e ≡ record { term = term_of core; type = ty.0; entry = None }) }
{
    let core = boxed(alloc, core)?;
    Ok(Typed {
        core,
        ty,
        entry: None,
    })
}

/// A term whose type has this row.
pub fn literal(
    alloc: Global,
    progress: &mut Progress,
    core: Core,
    row: Row,
) -> Result<Typed, FrontFault>
    requires { FitsTable progress.old.types (row_of row) }
    ensures answer { Answers result typed_of (work_of progress.new)
        (literal_of (term_of core) (row_of row) (work_of progress.old)) }
    ensures grows { OnOk result (Grows progress.old.types progress.new.types) }
{
    let core = boxed(alloc, core)?;
    let ty = progress.form(row)?;
    Ok(Typed {
        core,
        ty,
        entry: None,
    })
}

/// A use of a name with this meaning.
pub fn used(
    alloc: Global,
    progress: &mut Progress,
    pos: Pos,
    meaning: Option<Meaning>,
) -> Result<Typed, FrontFault>
    ensures answer { Answers result typed_of (work_of progress.new)
        (use_at pos (meaning_if meaning) (work_of progress.old)) }
    ensures grows { OnOk result (Grows progress.old.types progress.new.types) }
{
    let Some(meaning) = meaning else {
        return refused(RefusalKind::Unbound, pos);
    };
    let e = plain(alloc, Core::Var(meaning.variable), meaning.ty)?;
    match meaning.written {
        Some(ty) => {
            if meaning.ty.0 == ty.0 {
                return Ok(e);
            }
            Ok(progress.cast_at(alloc, meaning.pos, e, ty)?)
        }
        None => Ok(e),
    }
}

/// A call of a function that is Dyn, whose expression stands at this place.
pub fn called_dyn(
    alloc: Global,
    progress: &mut Progress,
    function_pos: Pos,
    function: Typed,
    given: Given,
) -> Result<Typed, FrontFault>
    requires parts { AreParts progress.old.types (given_of given).types }
    requires few { length (given_of given).types ≤ 6 }
    ensures answer { Answers result typed_of (work_of progress.new)
        (call_of_dyn function_pos (typed_of function) (given_of given) (work_of progress.old)) }
    ensures grows { OnOk result (Grows progress.old.types progress.new.types) }
{
    let dyn_type = progress.form(Row::Dyn)?;
    let parameters = TypeIds::from_slice(alloc, given.types.as_slice())?;
    let whole = progress.form(Row::Fun(parameters, dyn_type))?;
    let called = progress.cast_at(alloc, function_pos, function, whole)?;
    Ok(plain(alloc, Core::Call(called.core, given.terms), dyn_type)?)
}

// The type of a part of a tuple with parts of these types.
fn part_type(parts: &[TypeId], part: i64) -> Option<TypeId>
    ensures { place_if result ≡ tuple_part (TupleRow (places_of parts.now)) part }
{
    if part < 0 {
        return None;
    }
    parts.get(part as usize).copied()
}

// A part of this value that is Dyn, whose expression stands at `pos`.
fn projected_dyn(
    alloc: Global,
    progress: &mut Progress,
    pos: Pos,
    whole: Typed,
    part: i64,
) -> Result<Typed, FrontFault>
    ensures answer { Answers result typed_of (work_of progress.new)
        (part_of_dyn pos (typed_of whole) part (work_of progress.old)) }
    ensures grows { OnOk result (Grows progress.old.types progress.new.types) }
{
    let label = progress.label(pos)?;
    progress.list(CastEntry::Part { label, part })?;
    Ok(plain(alloc, Core::ProjDyn(whole.core, part, label), whole.ty)?)
}

/// A part of this tuple, whose expression stands at `pos`.
pub fn projected(
    alloc: Global,
    progress: &mut Progress,
    pos: Pos,
    part_pos: Pos,
    whole: Typed,
    part: i64,
) -> Result<Typed, FrontFault>
    ensures answer { Answers result typed_of (work_of progress.new)
        (project_by pos part_pos (typed_of whole) part (row_at progress.old.types whole.ty.0)
        (work_of progress.old)) }
    ensures grows { OnOk result (Grows progress.old.types progress.new.types) }
{
    match progress.row(alloc, whole.ty)? {
        Row::Tuple(parts) => {
            let Some(ty) = part_type(parts.as_slice(), part) else {
                return refused(RefusalKind::NoSuchPart, part_pos);
            };
            Ok(plain(alloc, Core::Proj(whole.core, part), ty)?)
        }
        Row::Dyn => projected_dyn(alloc, progress, pos, whole, part),
        _ => refused(RefusalKind::NotTuple, pos),
    }
}

/// A tuple of these parts.
pub fn tuple(alloc: Global, progress: &mut Progress, given: Given) -> Result<Typed, FrontFault>
    requires parts { AreParts progress.old.types (given_of given).types }
    requires least { 1 ≤ length (given_of given).types }
    requires most { length (given_of given).types ≤ 8 }
    ensures answer { Answers result typed_of (work_of progress.new) (tuple_of (given_of given) (work_of progress.old)) }
    ensures grows { OnOk result (Grows progress.old.types progress.new.types) }
{
    let parts = TypeIds::from_slice(alloc, given.types.as_slice())?;
    let ty = progress.form(Row::Tuple(parts))?;
    Ok(plain(alloc, Core::Tuple(given.terms), ty)?)
}

// The blend of two types, which are refused at this place where they aren't consistent.
fn blended(
    alloc: Global,
    progress: &mut Progress,
    pos: Pos,
    a: TypeId,
    b: TypeId,
) -> Result<TypeId, FrontFault>
    ensures answer { Answers result (λ ty. ty.0) (work_of progress.new) (blend_at pos a.0 b.0 (work_of progress.old)) }
    ensures grows { OnOk result (Grows progress.old.types progress.new.types) }
{
    if a.0 >= progress.types.len() || b.0 >= progress.types.len() {
        return Err(FrontFault::OutOfMemory);
    }
    if !consistent(alloc, &progress.types, a, b)? {
        return refused(RefusalKind::NotConsistent, pos);
    }
    Ok(blend(alloc, &mut progress.types, a, b)?)
}

/// The branches of an `if` at the blend of their types.
pub fn joined(
    alloc: Global,
    progress: &mut Progress,
    pos: Pos,
    truth: Typed,
    first: Placed,
    second: Placed,
) -> Result<Typed, FrontFault>
    ensures answer { Answers result typed_of (work_of progress.new)
        (if_of pos (typed_of truth) first.pos (typed_of first.e) second.pos (typed_of second.e)
        (work_of progress.old)) }
    ensures grows { OnOk result (Grows progress.old.types progress.new.types) }
{
    let ty = blended(alloc, progress, pos, first.e.ty, second.e.ty)?;
    let one = progress.cast_to(alloc, first.pos, ty, first.e)?;
    let other = progress.cast_to(alloc, second.pos, ty, second.e)?;
    Ok(plain(alloc, Core::If(truth.core, one.core, other.core), ty)?)
}

/// Terms that were gathered with the last one first, in their order.
pub fn turned(terms: CoreList) -> CoreList
    ensures { terms_of result ≡ terms_onto (term_list (terms_of terms)) NoTerms }
{
    terms.reversed()
}

/// The terms with this one in front.
pub fn terms_first(alloc: Global, e: Typed, terms: CoreList) -> Result<CoreList, OutOfMemory>
    ensures { IfOk result (λ all. terms_of all ≡ TermThen (typed_of e).term (terms_of terms)) }
{
    let rest = boxed(alloc, terms)?;
    Ok(CoreList::Cons(e.core, rest))
}

/// The terms with this one and its type in front.
pub fn given_first(alloc: Global, e: Typed, given: Given) -> Result<Given, OutOfMemory>
    ensures { IfOk result (λ all. given_of all ≡ record {
      terms = TermThen (typed_of e).term (given_of given).terms;
      types = (typed_of e).type ∷ (given_of given).types;
    }) }
{
    let ty = e.ty;
    let mut types = given.types;
    put_first(&mut types, ty)?;
    let terms = terms_first(alloc, e, given.terms)?;
    Ok(Given { terms, types })
}
