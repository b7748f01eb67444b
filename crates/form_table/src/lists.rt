// Refusals, and elements of lists.
#![tactic(auto, using(crate::proofs::Steps::list_steps), unfolding(crate::specs::Walking::followed_by))]

ghost use Rattle.std.specs.Prelude.{◌≡◌, ◌==◌, ◌++◌, ◌∷◌, [], IfOk};
ghost use Rattle.sexpr_reader.specs.View.{datum_of, datums_of};
ghost use Rattle.form_table.specs.Marked.{marked, all_marked, reserved_at, how_many};
ghost use Rattle.form_table.specs.Walking.{binder, colon, some, is_colon, is_arrow_at, is_lambda_at, is_define_at};
ghost use Rattle.form_table.specs.Walking.{is_arrow, is_result};
ghost use Rattle.form_table.specs.Claims.{Answers};

use crate::scopes::Scope;
use crate::words::{Mark, Word, mark_of};
use grift_base::lists::Name;
use grift_base::places::Pos;
use grift_base::refusals::{FrontFault, Refusal, RefusalKind};
use sexpr_reader::sexps::{Sexp, SexpList, SexpNode};
use std::alloc::Global;

pub fn refused<T>(kind: RefusalKind, pos: Pos) -> Result<T, FrontFault>
    ensures { result ≡ Err (FrontFault.Refused (record { kind = kind; pos = pos })) }
{
    Err(FrontFault::Refused(Refusal { kind, pos }))
}

pub fn bad_form<T>(pos: Pos) -> Result<T, FrontFault>
    ensures { result ≡ Err (FrontFault.Refused (record { kind = RefusalKind.BadForm; pos = pos })) }
{
    refused(RefusalKind::BadForm, pos)
}

/// The reserved word that stands there, if one does.
pub fn word_at(sexp: &Sexp) -> Option<Word>
    ensures { result ≡ reserved_at (marked (datum_of sexp.now)) }
{
    match &sexp.node {
        SexpNode::Symbol(name) => match mark_of(name.as_slice()) {
            Mark::Reserved(word) => Some(word),
            Mark::Free(_) => None,
        },
        SexpNode::Int(_) | SexpNode::Bool(_) | SexpNode::List(_) => None,
    }
}

/// Whether `:` stands there.
pub fn is_colon_at(sexp: &Sexp) -> bool
    ensures { result ≡ is_colon (marked (datum_of sexp.now)) }
{
    matches!(word_at(sexp), Some(Word::Colon))
}

/// Whether `->` stands there.
pub fn is_arrow_at(sexp: &Sexp) -> bool
    ensures { result ≡ is_arrow_at (marked (datum_of sexp.now)) }
{
    matches!(word_at(sexp), Some(Word::Arrow))
}

/// Whether `lambda` stands there.
pub fn is_lambda_at(sexp: &Sexp) -> bool
    ensures { result ≡ is_lambda_at (marked (datum_of sexp.now)) }
{
    matches!(word_at(sexp), Some(Word::Lambda))
}

/// Whether `define` stands there.
pub fn is_define_at(sexp: &Sexp) -> bool
    ensures { result ≡ is_define_at (marked (datum_of sexp.now)) }
{
    matches!(word_at(sexp), Some(Word::Define))
}

/// Whether there are so many elements.
pub fn has_length(list: &SexpList, wanted: u64) -> bool
    ensures { result ≡ (how_many (all_marked (datums_of list.now)) == wanted) }
{
    match list {
        SexpList::Nil => wanted == 0,
        SexpList::Cons(_, rest) => wanted != 0 && has_length(rest, wanted - 1),
    }
}

/// Refuses a list at this place that has no element there.
pub fn some(pos: Pos, elements: &SexpList) -> Result<bool, FrontFault>
    ensures { Answers result (λ done. done) (some pos (all_marked (datums_of elements.now))) }
{
    match elements {
        SexpList::Nil => bad_form(pos),
        SexpList::Cons(..) => Ok(true),
    }
}

// Whether this is one element that isn't `->`.
fn is_result(elements: &SexpList) -> bool
    ensures { result ≡ is_result (all_marked (datums_of elements.now)) }
{
    match elements {
        SexpList::Nil => false,
        SexpList::Cons(first, rest) => match &**rest {
            SexpList::Nil => !is_arrow_at(first),
            SexpList::Cons(..) => false,
        },
    }
}

/// Whether `->` stands once, as the last element but one.
pub fn is_arrow(elements: &SexpList) -> bool
    ensures { result ≡ is_arrow (all_marked (datums_of elements.now)) }
{
    let mut list = elements;
    while let SexpList::Cons(first, rest) = list {
        if is_arrow_at(first) {
            return is_result(rest);
        }
        list = rest;
    }
    false
}

/// Refuses what isn't `:`.
pub fn colon(sexp: &Sexp) -> Result<bool, FrontFault>
    ensures { Answers result (λ done. done) (colon (marked (datum_of sexp.now))) }
{
    if is_colon_at(sexp) {
        return Ok(true);
    }
    bad_form(sexp.pos)
}

/// A name that a scope binds.
pub fn binder(alloc: Global, scope: &mut Scope, sexp: &Sexp) -> Result<Name, FrontFault>
    ensures name { Answers result (λ name. name) (binder scope.old (marked (datum_of sexp.now))) }
    ensures bound { IfOk result (λ name. scope.new ≡ scope.old ++ name ∷ []) }
{
    let SexpNode::Symbol(name) = &sexp.node else {
        return bad_form(sexp.pos);
    };
    if let Mark::Reserved(_) = mark_of(name.as_slice()) {
        return refused(RefusalKind::ReservedName, sexp.pos);
    }
    let known = Name::from_slice(alloc, name.as_slice())?;
    if !scope.bind(known)? {
        return refused(RefusalKind::RepeatedName, sexp.pos);
    }
    Ok(Name::from_slice(alloc, name.as_slice())?)
}
