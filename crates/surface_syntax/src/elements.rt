// What the elements of a form are, before any of them is read.
#![tactic(auto, using(form_table::proofs::Public::list_steps), unfolding(form_table::specs::Walking::followed_by))]

ghost use Rattle.std.specs.Prelude.{◌≡◌, ◌<◌, IfOk, IfSome};
ghost use Rattle.std.specs.Option.{option_map};
ghost use Rattle.sexpr_reader.specs.declared.sexps.Sexp.{size-Sexp};
ghost use Rattle.sexpr_reader.specs.declared.sexps.SexpList.{size-SexpList};
ghost use Rattle.sexpr_reader.specs.View.{datum_of, datums_of};
ghost use Rattle.form_table.specs.Marked.{marked, all_marked};
ghost use Rattle.form_table.specs.TopWalk.{has_body};
ghost use Rattle.surface_syntax.specs.Elements.{elements, two_of, three_of, range_parts, names_and_body, repeat_parts};
ghost use Rattle.surface_syntax.specs.Elements.{bound_parts, lambda_parts, typed_body, behind_lambda};
ghost use Rattle.form_table.specs.Claims.{Answers};

use form_table::lists::{bad_form, is_colon_at, is_lambda_at, some};
use grift_base::places::Pos;
use grift_base::refusals::FrontFault;
use sexpr_reader::sexps::{Sexp, SexpList, SexpNode};

/// The elements of a list.
pub fn elements(sexp: &Sexp) -> Result<&SexpList, FrontFault>
    ensures elements { Answers result (λ list. all_marked (datums_of list.now)) (elements (marked (datum_of
        sexp.now))) }
    ensures smaller { IfOk result (λ list. size-SexpList list.now < size-Sexp sexp.now) }
{
    match &sexp.node {
        SexpNode::List(elements) => Ok(elements),
        SexpNode::Int(_) | SexpNode::Bool(_) | SexpNode::Symbol(_) => bad_form(sexp.pos),
    }
}

/// The two elements of a list at this place.
pub fn two_of(pos: Pos, list: &SexpList) -> Result<(&Sexp, &Sexp), FrontFault>
    ensures elements { Answers result (λ two. (marked (datum_of two.0.now), marked (datum_of two.1.now))) (two_of pos
        (all_marked (datums_of list.now))) }
    ensures first { IfOk result (λ two. size-Sexp two.0.now < size-SexpList list.now) }
    ensures second { IfOk result (λ two. size-Sexp two.1.now < size-SexpList list.now) }
{
    let SexpList::Cons(first, rest) = list else {
        return bad_form(pos);
    };
    let SexpList::Cons(second, rest) = &**rest else {
        return bad_form(pos);
    };
    let SexpList::Nil = &**rest else {
        return bad_form(pos);
    };
    Ok((first, second))
}

/// Three elements.
#[derive(Clone, Copy)]
pub struct Three<'a> {
    pub first: &'a Sexp,
    pub second: &'a Sexp,
    pub third: &'a Sexp,
}

/// The three elements of a list at this place.
pub fn three_of(pos: Pos, list: &SexpList) -> Result<Three, FrontFault>
    ensures elements { Answers result (λ three. record {
      first = marked (datum_of three.first.now);
      second = marked (datum_of three.second.now);
      third = marked (datum_of three.third.now);
    }) (three_of pos
        (all_marked (datums_of list.now))) }
    ensures first { IfOk result (λ three. size-Sexp three.first.now < size-SexpList list.now) }
    ensures second { IfOk result (λ three. size-Sexp three.second.now < size-SexpList list.now) }
    ensures third { IfOk result (λ three. size-Sexp three.third.now < size-SexpList list.now) }
{
    let SexpList::Cons(first, rest) = list else {
        return bad_form(pos);
    };
    let SexpList::Cons(second, rest) = &**rest else {
        return bad_form(pos);
    };
    let SexpList::Cons(third, rest) = &**rest else {
        return bad_form(pos);
    };
    let SexpList::Nil = &**rest else {
        return bad_form(pos);
    };
    Ok(Three {
        first,
        second,
        third,
    })
}

/// The counter, its first value and the bound in the head of a `repeat`.
pub fn range_parts(sexp: &Sexp) -> Result<Three, FrontFault>
    ensures elements { Answers result (λ three. record {
      first = marked (datum_of three.first.now);
      second = marked (datum_of three.second.now);
      third = marked (datum_of three.third.now);
    }) (range_parts
        (marked (datum_of sexp.now))) }
    ensures second { IfOk result (λ three. size-Sexp three.second.now < size-Sexp sexp.now) }
    ensures third { IfOk result (λ three. size-Sexp three.third.now < size-Sexp sexp.now) }
{
    let list = elements(sexp)?;
    three_of(sexp.pos, list)
}

/// The list of names and the body of a form at this place that binds names.
pub fn names_and_body(pos: Pos, list: &SexpList) -> Result<(&SexpList, &SexpList), FrontFault>
    ensures elements { Answers result (λ two. (all_marked (datums_of two.0.now), all_marked (datums_of two.1.now)))
        (names_and_body pos (all_marked (datums_of list.now))) }
    ensures names { IfOk result (λ two. size-SexpList two.0.now < size-SexpList list.now) }
    ensures body { IfOk result (λ two. size-SexpList two.1.now < size-SexpList list.now) }
{
    let SexpList::Cons(names, body) = list else {
        return bad_form(pos);
    };
    some(pos, body)?;
    let names = elements(names)?;
    Ok((names, body))
}

/// The parts of a `repeat`: its head, what is bound to the accumulator if it has one, and the body.
#[derive(Clone, Copy)]
pub struct RepeatParts<'a> {
    pub head: &'a Sexp,
    pub start: Option<&'a Sexp>,
    pub body: &'a Sexp,
}

/// The parts of a `repeat` at this place.
pub fn repeat_parts(pos: Pos, list: &SexpList) -> Result<RepeatParts, FrontFault>
    ensures parts { Answers result (λ parts. record {
      head = marked (datum_of parts.head.now);
      start = option_map (λ s. marked (datum_of s.now)) parts.start;
      body = marked (datum_of parts.body.now);
    }) (repeat_parts pos (all_marked (datums_of list.now))) }
    ensures head { IfOk result (λ parts. size-Sexp parts.head.now < size-SexpList list.now) }
    ensures start { IfOk result (λ parts. IfSome parts.start (λ s. size-Sexp s.now < size-SexpList list.now)) }
    ensures body { IfOk result (λ parts. size-Sexp parts.body.now < size-SexpList list.now) }
{
    let SexpList::Cons(head, rest) = list else {
        return bad_form(pos);
    };
    let SexpList::Cons(second, rest) = &**rest else {
        return bad_form(pos);
    };
    let SexpList::Cons(third, rest) = &**rest else {
        return Ok(RepeatParts {
            head,
            start: None,
            body: second,
        });
    };
    let SexpList::Nil = &**rest else {
        return bad_form(pos);
    };
    Ok(RepeatParts {
        head,
        start: Some(second),
        body: third,
    })
}

/// A name that is bound, `:` and a type where these are written, and what is bound to it.
#[derive(Clone, Copy)]
pub struct BoundParts<'a> {
    pub name: &'a Sexp,
    pub written: Option<(&'a Sexp, &'a Sexp)>,
    pub value: &'a Sexp,
}

/// The parts of what binds a name.
pub fn bound_parts(sexp: &Sexp) -> Result<BoundParts, FrontFault>
    ensures parts { Answers result (λ parts. record {
      name = marked (datum_of parts.name.now);
      written = option_map (λ w. (marked (datum_of w.0.now), marked (datum_of w.1.now))) parts.written;
      value = marked (datum_of parts.value.now);
    }) (bound_parts (marked (datum_of sexp.now))) }
    ensures value { IfOk result (λ parts. size-Sexp parts.value.now < size-Sexp sexp.now) }
{
    let SexpNode::List(SexpList::Cons(name, rest)) = &sexp.node else {
        return bad_form(sexp.pos);
    };
    let SexpList::Cons(second, rest) = &**rest else {
        return bad_form(sexp.pos);
    };
    let SexpList::Cons(third, rest) = &**rest else {
        return Ok(BoundParts {
            name,
            written: None,
            value: second,
        });
    };
    let SexpList::Cons(value, rest) = &**rest else {
        return bad_form(sexp.pos);
    };
    let SexpList::Nil = &**rest else {
        return bad_form(sexp.pos);
    };
    Ok(BoundParts {
        name,
        written: Some((second, third)),
        value,
    })
}

/// Whether there is a body behind the parameters of a lambda.
pub fn has_body(elements: &SexpList) -> bool
    ensures { result ≡ has_body (all_marked (datums_of elements.now)) }
{
    let SexpList::Cons(first, rest) = elements else {
        return false;
    };
    if !is_colon_at(first) {
        return true;
    }
    let SexpList::Cons(_, body) = &**rest else {
        return false;
    };
    matches!(&**body, SexpList::Cons(..))
}

/// The parameters of a lambda at this place, and what stands behind them.
pub fn lambda_parts(pos: Pos, list: &SexpList) -> Result<(&Sexp, &SexpList), FrontFault>
    ensures parts { Answers result (λ two. (marked (datum_of two.0.now), all_marked (datums_of two.1.now)))
        (lambda_parts pos (all_marked (datums_of list.now))) }
    ensures behind { IfOk result (λ two. size-SexpList two.1.now < size-SexpList list.now) }
{
    let SexpList::Cons(params, rest) = list else {
        return bad_form(pos);
    };
    if !has_body(rest) {
        return bad_form(pos);
    }
    Ok((params, rest))
}

/// The written type of a lambda's result, and the body behind it.
#[derive(Clone, Copy)]
pub struct TypedBody<'a> {
    pub written: &'a Sexp,
    pub body: &'a SexpList,
}

/// The written type and the body of a lambda whose result's type is written.
pub fn typed_body(pos: Pos, list: &SexpList) -> Result<Option<TypedBody>, FrontFault>
    ensures parts { Answers result (λ parts. option_map (λ typed. (
      marked (datum_of typed.written.now),
      all_marked
          (datums_of typed.body.now),
    )) parts) (typed_body pos (all_marked (datums_of list.now))) }
    ensures body { IfOk result (λ parts. IfSome parts (λ typed. size-SexpList typed.body.now
        < size-SexpList list.now)) }
{
    let SexpList::Cons(first, rest) = list else {
        return bad_form(pos);
    };
    if !is_colon_at(first) {
        return Ok(None);
    }
    let SexpList::Cons(written, body) = &**rest else {
        return bad_form(pos);
    };
    Ok(Some(TypedBody { written, body }))
}

/// What stands behind the head of a `lambda` form.
pub fn behind_lambda(sexp: &Sexp) -> Result<&SexpList, FrontFault>
    ensures behind { Answers result (λ list. all_marked (datums_of list.now)) (behind_lambda (marked (datum_of
        sexp.now))) }
    ensures smaller { IfOk result (λ list. size-SexpList list.now < size-Sexp sexp.now) }
{
    let SexpNode::List(SexpList::Cons(head, rest)) = &sexp.node else {
        return bad_form(sexp.pos);
    };
    if !is_lambda_at(head) {
        return bad_form(sexp.pos);
    }
    Ok(rest)
}
