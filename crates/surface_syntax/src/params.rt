// Parameters from s-expressions.
#![tactic(auto, using(crate::proofs::ParamRows::param_steps), unfolding(form_table::specs::Walking::followed_by))]

ghost use Rattle.std.specs.Prelude.{◌≡◌, ◌<◌, ◌++◌, ◌∷◌, [], IfOk};
ghost use Rattle.sexpr_reader.specs.declared.sexps.Sexp.{size-Sexp};
ghost use Rattle.sexpr_reader.specs.View.{datum_of, datums_of};
ghost use Rattle.form_table.specs.Marked.{marked, all_marked, list as list_at};
ghost use Rattle.form_table.specs.Walking.{binder};
ghost use Rattle.form_table.specs.Walk.{plain_param, walk_param, walk_params, walk_param_list};
ghost use Rattle.std.specs.Option.{option_map};
ghost use Rattle.surface_syntax.specs.Forms.{written_type, bound_name, bound_to};
ghost use Rattle.surface_trees.specs.Views.{type_of, written_of, source_of, named_param_of, params_of};
ghost use Rattle.surface_syntax.specs.Parts.{typed_name};
ghost use Rattle.form_table.specs.Claims.{Answers};

use crate::elements::{bound_parts, three_of};
use crate::type_forms::type_expr;
use form_table::lists::{bad_form, binder, colon, refused};
use form_table::scopes::Scope;
use grift_base::lists::Name;
use grift_base::places::Pos;
use grift_base::refusals::{FrontFault, RefusalKind};
use sexpr_reader::sexps::{Sexp, SexpList, SexpNode};
use std::alloc::Global;
use surface_trees::names::Ident;
use surface_trees::types::{Param, Params, TypeExpr};

/// The most parameters of a function.
const MOST_PARAMETERS: u64 = 6;

// A parameter without a type: a name.
fn plain_param(alloc: Global, scope: &mut Scope, sexp: &Sexp) -> Result<Param, FrontFault>
    ensures param { Answers result named_param_of (plain_param scope.old (marked (datum_of sexp.now))) }
    ensures bound { IfOk result (λ param. scope.new ≡ scope.old ++ source_of param.name ∷ []) }
{
    let name = binder(alloc, scope, sexp)?;
    Ok(Param {
        pos: sexp.pos,
        name: Ident::Source(name),
        ty: None,
    })
}

/// A name with its written type.
#[derive(Drop)]
pub struct TypedName {
    pub name: Name,
    pub ty: TypeExpr,
}

/// A name that a scope binds, the `:` behind it and its type.
pub fn typed_name(
    alloc: Global,
    scope: &mut Scope,
    name: &Sexp,
    sign: &Sexp,
    written: &Sexp,
) -> Result<TypedName, FrontFault>
    ensures name { Answers result (λ t. (t.name, type_of t.ty)) (typed_name scope.old (marked (datum_of name.now))
        (marked (datum_of sign.now)) (marked (datum_of written.now))) }
    ensures bound { IfOk result (λ t. scope.new ≡ scope.old ++ t.name ∷ []) }
{
    let name = binder(alloc, scope, name)?;
    colon(sign)?;
    let ty = type_expr(alloc, written)?;
    Ok(TypedName { name, ty })
}

// `:` and a type, if they are written.
fn written_type(
    alloc: Global,
    written: Option<(&Sexp, &Sexp)>,
) -> Result<Option<TypeExpr>, FrontFault>
    ensures { Answers result written_of (written_type (option_map (λ w. (
      marked (datum_of w.0.now),
      marked (datum_of w.1.now),
    )) written.entry)) }
{
    let Some((sign, ty)) = written else {
        return Ok(None);
    };
    colon(sign)?;
    let ty = type_expr(alloc, ty)?;
    Ok(Some(ty))
}

/// A name with its type, if one is written.
#[derive(Drop)]
pub struct BoundName {
    pub name: Name,
    pub ty: Option<TypeExpr>,
}

// A name that a scope binds, and `:` and its type, if they are written.
fn bound_name(
    alloc: Global,
    scope: &mut Scope,
    name: &Sexp,
    written: Option<(&Sexp, &Sexp)>,
) -> Result<BoundName, FrontFault>
    ensures name { Answers result (λ b. (b.name, written_of b.ty)) (bound_name scope.old (marked (datum_of name.now))
        (option_map (λ w. (marked (datum_of w.0.now), marked (datum_of w.1.now))) written.entry)) }
    ensures bound { IfOk result (λ b. scope.new ≡ scope.old ++ b.name ∷ []) }
{
    let name = binder(alloc, scope, name)?;
    let ty = written_type(alloc, written)?;
    Ok(BoundName { name, ty })
}

/// A name that a scope binds, with its type, if one is written, and what is bound to it.
pub fn bound_to<'a>(
    alloc: Global,
    scope: &mut Scope,
    sexp: &'a Sexp,
) -> Result<(BoundName, &'a Sexp), FrontFault>
    ensures name { Answers result (λ b. ((b.0.name, written_of b.0.ty), marked (datum_of b.1.now))) (bound_to scope.old
        (marked (datum_of sexp.now))) }
    ensures bound { IfOk result (λ b. scope.new ≡ scope.old ++ b.0.name ∷ []) }
    ensures value { IfOk result (λ b. size-Sexp b.1.now < size-Sexp sexp.now) }
{
    let parts = bound_parts(sexp)?;
    let bound = bound_name(alloc, scope, parts.name, parts.written)?;
    Ok((bound, parts.value))
}

// A parameter between brackets: a name, `:` and a type.
fn typed_param(
    alloc: Global,
    scope: &mut Scope,
    pos: Pos,
    elements: &SexpList,
) -> Result<Param, FrontFault>
    ensures param { Answers result named_param_of (walk_param scope.old (list_at pos (all_marked (datums_of
        elements.now)))) }
    ensures bound { IfOk result (λ param. scope.new ≡ scope.old ++ source_of param.name ∷ []) }
{
    let parts = three_of(pos, elements)?;
    let typed = typed_name(alloc, scope, parts.first, parts.second, parts.third)?;
    Ok(Param {
        pos,
        name: Ident::Source(typed.name),
        ty: Some(typed.ty),
    })
}

// A parameter that a scope binds.
fn param(alloc: Global, scope: &mut Scope, sexp: &Sexp) -> Result<Param, FrontFault>
    ensures param { Answers result named_param_of (walk_param scope.old (marked (datum_of sexp.now))) }
    ensures bound { IfOk result (λ param. scope.new ≡ scope.old ++ source_of param.name ∷ []) }
{
    match &sexp.node {
        SexpNode::List(elements) => typed_param(alloc, scope, sexp.pos, elements),
        SexpNode::Int(_) | SexpNode::Bool(_) | SexpNode::Symbol(_) => plain_param(
            alloc, scope, sexp,
        ),
    }
}

/// At most six parameters, no name twice.
pub fn params(alloc: Global, elements: &SexpList) -> Result<Params, FrontFault>
    ensures { Answers result params_of (walk_params 6 [] (all_marked (datums_of elements.now))) }
{
    let mut scope = Scope::new(alloc);
    let mut params = Params::new(alloc);
    let mut room = MOST_PARAMETERS;
    let mut list = elements;
    while let SexpList::Cons(first, rest) = list {
        if room == 0 {
            return refused(RefusalKind::TooWide, first.pos);
        }
        params.push(param(alloc, &mut scope, first)?)?;
        room -= 1;
        list = rest;
    }
    Ok(params)
}

/// A name that is the only one of its scope.
pub fn only_name(alloc: Global, sexp: &Sexp) -> Result<Name, FrontFault>
    ensures { Answers result (λ name. name) (binder [] (marked (datum_of sexp.now))) }
{
    let mut scope = Scope::new(alloc);
    binder(alloc, &mut scope, sexp)
}

/// The parameters between two brackets.
pub fn param_list(alloc: Global, sexp: &Sexp) -> Result<Params, FrontFault>
    ensures { Answers result params_of (walk_param_list (marked (datum_of sexp.now))) }
{
    let SexpNode::List(elements) = &sexp.node else {
        return bad_form(sexp.pos);
    };
    params(alloc, elements)
}
