// The types of terms.
#![tactic(auto, using(crate::proofs::Chains::chain_steps), unfolding(crate::specs::TypeOf::and_then))]

ghost use Rattle.std.specs.Prelude.{◌≡◌, ◌≤◌, ◌++◌, ◌∷◌, [], true, ℕ, IfNone, IfOk, IfSome, OnOk};
ghost use Rattle.type_graph.specs.Rows.{places_of};
ghost use Rattle.core_calc.specs.Views.{term_of, terms_of, members_of, bindings_of, names_of};
ghost use Rattle.core_calc.specs.Substitution.{bind};
ghost use Rattle.core_calc.specs.Terms.{Prim, Proj, Seq, Tuple};
ghost use Rattle.core_calc.specs.Typing.{ProgramTermHasType, member_types};
ghost use Rattle.core_calc.specs.TypeOf.{Finds, Makes, and_then, cast_type, context_of, dyn_part_type};
ghost use Rattle.core_calc.specs.TypeOf.{function_type, labels_end, members_fit};
ghost use Rattle.core_calc.specs.TypeOf.{program_type, type_of, types_of, types_of_bindings, within};

use crate::binders::add_binders;
use crate::forms::{
    call_type, cast_type, dyn_part_type, found, if_type, int_type, lambda_type, last_of, part_type,
    place_of, row, tuple_type,
};
use crate::operations::operator_type;
use crate::scopes::{Names, Scope, Untyped};
use crate::terms::{Core, CoreBindings, CoreList, GroupMembers, VarId, VarIds};
use grift_base::lists::OutOfMemory;
use grift_base::operators::PrimOp;
use grift_base::places::TypeId;
use std::alloc::Global;
use type_graph::rows::Row;
use type_graph::tables::TypeTable;

/// The type of a term without free names. None exactly where the term is no program term over this table, whatever
/// the number of labels; where there is a type, the term is one over each number of labels that is greater than all
/// of its own.
pub fn typed(alloc: Global, core: &Core, types: &TypeTable) -> Result<Option<TypeId>, OutOfMemory>
    ensures found { IfOk result (λ answer. IfSome answer (λ t. (labels : ℕ)
        → labels_end (term_of core.now) ≤ labels
        → ProgramTermHasType types.now labels (term_of core.now) t.0)) }
    ensures none { IfOk result (λ answer. IfNone answer ((labels type : ℕ)
        → ¬ ProgramTermHasType types.now labels (term_of core.now) type)) }
{
    // The table is one: `len` says that no row stands twice and that its types are trees.
    types.len();
    match program_type(alloc, types, core) {
        Ok(ty) => Ok(Some(ty)),
        Err(Untyped::NoType) => Ok(None),
        Err(Untyped::OutOfMemory) => Err(OutOfMemory),
    }
}

// The type that was found, or why there is none.
type FoundType = Result<TypeId, Untyped>;

// The type of a term that binds each name once.
fn program_type(alloc: Global, types: &TypeTable, core: &Core) -> Result<TypeId, Untyped>
    ensures { Finds result (λ t. t.0) (program_type types.now (term_of core.now)) }
{
    let mut names = Names::new(alloc);
    add_binders(&mut names, core)?;
    let mut scope = Scope::new(alloc);
    let ty = type_of(alloc, types, &mut scope, core)?;
    Ok(ty)
}

// The type of a term where these names are in scope.
#[cycle(typing)]
fn type_of(alloc: Global, types: &TypeTable, scope: &mut Scope, term: &Core) -> FoundType
    ensures found { Finds result (λ t. t.0) (type_of types.now scope.old (term_of term.now)) }
    ensures kept { OnOk result (scope.new ≡ scope.old) }
{
    match term {
        Core::Int(n) => found(int_type(types, *n)),
        Core::Bool(_) => found(place_of(types, &Row::Bool)),
        Core::Unit => found(place_of(types, &Row::Unit)),
        Core::Var(name) => found(scope.type_of(*name)),
        Core::Lambda(params, body, written) => {
            lambda(alloc, types, scope, params, body, *written)
        }
        Core::Group(..) => group(alloc, types, scope, term),
        Core::Let(..) | Core::Call(..) | Core::If(..) => joined(alloc, types, scope, term),
        Core::Seq(terms) => sequence(alloc, types, scope, terms),
        Core::Cast(term, from, to, _) => cast(alloc, types, scope, term, *from, *to),
        Core::Proj(term, k) => part(alloc, types, scope, term, *k),
        Core::ProjDyn(term, _, _) => dyn_part(alloc, types, scope, term),
        Core::Tuple(parts) => tuple(alloc, types, scope, parts),
        Core::Prim(operator, operands) => operation(alloc, types, scope, *operator, operands),
        Core::Enter(..) | Core::Value(_) => Err(Untyped::NoType),
    }
}

// Forms with parts have functions of their own: what a proof costs goes by the calls of a function times its exits.

// The type of a group; no other form comes here.
#[cycle(typing)]
fn group(alloc: Global, types: &TypeTable, scope: &mut Scope, term: &Core) -> FoundType
    ensures found { Finds result (λ t. t.0) (type_of types.now scope.old (term_of term.now)) }
    ensures kept { OnOk result (scope.new ≡ scope.old) }
{
    let Core::Group(members, body) = term else {
        return Err(Untyped::OutOfMemory);
    };
    let outside = scope.len();
    let bound = heads(alloc, members)?;
    scope.bind_all(bound.as_slice())?;
    members_fit(alloc, types, scope, members)?;
    let ty = type_of(alloc, types, scope, body)?;
    scope.leave(outside);
    Ok(ty)
}

// The type of a form that joins several terms and is no group; no other form comes here.
#[cycle(typing)]
fn joined(alloc: Global, types: &TypeTable, scope: &mut Scope, term: &Core) -> FoundType
    ensures found { Finds result (λ t. t.0) (type_of types.now scope.old (term_of term.now)) }
    ensures kept { OnOk result (scope.new ≡ scope.old) }
{
    match term {
        Core::Let(bindings, body) => {
            let bound = types_of_bindings(alloc, types, scope, bindings)?;
            within(alloc, types, scope, bound.as_slice(), body)
        }
        Core::Call(function, arguments) => {
            let whole = type_of(alloc, types, scope, function)?;
            let given = types_of(alloc, types, scope, arguments)?;
            found(call_type(types, whole, given.as_slice()))
        }
        Core::If(condition, on_true, on_false) => {
            let truth = type_of(alloc, types, scope, condition)?;
            let ty = type_of(alloc, types, scope, on_true)?;
            let other = type_of(alloc, types, scope, on_false)?;
            found(if_type(types, truth, ty, other))
        }
        _ => Err(Untyped::OutOfMemory),
    }
}

// The type of the last of these terms.
#[cycle(typing)]
fn sequence(alloc: Global, types: &TypeTable, scope: &mut Scope, terms: &CoreList) -> FoundType
    ensures found { Finds result (λ t. t.0) (type_of types.now scope.old (Seq (terms_of terms.now))) }
    ensures kept { OnOk result (scope.new ≡ scope.old) }
{
    let given = types_of(alloc, types, scope, terms)?;
    found(last_of(given.as_slice()))
}

// The type that a cast gives.
#[cycle(typing)]
fn cast(
    alloc: Global,
    types: &TypeTable,
    scope: &mut Scope,
    term: &Core,
    from: TypeId,
    to: TypeId,
) -> FoundType
    ensures found { Finds result (λ t. t.0) (and_then (type_of types.now scope.old (term_of term.now))
        (λ given. cast_type types.now given from.0 to.0)) }
    ensures kept { OnOk result (scope.new ≡ scope.old) }
{
    let given = type_of(alloc, types, scope, term)?;
    found(cast_type(types, given, from, to))
}

// The type of a tuple's part.
#[cycle(typing)]
fn part(alloc: Global, types: &TypeTable, scope: &mut Scope, term: &Core, k: i64) -> FoundType
    ensures found { Finds result (λ t. t.0) (type_of types.now scope.old (Proj (term_of term.now) k)) }
    ensures kept { OnOk result (scope.new ≡ scope.old) }
{
    let whole = type_of(alloc, types, scope, term)?;
    found(part_type(types, whole, k))
}

// The type of a part of the tuple that Dyn holds.
#[cycle(typing)]
fn dyn_part(alloc: Global, types: &TypeTable, scope: &mut Scope, term: &Core) -> FoundType
    ensures found { Finds result (λ t. t.0) (and_then (type_of types.now scope.old (term_of term.now))
        (λ given. dyn_part_type types.now given)) }
    ensures kept { OnOk result (scope.new ≡ scope.old) }
{
    let ty = type_of(alloc, types, scope, term)?;
    found(dyn_part_type(types, ty))
}

// The type of a tuple of these parts.
#[cycle(typing)]
fn tuple(alloc: Global, types: &TypeTable, scope: &mut Scope, parts: &CoreList) -> FoundType
    ensures found { Finds result (λ t. t.0) (type_of types.now scope.old (Tuple (terms_of parts.now))) }
    ensures kept { OnOk result (scope.new ≡ scope.old) }
{
    let given = types_of(alloc, types, scope, parts)?;
    tuple_type(alloc, types, given.as_slice())
}

// The type of an operator's answer.
#[cycle(typing)]
fn operation(
    alloc: Global,
    types: &TypeTable,
    scope: &mut Scope,
    operator: PrimOp,
    operands: &CoreList,
) -> FoundType
    ensures found { Finds result (λ t. t.0) (type_of types.now scope.old (Prim operator (terms_of operands.now))) }
    ensures kept { OnOk result (scope.new ≡ scope.old) }
{
    let given = types_of(alloc, types, scope, operands)?;
    found(operator_type(types, operator, given.as_slice()))
}

// The type of a function that is written with a type.
#[cycle(typing)]
fn lambda(
    alloc: Global,
    types: &TypeTable,
    scope: &mut Scope,
    params: &VarIds,
    body: &Core,
    written: TypeId,
) -> FoundType
    ensures found { Finds result (λ t. t.0) (function_type types.now scope.old (names_of params.now) written.0
        (λ inner. type_of types.now inner (term_of body.now))) }
    ensures kept { OnOk result (scope.new ≡ scope.old) }
{
    let Some(Row::Fun(parameters, answer)) = row(types, written) else {
        return Err(Untyped::NoType);
    };
    let bound = bound_to(alloc, params.as_slice(), parameters.as_slice())?;
    let ty = within(alloc, types, scope, bound.as_slice(), body)?;
    found(lambda_type(written, *answer, ty))
}

// The type of a body where more names are bound.
#[cycle(typing)]
fn within(
    alloc: Global,
    types: &TypeTable,
    scope: &mut Scope,
    bound: &[(VarId, TypeId)],
    body: &Core,
) -> FoundType
    ensures found { Finds result (λ t. t.0) (within types.now scope.old (context_of bound.now)
        (λ inner. type_of types.now inner (term_of body.now))) }
    ensures kept { OnOk result (scope.new ≡ scope.old) }
{
    let outside = scope.len();
    scope.bind_all(bound)?;
    let ty = type_of(alloc, types, scope, body)?;
    scope.leave(outside);
    Ok(ty)
}

// The types of these terms, in order.
#[cycle(typing)]
fn types_of(
    alloc: Global,
    types: &TypeTable,
    scope: &mut Scope,
    terms: &CoreList,
) -> Result<Vec<TypeId>, Untyped>
    ensures found { Finds result (λ v. places_of v.items) (types_of types.now scope.old (terms_of terms.now)) }
    ensures kept { OnOk result (scope.new ≡ scope.old) }
{
    let mut done = Vec::new(alloc);
    let mut left = terms;
    while let CoreList::Cons(first, rest) = left {
        let ty = type_of(alloc, types, scope, first)?;
        push_type(&mut done, ty)?;
        left = rest;
    }
    Ok(done)
}

// Whether each function of a group, whose names are in scope, has its written type. `NoType` says that one hasn't.
#[cycle(typing)]
fn members_fit(
    alloc: Global,
    types: &TypeTable,
    scope: &mut Scope,
    members: &GroupMembers,
) -> Result<(), Untyped>
    ensures found { Makes result true (members_fit types.now scope.old (members_of members.now)) }
    ensures kept { OnOk result (scope.new ≡ scope.old) }
{
    let mut left = members;
    while let GroupMembers::Cons(first, rest) = left {
        lambda(alloc, types, scope, &first.params, &first.body, first.ty)?;
        left = rest;
    }
    Ok(())
}

// The names of bindings, with the types of the terms that they are bound to.
#[cycle(typing)]
fn types_of_bindings(
    alloc: Global,
    types: &TypeTable,
    scope: &mut Scope,
    bindings: &CoreBindings,
) -> Result<Vec<(VarId, TypeId)>, Untyped>
    ensures found { Finds result (λ v. context_of v.items)
        (types_of_bindings types.now scope.old (bindings_of bindings.now)) }
    ensures kept { OnOk result (scope.new ≡ scope.old) }
{
    let mut done = Vec::new(alloc);
    let mut left = bindings;
    while let CoreBindings::Cons(first, rest) = left {
        let ty = type_of(alloc, types, scope, &first.value)?;
        push_bound(&mut done, first.name, ty)?;
        left = rest;
    }
    Ok(done)
}

// The names of a group with their written types.
fn heads(alloc: Global, members: &GroupMembers) -> Result<Vec<(VarId, TypeId)>, OutOfMemory>
    ensures { IfOk result (λ v. context_of v.items ≡ member_types (members_of members.now)) }
{
    let mut done = Vec::new(alloc);
    let mut left = members;
    while let GroupMembers::Cons(first, rest) = left {
        push_bound(&mut done, first.name, first.ty)?;
        left = rest;
    }
    Ok(done)
}

// Each name with its type. `NoType` says that there aren't as many.
fn bound_to(
    alloc: Global,
    names: &[VarId],
    types: &[TypeId],
) -> Result<Vec<(VarId, TypeId)>, Untyped>
    ensures { Finds result (λ v. context_of v.items) (bind (names_of names.now) (places_of types.now)) }
{
    if names.len() != types.len() {
        return Err(Untyped::NoType);
    }
    let mut done = Vec::new(alloc);
    for (i, name) in names.iter().enumerate() {
        push_bound(&mut done, *name, types[i])?;
    }
    Ok(done)
}

fn push_bound(done: &mut Vec<(VarId, TypeId)>, name: VarId, ty: TypeId) -> Result<(), OutOfMemory>
    ensures { OnOk result (done.new.items ≡ done.old.items ++ (name, ty) ∷ []) }
{
    done.push((name, ty))?;
    Ok(())
}

fn push_type(done: &mut Vec<TypeId>, ty: TypeId) -> Result<(), OutOfMemory>
    ensures { OnOk result (done.new.items ≡ done.old.items ++ ty ∷ []) }
{
    done.push(ty)?;
    Ok(())
}
