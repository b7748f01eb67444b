// One step of the calculus.

ghost use Rattle.std.specs.Prelude.{◌≡◌, IfOk, OnErr, true};
ghost use Rattle.core_calc.specs.States.{store_of};
ghost use Rattle.core_calc.specs.Step.{step, step_bindings, step_terms};
ghost use Rattle.core_redexes.specs.Redexes.{enters_now, if_redex, is_redex, lambda_redex, seq_redex, tuple_redex};
ghost use Rattle.core_redexes.specs.Redexes.{waits_for_first};
ghost use Rattle.core_calc.specs.Terms.{as_value};
ghost use Rattle.core_redexes.specs.Taken.{taken_values};
ghost use Rattle.core_calc.specs.Views.{bindings_of, term_of, terms_of, values_of};
ghost use Rattle.core_redexes.specs.Moves.{MovesBy, after};

use core_calc::states::Cells;
use core_calc::terms::{Core, CoreBindings, CoreList, Value, Values, VarIds};
use core_redexes::calls::{call_redex, enter_redex, group_redex, let_redex};
use core_redexes::casts::{cast_redex, proj_dyn_redex, proj_redex};
use core_redexes::forms::{are_bound, are_values, is_value, wrapper_of};
use core_redexes::moves::Moved;
use core_redexes::operators::prim_redex;
use core_terms::copies::copy_as_value;
use core_terms::lists::{bindings_onto, terms_onto, value_then, values_onto};
use grift_base::lists::OutOfMemory;
use grift_base::made::boxed;
use grift_base::worlds::World;
use std::alloc::Global;
use std::mem;
use type_graph::tables::TypeTable;

// A function becomes a value.
fn lambda_redex(alloc: Global, term: &mut Core) -> Result<Moved, OutOfMemory>
    ensures moves { IfOk result (MovesBy lambda_redex (term_of term.old) (term_of term.new)) }
    ensures stays { OnErr result (term_of term.new ≡ term_of term.old) }
{
    let place = boxed(alloc, Core::Unit)?;
    let Core::Lambda(params, body, ty) = term else {
        return Ok(Moved::Stuck);
    };
    let ty = *ty;
    let params = mem::replace(params, VarIds::new(alloc));
    let body = mem::replace(body, place);
    *term = Core::Value(Value::Fun(params, body, ty));
    Ok(Moved::Goes)
}

// The branch of a truth value.
fn if_redex(term: &mut Core) -> Moved
    ensures { MovesBy if_redex (term_of term.old) (term_of term.new) result }
{
    let Core::If(condition, _, _) = &*term else {
        return Moved::Stuck;
    };
    let holds = match &**condition {
        Core::Bool(b) | Core::Value(Value::Bool(b)) => *b,
        _ => return Moved::Stuck,
    };
    let Core::If(_, on_true, on_false) = term else {
        return Moved::Stuck;
    };
    let next = if holds {
        mem::replace(&mut **on_true, Core::Unit)
    } else {
        mem::replace(&mut **on_false, Core::Unit)
    };
    *term = next;
    Moved::Goes
}

// Of a sequence: its only term, or the terms behind the first.
fn seq_redex(term: &mut Core) -> Moved
    ensures { MovesBy seq_redex (term_of term.old) (term_of term.new) result }
{
    let Core::Seq(terms) = term else {
        return Moved::Stuck;
    };
    let CoreList::Cons(first, rest) = terms else {
        return Moved::Stuck;
    };
    if rest.is_empty() {
        let only = mem::replace(&mut **first, Core::Unit);
        *term = only;
    } else {
        let others = mem::replace(&mut **rest, CoreList::Nil);
        *terms = others;
    }
    Moved::Goes
}

// Whether a sequence has more than one term, of which the first is no value.
fn waits_for_first(terms: &CoreList) -> bool
    ensures { result ≡ waits_for_first (terms_of terms.now) }
{
    match terms {
        CoreList::Nil => false,
        CoreList::Cons(first, rest) => !rest.is_empty() && !is_value(first),
    }
}

// Whether an entered call is the redex itself: its function is no value, or a wrapper, or its arguments are values.
fn enters_now(function: &Core, arguments: &CoreList) -> bool
    ensures { result ≡ enters_now (as_value (term_of function.now)) (terms_of arguments.now) }
{
    !is_value(function) || wrapper_of(function).is_some() || are_values(arguments)
}

// Copies of the values that terms are.
fn taken_values(alloc: Global, terms: &CoreList) -> Result<Values, OutOfMemory>
    ensures { IfOk result (λ values. values_of values ≡ taken_values (terms_of terms.now)) }
{
    let mut done = Values::Nil;
    let mut left = terms;
    while let CoreList::Cons(first, rest) = left {
        if let Some(v) = copy_as_value(alloc, first)? {
            done = value_then(alloc, v, done)?;
        }
        left = rest;
    }
    Ok(values_onto(done, Values::Nil))
}

// A tuple of values becomes a value.
#[tactic(auto, using(core_redexes::proofs::Public::tuple_taken))]
fn tuple_redex(alloc: Global, term: &mut Core) -> Result<Moved, OutOfMemory>
    ensures moves { IfOk result (MovesBy tuple_redex (term_of term.old) (term_of term.new)) }
    ensures stays { OnErr result (term_of term.new ≡ term_of term.old) }
{
    let Core::Tuple(parts) = &*term else {
        return Ok(Moved::Stuck);
    };
    if !are_values(parts) {
        return Ok(Moved::Stuck);
    }
    let values = taken_values(alloc, parts)?;
    *term = Core::Value(Value::Tuple(values));
    Ok(Moved::Goes)
}

// Whether a term takes its step itself, and no part of it does. One that has no step counts as such.
fn is_redex(term: &Core) -> bool
    ensures { result ≡ is_redex (term_of term.now) }
{
    match term {
        Core::Let(bindings, _) => are_bound(bindings),
        Core::Call(function, arguments) => is_value(function) && are_values(arguments),
        Core::Enter(function, arguments) => enters_now(function, arguments),
        Core::Seq(terms) => !waits_for_first(terms),
        Core::Tuple(terms) | Core::Prim(_, terms) => are_values(terms),
        Core::If(inner, _, _) | Core::Cast(inner, _, _, _) => is_value(inner),
        Core::Proj(inner, _) | Core::ProjDyn(inner, _, _) => is_value(inner),
        _ => true,
    }
}

// The step of a term that takes it itself.
fn redex_step(
    alloc: Global,
    types: &TypeTable,
    store: &mut Cells,
    world: &mut World,
    term: &mut Core,
) -> Result<Moved, OutOfMemory>
    requires { is_redex (term_of term.old) ≡ true }
    ensures moves { IfOk result (λ moved.
        after (step types.now (store_of store.old) world.old (term_of term.old)) (term_of term.old)
        (store_of store.old) world.old
        ≡ record { moved = moved; item = term_of term.new; store = store_of store.new; world = world.new }) }
    ensures stays { OnErr result ((term_of term.new ≡ term_of term.old) × (store_of store.new ≡ store_of store.old)
        × (world.new ≡ world.old)) }
{
    match *term {
        Core::Int(_) | Core::Bool(_) | Core::Unit | Core::Value(_) | Core::Var(_) => {
            Ok(Moved::Stuck)
        }
        Core::Lambda(..) => lambda_redex(alloc, term),
        Core::Group(..) => group_redex(alloc, term),
        Core::Let(..) => let_redex(alloc, term),
        Core::Call(..) => call_redex(alloc, term),
        Core::Enter(..) => enter_redex(alloc, types, term),
        Core::If(..) => Ok(if_redex(term)),
        Core::Seq(..) => Ok(seq_redex(term)),
        Core::Cast(..) => cast_redex(alloc, types, term),
        Core::Proj(..) => proj_redex(alloc, types, term),
        Core::ProjDyn(..) => proj_dyn_redex(alloc, types, term),
        Core::Tuple(..) => tuple_redex(alloc, term),
        Core::Prim(..) => prim_redex(alloc, types, store, world, term),
    }
}

/// Makes the next step of a term, in place. Where memory runs out, the term, the cells and the outside are as before.
#[cycle(stepping)]
pub fn step_term(
    alloc: Global,
    types: &TypeTable,
    store: &mut Cells,
    world: &mut World,
    term: &mut Core,
) -> Result<Moved, OutOfMemory>
    ensures moves { IfOk result (λ moved.
        after (step types.now (store_of store.old) world.old (term_of term.old)) (term_of term.old)
        (store_of store.old) world.old
        ≡ record { moved = moved; item = term_of term.new; store = store_of store.new; world = world.new }) }
    ensures stays { OnErr result ((term_of term.new ≡ term_of term.old) × (store_of store.new ≡ store_of store.old)
        × (world.new ≡ world.old)) }
{
    if is_redex(term) {
        return redex_step(alloc, types, store, world, term);
    }
    match term {
        Core::Let(bindings, _) => step_bindings(alloc, types, store, world, bindings),
        Core::Call(function, arguments) => {
            if is_value(function) {
                step_terms(alloc, types, store, world, arguments)
            } else {
                step_term(alloc, types, store, world, function)
            }
        }
        Core::Enter(_, arguments) => step_terms(alloc, types, store, world, arguments),
        Core::If(condition, _, _) => step_term(alloc, types, store, world, condition),
        Core::Seq(terms) => step_terms(alloc, types, store, world, terms),
        Core::Cast(inner, _, _, _) => step_term(alloc, types, store, world, inner),
        Core::Proj(inner, _) => step_term(alloc, types, store, world, inner),
        Core::ProjDyn(inner, _, _) => step_term(alloc, types, store, world, inner),
        Core::Tuple(parts) => step_terms(alloc, types, store, world, parts),
        Core::Prim(_, operands) => step_terms(alloc, types, store, world, operands),
        _ => Ok(Moved::Stuck),
    }
}

// The first of the terms that is no value takes a step.
#[cycle(stepping)]
fn step_terms(
    alloc: Global,
    types: &TypeTable,
    store: &mut Cells,
    world: &mut World,
    terms: &mut CoreList,
) -> Result<Moved, OutOfMemory>
    ensures moves { IfOk result (λ moved.
        after (step_terms types.now (store_of store.old) world.old (terms_of terms.old)) (terms_of terms.old)
        (store_of store.old) world.old
        ≡ record { moved = moved; item = terms_of terms.new; store = store_of store.new; world = world.new }) }
    ensures stays { OnErr result ((terms_of terms.new ≡ terms_of terms.old) × (store_of store.new ≡ store_of store.old)
        × (world.new ≡ world.old)) }
{
    let mut done = CoreList::Nil;
    let mut left = mem::replace(terms, CoreList::Nil);
    while let CoreList::Cons(first, rest) = &mut left {
        if !is_value(first) {
            let moved = step_term(alloc, types, store, world, first);
            *terms = terms_onto(done, left);
            return moved;
        }
        let next = mem::replace(&mut **rest, done);
        done = mem::replace(&mut left, next);
    }
    *terms = terms_onto(done, CoreList::Nil);
    Ok(Moved::Stuck)
}

// The first of the bound terms that is no value takes a step.
#[cycle(stepping)]
fn step_bindings(
    alloc: Global,
    types: &TypeTable,
    store: &mut Cells,
    world: &mut World,
    bindings: &mut CoreBindings,
) -> Result<Moved, OutOfMemory>
    ensures moves { IfOk result (λ moved.
        after (step_bindings types.now (store_of store.old) world.old (bindings_of bindings.old))
        (bindings_of bindings.old) (store_of store.old) world.old
        ≡ record { moved = moved; item = bindings_of bindings.new; store = store_of store.new; world = world.new }) }
    ensures stays { OnErr result ((bindings_of bindings.new ≡ bindings_of bindings.old)
        × (store_of store.new ≡ store_of store.old) × (world.new ≡ world.old)) }
{
    let mut done = CoreBindings::Nil;
    let mut left = mem::replace(bindings, CoreBindings::Nil);
    while let CoreBindings::Cons(first, rest) = &mut left {
        if !is_value(&first.value) {
            let moved = step_term(alloc, types, store, world, &mut first.value);
            *bindings = bindings_onto(done, left);
            return moved;
        }
        let next = mem::replace(&mut **rest, done);
        done = mem::replace(&mut left, next);
    }
    *bindings = bindings_onto(done, CoreBindings::Nil);
    Ok(Moved::Stuck)
}
