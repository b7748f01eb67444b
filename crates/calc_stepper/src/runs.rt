// Runs of states.

ghost use Rattle.std.specs.Prelude.{◌≡◌, ◌<◌, ℕ, IfOk, List, OnErr, option_map};
ghost use Rattle.run_laws.specs.Reductions.{state_after};
ghost use Rattle.grift_base.specs.declared.places.Pos.{Pos};
ghost use Rattle.core_calc.specs.Calculus.{Answered, calculus, shown_value, start};
ghost use Rattle.core_calc.specs.States.{end_of, state_view};
ghost use Rattle.core_calc.specs.Terms.{as_value};
ghost use Rattle.core_calc.specs.Views.{term_of, value_of};
ghost use Rattle.calc_stepper.specs.Ends.{end_after, end_or_more};

use crate::steps::step_term;
use core_calc::ends::Stepped;
use core_calc::states::{CalcState, Cells};
use core_calc::terms::{Core, Value};
use core_redexes::moves::Moved;
use core_terms::copies::copy_term;
use grift_base::lists::{Bytes, OutOfMemory};
use grift_base::verdicts::{Answer, AnswerKind};
use grift_base::worlds::World;
use std::alloc::Global;
use type_graph::tables::TypeTable;

// An answer of this kind.
fn answer(kind: AnswerKind, word: i64) -> Answer
    ensures { result ≡ record { kind = kind; word = word } }
{
    Answer { kind, word }
}

// A value as it is shown, through every injection and every wrapper.
fn shown_value(v: &Value) -> Answer
    ensures { result ≡ shown_value (value_of v.now) }
{
    let mut left = v;
    loop {
        match left {
            Value::Int(n) => return answer(AnswerKind::Int, *n),
            Value::Bool(b) => return answer(AnswerKind::Bool, if *b { 1 } else { 0 }),
            Value::Unit => return answer(AnswerKind::Unit, 0),
            Value::Fun(..) | Value::GroupMember(..) => return answer(AnswerKind::Function, 0),
            Value::Tuple(_) => return answer(AnswerKind::Tuple, 0),
            Value::Loc(_, true) => return answer(AnswerKind::Vector, 0),
            Value::Loc(_, false) => return answer(AnswerKind::Boxed, 0),
            Value::Wrap(inner, _, _, _) => left = inner,
            Value::Inject(inner, _) => left = inner,
        }
    }
}

// How a run has ended whose term is this one.
fn answered(term: &Core) -> Option<Stepped>
    ensures { option_map end_of result ≡ option_map (λ v. Answered (shown_value v)) (as_value (term_of term.now)) }
{
    match term {
        Core::Int(n) => Some(Stepped::Answer(answer(AnswerKind::Int, *n))),
        Core::Bool(b) => Some(Stepped::Answer(answer(AnswerKind::Bool, if *b { 1 } else { 0 }))),
        Core::Unit => Some(Stepped::Answer(answer(AnswerKind::Unit, 0))),
        Core::Value(v) => Some(Stepped::Answer(shown_value(v))),
        _ => None,
    }
}

/// The state of a program before its first step.
pub fn start(alloc: Global, core: &Core, input: Bytes) -> Result<CalcState, OutOfMemory>
    ensures { IfOk result (λ state. state_view state ≡ start (term_of core.now) input) }
{
    let term = copy_term(alloc, core)?;
    let ended = answered(&term);
    Ok(CalcState {
        term: Box::into_inner(term),
        store: Cells::new(alloc),
        world: World::new(alloc, input),
        ended,
    })
}

// How a run has ended after a step that came to this, if it has.
fn end_after(moved: Moved, term: &Core) -> Option<Stepped>
    ensures { option_map end_of result ≡ end_after moved (term_of term.now) }
{
    match moved {
        Moved::Goes => answered(term),
        Moved::Blames(label) => Some(Stepped::Blame(label)),
        Moved::Traps(trap) => Some(Stepped::Trap(trap)),
        Moved::Stuck => Some(Stepped::More),
    }
}

/// Makes one step of the calculus in place, and says what stands then. A state that has ended stays, and answers its
/// end again. The answer is `More` also where a term that is no value has no next step, which no typed state comes to.
/// Where memory runs out in the middle of a step, the state is as before.
pub fn step(alloc: Global, state: &mut CalcState, types: &TypeTable) -> Result<Stepped, OutOfMemory>
    ensures moves { IfOk result (λ stepped. (labels : List Pos)
        → state_view state.new ≡ state_after (calculus types.now labels) (state_view state.old) 1) }
    ensures answer { IfOk result (λ stepped. stepped ≡ end_or_more state.new.ended) }
    ensures stays { OnErr result (state_view state.new ≡ state_view state.old) }
{
    if let Some(end) = state.ended {
        return Ok(end);
    }
    let moved = step_term(
        alloc,
        types,
        &mut state.store,
        &mut state.world,
        &mut state.term,
    )?;
    state.ended = end_after(moved, &state.term);
    Ok(end_or_more(state.ended))
}

// The end, or that the run goes on.
fn end_or_more(ended: Option<Stepped>) -> Stepped
    ensures { result ≡ end_or_more ended }
{
    match ended {
        Some(end) => end,
        None => Stepped::More,
    }
}

/// Makes steps of the calculus until the run has ended or so many are made, and says what stands then. Where memory
/// runs out in the middle of a step, the state is the one before that step.
pub fn run(
    alloc: Global,
    state: &mut CalcState,
    types: &TypeTable,
    steps: u64,
) -> Result<Stepped, OutOfMemory>
    ensures moves { IfOk result (λ stepped. (labels : List Pos)
        → state_view state.new ≡ state_after (calculus types.now labels) (state_view state.old) steps) }
    ensures answer { IfOk result (λ stepped. stepped ≡ end_or_more state.new.ended) }
    ensures stays { OnErr result ((made : ℕ) × (made < steps) × ((labels : List Pos)
        → state_view state.new ≡ state_after (calculus types.now labels) (state_view state.old) made)) }
{
    let mut left = steps;
    while left > 0 && state.ended.is_none() {
        step(alloc, state, types)?;
        left -= 1;
    }
    Ok(end_or_more(state.ended))
}
