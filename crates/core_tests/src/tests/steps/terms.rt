// Terms as tables of their parts.

use crate::tests::steps::samples::{INT_TO_INT, X};
use core_calc::terms::{
    Core, CoreBinding, CoreBindings, CoreList, GroupMember, GroupMembers, Value, VarId, VarIds,
};
use grift_base::lists::OutOfMemory;
use grift_base::operators::PrimOp;
use grift_base::places::{LabelId, TypeId};
use std::alloc::Global;
use std::process::Abort;

// A part of a term. Parts stand in the order in which they are made: the operands of a part stand before it, and it
// takes as many as it needs of those that were made last.
#[derive(Clone, Copy)]
pub(crate) enum Part {
    Int(i64),
    Bool(bool),
    Unit,
    Var(VarId),
    // the value that is the vector at this place
    Vector(u32),
    // so many terms one after another
    Seq(u64),
    // so many parts of a tuple
    Tuple(u64),
    // an operator of so many operands
    Prim(PrimOp, u64),
    // of a body: a function of X
    Lambda,
    Cast(TypeId, TypeId, LabelId),
    Proj(i64),
    ProjDyn(i64, LabelId),
    // of a function and an argument
    Call,
    // of a condition, the term where it is true, and that where it is false
    If,
    // of a value and a body
    Let(VarId),
    // of the body of a function of X that knows itself, and a body
    Group(VarId),
}

// The last term.
fn pop(rt: &impl Abort, made: &mut Vec<Core>) -> Core {
    made.pop().expect(rt, "a term")
}

// So many of the last terms, in order.
fn last(rt: &impl Abort, alloc: Global, made: &mut Vec<Core>, count: u64) -> CoreList {
    let mut terms = CoreList::new();
    for _ in 0..count {
        terms.push_front(alloc, pop(rt, made)).expect(rt, "memory");
    }
    terms
}

// A term in a box, if there is memory for it.
fn put_in_box(alloc: Global, term: Core) -> Result<Box<Core>, OutOfMemory> {
    Ok(Box::new(alloc, term)?)
}

// The last term, in a box.
fn boxed(rt: &impl Abort, alloc: Global, made: &mut Vec<Core>) -> Box<Core> {
    put_in_box(alloc, pop(rt, made)).expect(rt, "memory")
}

fn call(rt: &impl Abort, alloc: Global, made: &mut Vec<Core>) -> Core {
    let arguments = last(rt, alloc, made, 1);
    Core::Call(boxed(rt, alloc, made), arguments)
}

fn choice(rt: &impl Abort, alloc: Global, made: &mut Vec<Core>) -> Core {
    let on_false = boxed(rt, alloc, made);
    let on_true = boxed(rt, alloc, made);
    Core::If(boxed(rt, alloc, made), on_true, on_false)
}

// This name for the last term.
fn binding(rt: &impl Abort, alloc: Global, made: &mut Vec<Core>, name: VarId) -> CoreBindings {
    let value = pop(rt, made);
    let mut bindings = CoreBindings::new();
    let added = bindings.push_front(alloc, CoreBinding { name, value });
    added.expect(rt, "memory");
    bindings
}

fn binding_in(rt: &impl Abort, alloc: Global, made: &mut Vec<Core>, name: VarId) -> Core {
    let body = boxed(rt, alloc, made);
    Core::Let(binding(rt, alloc, made, name), body)
}

// The parameter of each function.
fn params(rt: &impl Abort, alloc: Global) -> VarIds {
    VarIds::from_slice(alloc, &[X]).expect(rt, "memory")
}

// A group of one function of this name, whose body is the last term.
fn group(rt: &impl Abort, alloc: Global, made: &mut Vec<Core>, name: VarId) -> GroupMembers {
    let member = GroupMember {
        name,
        params: params(rt, alloc),
        body: pop(rt, made),
        ty: INT_TO_INT,
    };
    let mut members = GroupMembers::new();
    members.push_front(alloc, member).expect(rt, "memory");
    members
}

fn group_in(rt: &impl Abort, alloc: Global, made: &mut Vec<Core>, name: VarId) -> Core {
    let body = boxed(rt, alloc, made);
    Core::Group(group(rt, alloc, made, name), body)
}

fn function(rt: &impl Abort, alloc: Global, made: &mut Vec<Core>) -> Core {
    Core::Lambda(params(rt, alloc), boxed(rt, alloc, made), INT_TO_INT)
}

// The term of a part with one box, or of one whose parts have names.
fn with_boxes(rt: &impl Abort, alloc: Global, made: &mut Vec<Core>, part: Part) -> Core {
    match part {
        Part::Cast(from, to, label) => Core::Cast(boxed(rt, alloc, made), from, to, label),
        Part::Proj(k) => Core::Proj(boxed(rt, alloc, made), k),
        Part::ProjDyn(k, label) => Core::ProjDyn(boxed(rt, alloc, made), k, label),
        Part::Lambda => function(rt, alloc, made),
        Part::Call => call(rt, alloc, made),
        Part::If => choice(rt, alloc, made),
        Part::Let(name) => binding_in(rt, alloc, made, name),
        Part::Group(name) => group_in(rt, alloc, made, name),
        _ => panic!(rt; "a part without a box"),
    }
}

// The term of a part, with its operands from those that were made last.
pub(crate) fn made_of(rt: &impl Abort, alloc: Global, made: &mut Vec<Core>, part: Part) -> Core {
    match part {
        Part::Int(n) => Core::Int(n),
        Part::Bool(is_true) => Core::Bool(is_true),
        Part::Unit => Core::Unit,
        Part::Var(name) => Core::Var(name),
        Part::Vector(place) => Core::Value(Value::Loc(place, true)),
        Part::Seq(count) => Core::Seq(last(rt, alloc, made, count)),
        Part::Tuple(count) => Core::Tuple(last(rt, alloc, made, count)),
        Part::Prim(op, count) => Core::Prim(op, last(rt, alloc, made, count)),
        _ => with_boxes(rt, alloc, made, part),
    }
}

// Makes the terms of these parts one after another.
fn make(rt: &impl Abort, alloc: Global, made: &mut Vec<Core>, parts: &[Part]) {
    for part in parts {
        let term = made_of(rt, alloc, made, *part);
        made.push(term).expect(rt, "memory");
    }
}

// The one term that these parts come to.
pub(crate) fn term_of(rt: &impl Abort, alloc: Global, parts: &[Part]) -> Core {
    let mut made = Vec::new(alloc);
    make(rt, alloc, &mut made, parts);
    assert!(rt; made.len() == 1);
    pop(rt, &mut made)
}
