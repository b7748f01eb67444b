// Programs that are converted: small ones whose procedures are known, deep ones and long ones.

use closure_convert::program::convert;
use coer_core::program::CoerProgram;
use coer_core::terms::{CoerBinding, CoerBindings, CoerList, CoerMember, CoerMembers, CoerTerm};
use coercion_norm::cast_rows::CastRows;
use coercion_norm::tables::CoercionTable;
use core_calc::terms::{VarId, VarIds};
use flat_ir::code::{FlatBody, Operand};
use flat_ir::programs::FlatProgram;
use grift_base::lists::OutOfMemory;
use grift_base::operators::PrimOp;
use grift_base::places::TypeId;
use std::alloc::Global;
use std::process::Abort;

const TYPE: TypeId = TypeId(0);

// The program of a term without casts.
fn without_casts(rt: &impl Abort, alloc: Global, body: CoerTerm) -> CoerProgram {
    CoerProgram {
        body,
        casts: CastRows::new(alloc),
        coercions: CoercionTable::new(alloc).expect(rt, "memory"),
        tallest: 0,
        answer: TYPE,
    }
}

// The procedures of a term without casts.
fn of_term(rt: &impl Abort, alloc: Global, body: CoerTerm) -> FlatProgram {
    let program = without_casts(rt, alloc, body);
    convert(alloc, &program).expect(rt, "memory")
}

// A term in a box, if there is memory for it.
fn put_in_box(alloc: Global, term: CoerTerm) -> Result<Box<CoerTerm>, OutOfMemory> {
    Ok(Box::new(alloc, term)?)
}

fn boxed(rt: &impl Abort, alloc: Global, term: CoerTerm) -> Box<CoerTerm> {
    put_in_box(alloc, term).expect(rt, "memory")
}

fn var(name: u32) -> CoerTerm {
    CoerTerm::Var(VarId(name))
}

fn list(rt: &impl Abort, alloc: Global, first: CoerTerm, second: CoerTerm) -> CoerList {
    let mut terms = CoerList::new();
    terms.push_front(alloc, second).expect(rt, "memory");
    terms.push_front(alloc, first).expect(rt, "memory");
    terms
}

fn sum(rt: &impl Abort, alloc: Global, first: CoerTerm, second: CoerTerm) -> CoerTerm {
    CoerTerm::Prim(PrimOp::Add, list(rt, alloc, first, second))
}

fn lambda(rt: &impl Abort, alloc: Global, name: u32, body: CoerTerm) -> CoerTerm {
    let params = VarIds::from_slice(alloc, &[VarId(name)]).expect(rt, "memory");
    CoerTerm::Lambda(params, boxed(rt, alloc, body), TYPE)
}

fn let_one(rt: &impl Abort, alloc: Global, name: u32, value: CoerTerm, body: CoerTerm) -> CoerTerm {
    let mut bindings = CoerBindings::new();
    let name = VarId(name);
    bindings
        .push_front(alloc, CoerBinding { name, value })
        .expect(rt, "memory");
    CoerTerm::Let(bindings, boxed(rt, alloc, body))
}

fn call(rt: &impl Abort, alloc: Global, function: CoerTerm, argument: CoerTerm) -> CoerTerm {
    let mut arguments = CoerList::new();
    arguments.push_front(alloc, argument).expect(rt, "memory");
    CoerTerm::Call(boxed(rt, alloc, function), arguments)
}

// A group of one function, and a body.
fn group_one(
    rt: &impl Abort,
    alloc: Global,
    name: u32,
    param: u32,
    inner: CoerTerm,
    body: CoerTerm,
) -> CoerTerm {
    let mut members = CoerMembers::new();
    let member = CoerMember {
        name: VarId(name),
        params: VarIds::from_slice(alloc, &[VarId(param)]).expect(rt, "memory"),
        body: inner,
        ty: TYPE,
    };
    members.push_front(alloc, member).expect(rt, "memory");
    CoerTerm::Group(members, boxed(rt, alloc, body))
}

#[derive(Clone, Copy, Debug)]
enum Sample {
    // (+ 10 1)
    Sum,
    // (let ([x 10]) (+ x x))
    Let,
    // ((lambda (x) x) 10)
    Call,
    // (lambda (x) (lambda (y) (+ x y)))
    Nested,
    // (letrec ([f (lambda (x) (f x))]) (f 10))
    Group,
    // (let ([z #t]) (letrec ([f (lambda (x) (+ z x))]) (f 10)))
    GroupUnderLet,
    // A hundred functions, each the body of the one before; the innermost uses a name from outside.
    FunctionsInside,
    // 10,000 functions, one after another.
    Functions,
    // A thousand functions, each bound in the body of the binding before.
    Bindings,
    // 80,000 calls of one function, one after another.
    Calls,
}

fn term(rt: &impl Abort, alloc: Global, sample: Sample) -> CoerTerm {
    let ten = CoerTerm::Int(10);
    match sample {
        Sample::Sum => sum(rt, alloc, ten, CoerTerm::Int(1)),
        Sample::Let => let_one(rt, alloc, 0, ten, sum(rt, alloc, var(0), var(0))),
        Sample::Call => call(rt, alloc, lambda(rt, alloc, 0, var(0)), ten),
        Sample::Nested => {
            let inner = lambda(rt, alloc, 2, sum(rt, alloc, var(1), var(2)));
            lambda(rt, alloc, 1, inner)
        }
        Sample::Group => {
            let inner = call(rt, alloc, var(0), var(1));
            group_one(rt, alloc, 0, 1, inner, call(rt, alloc, var(0), ten))
        }
        Sample::GroupUnderLet => {
            let inner = sum(rt, alloc, var(9), var(1));
            let group = group_one(rt, alloc, 0, 1, inner, call(rt, alloc, var(0), ten));
            let_one(rt, alloc, 9, CoerTerm::Bool(true), group)
        }
        Sample::FunctionsInside => functions_inside(rt, alloc),
        Sample::Functions => functions(rt, alloc),
        Sample::Bindings => bindings(rt, alloc),
        Sample::Calls => calls(rt, alloc),
    }
}

fn functions_inside(rt: &impl Abort, alloc: Global) -> CoerTerm {
    let mut body = var(0);
    for name in 1..101 {
        body = lambda(rt, alloc, name, body);
    }
    let_one(rt, alloc, 0, CoerTerm::Unit, body)
}

fn functions(rt: &impl Abort, alloc: Global) -> CoerTerm {
    let mut terms = CoerList::new();
    for _ in 0..10_000 {
        terms
            .push_front(alloc, lambda(rt, alloc, 0, var(0)))
            .expect(rt, "memory");
    }
    CoerTerm::Seq(terms)
}

fn bindings(rt: &impl Abort, alloc: Global) -> CoerTerm {
    let mut body = CoerTerm::Unit;
    for name in 0..1_000 {
        let function = lambda(rt, alloc, 1_000, var(1_000));
        body = let_one(rt, alloc, name, function, body);
    }
    body
}

fn calls(rt: &impl Abort, alloc: Global) -> CoerTerm {
    let mut terms = CoerList::new();
    for _ in 0..80_000 {
        terms
            .push_front(alloc, call(rt, alloc, var(0), CoerTerm::Unit))
            .expect(rt, "memory");
    }
    let function = lambda(rt, alloc, 1, var(1));
    let_one(rt, alloc, 0, function, CoerTerm::Seq(terms))
}

// Whether a program is closed, has so many procedures, and begins with the last.
fn has_procedures(rt: &impl Abort, alloc: Global, sample: Sample, wanted: u64) -> bool {
    let flat = of_term(rt, alloc, term(rt, alloc, sample));
    (flat.procs.len(), flat.entry as u64 + 1, flat.is_closed()) == (wanted, wanted, true)
}

// Each program is closed, has as many procedures as are wanted, and begins with the last.
#[test]
fn programs_have_their_procedures(rt: HostRuntime) {
    for (sample, wanted) in [
        (Sample::Sum, 1),
        (Sample::Let, 1),
        (Sample::Call, 2),
        (Sample::Nested, 3),
        (Sample::Group, 2),
        (Sample::GroupUnderLet, 2),
        (Sample::FunctionsInside, 101),
        (Sample::Functions, 10_001),
        (Sample::Bindings, 1_001),
        (Sample::Calls, 2),
    ] {
        assert!(rt;
            has_procedures(&rt, rt.alloc(), sample, wanted),
            "{sample:?}"
        );
    }
}

// How many names a procedure captures, if it is there.
fn captured_by(flat: &FlatProgram, number: u64) -> Option<u32> {
    match flat.procs.get(number) {
        Some(proc) => Some(proc.captured),
        None => None,
    }
}

// Whether the second procedure makes a group of one function, the first, that captures its parameter.
fn makes_the_first(flat: &FlatProgram) -> bool {
    let Some(outer) = flat.procs.get(1) else {
        return false;
    };
    let FlatBody::LetGroup(slot, first, count, operands, _) = &outer.body else {
        return false;
    };
    ((*slot, *first, *count), operands.as_slice()) == ((1, 0, 1), [Operand::Local(0)].as_slice())
}

// Whether the first of the procedures captures one name, the second captures none and makes the first.
fn captures_inside(flat: &FlatProgram) -> bool {
    [captured_by(flat, 0), captured_by(flat, 1)] == [Some(1), Some(0)] && makes_the_first(flat)
}

// The inner function of (lambda (x) (lambda (y) (+ x y))) comes first, and captures x.
#[test]
fn an_inner_function_captures(rt: HostRuntime) {
    let flat = of_term(&rt, rt.alloc(), term(&rt, rt.alloc(), Sample::Nested));
    assert!(rt; captures_inside(&flat));
}
