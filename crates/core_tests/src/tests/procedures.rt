// Programs that are closed, and programs that aren't.

use flat_ir::code::{FlatBody, Operand, Operands, Operation};
use flat_ir::programs::{FlatProc, FlatProcs, FlatProgram};
use grift_base::lists::OutOfMemory;
use grift_base::operators::PrimOp;
use grift_base::places::TypeId;
use std::alloc::Global;
use std::process::Abort;

fn proc(params: u32, captured: u32, group: u32, place: u32, body: FlatBody) -> FlatProc {
    FlatProc {
        params,
        captured,
        group,
        place,
        body,
    }
}

fn give(operand: Operand) -> FlatBody {
    FlatBody::Give(Operation::Move(operand))
}

// A program of these procedures, which begins with the one of this number.
fn program(procs: FlatProcs, entry: u32) -> FlatProgram {
    FlatProgram {
        procs,
        entry,
        answer: TypeId(0),
    }
}

// These operands.
fn operands(rt: &impl Abort, alloc: Global, these: &[Operand]) -> Operands {
    Operands::from_slice(alloc, these).expect(rt, "memory")
}

// A body in a box, if there is memory for it.
fn put_in_box(alloc: Global, body: FlatBody) -> Result<Box<FlatBody>, OutOfMemory> {
    Ok(Box::new(alloc, body)?)
}

fn boxed(rt: &impl Abort, alloc: Global, body: FlatBody) -> Box<FlatBody> {
    put_in_box(alloc, body).expect(rt, "memory")
}

// A group of two functions that capture what this operand stands for, and a call of the second one.
fn calling(rt: &impl Abort, alloc: Global, captured: Operand) -> FlatBody {
    let call = FlatBody::Call(Operand::Local(1), operands(rt, alloc, &[Operand::Unit]));
    let call = boxed(rt, alloc, call);
    FlatBody::LetGroup(0, 0, 2, operands(rt, alloc, &[captured]), call)
}

// A group of two functions that capture one name, which is what this operand stands for; the procedure that the program
// begins with calls the second one.
fn two_functions(rt: &impl Abort, alloc: Global, captured: Operand) -> FlatProcs {
    let mut procs = FlatProcs::new(alloc);
    let first = proc(1, 1, 2, 0, give(Operand::Captured(0)));
    procs.push(first).expect(rt, "memory");
    let second = proc(1, 1, 2, 1, give(Operand::Sibling(0)));
    procs.push(second).expect(rt, "memory");
    let begins = proc(0, 0, 0, 0, calling(rt, alloc, captured));
    procs.push(begins).expect(rt, "memory");
    procs
}

// Whether these functions are closed, with a program that begins with this procedure.
fn two_are_closed(rt: &impl Abort, alloc: Global, captured: Operand, entry: u32) -> bool {
    program(two_functions(rt, alloc, captured), entry).is_closed()
}

#[test]
fn names_and_procedures_are_there(rt: HostRuntime) {
    for (captured, entry, closed) in [
        (Operand::Int(3), 2, true),
        (Operand::Local(0), 2, false),
        (Operand::Int(3), 3, false),
    ] {
        assert!(rt;
            two_are_closed(&rt, rt.alloc(), captured, entry) == closed,
            "{captured:?} {entry}"
        );
    }
}

// Whether a procedure alone of this body is closed.
fn alone_is_closed(rt: &impl Abort, alloc: Global, body: FlatBody) -> bool {
    let mut procs = FlatProcs::new(alloc);
    procs.push(proc(0, 0, 0, 0, body)).expect(rt, "memory");
    program(procs, 0).is_closed()
}

// Whether an operator with these operands is closed.
fn operator_is_closed(rt: &impl Abort, alloc: Global, these: &[Operand]) -> bool {
    let operation = Operation::Prim(PrimOp::Add, operands(rt, alloc, these));
    alone_is_closed(rt, alloc, FlatBody::Give(operation))
}

#[test]
fn operators_have_eight_operands_at_most(rt: HostRuntime) {
    let eight = operator_is_closed(&rt, rt.alloc(), &[Operand::Unit; 8]);
    let nine = operator_is_closed(&rt, rt.alloc(), &[Operand::Unit; 9]);
    assert!(rt; eight && !nine);
}

// 200,000 names one after another, and the last of them.
fn long_body(rt: &impl Abort, alloc: Global) -> FlatBody {
    let mut body = give(Operand::Local(199_999));
    for behind in 1..200_001 {
        let inner = boxed(rt, alloc, give(Operand::Unit));
        body = FlatBody::LetBody(200_000 - behind, inner, boxed(rt, alloc, body));
    }
    body
}

#[test]
fn long_bodies_are_looked_at_and_dropped_without_recursion(rt: HostRuntime) {
    assert!(rt; alone_is_closed(&rt, rt.alloc(), long_body(&rt, rt.alloc())));
}
