// Programs whose casts become rows.

use crate::tests::samples::{
    DYN, DYN_TO_DYN, INT, INT_TO_INT, boxed, cast, identity, let_one, one, sample_types,
};
use coer_core::program::{CoerProgram, to_coercions};
use core_calc::terms::{Core, CoreList, VarId};
use core_calc::typing::typed;
use grift_base::lists::OutOfMemory;
use grift_base::operators::PrimOp;
use grift_base::places::TypeId;
use std::alloc::Global;
use std::process::Abort;
use type_graph::tables::TypeTable;

// The sum of two integers that come out of Dyn by equal casts.
fn equal_casts(rt: &impl Abort, alloc: Global) -> Core {
    let mut operands = CoreList::new();
    for n in [1, 2] {
        let inner = cast(rt, alloc, Core::Int(n), INT, DYN, 0);
        operands
            .push_front(alloc, cast(rt, alloc, inner, DYN, INT, 1))
            .expect(rt, "memory");
    }
    Core::Prim(PrimOp::Add, operands)
}

// (let ([x : Dyn 5]) ((: (lambda (y) y) (Int -> Int)) (: x Int)))
fn identity_called(rt: &impl Abort, alloc: Global) -> Core {
    let x = VarId(0);
    let function = cast(
        rt,
        alloc,
        identity(rt, alloc, VarId(1), DYN_TO_DYN),
        DYN_TO_DYN,
        INT_TO_INT,
        1,
    );
    let argument = cast(rt, alloc, Core::Var(x), DYN, INT, 2);
    let body = Core::Call(boxed(rt, alloc, function), one(rt, alloc, argument));
    let value = cast(rt, alloc, Core::Int(5), INT, DYN, 0);
    let_one(rt, alloc, x, value, body)
}

// A term of some type with its casts.
fn made(rt: &impl Abort, alloc: Global, types: &TypeTable, core: &Core) -> CoerProgram {
    match typed(alloc, core, types) {
        Ok(Some(_)) => to_coercions(alloc, core, types).expect(rt, "memory"),
        Ok(None) => panic!(rt; "no program term"),
        Err(OutOfMemory) => panic!(rt; "no memory"),
    }
}

// How many rows the casts of a term have, how high the tallest is, and of what type the term is.
fn rows_of(rt: &impl Abort, alloc: Global, core: &Core) -> (u64, u32, TypeId) {
    let types = sample_types(rt, alloc);
    let program = made(rt, alloc, &types, core);
    (program.casts.len(), program.tallest, program.answer)
}

#[test]
fn equal_casts_are_one_row(rt: HostRuntime) {
    let core = equal_casts(&rt, rt.alloc());
    let (rows, _tallest, _answer) = rows_of(&rt, rt.alloc(), &core);
    assert!(rt; rows == 2);
}

// Three casts, of which that of the function is the tallest. With `--fail-alloc` each allocation fails in turn, and the
// test then ends in want of memory.
#[test]
fn a_program_has_its_rows_height_and_type(rt: HostRuntime) {
    let core = identity_called(&rt, rt.alloc());
    assert!(rt; rows_of(&rt, rt.alloc(), &core) == (3, 1, INT));
}
