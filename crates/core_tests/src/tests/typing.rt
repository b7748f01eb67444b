// Terms that have a type, and terms that have none.

use crate::tests::samples::{
    BOOL, DYN, INT, INT_TO_INT, PAIR, boxed, cast, identity, let_one, one, sample_types, two,
};
use core_calc::terms::{Core, CoreList, GroupMember, GroupMembers, Value, VarId, VarIds};
use core_calc::typing::typed;
use grift_base::operators::PrimOp;
use grift_base::places::TypeId;
use std::alloc::Global;
use std::process::Abort;

const X: VarId = VarId(0);

// The type of a term over the types of the samples.
fn type_found(rt: &impl Abort, alloc: Global, core: &Core) -> Option<TypeId> {
    let types = sample_types(rt, alloc);
    typed(alloc, core, &types).expect(rt, "memory")
}

// Terms that have a type.
#[derive(Clone, Copy, Debug)]
enum Good {
    // (: (: #t Dyn) Int)
    OutOfDyn,
    // (let ([x 1]) ((lambda ([y : Int]) : Int y) x))
    CallUnderLet,
    // (letrec ([f (lambda ([x : Int]) : Int (f x))]) f)
    Group,
    // (tuple 1 #t)
    Pair,
    // (tuple-proj (tuple 1 #t) 1)
    Part,
    // (< 1 2)
    Less,
}

fn good_term(rt: &impl Abort, alloc: Global, good: Good) -> Core {
    match good {
        Good::OutOfDyn => {
            let inner = cast(rt, alloc, Core::Bool(true), BOOL, DYN, 0);
            cast(rt, alloc, inner, DYN, INT, 0)
        }
        Good::CallUnderLet => {
            let function = boxed(rt, alloc, identity(rt, alloc, VarId(1), INT_TO_INT));
            let call = Core::Call(function, one(rt, alloc, Core::Var(X)));
            let_one(rt, alloc, X, Core::Int(1), call)
        }
        Good::Group => group(rt, alloc),
        Good::Pair => pair(rt, alloc),
        Good::Part => Core::Proj(boxed(rt, alloc, pair(rt, alloc)), 1),
        Good::Less => Core::Prim(PrimOp::Lt, two(rt, alloc, Core::Int(1), Core::Int(2))),
    }
}

fn pair(rt: &impl Abort, alloc: Global) -> Core {
    Core::Tuple(two(rt, alloc, Core::Int(1), Core::Bool(true)))
}

fn group(rt: &impl Abort, alloc: Global) -> Core {
    let name = VarId(1);
    let function = boxed(rt, alloc, Core::Var(name));
    let member = GroupMember {
        name,
        params: VarIds::from_slice(alloc, &[X]).expect(rt, "memory"),
        body: Core::Call(function, one(rt, alloc, Core::Var(X))),
        ty: INT_TO_INT,
    };
    let mut members = GroupMembers::new();
    members.push_front(alloc, member).expect(rt, "memory");
    Core::Group(members, boxed(rt, alloc, Core::Var(name)))
}

// Whether a term is of this type.
fn has_type(rt: &impl Abort, alloc: Global, good: Good, ty: TypeId) -> bool {
    let core = good_term(rt, alloc, good);
    type_found(rt, alloc, &core) == Some(ty)
}

#[test]
fn terms_have_types(rt: HostRuntime) {
    for (sample, ty) in [
        (Good::OutOfDyn, INT),
        (Good::CallUnderLet, INT),
        (Good::Group, INT_TO_INT),
        (Good::Pair, PAIR),
        (Good::Part, BOOL),
        (Good::Less, BOOL),
    ] {
        assert!(rt; has_type(&rt, rt.alloc(), sample, ty), "{sample:?}");
    }
}

// Terms that have none.
#[derive(Clone, Copy, Debug)]
enum Bad {
    Unbound,
    BoundTwice,
    OutOfScope,
    // What stands in no source: a body that is entered, and a value.
    Entered,
    Stored,
    // Types that differ: of branches, of a cast and what it casts, of parameters and arguments.
    Branches,
    FromAnotherType,
    TooFewArguments,
    // The third part of a pair, and a tuple of nine parts.
    NoSuchPart,
    TooManyParts,
}

fn bad_term(rt: &impl Abort, alloc: Global, bad: Bad) -> Core {
    match bad {
        Bad::Unbound => Core::Var(X),
        Bad::BoundTwice => {
            let first = let_one(rt, alloc, X, Core::Int(1), Core::Var(X));
            let second = let_one(rt, alloc, X, Core::Int(1), Core::Var(X));
            Core::Seq(two(rt, alloc, first, second))
        }
        Bad::OutOfScope => {
            let bound = let_one(rt, alloc, X, Core::Int(1), Core::Var(X));
            Core::Seq(two(rt, alloc, bound, Core::Var(X)))
        }
        Bad::Entered => {
            let function = boxed(rt, alloc, identity(rt, alloc, X, INT_TO_INT));
            Core::Enter(function, one(rt, alloc, Core::Int(1)))
        }
        Bad::Stored => Core::Value(Value::Int(1)),
        Bad::Branches => {
            let on_true = boxed(rt, alloc, Core::Int(1));
            let on_false = boxed(rt, alloc, Core::Bool(true));
            Core::If(boxed(rt, alloc, Core::Bool(true)), on_true, on_false)
        }
        Bad::FromAnotherType => cast(rt, alloc, Core::Bool(true), INT, DYN, 0),
        Bad::TooFewArguments => {
            let function = boxed(rt, alloc, identity(rt, alloc, X, INT_TO_INT));
            Core::Call(function, CoreList::new())
        }
        Bad::NoSuchPart => Core::Proj(boxed(rt, alloc, pair(rt, alloc)), 2),
        Bad::TooManyParts => nine(rt, alloc),
    }
}

fn nine(rt: &impl Abort, alloc: Global) -> Core {
    let mut parts = CoreList::new();
    for number in 0..9 {
        parts
            .push_front(alloc, Core::Int(number))
            .expect(rt, "memory");
    }
    Core::Tuple(parts)
}

// Whether a term is of no type.
fn has_none(rt: &impl Abort, alloc: Global, bad: Bad) -> bool {
    let core = bad_term(rt, alloc, bad);
    type_found(rt, alloc, &core) == None
}

#[test]
fn other_terms_have_none(rt: HostRuntime) {
    for sample in [
        Bad::Unbound,
        Bad::BoundTwice,
        Bad::OutOfScope,
        Bad::Entered,
        Bad::Stored,
        Bad::Branches,
        Bad::FromAnotherType,
        Bad::TooFewArguments,
        Bad::NoSuchPart,
        Bad::TooManyParts,
    ] {
        assert!(rt; has_none(&rt, rt.alloc(), sample), "{sample:?}");
    }
}

// 131,072 truth values, and 1 behind them.
fn long_sequence(rt: &impl Abort, alloc: Global) -> Core {
    let mut terms = one(rt, alloc, Core::Int(1));
    for _ in 0..131_072 {
        terms
            .push_front(alloc, Core::Bool(true))
            .expect(rt, "memory");
    }
    Core::Seq(terms)
}

// A list is longer than the process's stack is deep.
#[test]
fn a_long_sequence_has_a_type(rt: HostRuntime) {
    let core = long_sequence(&rt, rt.alloc());
    assert!(rt; type_found(&rt, rt.alloc(), &core) == Some(INT));
}
