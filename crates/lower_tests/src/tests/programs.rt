// First-order programs, written by hand.

ghost use Rattle.rv_machine.specs.Start.{IsRegionSize, IsStackSize};

use crate::tests::images::{answer, comes_to};
use crate::tests::merged::{operands, proc, put_in_box};
use flat_ir::code::{FlatBody, Operand, Operation};
use flat_ir::programs::{FlatProcs, FlatProgram};
use grift_base::operators::PrimOp;
use grift_base::places::TypeId;
use grift_base::verdicts::{AnswerKind, Trap};
use rv_emulator::stops::Stop;
use std::alloc::Global;
use std::process::Abort;
use type_graph::rows::Row;

// The value of an operator.
fn prim(rt: &impl Abort, alloc: Global, operator: PrimOp, these: &[Operand]) -> FlatBody {
    FlatBody::Give(Operation::Prim(operator, operands(rt, alloc, these)))
}

// A call of a function with one argument.
fn call(rt: &impl Abort, alloc: Global, function: Operand, argument: Operand) -> FlatBody {
    FlatBody::Call(function, operands(rt, alloc, &[argument]))
}

// A body in a box.
fn in_box(rt: &impl Abort, alloc: Global, body: FlatBody) -> Box<FlatBody> {
    put_in_box(alloc, body).expect(rt, "memory")
}

// A name for the value of a body, and then this.
fn named(rt: &impl Abort, alloc: Global, slot: u32, inner: FlatBody, rest: FlatBody) -> FlatBody {
    FlatBody::LetBody(slot, in_box(rt, alloc, inner), in_box(rt, alloc, rest))
}

// The one body where a name holds, and else the other.
fn choose(
    rt: &impl Abort,
    alloc: Global,
    test: Operand,
    one: FlatBody,
    other: FlatBody,
) -> FlatBody {
    FlatBody::Choose(test, in_box(rt, alloc, one), in_box(rt, alloc, other))
}

// A function of one parameter with so many captured names and this body, and the body to begin with.
fn program(
    rt: &impl Abort,
    alloc: Global,
    captured: u32,
    body: FlatBody,
    begins: FlatBody,
) -> FlatProgram {
    let mut procs = FlatProcs::new(alloc);
    procs.push(proc(1, captured, 1, body)).expect(rt, "memory");
    procs.push(proc(0, 0, 0, begins)).expect(rt, "memory");
    FlatProgram {
        procs,
        entry: 1,
        answer: TypeId(0),
    }
}

// The function of the group is made, with this captured, and called with a number.
fn begins(rt: &impl Abort, alloc: Global, slot: u32, captured: &[Operand], n: i64) -> FlatBody {
    let call = call(rt, alloc, Operand::Local(slot), Operand::Int(n));
    let call = in_box(rt, alloc, call);
    FlatBody::LetGroup(slot, 0, 1, operands(rt, alloc, captured), call)
}

// The function's value a number below the parameter has a name, the difference another, and then this.
fn value_below(
    rt: &impl Abort,
    alloc: Global,
    less: i64,
    difference: u32,
    value: u32,
    rest: FlatBody,
) -> FlatBody {
    let operands = [Operand::Local(0), Operand::Int(less)];
    let body = call(rt, alloc, Operand::Sibling(0), Operand::Local(difference));
    let body = named(rt, alloc, value, body, rest);
    named(
        rt,
        alloc,
        difference,
        prim(rt, alloc, PrimOp::Sub, &operands),
        body,
    )
}

// The sum of the function's values one and two below the parameter.
fn two_below(rt: &impl Abort, alloc: Global) -> FlatBody {
    let sum = prim(
        rt,
        alloc,
        PrimOp::Add,
        &[Operand::Local(3), Operand::Local(5)],
    );
    let body = value_below(rt, alloc, 2, 4, 5, sum);
    value_below(rt, alloc, 1, 2, 3, body)
}

// The body of the function of Fibonacci.
fn fibonacci_body(rt: &impl Abort, alloc: Global) -> FlatBody {
    let below = FlatBody::Give(Operation::Move(Operand::Local(0)));
    let chosen = choose(rt, alloc, Operand::Local(1), below, two_below(rt, alloc));
    let test = prim(rt, alloc, PrimOp::Lt, &[Operand::Local(0), Operand::Int(2)]);
    named(rt, alloc, 1, test, chosen)
}

// The numbers of Fibonacci.
fn fibonacci(rt: &impl Abort, alloc: Global, n: i64) -> FlatProgram {
    let begins = begins(rt, alloc, 0, &[], n);
    program(rt, alloc, 0, fibonacci_body(rt, alloc), begins)
}

// What the number of Fibonacci of 15 comes to in a region and a stack of these sizes.
fn fibonacci_in(rt: &impl Abort, alloc: Global, region: u64, stack: u64) -> Stop
    requires region { IsRegionSize region }
    requires stack { IsStackSize stack }
{
    comes_to(
        rt,
        alloc,
        fibonacci(rt, alloc, 15),
        &Row::Int,
        region,
        stack,
    )
}

#[test]
fn fibonacci_of_15_is_610(rt: HostRuntime) {
    let alloc = rt.alloc();
    // The one function takes a header and a code address. Of each of 15 calls the stack has a link and a word at least.
    assert!(&rt; fibonacci_in(&rt, alloc, 16, 8192) == answer(AnswerKind::Int, 610));
    assert!(&rt; fibonacci_in(&rt, alloc, 8, 8192) == Stop::RegionOut);
    assert!(&rt; fibonacci_in(&rt, alloc, 16, 128) == Stop::StackOut);
}

// The body of a function that counts down to 0, and then answers what is captured.
fn counting_body(rt: &impl Abort, alloc: Global) -> FlatBody {
    let end = FlatBody::Give(Operation::Move(Operand::Captured(0)));
    let next = call(rt, alloc, Operand::Sibling(0), Operand::Local(2));
    let less = prim(
        rt,
        alloc,
        PrimOp::Sub,
        &[Operand::Local(0), Operand::Int(1)],
    );
    let next = named(rt, alloc, 2, less, next);
    let chosen = choose(rt, alloc, Operand::Local(1), end, next);
    let test = prim(rt, alloc, PrimOp::Eq, &[Operand::Local(0), Operand::Int(0)]);
    named(rt, alloc, 1, test, chosen)
}

// Counts down to 0, and then answers what is captured, which is 7.
fn counts_down(rt: &impl Abort, alloc: Global, n: i64) -> FlatProgram {
    let begins = begins(rt, alloc, 1, &[Operand::Local(0)], n);
    let seven = FlatBody::Give(Operation::Move(Operand::Int(7)));
    let begins = named(rt, alloc, 0, seven, begins);
    program(rt, alloc, 1, counting_body(rt, alloc), begins)
}

#[test]
fn a_hundred_thousand_tail_calls_take_no_stack(rt: HostRuntime) {
    let alloc = rt.alloc();
    let stop = comes_to(
        &rt,
        alloc,
        counts_down(&rt, alloc, 100_000),
        &Row::Int,
        24,
        1024,
    );
    assert!(rt; stop == answer(AnswerKind::Int, 7));
}

// A program without functions of its own; the first procedure isn't called.
fn plain(rt: &impl Abort, alloc: Global, body: FlatBody) -> FlatProgram {
    let unused = FlatBody::Give(Operation::Move(Operand::Local(0)));
    program(rt, alloc, 0, unused, body)
}

// What a program without functions of its own comes to in a region of a size.
fn plain_in(rt: &impl Abort, alloc: Global, body: FlatBody, answer: &Row, region: u64) -> Stop
    requires { IsRegionSize region }
{
    comes_to(rt, alloc, plain(rt, alloc, body), answer, region, 1024)
}

// Whether a number is at most 3.
fn at_most_three(rt: &impl Abort, alloc: Global, n: i64) -> FlatBody {
    prim(rt, alloc, PrimOp::Le, &[Operand::Int(n), Operand::Int(3)])
}

// A part of a tuple of 4 and a truth value.
fn part(rt: &impl Abort, alloc: Global, i: i64) -> FlatBody {
    let parts = operands(rt, alloc, &[Operand::Int(4), Operand::Bool(true)]);
    let tuple = FlatBody::Give(Operation::Tuple(parts));
    let taken = FlatBody::Give(Operation::Proj(Operand::Local(0), i));
    named(rt, alloc, 0, tuple, taken)
}

// What is in a box of 1 after 9 is put into it.
fn boxed(rt: &impl Abort, alloc: Global) -> FlatBody {
    let read = prim(rt, alloc, PrimOp::Unbox, &[Operand::Local(0)]);
    let write = prim(
        rt,
        alloc,
        PrimOp::BoxSet,
        &[Operand::Local(0), Operand::Int(9)],
    );
    let body = named(rt, alloc, 1, write, read);
    let made = prim(rt, alloc, PrimOp::MakeBox, &[Operand::Int(1)]);
    named(rt, alloc, 0, made, body)
}

// A value is cast by one cast, and what it becomes by another.
fn cast_twice(rt: &impl Abort, alloc: Global, value: Operand, first: u32, second: u32) -> FlatBody {
    let first = FlatBody::Give(Operation::Cast(value, first));
    let second = FlatBody::Give(Operation::Cast(Operand::Local(0), second));
    named(rt, alloc, 0, first, second)
}

// The greatest integer that is cast in place.
const MOST: i64 = 1_152_921_504_606_846_975;

// A value, two casts, and the word of the integer that comes out.
const CAST_TWICE: &[(Operand, u32, u32, i64)] = &[
    (Operand::Int(5), 0, 1, 5),
    (Operand::Int(-5), 0, 1, -5),
    (Operand::Int(MOST), 0, 1, MOST),
    (Operand::Int(-MOST - 1), 0, 1, -MOST - 1),
    (Operand::Int(MOST + 1), 0, 1, 0),
    (Operand::Int(-MOST - 2), 0, 1, 0),
    (Operand::Int(5), 0, 3, 0),
    (Operand::Bool(true), 2, 3, 1),
    (Operand::Bool(true), 2, 1, 0),
];

// Each value comes to what its row says.
fn come_to(rt: &impl Abort, alloc: Global, rows: &[(Operand, u32, u32, i64)]) {
    for (value, first, second, word) in rows {
        let twice = cast_twice(rt, alloc, *value, *first, *second);
        assert!(rt; plain_in(rt, alloc, twice, &Row::Int, 0) == answer(AnswerKind::Int, *word));
    }
}

// The procedure of casts answers 0, so each other answer was made in place.
#[test]
fn small_values_are_cast_in_place(rt: HostRuntime) {
    let alloc = rt.alloc();
    come_to(&rt, alloc, CAST_TWICE);
    let unit = FlatBody::Give(Operation::Cast(Operand::Unit, 4));
    assert!(&rt; plain_in(&rt, alloc, unit, &Row::Dyn, 0) == answer(AnswerKind::Unit, 0));
}

// Without input, as the machine is here, a number that is read is a trap.
#[test]
fn reading_without_input_traps(rt: HostRuntime) {
    let alloc = rt.alloc();
    let read = prim(&rt, alloc, PrimOp::ReadInt, &[]);
    assert!(&rt; plain_in(&rt, alloc, read, &Row::Int, 0) == Stop::Trapped(Trap::Input));
}

// What the test of a number against 3 comes to.
fn three_against(rt: &impl Abort, alloc: Global, n: i64) -> Stop {
    plain_in(rt, alloc, at_most_three(rt, alloc, n), &Row::Bool, 0)
}

// What a part of the tuple comes to, as an answer of a type.
fn shown_part(rt: &impl Abort, alloc: Global, i: i64, answer: &Row) -> Stop {
    plain_in(rt, alloc, part(rt, alloc, i), answer, 24)
}

// What is in the box, as an answer of a type.
fn shown_box(rt: &impl Abort, alloc: Global, answer: &Row) -> Stop {
    plain_in(rt, alloc, boxed(rt, alloc), answer, 16)
}

#[test]
fn answers_are_shown_by_their_type(rt: HostRuntime) {
    let alloc = rt.alloc();
    assert!(&rt; three_against(&rt, alloc, 3) == answer(AnswerKind::Bool, 1));
    assert!(&rt; three_against(&rt, alloc, 4) == answer(AnswerKind::Bool, 0));
    assert!(&rt; shown_part(&rt, alloc, 0, &Row::Int) == answer(AnswerKind::Int, 4));
    assert!(&rt; shown_part(&rt, alloc, 1, &Row::Bool) == answer(AnswerKind::Bool, 1));
    assert!(&rt; shown_box(&rt, alloc, &Row::Int) == answer(AnswerKind::Int, 9));
    assert!(&rt; shown_box(&rt, alloc, &Row::Unit) == answer(AnswerKind::Unit, 0));
}
