// Numbered procedures, written by hand, that are lowered with the scheme of one proxy at most, as images on the
// emulator: boxes, vectors, tuples, functions and Dyn, through proxies.

ghost use Rattle.std.specs.Prelude.{◌≡◌, ◌<◌, true, All, length};
ghost use Rattle.coercion_norm.specs.CoercionTables.{FitsTypes};

use crate::tests::images::runs;
use crate::tests::merged::End::{Answers, Blames, Traps};
use crate::tests::merged::Turn::{Call, Cast, Does, Function, Part, PartOfDyn, Tuple};
use coercion_norm::cast_rows::{CastRow, CastRows};
use coercion_norm::casts::coerce;
use coercion_norm::tables::CoercionTable;
use flat_ir::code::Operand::{Bool, Captured, Int, Local};
use flat_ir::code::{FlatBody, Operand, Operands, Operation};
use flat_ir::programs::{FlatProc, FlatProcs, FlatProgram};
use grift_base::lists::OutOfMemory;
use grift_base::operators::PrimOp;
use grift_base::operators::PrimOp::{
    BoxSet, MakeBox, MakeVector, Unbox, VectorLength, VectorRef, VectorSet,
};
use grift_base::places::{LabelId, LabelTable, Pos, TypeId};
use grift_base::verdicts::{Answer, AnswerKind, Trap};
use low_ir::programs::LowProgram;
use lower::merged::Merged;
use lower::schemes::{Scheme, lower_with};
use rv_emulator::stops::Stop;
use std::alloc::Global;
use std::marker::Model;
use std::process::Abort;
use type_graph::rows::{Row, TypeIds};
use type_graph::tables::TypeTable;

// ---- types and casts

// The rows of types, each behind its parts.
enum Shape {
    Int,
    Bool,
    Dyn,
    Ref(TypeId),
    Vect(TypeId),
    Fun(TypeId, TypeId),
    Pair(TypeId, TypeId),
}

pub(crate) const INT: TypeId = TypeId(0);

pub(crate) const BOOL: TypeId = TypeId(1);

const DYN: TypeId = TypeId(2);

pub(crate) const BOX_OF_INT: TypeId = TypeId(3);

const BOX_OF_DYN: TypeId = TypeId(4);

const VECTOR_OF_INT: TypeId = TypeId(5);

const VECTOR_OF_DYN: TypeId = TypeId(6);

const INT_TO_INT: TypeId = TypeId(7);

const DYN_TO_DYN: TypeId = TypeId(8);

const TWO_INTS: TypeId = TypeId(9);

const TWO_DYNS: TypeId = TypeId(10);

pub(crate) const BOX_OF_BOOL: TypeId = TypeId(11);

const TYPES: &[Shape] = &[
    Shape::Int,
    Shape::Bool,
    Shape::Dyn,
    Shape::Ref(INT),
    Shape::Ref(DYN),
    Shape::Vect(INT),
    Shape::Vect(DYN),
    Shape::Fun(INT, INT),
    Shape::Fun(DYN, DYN),
    Shape::Pair(INT, INT),
    Shape::Pair(DYN, DYN),
    Shape::Ref(BOOL),
];

// The casts by their numbers, each of which has the label of its number.
const INT_IN: u32 = 0;

const INT_OUT: u32 = 1;

const BOOL_IN: u32 = 2;

const BOX: u32 = 3;

const BOX_BACK: u32 = 4;

const VECTOR: u32 = 5;

const FUNCTION: u32 = 6;

const PAIR: u32 = 7;

const BOX_IN: u32 = 8;

const BOX_OUT: u32 = 9;

const PAIR_IN: u32 = 10;

const BOX_OF_TRUTH: u32 = 11;

const CASTS: &[(TypeId, TypeId)] = &[
    (INT, DYN),
    (DYN, INT),
    (BOOL, DYN),
    (BOX_OF_INT, BOX_OF_DYN),
    (BOX_OF_DYN, BOX_OF_INT),
    (VECTOR_OF_INT, VECTOR_OF_DYN),
    (INT_TO_INT, DYN_TO_DYN),
    (TWO_INTS, TWO_DYNS),
    (BOX_OF_INT, DYN),
    (DYN, BOX_OF_DYN),
    (TWO_INTS, DYN),
    (BOX_OF_DYN, BOX_OF_BOOL),
];

// The label of a part of what is in Dyn, behind those of the casts.
const OF_PART: u32 = 12;

// The place of a label.
pub(crate) fn place(label: u32) -> Pos {
    Pos {
        line: label.wrapping_add(1),
        col: 1,
    }
}

// A list of types.
fn ids(rt: &impl Abort, alloc: Global, types: &[TypeId]) -> TypeIds {
    TypeIds::from_slice(alloc, types).expect(rt, "memory")
}

// The row of a shape.
fn row_of(rt: &impl Abort, alloc: Global, shape: &Shape) -> Row {
    match shape {
        Shape::Int => Row::Int,
        Shape::Bool => Row::Bool,
        Shape::Dyn => Row::Dyn,
        Shape::Ref(content) => Row::Ref(*content),
        Shape::Vect(content) => Row::Vect(*content),
        Shape::Fun(parameter, result) => Row::Fun(ids(rt, alloc, &[*parameter]), *result),
        Shape::Pair(first, second) => Row::Tuple(ids(rt, alloc, &[*first, *second])),
    }
}

// The table of the types.
fn types(rt: &impl Abort, alloc: Global) -> TypeTable {
    let mut types = TypeTable::new(alloc).expect(rt, "memory");
    for shape in TYPES {
        let row = row_of(rt, alloc, shape);
        assert!(rt; types.fits(&row));
        types.intern(row).expect(rt, "memory");
    }
    types
}

// Types, coercions that fit them, and casts by these.
#[derive(Drop)]
pub(crate) struct Tables {
    types: TypeTable,
    table: CoercionTable,
    casts: CastRows,
}

impl Model for Tables {
    ghost use Rattle.grift_base.specs.Types.{TypeRows};
    ghost use Rattle.coercion_norm.specs.CoercionTables.{FitsTypes, NodeTable};

    ghost Value = { TypeRows × NodeTable };

    ghost view = { λ a. (a.types, a.table) };

    ghost invariant = { λ a. FitsTypes a.types a.table };
}

// Whether the coercion of each cast is there.
fn are_there(table: &CoercionTable, casts: &CastRows) -> bool
    ensures { result ≡ true → All (λ cast. cast.coercion.0 < length table.now.nodes) casts.now }
{
    for cast in casts.as_slice() {
        if cast.coercion.0 >= table.len() {
            return false;
        }
    }
    true
}

// The program over words of numbered procedures over a scheme, with casts whose coercions are there.
fn low_of<S: Scheme>(
    rt: &impl Abort,
    alloc: Global,
    flat: &FlatProgram,
    types: &TypeTable,
    table: &CoercionTable,
    casts: &CastRows,
    scheme: &S,
) -> LowProgram
    requires { FitsTypes types.now table.now }
{
    assert!(rt; flat.answer.0 < types.len(), "no type is there");
    assert!(rt; are_there(table, casts), "no coercion is there");
    lower_with(alloc, flat, types, casts, table, scheme).expect(rt, "memory")
}

impl Tables {
    // The types, and no casts.
    fn new(rt: &impl Abort, alloc: Global) -> Tables {
        Tables {
            types: types(rt, alloc),
            table: CoercionTable::new(alloc).expect(rt, "memory"),
            casts: CastRows::new(alloc),
        }
    }

    // A cast more, with its coercion.
    fn add(&mut self, rt: &impl Abort, alloc: Global, from: TypeId, to: TypeId, label: LabelId) {
        assert!(rt; from.0 < self.types.len() && to.0 < self.types.len());
        let made = coerce(alloc, &mut self.table, &self.types, from, to, label);
        let row = CastRow {
            from,
            to,
            label,
            coercion: made.expect(rt, "memory"),
        };
        self.casts.intern(row).expect(rt, "memory");
    }

    // The program over words of numbered procedures, over a scheme.
    pub(crate) fn low_of<S: Scheme>(
        &self,
        rt: &impl Abort,
        alloc: Global,
        flat: &FlatProgram,
        scheme: &S,
    ) -> LowProgram {
        low_of(
            rt,
            alloc,
            flat,
            &self.types,
            &self.table,
            &self.casts,
            scheme,
        )
    }
}

// The types and these casts.
pub(crate) fn with_casts(rt: &impl Abort, alloc: Global, casts: &[(TypeId, TypeId)]) -> Tables {
    let mut tables = Tables::new(rt, alloc);
    for (label, (from, to)) in casts.iter().enumerate() {
        assert!(rt; label < 100);
        tables.add(rt, alloc, *from, *to, LabelId(label as u32));
    }
    tables
}

// The labels of the casts, and one more.
pub(crate) fn labels(rt: &impl Abort, alloc: Global) -> LabelTable {
    let mut labels = LabelTable::new(alloc);
    for label in 0..=OF_PART {
        labels.intern(place(label)).expect(rt, "memory");
    }
    labels
}

// ---- procedures

// What gives the next name its value, or ends a body.
pub(crate) enum Turn {
    Does(PrimOp, &'static [Operand]),
    Cast(Operand, u32),
    Tuple(&'static [Operand]),
    Part(Operand, i64),
    PartOfDyn(Operand, i64),
    Call(Operand, &'static [Operand]),
    // the function of a procedure, with what it captures
    Function(u32, &'static [Operand]),
}

// These operands.
pub(crate) fn operands(rt: &impl Abort, alloc: Global, these: &[Operand]) -> Operands {
    Operands::from_slice(alloc, these).expect(rt, "memory")
}

// The body of a turn alone.
pub(crate) fn given(rt: &impl Abort, alloc: Global, turn: &Turn) -> FlatBody {
    match turn {
        Does(operator, these) => FlatBody::Give(Operation::Prim(
            *operator,
            operands(rt, alloc, these),
        )),
        Cast(value, number) => FlatBody::Give(Operation::Cast(*value, *number)),
        Tuple(these) => FlatBody::Give(Operation::Tuple(operands(rt, alloc, these))),
        Part(value, k) => FlatBody::Give(Operation::Proj(*value, *k)),
        PartOfDyn(value, k) => FlatBody::Give(Operation::ProjDyn(*value, *k, LabelId(OF_PART))),
        Call(function, these) => FlatBody::Call(*function, operands(rt, alloc, these)),
        Function(_, _) => FlatBody::Give(Operation::Move(Operand::Unit)),
    }
}

// A body in a box, if there is memory for it.
pub(crate) fn put_in_box(alloc: Global, body: FlatBody) -> Result<Box<FlatBody>, OutOfMemory> {
    Ok(Box::new(alloc, body)?)
}

// A turn whose value has the name of a number in what comes behind it.
fn before(rt: &impl Abort, alloc: Global, slot: u32, turn: &Turn, rest: FlatBody) -> FlatBody {
    let rest = put_in_box(alloc, rest).expect(rt, "memory");
    if let Function(first, captured) = turn {
        return FlatBody::LetGroup(slot, *first, 1, operands(rt, alloc, captured), rest);
    }
    let inner = put_in_box(alloc, given(rt, alloc, turn)).expect(rt, "memory");
    FlatBody::LetBody(slot, inner, rest)
}

// Turns one after another, the first of which gives name 0, and the last of which ends the body.
pub(crate) fn body(rt: &impl Abort, alloc: Global, turns: &[Turn], last: &Turn) -> FlatBody {
    let mut body = given(rt, alloc, last);
    for (slot, turn) in turns.iter().enumerate().rev() {
        assert!(rt; slot < 100);
        body = before(rt, alloc, slot as u32, turn, body);
    }
    body
}

// A procedure.
pub(crate) fn proc(params: u32, captured: u32, group: u32, body: FlatBody) -> FlatProc {
    FlatProc {
        params,
        captured,
        group,
        place: 0,
        body,
    }
}

// A function that adds one, a function that calls what it has captured, and the body to begin with.
fn flat_program(rt: &impl Abort, alloc: Global, row: &Program) -> FlatProgram {
    let mut procs = FlatProcs::new(alloc);
    let adds = given(rt, alloc, &Does(PrimOp::Add, &[Local(0), Int(1)]));
    procs.push(proc(1, 0, 1, adds)).expect(rt, "memory");
    let calls = given(rt, alloc, &Call(Captured(0), &[Local(0)]));
    procs.push(proc(1, 1, 1, calls)).expect(rt, "memory");
    let begins = body(rt, alloc, row.turns, &row.last);
    procs.push(proc(0, 0, 0, begins)).expect(rt, "memory");
    FlatProgram {
        procs,
        entry: 2,
        answer: INT,
    }
}

// ---- programs

// What an image comes to: an integer, the blame of a label, or a trap.
pub(crate) enum End {
    Answers(i64),
    Blames(u32),
    Traps(Trap),
}

// Turns, the last one, and what the image comes to.
pub(crate) struct Program {
    pub(crate) turns: &'static [Turn],
    pub(crate) last: Turn,
    pub(crate) end: End,
}

const BOXES: &[Program] = &[
    // what is written through a proxy stands in the box
    program!(
        Does(MakeBox, &[Int(40)]), Cast(Local(0), BOX), Cast(Int(42), INT_IN),
        Does(BoxSet, &[Local(1), Local(2)]); Does(Unbox, &[Local(0)]) => Answers(42)
    ),
    // what is read through a proxy is in Dyn
    program!(
        Does(MakeBox, &[Int(7)]), Cast(Local(0), BOX), Does(Unbox, &[Local(1)]);
        Cast(Local(2), INT_OUT) => Answers(7)
    ),
    // a truth value that is written blames the cast of the box
    program!(
        Does(MakeBox, &[Int(1)]), Cast(Local(0), BOX), Cast(Bool(true), BOOL_IN),
        Does(BoxSet, &[Local(1), Local(2)]); Does(Unbox, &[Local(0)]) => Blames(BOX)
    ),
    // the second cast undoes the first: no proxy is left, and what is written stands in the box
    program!(
        Does(MakeBox, &[Int(5)]), Cast(Local(0), BOX), Cast(Local(1), BOX_BACK),
        Does(BoxSet, &[Local(2), Int(6)]); Does(Unbox, &[Local(2)]) => Answers(6)
    ),
    // what is read through two casts that became one is blamed by the one that wants a truth value
    program!(
        Does(MakeBox, &[Int(5)]), Cast(Local(0), BOX), Cast(Local(1), BOX_OF_TRUTH);
        Does(Unbox, &[Local(2)]) => Blames(BOX_OF_TRUTH)
    ),
    // a box goes into Dyn at its type, and comes out at another
    program!(
        Does(MakeBox, &[Int(5)]), Cast(Local(0), BOX_IN), Cast(Local(1), BOX_OUT),
        Does(Unbox, &[Local(2)]); Cast(Local(3), INT_OUT) => Answers(5)
    ),
    // a box that is in Dyn is no integer
    program!(
        Does(MakeBox, &[Int(5)]), Cast(Local(0), BOX_IN); Cast(Local(1), INT_OUT) => Blames(INT_OUT)
    ),
];

const VECTORS: &[Program] = &[
    program!(
        Does(MakeVector, &[Int(3), Int(5)]), Cast(Local(0), VECTOR), Cast(Int(9), INT_IN),
        Does(VectorSet, &[Local(1), Int(1), Local(2)]), Does(VectorRef, &[Local(1), Int(1)]);
        Cast(Local(4), INT_OUT) => Answers(9)
    ),
    program!(
        Does(MakeVector, &[Int(3), Int(5)]), Cast(Local(0), VECTOR);
        Does(VectorLength, &[Local(1)]) => Answers(3)
    ),
    // the index is tested before the value that is written is cast
    program!(
        Does(MakeVector, &[Int(3), Int(5)]), Cast(Local(0), VECTOR), Cast(Bool(true), BOOL_IN),
        Does(VectorSet, &[Local(1), Int(3), Local(2)]);
        Does(VectorLength, &[Local(1)]) => Traps(Trap::Index)
    ),
];

const VECTOR_BLAMES: &[Program] = &[
    program!(
        Does(MakeVector, &[Int(3), Int(5)]), Cast(Local(0), VECTOR), Cast(Bool(true), BOOL_IN),
        Does(VectorSet, &[Local(1), Int(0), Local(2)]);
        Does(VectorLength, &[Local(1)]) => Blames(VECTOR)
    ),
    program!(
        Does(MakeVector, &[Int(3), Int(5)]), Cast(Local(0), VECTOR);
        Does(VectorRef, &[Local(1), Int(-1)]) => Traps(Trap::Index)
    ),
    program!(
        Does(MakeVector, &[Int(3), Int(5)]), Cast(Local(0), VECTOR);
        Does(VectorRef, &[Local(1), Int(3)]) => Traps(Trap::Index)
    ),
];

const TUPLES: &[Program] = &[
    program!(
        Tuple(&[Int(4), Int(6)]), Cast(Local(0), PAIR), Part(Local(1), 1);
        Cast(Local(2), INT_OUT) => Answers(6)
    ),
    program!(
        Tuple(&[Int(4), Int(6)]), Cast(Local(0), PAIR_IN), PartOfDyn(Local(1), 0);
        Cast(Local(2), INT_OUT) => Answers(4)
    ),
    program!(
        Tuple(&[Int(4), Int(6)]), Cast(Local(0), PAIR_IN), PartOfDyn(Local(1), 2);
        Cast(Local(2), INT_OUT) => Blames(OF_PART)
    ),
    // an integer in Dyn has no parts
    program!(
        Cast(Int(5), INT_IN), PartOfDyn(Local(0), 0); Cast(Local(1), INT_OUT) => Blames(OF_PART)
    ),
];

const FUNCTIONS: &[Program] = &[
    program!(
        Function(0, &[]), Cast(Local(0), FUNCTION), Cast(Int(41), INT_IN),
        Call(Local(1), &[Local(2)]); Cast(Local(3), INT_OUT) => Answers(42)
    ),
    program!(
        Function(0, &[]), Cast(Local(0), FUNCTION), Cast(Bool(true), BOOL_IN),
        Call(Local(1), &[Local(2)]); Cast(Local(3), INT_OUT) => Blames(FUNCTION)
    ),
    // a captured name holds a proxy, which is called in tail position
    program!(
        Function(0, &[]), Cast(Local(0), FUNCTION), Function(1, &[Local(1)]), Cast(Int(41), INT_IN),
        Call(Local(2), &[Local(3)]); Cast(Local(4), INT_OUT) => Answers(42)
    ),
];

// The stop of an end.
pub(crate) fn wanted(end: &End) -> Stop {
    match end {
        Answers(word) => Stop::Ended(Answer {
            kind: AnswerKind::Int,
            word: *word,
        }),
        Blames(label) => Stop::Blamed(place(*label)),
        Traps(trap) => Stop::Trapped(*trap),
    }
}

// The program over words of a row.
fn low_program(rt: &impl Abort, alloc: Global, row: &Program) -> LowProgram {
    let flat = flat_program(rt, alloc, row);
    assert!(rt; flat.is_closed());
    with_casts(rt, alloc, CASTS).low_of(rt, alloc, &flat, &Merged)
}

// What the image of a program comes to.
fn stop_of(rt: &impl Abort, alloc: Global, row: &Program) -> Stop {
    let low = low_program(rt, alloc, row);
    assert!(rt; low.is_closed());
    runs(rt, alloc, &low, &labels(rt, alloc), 4096, 65_536)
}

// Each program comes to what its row says.
fn come_to(rt: &impl Abort, alloc: Global, rows: &[Program]) {
    for (at, row) in rows.iter().enumerate() {
        assert!(rt; stop_of(rt, alloc, row) == wanted(&row.end), "program {at}");
    }
}

#[test]
fn boxes_are_read_and_written_through_proxies(rt: HostRuntime) {
    come_to(&rt, rt.alloc(), BOXES);
}

#[test]
fn vectors_are_read_and_written_through_proxies(rt: HostRuntime) {
    come_to(&rt, rt.alloc(), VECTORS);
    come_to(&rt, rt.alloc(), VECTOR_BLAMES);
}

#[test]
fn parts_are_taken_through_proxies_and_out_of_dyn(rt: HostRuntime) {
    come_to(&rt, rt.alloc(), TUPLES);
}

#[test]
fn functions_are_called_through_proxies(rt: HostRuntime) {
    come_to(&rt, rt.alloc(), FUNCTIONS);
}
