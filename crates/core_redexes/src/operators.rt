// Operators on values.

ghost use Rattle.std.specs.Prelude.{◌≡◌, ◌<◌, ◌∷◌, [], IfOk, IfSome, OnErr, length, map, option_map, true, replicate};
ghost use Rattle.std.specs.Prelude.{slice_get};
ghost use Rattle.grift_base.specs.World.{WorldState};
ghost use Rattle.grift_base.specs.Types.{TypeRows};
ghost use Rattle.grift_base.specs.declared.operators.PrimOp.TheVariants.{Not, PrintInt, Quot, Rem};
ghost use Rattle.core_calc.specs.Outcome.{Store, with_some};
ghost use Rattle.core_calc.specs.Operators.{box_set_step, cast_read, make_vector_step, new_cell, operator_step};
ghost use Rattle.core_calc.specs.Operators.{unbox_cell, unbox_step, vector_length_step, vector_ref_step};
ghost use Rattle.core_calc.specs.Operators.{vector_set_step, writes_cell};
ghost use Rattle.core_calc.specs.States.{store_of};
ghost use Rattle.core_calc.specs.Terms.{LocValue, all_values};
ghost use Rattle.core_calc.specs.Views.{term_of, terms_of, value_of};
ghost use Rattle.core_redexes.specs.Moves.{after};
ghost use Rattle.core_redexes.specs.Redexes.{prim_redex};
ghost use Rattle.core_redexes.specs.Turns.{HasElement, LeadsAlways, LeadsTo, cast_operand, element_at, element_set};
ghost use Rattle.core_redexes.specs.Turns.{element_written, few, integers_step, on_integers, one_step, only_value};
ghost use Rattle.core_redexes.specs.Turns.{place_below, three_step, two_step, values_in, vector_cell, zero_step};

use crate::forms::content_of;
use crate::moves::Moved;
use core_calc::states::Cells;
use core_calc::terms::{Core, CoreList, Value};
use core_terms::copies::{copy_as_value, copy_value};
use core_terms::lists::term_then;
use grift_base::lists::OutOfMemory;
use grift_base::made::boxed;
use grift_base::operators::PrimOp;
use grift_base::places::{LabelId, MOST_ENTRIES, TypeId};
use grift_base::verdicts::Trap;
use grift_base::worlds::World;
use std::alloc::Global;
use std::mem;
use type_graph::tables::TypeTable;

/// What an operator comes to.
#[derive(Drop)]
pub enum Turn {
    /// This term stands in its place.
    Becomes(Core),
    /// It has no answer.
    Traps(Trap),
    /// It has no step on these values.
    Stuck,
}

// What it comes to, unless no memory was left.
type Turned = Result<Turn, OutOfMemory>;

/// The operands of an operator, as values.
#[derive(Drop)]
pub enum Operands {
    /// There is none.
    Zero,
    /// One value.
    One(Value),
    /// Two values, the first one first.
    Two(Value, Value),
    /// Three values, the first one first.
    Three(Value, Value, Value),
    /// One of them is no value, or there are more than any operator has.
    Others,
}

// Operands as values, copied.
fn operands_in(alloc: Global, operands: &CoreList) -> Result<Operands, OutOfMemory>
    ensures { IfOk result (λ found. values_in found ≡ few (all_values (terms_of operands.now))) }
{
    let CoreList::Cons(first, rest) = operands else {
        return Ok(Operands::Zero);
    };
    let Some(first) = copy_as_value(alloc, first)? else {
        return Ok(Operands::Others);
    };
    let CoreList::Cons(second, rest) = &**rest else {
        return Ok(Operands::One(first));
    };
    let Some(second) = copy_as_value(alloc, second)? else {
        return Ok(Operands::Others);
    };
    let CoreList::Cons(third, rest) = &**rest else {
        return Ok(Operands::Two(first, second));
    };
    let Some(third) = copy_as_value(alloc, third)? else {
        return Ok(Operands::Others);
    };
    match &**rest {
        CoreList::Nil => Ok(Operands::Three(first, second, third)),
        CoreList::Cons(_, _) => Ok(Operands::Others),
    }
}

// The quotient, cut off before the point.
fn quotient(a: i64, b: i64) -> Turn
    ensures { LeadsAlways (λ types store world. integers_step types store world Quot a b) result }
{
    if b == 0 {
        Turn::Traps(Trap::ZeroDivisor)
    } else {
        Turn::Becomes(Core::Value(Value::Int(a.wrapping_div(b))))
    }
}

// The remainder of that quotient.
fn remainder(a: i64, b: i64) -> Turn
    ensures { LeadsAlways (λ types store world. integers_step types store world Rem a b) result }
{
    if b == 0 {
        Turn::Traps(Trap::ZeroDivisor)
    } else {
        Turn::Becomes(Core::Value(Value::Int(a.wrapping_rem(b))))
    }
}

// An operator on two integers.
fn on_integers(operator: PrimOp, a: i64, b: i64) -> Turn
    ensures { (types : TypeRows) (store : Store) (world : WorldState)
        → LeadsTo (integers_step types store world operator a b) store world result store world }
{
    match operator {
        PrimOp::Add => Turn::Becomes(Core::Value(Value::Int(a.wrapping_add(b)))),
        PrimOp::Sub => Turn::Becomes(Core::Value(Value::Int(a.wrapping_sub(b)))),
        PrimOp::Mul => Turn::Becomes(Core::Value(Value::Int(a.wrapping_mul(b)))),
        PrimOp::Quot => quotient(a, b),
        PrimOp::Rem => remainder(a, b),
        PrimOp::Lt => Turn::Becomes(Core::Value(Value::Bool(a < b))),
        PrimOp::Le => Turn::Becomes(Core::Value(Value::Bool(a <= b))),
        PrimOp::Eq => Turn::Becomes(Core::Value(Value::Bool(a == b))),
        PrimOp::Ge => Turn::Becomes(Core::Value(Value::Bool(a >= b))),
        PrimOp::Gt => Turn::Becomes(Core::Value(Value::Bool(a > b))),
        _ => Turn::Stuck,
    }
}

// An operator on two values that must be integers.
fn computed(operator: PrimOp, first: &Value, second: &Value) -> Turn
    ensures { (types : TypeRows) (store : Store) (world : WorldState)
        → LeadsTo (on_integers types store world operator (value_of first.now) (value_of second.now)) store world
        result store world }
{
    let Value::Int(a) = first else {
        return Turn::Stuck;
    };
    let Value::Int(b) = second else {
        return Turn::Stuck;
    };
    on_integers(operator, *a, *b)
}

// A new cell of these values.
fn new_cell(store: &mut Cells, values: Vec<Value>, is_vector: bool) -> Turned
    ensures ok { IfOk result (λ turn. (types : TypeRows) (world : WorldState)
        → LeadsTo (new_cell types (store_of store.old) world (map value_of values.items) is_vector)
        (store_of store.old) world turn (store_of store.new) world) }
    ensures err { OnErr result (store_of store.new ≡ store_of store.old) }
{
    let cell = store.len();
    if cell >= MOST_ENTRIES {
        return Err(OutOfMemory);
    }
    store.push(values)?;
    Ok(Turn::Becomes(Core::Value(Value::Loc(cell as u32, is_vector))))
}

// A list of this value alone.
fn cell_of(alloc: Global, v: Value) -> Result<Vec<Value>, OutOfMemory>
    ensures { IfOk result (λ cell. map value_of cell.items ≡ value_of v ∷ []) }
{
    let mut cell = Vec::new(alloc);
    cell.push(v)?;
    Ok(cell)
}

// A list of so many copies of this value.
fn copies_of(alloc: Global, v: &Value, count: u64) -> Result<Vec<Value>, OutOfMemory>
    ensures { IfOk result (λ cell. map value_of cell.items ≡ replicate count (value_of v.now)) }
{
    let mut cell = Vec::new(alloc);
    for _i in 0..count {
        cell.push(copy_value(alloc, v)?)?;
    }
    Ok(cell)
}

// A new vector: its length, and the value that stands at each place.
fn make_vector(alloc: Global, store: &mut Cells, size: &Value, v: &Value) -> Turned
    ensures ok { IfOk result (λ turn. (types : TypeRows) (world : WorldState)
        → LeadsTo (make_vector_step types (store_of store.old) world (value_of size.now ∷ value_of v.now ∷ []))
        (store_of store.old) world turn (store_of store.new) world) }
    ensures err { OnErr result (store_of store.new ≡ store_of store.old) }
{
    let Value::Int(n) = size else {
        return Ok(Turn::Stuck);
    };
    if *n < 0 {
        return Ok(Turn::Traps(Trap::Length));
    }
    let cell = copies_of(alloc, v, *n as u64)?;
    new_cell(store, cell, true)
}

// A read through a wrapper: the same on what it wraps, in a cast.
fn cast_read(
    alloc: Global,
    types: &TypeTable,
    read: Core,
    from: TypeId,
    label: LabelId,
    to: TypeId,
) -> Turned
    ensures { IfOk result (λ turn. (store : Store) (world : WorldState)
        → LeadsTo (cast_read types.now store world (term_of read) from.0 to.0 label.0) store world turn store world) }
{
    let Some(inner) = content_of(types, from) else {
        return Ok(Turn::Stuck);
    };
    let Some(outer) = content_of(types, to) else {
        return Ok(Turn::Stuck);
    };
    let read = boxed(alloc, read)?;
    Ok(Turn::Becomes(Core::Cast(read, inner, outer, label)))
}

// The value that is written through a wrapper, in a cast, as the last operand; none where there are no such types.
fn cast_written(
    alloc: Global,
    types: &TypeTable,
    written: Value,
    from: TypeId,
    label: LabelId,
    to: TypeId,
) -> Result<Option<CoreList>, OutOfMemory>
    ensures { IfOk result (λ o. option_map terms_of o ≡ cast_operand types.now (value_of written) from.0 to.0 label.0) }
{
    let Some(inner) = content_of(types, from) else {
        return Ok(None);
    };
    let Some(outer) = content_of(types, to) else {
        return Ok(None);
    };
    let written = boxed(alloc, Core::Value(written))?;
    let last = term_then(
        alloc,
        Core::Cast(written, outer, inner, label),
        CoreList::Nil,
    )?;
    Ok(Some(last))
}

// The value of a cell that has only one.
fn only_value(values: &[Value]) -> Option<&Value>
    ensures { option_map (λ v. value_of v.now) result ≡ only_value (map value_of values.now) }
{
    match values {
        [v] => Some(v),
        _ => None,
    }
}

// Reads the cell of a box.
fn read_box(alloc: Global, store: &Cells, cell: u32) -> Turned
    ensures { IfOk result (λ turn. (types : TypeRows) (world : WorldState)
        → LeadsTo (with_some (slice_get (store_of store.now) cell) (unbox_cell types (store_of store.now) world))
        (store_of store.now) world turn (store_of store.now) world) }
{
    let Some(values) = store.get(cell) else {
        return Ok(Turn::Stuck);
    };
    let Some(v) = only_value(values) else {
        return Ok(Turn::Stuck);
    };
    Ok(Turn::Becomes(Core::Value(copy_value(alloc, v)?)))
}

fn unbox(alloc: Global, types: &TypeTable, store: &Cells, mut target: Value) -> Turned
    ensures { IfOk result (λ turn. (world : WorldState)
        → LeadsTo (unbox_step types.now (store_of store.now) world (value_of target ∷ [])) (store_of store.now) world
        turn (store_of store.now) world) }
{
    match &mut target {
        Value::Loc(cell, false) => read_box(alloc, store, *cell),
        Value::Wrap(inner, from, label, to) => {
            let inner = Core::Value(mem::replace(&mut **inner, Value::Unit));
            let operands = term_then(alloc, inner, CoreList::Nil)?;
            let read = Core::Prim(PrimOp::Unbox, operands);
            cast_read(alloc, types, read, *from, *label, *to)
        }
        _ => Ok(Turn::Stuck),
    }
}

// Writes the cell of a box.
fn write_box(alloc: Global, store: &mut Cells, cell: u32, v: Value) -> Turned
    ensures ok { IfOk result (λ turn. (types : TypeRows) (world : WorldState)
        → LeadsTo (with_some (slice_get (store_of store.old) cell)
        (λ old. writes_cell types (store_of store.old) world cell (value_of v ∷ [])))
        (store_of store.old) world turn (store_of store.new) world) }
    ensures err { OnErr result (store_of store.new ≡ store_of store.old) }
{
    if cell as u64 >= store.len() {
        return Ok(Turn::Stuck);
    }
    let values = cell_of(alloc, v)?;
    store.cells[cell as usize] = values;
    Ok(Turn::Becomes(Core::Value(Value::Unit)))
}

fn box_set(
    alloc: Global,
    types: &TypeTable,
    store: &mut Cells,
    mut target: Value,
    v: Value,
) -> Turned
    ensures ok { IfOk result (λ turn. (world : WorldState)
        → LeadsTo (box_set_step types.now (store_of store.old) world (value_of target ∷ value_of v ∷ []))
        (store_of store.old) world turn (store_of store.new) world) }
    ensures err { OnErr result (store_of store.new ≡ store_of store.old) }
{
    match &mut target {
        Value::Loc(cell, false) => write_box(alloc, store, *cell, v),
        Value::Wrap(inner, from, label, to) => {
            let inner = Core::Value(mem::replace(&mut **inner, Value::Unit));
            let Some(last) = cast_written(alloc, types, v, *from, *label, *to)? else {
                return Ok(Turn::Stuck);
            };
            let operands = term_then(alloc, inner, last)?;
            Ok(Turn::Becomes(Core::Prim(PrimOp::BoxSet, operands)))
        }
        _ => Ok(Turn::Stuck),
    }
}

// An index as a place, where it is below a length.
fn place_below(index: i64, length: usize) -> Option<usize>
    ensures place { result ≡ place_below index length }
    ensures within { IfSome result (λ place. place < length) }
{
    if index >= 0 && (index as u64) < length as u64 {
        Some(index as usize)
    } else {
        None
    }
}

// The value at an index.
fn element_at(elements: &[Value], index: i64) -> Option<&Value>
    ensures { option_map (λ v. value_of v.now) result ≡ element_at (map value_of elements.now) index }
{
    let place = place_below(index, elements.len())?;
    Some(&elements[place])
}

// The number of the vector's cell behind all wrappers.
fn vector_cell(v: &Value) -> Option<u32>
    ensures { result ≡ vector_cell (value_of v.now) }
{
    let mut left = v;
    while let Value::Wrap(inner, _, _, _) = left {
        left = inner;
    }
    match left {
        Value::Loc(cell, true) => Some(*cell),
        _ => None,
    }
}

// Reads the cell of a vector.
fn read_vector(alloc: Global, store: &Cells, cell: u32, index: &Value) -> Turned
    ensures { IfOk result (λ turn. (types : TypeRows) (world : WorldState)
        → LeadsTo (vector_ref_step types (store_of store.now) world (LocValue cell true ∷ value_of index.now ∷ []))
        (store_of store.now) world turn (store_of store.now) world) }
{
    let Value::Int(index) = index else {
        return Ok(Turn::Stuck);
    };
    let Some(elements) = store.get(cell) else {
        return Ok(Turn::Stuck);
    };
    let Some(v) = element_at(elements, *index) else {
        return Ok(Turn::Traps(Trap::Index));
    };
    Ok(Turn::Becomes(Core::Value(copy_value(alloc, v)?)))
}

fn vector_ref(
    alloc: Global,
    types: &TypeTable,
    store: &Cells,
    mut vector: Value,
    index: Value,
) -> Turned
    ensures { IfOk result (λ turn. (world : WorldState)
        → LeadsTo (vector_ref_step types.now (store_of store.now) world (value_of vector ∷ value_of index ∷ []))
        (store_of store.now) world turn (store_of store.now) world) }
{
    match &mut vector {
        Value::Loc(cell, true) => read_vector(alloc, store, *cell, &index),
        Value::Wrap(inner, from, label, to) => {
            let inner = Core::Value(mem::replace(&mut **inner, Value::Unit));
            let operands = term_then(alloc, Core::Value(index), CoreList::Nil)?;
            let operands = term_then(alloc, inner, operands)?;
            let read = Core::Prim(PrimOp::VectorRef, operands);
            cast_read(alloc, types, read, *from, *label, *to)
        }
        _ => Ok(Turn::Stuck),
    }
}

// Puts a value into a cell.
fn write_element(store: &mut Cells, cell: u32, place: usize, v: Value)
    requires cell_in { cell < length (store_of store.old) }
    requires place_in { IfSome (slice_get (store_of store.old) cell) (λ elements. place < length elements) }
    ensures { store_of store.new ≡ element_written (store_of store.old) cell place (value_of v) }
{
    let elements = &mut store.cells[cell as usize];
    elements[place] = v;
}

// Writes to a vector at an index that is this place of its cell.
fn set_element(
    alloc: Global,
    types: &TypeTable,
    store: &mut Cells,
    mut vector: Value,
    index: i64,
    place: usize,
    v: Value,
) -> Turned
    requires { HasElement (store_of store.old) (value_of vector) place }
    ensures ok { IfOk result (λ turn. (world : WorldState)
        → LeadsTo (element_set types.now (store_of store.old) world (value_of vector) index place (value_of v))
        (store_of store.old) world turn (store_of store.new) world) }
    ensures err { OnErr result (store_of store.new ≡ store_of store.old) }
{
    match &mut vector {
        Value::Loc(cell, _) => {
            write_element(store, *cell, place, v);
            Ok(Turn::Becomes(Core::Value(Value::Unit)))
        }
        Value::Wrap(inner, from, label, to) => {
            let inner = Core::Value(mem::replace(&mut **inner, Value::Unit));
            let Some(last) = cast_written(alloc, types, v, *from, *label, *to)? else {
                return Ok(Turn::Stuck);
            };
            let operands = term_then(alloc, Core::Value(Value::Int(index)), last)?;
            let operands = term_then(alloc, inner, operands)?;
            Ok(Turn::Becomes(Core::Prim(PrimOp::VectorSet, operands)))
        }
        _ => Ok(Turn::Stuck),
    }
}

// The index is tested before the value is cast.
fn vector_set(
    alloc: Global,
    types: &TypeTable,
    store: &mut Cells,
    vector: Value,
    index: &Value,
    v: Value,
) -> Turned
    ensures ok { IfOk result (λ turn. (world : WorldState)
        → LeadsTo (vector_set_step types.now (store_of store.old) world
        (value_of vector ∷ value_of index.now ∷ value_of v ∷ [])) (store_of store.old) world turn
        (store_of store.new) world) }
    ensures err { OnErr result (store_of store.new ≡ store_of store.old) }
{
    let Value::Int(index) = index else {
        return Ok(Turn::Stuck);
    };
    let Some(cell) = vector_cell(&vector) else {
        return Ok(Turn::Stuck);
    };
    let Some(elements) = store.get(cell) else {
        return Ok(Turn::Stuck);
    };
    let Some(place) = place_below(*index, elements.len()) else {
        return Ok(Turn::Traps(Trap::Index));
    };
    set_element(alloc, types, store, vector, *index, place, v)
}

// The length of a vector's cell.
fn cell_length(store: &Cells, cell: u32) -> Turned
    ensures { IfOk result (λ turn. (types : TypeRows) (world : WorldState)
        → LeadsTo (vector_length_step types (store_of store.now) world (LocValue cell true ∷ []))
        (store_of store.now) world turn (store_of store.now) world) }
{
    let Some(elements) = store.get(cell) else {
        return Ok(Turn::Stuck);
    };
    match i64::try_from(elements.len()) {
        Ok(length) => Ok(Turn::Becomes(Core::Value(Value::Int(length)))),
        Err(_) => Err(OutOfMemory),
    }
}

fn vector_length(alloc: Global, store: &Cells, mut vector: Value) -> Turned
    ensures { IfOk result (λ turn. (types : TypeRows) (world : WorldState)
        → LeadsTo (vector_length_step types (store_of store.now) world (value_of vector ∷ []))
        (store_of store.now) world turn (store_of store.now) world) }
{
    match &mut vector {
        Value::Loc(cell, true) => cell_length(store, *cell),
        Value::Wrap(inner, _, _, _) => {
            let inner = Core::Value(mem::replace(&mut **inner, Value::Unit));
            let operands = term_then(alloc, inner, CoreList::Nil)?;
            Ok(Turn::Becomes(Core::Prim(PrimOp::VectorLength, operands)))
        }
        _ => Ok(Turn::Stuck),
    }
}

// Prints an integer.
fn print_int(world: &mut World, v: &Value) -> Turned
    ensures ok { IfOk result (λ turn. (types : TypeRows) (store : Store)
        → LeadsTo (one_step types store world.old PrintInt (value_of v.now)) store world.old turn store world.new) }
    ensures err { OnErr result (world.new ≡ world.old) }
{
    let Value::Int(n) = v else {
        return Ok(Turn::Stuck);
    };
    world.print_int(*n)?;
    Ok(Turn::Becomes(Core::Value(Value::Unit)))
}

// An operator without operands.
fn on_nothing(world: &mut World, operator: PrimOp) -> Turned
    ensures ok { IfOk result (λ turn. (types : TypeRows) (store : Store)
        → LeadsTo (zero_step types store world.old operator) store world.old turn store world.new) }
    ensures err { OnErr result (world.new ≡ world.old) }
{
    match operator {
        PrimOp::Newline => {
            world.print_byte(b'\n')?;
            Ok(Turn::Becomes(Core::Value(Value::Unit)))
        }
        PrimOp::ReadInt => match world.read_int() {
            Some(n) => Ok(Turn::Becomes(Core::Value(Value::Int(n)))),
            None => Ok(Turn::Traps(Trap::Input)),
        },
        _ => Ok(Turn::Stuck),
    }
}

fn negated(v: &Value) -> Turn
    ensures { LeadsAlways (λ types store world. one_step types store world Not (value_of v.now)) result }
{
    match v {
        Value::Bool(b) => Turn::Becomes(Core::Value(Value::Bool(!*b))),
        _ => Turn::Stuck,
    }
}

// An operator on one value.
fn on_one(
    alloc: Global,
    types: &TypeTable,
    store: &mut Cells,
    world: &mut World,
    operator: PrimOp,
    v: Value,
) -> Turned
    ensures ok { IfOk result (λ turn.
        LeadsTo (one_step types.now (store_of store.old) world.old operator (value_of v)) (store_of store.old) world.old
        turn (store_of store.new) world.new) }
    ensures err { OnErr result ((store_of store.new ≡ store_of store.old) × (world.new ≡ world.old)) }
{
    match operator {
        PrimOp::Not => Ok(negated(&v)),
        PrimOp::PrintInt => print_int(world, &v),
        PrimOp::MakeBox => {
            let cell = cell_of(alloc, v)?;
            new_cell(store, cell, false)
        }
        PrimOp::Unbox => unbox(alloc, types, store, v),
        PrimOp::VectorLength => vector_length(alloc, store, v),
        _ => Ok(Turn::Stuck),
    }
}

// An operator on two values.
fn on_two(
    alloc: Global,
    types: &TypeTable,
    store: &mut Cells,
    operator: PrimOp,
    first: Value,
    second: Value,
) -> Turned
    ensures ok { IfOk result (λ turn. (world : WorldState)
        → LeadsTo (two_step types.now (store_of store.old) world operator (value_of first) (value_of second))
        (store_of store.old) world turn (store_of store.new) world) }
    ensures err { OnErr result (store_of store.new ≡ store_of store.old) }
{
    match operator {
        PrimOp::BoxSet => box_set(alloc, types, store, first, second),
        PrimOp::MakeVector => make_vector(alloc, store, &first, &second),
        PrimOp::VectorRef => vector_ref(alloc, types, store, first, second),
        _ => Ok(computed(operator, &first, &second)),
    }
}

// An operator on three values.
fn on_three(
    alloc: Global,
    types: &TypeTable,
    store: &mut Cells,
    operator: PrimOp,
    first: Value,
    second: Value,
    third: Value,
) -> Turned
    ensures ok { IfOk result (λ turn. (world : WorldState)
        → LeadsTo (three_step types.now (store_of store.old) world operator (value_of first) (value_of second)
        (value_of third)) (store_of store.old) world turn (store_of store.new) world) }
    ensures err { OnErr result (store_of store.new ≡ store_of store.old) }
{
    match operator {
        PrimOp::VectorSet => vector_set(alloc, types, store, first, &second, third),
        _ => Ok(Turn::Stuck),
    }
}

// An operator on its operands.
fn operated(
    alloc: Global,
    types: &TypeTable,
    store: &mut Cells,
    world: &mut World,
    operator: PrimOp,
    operands: Operands,
) -> Turned
    ensures ok { IfOk result (λ turn.
        LeadsTo (with_some (values_in operands) (operator_step types.now (store_of store.old) world.old operator))
        (store_of store.old) world.old turn (store_of store.new) world.new) }
    ensures err { OnErr result ((store_of store.new ≡ store_of store.old) × (world.new ≡ world.old)) }
{
    match operands {
        Operands::Zero => on_nothing(world, operator),
        Operands::One(v) => on_one(alloc, types, store, world, operator, v),
        Operands::Two(first, second) => on_two(alloc, types, store, operator, first, second),
        Operands::Three(first, second, third) => {
            on_three(alloc, types, store, operator, first, second, third)
        }
        Operands::Others => Ok(Turn::Stuck),
    }
}

/// Computes an operator on values. After a trap the term and the cells are as before; after want of memory the outside
/// is too.
pub fn prim_redex(
    alloc: Global,
    types: &TypeTable,
    store: &mut Cells,
    world: &mut World,
    term: &mut Core,
) -> Result<Moved, OutOfMemory>
    ensures moves { IfOk result (λ moved.
        after (prim_redex types.now (store_of store.old) world.old (term_of term.old)) (term_of term.old)
        (store_of store.old) world.old
        ≡ record { moved = moved; item = term_of term.new; store = store_of store.new; world = world.new }) }
    ensures stays { OnErr result ((term_of term.new ≡ term_of term.old) × (store_of store.new ≡ store_of store.old)
        × (world.new ≡ world.old)) }
{
    let Core::Prim(operator, operands) = &*term else {
        return Ok(Moved::Stuck);
    };
    let operator = *operator;
    let operands = operands_in(alloc, operands)?;
    match operated(alloc, types, store, world, operator, operands)? {
        Turn::Becomes(next) => {
            *term = next;
            Ok(Moved::Goes)
        }
        Turn::Traps(trap) => Ok(Moved::Traps(trap)),
        Turn::Stuck => Ok(Moved::Stuck),
    }
}
