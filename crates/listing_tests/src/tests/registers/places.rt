// Which places fit small codes, and the code that they make.

ghost use Rattle.std.specs.Prelude.{◌≡◌, true};
ghost use Rattle.rv_isa.specs.Bits.{IsBelow};
ghost use Rattle.rv_select.specs.Fitting.{each_fits};

use grift_base::lists::OutOfMemory;
use grift_base::words::Statics;
use low_ir::code::{LowCode, LowSource, WordOp};
use low_ir::programs::{LowProc, LowProcs, LowProgram};
use machine_words::conditions::Cond;
use reg_assign::apply::apply;
use reg_assign::assignment::{Assignment, Places};
use reg_assign::check::check;
use reg_assign::slots::slots;
use rv_isa::inst::encode;
use rv_isa::number::Reg;
use rv_machine::real::RealItem;
use rv_select::code::{Place, VReg, VirtualCode, VirtualItem, VirtualItems};
use rv_select::selection::select;
use std::alloc::Global;
use std::process::Abort;

// A real register.
fn x(number: i64) -> VReg
    requires { IsBelow 32 number }
{
    VReg::Real(Reg::new(number))
}

// A place in one.
fn in_x(number: i64) -> Place
    requires { IsBelow 32 number }
{
    Place::InReg(Reg::new(number))
}

// A virtual register.
fn v(number: u32) -> VReg {
    VReg::Virtual(number)
}

// A code with so many virtual registers.
fn code(rt: &impl Abort, alloc: Global, registers: u32, items: &[VirtualItem]) -> VirtualCode {
    let items = VirtualItems::from_slice(alloc, items).expect(rt, "memory");
    VirtualCode { items, registers }
}

// These places.
fn assignment(rt: &impl Abort, alloc: Global, places: &[Place]) -> Assignment {
    let places = Places::from_slice(alloc, places).expect(rt, "memory");
    Assignment { places }
}

// Whether these places fit a code.
fn fits(rt: &impl Abort, alloc: Global, code: &VirtualCode, places: &[Place]) -> bool {
    check(alloc, code, &assignment(rt, alloc, places)).expect(rt, "memory")
}

// Whether these places fit the code with so many virtual registers.
fn fit_items(
    rt: &impl Abort,
    alloc: Global,
    registers: u32,
    items: &[VirtualItem],
    places: &[Place],
) -> bool {
    let code = code(rt, alloc, registers, items);
    fits(rt, alloc, &code, places)
}

#[test]
fn two_values_that_live_beside_each_other_have_two_places(rt: HostRuntime) {
    let alloc = rt.alloc();
    let items = [
        VirtualItem::Procedure(0, 0, 2),
        VirtualItem::Move(v(0), x(10)),
        VirtualItem::Constant(v(1), 5),
        VirtualItem::Compute(WordOp::Add, x(10), v(0), v(1)),
        VirtualItem::Return,
    ];
    let rows = [
        (in_x(11), in_x(12), true),
        (in_x(11), in_x(11), false),
        (Place::Slot(7), Place::Slot(4000000000), true),
        (Place::Slot(7), Place::Slot(7), false),
        (in_x(24), in_x(10), true),
        (in_x(25), Place::Slot(0), false),
        (in_x(31), Place::Slot(0), false),
    ];
    for (first, second, fit) in rows {
        assert!(&rt; fit_items(&rt, alloc, 2, &items, &[first, second]) == fit);
    }
    assert!(&rt; !fit_items(&rt, alloc, 2, &items, &[in_x(11)]));
}

#[test]
fn a_call_spares_slots_alone(rt: HostRuntime) {
    let alloc = rt.alloc();
    let items = [
        VirtualItem::Procedure(0, 0, 1),
        VirtualItem::Move(v(0), x(10)),
        VirtualItem::Call(0, 1),
        VirtualItem::Compute(WordOp::Add, x(10), x(10), v(0)),
        VirtualItem::Return,
    ];
    assert!(&rt; fit_items(&rt, alloc, 1, &items, &[Place::Slot(0)]));
    assert!(&rt; !fit_items(&rt, alloc, 1, &items, &[in_x(11)]));
}

#[test]
fn each_way_to_a_read_counts(rt: HostRuntime) {
    let items = [
        VirtualItem::Procedure(0, 0, 1),
        VirtualItem::Branch(Cond::Eq, x(10), x(0), 1),
        VirtualItem::Constant(v(0), 7),
        VirtualItem::Mark(1),
        VirtualItem::Move(x(10), v(0)),
        VirtualItem::Return,
    ];
    assert!(&rt; !fit_items(&rt, rt.alloc(), 1, &items, &[Place::Slot(0)]));
}

// A code in a box, if there is memory for it.
fn put_in_box(alloc: Global, code: LowCode) -> Result<Box<LowCode>, OutOfMemory> {
    Ok(Box::new(alloc, code)?)
}

// A code in a box.
fn in_box(rt: &impl Abort, alloc: Global, code: LowCode) -> Box<LowCode> {
    put_in_box(alloc, code).expect(rt, "memory")
}

// Adds two words, and answers the sum.
fn sum_of_words(rt: &impl Abort, alloc: Global) -> LowCode {
    let sum = LowCode::Compute(
        WordOp::Add,
        0,
        LowSource::Word(0),
        LowSource::Word(1),
        in_box(rt, alloc, LowCode::Return(LowSource::Word(0))),
    );
    let second = LowCode::Set(1, LowSource::Number(22), in_box(rt, alloc, sum));
    LowCode::Set(0, LowSource::Number(20), in_box(rt, alloc, second))
}

// A program whose one procedure adds two words.
fn sum_program(rt: &impl Abort, alloc: Global) -> LowProgram {
    let proc = LowProc {
        params: 0,
        words: 2,
        code: sum_of_words(rt, alloc),
    };
    let mut procs = LowProcs::new(alloc);
    procs.push(proc).expect(rt, "memory");
    LowProgram {
        procs,
        entry: 0,
        statics: Statics::new(alloc),
    }
}

// The code of that program.
fn sum(rt: &impl Abort, alloc: Global) -> VirtualCode
    ensures { each_fits result.items ≡ true }
{
    let low = sum_program(rt, alloc);
    assert!(rt; low.is_closed(), "the program is not closed");
    select(alloc, &low).expect(rt, "memory")
}

// Whether two items are the same, instructions by their words.
fn is_same(one: &RealItem, other: &RealItem) -> bool {
    match (one, other) {
        (RealItem::Op(i), RealItem::Op(j)) => encode(*i) == encode(*j),
        (RealItem::Mark(i), RealItem::Mark(j)) => i == j,
        (RealItem::Jump(r, i), RealItem::Jump(s, j)) => r == s && i == j,
        (RealItem::Branch(c, r, s, i), RealItem::Branch(d, t, u, j)) => {
            c == d && r == t && s == u && i == j
        }
        (RealItem::Address(r, i), RealItem::Address(s, j)) => r == s && i == j,
        _ => false,
    }
}

fn are_same(one: &[RealItem], other: &[RealItem]) -> bool {
    one.len() == other.len()
        && one
            .iter()
            .zip(other)
            .all(|(item, same)| is_same(item, same))
}

// How many items a code has with these places, which have to fit, and have to make the code that `slots` makes.
fn items_in_slots(rt: &impl Abort, alloc: Global, code: &VirtualCode, own: &Assignment) -> u64
    requires { each_fits code.now.items ≡ true }
{
    let own_fit = check(alloc, code, own).expect(rt, "memory");
    assert!(rt; own_fit);
    let same = apply(alloc, code, own).expect(rt, "memory");
    let with_slots = slots(alloc, code).expect(rt, "memory");
    assert!(rt; are_same(same.items.as_slice(), with_slots.items.as_slice()));
    same.items.len()
}

// How many items a code has with these places, which have to fit.
fn items_in_registers(rt: &impl Abort, alloc: Global, code: &VirtualCode, real: &Assignment) -> u64
    requires { each_fits code.now.items ≡ true }
{
    let real_fit = check(alloc, code, real).expect(rt, "memory");
    assert!(rt; real_fit);
    let short = apply(alloc, code, real).expect(rt, "memory");
    short.items.len()
}

// How many items the code of the sum has in slots of its own, and in real registers.
fn items_of_both(rt: &impl Abort, alloc: Global) -> (u64, u64) {
    let code = sum(rt, alloc);
    let own = assignment(rt, alloc, &[Place::Slot(0), Place::Slot(1)]);
    let real = assignment(rt, alloc, &[in_x(11), in_x(12)]);
    let in_slots = items_in_slots(rt, alloc, &code, &own);
    (in_slots, items_in_registers(rt, alloc, &code, &real))
}

#[test]
fn code_with_real_registers_is_shorter(rt: HostRuntime) {
    let (in_slots, in_registers) = items_of_both(&rt, rt.alloc());
    assert!(rt; in_registers.wrapping_add(5) == in_slots);
}
