// The registers that an item reads and writes, by numbers.

ghost use Rattle.std.specs.Prelude.{◌≡◌, ◌<◌, ◌↔◌, IsTrue, option_to_list};
ghost use Rattle.rv_select.specs.Holding.{reads, writes, target, has_next, Among};
ghost use Rattle.reg_assign.specs.Numbers.{number_of, register_at, all_read, all_written};
ghost use Rattle.reg_assign.specs.Flow.{IsTold, mark_of};

use rv_isa::number::Reg;
use rv_select::code::{VReg, VirtualItem};
use rv_select::convention::{ANSWER, CALL_NUMBER, FIRST_ARGUMENT, SECOND_ARGUMENT};

// How many numbers real registers have, that of those beyond x31 among them.
pub(crate) const REAL_NUMBERS: usize = 33;

// The registers that an item reads: at most two that it names, and so many that hand on words.
#[derive(Clone, Copy)]
pub(crate) struct Read {
    pub first: Option<VReg>,
    pub second: Option<VReg>,
    pub words: u32,
}

// The registers that an item writes.
#[derive(Clone, Copy)]
pub(crate) struct Written {
    pub first: Option<VReg>,
    pub second: Option<VReg>,
}

// The number of a register.
pub(crate) fn number_of(a: &VReg) -> usize
    ensures value { result ≡ number_of a.now }
    ensures back { register_at result ≡ a.now }
    ensures told { IsTold a.now }
{
    match a {
        VReg::Real(r) => r.get() as usize,
        VReg::Virtual(v) => REAL_NUMBERS + *v as usize,
    }
}

// A real register.
fn real(number: u8) -> VReg
    requires { number < 32 }
    ensures { result ≡ VReg.Real number }
{
    VReg::Real(Reg::new(i64::from(number)))
}

// What an item reads that reads these alone.
fn two(first: Option<VReg>, second: Option<VReg>) -> Read
    ensures { result ≡ record { first = first; second = second; words = 0 } }
{
    Read {
        first,
        second,
        words: 0,
    }
}

// What an item reads that hands on words.
fn handing(first: Option<VReg>, words: u32) -> Read
    ensures { result ≡ record { first = first; second = None; words = words } }
{
    Read {
        first,
        second: None,
        words,
    }
}

// The registers that an item reads.
pub(crate) fn reads(item: &VirtualItem) -> Read
    ensures { all_read result ≡ reads item.now }
{
    match item {
        VirtualItem::Move(_, a) => two(Some(*a), None),
        VirtualItem::Compute(_, _, a, b) => two(Some(*a), Some(*b)),
        VirtualItem::ComputeWith(_, _, a, _) => two(Some(*a), None),
        VirtualItem::Load(_, a, _) => two(Some(*a), None),
        VirtualItem::Store(b, a, _) => two(Some(*a), Some(*b)),
        VirtualItem::Branch(_, a, b, _) => two(Some(*a), Some(*b)),
        VirtualItem::Call(_, n) => handing(None, *n),
        VirtualItem::CallAt(f, n) => handing(Some(*f), *n),
        VirtualItem::TailCall(_, n) => handing(None, *n),
        VirtualItem::TailCallAt(f, n) => handing(Some(*f), *n),
        VirtualItem::Return => handing(None, 1),
        VirtualItem::Environment => handing(Some(real(CALL_NUMBER)), 2),
        _ => two(None, None),
    }
}

// The registers that an item writes.
pub(crate) fn writes(item: &VirtualItem) -> Written
    ensures { all_written result ≡ writes item.now }
{
    let first = match item {
        VirtualItem::Constant(rd, _) => Some(*rd),
        VirtualItem::Move(rd, _) => Some(*rd),
        VirtualItem::Compute(_, rd, _, _) => Some(*rd),
        VirtualItem::ComputeWith(_, rd, _, _) => Some(*rd),
        VirtualItem::Load(rd, _, _) => Some(*rd),
        VirtualItem::CodeOf(rd, _) => Some(*rd),
        VirtualItem::Call(_, _) => Some(real(ANSWER)),
        VirtualItem::CallAt(_, _) => Some(real(ANSWER)),
        VirtualItem::Environment => {
            return Written {
                first: Some(real(FIRST_ARGUMENT)),
                second: Some(real(SECOND_ARGUMENT)),
            };
        }
        _ => None,
    };
    Written {
        first,
        second: None,
    }
}

// Whether a register has this number.
fn is_numbered(a: &Option<VReg>, number: usize) -> bool
    ensures { IsTrue result ↔ Among (register_at number) (option_to_list a.now) }
{
    match a {
        Some(a) => number_of(a) == number,
        None => false,
    }
}

// Whether an item writes the register of this number.
pub(crate) fn is_written(item: &VirtualItem, number: usize) -> bool
    ensures { IsTrue result ↔ Among (register_at number) (writes item.now) }
{
    let written = writes(item);
    is_numbered(&written.first, number) || is_numbered(&written.second, number)
}

// The mark at which an item may go on, besides the next item.
pub(crate) fn target(item: &VirtualItem) -> Option<u32>
    ensures { result ≡ target item.now }
{
    match item {
        VirtualItem::Jump(mark) => Some(*mark),
        VirtualItem::Branch(_, _, _, mark) => Some(*mark),
        _ => None,
    }
}

// The number of a mark, if an item is one.
pub(crate) fn mark_of(item: &VirtualItem) -> Option<u32>
    ensures { result ≡ mark_of item.now }
{
    match item {
        VirtualItem::Mark(mark) => Some(*mark),
        _ => None,
    }
}

// Whether an item may go on at the next one.
pub(crate) fn has_next(item: &VirtualItem) -> bool
    ensures { result ≡ has_next item.now }
{
    !matches!(
        item,
        VirtualItem::Jump(_)
            | VirtualItem::TailCall(_, _)
            | VirtualItem::TailCallAt(_, _)
            | VirtualItem::Return
    )
}
