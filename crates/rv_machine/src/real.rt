// Code whose jumps, branches and addresses name marks.

use grift_base::lists::Items;
use machine_words::conditions::Cond;
use rv_isa::inst::Inst;
use rv_isa::number::Reg;

/// An item of code. Marks are told by numbers, and have the address of the next item that isn't a mark.
#[derive(Clone, Copy)]
pub enum RealItem {
    /// An instruction. A JALR keeps the address of the next item in its rd.
    Op(Inst),
    /// A mark.
    Mark(u32),
    /// A jump to a mark, which keeps the address of the next item in a register.
    Jump(Reg, u32),
    /// A branch to a mark, taken where the condition holds of both registers.
    Branch(Cond, Reg, Reg, u32),
    /// Puts the address of a mark into a register.
    Address(Reg, u32),
}

/// Items in order.
pub type RealItems = Items<RealItem>;

/// A code of items, over real registers.
#[derive(Drop)]
pub struct RealCode {
    pub items: RealItems,
}
