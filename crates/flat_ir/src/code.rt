// Let-normal bodies.

use grift_base::lists::Items;
use grift_base::operators::PrimOp;
use grift_base::places::LabelId;

/// A name or a constant.
#[derive(Clone, Copy, PartialEq, Eq, Debug)]
pub enum Operand {
    /// A local name, by its level: the parameters are the first from 0 on, and each name bound inside is the next one.
    Local(u32),
    /// A captured name of the procedure that runs, by its place.
    Captured(u32),
    /// A function of the group of the procedure that runs, which may be itself, by its place in the group.
    Sibling(u32),
    /// An integer.
    Int(i64),
    /// A truth value.
    Bool(bool),
    /// The value `()`.
    Unit,
}

/// Operands in order.
pub type Operands = Items<Operand>;

/// What gives a value and calls no procedure.
pub enum Operation {
    /// The value of an operand.
    Move(Operand),
    /// An operator and its operands.
    Prim(PrimOp, Operands),
    /// The cast of this number.
    Cast(Operand, u32),
    /// A tuple, by its parts.
    Tuple(Operands),
    /// A part of a tuple, counted from 0.
    Proj(Operand, i64),
    /// A part of the tuple that Dyn holds; the label is blamed where it holds none with that part.
    ProjDyn(Operand, i64, LabelId),
}

impl Drop for Operation {
    fn drop(self) {
        match self {
            Operation::Move(_) => {}
            Operation::Prim(_, b) => {
                drop(b);
            }
            Operation::Cast(_, _) => {}
            Operation::Tuple(a) => {
                drop(a);
            }
            Operation::Proj(_, _) => {}
            Operation::ProjDyn(_, _, _) => {}
        }
    }
}

/// What a procedure does. A body gives one value; whoever runs it waits for that.
#[cycle(flat)]
pub enum FlatBody {
    /// Gives the value of an operation.
    Give(Operation),
    /// Gives what a call of a function with these arguments gives.
    Call(Operand, Operands),
    /// The first body where an operand is true, the second where it is false.
    Choose(Operand, Box<FlatBody>, Box<FlatBody>),
    /// The value of the first body gets this local name in the second.
    LetBody(u32, Box<FlatBody>, Box<FlatBody>),
    /// A group of functions is made. They get the local names from this one on in the body, which stands last. Of the
    /// group there are given: the number of its first procedure, how many functions it has, and what they capture.
    LetGroup(u32, u32, u32, Operands, Box<FlatBody>),
}

// A loop along what follows: a body may be longer than the process's stack is deep.
impl Drop for FlatBody {
    #[cycle(flat)]
    fn drop(mut self) {
        loop {
            match self {
                FlatBody::Give(_operation) => return,
                FlatBody::Call(_, _arguments) => return,
                FlatBody::Choose(_, _on_true, _on_false) => return,
                FlatBody::LetBody(_, _inner, rest) => self = Box::into_inner(rest),
                FlatBody::LetGroup(_, _, _, _captured, rest) => self = Box::into_inner(rest),
            }
        }
    }
}
