// The primitive operators of the language.

/// A primitive operator.
#[derive(Clone, Copy, PartialEq, Eq)]
pub enum PrimOp {
    Add,
    Sub,
    Mul,
    Quot,
    Rem,
    Lt,
    Le,
    Eq,
    Ge,
    Gt,
    Not,
    PrintInt,
    Newline,
    ReadInt,
    MakeBox,
    Unbox,
    BoxSet,
    MakeVector,
    VectorRef,
    VectorSet,
    VectorLength,
}
