// Why a source is refused.

ghost use Rattle.std.specs.Prelude.{◌≡◌};
ghost use Rattle.grift_base.specs.Refusals.{refusal_number, refusal_text};

use crate::lists;
use crate::places::Pos;

/// Why a source is refused.
#[derive(Clone, Copy, PartialEq, Eq, Debug)]
pub enum RefusalKind {
    /// A byte that begins no token.
    BadByte,
    /// A bracket that is never closed.
    Unclosed,
    /// A closing bracket that matches no open one.
    Unopened,
    /// An integer that 64 bits with a sign do not hold.
    NumberRange,
    /// Too many brackets are open at once.
    TooDeep,
    /// A source without any form.
    Empty,
    /// A token of the full language that this profile leaves out.
    NotInProfile,
    /// A form with the wrong shape or number of elements.
    BadForm,
    /// A name that its scope binds a second time.
    RepeatedName,
    /// One parameter, argument, part or operand too many.
    TooWide,
    /// One form too many at top level.
    TooManyForms,
    /// A reserved word where a name is bound.
    ReservedName,
    /// A name that nothing binds.
    Unbound,
    /// An expression whose type is not consistent with the one that is wanted.
    NotConsistent,
    /// A call of what can be no function.
    NotFunction,
    /// A call with the wrong number of arguments.
    WrongCount,
    /// A projection from what can be no tuple.
    NotTuple,
    /// A projection of a part that the tuple lacks.
    NoSuchPart,
    /// An operation on a box of what can be none.
    NotRef,
    /// An operation on a vector of what can be none.
    NotVector,
    /// A type with too many nodes.
    TypeTooLarge,
}

impl RefusalKind {
    // The number and the name of this kind.
    fn row(self) -> (u8, &'static str)
        ensures number { result.0 ≡ refusal_number self }
        ensures text { result.1.now ≡ refusal_text self }
    {
        match self {
            RefusalKind::BadByte => (1, "bad-byte"),
            RefusalKind::Unclosed => (2, "unclosed"),
            RefusalKind::Unopened => (3, "unopened"),
            RefusalKind::NumberRange => (4, "number-range"),
            RefusalKind::TooDeep => (5, "too-deep"),
            RefusalKind::Empty => (6, "empty"),
            RefusalKind::NotInProfile => (7, "not-in-profile"),
            RefusalKind::BadForm => (8, "bad-form"),
            RefusalKind::RepeatedName => (9, "repeated-name"),
            RefusalKind::TooWide => (10, "too-wide"),
            RefusalKind::TooManyForms => (11, "too-many-forms"),
            RefusalKind::ReservedName => (12, "reserved-name"),
            RefusalKind::Unbound => (13, "unbound"),
            RefusalKind::NotConsistent => (14, "not-consistent"),
            RefusalKind::NotFunction => (15, "not-function"),
            RefusalKind::WrongCount => (16, "wrong-count"),
            RefusalKind::NotTuple => (17, "not-tuple"),
            RefusalKind::NoSuchPart => (18, "no-such-part"),
            RefusalKind::NotRef => (19, "not-ref"),
            RefusalKind::NotVector => (20, "not-vector"),
            RefusalKind::TypeTooLarge => (21, "type-too-large"),
        }
    }

    /// The number of this kind, from 1, in the order in which the kinds are declared.
    pub fn number(self) -> u8
        ensures { result ≡ refusal_number self }
    {
        self.row().0
    }

    /// The name of this kind, as a line for the user has it.
    pub fn text(self) -> &'static str
        ensures { result.now ≡ refusal_text self }
    {
        self.row().1
    }
}

/// A refusal of a source, with the place of what is refused.
#[derive(Clone, Copy, PartialEq, Eq, Debug)]
pub struct Refusal {
    pub kind: RefusalKind,
    pub pos: Pos,
}

/// Why a source was not read or elaborated.
#[derive(Clone, Copy, PartialEq, Eq, Debug)]
pub enum FrontFault {
    /// The source is refused.
    Refused(Refusal),
    /// No memory was left.
    OutOfMemory,
}

impl From<lists::OutOfMemory> for FrontFault {
    ghost use Rattle.grift_base.specs.declared.refusals.FrontFault.TheVariants.{OutOfMemory};

    ghost from_gives = { λ _ fault. fault ≡ OutOfMemory };

    fn from(_want: lists::OutOfMemory) -> FrontFault {
        FrontFault::OutOfMemory
    }
}
