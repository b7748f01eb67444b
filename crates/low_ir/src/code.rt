// Structured code over words.

ghost use Rattle.std.specs.Prelude.{◌≡◌, ◌++◌, ◌∷◌, []};

use grift_base::lists::Items;
use machine_words::conditions::Cond;

/// An operation on two words, as the instructions of RV64I have it. A shift takes the low six bits of its second word.
#[derive(Clone, Copy, PartialEq, Eq)]
pub enum WordOp {
    /// The sum, which wraps.
    Add,
    /// The difference, which wraps.
    Sub,
    /// The bits of both.
    And,
    /// The bits of either.
    Or,
    /// The bits of exactly one.
    Xor,
    /// The first shifted up.
    Sll,
    /// The first shifted down.
    Srl,
    /// The first shifted down as a signed number.
    Sra,
    /// 1 where the first is less as a signed number, else 0.
    Slt,
    /// 1 where the first is less, else 0.
    Sltu,
}

/// What is read.
#[derive(Clone, Copy, PartialEq, Eq)]
pub enum LowSource {
    /// A word of the procedure, by its number from 0.
    Word(u32),
    /// A number.
    Number(u64),
}

/// Sources in order.
pub type LowSources = Items<LowSource>;

/// Code of a procedure. The word that is set stands first, and what is done next last.
#[cycle(low)]
pub enum LowCode {
    /// Goes on behind the branch that it ends.
    Done,
    /// A word is set.
    Set(u32, LowSource, Box<LowCode>),
    /// A word is set to what an operation gives of two.
    Compute(WordOp, u32, LowSource, LowSource, Box<LowCode>),
    /// A word is loaded from an address and an offset in bytes below 2,048.
    Load(u32, LowSource, u32, Box<LowCode>),
    /// A word is stored at an address, which stands second, and an offset in bytes below 2,048.
    Store(LowSource, LowSource, u32, Box<LowCode>),
    /// The code address of a procedure, by its number.
    CodeOf(u32, u32, Box<LowCode>),
    /// An object of these words, fewer than 256, is made at the allocation word, which moves past it; the word that is
    /// set is where it begins. Where it doesn't fit, the region is exhausted.
    Build(u32, LowSources, Box<LowCode>),
    /// Room for a number of words is asked for; the word that is set is the allocation word, where that room begins.
    /// Where it doesn't fit, the region is exhausted.
    Request(u32, LowSource, Box<LowCode>),
    /// The allocation word moves past a number of words.
    Take(LowSource, Box<LowCode>),
    /// The environment call of a number with two words. Where it goes on, its two words are set.
    Environment(u64, LowSource, LowSource, u32, u32, Box<LowCode>),
    /// A procedure, by its number, is called with these words, and a word is set to its answer.
    Call(u32, u32, LowSources, Box<LowCode>),
    /// The procedure with a code address is called with these words, and a word is set to its answer.
    CallAt(u32, LowSource, LowSources, Box<LowCode>),
    /// What is done where a condition holds of two words, what where not, and what behind both.
    If(Cond, LowSource, LowSource, Box<LowCode>, Box<LowCode>, Box<LowCode>),
    /// The procedure's answer.
    Return(LowSource),
    /// A procedure, by its number, goes on with these words in place of this one.
    TailCall(u32, LowSources),
    /// The procedure with a code address goes on with these words in place of this one.
    TailCallAt(LowSource, LowSources),
}

// A loop along what is done next: code may be longer than the process's stack is deep.
impl Drop for LowCode {
    #[cycle(low)]
    fn drop(mut self) {
        loop {
            match self {
                LowCode::Done => return,
                LowCode::Set(_, _, rest) => self = Box::into_inner(rest),
                LowCode::Compute(_, _, _, _, rest) => self = Box::into_inner(rest),
                LowCode::Load(_, _, _, rest) => self = Box::into_inner(rest),
                LowCode::Store(_, _, _, rest) => self = Box::into_inner(rest),
                LowCode::CodeOf(_, _, rest) => self = Box::into_inner(rest),
                LowCode::Build(_, _words, rest) => self = Box::into_inner(rest),
                LowCode::Request(_, _, rest) => self = Box::into_inner(rest),
                LowCode::Take(_, rest) => self = Box::into_inner(rest),
                LowCode::Environment(_, _, _, _, _, rest) => self = Box::into_inner(rest),
                LowCode::Call(_, _, _words, rest) => self = Box::into_inner(rest),
                LowCode::CallAt(_, _, _words, rest) => self = Box::into_inner(rest),
                LowCode::If(_, _, _, _one, _other, rest) => self = Box::into_inner(rest),
                LowCode::Return(_) => return,
                LowCode::TailCall(_, _words) => return,
                LowCode::TailCallAt(_, _words) => return,
            }
        }
    }
}
