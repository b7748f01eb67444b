// How a program ends.

ghost use Rattle.std.specs.Prelude.{◌≡◌, ◌++◌, codes, pos, IfOk};
ghost use Rattle.std.specs.Fmt.{decimal};
ghost use Rattle.grift_base.specs.AnswerKind.{answer_kind_number};
ghost use Rattle.grift_base.specs.Trap.{trap_number, trap_text};
ghost use Rattle.grift_base.specs.EnvironmentCall.{ends, traps};
ghost use Rattle.grift_base.specs.declared.worlds.EnvEffect.TheVariants.{Ended, Trapped};
ghost use Rattle.grift_base.specs.VerdictLine.{answer_text, verdict_text};

use crate::lists::{OutOfMemory, Text};
use crate::places::Pos;
use itoa::Buffer;
use std::alloc::Global;

/// An operation that has no answer.
#[derive(Clone, Copy, PartialEq, Eq)]
pub enum Trap {
    /// A quotient or a remainder by zero.
    ZeroDivisor,
    /// An index outside its vector.
    Index,
    /// A vector of a negative length.
    Length,
    /// Input that has no number next.
    Input,
}

impl Trap {
    /// The number by which a program tells this trap to its environment.
    pub fn number(self) -> u8
        ensures value { result ≡ trap_number self }
        ensures call { traps result ≡ Trapped self }
    {
        match self {
            Trap::ZeroDivisor => 1,
            Trap::Index => 2,
            Trap::Length => 3,
            Trap::Input => 4,
        }
    }

    /// The name of this trap, as the line for the user has it.
    pub fn text(self) -> &'static str
        ensures { result.now ≡ trap_text self }
    {
        match self {
            Trap::ZeroDivisor => "zero-divisor",
            Trap::Index => "index",
            Trap::Length => "length",
            Trap::Input => "input",
        }
    }
}

/// What an answer is, looking through every wrapper.
#[derive(Clone, Copy, PartialEq, Eq)]
pub enum AnswerKind {
    /// An integer.
    Int,
    /// A truth value.
    Bool,
    /// The one value of the unit type.
    Unit,
    /// A function.
    Function,
    /// A tuple.
    Tuple,
    /// A box.
    Boxed,
    /// A vector.
    Vector,
}

impl AnswerKind {
    /// The number by which a program tells this kind of answer to its environment.
    pub fn number(self) -> u8
        ensures value { result ≡ answer_kind_number self }
        ensures call { ends result 0 ≡ Ended (record { kind = self; word = pos 0 }) }
    {
        self as u8
    }
}

/// An answer: its word is the integer, 0 or 1 for a truth value, and else 0.
#[derive(Clone, Copy, PartialEq, Eq)]
pub struct Answer {
    pub kind: AnswerKind,
    pub word: i64,
}

/// How a program ends.
#[derive(Clone, Copy, PartialEq, Eq)]
pub enum Verdict {
    /// It has come to a value.
    Answer(Answer),
    /// A cast failed, and this place is blamed.
    Blame(Pos),
    /// An operation had no answer.
    Trap(Trap),
    /// The region had no room for an object.
    RegionOut,
    /// The stack had no room for a frame.
    StackOut,
    /// The budget of steps was spent.
    StepsSpent,
}

/// The line that tells the user of this verdict, with its line feed.
pub fn verdict_line(alloc: Global, verdict: &Verdict) -> Result<Text, OutOfMemory>
    ensures { IfOk result (λ line. line ≡ verdict_text verdict.now ++ codes "\n") }
{
    match verdict {
        Verdict::Answer(answer) => answer_line(alloc, *answer),
        Verdict::Blame(pos) => blame_line(alloc, *pos),
        Verdict::Trap(trap) => line_of(alloc, "trap ", trap.text()),
        Verdict::RegionOut => line_of(alloc, "exhausted ", "region"),
        Verdict::StackOut => line_of(alloc, "exhausted ", "stack"),
        Verdict::StepsSpent => line_of(alloc, "spent ", "steps"),
    }
}

fn answer_line(alloc: Global, answer: Answer) -> Result<Text, OutOfMemory>
    ensures { IfOk result (λ line.
        line ≡ codes "answer " ++ answer_text answer.kind answer.word ++ codes "\n") }
{
    let mut digits = Buffer::new();
    let text = match answer.kind {
        AnswerKind::Int => digits.format(answer.word),
        AnswerKind::Bool => truth_text(answer.word),
        AnswerKind::Unit => "()",
        AnswerKind::Function => "#<function>",
        AnswerKind::Tuple => "#<tuple>",
        AnswerKind::Boxed => "#<box>",
        AnswerKind::Vector => "#<vector>",
    };
    line_of(alloc, "answer ", text)
}

fn truth_text(word: i64) -> &'static str
    ensures { result.now ≡ answer_text AnswerKind.Bool word }
{
    if word == 0 { "#f" } else { "#t" }
}

fn blame_line(alloc: Global, pos: Pos) -> Result<Text, OutOfMemory>
    ensures { IfOk result (λ line.
        line ≡ codes "blame " ++ decimal pos.line ++ codes ":" ++ decimal pos.col ++ codes "\n") }
{
    let mut digits = Buffer::new();
    let mut line = Text::from_slice(alloc, b"blame ")?;
    line.extend(digits.format(pos.line).as_bytes())?;
    line.extend(b":")?;
    line.extend(digits.format(pos.col).as_bytes())?;
    line.extend(b"\n")?;
    Ok(line)
}

// The word, the text and a line feed.
fn line_of(alloc: Global, word: &str, text: &str) -> Result<Text, OutOfMemory>
    ensures { IfOk result (λ line. line ≡ word.now ++ text.now ++ codes "\n") }
{
    let mut line = Text::from_slice(alloc, word.as_bytes())?;
    line.extend(text.as_bytes())?;
    line.extend(b"\n")?;
    Ok(line)
}
