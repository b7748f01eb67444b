// What a program sees of the outside.

ghost use Rattle.std.specs.Prelude.{◌≡◌, ◌≤◌, ◌<◌, ◌%◌, nat_lt, not, if◌then◌else◌};
ghost use Rattle.std.specs.Prelude.{[], ◌∷◌, length, OnOk, OnErr, option_and_then};
ghost use Rattle.std.specs.Fmt.{signed_decimal};
ghost use Rattle.std.specs.Int.{cast_signed, w64};
ghost use Rattle.std.specs.List.{prefix_len};
ghost use Rattle.grift_base.specs.World.{WorldState, printing};
ghost use Rattle.grift_base.specs.Numbers.{in_word, number_of};
ghost use Rattle.grift_base.specs.Reading.{is_white, next_number, after_reading};
ghost use Rattle.grift_base.specs.EnvironmentCall.{environment_call, ends, traps, reads, Called, MakesCall};
ghost use Rattle.grift_base.specs.EnvironmentCall.{StaysUnlessNext};
ghost use Rattle.grift_base.specs.declared.environment.TheConstants.{PRINT_INT_CALL, PRINT_BYTE_CALL};
ghost use Rattle.grift_base.specs.declared.environment.TheConstants.{READ_INT_CALL};

use crate::environment::{
    BLAME_CALL, END_CALL, PRINT_BYTE_CALL, PRINT_INT_CALL, READ_INT_CALL, REGION_OUT_CALL,
    STACK_OUT_CALL, TRAP_CALL,
};
use crate::lists::{Bytes, OutOfMemory};
use crate::numbers::{integer, is_integer};
use crate::verdicts::{Answer, AnswerKind, Trap};
use itoa::Buffer;
use std::alloc::Global;
use std::marker::Model;

/// What a program sees of the outside: the bytes that it printed, and its input, of which the bytes below
/// `place` are read.
pub struct World {
    pub output: Bytes,
    pub input: Bytes,
    pub place: u64,
}

// By hand, so that each place where one goes is one call.
impl Drop for World {
    fn drop(self) {
        let World {
            output,
            input,
            place: _,
        } = self;
        drop(output);
        drop(input);
    }
}

impl Model for World {
    ghost use Rattle.std.specs.Prelude.{◌≤◌, length};
    ghost use Rattle.grift_base.specs.World.{WorldState};

    ghost Value = { WorldState };

    ghost view = { λ w. record { output = w.output; input = w.input; place = w.place } };

    ghost invariant = { λ w. w.place ≤ length w.input };
}

/// What an environment call comes to.
#[derive(Clone, Copy, PartialEq, Eq)]
pub enum EnvEffect {
    /// The program goes on, with these two words as its first two argument registers.
    Next(u64, u64),
    /// The program has come to an answer.
    Ended(Answer),
    /// The label of this number is blamed.
    Blamed(u32),
    Trapped(Trap),
    RegionOut,
    StackOut,
    /// There is no such call, or not with these operands.
    Refused,
    /// No memory was left for what the call prints.
    OutOfMemory,
}

impl World {
    /// Nothing is printed, and none of the input is read.
    pub fn new(alloc: Global, input: Bytes) -> World
        ensures { result ≡ record { output = []; input = input; place = 0 } }
    {
        World {
            output: Bytes::new(alloc),
            input,
            place: 0,
        }
    }

    /// Prints a number in signed decimal, all of it or nothing.
    pub fn print_int(&mut self, n: i64) -> Result<(), OutOfMemory>
        ensures ok { OnOk result (self.new ≡ printing (signed_decimal n) self.old) }
        ensures err { OnErr result (self.new ≡ self.old) }
    {
        let mut buffer = Buffer::new();
        self.output.extend(buffer.format(n).as_bytes())
    }

    /// Prints a byte.
    pub fn print_byte(&mut self, b: u8) -> Result<(), OutOfMemory>
        ensures ok { OnOk result (self.new ≡ printing (b ∷ []) self.old) }
        ensures err { OnErr result (self.new ≡ self.old) }
    {
        self.output.push(b)
    }

    /// The number that stands next in the input. Skips spaces, tabs, carriage returns and line feeds, and looks at the
    /// bytes up to the next of these: where they are an optional sign and digits of a number of 64 bits, it answers
    /// the number and stands behind them, and else it answers none and stands at the first of them, or at the end.
    /// Takes no memory.
    pub fn read_int(&mut self) -> Option<i64>
        ensures number { result ≡ next_number self.old }
        ensures world { self.new ≡ after_reading result self.old }
    {
        let rest = &self.input.as_slice()[self.place as usize..];
        let white = white_length(rest);
        let rest = &rest[white..];
        let run = run_length(rest);
        let number = number_in_word(&rest[..run]);
        let read = if number.is_some() { white + run } else { white };
        self.place += read as u64;
        number
    }

    /// Makes the environment call of this number with these two words, in a program with so many labels. Where
    /// the call goes on, the answer has its first two argument registers; `Refused` comes exactly where there is no
    /// such call or an operand is outside its range, `OutOfMemory` only at a call that prints, and after both the
    /// outside is as before.
    #[tactic(auto, unfolding(crate::specs::EnvironmentCall::environment_call))]
    pub fn env(&mut self, number: u64, a0: u64, a1: u64, labels: u32) -> EnvEffect
        ensures call { MakesCall (environment_call number a0 a1 labels self.old) number self.old result self.new }
        ensures stays { StaysUnlessNext result self.old self.new }
    {
        match number {
            END_CALL => ended(a0, a1),
            PRINT_INT_CALL => self.int_printed(a0, a1),
            PRINT_BYTE_CALL => self.byte_printed(a0, a1),
            BLAME_CALL => blamed(a0, labels),
            TRAP_CALL => trapped(a0),
            REGION_OUT_CALL => EnvEffect::RegionOut,
            STACK_OUT_CALL => EnvEffect::StackOut,
            READ_INT_CALL => self.int_read(),
            _ => EnvEffect::Refused,
        }
    }

    // The call that prints an integer.
    fn int_printed(&mut self, a0: u64, a1: u64) -> EnvEffect
        ensures { let printed = printing (signed_decimal (cast_signed w64 a0)) self.old in
            MakesCall (record { effect = EnvEffect.Next a0 a1; world = printed }) PRINT_INT_CALL self.old result
            self.new }
    {
        match self.print_int(a0.cast_signed()) {
            Ok(()) => EnvEffect::Next(a0, a1),
            Err(OutOfMemory) => EnvEffect::OutOfMemory,
        }
    }

    // The call that prints a byte.
    fn byte_printed(&mut self, a0: u64, a1: u64) -> EnvEffect
        ensures { let printed = printing (a0 % 256 ∷ []) self.old in
            MakesCall (record { effect = EnvEffect.Next a0 a1; world = printed }) PRINT_BYTE_CALL self.old result
            self.new }
    {
        match self.print_byte((a0 % 256) as u8) {
            Ok(()) => EnvEffect::Next(a0, a1),
            Err(OutOfMemory) => EnvEffect::OutOfMemory,
        }
    }

    // The call that reads an integer.
    fn int_read(&mut self) -> EnvEffect
        ensures { let number = next_number self.old in
            MakesCall (record { effect = reads number; world = after_reading number self.old }) READ_INT_CALL
            self.old result self.new }
    {
        match self.read_int() {
            Some(number) => EnvEffect::Next(number.cast_unsigned(), 0),
            None => EnvEffect::Next(0, 1),
        }
    }
}

fn is_white(byte: u8) -> bool
    ensures { result ≡ is_white byte }
{
    byte == b' ' || byte == b'\t' || byte == b'\r' || byte == b'\n'
}

// How many white bytes stand first.
fn white_length(bytes: &[u8]) -> usize
    ensures length { result ≡ prefix_len is_white bytes.now }
    ensures within { result ≤ length bytes.now }
{
    bytes.iter().take_while(|byte| is_white(**byte)).count()
}

// How many bytes stand before the first white one.
fn run_length(bytes: &[u8]) -> usize
    ensures length { result ≡ prefix_len (λ byte. not (is_white byte)) bytes.now }
    ensures within { result ≤ length bytes.now }
{
    bytes.iter().take_while(|byte| !is_white(**byte)).count()
}

// The number of 64 bits that these bytes write, if they write one.
fn number_in_word(text: &[u8]) -> Option<i64>
    ensures { result ≡ option_and_then in_word (number_of text.now) }
{
    if is_integer(text) {
        integer(text)
    } else {
        None
    }
}

// What the call that ends comes to: an answer of the kind of this number, with this word.
fn ended(kind: u64, word: u64) -> EnvEffect
    ensures { result ≡ ends kind word }
{
    match kind {
        0 => ended_up_to(u64::MAX, AnswerKind::Int, word),
        1 => ended_up_to(1, AnswerKind::Bool, word),
        2 => ended_up_to(0, AnswerKind::Unit, word),
        3 => ended_up_to(0, AnswerKind::Function, word),
        4 => ended_up_to(0, AnswerKind::Tuple, word),
        5 => ended_up_to(0, AnswerKind::Boxed, word),
        6 => ended_up_to(0, AnswerKind::Vector, word),
        _ => EnvEffect::Refused,
    }
}

// An answer of this kind, whose word is no greater than the first number.
fn ended_up_to(greatest: u64, kind: AnswerKind, word: u64) -> EnvEffect
    ensures fits { word ≤ greatest → result ≡ EnvEffect.Ended (record { kind = kind; word = cast_signed w64 word }) }
    ensures past { greatest < word → result ≡ EnvEffect.Refused }
{
    if word <= greatest {
        EnvEffect::Ended(Answer {
            kind,
            word: word.cast_signed(),
        })
    } else {
        EnvEffect::Refused
    }
}

// What the call that blames comes to, in a program with so many labels.
fn blamed(label: u64, labels: u32) -> EnvEffect
    ensures { result ≡ (if nat_lt label labels then EnvEffect.Blamed label else EnvEffect.Refused) }
{
    if label < labels as u64 {
        EnvEffect::Blamed(label as u32)
    } else {
        EnvEffect::Refused
    }
}

// What the call that traps comes to: the trap of this number.
fn trapped(kind: u64) -> EnvEffect
    ensures { result ≡ traps kind }
{
    match kind {
        1 => EnvEffect::Trapped(Trap::ZeroDivisor),
        2 => EnvEffect::Trapped(Trap::Index),
        3 => EnvEffect::Trapped(Trap::Length),
        4 => EnvEffect::Trapped(Trap::Input),
        _ => EnvEffect::Refused,
    }
}
