// One turn after another.

ghost use Rattle.std.specs.Prelude.{◌≡◌, ◌<◌, ◌≤◌, ◌-◌, ◌*◌, ◌%◌, ◌^◌, ◌⊎◌, ℕ, Bool, length, true, false, Some};
ghost use Rattle.std.specs.Int.{byte_len};
ghost use Rattle.machine_words.specs.Arithmetic.{half, word_of, plus};
ghost use Rattle.rv_machine.specs.Turn.{put, load_into, store_from, branch_if, jump_and_link};
ghost use Rattle.rv_machine.specs.Turn.{call_environment, act, turn_of};
ghost use Rattle.rv_machine.specs.State.{reg};
ghost use Rattle.rv_emulator.specs.Consoles.{reserved_by, LacksRoom, PrintsFew, LacksFew};
ghost use Rattle.rv_emulator.specs.Widths.{width_of};
ghost use Rattle.rv_emulator.specs.Processor.{state_of, IsSoundBy};
ghost use Rattle.rv_emulator.specs.Turns.{MakesTurn, NeverLacks, LacksUnless, LacksAt, LacksNext, RunsTo, outcome_of};
ghost use Rattle.rv_emulator.specs.Actions.{performed, go_on, LacksBy};

use crate::arithmetic::{
    extend, extend_half, flag_of, half_shifted_left, half_shifted_right, half_shifted_right_signed,
    is_less_signed, lower, shifted_left, shifted_right, shifted_right_signed,
};
use crate::consoles::Console;
use crate::ram::{Ram, Width};
use crate::registers::Registers;
use crate::stops::Stop;
use grift_base::lists::Items;
use grift_base::places::Pos;
use grift_base::worlds::EnvEffect;
use machine_words::FIRST_ADDRESS;
use rv_isa::inst::Inst;
use rv_isa::number::{Imm12, Imm13, Reg, Upper};

/// Where code begins, where it ends and the region begins, and where memory ends.
#[derive(Clone, Copy)]
pub struct Places {
    pub code: u64,
    pub region: u64,
    pub end: u64,
}

/// What an instruction does, with its operands read.
#[derive(Clone, Copy)]
pub enum Action {
    /// A register takes a word.
    Put(Reg, u64),
    /// A register takes the number of this width at an address, sign-extended where it is signed.
    Load(Reg, u64, Width, bool),
    /// The lowest bytes of a word go to an address.
    Store(u64, u64, Width),
    /// The pc moves by the offset, where the branch is taken.
    Branch(bool, Imm13),
    /// The pc goes to the target, and a register takes the address of the next instruction.
    Jump(Reg, u64),
    /// Nothing but the pc changes.
    Skip,
    /// The environment is called.
    Call,
    /// It stops as undefined.
    Refuse,
}

/// What the machine keeps.
#[derive(Drop)]
pub struct Processor<R> {
    pub places: Places,
    pub labels: Items<Pos>,
    /// The instructions of the words of code, none for a word that isn't one.
    pub code: Vec<Option<Inst>>,
    pub pc: u64,
    pub regs: Registers,
    pub ram: R,
    pub console: Console,
}

// What a store does: the word of one register goes to an address by another.
macro_rules! stored {
    ($processor:expr, $word:expr, $base:expr, $offset:expr, $width:ident) => {
        Action::Store($processor.get($word), $processor.at($base, $offset), Width::$width)
    };
}

impl<R: Ram> Processor<R> {
    // Goes on at the next instruction, with a register changed.
    fn put(&mut self, rd: Reg, word: u64) -> Option<Stop>
        ensures made { MakesTurn R.memory NeverLacks (put rd word) self.old result self.new }
        ensures ram { self.new.ram ≡ self.old.ram }
        ensures console { self.new.console ≡ self.old.console }
        ensures code { self.new.code ≡ self.old.code }
    {
        self.regs.set(rd, word);
        self.pc = self.pc.wrapping_add(4);
        None
    }

    // Reads a number into a register.
    #[inline(always)]
    fn load_into(&mut self, rd: Reg, at: u64, width: Width, signed: bool) -> Option<Stop>
        requires { IsSoundBy R.bytes_len R.memory self.old }
        ensures made { let turn = load_into signed (width_of width) rd at in
            MakesTurn R.memory NeverLacks turn self.old result self.new }
        ensures ram { self.new.ram ≡ self.old.ram }
        ensures console { self.new.console ≡ self.old.console }
        ensures code { self.new.code ≡ self.old.code }
    {
        let bytes = width.bytes();
        if at % bytes != 0 {
            return Some(Stop::Misaligned(self.pc));
        }
        if at < FIRST_ADDRESS || self.places.end - bytes < at {
            return Some(Stop::BadAddress(self.pc));
        }
        let word = extend(self.ram.load(at - FIRST_ADDRESS, width), width, signed);
        self.put(rd, word)
    }

    // Writes the lowest bytes of a word.
    #[inline(always)]
    fn store_from(&mut self, word: u64, to: u64, width: Width) -> Option<Stop>
        requires { IsSoundBy R.bytes_len R.memory self.old }
        ensures made { let lacks = LacksUnless (R.whole self.new.ram) in
            MakesTurn R.memory lacks (store_from (width_of width) word to) self.old result self.new }
        ensures console { self.new.console ≡ self.old.console }
        ensures code { self.new.code ≡ self.old.code }
        ensures len { R.bytes_len self.new.ram ≡ R.bytes_len self.old.ram }
        ensures stays_whole { R.whole self.old.ram ≡ true → R.whole self.new.ram ≡ true }
    {
        let bytes = width.bytes();
        if to % bytes != 0 {
            return Some(Stop::Misaligned(self.pc));
        }
        if to < self.places.region || self.places.end - bytes < to {
            return Some(Stop::BadAddress(self.pc));
        }
        match self.ram.store(to - FIRST_ADDRESS, width, word) {
            Ok(()) => {
                self.pc = self.pc.wrapping_add(4);
                None
            }
            Err(_) => Some(Stop::OutOfMemory),
        }
    }

    fn branch_if(&mut self, taken: bool, offset: Imm13) -> Option<Stop>
        ensures made { MakesTurn R.memory NeverLacks (branch_if taken offset) self.old result self.new }
        ensures ram { self.new.ram ≡ self.old.ram }
        ensures console { self.new.console ≡ self.old.console }
        ensures code { self.new.code ≡ self.old.code }
    {
        if !taken {
            self.pc = self.pc.wrapping_add(4);
            return None;
        }
        let target = self.pc.wrapping_add_signed(offset.get());
        if target % 4 != 0 {
            return Some(Stop::Misaligned(self.pc));
        }
        self.pc = target;
        None
    }

    // Jumps, and keeps the address of the next instruction in a register.
    fn jump_and_link(&mut self, rd: Reg, target: u64) -> Option<Stop>
        ensures made { MakesTurn R.memory NeverLacks (jump_and_link rd target) self.old result self.new }
        ensures ram { self.new.ram ≡ self.old.ram }
        ensures console { self.new.console ≡ self.old.console }
        ensures code { self.new.code ≡ self.old.code }
    {
        if target % 4 != 0 {
            return Some(Stop::Misaligned(self.pc));
        }
        self.regs.set(rd, self.pc.wrapping_add(4));
        self.pc = target;
        None
    }

    // Makes an environment call.
    #[inline(always)]
    fn call_environment(&mut self) -> Option<Stop>
        requires { IsSoundBy R.bytes_len R.memory self.old }
        ensures made { let lacks = LacksRoom (reserved_by self.new.console) in
            MakesTurn R.memory lacks call_environment self.old result self.new }
        ensures ram { self.new.ram ≡ self.old.ram }
        ensures code { self.new.code ≡ self.old.code }
        ensures reserved { reserved_by self.old.console ≤ reserved_by self.new.console }
        ensures few { PrintsFew self.old.console self.new.console }
        ensures fails { result ≡ Some Stop.OutOfMemory → LacksFew self.new.console }
    {
        let number = self.regs.read(17);
        let first = self.regs.read(10);
        let second = self.regs.read(11);
        match self
            .console
            .env(number, first, second, self.labels.len() as u32)
        {
            EnvEffect::Next(a0, a1) => {
                self.regs.write(10, a0);
                self.regs.write(11, a1);
                self.pc = self.pc.wrapping_add(4);
                None
            }
            EnvEffect::Ended(answer) => Some(Stop::Ended(answer)),
            EnvEffect::Blamed(label) => match self.labels.get(u64::from(label)) {
                Some(place) => Some(Stop::Blamed(*place)),
                None => Some(Stop::Undefined(self.pc)),
            },
            EnvEffect::Trapped(trap) => Some(Stop::Trapped(trap)),
            EnvEffect::RegionOut => Some(Stop::RegionOut),
            EnvEffect::StackOut => Some(Stop::StackOut),
            EnvEffect::Refused => Some(Stop::Undefined(self.pc)),
            EnvEffect::OutOfMemory => Some(Stop::OutOfMemory),
        }
    }

    /// Makes at most these many turns.
    pub fn run(&mut self, steps: u64) -> Stop
        requires { IsSoundBy R.bytes_len R.memory self.old }
        ensures ran { RunsTo (R.whole self.new.ram) (reserved_by self.new.console) steps (state_of R.memory self.old)
            (outcome_of result) (state_of R.memory self.new) }
        ensures sound { IsSoundBy R.bytes_len R.memory self.new }
        ensures reserved { reserved_by self.old.console ≤ reserved_by self.new.console }
        ensures stays_whole { R.whole self.old.ram ≡ true → R.whole self.new.ram ≡ true }
    {
        for _ in 0..steps {
            if let Some(stop) = self.turn() {
                return stop;
            }
        }
        Stop::StepsSpent
    }

    // One turn. All that it calls is inlined into the loop of a run, but for what an environment call does outside, so
    // that a run keeps the pc at hand.
    #[inline(always)]
    pub(crate) fn turn(&mut self) -> Option<Stop>
        requires { IsSoundBy R.bytes_len R.memory self.old }
        ensures made { let lacks = LacksNext (R.whole self.new.ram) (reserved_by self.new.console) in
            MakesTurn R.memory lacks turn_of self.old result self.new }
        ensures sound { IsSoundBy R.bytes_len R.memory self.new }
        ensures reserved { reserved_by self.old.console ≤ reserved_by self.new.console }
        ensures few { PrintsFew self.old.console self.new.console }
        ensures fails { result ≡ Some Stop.OutOfMemory
            → (R.whole self.new.ram ≡ false) ⊎ LacksFew self.new.console }
        ensures stays_whole { R.whole self.old.ram ≡ true → R.whole self.new.ram ≡ true }
    {
        let places = self.places;
        // an address below the code wraps to one past it
        let at = self.pc.wrapping_sub(places.code);
        match self.code.get(at as usize / 4) {
            Some(Some(i)) => {
                let action = self.action(i);
                self.perform(action)
            }
            Some(None) => Some(Stop::Undefined(self.pc)),
            None => Some(Stop::BadAddress(self.pc)),
        }
    }

    // What a register reads as.
    pub fn get(&self, register: Reg) -> u64
        ensures { result ≡ reg (state_of R.memory self.now) register }
    {
        self.regs.get(register)
    }

    // The sum of a register and an immediate, which wraps.
    fn at(&self, register: Reg, offset: Imm12) -> u64
        ensures { result ≡ plus (reg (state_of R.memory self.now) register) offset }
    {
        self.regs.get(register).wrapping_add_signed(offset.get())
    }

    // The amount of a shift by a register, below this width.
    fn amount(&self, register: Reg, width: u32) -> u32
        requires { 0 < width }
        ensures value { result ≡ reg (state_of R.memory self.now) register % width }
        ensures below { result < width }
    {
        (self.regs.get(register) % u64::from(width)) as u32
    }

    // Goes on at the next instruction.
    fn skip(&mut self) -> Option<Stop>
        ensures made { MakesTurn R.memory NeverLacks go_on self.old result self.new }
        ensures ram { self.new.ram ≡ self.old.ram }
        ensures console { self.new.console ≡ self.old.console }
        ensures code { self.new.code ≡ self.old.code }
    {
        self.pc = self.pc.wrapping_add(4);
        None
    }

    // What an instruction does, with its operands read.
    #[inline(always)]
    fn action(&self, i: &Inst) -> Action
        ensures value { performed result (state_of R.memory self.now) ≡ act i.now (state_of R.memory self.now) }
        ensures lacks { let s = state_of R.memory self.now in
            (whole : Bool) (reserved : ℕ) → LacksBy whole reserved result s → LacksAt whole reserved i.now s }
    {
        match *i {
            Inst::Lui(rd, upper) => Action::Put(rd, upper_word(upper)),
            Inst::Auipc(rd, upper) => Action::Put(rd, self.pc.wrapping_add(upper_word(upper))),
            Inst::Jal(rd, offset) => Action::Jump(rd, self.pc.wrapping_add_signed(offset.get())),
            Inst::Jalr(rd, rs1, offset) => Action::Jump(rd, even(self.at(rs1, offset))),
            Inst::Beq(rs1, rs2, offset) => Action::Branch(self.get(rs1) == self.get(rs2), offset),
            Inst::Bne(rs1, rs2, offset) => Action::Branch(self.get(rs1) != self.get(rs2), offset),
            Inst::Blt(rs1, rs2, offset) => Action::Branch(
                is_less_signed(self.get(rs1), self.get(rs2)),
                offset,
            ),
            Inst::Bge(rs1, rs2, offset) => Action::Branch(
                !is_less_signed(self.get(rs1), self.get(rs2)),
                offset,
            ),
            Inst::Bltu(rs1, rs2, offset) => Action::Branch(self.get(rs1) < self.get(rs2), offset),
            Inst::Bgeu(rs1, rs2, offset) => Action::Branch(self.get(rs1) >= self.get(rs2), offset),
            Inst::Lb(rd, rs1, offset) => Action::Load(rd, self.at(rs1, offset), Width::B1, true),
            Inst::Lh(rd, rs1, offset) => Action::Load(rd, self.at(rs1, offset), Width::B2, true),
            Inst::Lw(rd, rs1, offset) => Action::Load(rd, self.at(rs1, offset), Width::B4, true),
            Inst::Ld(rd, rs1, offset) => Action::Load(rd, self.at(rs1, offset), Width::B8, false),
            Inst::Lbu(rd, rs1, offset) => Action::Load(rd, self.at(rs1, offset), Width::B1, false),
            Inst::Lhu(rd, rs1, offset) => Action::Load(rd, self.at(rs1, offset), Width::B2, false),
            Inst::Lwu(rd, rs1, offset) => Action::Load(rd, self.at(rs1, offset), Width::B4, false),
            Inst::Sb(rs2, rs1, offset) => stored!(self, rs2, rs1, offset, B1),
            Inst::Sh(rs2, rs1, offset) => stored!(self, rs2, rs1, offset, B2),
            Inst::Sw(rs2, rs1, offset) => stored!(self, rs2, rs1, offset, B4),
            Inst::Sd(rs2, rs1, offset) => stored!(self, rs2, rs1, offset, B8),
            Inst::Addi(rd, rs1, imm) => Action::Put(rd, self.at(rs1, imm)),
            Inst::Slti(rd, rs1, imm) => Action::Put(
                rd,
                flag_of(self.get(rs1).cast_signed() < imm.get()),
            ),
            Inst::Sltiu(rd, rs1, imm) => Action::Put(rd, flag_of(self.get(rs1) < word_of(imm))),
            Inst::Xori(rd, rs1, imm) => Action::Put(rd, self.get(rs1) ^ word_of(imm)),
            Inst::Ori(rd, rs1, imm) => Action::Put(rd, self.get(rs1) | word_of(imm)),
            Inst::Andi(rd, rs1, imm) => Action::Put(rd, self.get(rs1) & word_of(imm)),
            Inst::Slli(rd, rs1, by) => Action::Put(rd, shifted_left(self.get(rs1), by.bits())),
            Inst::Srli(rd, rs1, by) => Action::Put(rd, shifted_right(self.get(rs1), by.bits())),
            Inst::Srai(rd, rs1, by) => Action::Put(
                rd,
                shifted_right_signed(self.get(rs1), by.bits()),
            ),
            Inst::Add(rd, rs1, rs2) => Action::Put(rd, self.get(rs1).wrapping_add(self.get(rs2))),
            Inst::Sub(rd, rs1, rs2) => Action::Put(rd, self.get(rs1).wrapping_sub(self.get(rs2))),
            Inst::Sll(rd, rs1, rs2) => Action::Put(
                rd,
                shifted_left(self.get(rs1), self.amount(rs2, 64)),
            ),
            Inst::Slt(rd, rs1, rs2) => Action::Put(
                rd,
                flag_of(is_less_signed(self.get(rs1), self.get(rs2))),
            ),
            Inst::Sltu(rd, rs1, rs2) => Action::Put(rd, flag_of(self.get(rs1) < self.get(rs2))),
            Inst::Xor(rd, rs1, rs2) => Action::Put(rd, self.get(rs1) ^ self.get(rs2)),
            Inst::Srl(rd, rs1, rs2) => Action::Put(
                rd,
                shifted_right(self.get(rs1), self.amount(rs2, 64)),
            ),
            Inst::Sra(rd, rs1, rs2) => Action::Put(
                rd,
                shifted_right_signed(self.get(rs1), self.amount(rs2, 64)),
            ),
            Inst::Or(rd, rs1, rs2) => Action::Put(rd, self.get(rs1) | self.get(rs2)),
            Inst::And(rd, rs1, rs2) => Action::Put(rd, self.get(rs1) & self.get(rs2)),
            Inst::Addiw(rd, rs1, imm) => Action::Put(rd, extend_half(lower(self.at(rs1, imm)))),
            Inst::Slliw(rd, rs1, by) => Action::Put(
                rd,
                half_shifted_left(self.get(rs1), by.bits()),
            ),
            Inst::Srliw(rd, rs1, by) => Action::Put(
                rd,
                half_shifted_right(self.get(rs1), by.bits()),
            ),
            Inst::Sraiw(rd, rs1, by) => Action::Put(
                rd,
                half_shifted_right_signed(self.get(rs1), by.bits()),
            ),
            Inst::Addw(rd, rs1, rs2) => Action::Put(
                rd,
                extend_half(lower(self.get(rs1).wrapping_add(self.get(rs2)))),
            ),
            Inst::Subw(rd, rs1, rs2) => Action::Put(
                rd,
                extend_half(lower(self.get(rs1).wrapping_sub(self.get(rs2)))),
            ),
            Inst::Sllw(rd, rs1, rs2) => Action::Put(
                rd,
                half_shifted_left(self.get(rs1), self.amount(rs2, 32)),
            ),
            Inst::Srlw(rd, rs1, rs2) => Action::Put(
                rd,
                half_shifted_right(self.get(rs1), self.amount(rs2, 32)),
            ),
            Inst::Sraw(rd, rs1, rs2) => Action::Put(
                rd,
                half_shifted_right_signed(self.get(rs1), self.amount(rs2, 32)),
            ),
            Inst::Fence(_, _, _) => Action::Skip,
            Inst::Ecall => Action::Call,
            Inst::Ebreak => Action::Refuse,
        }
    }

    // Does what the action says.
    #[inline(always)]
    fn perform(&mut self, action: Action) -> Option<Stop>
        requires { IsSoundBy R.bytes_len R.memory self.old }
        ensures made { let lacks = LacksBy (R.whole self.new.ram) (reserved_by self.new.console) action in
            MakesTurn R.memory lacks (performed action) self.old result self.new }
        ensures code { self.new.code ≡ self.old.code }
        ensures reserved { reserved_by self.old.console ≤ reserved_by self.new.console }
        ensures few { PrintsFew self.old.console self.new.console }
        ensures fails { result ≡ Some Stop.OutOfMemory
            → (R.whole self.new.ram ≡ false) ⊎ LacksFew self.new.console }
        ensures len { R.bytes_len self.new.ram ≡ R.bytes_len self.old.ram }
        ensures stays_whole { R.whole self.old.ram ≡ true → R.whole self.new.ram ≡ true }
    {
        match action {
            Action::Put(rd, word) => self.put(rd, word),
            // each width has code of its own
            Action::Load(rd, at, width, signed) => match width {
                Width::B1 => self.load_into(rd, at, Width::B1, signed),
                Width::B2 => self.load_into(rd, at, Width::B2, signed),
                Width::B4 => self.load_into(rd, at, Width::B4, signed),
                Width::B8 => self.load_into(rd, at, Width::B8, signed),
            },
            Action::Store(word, at, width) => match width {
                Width::B1 => self.store_from(word, at, Width::B1),
                Width::B2 => self.store_from(word, at, Width::B2),
                Width::B4 => self.store_from(word, at, Width::B4),
                Width::B8 => self.store_from(word, at, Width::B8),
            },
            Action::Branch(taken, offset) => self.branch_if(taken, offset),
            Action::Jump(rd, target) => self.jump_and_link(rd, target),
            Action::Skip => self.skip(),
            Action::Call => self.call_environment(),
            Action::Refuse => Some(Stop::Undefined(self.pc)),
        }
    }
}

// The upper 20 bits of 32, sign-extended.
fn upper_word(upper: Upper) -> u64
    ensures { result ≡ half (upper * 2 ^ 12) }
{
    extend_half(upper.bits() << 12)
}

// An immediate, sign-extended to a word.
fn word_of(immediate: Imm12) -> u64
    ensures { result ≡ word_of immediate }
{
    immediate.get().cast_unsigned()
}

// The number without its lowest bit.
fn even(target: u64) -> u64
    ensures { result ≡ target - target % 2 }
{
    target & !1
}
