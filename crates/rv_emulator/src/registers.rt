// The registers.

ghost use Rattle.std.specs.Prelude.{◌≡◌, ◌<◌};
ghost use Rattle.rv_machine.specs.Registers.{get_reg, set_reg, zero_regs};
ghost use Rattle.rv_emulator.specs.Registers.{regs_of};

use rv_isa::number::Reg;
use std::marker::Model;

/// 32 words, of which the first reads as 0.
#[derive(Clone, Copy)]
pub struct Registers {
    words: [u64; 32],
}

impl Model for Registers {
    ghost use Rattle.std.specs.Prelude.{◌≡◌, ℕ, List, slice_index};

    ghost Value = { List ℕ };

    ghost view = { λ regs. regs.words };

    ghost invariant = { λ regs. slice_index regs.words 0 ≡ 0 };

    ghost inverse = { λ words. record { words = words } };
}

impl Registers {
    /// All zero.
    pub fn new() -> Registers
        ensures { regs_of result ≡ zero_regs }
    {
        Registers { words: [0; 32] }
    }

    /// What a register reads as.
    pub fn get(&self, register: Reg) -> u64
        ensures { result ≡ get_reg (regs_of self.now) register }
    {
        self.read(register.index())
    }

    /// Writes a register; what is written to the first is lost.
    pub fn set(&mut self, register: Reg, word: u64)
        ensures { regs_of self.new ≡ set_reg register word (regs_of self.old) }
    {
        self.write(register.index(), word);
    }

    /// What the register with this number reads as.
    pub fn read(&self, number: usize) -> u64
        requires { number < 32 }
        ensures { result ≡ get_reg (regs_of self.now) number }
    {
        self.words[number]
    }

    /// Writes the register with this number, unless it is 0.
    pub fn write(&mut self, number: usize, word: u64)
        requires { number < 32 }
        ensures { regs_of self.new ≡ set_reg number word (regs_of self.old) }
    {
        if number != 0 {
            self.words[number] = word;
        }
    }
}
