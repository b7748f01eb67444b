// The machine, whose parts fit together.

ghost use Rattle.std.specs.Prelude.{◌≡◌, ◌≤◌, ◌<◌, ◌+◌, ◌-◌, ◌%◌, ◌*◌, ◌/◌, ◌^◌, ℕ, length, [], true, IfOk};
ghost use Rattle.std.specs.Prelude.{OnOk, OnErr};
ghost use Rattle.grift_base.specs.Sink.{sink_seen};
ghost use Rattle.machine_words.specs.Memory.{memory_of, first_address};
ghost use Rattle.rv_machine.specs.Image.{IsImage, statics_len, code_len};
ghost use Rattle.rv_machine.specs.Start.{IsRegionSize, IsStackSize, start_regs, start_of};
ghost use Rattle.rv_machine.specs.State.{reg};
ghost use Rattle.rv_emulator.specs.Registers.{regs_of};
ghost use Rattle.rv_emulator.specs.Processor.{state_of, AreDecoded};
ghost use Rattle.rv_emulator.specs.Turns.{RunsTo, outcome_of};
ghost use Rattle.rv_emulator.specs.Consoles.{world_of, reserved_by};
ghost use Rattle.rv_emulator.specs.Blocks.{RunsBlocks, PutsOutput, with_output};

use crate::blocks::BLOCK_ROOM;
use crate::consoles::Console;
use crate::processor::{Places, Processor};
use crate::ram::{Ram, Width};
use crate::registers::Registers;
use crate::stops::{BlockStop, Stop};
use assembler::bytes::read_number;
use assembler::image::Image;
use grift_base::lists::OutOfMemory;
use grift_base::sinks::{Sink, SinkFault};
use grift_base::words::Words;
use grift_base::worlds::World;
use machine_words::FIRST_ADDRESS;
use rv_isa::inst::{Inst, decode};
use rv_isa::number::Reg;
use std::alloc::Global;
use std::marker::Model;

/// A machine with an image loaded, over any memory.
#[derive(Drop)]
pub struct Machine<R: Ram> {
    processor: Processor<R>,
}

impl<R: Ram> Model for Machine<R> {
    ghost use Rattle.rv_emulator.specs.declared.processor.Processor.{Processor};

    ghost Value = { Processor R };

    ghost use Rattle.rv_emulator.specs.Processor.{IsSoundBy};

    ghost view = { λ m. m.processor };

    ghost invariant = { λ m. IsSoundBy R.bytes_len R.memory m.processor };
}

impl<R: Ram + Drop> Machine<R> {
    /// The machine in the start state of an image, over a memory that is all zero below its size, with a region and a
    /// stack of these many bytes.
    pub fn load(
        alloc: Global,
        image: &Image,
        ram: R,
        region: u64,
        stack: u64,
        world: World,
    ) -> Result<Machine<R>, OutOfMemory>
        requires zero { (i : ℕ) → i < R.bytes_len ram → R.memory ram i ≡ 0 }
        requires region { IsRegionSize region }
        requires stack { IsStackSize stack }
        requires size { R.bytes_len ram ≡ statics_len image.now + code_len image.now + region + stack }
        ensures start { IfOk result (λ m. state_of R.memory m ≡ start_of image.now region stack world) }
        ensures whole { R.whole ram ≡ true → IfOk result (λ m. R.whole m.ram ≡ true) }
    {
        let mut ram = ram;
        let loaded = image.loaded();
        fill(&mut ram, loaded)?;
        let labels = image.labels(alloc)?;
        let console = Console::of_world(alloc, world)?;
        let code = decoded(alloc, loaded, image.statics_len() as usize)?;
        let places = places_of(image, region, stack);
        Ok(Machine {
            processor: Processor {
                places,
                labels,
                code,
                pc: places.code + image.entry(),
                regs: start_registers(places.region, region, stack),
                ram,
                console,
            },
        })
    }
}

// The instructions of the words from a place on, none for a word that isn't one.
fn decoded(alloc: Global, bytes: &[u8], from: usize) -> Result<Vec<Option<Inst>>, OutOfMemory>
    ensures count { IfOk result (λ code. length code.items ≡ (length bytes.now - from) / 4) }
    ensures entries { IfOk result (λ code. AreDecoded code.items (memory_of bytes.now) from) }
{
    let count = bytes.len().saturating_sub(from) / 4;
    let mut code = Vec::with_capacity(alloc, count)?;
    for i in 0..count {
        let word = read_number::<4>(bytes, from + 4 * i);
        code.push(decode(word as u32))?;
    }
    Ok(code)
}

// Where the parts of memory lie.
fn places_of(image: &Image, region: u64, stack: u64) -> Places
    requires region { IsRegionSize region }
    requires stack { IsStackSize stack }
    ensures code { result.code ≡ first_address + statics_len image.now }
    ensures region { result.region ≡ first_address + statics_len image.now + code_len image.now }
    ensures end { result.end ≡ result.region + region + stack }
    ensures sound { IsImage image.now }
    ensures small { result.end < 2 ^ 64 }
{
    let code_end = FIRST_ADDRESS + image.loaded().len() as u64;
    Places {
        code: code_end - image.code_len(),
        region: code_end,
        end: code_end + region + stack,
    }
}

// The registers at the start: x2 is the end of memory, x25 the stack's low end, x26 the region's start and
// x27 its end.
fn start_registers(start: u64, region: u64, stack: u64) -> Registers
    requires { start + region + stack < 2 ^ 64 }
    ensures { regs_of result ≡ start_regs start region stack }
{
    let top = start + region;
    let mut regs = Registers::new();
    regs.write(2, top + stack);
    regs.write(25, top);
    regs.write(26, start);
    regs.write(27, top);
    regs
}

impl<R: Ram> Machine<R> {
    /// Runs at most this many instructions; one that stops counts. Every stop leaves registers, memory,
    /// world and pc as before the instruction that stopped, and a later run goes on from there. Want of
    /// memory comes only at an instruction that prints more than there is room for, or at one that stores into a ram
    /// that isn't whole.
    pub fn run(&mut self, steps: u64) -> Stop
        ensures ran { RunsTo (R.whole self.new.ram) (reserved_by self.new.console) steps (state_of R.memory self.old)
            (outcome_of result) (state_of R.memory self.new) }
        ensures reserved { reserved_by self.old.console ≤ reserved_by self.new.console }
        ensures stays_whole { R.whole self.old.ram ≡ true → R.whole self.new.ram ≡ true }
    {
        self.processor.run(steps)
    }

    /// Runs as `run` does, and puts what is printed: all that waits whenever that is at least 4,096 bytes, and the rest
    /// at the stop. Nothing may wait at the start. Where a put fails no further instruction is made, and the machine
    /// keeps the output that was to be put, as for want of memory. That comes before the first instruction, from the
    /// sink, or where the ram isn't whole.
    pub fn run_blocks<O: Sink>(&mut self, steps: u64, out: &mut O) -> BlockStop
        requires { (state_of R.memory self.old).world.output ≡ [] }
        ensures ran { RunsBlocks (R.whole self.new.ram) steps (state_of R.memory self.old) result
            (sink_seen O.written O.fault_count out.old out.new) (state_of R.memory self.new) }
        ensures reserved { reserved_by self.old.console ≤ reserved_by self.new.console }
        ensures stays_whole { R.whole self.old.ram ≡ true → R.whole self.new.ram ≡ true }
    {
        self.processor.run_blocks(steps, out)
    }

    /// Makes room for 4,128 bytes of output more: a block, and what one instruction prints.
    pub fn reserve_output(&mut self) -> Result<(), OutOfMemory>
        ensures state { state_of R.memory self.new ≡ state_of R.memory self.old }
        ensures ram { self.new.ram ≡ self.old.ram }
        ensures room { OnOk result (
            length (state_of R.memory self.new).world.output + 4128 ≤ reserved_by self.new.console) }
        ensures reserved { reserved_by self.old.console ≤ reserved_by self.new.console }
    {
        self.processor.console.reserve(BLOCK_ROOM)
    }

    /// Puts what was printed in one put, if it is anything, and keeps it no longer. It is refused as that put is, and
    /// then the machine is as before.
    pub fn put_output<O: Sink>(&mut self, out: &mut O) -> Result<(), SinkFault>
        ensures put { PutsOutput (state_of R.memory self.old).world.output result
            (sink_seen O.written O.fault_count out.old out.new) }
        ensures ok { OnOk result (state_of R.memory self.new ≡ with_output [] (state_of R.memory self.old)) }
        ensures err { OnErr result (self.new ≡ self.old) }
        ensures ram { self.new.ram ≡ self.old.ram }
        ensures reserved { reserved_by self.new.console ≡ reserved_by self.old.console }
    {
        self.processor.put_output(out)
    }

    /// What a register reads as.
    pub fn reg(&self, register: Reg) -> u64
        ensures { result ≡ reg (state_of R.memory self.now) register }
    {
        self.processor.get(register)
    }

    /// The address of the next instruction.
    pub fn pc(&self) -> u64
        ensures { result ≡ (state_of R.memory self.now).pc }
    {
        self.processor.pc
    }

    /// What the program printed, with the room that is left for more, and its input.
    pub fn world(&self) -> &Console
        ensures world { world_of result.now ≡ (state_of R.memory self.now).world }
        ensures reserved { reserved_by result.now ≡ reserved_by self.now.console }
    {
        &self.processor.console
    }

    /// The memory, whose address 0 is the machine's first address.
    pub fn ram(&self) -> &R
        ensures { result.now ≡ self.now.ram }
    {
        &self.processor.ram
    }
}

impl<R: Ram> Words for Machine<R> {
    ghost use Rattle.machine_words.specs.Memory.{load_bytes, first_address};
    ghost use Rattle.rv_emulator.specs.Processor.{state_of};

    ghost first = { λ _. first_address };

    ghost end = { λ m. m.places.end };

    ghost word_at = { λ m at. load_bytes 8 (state_of R.memory m).memory at };

    fn word(&self, at: u64) -> Option<u64> {
        let end = self.processor.places.end;
        if at % 8 != 0 || at < FIRST_ADDRESS || end < 8 || end - 8 < at {
            return None;
        }
        Some(self.processor.ram.load(at - FIRST_ADDRESS, Width::B8))
    }
}

// Writes these bytes at the front of a memory that is all zero.
fn fill<R: Ram>(ram: &mut R, bytes: &[u8]) -> Result<(), OutOfMemory>
    requires zero { (i : ℕ) → i < R.bytes_len ram.old → R.memory ram.old i ≡ 0 }
    requires size { length bytes.now ≤ R.bytes_len ram.old }
    ensures memory { OnOk result (R.memory ram.new ≡ memory_of bytes.now) }
    ensures len { R.bytes_len ram.new ≡ R.bytes_len ram.old }
    ensures whole { R.whole ram.old ≡ true → R.whole ram.new ≡ true }
{
    for i in 0..bytes.len() {
        ram.store(i as u64, Width::B1, bytes[i] as u64)?;
    }
    Ok(())
}
