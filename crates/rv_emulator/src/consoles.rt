// What a program sees of the outside, with room for what it prints.

ghost use Rattle.std.specs.Prelude.{◌≡◌, ◌≢◌, ◌≤◌, ◌<◌, ◌+◌, ◌%◌, [], ◌∷◌, OnOk, OnErr, IfOk, length};
ghost use Rattle.std.specs.Fmt.{signed_decimal};
ghost use Rattle.std.specs.Int.{cast_signed, w64};
ghost use Rattle.grift_base.specs.World.{printing};
ghost use Rattle.grift_base.specs.EnvironmentCall.{environment_call, StaysUnlessNext};
ghost use Rattle.rv_emulator.specs.Consoles.{world_of, reserved_by, MakesCallWithin, PrintsFew, LacksFew};

use grift_base::lists::OutOfMemory;
use grift_base::worlds::{EnvEffect, World};
use itoa::Buffer;
use std::alloc::Global;

/// What a program sees of the outside: the bytes that it printed, in a vector whose capacity contracts see, and its
/// input.
#[derive(Drop)]
pub struct Console {
    pub output: Vec<u8>,
    /// The input, and how much of it is read. What this world has printed itself doesn't count.
    pub input: World,
}

impl Console {
    /// What the world has printed, and its input.
    pub fn of_world(alloc: Global, world: World) -> Result<Console, OutOfMemory>
        ensures { IfOk result (λ console. world_of console ≡ world) }
    {
        let output = Vec::from_slice(alloc, world.output.as_slice())?;
        Ok(Console {
            output,
            input: world,
        })
    }

    /// Makes the environment call of this number with these two words, in a program with so many labels, as a `World`
    /// does. Want of memory comes only where the call prints more than there is room for.
    #[inline(never)]
    pub fn env(&mut self, number: u64, a0: u64, a1: u64, labels: u32) -> EnvEffect
        ensures call { let old = world_of self.old in
            MakesCallWithin (reserved_by self.new) (environment_call number a0 a1 labels old) number a0 old result
            (world_of self.new) }
        ensures stays { StaysUnlessNext result (world_of self.old) (world_of self.new) }
        ensures reserved { reserved_by self.old ≤ reserved_by self.new }
        ensures few { PrintsFew self.old self.new }
        ensures fails { result ≡ EnvEffect.OutOfMemory → LacksFew self.new }
    {
        match number {
            1 => self.int_printed(a0, a1),
            2 => self.byte_printed(a0, a1),
            _ => self.input.env(number, a0, a1, labels),
        }
    }

    // Call 1.
    fn int_printed(&mut self, a0: u64, a1: u64) -> EnvEffect
        ensures call { let old = world_of self.old in
            let printed = printing (signed_decimal (cast_signed w64 a0)) old in
            MakesCallWithin (reserved_by self.new) (record { effect = EnvEffect.Next a0 a1; world = printed }) 1 a0 old
            result (world_of self.new) }
        ensures reserved { reserved_by self.old ≤ reserved_by self.new }
        ensures few { PrintsFew self.old self.new }
        ensures fails { result ≡ EnvEffect.OutOfMemory → LacksFew self.new }
    {
        let mut buffer = Buffer::new();
        match self.print(buffer.format(a0.cast_signed()).as_bytes()) {
            Ok(()) => EnvEffect::Next(a0, a1),
            Err(OutOfMemory) => EnvEffect::OutOfMemory,
        }
    }

    // Call 2.
    fn byte_printed(&mut self, a0: u64, a1: u64) -> EnvEffect
        ensures call { let old = world_of self.old in
            let printed = printing (a0 % 256 ∷ []) old in
            MakesCallWithin (reserved_by self.new) (record { effect = EnvEffect.Next a0 a1; world = printed }) 2 a0 old
            result (world_of self.new) }
        ensures reserved { reserved_by self.old ≤ reserved_by self.new }
        ensures few { PrintsFew self.old self.new }
        ensures fails { result ≡ EnvEffect.OutOfMemory → LacksFew self.new }
    {
        match self.print(&[(a0 % 256) as u8]) {
            Ok(()) => EnvEffect::Next(a0, a1),
            Err(OutOfMemory) => EnvEffect::OutOfMemory,
        }
    }

    // Prints these bytes, all of them or none.
    fn print(&mut self, bytes: &[u8]) -> Result<(), OutOfMemory>
        ensures ok { OnOk result (world_of self.new ≡ printing bytes.now (world_of self.old)) }
        ensures err { OnErr result (world_of self.new ≡ world_of self.old) }
        ensures lacks { OnErr result (reserved_by self.new < length self.new.output.items + length bytes.now) }
        ensures grown { length self.new.output.items ≤ length self.old.output.items + length bytes.now }
        ensures reserved { reserved_by self.old ≤ reserved_by self.new }
    {
        self.output.reserve(bytes.len())?;
        self.output.extend_from_slice(bytes)?;
        Ok(())
    }

    /// Makes room for these many bytes more.
    pub fn reserve(&mut self, count: usize) -> Result<(), OutOfMemory>
        ensures world { world_of self.new ≡ world_of self.old }
        ensures room { OnOk result (length self.new.output.items + count ≤ reserved_by self.new) }
        ensures reserved { reserved_by self.old ≤ reserved_by self.new }
    {
        self.output.reserve(count)?;
        Ok(())
    }
}
