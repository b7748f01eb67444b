// Memories of bytes.

ghost use Rattle.std.specs.Prelude.{◌≡◌, ◌+◌, ◌%◌, ◌≤◌};
ghost use Rattle.std.specs.Int.{byte_len};
ghost use Rattle.rv_emulator.specs.Widths.{width_of};

use rv_emulator::flat::FlatRam;
use rv_emulator::ram::{Ram, Width};
use std::alloc::Global;
use std::process::Abort;

const WORD: u64 = 0x0123_4567_89AB_CDEF;

// Stores a word, and loads what then stands there.
fn stored<R: Ram>(rt: &impl Abort, ram: &mut R, at: u64, width: Width, word: u64) -> u64
    requires aligned { at % byte_len (width_of width) ≡ 0 }
    requires inside { at + byte_len (width_of width) ≤ R.bytes_len ram.old }
    ensures { R.bytes_len ram.new ≡ R.bytes_len ram.old }
{
    ram.store(at, width, word).expect(rt, "memory");
    ram.load(at, width)
}

// A memory of the 16 bytes 0 to 15.
fn counted(rt: &impl Abort, alloc: Global) -> FlatRam
    ensures { ⟦<FlatRam as Ram>⟧.bytes_len result ≡ 16 }
{
    let mut ram = FlatRam::new(alloc, 16).expect(rt, "memory");
    ram.store(0, Width::B8, 0x0706_0504_0302_0100)
        .expect(rt, "memory");
    ram.store(8, Width::B8, 0x0F0E_0D0C_0B0A_0908)
        .expect(rt, "memory");
    ram
}

// What is loaded after a store at the first place and at the last, and both halves of the memory then.
fn at_both_ends(rt: &impl Abort, alloc: Global, width: Width, last: u64) -> [u64; 4]
    requires aligned { last % byte_len (width_of width) ≡ 0 }
    requires inside { last + byte_len (width_of width) ≤ 16 }
{
    let mut ram = counted(rt, alloc);
    let first_loaded = stored(rt, &mut ram, 0, width, WORD);
    let last_loaded = stored(rt, &mut ram, last, width, WORD);
    let low = ram.load(0, Width::B8);
    let high = ram.load(8, Width::B8);
    [first_loaded, last_loaded, low, high]
}

// The size of a new memory of 16 bytes, and both halves of it.
fn new_memory(rt: &impl Abort, alloc: Global) -> [u64; 3] {
    let ram = FlatRam::new(alloc, 16).expect(rt, "memory");
    [ram.size(), ram.load(0, Width::B8), ram.load(8, Width::B8)]
}

#[test]
fn begins_with_zeros(rt: HostRuntime) {
    assert!(&rt; new_memory(&rt, rt.alloc()) == [16, 0, 0]);
}

#[test]
fn keeps_each_width(rt: HostRuntime) {
    for (width, last, wanted) in [
        (
            Width::B1,
            15,
            [0xEF, 0xEF, 0x0706_0504_0302_01EF, 0xEF0E_0D0C_0B0A_0908],
        ),
        (
            Width::B2,
            14,
            [0xCDEF, 0xCDEF, 0x0706_0504_0302_CDEF, 0xCDEF_0D0C_0B0A_0908],
        ),
        (
            Width::B4,
            12,
            [
                0x89AB_CDEF,
                0x89AB_CDEF,
                0x0706_0504_89AB_CDEF,
                0x89AB_CDEF_0B0A_0908,
            ],
        ),
        (Width::B8, 8, [WORD, WORD, WORD, WORD]),
    ] {
        let is_last = last == 16 - width.bytes();
        assert!(&rt;
            is_last && at_both_ends(&rt, rt.alloc(), width, last) == wanted,
            "{last}"
        );
    }
}
