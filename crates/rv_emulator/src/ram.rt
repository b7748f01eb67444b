// What a memory is.

ghost use Rattle.std.specs.Prelude.{◌≡◌, ◌<◌, ◌≤◌, ◌+◌, ◌%◌, ◌*◌, ◌^◌, ℕ, Bool, true, false, OnOk, OnErr};
ghost use Rattle.std.specs.Int.{byte_len};
ghost use Rattle.machine_words.specs.Memory.{Memory, load_bytes, store_bytes};
ghost use Rattle.rv_emulator.specs.Widths.{width_of};

use grift_base::lists::OutOfMemory;

/// How many bytes are read or written at once: 1, 2, 4 or 8.
#[derive(Clone, Copy, PartialEq, Eq)]
pub enum Width {
    B1,
    B2,
    B4,
    B8,
}

impl Width {
    /// The number of bytes.
    pub fn bytes(self) -> u64
        ensures value { result ≡ byte_len (width_of self) }
        ensures some { 0 < result }
        ensures small { result ≤ 8 }
    {
        match self {
            Width::B1 => 1,
            Width::B2 => 2,
            Width::B4 => 4,
            Width::B8 => 8,
        }
    }
}

/// A memory of bytes, whose addresses begin at 0. A load gives what the last store left, the lowest byte
/// first; other bytes stay, and no store changes the size.
pub trait Ram {
    // how many bytes there are
    ghost bytes_len: { Self → ℕ };

    // the bytes
    ghost memory: { Self → Memory };

    // whether stores need no memory of the process
    ghost whole: { Self → Bool };

    /// How many bytes there are.
    fn size(&self) -> u64
        ensures { result ≡ bytes_len self.now };

    /// The number of these many bytes at an address.
    fn load(&self, at: u64, width: Width) -> u64
        requires aligned { at % byte_len (width_of width) ≡ 0 }
        requires inside { at + byte_len (width_of width) ≤ bytes_len self.now }
        ensures value { result ≡ load_bytes (byte_len (width_of width)) (memory self.now) at }
        ensures fits { result < 2 ^ (8 * byte_len (width_of width)) };

    /// Writes the lowest bytes of a word at an address. Want of memory comes only where the memory isn't
    /// whole, and leaves it as it was.
    fn store(&mut self, at: u64, width: Width, word: u64) -> Result<(), OutOfMemory>
        requires aligned { at % byte_len (width_of width) ≡ 0 }
        requires inside { at + byte_len (width_of width) ≤ bytes_len self.old }
        ensures len { bytes_len self.new ≡ bytes_len self.old }
        ensures stays_whole { whole self.old ≡ true → whole self.new ≡ true }
        ensures ok { OnOk result (
            memory self.new ≡ store_bytes (byte_len (width_of width)) (memory self.old) at word) }
        ensures err { OnErr result (memory self.new ≡ memory self.old) }
        ensures fails { OnErr result (whole self.old ≡ false) }
        ensures fails_still { OnErr result (whole self.new ≡ false) };

    // past the size there is nothing
    ghost nothing_past: { (ram : Self) (at : ℕ) → bytes_len ram ≤ at → memory ram at ≡ 0 };
}
