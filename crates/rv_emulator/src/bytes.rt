// Numbers that are written into a slice of bytes, the lowest byte first.

ghost use Rattle.std.specs.Prelude.{◌≡◌, ◌≤◌, ◌+◌, length};
ghost use Rattle.machine_words.specs.Memory.{store_bytes, memory_of};

/// Writes the lowest `WIDTH` bytes of a word from place `at` on.
pub fn write_number<const WIDTH: usize>(bytes: &mut [u8], at: usize, word: u64)
    requires small { WIDTH ≤ 8 }
    requires inside { at + WIDTH ≤ length bytes.old }
    ensures { memory_of bytes.new ≡ store_bytes WIDTH (memory_of bytes.old) at word }
{
    bytes[at..at + WIDTH].copy_from_slice(&word.to_le_bytes()[..WIDTH]);
}
