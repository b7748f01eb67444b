// Numbers that are read from a slice of bytes, the lowest byte first.

ghost use Rattle.std.specs.Prelude.{◌≡◌, ◌<◌, ◌≤◌, ◌+◌, ◌*◌, ◌^◌, length};
ghost use Rattle.machine_words.specs.Memory.{load_bytes, memory_of};

/// The number of the `WIDTH` bytes from place `at` on.
pub fn read_number<const WIDTH: usize>(bytes: &[u8], at: usize) -> u64
    requires small { WIDTH ≤ 8 }
    requires inside { at + WIDTH ≤ length bytes.now }
    ensures value { result ≡ load_bytes WIDTH (memory_of bytes.now) at }
    ensures fits { result < 2 ^ (8 * WIDTH) }
{
    let mut word = [0; 8];
    word[..WIDTH].copy_from_slice(&bytes[at..at + WIDTH]);
    u64::from_le_bytes(word)
}
