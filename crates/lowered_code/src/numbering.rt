// How the words of a lowered procedure are numbered.

ghost use Rattle.std.specs.Prelude.{◌≡◌, IfOk};
ghost use Rattle.lowered_code.specs.Numbering.{operand_word, local_word, captured_offset, function_offset};

use grift_base::lists::OutOfMemory;

/// What is known of a procedure where its body becomes code: how many parameters it has, how many names it has
/// captured, and its place in its group.
#[derive(Clone, Copy, PartialEq, Eq)]
pub struct Shape {
    pub params: u32,
    pub captured: u32,
    pub place: u32,
}

/// The place, among the words to compute in, of the one for tests, addresses and the answer. Those for operands stand
/// before it.
pub const TEST_PLACE: u32 = 8;

// A number of 32 bits. No memory holds what has more words, or bytes, than such numbers count.
pub fn narrow(n: u64) -> Result<u32, OutOfMemory>
    ensures { IfOk result (λ narrow. narrow ≡ n) }
{
    if n <= u32::MAX as u64 {
        Ok(n as u32)
    } else {
        Err(OutOfMemory)
    }
}

impl Shape {
    /// The word for the operand of a place.
    pub fn operand_word(self, place: u32) -> Result<u32, OutOfMemory>
        ensures { IfOk result (λ word. word ≡ operand_word self place) }
    {
        narrow(self.params as u64 + place as u64 + 1)
    }

    /// The word of the local name of a level.
    pub fn local_word(self, level: u32) -> Result<u32, OutOfMemory>
        ensures { IfOk result (λ word. word ≡ local_word self level) }
    {
        if level < self.params {
            narrow(level as u64 + 1)
        } else {
            narrow(level as u64 + 10)
        }
    }
}

/// From the first function of a group to the captured word of a place, in bytes.
pub fn captured_offset(place: u32) -> u64
    ensures { result ≡ captured_offset place }
{
    16 + 8 * place as u64
}

/// From the first function of a group, which has captured so many names, to the one of a place, in bytes.
pub fn function_offset(captured: u32, place: u32) -> u64
    ensures { result ≡ function_offset captured place }
{
    if place == 0 {
        0
    } else {
        16 + 8 * captured as u64 + 16 * (place as u64 - 1)
    }
}
