// A memory that is one vector.

ghost use Rattle.std.specs.Prelude.{◌≡◌, ℕ, IfOk, length, true};
ghost use Rattle.machine_words.specs.Memory.{memory_of};
ghost use Rattle.std.proofs.lemmas.List.{get_or_past};

use crate::bytes::write_number;
use crate::ram::{Ram, Width};
use assembler::bytes::read_number;
use grift_base::lists::OutOfMemory;
use std::alloc::{AllocError, Global};

/// A memory of bytes in one vector. Its stores need no memory of the process.
#[derive(Drop)]
pub struct FlatRam {
    bytes: Vec<u8>,
}

impl FlatRam {
    /// These many bytes, all zero.
    pub fn new(alloc: Global, size: u64) -> Result<FlatRam, OutOfMemory>
        ensures size { IfOk result (λ ram. ⟦<FlatRam as Ram>⟧.bytes_len ram ≡ size) }
        ensures zero { IfOk result (λ ram. (i : ℕ) → ⟦<FlatRam as Ram>⟧.memory ram i ≡ 0) }
    {
        let made: Result<Vec<u8>, AllocError> = vec![in alloc; 0u8; size as usize];
        match made {
            Ok(bytes) => Ok(FlatRam { bytes }),
            Err(_) => Err(OutOfMemory),
        }
    }
}

impl Ram for FlatRam {
    ghost bytes_len = { λ ram. length ram.bytes.items };

    ghost memory = { λ ram. memory_of ram.bytes.items };

    ghost whole = { λ _. true };

    fn size(&self) -> u64 {
        self.bytes.len() as u64
    }

    fn load(&self, at: u64, width: Width) -> u64 {
        let bytes = self.bytes.as_slice();
        let at = at as usize;
        match width {
            Width::B1 => read_number::<1>(bytes, at),
            Width::B2 => read_number::<2>(bytes, at),
            Width::B4 => read_number::<4>(bytes, at),
            Width::B8 => read_number::<8>(bytes, at),
        }
    }

    fn store(&mut self, at: u64, width: Width, word: u64) -> Result<(), OutOfMemory> {
        let bytes = self.bytes.as_mut_slice();
        let at = at as usize;
        match width {
            Width::B1 => write_number::<1>(bytes, at, word),
            Width::B2 => write_number::<2>(bytes, at, word),
            Width::B4 => write_number::<4>(bytes, at, word),
            Width::B8 => write_number::<8>(bytes, at, word),
        }
        Ok(())
    }

    ghost nothing_past = { λ ram at h. get_or_past ram.bytes.items at 0 h };
}
