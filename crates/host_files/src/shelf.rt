// The files of the system as a shelf.

ghost use Rattle.std.specs.Prelude.{◌≡◌, ◌+◌, None};
ghost use Rattle.grift_base.specs.Outside.{Counts};
ghost use Rattle.grift_base.specs.Shelf.{Loads, load_failed};
ghost use Rattle.host_files.specs.Streams.{TakesAtMost};

use grift_base::shelves::{LoadFault, Shelf};
use std::alloc::Global;
use std::fs;
use std::io::Read;
use std::rt::Files;

// How many bytes one read asks for at most.
const PIECE_LENGTH: usize = 4096;

/// The files of the system, by their paths. A load fails where the file can't be opened or read to its end.
#[derive(Drop)]
pub struct FileShelf<F> {
    files: F,
    faults: u64,
}

impl<F> FileShelf<F> {
    /// The files of this system, of which no load failed yet.
    pub fn new(files: F) -> FileShelf<F>
        ensures { result.faults ≡ 0 }
    {
        FileShelf { files, faults: 0 }
    }
}

impl<F: Files> Shelf for FileShelf<F> {
    ghost holds = { λ _ _. None };

    ghost asked = { λ _. None };

    ghost fault_count = { λ shelf. shelf.faults };

    fn load(&mut self, alloc: Global, name: &str, max: usize) -> Result<Vec<u8>, LoadFault>
        ensures loads { Loads None max result }
        ensures count { Counts (load_failed result) self.old.faults self.new.faults }
    {
        let answer = load_file(alloc, &self.files, name, max);
        if answer == Err(LoadFault::Failed) {
            self.faults = self.faults.saturating_add(1);
        }
        answer
    }

    fn faults(&self) -> u64 {
        self.faults
    }
}

// What the file at this path holds, if that is no more than so many bytes.
fn load_file<F: Files>(
    alloc: Global,
    files: &F,
    path: &str,
    max: usize,
) -> Result<Vec<u8>, LoadFault>
    ensures { Loads None max result }
{
    let mut file = fs::open(files, path).map_err(|_| LoadFault::Failed)?;
    read_within(alloc, &mut file, max)
}

/// What the reader has left, if that is no more than so many bytes. At most one byte more is read.
///
/// # Errors
///
/// `TooLong` where the reader has more, `Failed` where a read fails, and `OutOfMemory`.
pub fn read_within<R: Read>(alloc: Global, reader: &mut R, max: usize) -> Result<Vec<u8>, LoadFault>
    ensures loads { Loads (R.remaining reader.old) max result }
    ensures stops { TakesAtMost (max + 1) (R.remaining reader.old) (R.remaining reader.new) }
{
    let mut loaded = Vec::new(alloc);
    let mut piece = [0; PIECE_LENGTH];
    for _ in 0..u64::MAX {
        let room = max - loaded.len();
        let wanted = room.min(PIECE_LENGTH - 1) + 1;
        let Ok(count) = reader.read(&mut piece[..wanted]) else {
            return Err(LoadFault::Failed);
        };
        if count == 0 {
            return Ok(loaded);
        }
        if count > room {
            return Err(LoadFault::TooLong);
        }
        if loaded.extend_from_slice(&piece[..count]).is_err() {
            return Err(LoadFault::OutOfMemory);
        }
    }
    Err(LoadFault::Failed)
}
