// The files of a command, from the shelf.

ghost use Rattle.std.specs.Prelude.{◌≡◌};
ghost use Rattle.grift_base.specs.Shelf.{shelf_seen};
ghost use Rattle.grift_cli.specs.Calls.{LoadsFiles, input_file};
ghost use Rattle.command_words.specs.ReadCommands.{name_bytes};

use grift_base::lists::Bytes;
use grift_base::shelves::{LoadFault, Shelf};
use grift_base::sizes::INPUT_LIMIT;
use std::alloc::Global;

/// The bytes of a command's file, and its input.
#[derive(Drop)]
pub struct Loaded {
    pub bytes: Bytes,
    pub input: Bytes,
}

/// Loads a file of at most so many bytes, and then the file of the input. Without a name the input is empty.
pub fn load_files<S: Shelf>(
    alloc: Global,
    shelf: &mut S,
    file: &str,
    most: usize,
    input: Option<&str>,
) -> Result<Loaded, LoadFault>
    ensures { LoadsFiles (record { name = file.now; most = most }) (input_file (name_bytes input.entry)) result
        (shelf_seen S.holds S.asked S.fault_count shelf.old shelf.new) }
{
    let bytes = Bytes::from_vec(shelf.load(alloc, file, most)?);
    let input = match input {
        Some(name) => Bytes::from_vec(shelf.load(alloc, name, INPUT_LIMIT)?),
        None => Bytes::new(alloc),
    };
    Ok(Loaded { bytes, input })
}
