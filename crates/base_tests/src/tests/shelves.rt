// Shelves of files in memory.

ghost use Rattle.std.specs.Prelude.{◌≡◌, ◌<◌, length, option_map, IsErrOf, IfOk, IfSome};
ghost use Rattle.grift_base.specs.Outside.{next_count};
ghost use Rattle.grift_base.specs.Shelf.{asked_after};

use grift_base::lists::{Bytes, CallList, Name, NamedFiles, OutOfMemory};
use grift_base::shelves::{LoadFault, MemShelf, Shelf};
use std::alloc::Global;

// Adds a file.
fn put_file(
    alloc: Global,
    files: &mut NamedFiles,
    name: &[u8],
    bytes: &[u8],
) -> Result<(), OutOfMemory> {
    let name = Name::from_slice(alloc, name)?;
    let bytes = Bytes::from_slice(alloc, bytes)?;
    files.push((name, bytes))
}

// A shelf with the files `a`, of three bytes, and again `a`, of one; the second load fails.
fn small_shelf(alloc: Global) -> Result<MemShelf, OutOfMemory> {
    let mut files = NamedFiles::new(alloc);
    for (name, bytes) in [(b"a", b"xyz".as_slice()), (b"a", b"w")] {
        put_file(alloc, &mut files, name, bytes)?;
    }
    let failing = CallList::from_slice(alloc, &[1])?;
    Ok(MemShelf::new(alloc, files, failing))
}

// How long a file is, of any shelf.
fn length_of<S: Shelf>(
    alloc: Global,
    shelf: &mut S,
    name: &str,
    max: usize,
) -> Result<u64, LoadFault>
    ensures told { IfOk result (λ n. IfSome (S.holds shelf.old name.now) (λ bytes. n ≡ length bytes)) }
    ensures too_long { IsErrOf result LoadFault.TooLong
        → IfSome (S.holds shelf.old name.now) (λ bytes. max < length bytes) }
    ensures failed { IsErrOf result LoadFault.Failed → S.fault_count shelf.new ≡ next_count (S.fault_count shelf.old) }
    ensures names { S.asked shelf.new ≡ option_map (asked_after result name.now) (S.asked shelf.old) }
{
    let loaded = shelf.load(alloc, name, max)?;
    Ok(loaded.len() as u64)
}

// Loads of the files of `small_shelf`, one after another: the name, the most bytes, the length that is told, and how
// many loads have failed then.
const LOADS: &[(&str, usize, Result<u64, LoadFault>, u64)] = &[
    ("a", 3, Ok(3), 0),
    ("a", 3, Err(LoadFault::Failed), 1),
    ("a", 2, Err(LoadFault::TooLong), 1),
    ("b", 3, Err(LoadFault::Failed), 2),
    ("a", 4, Ok(3), 2),
];

// Whether each load of a shelf is as it is told.
fn are_told(alloc: Global, shelf: &mut MemShelf) -> bool {
    let mut all = true;
    for (name, max, wanted, faults) in LOADS {
        let answer = length_of(alloc, shelf, name, *max);
        all = all && (answer, shelf.faults()) == (*wanted, *faults);
    }
    all
}

// The same of a new shelf.
fn loads_are_told(alloc: Global) -> Result<bool, OutOfMemory> {
    let mut shelf = small_shelf(alloc)?;
    Ok(are_told(alloc, &mut shelf))
}

// Whether a load of the file `a` gives these bytes.
fn loads_bytes(alloc: Global, shelf: &mut MemShelf, bytes: &[u8]) -> bool {
    match shelf.load(alloc, "a", 3) {
        Ok(loaded) => loaded.as_slice() == bytes,
        Err(_fault) => false,
    }
}

// Whether the first load gives the bytes of the first file.
fn bytes_are_loaded(alloc: Global) -> Result<bool, OutOfMemory> {
    let mut shelf = small_shelf(alloc)?;
    Ok(loads_bytes(alloc, &mut shelf, b"xyz"))
}

#[test]
fn loads(rt: HostRuntime) {
    assert!(rt; matches!(loads_are_told(rt.alloc()), Ok(true)));
    assert!(rt; matches!(bytes_are_loaded(rt.alloc()), Ok(true)));
}

// The names that a shelf is asked for, in order.
const NAMES: &[&str] = &["a", "a", "b"];

// Whether it keeps them.
fn keeps_names(shelf: &MemShelf) -> bool {
    let mut all = shelf.asked().len() == 3;
    for (name, asked) in NAMES.iter().zip(shelf.asked().as_slice()) {
        all = all && asked.as_slice() == name.as_bytes();
    }
    all
}

// Whether a new shelf keeps them when it was asked.
fn names_are_kept(alloc: Global) -> Result<bool, OutOfMemory> {
    let mut shelf = small_shelf(alloc)?;
    for name in NAMES {
        let _answer = shelf.load(alloc, name, 3);
    }
    Ok(keeps_names(&shelf))
}

#[test]
fn keeps_the_names(rt: HostRuntime) {
    assert!(rt; matches!(names_are_kept(rt.alloc()), Ok(true)));
}
