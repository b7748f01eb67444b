// The files and streams of the system, as a shelf and as sinks.

use grift_base::shelves::{LoadFault, Shelf};
use grift_base::sinks::{Sink, SinkFault};
use host_files::shelf::{FileShelf, read_within};
use host_files::sinks::{ErrSink, FileSink, OutSink, StreamSink};
use std::fs;

#[test]
fn reads_within_the_limit(rt: HostRuntime) {
    for (max, wanted) in [
        (2, Err(LoadFault::TooLong)),
        (3, Ok(3)),
        (usize::MAX, Ok(3)),
    ] {
        let mut reader = b"xyz".as_slice();
        let answer = read_within(rt.alloc(), &mut reader, max).map(|loaded| loaded.len());
        assert!(rt; answer == wanted, "up to {max}");
    }
}

#[test]
fn loads_no_missing_file(rt: HostRuntime) {
    let mut shelf = FileShelf::new(rt);
    let answer = shelf.load(rt.alloc(), "no/such/file", 9);
    assert!(rt; answer == Err(LoadFault::Failed));
    assert!(rt; shelf.faults() == 1);
}

#[test]
fn loads_a_file(rt: HostRuntime) {
    let mut shelf = FileShelf::new(rt);
    let loaded = shelf.load(rt.alloc(), "/proc/self/comm", 64);
    assert!(rt; loaded.is_ok_and(|bytes| !bytes.is_empty()));
    assert!(rt; shelf.faults() == 0);
}

#[test]
fn writes_to_the_end(rt: HostRuntime) {
    let mut room = [0u8; 3];
    let mut sink = StreamSink::new(room.as_mut_slice());
    let puts = (sink.put(b"ab"), sink.put(b"c"));
    assert!(rt; puts == (Ok(()), Ok(())) && sink.faults() == 0);
    assert!(rt; room.as_slice() == b"abc".as_slice());
}

#[test]
fn counts_a_stream_that_takes_nothing(rt: HostRuntime) {
    let mut room = [0u8; 2];
    let mut sink = StreamSink::new(room.as_mut_slice());
    let puts = (sink.put(b"abc"), sink.put(b""));
    assert!(rt; puts == (Err(SinkFault::Failed), Ok(())) && sink.faults() == 1);
}

#[test]
fn puts_to_the_streams(rt: HostRuntime) {
    let mut out = OutSink::new(rt.stdout());
    let mut err = ErrSink::new(rt.stderr());
    let puts = (out.put(b""), err.put(b""));
    assert!(rt; puts == (Ok(()), Ok(())) && out.faults() == 0 && err.faults() == 0);
}

// The answers of two puts into the file of this name, and how many of them have failed.
fn two_puts(rt: HostRuntime, path: &str) -> (Result<(), SinkFault>, Result<(), SinkFault>, u64) {
    let mut sink = FileSink::new(rt, path);
    (sink.put(b"ab"), sink.put(b"c"), sink.faults())
}

// No file is made before a put, and the first one leaves nothing of what the file held.
#[test]
fn writes_a_file(rt: HostRuntime) {
    let path = "written_by_a_test";
    fs::write(&rt, path, b"longer than what comes".as_slice()).expect(&rt, "a file");
    drop(FileSink::new(rt, path));
    let before = fs::read(&rt, path).expect(&rt, "a file").len();
    assert!(rt; before == 22, "no file is made before a put");
    assert!(rt; two_puts(rt, path) == (Ok(()), Ok(()), 0));
    let holds = fs::read(&rt, path).expect(&rt, "a file").as_slice() == b"abc".as_slice();
    assert!(rt; holds);
    fs::remove_file(&rt, path).expect(&rt, "a file");
}

#[test]
fn counts_files_that_fail(rt: HostRuntime) {
    let failed = Err(SinkFault::Failed);
    for path in ["no/such/folder", ".", "", "/dev/full"] {
        assert!(rt; two_puts(rt, path) == (failed, failed, 2), "{path}");
    }
}
