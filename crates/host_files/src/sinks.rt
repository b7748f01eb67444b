// Streams and the files of the system as sinks.

ghost use Rattle.std.specs.Prelude.{◌≡◌, None, IsSome, OnOk, option_and_then, if◌then◌else◌};
ghost use Rattle.grift_base.specs.Outside.{Counts, next_count};
ghost use Rattle.grift_base.specs.Sink.{Puts, put_failed};
ghost use Rattle.host_files.specs.Streams.{PutsInto};

use grift_base::sinks::{Sink, SinkFault};
use std::fs::{self, OpenFile};
use std::io::{self, Stderr, Stdout, Write};
use std::rt::Files;

/// A sink that writes to a stream. A put fails where the stream fails, or takes none of the bytes that are left.
#[derive(Drop)]
pub struct StreamSink<W> {
    stream: W,
    faults: u64,
}

/// The standard output as a sink.
pub type OutSink = StreamSink<Stdout>;

/// The standard error as a sink.
pub type ErrSink = StreamSink<Stderr>;

impl<W> StreamSink<W> {
    /// A sink into this stream, into which no put failed yet.
    pub fn new(stream: W) -> StreamSink<W>
        ensures { result.faults ≡ 0 }
    {
        StreamSink { stream, faults: 0 }
    }
}

impl<W: Write> Sink for StreamSink<W> {
    ghost written = { λ _. None };

    ghost fault_count = { λ sink. sink.faults };

    fn put(&mut self, bytes: &[u8]) -> Result<(), SinkFault>
        ensures stream { PutsInto bytes.now result (W.contents self.old.stream) (W.contents self.new.stream) }
        ensures count { Counts (put_failed result) self.old.faults self.new.faults }
    {
        let answer = write_whole(&mut self.stream, bytes);
        self.faults = faults_after(self.faults, answer);
        answer
    }

    fn faults(&self) -> u64 {
        self.faults
    }
}

/// A sink that writes to the file at a path. The first put makes the file, and empties one that is there; it fails
/// where that fails, and then the next put tries it anew. A put that fails half-way leaves in the file what it wrote.
#[derive(Drop)]
pub struct FileSink<'a, F: Files> {
    files: F,
    path: &'a str,
    file: Option<F::File>,
    faults: u64,
}

impl<'a, F: Files> FileSink<'a, F> {
    /// A sink to the file at this path, into which no put failed yet. The file isn't made here.
    pub fn new(files: F, path: &'a str) -> FileSink<'a, F>
        ensures faults { result.faults ≡ 0 }
        ensures path { result.path.now ≡ path.now }
        ensures file { result.file ≡ None }
    {
        FileSink {
            files,
            path,
            file: None,
            faults: 0,
        }
    }
}

impl<'a, F: Files> Sink for FileSink<'a, F> {
    ghost written = { λ _. None };

    ghost fault_count = { λ sink. sink.faults };

    fn put(&mut self, bytes: &[u8]) -> Result<(), SinkFault>
        ensures puts { Puts bytes.now result (record {
          written = None;
          written_after = None;
          faults = self.old.faults;
          faults_after = self.new.faults;
        }) }
        ensures made { OnOk result (IsSome self.new.file) }
        ensures kept { IsSome self.old.file → IsSome self.new.file }
        ensures path { self.new.path.now ≡ self.old.path.now }
        ensures file { PutsInto bytes.now result
            (option_and_then F.File.contents self.old.file)
            (option_and_then F.File.contents self.new.file) }
    {
        let answer = put_into_file(&self.files, self.path, &mut self.file, bytes);
        self.faults = faults_after(self.faults, answer);
        answer
    }

    fn faults(&self) -> u64 {
        self.faults
    }
}

// Writes these bytes to the end of this file, or of the one that is made at the path where there is none yet.
fn put_into_file<F: Files>(
    files: &F,
    path: &str,
    file: &mut Option<F::File>,
    bytes: &[u8],
) -> Result<(), SinkFault>
    ensures made { OnOk result (IsSome file.new) }
    ensures kept { IsSome file.old → IsSome file.new }
    ensures puts { PutsInto bytes.now result
        (option_and_then F.File.contents file.old)
        (option_and_then F.File.contents file.new) }
{
    if let Some(open) = file {
        return write_whole(open, bytes);
    }
    let mut made = make_file(files, path).map_err(|_| SinkFault::Failed)?;
    let answer = write_whole(&mut made, bytes);
    *file = Some(made);
    answer
}

// Makes the file at this path, or empties the one that is there. Where a standard stream was closed, the system gives
// its number to the file, and what is put into that stream would go there; no clone of a handle has the number of one.
fn make_file<F: Files>(files: &F, path: &str) -> io::Result<F::File> {
    fs::create(files, path)?.try_clone()
}

// The count of faults after a put with this answer.
fn faults_after(faults: u64, answer: Result<(), SinkFault>) -> u64
    ensures { Counts (put_failed answer) faults result }
{
    if answer == Err(SinkFault::Failed) {
        faults.saturating_add(1)
    } else {
        faults
    }
}

// Writes these bytes to the end.
fn write_whole<W: Write>(writer: &mut W, bytes: &[u8]) -> Result<(), SinkFault>
    ensures { PutsInto bytes.now result (W.contents writer.old) (W.contents writer.new) }
{
    let mut done = 0;
    for _ in 0..u64::MAX {
        if done == bytes.len() {
            return writer.flush().map_err(|_| SinkFault::Failed);
        }
        match writer.write(&bytes[done..]) {
            Ok(0) | Err(_) => return Err(SinkFault::Failed),
            Ok(count) => done += count,
        }
    }
    Err(SinkFault::Failed)
}
