// Calls of the program over a shelf and sinks in memory, as rows of a table tell them.

use crate::tests::words::words_of;
use grift_base::lists::{Bytes, CallList, Name, NamedFiles};
use grift_base::shelves::MemShelf;
use grift_base::sinks::MemSink;
use grift_cli::top::grift;
use std::alloc::Global;
use std::fmt::Write;
use std::process::Abort;

// What a file holds, or what is put.
#[derive(Clone, Copy)]
pub(crate) enum Content {
    // A text.
    Text(&'static str),
    // Bytes that are no text.
    Bytes(&'static [u8]),
    // Texts, each so many times: for `@` stands the number of the copy, for `$` the next one.
    Copies(&'static [(&'static str, u64)]),
    // An image with this code, and neither statics nor labels.
    Image(&'static [u32]),
}

// A call: its words, what the files `a` and `b` hold, and the numbers of the calls at which the shelf and the sinks
// fail. And what it comes to: the status, how many names the shelf is asked for, whether an image is put, and what is
// put on `out` and `err`.
#[derive(Clone, Copy)]
pub(crate) struct Row {
    pub(crate) words: &'static str,
    pub(crate) file: Content,
    pub(crate) input: &'static str,
    pub(crate) shelf_fails: &'static [u64],
    pub(crate) out_fails: &'static [u64],
    pub(crate) err_fails: &'static [u64],
    pub(crate) img_fails: &'static [u64],
    pub(crate) status: u8,
    pub(crate) asked: u64,
    pub(crate) img: bool,
    pub(crate) out: Content,
    pub(crate) err: &'static str,
}

// What a call left.
#[derive(Drop)]
pub(crate) struct Left {
    pub(crate) status: u8,
    pub(crate) shelf: MemShelf,
    pub(crate) out: MemSink,
    pub(crate) err: MemSink,
    pub(crate) img: MemSink,
}

// Adds a copy of a text, told its number.
fn push_copy(rt: &impl Abort, all: &mut String, text: &str, number: u64) {
    for letter in text.chars() {
        match letter {
            '@' => write!(all, "{number}").expect(rt, "memory"),
            '$' => write!(all, "{}", number.wrapping_add(1)).expect(rt, "memory"),
            _ => all.push(letter).expect(rt, "memory"),
        }
    }
}

fn push_copies(rt: &impl Abort, all: &mut String, text: &str, count: u64) {
    for number in 0..count {
        push_copy(rt, all, text, number);
    }
}

fn copies(rt: &impl Abort, alloc: Global, parts: &[(&str, u64)]) -> Vec<u8> {
    let mut all = String::new(alloc);
    for (text, count) in parts {
        push_copies(rt, &mut all, text, *count);
    }
    Vec::from_slice(alloc, all.as_bytes()).expect(rt, "memory")
}

// The header of an image with so many bytes of code, and the code.
fn image_of_code(rt: &impl Abort, alloc: Global, code: &[u32]) -> Vec<u8> {
    let bytes = 4 * code.len() as u64;
    let mut image = Vec::from_slice(alloc, b"GRIFTRV1").expect(rt, "memory");
    for field in [64 + bytes, 0, bytes, 0, 0, 0, 0] {
        image
            .extend_from_slice(&field.to_le_bytes())
            .expect(rt, "memory");
    }
    for word in code {
        image
            .extend_from_slice(&word.to_le_bytes())
            .expect(rt, "memory");
    }
    image
}

// The bytes of a content.
pub(crate) fn bytes_of(rt: &impl Abort, alloc: Global, told: Content) -> Vec<u8> {
    match told {
        Content::Text(text) => Vec::from_slice(alloc, text.as_bytes()).expect(rt, "memory"),
        Content::Bytes(bytes) => Vec::from_slice(alloc, bytes).expect(rt, "memory"),
        Content::Copies(parts) => copies(rt, alloc, parts),
        Content::Image(code) => image_of_code(rt, alloc, code),
    }
}

// Puts a file into a list of files.
fn put_file(rt: &impl Abort, alloc: Global, files: &mut NamedFiles, name: &str, held: &[u8]) {
    let name = Name::from_slice(alloc, name.as_bytes()).expect(rt, "memory");
    let held = Bytes::from_slice(alloc, held).expect(rt, "memory");
    files.push((name, held)).expect(rt, "memory");
}

fn shelf_of(rt: &impl Abort, alloc: Global, row: &Row, file: &[u8]) -> MemShelf {
    let mut files = NamedFiles::new(alloc);
    put_file(rt, alloc, &mut files, "a", file);
    put_file(rt, alloc, &mut files, "b", row.input.as_bytes());
    let failing = CallList::from_slice(alloc, row.shelf_fails).expect(rt, "memory");
    MemShelf::new(alloc, files, failing)
}

fn sink_failing(rt: &impl Abort, alloc: Global, calls: &[u64]) -> MemSink {
    let failing = CallList::from_slice(alloc, calls).expect(rt, "memory");
    MemSink::new(alloc, failing).expect(rt, "memory")
}

// Makes the call of a row, where the file `a` holds this.
pub(crate) fn call(rt: &impl Abort, alloc: Global, row: &Row, file: &[u8]) -> Left {
    call_by(rt, alloc, row.words, row, file)
}

// Makes the call of a row by these words, where the file `a` holds this.
pub(crate) fn call_by(rt: &impl Abort, alloc: Global, words: &str, row: &Row, file: &[u8]) -> Left {
    let words = words_of(rt, alloc, words);
    let mut shelf = shelf_of(rt, alloc, row, file);
    let mut out = sink_failing(rt, alloc, row.out_fails);
    let mut err = sink_failing(rt, alloc, row.err_fails);
    let mut img = sink_failing(rt, alloc, row.img_fails);
    let status = grift(
        alloc,
        words.as_slice(),
        &mut shelf,
        &mut out,
        &mut err,
        &mut img,
    );
    Left {
        status,
        shelf,
        out,
        err,
        img,
    }
}

// Whether a sink holds what is told.
fn holds(rt: &impl Abort, alloc: Global, sink: &MemSink, told: Content) -> bool {
    let bytes = bytes_of(rt, alloc, told);
    sink.bytes() == bytes.as_slice()
}

// Whether what a call left is what its row tells.
fn is_told(rt: &impl Abort, alloc: Global, left: &Left, row: &Row) -> bool {
    left.status == row.status
        && left.shelf.asked().len() == row.asked
        && left.img.bytes().is_empty() != row.img
        && left.err.bytes() == row.err.as_bytes()
        && holds(rt, alloc, &left.out, row.out)
}

// Whether the call of a row, where the file `a` holds this, comes to what the row tells.
pub(crate) fn comes_to(rt: &impl Abort, alloc: Global, row: &Row, file: &[u8]) -> bool {
    let left = call_by(rt, alloc, row.words, row, file);
    is_told(rt, alloc, &left, row)
}
