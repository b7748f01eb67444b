// The program: it compiles a file and runs it.
#![tactic(auto)]

use command_words::commands::image_name;
use grift_base::lists::OutOfMemory;
use grift_base::sinks::{DropSink, Sink};
use grift_cli::top::{grift, put_want_of_memory};
use host_files::shelf::FileShelf;
use host_files::sinks::{ErrSink, FileSink, OutSink};
use std::env;
use std::io::ErrorKind;
use std::process::ExitCode;

fn main(rt: HostRuntime) -> ExitCode {
    let Ok(words) = words_of(rt) else {
        return ExitCode::from(put_want_of_memory(&mut ErrSink::new(rt.stderr())));
    };
    let status = match image_name(words.as_slice()) {
        Some(name) => run(rt, words.as_slice(), &mut FileSink::new(rt, name)),
        None => run(rt, words.as_slice(), &mut DropSink::new()),
    };
    ExitCode::from(status)
}

// Does what the words say, with this sink for an image, and answers the status. It is 9 where a put fails half-way, be
// it the image's: then the file keeps what was written before.
fn run<I: Sink>(rt: HostRuntime, words: &[String], img: &mut I) -> u8 {
    let mut shelf = FileShelf::new(rt);
    let mut out = OutSink::new(rt.stdout());
    let mut err = ErrSink::new(rt.stderr());
    grift(rt.alloc(), words, &mut shelf, &mut out, &mut err, img)
}

// The arguments after the program's name. Where one of them isn't text there are none, which are faulty words.
fn words_of(rt: HostRuntime) -> Result<Vec<String>, OutOfMemory> {
    let args = match env::args(&rt) {
        Ok(args) => args,
        Err(error) if error.kind() == ErrorKind::OutOfMemory => return Err(OutOfMemory),
        Err(_) => return Ok(Vec::new(rt.alloc())),
    };
    let mut words = Vec::new(rt.alloc());
    for word in args.skip(1) {
        words.push(word)?;
    }
    Ok(words)
}
