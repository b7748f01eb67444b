// Whether code is closed. Windows of 64 words are looked at one after the other, so that no memory is needed.

ghost use Rattle.std.specs.Prelude.{◌≡◌, ◌==◌, nat_lt, IsTrue, slice_get};
ghost use Rattle.low_ir.specs.Views.{procs_of, proc_of, code_of};
ghost use Rattle.low_ir.specs.Closed.{behind, reads, is_read, are_read, names_fit, is_there, leaves, takes_words};
ghost use Rattle.low_ir.specs.Closed.{takes_none, all_words, proc_closed, each_closed};
ghost use Rattle.low_ir.specs.Windows.{windows, covers, has, also, both, window_from};

use crate::code::{LowCode, LowSource, LowSources};
use crate::programs::{LowProc, LowProcs};

/// The most words that a procedure takes, or that a call hands on.
const MOST_WORDS: u32 = 8;

/// An offset is below this number of bytes.
const OFFSETS_END: u32 = 2048;

/// What is built has fewer than this number of words.
const BUILT_END: u64 = 256;

/// Words of a procedure from one on, 64 of them: bit i tells whether word `from + i` is set.
#[derive(Clone, Copy)]
pub struct Window {
    pub from: u32,
    pub set: u64,
}

impl Window {
    // Whether it tells of a word.
    fn covers(self, word: u32) -> bool
        ensures { result ≡ covers self.from word }
    {
        word >= self.from && word - self.from < 64
    }

    // Whether a word may be read as far as it tells.
    fn has(self, word: u32) -> bool
        ensures { result ≡ has self word }
    {
        !self.covers(word) || (self.set >> (word - self.from)) & 1 == 1
    }

    // Also this word is set.
    fn also(self, word: u32) -> Window
        ensures { result ≡ also word self }
    {
        if !self.covers(word) {
            return self;
        }
        Window {
            from: self.from,
            set: self.set | 1 << (word - self.from),
        }
    }

    // The words that are set in both.
    fn both(self, other: Window) -> Window
        ensures { result ≡ both self other }
    {
        Window {
            from: self.from,
            set: self.set & other.set,
        }
    }

    // The window from a word on in which the first so many words are set.
    fn new(from: u32, params: u32) -> Window
        ensures { result ≡ window_from from params }
    {
        let mut window = Window { from, set: 0 };
        for word in 0..params {
            window = window.also(word);
        }
        window
    }

    // Whether a source may be read in a procedure of so many words.
    fn is_read(self, words: u32, source: LowSource) -> bool
        ensures { result ≡ is_read windows words self source }
    {
        match source {
            LowSource::Word(word) => word < words && self.has(word),
            LowSource::Number(_) => true,
        }
    }

    // Whether all these sources may be read.
    fn are_read(self, words: u32, sources: &LowSources) -> bool
        ensures { result ≡ are_read windows words self sources.now }
    {
        for source in sources.as_slice() {
            if !self.is_read(words, *source) {
                return false;
            }
        }
        true
    }

    // Whether what a code reads first may be read.
    fn fits(self, words: u32, code: &LowCode) -> bool
        ensures { result ≡ are_read windows words self (reads (code_of code.now)) }
    {
        match code {
            LowCode::Done | LowCode::CodeOf(..) => true,
            LowCode::Set(_, a, _) => self.is_read(words, *a),
            LowCode::Compute(_, _, a, b, _) => self.is_read(words, *a) && self.is_read(words, *b),
            LowCode::Load(_, a, _, _) => self.is_read(words, *a),
            LowCode::Store(b, a, _, _) => self.is_read(words, *b) && self.is_read(words, *a),
            LowCode::Build(_, args, _) => self.are_read(words, args),
            LowCode::Request(_, a, _) => self.is_read(words, *a),
            LowCode::Take(a, _) => self.is_read(words, *a),
            LowCode::Environment(_, a, b, _, _, _) => self.is_read(words, *a)
                && self.is_read(words, *b),
            LowCode::Call(_, _, args, _) => self.are_read(words, args),
            LowCode::CallAt(_, f, args, _) => self.is_read(words, *f) && self.are_read(words, args),
            LowCode::If(_, a, b, _, _, _) => self.is_read(words, *a) && self.is_read(words, *b),
            LowCode::Return(a) => self.is_read(words, *a),
            LowCode::TailCall(_, args) => self.are_read(words, args),
            LowCode::TailCallAt(f, args) => self.is_read(words, *f) && self.are_read(words, args),
        }
    }
}

// Whether a procedure is there and takes so many words.
fn takes(procs: &LowProcs, number: u32, args: &LowSources) -> bool
    ensures { result ≡ takes_words (slice_get (procs_of procs.now) number) args.now }
{
    match procs.get(number as u64) {
        None => false,
        Some(proc) => args.len() == proc.params as u64,
    }
}

// Whether what a code names first is there, and no number in it is too large.
fn names_fit(procs: &LowProcs, words: u32, code: &LowCode) -> bool
    ensures { result ≡ names_fit (procs_of procs.now) words (code_of code.now) }
{
    match code {
        LowCode::Done | LowCode::Take(..) | LowCode::If(..) | LowCode::Return(_) => true,
        LowCode::Set(d, _, _) | LowCode::Compute(_, d, _, _, _) | LowCode::Request(d, _, _) => *d
            < words,
        LowCode::Load(d, _, offset, _) => *d < words && *offset < OFFSETS_END,
        LowCode::Store(_, _, offset, _) => *offset < OFFSETS_END,
        LowCode::CodeOf(d, k, _) => *d < words && (*k as u64) < procs.len(),
        LowCode::Build(d, args, _) => *d < words && args.len() < BUILT_END,
        LowCode::Environment(_, _, _, d, e, _) => *d < words && *e < words,
        LowCode::Call(d, k, args, _) => *d < words && takes(procs, *k, args),
        LowCode::CallAt(d, _, args, _) => *d < words && args.len() <= MOST_WORDS as u64,
        LowCode::TailCall(k, args) => takes(procs, *k, args),
        LowCode::TailCallAt(_, args) => args.len() <= MOST_WORDS as u64,
    }
}

// What is known behind a code, if all of it may be done. A recursion into branches alone.
fn behind(procs: &LowProcs, words: u32, window: Window, code: &LowCode) -> Option<Window>
    ensures { result ≡ behind windows (procs_of procs.now) words window (code_of code.now) }
{
    let mut known = window;
    let mut left = code;
    loop {
        if !(known.fits(words, left) && names_fit(procs, words, left)) {
            return None;
        }
        match left {
            LowCode::Done => return Some(known),
            LowCode::Set(d, _, rest)
            | LowCode::Compute(_, d, _, _, rest)
            | LowCode::Load(d, _, _, rest)
            | LowCode::CodeOf(d, _, rest)
            | LowCode::Build(d, _, rest)
            | LowCode::Request(d, _, rest)
            | LowCode::Call(d, _, _, rest)
            | LowCode::CallAt(d, _, _, rest) => {
                known = known.also(*d);
                left = rest;
            }
            LowCode::Environment(_, _, _, d, e, rest) => {
                known = known.also(*d).also(*e);
                left = rest;
            }
            LowCode::Store(_, _, _, rest) | LowCode::Take(_, rest) => left = rest,
            LowCode::If(_, _, _, one, other, rest) => {
                let where_it_holds = behind(procs, words, known, one)?;
                let elsewhere = behind(procs, words, known, other)?;
                known = where_it_holds.both(elsewhere);
                left = rest;
            }
            LowCode::Return(_) | LowCode::TailCall(..) | LowCode::TailCallAt(..) => return Some(
                known,
            ),
        }
    }
}

// Whether a code never comes to its end. A recursion into branches alone.
fn leaves(code: &LowCode) -> bool
    ensures { result ≡ leaves (code_of code.now) }
{
    let mut left = code;
    loop {
        match left {
            LowCode::Done => return false,
            LowCode::Set(_, _, rest)
            | LowCode::Compute(_, _, _, _, rest)
            | LowCode::Load(_, _, _, rest)
            | LowCode::Store(_, _, _, rest)
            | LowCode::CodeOf(_, _, rest)
            | LowCode::Build(_, _, rest)
            | LowCode::Request(_, _, rest)
            | LowCode::Take(_, rest)
            | LowCode::Environment(_, _, _, _, _, rest)
            | LowCode::Call(_, _, _, rest)
            | LowCode::CallAt(_, _, _, rest) => left = rest,
            LowCode::If(_, _, _, one, other, rest) => {
                if leaves(one) && leaves(other) {
                    return true;
                }
                left = rest;
            }
            LowCode::Return(_) | LowCode::TailCall(..) | LowCode::TailCallAt(..) => return true,
        }
    }
}

// Whether each word of a procedure is set before it is read, and what its code names is there.
fn is_sound(procs: &LowProcs, proc: &LowProc) -> bool
    ensures { result ≡ is_there (behind all_words (procs_of procs.now) proc.now.words (λ i. nat_lt i proc.now.params)
        (code_of proc.now.code)) }
{
    let mut from = 0;
    loop {
        if behind(
            procs,
            proc.words,
            Window::new(from, proc.params),
            &proc.code,
        )
        .is_none()
        {
            return false;
        }
        if proc.words - from <= 64 {
            return true;
        }
        from += 64;
    }
}

// Whether a procedure is closed.
fn proc_closed(procs: &LowProcs, proc: &LowProc) -> bool
    ensures { result ≡ proc_closed (procs_of procs.now) (proc_of proc.now) }
{
    proc.params <= MOST_WORDS
        && proc.params <= proc.words
        && leaves(&proc.code)
        && is_sound(procs, proc)
}

/// Whether each procedure of a program is closed.
pub fn each_closed(procs: &LowProcs) -> bool
    ensures { result ≡ each_closed (procs_of procs.now) (procs_of procs.now) }
{
    for proc in procs.as_slice() {
        if !proc_closed(procs, proc) {
            return false;
        }
    }
    true
}

/// Whether the procedure of a number is there and takes no words.
pub fn takes_none(procs: &LowProcs, number: u32) -> bool
    ensures { result ≡ takes_none (slice_get (procs_of procs.now) number) }
{
    match procs.get(number as u64) {
        None => false,
        Some(proc) => proc.params == 0,
    }
}
