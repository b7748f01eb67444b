// Programs of procedures over words.

ghost use Rattle.std.specs.Prelude.{◌≡◌};
ghost use Rattle.low_ir.specs.Views.{procs_of};
ghost use Rattle.low_ir.specs.Closed.{is_closed};

use crate::closing::{each_closed, takes_none};
use crate::code::LowCode;
use grift_base::lists::Items;
use grift_base::words::Statics;

/// A procedure: how many words it takes, how many it has, of which those that it takes are the first, and its code.
pub struct LowProc {
    pub params: u32,
    pub words: u32,
    pub code: LowCode,
}

// By hand, so that each place where one goes is one call.
impl Drop for LowProc {
    fn drop(self) {
        let LowProc {
            params: _,
            words: _,
            code,
        } = self;
        drop(code);
    }
}

/// Procedures by their numbers.
pub type LowProcs = Items<LowProc>;

/// A program: its procedures, the number of the one that it begins with, and the words that stand before its code.
pub struct LowProgram {
    pub procs: LowProcs,
    pub entry: u32,
    pub statics: Statics,
}

// By hand, so that each place where one goes is one call.
impl Drop for LowProgram {
    fn drop(self) {
        let LowProgram {
            procs,
            entry: _,
            statics,
        } = self;
        drop(procs);
        drop(statics);
    }
}

impl LowProgram {
    /// Whether each word that is read was set before, whatever path is taken, where a branch that leaves counts as one
    /// that goes on with what was set; whether what is named by a number is there; whether no procedure takes and no
    /// call hands on more than eight words, a procedure has the words that it takes, and each call of a numbered
    /// procedure hands on as many as that takes; whether no code comes to its end but behind a branch; whether what is
    /// built has fewer than 256 words, and each offset is below 2,048; and whether the procedure that it begins with
    /// takes none.
    pub fn is_closed(&self) -> bool
        ensures { result ≡ is_closed (procs_of self.now.procs) self.now.entry }
    {
        takes_none(&self.procs, self.entry) && each_closed(&self.procs)
    }
}
