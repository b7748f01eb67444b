// Programs of numbered procedures.

ghost use Rattle.std.specs.Prelude.{◌≡◌};
ghost use Rattle.flat_ir.specs.{Closed.{is_closed}, Views.{procs_of}};

use crate::closing::{each_closed, takes_nothing};
use crate::code::FlatBody;
use core_calc::drop_fields;
use grift_base::lists::Items;
use grift_base::places::TypeId;

/// A procedure: how many parameters it takes, how many names it has captured, how many functions its group has, its
/// place among these, and its body. The procedure that a program begins with belongs to no group.
pub struct FlatProc {
    pub params: u32,
    pub captured: u32,
    pub group: u32,
    pub place: u32,
    pub body: FlatBody,
}

// By hand, so that each place where one goes is one call.
impl Drop for FlatProc {
    fn drop(self) {
        drop_fields!(self, FlatProc, body; params, captured, group, place)
    }
}

/// Procedures by their numbers.
pub type FlatProcs = Items<FlatProc>;

/// A program: its procedures, the number of the one that it begins with, and the type of its answer.
pub struct FlatProgram {
    pub procs: FlatProcs,
    pub entry: u32,
    pub answer: TypeId,
}

// By hand, so that each place where one goes is one call.
impl Drop for FlatProgram {
    fn drop(self) {
        drop_fields!(self, FlatProgram, procs; entry, answer)
    }
}

impl FlatProgram {
    /// Whether each name is bound before it is used and has its level (parameters from 0 on, each name bound inside the
    /// next one); whether each integer and each number of a part of what is in Dyn has 64 bits, and each label 32;
    /// whether each procedure that is named by its number is there, and a group's functions stand one behind the other,
    /// with as many captured names as the group is given; whether no procedure has more than 6 parameters, no call more
    /// than 6 arguments and no operator more than 8 operands; whether every tuple has 1 to 8 parts; and whether the
    /// procedure that the program begins with has no parameters and no captured names, and belongs to no group.
    pub fn is_closed(&self) -> bool
        ensures { result ≡ is_closed (procs_of self.now.procs) self.now.entry }
    {
        takes_nothing(&self.procs, self.entry) && each_closed(&self.procs)
    }
}
