// Whether programs are closed.

ghost use Rattle.std.specs.Prelude.{◌≡◌, ◌&&◌, length, slice_get};
ghost use Rattle.flat_ir.specs.Closed.{begins_group, body_bound, each_closed, is_next, operand_bound, operands_bound};
ghost use Rattle.flat_ir.specs.Closed.{operation_bound, proc_closed, takes_nothing};
ghost use Rattle.flat_ir.specs.Views.{body_of, proc_of, procs_of};

use crate::code::{FlatBody, Operand, Operands, Operation};
use crate::programs::{FlatProc, FlatProcs};

/// The most parameters of a procedure, and the most arguments of a call.
const MOST_ARGUMENTS: u32 = 6;

/// The most parts of a tuple.
const MOST_PARTS: u64 = 8;

/// The most operands of an operator.
const MOST_OPERANDS: u64 = 8;

/// What a procedure knows beside its local names: how many names it has captured, and how many functions its group has.
#[derive(Clone, Copy, PartialEq, Eq)]
struct Known {
    captured: u32,
    group: u32,
}

impl Known {
    // Whether an operand is bound, where the local names below this level are.
    fn operand_bound(self, depth: u64, operand: Operand) -> bool
        ensures { result ≡ operand_bound self.captured self.group depth operand }
    {
        match operand {
            Operand::Local(i) => (i as u64) < depth,
            Operand::Captured(i) => i < self.captured,
            Operand::Sibling(i) => i < self.group,
            Operand::Int(_) | Operand::Bool(_) | Operand::Unit => true,
        }
    }

    // Whether all these operands are bound.
    fn operands_bound(self, depth: u64, operands: &Operands) -> bool
        ensures { result ≡ operands_bound self.captured self.group depth operands.now }
    {
        for operand in operands.as_slice() {
            if !self.operand_bound(depth, *operand) {
                return false;
            }
        }
        true
    }

    // Whether what an operation names is bound, an operator has 8 operands at most, and a tuple has 1 to 8 parts. The
    // number of a part and a label always have as many bits as are asked for.
    fn operation_bound(self, depth: u64, operation: &Operation) -> bool
        ensures { result ≡ operation_bound self.captured self.group depth operation.now }
    {
        match operation {
            Operation::Move(o) | Operation::Cast(o, _) | Operation::Proj(o, _) => {
                self.operand_bound(depth, *o)
            }
            Operation::ProjDyn(o, part, label) => {
                let _part = *part;
                let _label = label.0;
                self.operand_bound(depth, *o)
            }
            Operation::Prim(_, operands) => {
                self.operands_bound(depth, operands) && operands.len() <= MOST_OPERANDS
            }
            Operation::Tuple(parts) => {
                self.operands_bound(depth, parts) && 1 <= parts.len() && parts.len() <= MOST_PARTS
            }
        }
    }

    // Whether a body is closed, where the local names below this level are bound. A recursion into inner bodies alone.
    #[cycle(bodies)]
    fn body_bound(self, procs: &FlatProcs, first_free: u64, body: &FlatBody) -> bool
        ensures { result ≡ body_bound (procs_of procs.now) self.captured self.group first_free (body_of body.now) }
    {
        let mut depth = first_free;
        let mut left = body;
        loop {
            match left {
                FlatBody::Give(operation) => return self.operation_bound(depth, operation),
                FlatBody::Call(function, arguments) => {
                    return self.operand_bound(depth, *function)
                        && self.operands_bound(depth, arguments)
                        && arguments.len() <= MOST_ARGUMENTS as u64;
                }
                FlatBody::Choose(operand, on_true, on_false) => {
                    return self.operand_bound(depth, *operand)
                        && self.body_bound(procs, depth, on_true)
                        && self.body_bound(procs, depth, on_false);
                }
                FlatBody::LetBody(slot, inner, rest) => {
                    if *slot as u64 != depth || !self.body_bound(procs, depth, inner) {
                        return false;
                    }
                    depth += 1;
                    left = rest;
                }
                FlatBody::LetGroup(slot, first, count, captured, rest) => {
                    if *slot as u64 != depth
                        || !self.group_bound(procs, depth, *first, *count, captured)
                    {
                        return false;
                    }
                    depth += *count as u64;
                    left = rest;
                }
            }
        }
    }

    // Whether a group begins at a procedure, and what it captures is bound.
    fn group_bound(
        self,
        procs: &FlatProcs,
        depth: u64,
        first: u32,
        count: u32,
        captured: &Operands,
    ) -> bool
        ensures { result ≡ (begins_group (slice_get (procs_of procs.now) first) count (length captured.now)
            && operands_bound self.captured self.group depth captured.now) }
    {
        begins_group(procs, first, count, captured.len()) && self.operands_bound(depth, captured)
    }
}

// Whether a group of so many functions with so many captured names begins at this procedure.
fn begins_group(procs: &FlatProcs, first: u32, count: u32, captured: u64) -> bool
    ensures { result ≡ begins_group (slice_get (procs_of procs.now) first) count captured }
{
    match procs.get(first as u64) {
        Some(proc) => {
            proc.place == 0 && 0 < count && proc.group == count && proc.captured as u64 == captured
        }
        None => false,
    }
}

// Whether the first of these procedures is the next function of the group of this one.
fn is_next(behind: &[FlatProc], proc: &FlatProc) -> bool
    ensures { result ≡ is_next (slice_get (procs_of behind.now) 0) (proc_of proc.now) }
{
    match behind.first() {
        Some(next) => {
            next.place as u64 == proc.place as u64 + 1
                && next.group == proc.group
                && next.captured == proc.captured
        }
        None => false,
    }
}

// Whether a procedure is closed, behind which these stand.
fn proc_closed(procs: &FlatProcs, behind: &[FlatProc], proc: &FlatProc) -> bool
    ensures { result ≡ proc_closed (procs_of procs.now) (slice_get (procs_of behind.now) 0) (proc_of proc.now) }
{
    let known = Known {
        captured: proc.captured,
        group: proc.group,
    };
    proc.params <= MOST_ARGUMENTS
        && (proc.group as u64 <= proc.place as u64 + 1 || is_next(behind, proc))
        && known.body_bound(procs, proc.params as u64, &proc.body)
}

/// Whether each procedure of a program is closed.
pub fn each_closed(procs: &FlatProcs) -> bool
    ensures { result ≡ each_closed (procs_of procs.now) (procs_of procs.now) }
{
    let mut left = procs.as_slice();
    while let [proc, rest @ ..] = left {
        if !proc_closed(procs, rest, proc) {
            return false;
        }
        left = rest;
    }
    true
}

/// Whether the procedure of a number is there, has no parameters and no captured names, and belongs to no group.
pub fn takes_nothing(procs: &FlatProcs, number: u32) -> bool
    ensures { result ≡ takes_nothing (slice_get (procs_of procs.now) number) }
{
    match procs.get(number as u64) {
        Some(proc) => proc.params == 0 && proc.captured == 0 && proc.group == 0,
        None => false,
    }
}
