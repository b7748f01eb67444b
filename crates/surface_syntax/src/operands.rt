// Forms that are a head and operands: how many there may be, and what they are then.
#![tactic(auto, using(form_table::proofs::Public::walk_steps), unfolding(form_table::specs::Walking::followed_by))]

ghost use Rattle.std.specs.Prelude.{◌≡◌, IfOk};
ghost use Rattle.sexpr_reader.specs.View.{datums_of};
ghost use Rattle.form_table.specs.Marked.{all_marked};
ghost use Rattle.surface_syntax.specs.Forms.{room_of, applied_to};
ghost use Rattle.surface_trees.specs.Views.{expr_of, exprs_of};
ghost use Rattle.form_table.specs.Claims.{Answers};

use derived_forms::nodes::{chain, operator_at, sequence_at, tuple_at};
use form_table::lists::{bad_form, has_length, some};
use form_table::words::operand_count;
use grift_base::lists::OutOfMemory;
use grift_base::operators::PrimOp;
use grift_base::places::Pos;
use grift_base::refusals::FrontFault;
use sexpr_reader::sexps::SexpList;
use std::alloc::Global;
use surface_trees::exprs::{Expr, ExprList};

/// The most parts of a tuple, and the most operands of `and` and `or`.
const MOST_PARTS: u64 = 8;

/// The head of a form whose other elements are operands.
#[derive(Clone, Copy)]
pub enum Head {
    /// `begin`.
    Begin,
    /// `tuple`.
    Tuple,
    /// `and`.
    And,
    /// `or`.
    Or,
    /// An operator.
    Operator(PrimOp),
}

/// How many operands there may be at most, where that is bounded; a refusal where their number is wrong.
pub fn room(head: Head, pos: Pos, operands: &SexpList) -> Result<Option<u64>, FrontFault>
    ensures { Answers result (λ room. room) (room_of head pos (all_marked (datums_of operands.now))) }
{
    match head {
        Head::Begin => {
            some(pos, operands)?;
            Ok(None)
        }
        Head::Tuple => {
            some(pos, operands)?;
            Ok(Some(MOST_PARTS))
        }
        Head::And | Head::Or => Ok(Some(MOST_PARTS)),
        Head::Operator(operator) => {
            if !has_length(operands, operand_count(operator)) {
                return bad_form(pos);
            }
            Ok(None)
        }
    }
}

/// The form with these operands.
pub fn applied_to(
    alloc: Global,
    head: Head,
    pos: Pos,
    operands: ExprList,
) -> Result<Box<Expr>, OutOfMemory>
    ensures { IfOk result (λ e. expr_of e.value ≡ applied_to head pos (exprs_of operands)) }
{
    match head {
        Head::And => chain(alloc, true, pos, operands),
        Head::Or => chain(alloc, false, pos, operands),
        Head::Begin => sequence_at(alloc, pos, operands),
        Head::Tuple => tuple_at(alloc, pos, operands),
        Head::Operator(operator) => operator_at(alloc, pos, operator, operands),
    }
}
