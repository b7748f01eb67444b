// The forms of the language: from s-expressions to programs.
#![tactic(auto)]

ghost use Rattle.std.specs.Prelude.{◌≡◌, ◌≤◌, ◌+◌, ◌*◌, IfOk, IfErr};
ghost use Rattle.sexpr_reader.specs.Datum.{depth_of};
ghost use Rattle.sexpr_reader.specs.View.{datums_of};
ghost use Rattle.form_table.specs.Marked.{all_marked, how_many};
ghost use Rattle.surface_trees.specs.Views.{expr_of};
ghost use Rattle.form_table.specs.Depth.{depth};
ghost use Rattle.form_table.specs.Freshness.{BindsFreshOnce};
ghost use Rattle.form_table.specs.Programs.{AreExpr, IsFault};

mod collect;
mod elements;
mod forms;
mod operands;
mod params;
mod programs;
mod repeats;
mod tops;
mod type_forms;

use crate::programs::whole;
use crate::tops::parts;
use grift_base::refusals::FrontFault;
use sexpr_reader::sexps::SexpList;
use std::alloc::Global;
use surface_trees::exprs::Program;

/// The program that these s-expressions are, or the first refusal on the way through them from left to right.
pub fn parse_program(alloc: Global, forms: &SexpList) -> Result<Program, FrontFault>
    ensures program { IfOk result (λ program. AreExpr (all_marked (datums_of forms.now)) (expr_of program.body)) }
    ensures count { IfOk result (λ program. program.forms ≡ how_many (all_marked (datums_of forms.now))) }
    ensures fresh { IfOk result (λ program. BindsFreshOnce (expr_of program.body)) }
    ensures shallow { IfOk result (λ program. depth (expr_of program.body)
        ≤ 7 * depth_of (datums_of forms.now) + program.forms + 1) }
    ensures refused { IfErr result (IsFault (all_marked (datums_of forms.now))) }
{
    let mut names = 0;
    let parts = parts(alloc, &mut names, forms)?;
    let count = parts.len() as u32;
    let body = Box::into_inner(whole(alloc, parts)?);
    Ok(Program { body, forms: count })
}
