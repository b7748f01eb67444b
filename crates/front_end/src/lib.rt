// From the bytes of a source to its program with all casts.
#![tactic(auto)]

ghost use Rattle.std.specs.Prelude.{◌≡◌, ◌≤◌, IfOk, IfErr, length};
ghost use Rattle.grift_base.specs.Sizes.{source_limit};
ghost use Rattle.core_calc.specs.Typing.{ProgramTermHasType};
ghost use Rattle.core_calc.specs.Views.{term_of};
ghost use Rattle.surface_trees.specs.Views.{expr_of};
ghost use Rattle.cast_rules.specs.Elaboration.{elaborate_program};
ghost use Rattle.cast_insert.specs.Outcomes.{Elaborates, outcome_of};
ghost use Rattle.insert_steps.specs.Views.{entries_of};
ghost use Rattle.front_end.specs.Texts.{HasOutcome, IsFault, IsProgramOf};
ghost use Rattle.front_end.specs.Texts.{EachHasOutcome, OutcomesAreOne, ProgramsAreSources};
ghost use Rattle.front_end.specs.Placed.{PlacesAll};

use cast_insert::insertion::{Elab, insert};
use grift_base::refusals::FrontFault;
use sexpr_reader::read;
use std::alloc::Global;
use surface_syntax::parse_program;
use surface_trees::exprs::Program;
use type_graph::tables::TypeTable;

/// A source that was elaborated: its program, the types, and the program with all casts.
#[derive(Drop)]
pub struct Elaborated {
    pub program: Program,
    pub types: TypeTable,
    pub elab: Elab,
}

/// Reads a source and elaborates its program. What is none is refused for the first fault: of its tokens, else of its
/// forms, else of its elaboration. The answer's term is a program term of its type.
pub fn elaborate_text(alloc: Global, text: &[u8]) -> Result<Elaborated, FrontFault>
    requires { length text.now ≤ source_limit }
    ensures outcome { IfOk result (λ done. HasOutcome text.now (Elaborates (term_of done.elab.core) done.elab.ty.0
        done.types done.elab.labels (entries_of done.elab.casts))) }
    ensures program { IfOk result (λ done.
        IsProgramOf text.now (expr_of done.program.body) done.program.forms) }
    ensures elaborated { IfOk result (λ done. outcome_of (elaborate_program (expr_of done.program.body))
        ≡ Elaborates (term_of done.elab.core) done.elab.ty.0 done.types done.elab.labels
        (entries_of done.elab.casts)) }
    ensures typed { IfOk result (λ done.
        ProgramTermHasType done.types (length done.elab.labels) (term_of done.elab.core) done.elab.ty.0) }
    ensures refused { IfErr result (IsFault text.now) }
{
    let forms = read(alloc, text)?;
    let program = parse_program(alloc, &forms)?;
    let mut types = TypeTable::new(alloc)?;
    let elab = insert(alloc, &program, &mut types)?;
    Ok(Elaborated {
        program,
        types,
        elab,
    })
}

/// What `parse_program` answers on the s-expressions of a text meets the condition that `insert` has on its program.
pub fn programs_that_are_read_can_be_elaborated()
    ensures { ProgramsAreSources }
{}

/// Each text has an outcome, and no more than one: it is elaborated in one way, or refused for one fault at one place.
pub fn a_text_has_one_outcome()
    ensures some { EachHasOutcome }
    ensures one { OutcomesAreOne }
{}

/// What the elaboration makes of a program has an operator only where the program has it, and a cast, or a part of what
/// Dyn holds, only where the list of casts has it.
pub fn elaborated_programs_are_placed()
    ensures { PlacesAll }
{}
