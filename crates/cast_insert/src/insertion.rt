// Programs with their casts.
#![tactic(auto, using(cast_rules::proofs::Public::program_answered))]

ghost use Rattle.std.specs.Prelude.{◌≡◌, [], IfErr, IfOk, length};
ghost use Rattle.type_graph.specs.TypeTables.{IsOrderedTable};
ghost use Rattle.core_calc.specs.Typing.{ProgramTermHasType};
ghost use Rattle.core_calc.specs.Views.{term_of};
ghost use Rattle.surface_trees.specs.Views.{expr_of};
ghost use Rattle.cast_rules.specs.Elaboration.{elaborate_program, nothing_yet};
ghost use Rattle.cast_rules.specs.Programs.{IsSource};
ghost use Rattle.cast_insert.specs.Outcomes.{HasRowsAfter, Inserts};
ghost use Rattle.insert_steps.specs.Views.{Answers, typed_of, work_of};

use crate::elaboration::elaborate;
use core_calc::terms::Core;
use grift_base::places::{LabelTable, TypeId};
use grift_base::refusals::FrontFault;
use insert_steps::casts::CastList;
use insert_steps::names::Scopes;
use insert_steps::progress::{Progress, Typed};
use std::alloc::Global;
use std::mem;
use surface_trees::exprs::Program;
use type_graph::tables::TypeTable;

/// A program with its casts: its term and its type, the labels that may be blamed in order of first use, and the
/// casts and parts in the order in which they are formed.
pub struct Elab {
    pub core: Core,
    pub ty: TypeId,
    pub labels: LabelTable,
    pub casts: CastList,
}

// By hand, so that each place where one goes is one call.
impl Drop for Elab {
    fn drop(self) {
        let Elab {
            core,
            ty: _,
            labels,
            casts,
        } = self;
        drop(core);
        drop(labels);
        drop(casts);
    }
}

// The elaboration of a program from nothing on.
fn run(alloc: Global, progress: &mut Progress, program: &Program) -> Result<Typed, FrontFault>
    requires source { IsSource (expr_of program.now.body) }
    requires start { work_of progress.old ≡ nothing_yet }
    ensures answer { Answers result typed_of (work_of progress.new) (elaborate_program (expr_of program.now.body)) }
    ensures table { IsOrderedTable progress.new.types }
{
    let mut scopes = Scopes::new(alloc);
    let done = elaborate(alloc, progress, &mut scopes, &program.body);
    // No row stands twice, and types are trees.
    progress.types.len();
    done
}

/// The elaboration of a program, which fills an empty table of types; or its first refusal. After a refusal the table
/// has the rows that were formed until then, in order, each once. `OutOfMemory` comes where no memory is left, or a
/// table is full: a row of a program that was read is never too wide or too high for its table. After it the table is
/// empty, as before.
pub fn insert(alloc: Global, program: &Program, types: &mut TypeTable) -> Result<Elab, FrontFault>
    requires source { IsSource (expr_of program.now.body) }
    requires empty { types.old ≡ [] }
    ensures answer { Inserts result types.new (elaborate_program (expr_of program.now.body)) }
    ensures typed { IfOk result (λ elab.
        ProgramTermHasType types.new (length elab.labels) (term_of elab.core) elab.ty.0) }
    ensures rows { IfErr result (λ fault.
        HasRowsAfter fault types.new (elaborate_program (expr_of program.now.body))) }
    ensures table { IsOrderedTable types.new }
{
    let mut progress = Progress {
        types: mem::replace(types, TypeTable::new(alloc)?),
        labels: LabelTable::new(alloc),
        casts: CastList::new(alloc),
        next: 0,
    };
    match run(alloc, &mut progress, program) {
        Ok(e) => {
            *types = progress.types;
            Ok(Elab {
                core: Box::into_inner(e.core),
                ty: e.ty,
                labels: progress.labels,
                casts: progress.casts,
            })
        }
        Err(FrontFault::Refused(refusal)) => {
            *types = progress.types;
            Err(FrontFault::Refused(refusal))
        }
        Err(FrontFault::OutOfMemory) => Err(FrontFault::OutOfMemory),
    }
}
