// Parameters: their types, and their variables.
#![tactic(auto, using(crate::proofs::Rules::rules), unfolding(cast_rules::specs::Making::then_make))]

ghost use Rattle.std.specs.Prelude.{◌≡◌, ◌∷◌, IfOk, None, OnOk, length};
ghost use Rattle.type_graph.specs.Rows.{places_of};
ghost use Rattle.type_graph.specs.TypeTables.{MayBePart};
ghost use Rattle.surface_trees.specs.Views.{params_of, written_of};
ghost use Rattle.core_calc.specs.Views.{names_of};
ghost use Rattle.cast_rules.specs.Making.{Makes};
ghost use Rattle.cast_rules.specs.Environments.{bind_names, parameter_types, plain, type_or_dyn, variables};
ghost use Rattle.cast_rules.specs.Programs.{AreSourceParams, MayBeWritten};
ghost use Rattle.cast_rules.specs.Room.{AreParts, Grows};
ghost use Rattle.insert_steps.specs.Scoped.{env_of};
ghost use Rattle.insert_steps.specs.Views.{Answers, work_of};

use crate::copies::{copy_of_name, put_first};
use crate::names::{Meaning, Named};
use crate::progress::Progress;
use core_calc::terms::{VarId, VarIds};
use grift_base::lists::OutOfMemory;
use grift_base::places::{Pos, TypeId};
use grift_base::refusals::FrontFault;
use std::alloc::Global;
use surface_trees::names::Ident;
use surface_trees::types::{Param, TypeExpr};
use type_graph::rows::Row;

/// A type that may be written, or Dyn.
pub fn type_or_dyn(
    alloc: Global,
    progress: &mut Progress,
    t: &Option<TypeExpr>,
) -> Result<TypeId, FrontFault>
    requires { MayBeWritten (written_of t.now) }
    ensures answer { Answers result (λ ty. ty.0) (work_of progress.new)
        (type_or_dyn (written_of t.now) (work_of progress.old)) }
    ensures grows { OnOk result (Grows progress.old.types progress.new.types) }
    ensures part { IfOk result (λ ty. MayBePart progress.new.types ty.0) }
{
    match t {
        Some(t) => progress.written(alloc, t),
        None => Ok(progress.form(Row::Dyn)?),
    }
}

/// The types of parameters, of which there are six at most.
pub fn parameter_types(
    alloc: Global,
    progress: &mut Progress,
    params: &[Param],
) -> Result<Vec<TypeId>, FrontFault>
    requires { AreSourceParams (params_of params.now) }
    ensures answer { Answers result (λ types. places_of types.items) (work_of progress.new)
        (parameter_types (params_of params.now) (work_of progress.old)) }
    ensures grows { OnOk result (Grows progress.old.types progress.new.types) }
    ensures parts { IfOk result (λ types. AreParts progress.new.types (places_of types.items)) }
    ensures count { IfOk result (λ types. length (places_of types.items) ≡ length (params_of params.now)) }
{
    let [first, rest @ ..] = params else {
        return Ok(Vec::new(alloc));
    };
    let ty = type_or_dyn(alloc, progress, &first.ty)?;
    let mut types = parameter_types(alloc, progress, rest)?;
    put_first(&mut types, ty)?;
    Ok(types)
}

/// A name that means this variable of this type.
pub fn plain_name(
    alloc: Global,
    name: &Ident,
    pos: Pos,
    variable: VarId,
    ty: TypeId,
) -> Result<Named, OutOfMemory>
    ensures { IfOk result (λ named. named ≡ record {
      name = name.now;
      meaning = record {
        variable = variable;
        ty = ty;
        written = None;
        pos = pos;
      };
    }) }
{
    let name = copy_of_name(alloc, name)?;
    let meaning = Meaning {
        variable,
        ty,
        written: None,
        pos,
    };
    Ok(Named { name, meaning })
}

// The names with this one in front, which means this variable of this type.
fn named_first(
    alloc: Global,
    names: Vec<Named>,
    name: &Ident,
    pos: Pos,
    variable: VarId,
    ty: TypeId,
) -> Result<Vec<Named>, OutOfMemory>
    ensures { IfOk result (λ all. env_of all.items ≡ (name.now, plain pos variable.0 ty.0) ∷ env_of names.items) }
{
    let named = plain_name(alloc, name, pos, variable, ty)?;
    let mut all = names;
    put_first(&mut all, named)?;
    Ok(all)
}

/// A new variable for each of these parameters, which have these types. There are six at most.
pub fn bind_names(
    alloc: Global,
    progress: &mut Progress,
    pos: Pos,
    params: &[Param],
    types: &[TypeId],
) -> Result<Vec<Named>, OutOfMemory>
    ensures made { IfOk result (λ names. bind_names pos (params_of params.now) (places_of types.now)
        (work_of progress.old) ≡ Makes (env_of names.items) (work_of progress.new)) }
    ensures grows { OnOk result (Grows progress.old.types progress.new.types) }
{
    let [first, others @ ..] = params else {
        return Ok(Vec::new(alloc));
    };
    let [ty, more @ ..] = types else {
        return Ok(Vec::new(alloc));
    };
    let variable = progress.fresh()?;
    let names = bind_names(alloc, progress, pos, others, more)?;
    named_first(alloc, names, &first.name, pos, variable, *ty)
}

/// The variables of these names.
pub fn variables_of(alloc: Global, names: &[Named]) -> Result<VarIds, OutOfMemory>
    ensures { IfOk result (λ ids. names_of ids ≡ variables (env_of names.now)) }
{
    let mut ids = VarIds::new(alloc);
    for named in names {
        ids.push(named.meaning.variable)?;
    }
    Ok(ids)
}
