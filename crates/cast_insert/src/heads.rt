// The heads of a `letrec`.
#![tactic(auto, using(crate::proofs::LoopRules::head_rules), unfolding(cast_rules::specs::Making::then_make))]

ghost use Rattle.std.specs.Prelude.{◌≡◌, ◌≤◌, ◌∷◌, ◌++◌, [], true, IfOk, OnOk, length};
ghost use Rattle.type_graph.specs.Rows.{places_of};
ghost use Rattle.type_graph.specs.TypeTables.{MayBePart};
ghost use Rattle.surface_trees.specs.Views.{letrecs_of};
ghost use Rattle.cast_rules.specs.Environments.{head_of, head_of_types, heads_of, names_of_heads, with_names};
ghost use Rattle.cast_rules.specs.Environments.{consistent_if};
ghost use Rattle.cast_insert.specs.Heads.{head_seen, heads_seen, lambda_in, name_in, place_in, written_in};
ghost use Rattle.cast_rules.specs.Programs.{AreSourceMembers, IsSourceLambda, MayBeWritten};
ghost use Rattle.cast_rules.specs.Room.{AreParts, Grows};
ghost use Rattle.insert_steps.specs.Views.{Answers, place_if, work_of};

use grift_base::lists::OutOfMemory;
use grift_base::places::{Pos, TypeId};
use grift_base::refusals::FrontFault;
use insert_steps::copies::copy_of_name;
use insert_steps::names::{Meaning, Scopes};
use insert_steps::parameters::{parameter_types, type_or_dyn};
use insert_steps::progress::Progress;
use std::alloc::Global;
use surface_trees::exprs::{Member, Members};
use surface_trees::names::Ident;
use type_graph::rows::{Row, TypeIds};

/// Of a member: its name, what the name means, the types of its parameters, and its result type.
#[derive(Drop)]
pub(crate) struct Head {
    pub name: Ident,
    pub meaning: Meaning,
    pub parameters: Vec<TypeId>,
    pub answer: TypeId,
}

// Refuses a written type that isn't consistent with this one.
fn agrees(
    alloc: Global,
    progress: &Progress,
    pos: Pos,
    wanted: Option<TypeId>,
    ty: TypeId,
) -> Result<(), FrontFault>
    ensures { Answers result (λ done. true) (work_of progress.now)
        (consistent_if pos (place_if wanted) ty.0 (work_of progress.now)) }
{
    match wanted {
        Some(wanted) => progress.are_consistent(alloc, pos, wanted, ty),
        None => Ok(()),
    }
}

// The head of a member whose types are these.
fn head_of_types(
    alloc: Global,
    progress: &mut Progress,
    member: &Member,
    parameters: Vec<TypeId>,
    answer: TypeId,
    written: Option<TypeId>,
) -> Result<Head, FrontFault>
    requires parameters { AreParts progress.old.types (places_of parameters.items) }
    requires answer { MayBePart progress.old.types answer.0 }
    requires few { length (places_of parameters.items) ≤ 6 }
    ensures answer { Answers result head_seen (work_of progress.new)
        (head_of_types (name_in member.now) (place_in member.now) (places_of parameters.items) answer.0
        (place_if written) (work_of progress.old)) }
    ensures grows { OnOk result (Grows progress.old.types progress.new.types) }
{
    let pos = member.fun.pos;
    let types = TypeIds::from_slice(alloc, parameters.as_slice())?;
    let ty = progress.form(Row::Fun(types, answer))?;
    progress.not_too_large(pos, ty)?;
    agrees(alloc, progress, pos, written, ty)?;
    let variable = progress.fresh()?;
    let name = copy_of_name(alloc, &member.name)?;
    let meaning = Meaning {
        variable,
        ty,
        written,
        pos,
    };
    Ok(Head {
        name,
        meaning,
        parameters,
        answer,
    })
}

// The head of a member.
fn member_head(alloc: Global, progress: &mut Progress, member: &Member) -> Result<Head, FrontFault>
    requires lambda { IsSourceLambda (lambda_in member.now) }
    requires written { MayBeWritten (written_in member.now) }
    ensures answer { Answers result head_seen (work_of progress.new)
        (head_of (name_in member.now) (written_in member.now) (lambda_in member.now) (work_of progress.old)) }
    ensures grows { OnOk result (Grows progress.old.types progress.new.types) }
{
    let parameters = parameter_types(alloc, progress, member.fun.params.as_slice())?;
    let answer = type_or_dyn(alloc, progress, &member.fun.result)?;
    let written = progress.written_if(alloc, &member.ty)?;
    head_of_types(alloc, progress, member, parameters, answer, written)
}

fn push(heads: &mut Vec<Head>, head: Head) -> Result<(), OutOfMemory>
    ensures { OnOk result (heads.new.items ≡ heads.old.items ++ head ∷ []) }
{
    heads.push(head)?;
    Ok(())
}

/// The heads of the members, whose names are bound.
pub(crate) fn heads(
    alloc: Global,
    progress: &mut Progress,
    scopes: &mut Scopes,
    list: &Members,
) -> Result<Vec<Head>, FrontFault>
    requires { AreSourceMembers (letrecs_of list.now) }
    ensures heads { Answers result (λ heads. heads_seen heads.items) (work_of progress.new)
        (heads_of (letrecs_of list.now) (work_of progress.old)) }
    ensures scopes { IfOk result (λ heads.
        scopes.new ≡ with_names (names_of_heads (heads_seen heads.items)) scopes.old) }
    ensures grows { OnOk result (Grows progress.old.types progress.new.types) }
{
    let mut done = Vec::new(alloc);
    let mut left = list;
    while let Members::Cons(first, rest) = left {
        let head = member_head(alloc, progress, first)?;
        scopes.bind(alloc, &head.name, head.meaning)?;
        push(&mut done, head)?;
        left = rest;
    }
    Ok(done)
}
