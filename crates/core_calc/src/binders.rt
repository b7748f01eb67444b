// Whether a term binds each name once.
#![tactic(auto, using(crate::proofs::Chains::name_steps))]

ghost use Rattle.core_calc.specs.Views.{term_of, terms_of, members_of, bindings_of};
ghost use Rattle.core_calc.specs.Typing.{binders, all_binders, member_binders, binding_binders};
ghost use Rattle.core_calc.specs.TypeOf.{Makes, with_names};

use crate::scopes::{Names, Untyped};
use crate::terms::{Core, CoreBindings, CoreList, GroupMembers};

/// Adds the names that a term binds. `NoType` says that one is there already, or is bound twice.
#[cycle(binders)]
pub fn add_binders(seen: &mut Names, term: &Core) -> Result<(), Untyped>
    ensures { Makes result seen.new (with_names seen.old (binders (term_of term.now))) }
{
    match term {
        Core::Int(_) | Core::Bool(_) | Core::Unit | Core::Var(_) | Core::Value(_) => Ok(()),
        Core::Lambda(params, body, _) => {
            seen.add_all(params.as_slice())?;
            add_binders(seen, body)?;
            Ok(())
        }
        Core::Group(members, body) => {
            add_member_binders(seen, members)?;
            add_binders(seen, body)?;
            Ok(())
        }
        Core::Let(bindings, body) => {
            add_binding_binders(seen, bindings)?;
            add_binders(seen, body)?;
            Ok(())
        }
        Core::Call(function, arguments) | Core::Enter(function, arguments) => {
            add_binders(seen, function)?;
            add_all_binders(seen, arguments)?;
            Ok(())
        }
        Core::If(condition, on_true, on_false) => {
            add_binders(seen, condition)?;
            add_binders(seen, on_true)?;
            add_binders(seen, on_false)?;
            Ok(())
        }
        Core::Seq(terms) | Core::Tuple(terms) | Core::Prim(_, terms) => {
            add_all_binders(seen, terms)
        }
        Core::Cast(term, ..) | Core::Proj(term, _) | Core::ProjDyn(term, ..) => {
            add_binders(seen, term)
        }
    }
}

// What is done along a list, from the front.
macro_rules! along {
    ($list:ident, $type:ident, $first:ident => $step:block) => {{
        let mut left = $list;
        while let $type::Cons($first, rest) = left {
            $step
            left = rest;
        }
    }};
}

// Adds the names that these terms bind.
#[cycle(binders)]
fn add_all_binders(seen: &mut Names, terms: &CoreList) -> Result<(), Untyped>
    ensures { Makes result seen.new (with_names seen.old (all_binders (terms_of terms.now))) }
{
    along!(terms, CoreList, first => {
        add_binders(seen, first)?;
    });
    Ok(())
}

// Adds the names of a group's functions, and those that these bind.
#[cycle(binders)]
fn add_member_binders(seen: &mut Names, members: &GroupMembers) -> Result<(), Untyped>
    ensures { Makes result seen.new (with_names seen.old (member_binders (members_of members.now))) }
{
    along!(members, GroupMembers, first => {
        seen.add(first.name)?;
        seen.add_all(first.params.as_slice())?;
        add_binders(seen, &first.body)?;
    });
    Ok(())
}

// Adds the names of bindings, and those that the bound terms bind.
#[cycle(binders)]
fn add_binding_binders(seen: &mut Names, bindings: &CoreBindings) -> Result<(), Untyped>
    ensures { Makes result seen.new (with_names seen.old (binding_binders (bindings_of bindings.now))) }
{
    along!(bindings, CoreBindings, first => {
        seen.add(first.name)?;
        add_binders(seen, &first.value)?;
    });
    Ok(())
}
