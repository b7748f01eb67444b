// The parts of Dyn in a term.

ghost use Rattle.std.specs.Prelude.{◌≡◌, true};
ghost use Rattle.std.specs.List.{list_all};
ghost use Rattle.coer_core.specs.Views.{row_bindings_of, row_members_of, row_term_of, row_terms_of};
ghost use Rattle.closure_convert.specs.Uses.{binding_uses, has_words, member_uses, term_uses, terms_uses};

use coer_core::terms::{CoerBindings, CoerList, CoerMembers, CoerTerm};

/// Nothing to do: the number of each part of Dyn in a term has 64 bits, and its label 32. Only depth is a recursion.
#[cycle(dyn_parts)]
pub fn have_words(term: &CoerTerm)
    ensures { list_all has_words (term_uses (row_term_of term.now)) ≡ true }
{
    let mut left = term;
    loop {
        match left {
            CoerTerm::Int(_) | CoerTerm::Bool(_) | CoerTerm::Unit | CoerTerm::Var(_) => return,
            CoerTerm::Lambda(_, body, _) => left = body,
            CoerTerm::Group(members, body) => {
                members_have_words(members);
                left = body;
            }
            CoerTerm::Let(bindings, body) => {
                bindings_have_words(bindings);
                left = body;
            }
            CoerTerm::Call(function, arguments) => {
                all_have_words(arguments);
                left = function;
            }
            CoerTerm::If(condition, on_true, on_false) => {
                have_words(condition);
                have_words(on_true);
                left = on_false;
            }
            CoerTerm::Seq(terms) => return all_have_words(terms),
            CoerTerm::Coerce(term, _) => left = term,
            CoerTerm::Proj(term, _) => left = term,
            CoerTerm::ProjDyn(term, part, label) => {
                let _part = *part;
                let _label = label.0;
                left = term;
            }
            CoerTerm::Tuple(parts) => return all_have_words(parts),
            CoerTerm::Prim(_, operands) => return all_have_words(operands),
        }
    }
}

// So it is of each term that stands in a list.
macro_rules! each_has_words {
    ($list:ident, $type:ident, $first:ident => $term:expr) => {{
        let mut left = $list;
        while let $type::Cons($first, rest) = left {
            have_words($term);
            left = rest;
        }
    }};
}

// So it is of terms in order.
#[cycle(dyn_parts)]
fn all_have_words(terms: &CoerList)
    ensures { list_all has_words (terms_uses (row_terms_of terms.now)) ≡ true }
{
    each_has_words!(terms, CoerList, first => first)
}

// So it is of the functions of a group.
#[cycle(dyn_parts)]
fn members_have_words(members: &CoerMembers)
    ensures { list_all has_words (member_uses (row_members_of members.now)) ≡ true }
{
    each_has_words!(members, CoerMembers, first => &first.body)
}

// So it is of the terms that names are bound to.
#[cycle(dyn_parts)]
fn bindings_have_words(bindings: &CoerBindings)
    ensures { list_all has_words (binding_uses (row_bindings_of bindings.now)) ≡ true }
{
    each_has_words!(bindings, CoerBindings, first => &first.value)
}
