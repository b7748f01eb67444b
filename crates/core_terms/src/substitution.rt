// Values put in the place of names, in place: all copies are made first, so that nothing has changed where memory runs
// out.

ghost use Rattle.std.specs.Prelude.{◌≡◌, ◌==◌, ◌++◌, ◌∷◌, [], IfOk, MatchOption, OnErr, OnOk, IsTrue};
ghost use Rattle.std.specs.Prelude.{ℕ, option_map, not, false};
ghost use Rattle.core_calc.specs.Terms.{Members, NoMembers, binding_names, member_names};
ghost use Rattle.core_calc.specs.Substitution.{entry_of, without, is_among, group_values, members_from, substitute};
ghost use Rattle.core_calc.specs.Views.{bindings_of, members_of, names_of, term_of, terms_of, value_of};
ghost use Rattle.core_terms.specs.Entries.{entries_of, with_group};
ghost use Rattle.core_terms.specs.Holes.{behind, behind_bindings, behind_members, behind_terms, filled};
ghost use Rattle.core_terms.specs.Holes.{filled_bindings, filled_members, filled_terms, first_hole, found_in};
ghost use Rattle.core_terms.specs.Holes.{found_in_bindings, found_in_members, found_in_terms, holes_of, other_holes};
ghost use Rattle.core_terms.specs.Holes.{stack_of};

use crate::copies::{copy_members, copy_value};
use crate::lists::{bindings_onto, members_onto, terms_onto};
use core_calc::terms::{Core, CoreBindings, CoreList, GroupMembers, Value, VarId, VarIds};
use grift_base::lists::OutOfMemory;
use std::alloc::Global;
use std::mem;

/// A name and the value that is put in its place.
#[derive(Drop)]
pub struct Entry {
    pub name: VarId,
    pub value: Value,
}

// Whether a name is among these.
fn is_among(name: VarId, names: &[VarId]) -> bool
    ensures { result ≡ is_among name.0 (names_of names.now) }
{
    let mut left = names;
    while let [other, rest @ ..] = left {
        if name.0 == other.0 {
            return true;
        }
        left = rest;
    }
    false
}

// The value that is put in the place of a name.
fn entry_of(name: VarId, entries: &[Entry]) -> Option<&Value>
    ensures { option_map (λ v. value_of v.now) result ≡ entry_of name.0 (entries_of entries.now) }
{
    let mut left = entries;
    while let [entry, rest @ ..] = left {
        if name.0 == entry.name.0 {
            return Some(&entry.value);
        }
        left = rest;
    }
    None
}

// Whether one of the entries is of one of these names.
fn clashes(names: &[VarId], entries: &[Entry]) -> bool
    ensures { (result ≡ false) → without (names_of names.now) (entries_of entries.now) ≡ entries_of entries.now }
{
    let mut left = entries;
    while let [entry, rest @ ..] = left {
        if is_among(entry.name, names) {
            return true;
        }
        left = rest;
    }
    false
}

/// Adds an entry behind the others.
pub fn push_entry(entries: &mut Vec<Entry>, name: VarId, value: Value) -> Result<(), OutOfMemory>
    ensures { OnOk result
        (entries_of entries.new.items ≡ entries_of entries.old.items ++ (name.0, value_of value) ∷ []) }
{
    entries.push(Entry { name, value })?;
    Ok(())
}

// Adds a name behind the others.
fn push_name(names: &mut VarIds, name: VarId) -> Result<(), OutOfMemory>
    ensures { OnOk result (names_of names.new ≡ names_of names.old ++ name.0 ∷ []) }
{
    names.push(name)?;
    Ok(())
}

// The entries of other names than these.
fn others(alloc: Global, names: &[VarId], entries: &[Entry]) -> Result<Vec<Entry>, OutOfMemory>
    ensures { IfOk result (λ left. entries_of left.items ≡ without (names_of names.now) (entries_of entries.now)) }
{
    let mut done = Vec::new(alloc);
    let mut left = entries;
    while let [entry, rest @ ..] = left {
        if !is_among(entry.name, names) {
            let value = copy_value(alloc, &entry.value)?;
            push_entry(&mut done, entry.name, value)?;
        }
        left = rest;
    }
    Ok(done)
}

// The names of a group's functions.
fn names_of_members(alloc: Global, members: &GroupMembers) -> Result<VarIds, OutOfMemory>
    ensures { IfOk result (λ names. names_of names ≡ member_names (members_of members.now)) }
{
    let mut names = VarIds::new(alloc);
    let mut left = members;
    while let GroupMembers::Cons(first, rest) = left {
        push_name(&mut names, first.name)?;
        left = rest;
    }
    Ok(names)
}

// The names that bindings bind.
fn names_of_bindings(alloc: Global, bindings: &CoreBindings) -> Result<VarIds, OutOfMemory>
    ensures { IfOk result (λ names. names_of names ≡ binding_names (bindings_of bindings.now)) }
{
    let mut names = VarIds::new(alloc);
    let mut left = bindings;
    while let CoreBindings::Cons(first, rest) = left {
        push_name(&mut names, first.name)?;
        left = rest;
    }
    Ok(names)
}

// Whether a function of a group has one of these names.
fn members_clash(names: &[VarId], members: &GroupMembers) -> bool
    ensures { (result ≡ false) → (group : Members) (place : ℕ)
        → without (names_of names.now) (members_from group (members_of members.now) place)
        ≡ members_from group (members_of members.now) place }
{
    let mut left = members;
    while let GroupMembers::Cons(first, rest) = left {
        if is_among(first.name, names) {
            return true;
        }
        left = rest;
    }
    false
}

// Adds the functions of a group behind the entries, but for those of these names.
fn push_others(
    alloc: Global,
    names: &[VarId],
    members: &GroupMembers,
    entries: &mut Vec<Entry>,
) -> Result<(), OutOfMemory>
    ensures { OnOk result (entries_of entries.new.items
        ≡ entries_of entries.old.items ++ without (names_of names.now) (group_values (members_of members.now))) }
{
    let mut place = 0u32;
    let mut left = members;
    while let GroupMembers::Cons(first, rest) = left {
        if place == u32::MAX {
            return Err(OutOfMemory);
        }
        if !is_among(first.name, names) {
            let value = Value::GroupMember(copy_members(alloc, members)?, place);
            push_entry(entries, first.name, value)?;
        }
        place += 1;
        left = rest;
    }
    Ok(())
}

// The entries and the functions of a group but for those of these names; none where none has such a name. Program terms
// bind each name once, so nothing is copied for them.
fn without_names(
    alloc: Global,
    names: &[VarId],
    entries: &[Entry],
    members: &GroupMembers,
) -> Result<Option<Vec<Entry>>, OutOfMemory>
    ensures { IfOk result (λ o. MatchOption o
        (without (names_of names.now) (with_group entries.now (members_of members.now))
        ≡ with_group entries.now (members_of members.now))
        (λ left. without (names_of names.now) (with_group entries.now (members_of members.now))
        ≡ with_group left.items NoMembers)) }
{
    if !clashes(names, entries) && !members_clash(names, members) {
        return Ok(None);
    }
    let mut left = others(alloc, names, entries)?;
    push_others(alloc, names, members, &mut left)?;
    Ok(Some(left))
}

// The same but for the names of another group.
fn without_group(
    alloc: Global,
    group: &GroupMembers,
    entries: &[Entry],
    members: &GroupMembers,
) -> Result<Option<Vec<Entry>>, OutOfMemory>
    ensures { IfOk result (λ o. MatchOption o
        (without (member_names (members_of group.now)) (with_group entries.now (members_of members.now))
        ≡ with_group entries.now (members_of members.now))
        (λ left. without (member_names (members_of group.now)) (with_group entries.now (members_of members.now))
        ≡ with_group left.items NoMembers)) }
{
    let names = names_of_members(alloc, group)?;
    without_names(alloc, names.as_slice(), entries, members)
}

// The function of a group that has this name.
fn member_value(
    alloc: Global,
    name: VarId,
    members: &GroupMembers,
) -> Result<Option<Value>, OutOfMemory>
    ensures { IfOk result (λ o. option_map value_of o ≡ entry_of name.0 (group_values (members_of members.now))) }
{
    let mut place = 0u32;
    let mut left = members;
    while let GroupMembers::Cons(first, rest) = left {
        if name.0 == first.name.0 {
            let members = copy_members(alloc, members)?;
            return Ok(Some(Value::GroupMember(members, place)));
        }
        if place == u32::MAX {
            return Err(OutOfMemory);
        }
        place += 1;
        left = rest;
    }
    Ok(None)
}

// A copy of the value that is put in the place of a name.
fn value_for(
    alloc: Global,
    name: VarId,
    entries: &[Entry],
    members: &GroupMembers,
) -> Result<Option<Value>, OutOfMemory>
    ensures { IfOk result (λ o. option_map value_of o
        ≡ entry_of name.0 (with_group entries.now (members_of members.now))) }
{
    match entry_of(name, entries) {
        Some(v) => {
            let v = copy_value(alloc, v)?;
            Ok(Some(v))
        }
        None => member_value(alloc, name, members),
    }
}

// Adds a hole behind the others.
fn push_hole(holes: &mut Vec<Option<Value>>, hole: Option<Value>) -> Result<(), OutOfMemory>
    ensures { OnOk result (holes_of holes.new.items ≡ holes_of holes.old.items ++ option_map value_of hole ∷ []) }
{
    holes.push(hole)?;
    Ok(())
}

// Copies of the values that are put into a term, behind others.
#[cycle(finding)]
fn find(
    alloc: Global,
    term: &Core,
    entries: &[Entry],
    members: &GroupMembers,
    holes: &mut Vec<Option<Value>>,
) -> Result<(), OutOfMemory>
    ensures { OnOk result (holes_of holes.new.items
        ≡ found_in (term_of term.now) (with_group entries.now (members_of members.now)) (holes_of holes.old.items)) }
{
    match term {
        Core::Int(_) | Core::Bool(_) | Core::Unit | Core::Value(_) => Ok(()),
        Core::Var(name) => {
            let hole = value_for(alloc, *name, entries, members)?;
            push_hole(holes, hole)
        }
        Core::Lambda(params, body, _) => {
            find_under(alloc, params.as_slice(), body, entries, members, holes)
        }
        Core::Group(group, body) => {
            if let Some(left) = without_group(alloc, group, entries, members)? {
                let none = GroupMembers::Nil;
                find_in_members(alloc, group, left.as_slice(), &none, holes)?;
                return find(alloc, body, left.as_slice(), &none, holes);
            }
            find_in_members(alloc, group, entries, members, holes)?;
            find(alloc, body, entries, members, holes)
        }
        Core::Let(bindings, body) => {
            find_in_bindings(alloc, bindings, entries, members, holes)?;
            let names = names_of_bindings(alloc, bindings)?;
            find_under(alloc, names.as_slice(), body, entries, members, holes)
        }
        Core::Call(function, arguments) | Core::Enter(function, arguments) => {
            find(alloc, function, entries, members, holes)?;
            find_in_terms(alloc, arguments, entries, members, holes)
        }
        Core::If(condition, on_true, on_false) => {
            find(alloc, condition, entries, members, holes)?;
            find(alloc, on_true, entries, members, holes)?;
            find(alloc, on_false, entries, members, holes)
        }
        Core::Cast(inner, _, _, _) | Core::Proj(inner, _) | Core::ProjDyn(inner, _, _) => {
            find(alloc, inner, entries, members, holes)
        }
        Core::Seq(terms) | Core::Tuple(terms) | Core::Prim(_, terms) => {
            find_in_terms(alloc, terms, entries, members, holes)
        }
    }
}

// The same of a term in which these names are bound again.
#[cycle(finding)]
fn find_under(
    alloc: Global,
    names: &[VarId],
    body: &Core,
    entries: &[Entry],
    members: &GroupMembers,
    holes: &mut Vec<Option<Value>>,
) -> Result<(), OutOfMemory>
    ensures { OnOk result (holes_of holes.new.items
        ≡ found_in (term_of body.now)
        (without (names_of names.now) (with_group entries.now (members_of members.now))) (holes_of holes.old.items)) }
{
    if let Some(left) = without_names(alloc, names, entries, members)? {
        let none = GroupMembers::Nil;
        return find(alloc, body, left.as_slice(), &none, holes);
    }
    find(alloc, body, entries, members, holes)
}

// The same of terms in order.
#[cycle(finding)]
fn find_in_terms(
    alloc: Global,
    terms: &CoreList,
    entries: &[Entry],
    members: &GroupMembers,
    holes: &mut Vec<Option<Value>>,
) -> Result<(), OutOfMemory>
    ensures { OnOk result (holes_of holes.new.items
        ≡ found_in_terms (terms_of terms.now) (with_group entries.now (members_of members.now))
        (holes_of holes.old.items)) }
{
    let mut left = terms;
    while let CoreList::Cons(first, rest) = left {
        find(alloc, first, entries, members, holes)?;
        left = rest;
    }
    Ok(())
}

// The same of the functions of a group, whose names are out of the entries already.
#[cycle(finding)]
fn find_in_members(
    alloc: Global,
    group: &GroupMembers,
    entries: &[Entry],
    members: &GroupMembers,
    holes: &mut Vec<Option<Value>>,
) -> Result<(), OutOfMemory>
    ensures { OnOk result (holes_of holes.new.items
        ≡ found_in_members (members_of group.now) (with_group entries.now (members_of members.now))
        (holes_of holes.old.items)) }
{
    let mut left = group;
    while let GroupMembers::Cons(first, rest) = left {
        find_under(
            alloc,
            first.params.as_slice(),
            &first.body,
            entries,
            members,
            holes,
        )?;
        left = rest;
    }
    Ok(())
}

// The same of bound terms in order.
#[cycle(finding)]
fn find_in_bindings(
    alloc: Global,
    bindings: &CoreBindings,
    entries: &[Entry],
    members: &GroupMembers,
    holes: &mut Vec<Option<Value>>,
) -> Result<(), OutOfMemory>
    ensures { OnOk result (holes_of holes.new.items
        ≡ found_in_bindings (bindings_of bindings.now) (with_group entries.now (members_of members.now))
        (holes_of holes.old.items)) }
{
    let mut left = bindings;
    while let CoreBindings::Cons(first, rest) = left {
        find(alloc, &first.value, entries, members, holes)?;
        left = rest;
    }
    Ok(())
}

// Takes the hole on top.
fn take_hole(holes: &mut Vec<Option<Value>>) -> Option<Value>
    ensures hole { option_map value_of result ≡ first_hole (stack_of holes.old.items) }
    ensures others { stack_of holes.new.items ≡ other_holes (stack_of holes.old.items) }
{
    match holes.pop() {
        Some(hole) => hole,
        None => None,
    }
}

// Puts what the holes hold in the place of a term's names, in order. Takes no memory.
#[cycle(filling)]
fn fill(term: &mut Core, holes: &mut Vec<Option<Value>>)
    ensures term { term_of term.new ≡ filled (term_of term.old) (stack_of holes.old.items) }
    ensures holes { stack_of holes.new.items ≡ behind (term_of term.old) (stack_of holes.old.items) }
{
    match term {
        Core::Int(_) | Core::Bool(_) | Core::Unit | Core::Value(_) => {}
        Core::Var(_) => {
            if let Some(v) = take_hole(holes) {
                *term = Core::Value(v);
            }
        }
        Core::Lambda(_, body, _) => fill(body, holes),
        Core::Group(members, body) => {
            fill_members(members, holes);
            fill(body, holes);
        }
        Core::Let(bindings, body) => {
            fill_bindings(bindings, holes);
            fill(body, holes);
        }
        Core::Call(function, arguments) => {
            fill(function, holes);
            fill_terms(arguments, holes);
        }
        Core::Enter(function, arguments) => {
            fill(function, holes);
            fill_terms(arguments, holes);
        }
        Core::If(condition, on_true, on_false) => {
            fill(condition, holes);
            fill(on_true, holes);
            fill(on_false, holes);
        }
        Core::Seq(terms) => fill_terms(terms, holes),
        Core::Cast(inner, _, _, _) => fill(inner, holes),
        Core::Proj(inner, _) => fill(inner, holes),
        Core::ProjDyn(inner, _, _) => fill(inner, holes),
        Core::Tuple(parts) => fill_terms(parts, holes),
        Core::Prim(_, operands) => fill_terms(operands, holes),
    }
}

// The same for terms in order.
#[cycle(filling)]
fn fill_terms(terms: &mut CoreList, holes: &mut Vec<Option<Value>>)
    ensures terms { terms_of terms.new ≡ filled_terms (terms_of terms.old) (stack_of holes.old.items) }
    ensures holes { stack_of holes.new.items ≡ behind_terms (terms_of terms.old) (stack_of holes.old.items) }
{
    let mut done = CoreList::Nil;
    let mut left = mem::replace(terms, CoreList::Nil);
    while let CoreList::Cons(first, rest) = &mut left {
        fill(first, holes);
        let next = mem::replace(&mut **rest, done);
        done = mem::replace(&mut left, next);
    }
    *terms = terms_onto(done, CoreList::Nil);
}

// The same for the functions of a group.
#[cycle(filling)]
fn fill_members(members: &mut GroupMembers, holes: &mut Vec<Option<Value>>)
    ensures members { members_of members.new ≡ filled_members (members_of members.old) (stack_of holes.old.items) }
    ensures holes { stack_of holes.new.items ≡ behind_members (members_of members.old) (stack_of holes.old.items) }
{
    let mut done = GroupMembers::Nil;
    let mut left = mem::replace(members, GroupMembers::Nil);
    while let GroupMembers::Cons(first, rest) = &mut left {
        let member = &mut **first;
        fill(&mut member.body, holes);
        let next = mem::replace(&mut **rest, done);
        done = mem::replace(&mut left, next);
    }
    *members = members_onto(done, GroupMembers::Nil);
}

// The same for bound terms in order.
#[cycle(filling)]
fn fill_bindings(bindings: &mut CoreBindings, holes: &mut Vec<Option<Value>>)
    ensures bindings { bindings_of bindings.new
        ≡ filled_bindings (bindings_of bindings.old) (stack_of holes.old.items) }
    ensures holes { stack_of holes.new.items ≡ behind_bindings (bindings_of bindings.old) (stack_of holes.old.items) }
{
    let mut done = CoreBindings::Nil;
    let mut left = mem::replace(bindings, CoreBindings::Nil);
    while let CoreBindings::Cons(first, rest) = &mut left {
        fill(&mut first.value, holes);
        let next = mem::replace(&mut **rest, done);
        done = mem::replace(&mut left, next);
    }
    *bindings = bindings_onto(done, CoreBindings::Nil);
}

/// Puts values in the place of names: those of the entries, and behind them the functions of a group in the place of
/// their names. Where memory runs out, the term is as before.
pub fn substitute(
    alloc: Global,
    term: &mut Core,
    entries: &[Entry],
    members: &GroupMembers,
) -> Result<(), OutOfMemory>
    ensures put { OnOk result (term_of term.new
        ≡ substitute (term_of term.old) (with_group entries.now (members_of members.now))) }
    ensures stays { OnErr result (term_of term.new ≡ term_of term.old) }
{
    let mut holes = Vec::new(alloc);
    find(alloc, term, entries, members, &mut holes)?;
    holes.reverse();
    fill(term, &mut holes);
    Ok(())
}
