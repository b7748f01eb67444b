// Lists of terms, of functions of a group, of bindings and of values.

use core_calc::terms::{
    Core, CoreBinding, CoreBindings, CoreList, GroupMember, GroupMembers, Value, Values, VarId,
    VarIds,
};
use grift_base::places::TypeId;
use std::alloc::Global;
use std::process::Abort;

// Integers from 0 below `end`, in order.
fn rising(rt: &impl Abort, alloc: Global, end: i64) -> CoreList {
    let mut terms = CoreList::new();
    for number in 0..end {
        terms
            .push_front(alloc, Core::Int(number))
            .expect(rt, "memory");
    }
    terms.reversed()
}

// The number at this place, if one is there.
fn number_at(terms: &CoreList, place: u64) -> Option<i64> {
    match terms.get(place) {
        Some(Core::Int(number)) => Some(*number),
        _ => None,
    }
}

// Whether these are three numbers in order.
fn are_three(terms: &CoreList) -> bool {
    (terms.is_empty(), terms.len()) == (false, 3)
        && [
            number_at(terms, 0),
            number_at(terms, 2),
            number_at(terms, 3),
        ] == [Some(0), Some(2), None]
}

#[test]
fn terms_are_built_from_the_front(rt: HostRuntime) {
    let terms = rising(&rt, rt.alloc(), 3);
    assert!(rt; are_three(&terms));
}

// Whether two items stand in a list in the order of their numbers, the second of which is of this form.
macro_rules! in_order {
    ($rt:ident, $list:ident, $number:ident => $item:expr, $last:pat) => {{
        let mut items = $list::new();
        let empty = items.is_empty();
        for $number in 0..2u32 {
            items.push_front($rt.alloc(), $item).expect(&$rt, "memory");
        }
        let items = items.reversed();
        let last = matches!(items.get(1), Some($last));
        (empty, items.len(), last, items.get(2).is_none()) == (true, 2, true, true)
    }};
}

fn member(alloc: Global, name: u32) -> GroupMember {
    GroupMember {
        name: VarId(name),
        params: VarIds::new(alloc),
        body: Core::Unit,
        ty: TypeId(3),
    }
}

#[test]
fn functions_of_a_group_are_built_from_the_front(rt: HostRuntime) {
    let both =
        in_order!(rt, GroupMembers, name => member(rt.alloc(), name), GroupMember { name: VarId(1), .. });
    assert!(rt; both);
}

fn binding(name: u32) -> CoreBinding {
    CoreBinding {
        name: VarId(name),
        value: Core::Bool(name == 1),
    }
}

#[test]
fn bindings_are_built_from_the_front(rt: HostRuntime) {
    let both =
        in_order!(rt, CoreBindings, name => binding(name), CoreBinding { name: VarId(1), .. });
    assert!(rt; both);
}

#[test]
fn values_are_built_from_the_front(rt: HostRuntime) {
    let both = in_order!(rt, Values, number => Value::Int(i64::from(number)), Value::Int(1));
    assert!(rt; both);
}

// A list is longer than the process's stack is deep.
#[test]
fn a_long_list_is_dropped_without_recursion(rt: HostRuntime) {
    assert!(rt; rising(&rt, rt.alloc(), 131_068).len() == 131_068);
}
