// Lists that grow, and names as elements of sets.

use grift_base::lists::{CallList, Name, OutOfMemory};
use grift_base::words::Statics;
use indexmap::IndexSet;
use std::alloc::Global;

// Whether an empty list grows at its end.
fn grows(calls: &mut CallList) -> Result<bool, OutOfMemory> {
    let was_empty = calls.is_empty();
    calls.push(7)?;
    calls.extend(&[9, 7])?;
    let places = (calls.len(), calls.get(1), calls.get(3));
    Ok(was_empty && places == (3, Some(&9), None) && calls.as_slice() == [7, 9, 7].as_slice())
}

#[test]
fn lists_grow_at_the_end(rt: HostRuntime) {
    let mut calls = CallList::new(rt.alloc());
    let grows = grows(&mut calls);
    drop(calls);
    assert!(rt; matches!(grows, Ok(true)));
}

// Adds these names.
fn put_names(alloc: Global, names: &mut IndexSet<Name>, texts: &[&str]) -> Result<(), OutOfMemory> {
    for text in texts {
        names.insert(Name::from_slice(alloc, text.as_bytes())?)?;
    }
    Ok(())
}

// How many different names these are.
fn count_of(alloc: Global, texts: &[&str]) -> Result<usize, OutOfMemory> {
    let mut names = IndexSet::new(alloc);
    put_names(alloc, &mut names, texts)?;
    Ok(names.len())
}

#[test]
fn names_compare_and_hash(rt: HostRuntime) {
    assert!(rt; matches!(count_of(rt.alloc(), &["even", "odd", "even"]), Ok(2)));
}

// Whether each list of statics is empty.
fn are_empty(statics: &Statics) -> bool {
    statics.words.is_empty()
        && statics.type_at.is_empty()
        && statics.coercion_at.is_empty()
        && statics.cast_at.is_empty()
}

#[test]
fn statics_begin_empty(rt: HostRuntime) {
    let begin_empty = are_empty(&Statics::new(rt.alloc()));
    assert!(rt; begin_empty);
}
