// The cast listings of sources.

use front_end::elaborate_text;
use grift_base::lists::{OutOfMemory, Text};
use listing::casts::casts_text;
use std::alloc::Global;
use std::process::Abort;
use std::test::Fail;

// The cast listing of a source that is short enough; none for want of memory.
fn listed(alloc: Global, source: &[u8]) -> Result<Option<Text>, Fail> {
    if source.len() > 262144 {
        return Err(Fail::from("too long"));
    }
    let done = elaborate_text(alloc, source)?;
    match casts_text(alloc, &done.elab, &done.types) {
        Ok(text) => Ok(Some(text)),
        Err(OutOfMemory) => Ok(None),
    }
}

// Whether a source has this cast listing.
fn has_listing(alloc: Global, source: &[u8], lines: &[u8]) -> Result<bool, Fail> {
    match listed(alloc, source)? {
        Some(text) => Ok(text.as_slice() == lines),
        None => Err(Fail::from("no memory")),
    }
}

// Each source has its cast listing.
fn have_listings(rt: &impl Abort, alloc: Global, rows: &[(&str, &str)]) -> Result<(), Fail> {
    for (source, lines) in rows {
        assert!(rt;
            has_listing(alloc, source.as_bytes(), lines.as_bytes())?,
            "{source}"
        );
    }
    Ok(())
}

const VALUES_AND_FUNCTIONS: &[(&str, &str)] = &[
    ("42", ""),
    (
        "(: (: #t Dyn) Int)",
        "1:4 Bool => Dyn (inject Bool)\n1:1 Dyn => Int (project Int 1:1) merged (fail 1:1)\n",
    ),
    // a part that is taken of what Dyn holds, which a cast stands behind
    (
        "(+ 1 (tuple-proj (: (tuple 1 2) Dyn) 1))",
        "1:18 (Tuple Int Int) => Dyn (inject (Tuple Int Int))\n1:18 part 1\n\
          1:6 Dyn => Int (project Int 1:6)\n",
    ),
    (
        "(: (lambda ([x : Int]) : Int x) (Dyn -> Dyn))",
        "1:1 (Int -> Int) => (Dyn -> Dyn) (fun (project Int 1:1) -> (inject Int))\n",
    ),
    (
        "(: (: (lambda () 1) Dyn) ( -> Unit))",
        "1:4 (-> Int) => Dyn (inject (-> Int))\n\
          1:1 Dyn => (-> Unit) (project (-> Unit) 1:1) merged (fun -> (fail 1:1))\n",
    ),
];

#[test]
fn casts_are_listed(rt: HostRuntime) -> Result<(), Fail> {
    have_listings(&rt, rt.alloc(), VALUES_AND_FUNCTIONS)
}

const CONTAINERS: &[(&str, &str)] = &[
    // what is read is cast forward, and what is written backward: the inner cast comes first in the one, and last
    // in the other
    (
        "(: (: (box 1) (Ref Dyn)) (Ref Bool))",
        "1:4 (Ref Int) => (Ref Dyn) (ref (inject Int) (project Int 1:4))\n\
          1:1 (Ref Dyn) => (Ref Bool) (ref (project Bool 1:1) (inject Bool)) \
          merged (ref (fail 1:1) (fail 1:4))\n",
    ),
    (
        "(: (: (: (make-vector 2 #t) (Vect Dyn)) Dyn) (Vect Bool))",
        "1:7 (Vect Bool) => (Vect Dyn) (vect (inject Bool) (project Bool 1:7))\n\
          1:4 (Vect Dyn) => Dyn (inject (Vect Dyn)) \
          merged (seq (vect (inject Bool) (project Bool 1:7)) (inject (Vect Dyn)))\n\
          1:1 Dyn => (Vect Bool) (project (Vect Bool) 1:1) \
          merged (vect (project Bool 1:1) (inject Bool))\n",
    ),
    (
        "(: (: (tuple #t 1) (Tuple Dyn Int)) (Tuple Bool Dyn))",
        "1:4 (Tuple Bool Int) => (Tuple Dyn Int) (tuple (inject Bool) id)\n\
          1:1 (Tuple Dyn Int) => (Tuple Bool Dyn) (tuple (project Bool 1:1) (inject Int)) \
          merged (tuple id (inject Int))\n",
    ),
];

#[test]
fn casts_of_boxes_vectors_and_tuples_are_listed(rt: HostRuntime) -> Result<(), Fail> {
    have_listings(&rt, rt.alloc(), CONTAINERS)
}

// Adds a text so many times.
fn add(rt: &impl Abort, source: &mut Text, part: &[u8], count: u8) {
    for _ in 0..count {
        source.extend(part).expect(rt, "memory");
    }
}

// So many references to references of an integer, cast to as many of Dyn.
fn nested(rt: &impl Abort, alloc: Global, depth: u8) -> Text {
    let mut source = Text::new(alloc);
    add(rt, &mut source, b"(: ", 1);
    add(rt, &mut source, b"(box ", depth);
    add(rt, &mut source, b"1", 1);
    add(rt, &mut source, b")", depth);
    add(rt, &mut source, b" ", 1);
    add(rt, &mut source, b"(Ref ", depth);
    add(rt, &mut source, b"Dyn", 1);
    add(rt, &mut source, b")", depth);
    add(rt, &mut source, b")", 1);
    source
}

// Whether the cast listing of a source is written.
fn is_written(alloc: Global, source: &[u8]) -> Result<bool, Fail> {
    Ok(listed(alloc, source)?.is_some())
}

// The coercion of such a cast has one more than twice as many parts with each reference. Ten have a text; of sixty no
// memory holds it, and that is answered at once.
#[test]
fn texts_that_no_memory_holds_are_not_begun(rt: HostRuntime) -> Result<(), Fail> {
    for (depth, written) in [(1, true), (10, true), (60, false), (190, false)] {
        let source = nested(&rt, rt.alloc(), depth);
        assert!(rt;
            is_written(rt.alloc(), source.as_slice())? == written,
            "{depth}"
        );
    }
    Ok(())
}
