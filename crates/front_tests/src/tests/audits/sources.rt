// The audits of sources.

use blame_audit::texts::audit_text;
use front_end::elaborate_text;
use grift_base::lists::Text;
use std::alloc::Global;
use std::process::Abort;
use std::test::Fail;

// The audit of a source that is short enough.
fn audited(alloc: Global, text: &[u8]) -> Result<Text, Fail> {
    if text.len() > 262144 {
        return Err(Fail::from("too long"));
    }
    let done = elaborate_text(alloc, text)?;
    Ok(audit_text(alloc, &done.elab, &done.types)?)
}

// Whether these are the lines of the audit of a source.
fn is_audit(alloc: Global, source: &str, lines: &str) -> Result<bool, Fail> {
    let text = audited(alloc, source.as_bytes())?;
    Ok(text.as_slice() == lines.as_bytes())
}

// Sources, and the lines of their audits.
type Audits = &'static [(&'static str, &'static str)];

// Each source has the lines that its row tells.
fn are_audits(rt: &impl Abort, alloc: Global, audits: Audits) -> Result<(), Fail> {
    for (source, lines) in audits {
        assert!(rt; is_audit(alloc, source, lines)?, "{source}");
    }
    Ok(())
}

const SAFE: Audits = &[
    ("42", "safe 0 of 0\n"),
    ("(: (: #t Dyn) Int)", "1:4\nsafe 1 of 2\n"),
    (
        "(let ([b (box 1)]) (let ([d (: b (Ref Dyn))]) (begin (box-set! d #t) (unbox b))))",
        "1:66\nsafe 1 of 2\n",
    ),
    (
        "(: (lambda ([x : Int]) : Int x) (Int -> Dyn))",
        "1:1\nsafe 1 of 1\n",
    ),
    (
        "(: (lambda ([x : Int]) : Int x) (Dyn -> Int))",
        "safe 0 of 1\n",
    ),
    ("(: (lambda (x) x) (Int -> Dyn))", "1:1\nsafe 1 of 1\n"),
    (
        "(: (: (tuple 1 #t) Dyn) (Tuple Int Int))",
        "1:4\nsafe 1 of 2\n",
    ),
    ("(: (box 1) (Ref Dyn))", "safe 0 of 1\n"),
];

#[test]
fn safe_labels_are_listed(rt: HostRuntime) -> Result<(), Fail> {
    are_audits(&rt, rt.alloc(), SAFE)
}

// A label that stands more than once is safe where each of its casts goes up and no part has it.
const REPEATED: Audits = &[
    // each use of the name is cast, with the place of the lambda
    (
        "(define f : (Int -> Dyn) (lambda ([x : Int]) : Int x))\n(f 1)\n(f 2)",
        "1:26\nsafe 1 of 1\n",
    ),
    // one cast into Dyn and one out of it, at one place
    ("(if (: #t Dyn) 1 2)", "safe 0 of 1\n"),
    // a cast into Dyn, and a part of what it holds
    ("(tuple-proj (: (tuple 1 2) Dyn) 1)", "safe 0 of 1\n"),
    (
        "(if #t (: 1 Dyn) (tuple-proj (: (tuple 1 2) Dyn) 1))",
        "1:8\nsafe 1 of 2\n",
    ),
];

#[test]
fn labels_may_stand_more_than_once(rt: HostRuntime) -> Result<(), Fail> {
    are_audits(&rt, rt.alloc(), REPEATED)
}

// Labels stand in the order in which the elaboration comes to them, an inner cast before the one around it.
const ORDERED: Audits = &[
    (
        "(: (: (lambda (x) x) (Int -> Dyn)) Dyn)",
        "1:4\n1:1\nsafe 2 of 2\n",
    ),
    ("(if #t (: 1 Dyn) 2)", "1:8\n1:18\nsafe 2 of 2\n"),
    (
        "(tuple\n (: 1 Dyn)\n (: (: 2 Dyn) Bool)\n (: () Dyn))",
        "2:2\n3:5\n4:2\nsafe 3 of 4\n",
    ),
];

#[test]
fn labels_stand_in_the_order_of_their_table(rt: HostRuntime) -> Result<(), Fail> {
    are_audits(&rt, rt.alloc(), ORDERED)
}
