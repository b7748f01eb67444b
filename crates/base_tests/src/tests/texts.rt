// Texts that are read as s-expressions, and texts that are refused.

use grift_base::places::Pos;
use grift_base::refusals::{FrontFault, Refusal, RefusalKind};
use sexpr_reader::read;
use sexpr_reader::sexps::{Sexp, SexpList, SexpNode};
use std::alloc::{AllocError, Global};
use std::fmt::Write;
use std::test::Fail;

// The s-expressions of a text that is short enough.
fn reading(alloc: Global, text: &[u8]) -> Result<SexpList, Fail> {
    if text.len() > 262144 {
        return Err(Fail::from("too long"));
    }
    Ok(read(alloc, text)?)
}

// Whether a text that is short enough has this refusal, or is read where it has none.
fn has_refusal(alloc: Global, text: &[u8], wanted: Option<Refusal>) -> bool {
    if text.len() > 262144 {
        return false;
    }
    match read(alloc, text) {
        Ok(_) => wanted.is_none(),
        Err(FrontFault::Refused(refusal)) => wanted == Some(refusal),
        Err(FrontFault::OutOfMemory) => false,
    }
}

// Writes each s-expression with its place behind it.
#[cycle(show)]
fn show_all(out: &mut String, mut list: &SexpList) -> Result<(), Fail> {
    while let SexpList::Cons(first, rest) = list {
        show(out, first)?;
        list = rest;
    }
    Ok(())
}

#[cycle(show)]
fn show(out: &mut String, sexp: &Sexp) -> Result<(), Fail> {
    match &sexp.node {
        SexpNode::Int(number) => write!(out, "{number}")?,
        SexpNode::Bool(truth) => out.push_str(if *truth { "#t" } else { "#f" })?,
        SexpNode::Symbol(name) => out.push_str(str::from_utf8(name.as_slice())?)?,
        SexpNode::List(list) => {
            out.push_str("(")?;
            show_all(out, list)?;
            out.push_str(")")?;
        }
    }
    let line = sexp.pos.line;
    let col = sexp.pos.col;
    write!(out, "@{line}:{col} ")?;
    Ok(())
}

// Whether this is shown of a text.
fn is_shown(alloc: Global, text: &[u8], expected: &str) -> Result<bool, Fail> {
    let list = reading(alloc, text)?;
    let mut out = String::new(alloc);
    show_all(&mut out, &list)?;
    Ok(out.as_str() == expected)
}

// A text, and what is shown of it.
const READ: &[(&str, &str)] = &[
    ("42", "42@1:1 "),
    ("(+ 1 -5)", "(+@1:2 1@1:4 -5@1:6 )@1:1 "),
    ("[a (b)] ()", "(a@1:2 (b@1:5 )@1:4 )@1:1 ()@1:9 "),
    ("#t #f", "#t@1:1 #f@1:4 "),
    ("+7 + - ... a->b", "7@1:1 +@1:4 -@1:6 ...@1:8 a->b@1:12 "),
    (
        "-.5 +.5 +-5 -a .a",
        "-.5@1:1 +.5@1:5 +-5@1:9 -a@1:13 .a@1:16 ",
    ),
    ("\ta\r\n\tb", "a@1:2 b@2:2 "),
    ("; note\na;b", "a@2:1 "),
    ("9223372036854775807", "9223372036854775807@1:1 "),
    ("-9223372036854775808", "-9223372036854775808@1:1 "),
    ("007 -0", "7@1:1 0@1:5 "),
    ("a(b)c#t", "a@1:1 (b@1:3 )@1:2 c@1:5 #t@1:6 "),
];

#[test]
fn texts_read(rt: HostRuntime) -> Result<(), Fail> {
    for (text, expected) in READ {
        assert!(rt; is_shown(rt.alloc(), text.as_bytes(), expected)?, "{text}");
    }
    Ok(())
}

// A text, the kind of its refusal, and the line and the column of that.
const REFUSED: &[(&str, RefusalKind, u32, u32)] = &[
    ("", RefusalKind::Empty, 1, 1),
    ("; note", RefusalKind::Empty, 1, 1),
    (" \n ; note\n", RefusalKind::Empty, 1, 1),
    ("{", RefusalKind::BadByte, 1, 1),
    ("a \x0c", RefusalKind::BadByte, 1, 3),
    ("a\n  'b", RefusalKind::BadByte, 2, 3),
    ("(+ 1 2", RefusalKind::Unclosed, 1, 1),
    ("(a\n [b", RefusalKind::Unclosed, 2, 2),
    ("(+ 1 2]", RefusalKind::Unopened, 1, 7),
    ("a)", RefusalKind::Unopened, 1, 2),
    ("9223372036854775808", RefusalKind::NumberRange, 1, 1),
    ("-9223372036854775809", RefusalKind::NumberRange, 1, 1),
    ("1.5", RefusalKind::NotInProfile, 1, 1),
    ("a 1+", RefusalKind::NotInProfile, 1, 3),
    ("-5x", RefusalKind::NotInProfile, 1, 1),
    ("+7.", RefusalKind::NotInProfile, 1, 1),
    (".5", RefusalKind::NotInProfile, 1, 1),
    ("#true", RefusalKind::NotInProfile, 1, 1),
    ("(\"a", RefusalKind::NotInProfile, 1, 2),
    ("# ]", RefusalKind::NotInProfile, 1, 1),
    // two faults in one text
    (") {", RefusalKind::Unopened, 1, 1),
    ("{ )", RefusalKind::BadByte, 1, 1),
    ("(1.5", RefusalKind::NotInProfile, 1, 2),
    ("(\n[)]", RefusalKind::Unopened, 2, 2),
    ("[(] 99999999999999999999", RefusalKind::Unopened, 1, 3),
    ("(a) (b [c] (d", RefusalKind::Unclosed, 1, 12),
    ("((a) [b", RefusalKind::Unclosed, 1, 6),
];

#[test]
fn texts_are_refused_where_they_first_fail(rt: HostRuntime) {
    for (text, kind, line, col) in REFUSED {
        let pos = Pos {
            line: *line,
            col: *col,
        };
        let refused = Refusal { kind: *kind, pos };
        assert!(rt;
            has_refusal(rt.alloc(), text.as_bytes(), Some(refused)),
            "{text}"
        );
    }
}

// The refusal of this kind in the first line.
fn refused_at(kind: RefusalKind, col: u32) -> Refusal {
    let pos = Pos { line: 1, col };
    Refusal { kind, pos }
}

// Whether a text of so many lists that are opened, and so many that are closed, has this refusal.
fn nested_has_refusal(
    alloc: Global,
    opened: usize,
    closed: usize,
    wanted: Option<Refusal>,
) -> Result<bool, AllocError> {
    let mut text = vec![in alloc; b'('; opened]?;
    for _ in 0..closed {
        text.push(b')')?;
    }
    Ok(has_refusal(alloc, text.as_slice(), wanted))
}

#[test]
fn lists_nest_two_hundred_deep(rt: HostRuntime) {
    for (opened, closed, wanted) in [
        (201, 0, Some(refused_at(RefusalKind::TooDeep, 201))),
        (200, 0, Some(refused_at(RefusalKind::Unclosed, 200))),
        (200, 200, None),
    ] {
        assert!(rt;
            matches!(
                nested_has_refusal(rt.alloc(), opened, closed, wanted),
                Ok(true)
            ),
            "{opened} opened, {closed} closed"
        );
    }
}

// A byte, and the kind and the column of the refusal of the longest text of it.
const LARGE: &[(u8, RefusalKind, u32)] = &[
    (b'(', RefusalKind::TooDeep, 201),
    (b';', RefusalKind::Empty, 1),
    (b'"', RefusalKind::NotInProfile, 1),
    (b' ', RefusalKind::Empty, 1),
    (b'1', RefusalKind::NumberRange, 1),
];

// Whether that text has this refusal.
fn large_has_refusal(alloc: Global, byte: u8, refused: Refusal) -> Result<bool, AllocError> {
    let text = vec![in alloc; byte; 262144]?;
    Ok(has_refusal(alloc, text.as_slice(), Some(refused)))
}

#[test]
fn large_texts_are_refused(rt: HostRuntime) {
    for (byte, kind, col) in LARGE {
        let refused = refused_at(*kind, *col);
        assert!(rt;
            matches!(large_has_refusal(rt.alloc(), *byte, refused), Ok(true)),
            "{byte}"
        );
    }
}

// A list of 131,068 symbols.
fn long_text(alloc: Global) -> Result<Vec<u8>, AllocError> {
    let mut text = vec![in alloc; b'('; 1]?;
    for _ in 0..131068 {
        text.extend_from_slice(b"a ")?;
    }
    text.push(b')')?;
    Ok(text)
}

// How many s-expressions there are in a list that is the first of others.
fn length_of_first(list: &SexpList) -> u64 {
    let mut count = 0u64;
    if let SexpList::Cons(first, _) = list {
        if let SexpNode::List(items) = &first.node {
            let mut rest = items;
            while let SexpList::Cons(_, others) = rest {
                count = count.wrapping_add(1);
                rest = others;
            }
        }
    }
    count
}

// How many symbols of the long list are read.
fn symbols_read(alloc: Global) -> Result<u64, Fail> {
    let text = long_text(alloc)?;
    let list = reading(alloc, text.as_slice())?;
    Ok(length_of_first(&list))
}

#[test]
fn long_lists_are_read_and_dropped(rt: HostRuntime) -> Result<(), Fail> {
    assert!(rt; symbols_read(rt.alloc())? == 131068);
    Ok(())
}
