// Verdicts and the lines that tell them.

use grift_base::lists::OutOfMemory;
use grift_base::places::Pos;
use grift_base::verdicts::{Answer, AnswerKind, Trap, Verdict, verdict_line};
use std::alloc::Global;

#[test]
fn traps_have_numbers_and_texts(rt: HostRuntime) {
    let table = [
        (Trap::ZeroDivisor, 1, "zero-divisor"),
        (Trap::Index, 2, "index"),
        (Trap::Length, 3, "length"),
        (Trap::Input, 4, "input"),
    ];
    for (trap, number, text) in table {
        assert!(rt; (trap.number(), trap.text()) == (number, text));
    }
}

#[test]
fn answer_kinds_have_numbers(rt: HostRuntime) {
    let kinds = [
        AnswerKind::Int,
        AnswerKind::Bool,
        AnswerKind::Unit,
        AnswerKind::Function,
        AnswerKind::Tuple,
        AnswerKind::Boxed,
        AnswerKind::Vector,
    ];
    for (number, kind) in kinds.iter().enumerate() {
        assert!(rt; usize::from(kind.number()) == number);
    }
}

// What a run ended with, and the line that tells it.
const LINES: &[(Verdict, &str)] = &[
    (
        Verdict::Answer(Answer {
            kind: AnswerKind::Int,
            word: 42,
        }),
        "answer 42\n",
    ),
    (
        Verdict::Answer(Answer {
            kind: AnswerKind::Int,
            word: i64::MIN,
        }),
        "answer -9223372036854775808\n",
    ),
    (
        Verdict::Answer(Answer {
            kind: AnswerKind::Bool,
            word: 0,
        }),
        "answer #f\n",
    ),
    (
        Verdict::Answer(Answer {
            kind: AnswerKind::Bool,
            word: 1,
        }),
        "answer #t\n",
    ),
    (
        Verdict::Answer(Answer {
            kind: AnswerKind::Unit,
            word: 0,
        }),
        "answer ()\n",
    ),
    (
        Verdict::Answer(Answer {
            kind: AnswerKind::Function,
            word: 0,
        }),
        "answer #<function>\n",
    ),
    (
        Verdict::Answer(Answer {
            kind: AnswerKind::Tuple,
            word: 0,
        }),
        "answer #<tuple>\n",
    ),
    (
        Verdict::Answer(Answer {
            kind: AnswerKind::Boxed,
            word: 0,
        }),
        "answer #<box>\n",
    ),
    (
        Verdict::Answer(Answer {
            kind: AnswerKind::Vector,
            word: 0,
        }),
        "answer #<vector>\n",
    ),
    (Verdict::Blame(Pos { line: 3, col: 14 }), "blame 3:14\n"),
    (Verdict::Trap(Trap::ZeroDivisor), "trap zero-divisor\n"),
    (Verdict::Trap(Trap::Index), "trap index\n"),
    (Verdict::Trap(Trap::Length), "trap length\n"),
    (Verdict::Trap(Trap::Input), "trap input\n"),
    (Verdict::RegionOut, "exhausted region\n"),
    (Verdict::StackOut, "exhausted stack\n"),
    (Verdict::StepsSpent, "spent steps\n"),
];

// Whether this is a verdict's line.
fn is_line(alloc: Global, verdict: &Verdict, text: &str) -> Result<bool, OutOfMemory> {
    let line = verdict_line(alloc, verdict)?;
    Ok(line.as_slice() == text.as_bytes())
}

#[test]
fn verdicts_have_lines(rt: HostRuntime) {
    for (verdict, text) in LINES {
        assert!(rt;
            matches!(is_line(rt.alloc(), verdict, text), Ok(true)),
            "{text}"
        );
    }
}
