// What a program does to the outside, and what it learns of it.

use grift_base::lists::{Bytes, OutOfMemory};
use grift_base::verdicts::{Answer, AnswerKind, Trap};
use grift_base::worlds::{EnvEffect, World};
use std::alloc::Global;

fn quiet_world(alloc: Global) -> World {
    World::new(alloc, Bytes::new(alloc))
}

// Whether a world with nothing to read prints an integer and a byte one after the other.
fn prints_both(alloc: Global) -> Result<bool, OutOfMemory> {
    let mut world = quiet_world(alloc);
    world.print_int(-7)?;
    world.print_byte(b'\n')?;
    Ok(world.place == 0 && world.output.as_slice() == b"-7\n".as_slice())
}

#[test]
fn prints(rt: HostRuntime) {
    assert!(rt; matches!(prints_both(rt.alloc()), Ok(true)));
}

// A number of a call, its two arguments and how many labels there are.
type Call = (u64, u64, u64, u32);

// Whether a call comes to this, and prints this.
fn comes_to(alloc: Global, call: Call, effect: EnvEffect, text: &str) -> bool {
    let mut world = quiet_world(alloc);
    let (number, a0, a1, labels) = call;
    world.env(number, a0, a1, labels) == effect && world.output.as_slice() == text.as_bytes()
}

// What call 0 comes to with a kind and a word, of which the kind takes the words below another.
fn ending(kind: AnswerKind, word: u64, taken: u64) -> EnvEffect {
    if word < taken {
        EnvEffect::Ended(Answer {
            kind,
            word: word.cast_signed(),
        })
    } else {
        EnvEffect::Refused
    }
}

// The number of a kind, and how many of the words 0, 1 and 2 it takes.
const ENDS: &[(u64, AnswerKind, u64)] = &[
    (0, AnswerKind::Int, 3),
    (1, AnswerKind::Bool, 2),
    (2, AnswerKind::Unit, 1),
    (3, AnswerKind::Function, 1),
    (4, AnswerKind::Tuple, 1),
    (5, AnswerKind::Boxed, 1),
    (6, AnswerKind::Vector, 1),
    (7, AnswerKind::Vector, 0),
];

#[test]
fn ends_with_each_kind(rt: HostRuntime) {
    for (number, kind, taken) in ENDS {
        for word in 0..3 {
            let wanted = ending(*kind, word, *taken);
            assert!(rt;
                comes_to(rt.alloc(), (0, *number, word, 0), wanted, ""),
                "kind {number}, word {word}"
            );
        }
    }
}

// The number of a call, its argument, what it comes to in a program with two labels, and what it prints.
const CALLS: &[(u64, u64, EnvEffect, &str)] = &[
    (1, 0, EnvEffect::Next(0, 9), "0"),
    (
        1,
        0x7FFF_FFFF_FFFF_FFFF,
        EnvEffect::Next(0x7FFF_FFFF_FFFF_FFFF, 9),
        "9223372036854775807",
    ),
    (
        1,
        0x8000_0000_0000_0000,
        EnvEffect::Next(0x8000_0000_0000_0000, 9),
        "-9223372036854775808",
    ),
    (2, 256 + 65, EnvEffect::Next(256 + 65, 9), "A"),
    (3, 1, EnvEffect::Blamed(1), ""),
    (3, 2, EnvEffect::Refused, ""),
    (4, 0, EnvEffect::Refused, ""),
    (4, 1, EnvEffect::Trapped(Trap::ZeroDivisor), ""),
    (4, 2, EnvEffect::Trapped(Trap::Index), ""),
    (4, 3, EnvEffect::Trapped(Trap::Length), ""),
    (4, 4, EnvEffect::Trapped(Trap::Input), ""),
    (4, 5, EnvEffect::Refused, ""),
    (5, 1, EnvEffect::RegionOut, ""),
    (6, 1, EnvEffect::StackOut, ""),
    (7, 0, EnvEffect::Next(0, 1), ""),
    (8, 0, EnvEffect::Refused, ""),
    (0xFFFF_FFFF_FFFF_FFFF, 0, EnvEffect::Refused, ""),
];

#[test]
fn makes_each_other_call(rt: HostRuntime) {
    for (number, a0, effect, text) in CALLS {
        assert!(rt;
            comes_to(rt.alloc(), (*number, *a0, 9, 2), *effect, text),
            "call {number} of {a0}"
        );
    }
}

// An input, each number that is read, and the place behind it; the last answer of each input is none.
const INPUTS: &[(&str, [(Option<i64>, u64); 3])] = &[
    ("+3\n4", [(Some(3), 2), (Some(4), 4), (None, 4)]),
    (
        " \t\r\n-17 008\n",
        [(Some(-17), 7), (Some(8), 11), (None, 12)],
    ),
    (
        "9223372036854775807 -9223372036854775808",
        [
            (Some(9223372036854775807), 19),
            (Some(-9223372036854775808), 40),
            (None, 40),
        ],
    ),
    (
        "1 9223372036854775808",
        [(Some(1), 1), (None, 2), (None, 2)],
    ),
    ("2 - 3", [(Some(2), 1), (None, 2), (None, 2)]),
    ("5 6x 7", [(Some(5), 1), (None, 2), (None, 2)]),
    (" \x0c8", [(None, 1), (None, 1), (None, 1)]),
];

// Whether these numbers are read, and then these places stand.
fn is_read(
    alloc: Global,
    input: &str,
    answers: &[(Option<i64>, u64); 3],
) -> Result<bool, OutOfMemory> {
    let mut world = World::new(alloc, Bytes::from_slice(alloc, input.as_bytes())?);
    let mut all = true;
    for answer in answers {
        let number = world.read_int();
        all = all && (number, world.place) == *answer;
    }
    Ok(all)
}

#[test]
fn reads_numbers(rt: HostRuntime) {
    for (input, answers) in INPUTS {
        assert!(rt;
            matches!(is_read(rt.alloc(), input, answers), Ok(true)),
            "in {input}"
        );
    }
}

// Whether call 7 hands back each number as a word and 0, and where there is none 0 and 1.
fn is_read_by_call(alloc: Global, input: &[u8]) -> Result<bool, OutOfMemory> {
    let mut world = World::new(alloc, Bytes::from_slice(alloc, input)?);
    let mut all = true;
    for wanted in [
        (EnvEffect::Next(5, 0), 1),
        (EnvEffect::Next(0x8000_0000_0000_0000, 0), 22),
        (EnvEffect::Next(0, 1), 23),
        (EnvEffect::Next(0, 1), 23),
    ] {
        let effect = world.env(7, 8, 9, 0);
        all = all && (effect, world.place) == wanted;
    }
    Ok(all)
}

#[test]
fn reads_by_call(rt: HostRuntime) {
    let input = b"5 -9223372036854775808 9223372036854775808";
    assert!(rt; matches!(is_read_by_call(rt.alloc(), input), Ok(true)));
}
