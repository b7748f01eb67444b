// Which words are which command. Words that are none stand among the calls.

use crate::tests::words::words_of;
use command_words::commands::{Command, image_name, read_words};
use std::alloc::Global;
use std::process::Abort;

const COMMANDS: &[(&str, Command<'static>)] = &[
    (
        "run a",
        Command::Run {
            file: "a",
            region: 16_777_216,
            stack: 1_048_576,
            steps: 100_000_000,
            input: None,
            space: false,
            image: None,
        },
    ),
    (
        "run --region",
        Command::Run {
            file: "--region",
            region: 16_777_216,
            stack: 1_048_576,
            steps: 100_000_000,
            input: None,
            space: false,
            image: None,
        },
    ),
    (
        "run a --region 8 --stack 16 --steps 0",
        Command::Run {
            file: "a",
            region: 8,
            stack: 16,
            steps: 0,
            input: None,
            space: false,
            image: None,
        },
    ),
    (
        "run a --region 1073741824",
        Command::Run {
            file: "a",
            region: 1_073_741_824,
            stack: 1_048_576,
            steps: 100_000_000,
            input: None,
            space: false,
            image: None,
        },
    ),
    (
        "run a --stack 268435456",
        Command::Run {
            file: "a",
            region: 16_777_216,
            stack: 268_435_456,
            steps: 100_000_000,
            input: None,
            space: false,
            image: None,
        },
    ),
    (
        "run a --steps 0000000000000000005",
        Command::Run {
            file: "a",
            region: 16_777_216,
            stack: 1_048_576,
            steps: 5,
            input: None,
            space: false,
            image: None,
        },
    ),
    (
        "run a --steps 7 --image --image",
        Command::Run {
            file: "a",
            region: 16_777_216,
            stack: 1_048_576,
            steps: 7,
            input: None,
            space: false,
            image: Some("--image"),
        },
    ),
    (
        "run a --input --image --image --input",
        Command::Run {
            file: "a",
            region: 16_777_216,
            stack: 1_048_576,
            steps: 100_000_000,
            input: Some("--image"),
            space: false,
            image: Some("--input"),
        },
    ),
    (
        "exec a",
        Command::Exec {
            file: "a",
            region: 16_777_216,
            stack: 1_048_576,
            steps: 100_000_000,
            input: None,
        },
    ),
    (
        "exec a --stack 0",
        Command::Exec {
            file: "a",
            region: 16_777_216,
            stack: 0,
            steps: 100_000_000,
            input: None,
        },
    ),
    (
        "exec a --steps 9223372036854775807",
        Command::Exec {
            file: "a",
            region: 16_777_216,
            stack: 1_048_576,
            steps: 9_223_372_036_854_775_807,
            input: None,
        },
    ),
    (
        "exec a --steps 7 --input b",
        Command::Exec {
            file: "a",
            region: 16_777_216,
            stack: 1_048_576,
            steps: 7,
            input: Some("b"),
        },
    ),
    ("check a", Command::Check { file: "a" }),
    ("audit a", Command::Audit { file: "a" }),
    (
        "model a --steps 0",
        Command::Model {
            file: "a",
            steps: 0,
            input: None,
        },
    ),
    (
        "model a --steps 10000000 --input b",
        Command::Model {
            file: "a",
            steps: 10_000_000,
            input: Some("b"),
        },
    ),
];

// Whether a line is read as this command, and has the name that it has for an image.
fn is_read(rt: &impl Abort, alloc: Global, line: &str, command: Command<'static>) -> bool {
    let words = words_of(rt, alloc, line);
    let image = match command {
        Command::Run { image, .. } => image,
        _ => None,
    };
    read_words(words.as_slice()) == Some(command) && image_name(words.as_slice()) == image
}

#[test]
fn words_and_commands(rt: HostRuntime) {
    for (line, command) in COMMANDS {
        assert!(rt; is_read(&rt, rt.alloc(), line, *command), "{line}");
    }
}
