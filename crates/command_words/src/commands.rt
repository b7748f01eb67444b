// The words of the command line.

ghost use Rattle.std.specs.Prelude.{ℕ, ◌≡◌, ◌≢◌, ◌≤◌, ◌<◌, ◌%◌, ◌∷◌, [], List, Option, codes, map, string_bytes};
ghost use Rattle.std.specs.Prelude.{MatchOption};
ghost use Rattle.command_words.specs.Commands.{Command as WordsCommand, IsNumber, IsCommand, AreNoCommand};
ghost use Rattle.command_words.specs.Commands.{default_limits};
ghost use Rattle.command_words.specs.ReadCommands.{NumberAtFront, NameAtFront, FlagAtFront, LimitsAtFront};
ghost use Rattle.command_words.specs.ReadCommands.{StepsAtFront, IsWithin, GivesImage, GivesNoImage, HasNoOptions};
ghost use Rattle.command_words.specs.ReadCommands.{command_of, name_bytes};

// The limits of a run: the greatest that may be told, and what they are where none is told.
const MOST_REGION: u64 = 1_073_741_824;

const DEFAULT_REGION: u64 = 16_777_216;

const MOST_STACK: u64 = 268_435_456;

const DEFAULT_STACK: u64 = 1_048_576;

const MOST_STEPS: u64 = 9_223_372_036_854_775_807;

const DEFAULT_STEPS: u64 = 100_000_000;

// The most steps that a model may be given.
const MOST_MODEL_STEPS: u64 = 10_000_000;

// The greatest number that has a program.
const MOST_NUMBER: u64 = 200;

/// A command of the program.
#[derive(Clone, Copy, PartialEq, Eq)]
pub enum Command<'a> {
    /// A file that is compiled and run, the file of its input, if it gets one, whether its storage is told, and the
    /// name of its image, if it gets one.
    Run {
        file: &'a str,
        region: u64,
        stack: u64,
        steps: u64,
        input: Option<&'a str>,
        space: bool,
        image: Option<&'a str>,
    },
    /// An image in a file that is run, and the file of its input, if it gets one.
    Exec {
        file: &'a str,
        region: u64,
        stack: u64,
        steps: u64,
        input: Option<&'a str>,
    },
    /// A file whose program's type and number of casts are put.
    Check {
        file: &'a str,
    },
    /// A file whose program's safe labels are put.
    Audit {
        file: &'a str,
    },
    /// A file whose program's casts are put, a line each.
    Casts {
        file: &'a str,
    },
    /// A file whose program's code is put, a line for each instruction.
    Code {
        file: &'a str,
    },
    /// A file whose program's image is put.
    ImageOf {
        file: &'a str,
    },
    /// A file whose program's calculus is run for so many steps at most, and the file of its input, if it gets one.
    Model {
        file: &'a str,
        steps: u64,
        input: Option<&'a str>,
    },
    /// A number whose program is made, compiled and run, and told in numbers.
    Gen {
        number: u32,
    },
}

/// The limits of a run: bytes of the region, bytes of the stack, and instructions.
#[derive(Clone, Copy, PartialEq, Eq)]
pub struct Limits {
    pub region: u64,
    pub stack: u64,
    pub steps: u64,
}

/// The limits of a run whose words tell none.
pub fn default_limits() -> Limits
    ensures { result ≡ default_limits }
{
    Limits {
        region: DEFAULT_REGION,
        stack: DEFAULT_STACK,
        steps: DEFAULT_STEPS,
    }
}

// The number that a word is.
fn number_in(word: &str) -> Option<u64>
    ensures { MatchOption result ((n : ℕ) → IsNumber word.now n → ⊥) (λ n. IsNumber word.now n) }
{
    let digits = word.as_bytes();
    if digits.is_empty() || digits.len() > 19 {
        return None;
    }
    let mut n = 0;
    for digit in digits {
        if *digit < b'0' || *digit > b'9' {
            return None;
        }
        n = n * 10 + u64::from(*digit - b'0');
    }
    Some(n)
}

// The number of an option, which is the default where the words don't begin with its name, and the words after it.
fn number_after<'a>(
    words: &'a [String],
    name: &str,
    most: u64,
    multiple: u64,
    default: u64,
) -> Option<(u64, &'a [String])>
    requires { 0 < multiple }
    ensures { let InFront = NumberAtFront name.now (IsWithin multiple most) default (map string_bytes words.now) in
        MatchOption result
        ((n : ℕ) (rest : List (List ℕ)) → InFront n rest → ⊥)
        (λ found. InFront found.0 (map string_bytes found.1.now)) }
{
    let [first, rest @ ..] = words else {
        return Some((default, words));
    };
    if first.as_str() != name {
        return Some((default, words));
    }
    let [word, rest @ ..] = rest else {
        return None;
    };
    let n = number_in(word.as_str())?;
    if n > most || n % multiple != 0 {
        return None;
    }
    Some((n, rest))
}

// The limits at the front of the words, and the words after them.
fn limits_after(words: &[String]) -> Option<(Limits, &[String])>
    ensures { MatchOption result
        ((limits : Limits) (rest : List (List ℕ)) → LimitsAtFront (map string_bytes words.now) limits rest → ⊥)
        (λ found. LimitsAtFront (map string_bytes words.now) (found.0) (map string_bytes found.1.now)) }
{
    let (region, rest) = number_after(words, "--region", MOST_REGION, 8, DEFAULT_REGION)?;
    let (stack, rest) = number_after(rest, "--stack", MOST_STACK, 8, DEFAULT_STACK)?;
    let (steps, rest) = number_after(rest, "--steps", MOST_STEPS, 1, DEFAULT_STEPS)?;
    Some((
        Limits {
            region,
            stack,
            steps,
        },
        rest,
    ))
}

// The name of an option, which is none where the words don't begin with its word, and the words after it.
fn name_after<'a>(words: &'a [String], option: &str) -> Option<(Option<&'a str>, &'a [String])>
    ensures { let InFront = NameAtFront option.now (map string_bytes words.now) in
        MatchOption result
        ((name : Option (List ℕ)) (rest : List (List ℕ)) → InFront name rest → ⊥)
        (λ found. InFront (name_bytes found.0) (map string_bytes found.1.now)) }
{
    let [first, rest @ ..] = words else {
        return Some((None, words));
    };
    if first.as_str() != option {
        return Some((None, words));
    }
    let [name, rest @ ..] = rest else {
        return None;
    };
    let name = name.as_str();
    if name.is_empty() {
        return None;
    }
    Some((Some(name), rest))
}

// Whether the words begin with this one, and the words after it.
fn flag_after<'a>(words: &'a [String], option: &str) -> (bool, &'a [String])
    ensures { FlagAtFront option.now (map string_bytes words.now) result.0 (map string_bytes result.1.now) }
{
    let [first, rest @ ..] = words else {
        return (false, words);
    };
    if first.as_str() != option {
        return (false, words);
    }
    (true, rest)
}

// The run command of a file with these options, if they are its options.
fn run_of<'a>(file: &'a str, options: &'a [String]) -> Option<Command<'a>>
    requires { file.now ≢ [] }
    ensures { (words : List (List ℕ)) → words ≡ codes "run" ∷ file.now ∷ map string_bytes options.now
        → MatchOption result (AreNoCommand words) (λ command. IsCommand words (command_of command)) }
{
    let (limits, rest) = limits_after(options)?;
    let (input, rest) = name_after(rest, "--input")?;
    let (space, rest) = flag_after(rest, "--space");
    let (image, rest) = name_after(rest, "--image")?;
    if !rest.is_empty() {
        return None;
    }
    Some(Command::Run {
        file,
        region: limits.region,
        stack: limits.stack,
        steps: limits.steps,
        input,
        space,
        image,
    })
}

// The exec command of a file with these options, if they are its options.
fn exec_of<'a>(file: &'a str, options: &'a [String]) -> Option<Command<'a>>
    requires { file.now ≢ [] }
    ensures { (words : List (List ℕ)) → words ≡ codes "exec" ∷ file.now ∷ map string_bytes options.now
        → MatchOption result (AreNoCommand words) (λ command. IsCommand words (command_of command)) }
{
    let (limits, rest) = limits_after(options)?;
    let (input, rest) = name_after(rest, "--input")?;
    if !rest.is_empty() {
        return None;
    }
    Some(Command::Exec {
        file,
        region: limits.region,
        stack: limits.stack,
        steps: limits.steps,
        input,
    })
}

// The steps of a model at the front of the words, and the words after them.
fn steps_at_front(words: &[String]) -> Option<(u64, &[String])>
    ensures { MatchOption result
        ((steps : ℕ) (rest : List (List ℕ)) → StepsAtFront (map string_bytes words.now) steps rest → ⊥)
        (λ found. StepsAtFront (map string_bytes words.now) found.0 (map string_bytes found.1.now)) }
{
    let [first, rest @ ..] = words else {
        return None;
    };
    if first.as_str() != "--steps" {
        return None;
    }
    let [word, rest @ ..] = rest else {
        return None;
    };
    let steps = number_in(word.as_str())?;
    if steps > MOST_MODEL_STEPS {
        return None;
    }
    Some((steps, rest))
}

// The model command of a file with these options, if they are its options.
fn model_of<'a>(file: &'a str, options: &'a [String]) -> Option<Command<'a>>
    requires { file.now ≢ [] }
    ensures { (words : List (List ℕ)) → words ≡ codes "model" ∷ file.now ∷ map string_bytes options.now
        → MatchOption result (AreNoCommand words) (λ command. IsCommand words (command_of command)) }
{
    let (steps, rest) = steps_at_front(options)?;
    let (input, rest) = name_after(rest, "--input")?;
    if !rest.is_empty() {
        return None;
    }
    Some(Command::Model { file, steps, input })
}

// The gen command of a number, if the word is one that has a program.
fn gen_of<'a>(number: &str) -> Option<Command<'a>>
    ensures { (words : List (List ℕ)) → words ≡ codes "gen" ∷ number.now ∷ []
        → MatchOption result (AreNoCommand words) (λ command. IsCommand words (command_of command)) }
{
    let number = number_in(number)?;
    if number < 1 || number > MOST_NUMBER {
        return None;
    }
    Some(Command::Gen {
        number: number as u32,
    })
}

// The command of these two words, if they are one; it is none that may have options.
fn pair_of<'a>(command: &str, second: &'a str) -> Option<Command<'a>>
    requires some { second.now ≢ [] }
    requires other { HasNoOptions command.now }
    ensures { (words : List (List ℕ)) → words ≡ command.now ∷ second.now ∷ []
        → MatchOption result (AreNoCommand words) (λ command. IsCommand words (command_of command)) }
{
    match command {
        "check" => Some(Command::Check { file: second }),
        "audit" => Some(Command::Audit { file: second }),
        "casts" => Some(Command::Casts { file: second }),
        "code" => Some(Command::Code { file: second }),
        "image" => Some(Command::ImageOf { file: second }),
        "gen" => gen_of(second),
        _ => None,
    }
}

/// The command that the words are; none exactly where they are none. Takes no memory.
pub fn read_words(words: &[String]) -> Option<Command<'_>>
    ensures { let texts = map string_bytes words.now in
        MatchOption result (AreNoCommand texts) (λ command. IsCommand texts (command_of command)) }
{
    let [command, second, options @ ..] = words else {
        return None;
    };
    let second = second.as_str();
    if second.is_empty() {
        return None;
    }
    match command.as_str() {
        "run" => run_of(second, options),
        "exec" => exec_of(second, options),
        "model" => model_of(second, options),
        word if options.is_empty() => pair_of(word, second),
        _ => None,
    }
}

/// The name that a run command gives its image, if it gives one. Takes no memory.
pub fn image_name(words: &[String]) -> Option<&str>
    ensures { let texts = map string_bytes words.now in
        MatchOption result (GivesNoImage texts) (λ name. GivesImage texts name.now) }
{
    let Command::Run { image, .. } = read_words(words)? else {
        return None;
    };
    image
}

/// No words are two commands.
pub fn words_are_one_command()
    ensures { (words : List (List ℕ)) (first second : WordsCommand)
        → IsCommand words first → IsCommand words second → first ≡ second }
{}
