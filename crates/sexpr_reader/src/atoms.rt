// What a token is by itself.

ghost use Rattle.std.specs.Prelude.{◌≡◌, IfOk};
ghost use Rattle.sexpr_reader.specs.Meaning.{begins_like_number, meaning, atom_meaning, hash_meaning};
ghost use Rattle.sexpr_reader.specs.Scanning.{lexeme_of};

use crate::scan::{Lexeme, Shape};
use grift_base::lists::{Name, OutOfMemory};
use grift_base::numbers::{integer, is_integer};
use grift_base::refusals::RefusalKind;
use std::alloc::Global;

/// What a token is by itself.
#[derive(Drop)]
pub enum Meaning {
    Opening(Shape),
    Closing(Shape),
    Int(i64),
    Bool(bool),
    Symbol(Name),
    Refused(RefusalKind),
}

// Whether an atom begins with a digit, or with a sign or a point and a digit.
fn begins_like_number(atom: &[u8]) -> bool
    ensures { result ≡ begins_like_number atom.now }
{
    match atom {
        [b'+' | b'-' | b'.', second, ..] => second.is_ascii_digit(),
        [first, ..] => first.is_ascii_digit(),
        [] => false,
    }
}

fn atom_meaning(alloc: Global, atom: &[u8]) -> Result<Meaning, OutOfMemory>
    ensures { IfOk result (λ m. m ≡ atom_meaning atom.now) }
{
    if is_integer(atom) {
        return match integer(atom) {
            Some(number) => Ok(Meaning::Int(number)),
            None => Ok(Meaning::Refused(RefusalKind::NumberRange)),
        };
    }
    if begins_like_number(atom) {
        return Ok(Meaning::Refused(RefusalKind::NotInProfile));
    }
    let name = Name::from_slice(alloc, atom)?;
    Ok(Meaning::Symbol(name))
}

fn hash_meaning(atom: &[u8]) -> Meaning
    ensures { result ≡ hash_meaning atom.now }
{
    match atom {
        b"t" => Meaning::Bool(true),
        b"f" => Meaning::Bool(false),
        _ => Meaning::Refused(RefusalKind::NotInProfile),
    }
}

/// What a token with this lexeme is by itself.
pub fn lexeme_meaning(alloc: Global, lexeme: Lexeme<'_>) -> Result<Meaning, OutOfMemory>
    ensures { IfOk result (λ m. m ≡ meaning (lexeme_of lexeme.entry)) }
{
    match lexeme {
        Lexeme::Open(shape) => Ok(Meaning::Opening(shape)),
        Lexeme::Close(shape) => Ok(Meaning::Closing(shape)),
        Lexeme::Atom(atom) => atom_meaning(alloc, atom),
        Lexeme::HashAtom(atom) => Ok(hash_meaning(atom)),
        Lexeme::Quote => Ok(Meaning::Refused(RefusalKind::NotInProfile)),
        Lexeme::Other => Ok(Meaning::Refused(RefusalKind::BadByte)),
    }
}
