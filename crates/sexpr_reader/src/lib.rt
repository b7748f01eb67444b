// The reader of s-expressions: from the bytes of a source to lists of lists.
#![tactic(auto)]

ghost use Rattle.std.specs.Prelude.{◌≡◌, ◌≤◌, ◌⊎◌, length, List, ℕ, IfOk, IfErr};
ghost use Rattle.grift_base.specs.declared.refusals.Refusal.{Refusal as ARefusal};
ghost use Rattle.sexpr_reader.specs.Datum.{Datums};
ghost use Rattle.sexpr_reader.specs.Refused.{IsRefused};
ghost use Rattle.sexpr_reader.specs.Token.{tokens};
ghost use Rattle.sexpr_reader.specs.Grammar.{FormsAll, Reads};
ghost use Rattle.sexpr_reader.specs.View.{datums_of};
ghost use Rattle.sexpr_reader.specs.Answers.{IsFault};

mod atoms;
mod readers;
mod scan;
pub mod sexps;

use crate::atoms::lexeme_meaning;
use crate::readers::Reader;
use crate::scan::{Cursor, next_token};
use crate::sexps::SexpList;
use grift_base::refusals::FrontFault;
use std::alloc::Global;

/// The s-expressions of a source, or the refusal of its first token that is refused. Where no token is, a source with
/// an open bracket at its end is refused at the innermost of these, and one without any token at its first byte.
pub fn read(alloc: Global, text: &[u8]) -> Result<SexpList, FrontFault>
    requires { length text.now ≤ 262144 }
    ensures reading { IfOk result (λ list. Reads text.now (datums_of list)) }
    ensures refused { IfErr result (IsFault text.now) }
{
    let mut reader = Reader::new(alloc);
    let mut cursor = Cursor::START;
    while let Some((token, next)) = next_token(text, cursor) {
        reader.take(token.pos, lexeme_meaning(alloc, token.lexeme)?)?;
        cursor = next;
    }
    reader.finish()
}

/// Each text reads as s-expressions or is refused.
pub fn a_text_reads_or_is_refused()
    ensures { (text : List ℕ) → ((ds : Datums) × Reads text ds) ⊎ ((r : ARefusal) × IsRefused text r) }
{}

/// A text that reads as s-expressions is not refused.
pub fn what_reads_is_not_refused()
    ensures { (text : List ℕ) (ds : Datums) (r : ARefusal) → Reads text ds → IsRefused text r → ⊥ }
{}

/// A text has at most one reading: no tokens form two rows of s-expressions.
pub fn a_text_has_one_reading()
    ensures { (text : List ℕ) (first second : Datums)
        → FormsAll (tokens text) first → FormsAll (tokens text) second → first ≡ second }
{}

/// A text is refused for one reason at one place.
pub fn a_text_has_one_refusal()
    ensures { (text : List ℕ) (first second : ARefusal)
        → IsRefused text first → IsRefused text second → first ≡ second }
{}
