//! The run over words follows the run of numbered procedures, and keeps within its account. A function here does
//! nothing: its contract is a law, proved for all programs.

ghost use Rattle.lower.specs.Following.{WordsFollow, WordsKeep};

use crate::schemes::Scheme;

/// The run over words of a lowered program follows the run of its numbered procedures in the mode of the scheme, for
/// every input, where that never goes wrong: whatever the one prints the other prints, and both end by the same
/// verdict, unless the region is exhausted. At each moment of the run over words the scheme's test holds of the objects
/// that fill the region up to the allocation word, and of the number of wrap steps at the moment that corresponds.
pub fn words_follow<S: Scheme>(scheme: &S)
    ensures { WordsFollow (S.meaning scheme.now) (S.procs_from scheme.now) (S.numbers_from scheme.now) }
{
    scheme.serves();
}

/// It keeps within the account of that run, told any measures that fit the layout, and how many words procedures have
/// at most: at each moment it has asked for no more words than the numbered procedures had asked for when a turn began,
/// and that turn asks for; its frames are no more than theirs at one time so far, and four, beside those of procedures
/// that serve; and wherever it has come to what they have come to, or is exhausted on the way there, the prices of its
/// steps are within their budgets.
pub fn words_keep_the_account<S: Scheme>(scheme: &S)
    ensures { WordsKeep (S.meaning scheme.now) (S.procs_from scheme.now) (S.numbers_from scheme.now) }
{
    scheme.serves();
}
