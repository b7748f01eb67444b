// Lists of words.

ghost use Rattle.std.specs.Prelude.{◌<◌, ◌^◌, All};

/// Nothing to do: a law. Each word of a list is below 2^64.
pub fn are_words(words: &[u64])
    ensures { All (λ w. w < 2 ^ 64) words.now }
{
    let mut left = words;
    while let [word, rest @ ..] = left {
        let _word = *word;
        left = rest;
    }
}
