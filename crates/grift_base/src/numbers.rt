// Integers that a text writes.

ghost use Rattle.std.specs.Prelude.{◌≡◌, true};
ghost use Rattle.std.specs.Char.{is_ascii_digit};
ghost use Rattle.std.specs.List.{list_all};
ghost use Rattle.std.specs.Str.Parse.{without_leading_sign, signed_digits_value};
ghost use Rattle.grift_base.specs.Numbers.{is_integer, in_word};

// The bytes behind a sign, where there is one.
fn without_sign(text: &[u8]) -> &[u8]
    ensures { result.now ≡ without_leading_sign text.now }
{
    match text {
        [b'+' | b'-', digits @ ..] => digits,
        _ => text,
    }
}

fn are_digits(bytes: &[u8]) -> bool
    ensures { result ≡ list_all is_ascii_digit bytes.now }
{
    bytes.iter().all(|byte| byte.is_ascii_digit())
}

/// Whether these bytes are an optional sign and one or more digits. Takes no memory.
pub fn is_integer(text: &[u8]) -> bool
    ensures { result ≡ is_integer text.now }
{
    let digits = without_sign(text);
    !digits.is_empty() && are_digits(digits)
}

/// The number that an optional sign and digits write; none exactly where 64 bits with a sign do not hold it. Takes no
/// memory.
pub fn integer(text: &[u8]) -> Option<i64>
    requires { is_integer text.now ≡ true }
    ensures { result ≡ in_word (signed_digits_value 10 text.now) }
{
    str::from_utf8(text).ok()?.parse().ok()
}
