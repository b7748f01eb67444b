// Cutting a text into tokens.

ghost use Rattle.std.specs.Prelude.{◌≡◌, ◌≤◌, ◌<◌, ◌+◌, ◌^◌, ◌==◌, ◌&&◌, ◌||◌, not, if◌then◌else◌, [], false, length};
ghost use Rattle.std.specs.Prelude.{take, drop, slice_index, MatchOption};
ghost use Rattle.std.specs.List.{prefix_len};
ghost use Rattle.sexpr_reader.specs.Bytes.{is_line_feed, is_white, is_comment_sign, is_symbol_byte};
ghost use Rattle.sexpr_reader.specs.Token.{no_token_begins, lexeme_at};
ghost use Rattle.sexpr_reader.specs.Scanning.{Stands, IsBetween, tokens_at, lexeme_of, lexeme_len, TakesToken};

use grift_base::places::Pos;

/// The shape of a bracket.
#[derive(Clone, Copy, PartialEq, Eq)]
pub enum Shape {
    Round,
    Square,
}

/// What a token is made of.
#[derive(Clone, Copy)]
pub enum Lexeme<'a> {
    Open(Shape),
    Close(Shape),
    /// The bytes of an atom.
    Atom(&'a [u8]),
    /// The symbol bytes behind a hash.
    HashAtom(&'a [u8]),
    Quote,
    /// A byte that begins no token.
    Other,
}

/// A lexeme and the place of its first byte.
#[derive(Clone, Copy)]
pub struct Token<'a> {
    pub pos: Pos,
    pub lexeme: Lexeme<'a>,
}

/// A place in a text: how many bytes stand before it, and its line and column.
#[derive(Clone, Copy)]
pub struct Cursor {
    at: usize,
    pos: Pos,
}

impl Cursor {
    pub const START: Cursor = Cursor {
        at: 0,
        pos: Pos { line: 1, col: 1 },
    };

    // The place so many bytes further on the same line.
    fn along(self, count: usize) -> Cursor
        requires at { self.at + count < 2 ^ 32 }
        requires col { self.pos.col + count < 2 ^ 32 }
        ensures at { result.at ≡ self.at + count }
        ensures line { result.pos.line ≡ self.pos.line }
        ensures col { result.pos.col ≡ self.pos.col + count }
    {
        Cursor {
            at: self.at + count,
            pos: Pos {
                line: self.pos.line,
                col: self.pos.col + count as u32,
            },
        }
    }

    // The place behind this byte.
    fn behind(self, byte: u8) -> Cursor
        requires at { self.at + 1 < 2 ^ 32 }
        requires line { self.pos.line + 1 < 2 ^ 32 }
        requires col { self.pos.col + 1 < 2 ^ 32 }
        ensures at { result.at ≡ self.at + 1 }
        ensures line { result.pos.line ≡ (if byte == 10 then self.pos.line + 1 else self.pos.line) }
        ensures col { result.pos.col ≡ (if byte == 10 then 1 else self.pos.col + 1) }
    {
        if byte == b'\n' {
            Cursor {
                at: self.at + 1,
                pos: Pos {
                    line: self.pos.line + 1,
                    col: 1,
                },
            }
        } else {
            self.along(1)
        }
    }
}

fn is_white(byte: u8) -> bool
    ensures { result ≡ is_white byte }
{
    matches!(byte, b' ' | b'\t' | b'\r' | b'\n')
}

fn is_symbol_byte(byte: u8) -> bool
    ensures { result ≡ is_symbol_byte byte }
{
    byte.is_ascii_alphanumeric() || b"!$%&*/:<=>?^_~+-.@".contains(&byte)
}

// How many symbol bytes stand at the front.
fn word_len(bytes: &[u8]) -> usize
    ensures len { result ≡ prefix_len is_symbol_byte bytes.now }
    ensures within { result ≤ length bytes.now }
{
    bytes
        .iter()
        .take_while(|byte| is_symbol_byte(**byte))
        .count()
}

// Whether the byte behind this one is in a comment, where this one is in a comment or not.
fn comment_goes_on(in_comment: bool, byte: u8) -> bool
    ensures { result ≡ (not (is_line_feed byte) && (is_comment_sign byte || in_comment)) }
{
    byte != b'\n' && (byte == b';' || in_comment)
}

// The place of the next byte that is neither white nor in a comment, or the end.
fn skip_blanks(text: &[u8], from: Cursor) -> Cursor
    requires long { length text.now ≤ 262144 }
    requires stands { Stands text.now from }
    requires between { IsBetween text.now from.at }
    ensures stands { Stands text.now result }
    ensures tokens { tokens_at text.now from.at ≡ tokens_at text.now result.at }
    ensures begins { result.at < length text.now
        → no_token_begins (take result.at text.now) (slice_index text.now result.at) ≡ false }
{
    let mut cursor = from;
    let mut in_comment = false;
    while cursor.at < text.len() {
        let byte = text[cursor.at];
        in_comment = comment_goes_on(in_comment, byte);
        if !in_comment && !is_white(byte) {
            break;
        }
        cursor = cursor.behind(byte);
    }
    cursor
}

// The lexeme at the front of these bytes, and how many it takes.
fn first_lexeme(bytes: &[u8]) -> (Lexeme<'_>, usize)
    requires some { 0 < length bytes.now }
    requires long { length bytes.now ≤ 262144 }
    ensures lexeme { lexeme_of result.0 ≡ lexeme_at (slice_index bytes.now 0) (drop 1 bytes.now) }
    ensures len { result.1 ≡ lexeme_len (slice_index bytes.now 0) (drop 1 bytes.now) }
{
    match bytes[0] {
        b'(' => (Lexeme::Open(Shape::Round), 1),
        b')' => (Lexeme::Close(Shape::Round), 1),
        b'[' => (Lexeme::Open(Shape::Square), 1),
        b']' => (Lexeme::Close(Shape::Square), 1),
        b'"' => (Lexeme::Quote, 1),
        b'#' => {
            let end = 1 + word_len(&bytes[1..]);
            (Lexeme::HashAtom(&bytes[1..end]), end)
        }
        byte if is_symbol_byte(byte) => {
            let end = word_len(bytes);
            (Lexeme::Atom(&bytes[..end]), end)
        }
        _ => (Lexeme::Other, 1),
    }
}

/// The next token and the place behind it; none at the end of the text.
pub fn next_token(text: &[u8], from: Cursor) -> Option<(Token<'_>, Cursor)>
    requires long { length text.now ≤ 262144 }
    requires stands { Stands text.now from }
    requires between { IsBetween text.now from.at }
    ensures { MatchOption result (tokens_at text.now from.at ≡ [])
        (λ found. TakesToken text.now from.at found.0 found.1) }
{
    let cursor = skip_blanks(text, from);
    if cursor.at == text.len() {
        return None;
    }
    let (lexeme, len) = first_lexeme(&text[cursor.at..]);
    let token = Token {
        pos: cursor.pos,
        lexeme,
    };
    Some((token, cursor.along(len)))
}
