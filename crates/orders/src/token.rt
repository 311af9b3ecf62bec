// The tokens of a line, and the bytes that they are made of.
ghost use Rattle.std.specs.Prelude.{◌≡◌, ◌+◌, ◌<◌, ◌≤◌, true, length, drop, position, slice_index, slice_range};
ghost use Rattle.std.specs.List.{prefix_len};
ghost use Rattle.orders.specs.declared.fault.OrderFault.TheVariants.{Token as NoSuchToken};
ghost use Rattle.orders.specs.Tokens.{in_word, is_mark, in_token, known};
ghost use Rattle.orders.specs.Reading.{text_of, place_of, FirstAt, IsOfKind};

use crate::fault::OrderFault;

/// A part of a line: a word or one of three signs, with its bytes and the place in the line of the first of them,
/// counted from 0. (docs/RULES.md, "Command lines")
#[derive(Clone, Copy)]
pub enum Token<'a> {
    /// A run of capitals, digits and dots, as long as it can be.
    Word { text: &'a [u8], place: usize },
    /// The sign `,`.
    Comma { text: &'a [u8], place: usize },
    /// The sign `=`.
    Equals { text: &'a [u8], place: usize },
    /// The sign `/`.
    Slash { text: &'a [u8], place: usize },
}

impl<'a> Token<'a> {
    /// The bytes of the token.
    pub(crate) fn text(&self) -> &'a [u8]
        ensures { result.now ≡ text_of self.now }
    {
        match *self {
            Token::Word { text, .. }
            | Token::Comma { text, .. }
            | Token::Equals { text, .. }
            | Token::Slash { text, .. } => text,
        }
    }

    /// The place of its first byte in the line, counted from 0.
    pub(crate) fn place(&self) -> usize
        ensures { result ≡ place_of self.now }
    {
        match *self {
            Token::Word { place, .. }
            | Token::Comma { place, .. }
            | Token::Equals { place, .. }
            | Token::Slash { place, .. } => place,
        }
    }

    /// The fault if no line has this token here.
    pub(crate) fn stray(&self) -> OrderFault
        ensures { result ≡ NoSuchToken (place_of self.now) }
    {
        OrderFault::Token(self.place())
    }
}

// Whether a byte may stand in a word.
fn is_word(byte: u8) -> bool
    ensures { result ≡ in_word byte }
{
    matches!(byte, b'A'..=b'Z' | b'0'..=b'9' | b'.')
}

// Whether a byte is a sign, which is a token of its own.
fn is_mark(byte: u8) -> bool
    ensures { result ≡ is_mark byte }
{
    matches!(byte, b',' | b'=' | b'/')
}

// Whether a byte is one of a token.
fn in_token(byte: u8) -> bool
    ensures { result ≡ in_token byte }
{
    is_mark(byte) || is_word(byte)
}

/// Whether a line may have this byte: one of a token, or a space.
pub(crate) fn is_known(byte: u8) -> bool
    ensures { result ≡ known byte }
{
    in_token(byte) || byte == b' '
}

// The bytes of a line from this place on; none past its end.
fn bytes_from(line: &[u8], place: usize) -> &[u8]
    ensures { result.now ≡ drop place line.now }
{
    &line[place.min(line.len())..]
}

/// How many bytes from this place on stand before the next token; none if no token follows.
pub(crate) fn bytes_before(line: &[u8], from: usize) -> Option<usize>
    ensures { result ≡ position in_token (drop from line.now) }
{
    bytes_from(line, from)
        .iter()
        .position(|byte| in_token(*byte))
}

// How many bytes of a word the text begins with.
fn word_length(text: &[u8]) -> usize
    ensures { result ≡ prefix_len in_word text.now }
{
    text.iter().take_while(|byte| is_word(**byte)).count()
}

/// The token that begins at this place: a sign, or a word as long as it can be.
pub(crate) fn token_at<'a>(line: &'a [u8], place: usize) -> Token<'a>
    requires within { place < length line.now }
    requires begins { in_token (slice_index line.now place) ≡ true }
    ensures first { FirstAt place line.now result }
    ensures within { place + length (text_of result) ≤ length line.now }
    ensures kind { IsOfKind result }
    ensures place { place_of result ≡ place }
    ensures part { text_of result ≡ slice_range line.now place (place + length (text_of result)) }
{
    let rest = &line[place..];
    let sign = &rest[..1];
    match line[place] {
        b',' => Token::Comma { text: sign, place },
        b'=' => Token::Equals { text: sign, place },
        b'/' => Token::Slash { text: sign, place },
        _ => Token::Word {
            text: &rest[..word_length(rest)],
            place,
        },
    }
}
