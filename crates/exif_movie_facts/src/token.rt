//! Numbers with a sign in a text (ISO 6709:2008, Annex H).

ghost use Rattle.std.specs.Prelude.{◌≡◌, ◌≤◌, ◌+◌, length, IfSome};
ghost use Rattle.exif_movie_facts.specs.Tokens.{fraction_count, fraction_of, is_sign, point_len, signed, token_of, whole_of};

use crate::digits::digit_count;

/// Where the digits are of the number with a sign that a text begins with.
#[derive(Clone, Copy, Debug, PartialEq, Eq)]
pub struct Token {
    /// Whether the sign is a minus.
    pub negative: bool,
    /// How many digits there are before the point. They follow the sign.
    pub whole_len: usize,
    /// The offset of the digits after the point.
    pub fraction_start: usize,
    /// The offset of the end of the number.
    pub end: usize,
}

// Whether a byte is a sign.
fn is_sign(b: u8) -> bool
    ensures { result ≡ is_sign b }
{
    b == b'+' || b == b'-'
}

// How many bytes a decimal point takes, if bytes begin with one.
fn point_len(bytes: &[u8]) -> usize
    ensures value { result ≡ point_len bytes.now }
    ensures most { result ≤ length bytes.now }
{
    match bytes.first() {
        Some(b'.') => 1,
        _ => 0,
    }
}

// How many digits follow a point of so many bytes.
fn fraction_count(point: usize, bytes: &[u8]) -> usize
    ensures value { result ≡ fraction_count point bytes.now }
    ensures most { result ≤ length bytes.now }
{
    if point == 0 { 0 } else { digit_count(bytes) }
}

// The number of a text that begins with a sign.
fn signed(negative: bool, bytes: &[u8]) -> Option<Token>
    requires { 1 ≤ length bytes.now }
    ensures value { result ≡ signed negative bytes.now }
    ensures whole { IfSome result (λ token. 1 + token.whole_len ≤ token.fraction_start) }
    ensures order { IfSome result (λ token. token.fraction_start ≤ token.end) }
    ensures within { IfSome result (λ token. token.end ≤ length bytes.now) }
{
    let whole = digit_count(&bytes[1..]);
    if whole == 0 {
        return None;
    }
    let point = point_len(&bytes[1 + whole..]);
    let fraction_start = 1 + whole + point;
    let fraction = fraction_count(point, &bytes[fraction_start..]);
    Some(Token {
        negative,
        whole_len: whole,
        fraction_start,
        end: fraction_start + fraction,
    })
}

/// The number with a sign that a text begins with.
pub fn token_of(bytes: &[u8]) -> Option<Token>
    ensures value { result ≡ token_of bytes.now }
    ensures whole { IfSome result (λ token. 1 + token.whole_len ≤ token.fraction_start) }
    ensures order { IfSome result (λ token. token.fraction_start ≤ token.end) }
    ensures within { IfSome result (λ token. token.end ≤ length bytes.now) }
{
    if bytes.is_empty() || !is_sign(bytes[0]) {
        return None;
    }
    signed(bytes[0] == b'-', bytes)
}

/// The digits before the point of a number in a text.
pub fn whole_of(token: Token, bytes: &[u8]) -> &[u8]
    requires whole { 1 + token.whole_len ≤ token.fraction_start }
    requires order { token.fraction_start ≤ token.end }
    requires within { token.end ≤ length bytes.now }
    ensures { result.now ≡ whole_of token bytes.now }
{
    &bytes[1..1 + token.whole_len]
}

/// The digits after the point.
pub fn fraction_of(token: Token, bytes: &[u8]) -> &[u8]
    requires order { token.fraction_start ≤ token.end }
    requires within { token.end ≤ length bytes.now }
    ensures { result.now ≡ fraction_of token bytes.now }
{
    &bytes[token.fraction_start..token.end]
}
