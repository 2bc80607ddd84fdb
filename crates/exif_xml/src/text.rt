//! Character data and attribute values, decoded.

ghost use Rattle.std.specs.Prelude.{◌≡◌, ◌<◌, ◌≤◌, ◌+◌, ◌^◌, ◌++◌, length, IfOk, IfSome, Ok};
ghost use Rattle.exif_xml.specs.Refusals.{Gives};
ghost use Rattle.exif_xml.specs.Texts.{IsEncodable, digit, is_character, is_plain, is_reference_byte, markup_chunk, named, number_of, character_of, predefined_entity, reference_at, content_of, text_of, chunk_at, utf8_of};
ghost use Rattle.exif_xml.specs.Scans.{run};

use crate::fault::{Fault, ReadError, Refusal};
use crate::scan::has_at;
use crate::span::{Span, slice_of};
use crate::token::{Kind, Token, token_at};
use std::alloc::{AllocError, Global};

/// What a chunk of text is decoded to.
#[derive(Clone, Copy, Debug, PartialEq, Eq)]
pub enum Content {
    /// The bytes of the input between two offsets.
    Bytes(usize, usize),
    /// The character of a reference, by its number.
    Character(u32),
}

/// A chunk of text: a run of plain bytes, a reference, or markup.
#[derive(Clone, Copy, Debug, PartialEq, Eq)]
pub struct Chunk {
    /// How many bytes it has.
    pub len: usize,
    /// What it is decoded to.
    pub content: Content,
}

// Whether a byte is decoded to itself.
fn is_plain(b: u8) -> bool
    ensures { result ≡ is_plain b }
{
    b != b'<' && b != b'&'
}

// How many bytes at the beginning are decoded to themselves.
fn plain_len(input: &[u8]) -> usize
    ensures value { result ≡ run is_plain input.now }
    ensures within { result ≤ length input.now }
{
    for i in 0..input.len() {
        if !is_plain(input[i]) {
            return i;
        }
    }
    input.len()
}

// Whether a byte may be between `&` and `;`.
fn is_reference_byte(b: u8) -> bool
    ensures { result ≡ is_reference_byte b }
{
    (97 <= b && b <= 122) || (65 <= b && b <= 90) || (48 <= b && b <= 57) || b == 35
}

// How many bytes at the beginning may be there.
fn reference_len(input: &[u8]) -> usize
    ensures value { result ≡ run is_reference_byte input.now }
    ensures within { result ≤ length input.now }
{
    for i in 0..input.len() {
        if !is_reference_byte(input[i]) {
            return i;
        }
    }
    input.len()
}

// The value of a digit.
fn digit(base: u32, b: u8) -> Option<u32>
    ensures value { result ≡ digit base b }
    ensures below { IfSome result (λ d. d < 16) }
{
    if 48 <= b && b <= 57 {
        return Some(b as u32 - 48);
    }
    if base == 16 && 97 <= b && b <= 102 {
        return Some(b as u32 - 87);
    }
    if base == 16 && 65 <= b && b <= 70 {
        return Some(b as u32 - 55);
    }
    None
}

// The number that digits are, unless it is beyond U+10FFFF.
fn number_of(base: u32, digits: &[u8]) -> Option<u32>
    requires { base ≤ 16 }
    ensures value { result ≡ number_of base digits.now }
    ensures below { IfSome result (λ n. n < 1114112) }
{
    if digits.is_empty() {
        return None;
    }
    let mut value: u32 = 0;
    for i in 0..digits.len() {
        let Some(d) = digit(base, digits[i]) else {
            return None;
        };
        value = value * base + d;
        if 1114111 < value {
            return None;
        }
    }
    Some(value)
}

// Whether a number is the one of a character: not NUL, and no surrogate.
fn is_character(n: u32) -> bool
    ensures { result ≡ is_character n }
{
    0 < n && !(55296 <= n && n <= 57343)
}

// The character of a number.
fn character_of(number: Option<u32>) -> Result<u32, Fault>
    requires { IfSome number (λ n. n < 1114112) }
    ensures value { result ≡ character_of number }
    ensures below { IfOk result (λ n. n < 1114112) }
{
    match number {
        Some(n) => {
            if is_character(n) {
                Ok(n)
            } else {
                Err(Fault::InvalidReference)
            }
        }
        None => Err(Fault::InvalidReference),
    }
}

// The character of a predefined entity.
fn predefined_entity(name: &[u8]) -> Result<u32, Fault>
    ensures value { result ≡ predefined_entity name.now }
    ensures below { IfOk result (λ n. n < 1114112) }
{
    if name == b"lt".as_slice() {
        return Ok(60);
    }
    if name == b"gt".as_slice() {
        return Ok(62);
    }
    if name == b"amp".as_slice() {
        return Ok(38);
    }
    if name == b"quot".as_slice() {
        return Ok(34);
    }
    if name == b"apos".as_slice() {
        return Ok(39);
    }
    Err(Fault::InvalidReference)
}

// The character of the reference with these bytes between `&` and `;`.
fn named(name: &[u8]) -> Result<u32, Fault>
    ensures value { result ≡ named name.now }
    ensures below { IfOk result (λ n. n < 1114112) }
{
    if name.starts_with(b"#x") {
        return character_of(number_of(16, &name[2..]));
    }
    if name.starts_with(b"#") {
        return character_of(number_of(10, &name[1..]));
    }
    predefined_entity(name)
}

// A reference; `rest` begins behind its `&`.
#[tactic(auto, unfolding(crate::specs::Texts::reference_at))]
fn reference_at(rest: &[u8]) -> Result<Chunk, Fault>
    ensures value { result ≡ reference_at rest.now }
    ensures within { IfOk result (λ u. u.len ≤ length rest.now + 1) }
    ensures character { IfOk result (λ u. IsEncodable u.content) }
{
    let n = reference_len(rest);
    if !has_at(rest, n, b';') {
        return Err(Fault::InvalidReference);
    }
    match named(&rest[..n]) {
        Ok(character) => Ok(Chunk {
            len: n + 2,
            content: Content::Character(character),
        }),
        Err(fault) => Err(fault),
    }
}

// A comment, a processing instruction or a CDATA section.
fn markup_chunk(token: Token) -> Result<Chunk, Fault>
    requires { token.len < 2 ^ 63 }
    ensures value { result ≡ markup_chunk token }
    ensures within { IfOk result (λ u. u.len ≡ token.len) }
    ensures character { IfOk result (λ u. IsEncodable u.content) }
{
    match token.kind {
        Kind::Cdata => Ok(Chunk {
            len: token.len,
            content: Content::Bytes(9, token.len.saturating_sub(3)),
        }),
        Kind::Ignored => Ok(Chunk {
            len: token.len,
            content: Content::Bytes(0, 0),
        }),
        Kind::Text => Err(Fault::Malformed),
        Kind::Start(_, _) => Err(Fault::Malformed),
        Kind::End(_) => Err(Fault::Malformed),
    }
}

// The chunk at the beginning.
#[tactic(auto, unfolding(crate::specs::Texts::chunk_at))]
fn chunk_at(input: &[u8]) -> Result<Chunk, Fault>
    requires { 0 < length input.now }
    ensures value { result ≡ chunk_at input.now }
    ensures within { IfOk result (λ u. u.len ≤ length input.now) }
    ensures character { IfOk result (λ u. IsEncodable u.content) }
{
    if input[0] == b'&' {
        return reference_at(&input[1..]);
    }
    if input[0] == b'<' {
        return match token_at(input) {
            Ok(token) => markup_chunk(token),
            Err(fault) => Err(fault),
        };
    }
    let n = plain_len(input);
    Ok(Chunk {
        len: n,
        content: Content::Bytes(0, n),
    })
}

// A text with one more character, in UTF-8.
fn with_character(mut out: Vec<u8>, c: u32) -> Result<Vec<u8>, AllocError>
    requires { c < 1114112 }
    ensures { IfOk result (λ v. v.items ≡ out.items ++ utf8_of c) }
{
    if c < 128 {
        out.push(c as u8)?;
        return Ok(out);
    }
    if c < 2048 {
        out.extend_from_slice(&[(192 + c / 64) as u8, (128 + c % 64) as u8])?;
        return Ok(out);
    }
    if c < 65536 {
        out.extend_from_slice(&[
            (224 + c / 4096) as u8,
            (128 + c / 64 % 64) as u8,
            (128 + c % 64) as u8,
        ])?;
        return Ok(out);
    }
    out.extend_from_slice(&[
        (240 + c / 262144) as u8,
        (128 + c / 4096 % 64) as u8,
        (128 + c / 64 % 64) as u8,
        (128 + c % 64) as u8,
    ])?;
    Ok(out)
}

// A text with what one more chunk is decoded to.
fn with_content(mut out: Vec<u8>, content: Content, input: &[u8]) -> Result<Vec<u8>, ReadError>
    requires { IsEncodable content }
    ensures { Gives (λ v. v.items) result (Ok (out.items ++ content_of input.now content)) }
{
    match content {
        Content::Bytes(start, end) => {
            out.extend_from_slice(slice_of(input, Span { start, end }))?;
            Ok(out)
        }
        Content::Character(c) => Ok(with_character(out, c)?),
    }
}

/// The text of an element without child elements, or the value of an attribute, decoded: references
/// are replaced by their characters in UTF-8 (XML 1.0, 4.1 and 4.6), the bytes of CDATA sections
/// are kept as they are (2.7), and comments and processing instructions are left out (2.5, 2.6).
/// `offset` is where the input is in the document, for the offset of a refusal.
///
/// Line ends and the white space of attribute values are kept as they are written (XML 1.0, 2.11
/// and 3.3.3 would replace them). A numeric reference may be any character but NUL. It takes memory
/// for the text.
///
/// # Errors
///
/// [`Fault::InvalidReference`] at the offset of its `&`, [`Fault::Malformed`] for a tag,
/// [`Fault::Doctype`] and [`Fault::Truncated`] as [`token_at`] has them.
/// [`ReadError::OutOfMemory`].
pub fn text_of(alloc: Global, offset: usize, input: &[u8]) -> Result<Vec<u8>, ReadError>
    requires { 0 < length input.now → offset + length input.now < 2 ^ 63 }
    ensures { Gives (λ v. v.items) result (text_of offset input.now) }
{
    let mut out = Vec::new(alloc);
    let mut here = offset;
    let mut rest = input;
    for _ in 0..input.len() {
        if rest.is_empty() {
            return Ok(out);
        }
        let chunk = match chunk_at(rest) {
            Ok(chunk) => chunk,
            Err(fault) => return Err(ReadError::Refused(Refusal {
                fault,
                offset: here,
            })),
        };
        out = with_content(out, chunk.content, rest)?;
        here += chunk.len;
        let (_, after) = rest.split_at(chunk.len);
        rest = after;
    }
    if rest.is_empty() {
        return Ok(out);
    }
    Err(ReadError::Refused(Refusal {
        fault: Fault::Truncated,
        offset: here,
    }))
}
