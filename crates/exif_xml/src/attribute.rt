//! The attributes of a start tag.

ghost use Rattle.std.specs.Prelude.{◌≡◌, ◌<◌, ◌≤◌, ◌+◌, ◌^◌, length, IfOk, IfSome, Ok};
ghost use Rattle.exif_xml.specs.Attributes.{attribute_at, attributes, equals_len, next_at, attribute_with, value_at, with_next};
ghost use Rattle.exif_xml.specs.Refusals.{Gives};

use crate::fault::{Fault, ReadError, Refusal};
use crate::scan::{has_at, name_len, quoted_len, space_len};
use crate::span::Span;
use std::alloc::Global;

/// An attribute of a start tag.
#[derive(Clone, Copy, Debug, PartialEq, Eq)]
pub struct Attribute {
    /// Its name, with the prefix.
    pub name: Span,
    /// Its value as it is written, without the quotes.
    pub value: Span,
}

/// White space, and the attribute that follows it.
#[derive(Clone, Copy, Debug, PartialEq, Eq)]
pub struct Next {
    /// How many bytes both have.
    pub len: usize,
    /// The attribute; `None` where nothing follows the white space.
    pub attribute: Option<Attribute>,
}

// How many bytes white space, `=` and white space have.
fn equals_len(rest: &[u8]) -> Option<usize>
    ensures value { result ≡ equals_len rest.now }
    ensures within { IfSome result (λ n. n ≤ length rest.now) }
{
    let n = space_len(rest);
    if has_at(rest, n, b'=') {
        return Some(n + 1 + space_len(&rest[n + 1..]));
    }
    None
}

// An attribute at an offset, whose name has n bytes, and whose value begins behind `opening` bytes.
fn attribute_with(
    offset: usize,
    n: usize,
    opening: usize,
    found: Option<usize>,
    limit: usize,
) -> Result<Next, Fault>
    requires size { offset + opening + limit < 2 ^ 63 }
    requires name { n ≤ opening }
    requires some { IfSome found (λ k. 0 < k) }
    requires found { IfSome found (λ k. k ≤ limit) }
    ensures value { result ≡ attribute_with offset n opening found }
    ensures within { IfOk result (λ x. x.len ≤ opening + limit) }
{
    match found {
        Some(k) => Ok(Next {
            len: opening + k,
            attribute: Some(Attribute {
                name: Span {
                    start: offset,
                    end: offset + n,
                },
                value: Span {
                    start: offset + opening,
                    end: offset + opening + k - 1,
                },
            }),
        }),
        None => Err(Fault::Malformed),
    }
}

// The attribute whose name has n bytes, where `=` with white space has e bytes; `rest` is behind
// these.
fn value(offset: usize, n: usize, e: usize, rest: &[u8]) -> Result<Next, Fault>
    requires { offset + n + e + length rest.now < 2 ^ 63 }
    ensures value { result ≡ value_at offset n e rest.now }
    ensures within { IfOk result (λ x. x.len ≤ n + e + length rest.now) }
{
    if has_at(rest, 0, b'"') {
        let inner = &rest[1..];
        return attribute_with(offset, n, n + e + 1, quoted_len(inner, b'"'), inner.len());
    }
    if has_at(rest, 0, b'\'') {
        let inner = &rest[1..];
        return attribute_with(offset, n, n + e + 1, quoted_len(inner, b'\''), inner.len());
    }
    Err(Fault::Malformed)
}

// The attribute at the beginning; it ends behind the quote of its value.
#[tactic(auto, unfolding(crate::specs::Attributes::attribute_at))]
fn attribute_at(offset: usize, input: &[u8]) -> Result<Next, Fault>
    requires { offset + length input.now < 2 ^ 63 }
    ensures value { result ≡ attribute_at offset input.now }
    ensures within { IfOk result (λ x. x.len ≤ length input.now) }
{
    let n = name_len(input);
    if n == 0 {
        return Err(Fault::Malformed);
    }
    let rest = &input[n..];
    match equals_len(rest) {
        Some(e) => value(offset, n, e, &rest[e..]),
        None => Err(Fault::Malformed),
    }
}

// White space, and the attribute that follows it.
#[tactic(auto, unfolding(crate::specs::Attributes::next_at))]
fn next_at(offset: usize, input: &[u8]) -> Result<Next, Fault>
    requires { offset + length input.now < 2 ^ 63 }
    ensures value { result ≡ next_at offset input.now }
    ensures within { IfOk result (λ x. x.len ≤ length input.now) }
{
    let s = space_len(input);
    if s == 0 {
        return Err(Fault::Malformed);
    }
    if s == input.len() {
        return Ok(Next {
            len: s,
            attribute: None,
        });
    }
    match attribute_at(offset + s, &input[s..]) {
        Ok(next) => Ok(Next {
            len: s + next.len,
            attribute: next.attribute,
        }),
        Err(fault) => Err(fault),
    }
}

// The attributes, with one more, if there is one.
fn with_next(mut found: Vec<Attribute>, next: Next) -> Result<Vec<Attribute>, ReadError>
    ensures { Gives (λ v. v.items) result (Ok (with_next found.items next)) }
{
    if let Some(attribute) = next.attribute {
        found.push(attribute)?;
    }
    Ok(found)
}

/// The attributes of a start tag (XML 1.0, 3.1), in their order. `input` is what is between the
/// name of the tag and its `>` or `/>`, and `offset` is where that is in the document: the spans of
/// the answer are of the document.
///
/// Two attributes of one name are both listed. It takes memory for the list.
///
/// # Errors
///
/// [`Fault::Malformed`] where an attribute has no white space before it, no name, no `=` or no
/// value in quotes, or a `<` in its value; the offset is that of the white space before it.
/// [`ReadError::OutOfMemory`].
pub fn attributes(alloc: Global, offset: usize, input: &[u8]) -> Result<Vec<Attribute>, ReadError>
    requires { 0 < length input.now → offset + length input.now < 2 ^ 63 }
    ensures { Gives (λ v. v.items) result (attributes offset input.now) }
{
    let mut found = Vec::new(alloc);
    let mut here = offset;
    let mut rest = input;
    for _ in 0..input.len() {
        if rest.is_empty() {
            return Ok(found);
        }
        let next = match next_at(here, rest) {
            Ok(next) => next,
            Err(fault) => return Err(ReadError::Refused(Refusal {
                fault,
                offset: here,
            })),
        };
        found = with_next(found, next)?;
        here += next.len;
        let (_, after) = rest.split_at(next.len);
        rest = after;
    }
    if rest.is_empty() {
        return Ok(found);
    }
    Err(ReadError::Refused(Refusal {
        fault: Fault::Truncated,
        offset: here,
    }))
}
