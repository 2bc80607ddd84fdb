//! The tokens of XML, at the front of a input.

ghost use Rattle.std.specs.Prelude.{◌≡◌, ◌<◌, ◌≤◌, ◌+◌, ◌^◌, length, IfSome};
ghost use Rattle.exif_locations.specs.XmpTokens.{attribute_at, closing_at, content_at, declared_at, equals, markup_at, opening_at, passed, tag_at, value_at};

use crate::xmp::fault::Fault;
use crate::xmp::names::is_location;
use crate::xmp::scan::{byte_at, ended, is_space, name_len, quoted, space_len};

/// A token between tags. Of a tag that has a name: whether it is that of a location.
#[derive(Clone, Copy, Debug)]
pub enum Content {
    /// A byte of input; a comment, a processing instruction, character data.
    Text,
    /// `<name`, and white space: attributes may follow.
    Opens(bool),
    /// `<name>`.
    Opened(bool),
    /// `<name/>`.
    Whole(bool),
    /// `</name>`.
    Closes(bool),
}

/// A token between tags, and its length.
#[derive(Clone, Copy, Debug)]
pub struct ContentToken {
    pub kind: Content,
    pub len: usize,
}

/// A token within a tag.
#[derive(Clone, Copy, Debug)]
pub enum Within {
    /// A byte of white space.
    Space,
    /// `name="value"`, and whether it is that of a location.
    Attribute(bool),
    /// `>`.
    Ends,
    /// `/>`.
    Shuts,
}

/// A token within a tag, and its length.
#[derive(Clone, Copy, Debug)]
pub struct TagToken {
    pub kind: Within,
    pub len: usize,
}

// Text: the first bytes, and as many as are found behind them.
fn passed(front: usize, found: Option<usize>) -> Result<ContentToken, Fault>
    requires front { front < 16 }
    requires found { IfSome found (λ n. n < 2 ^ 63) }
    ensures { result ≡ passed front found }
{
    match found {
        Some(n) => Ok(ContentToken {
            kind: Content::Text,
            len: front + n,
        }),
        None => Err(Fault::Cut),
    }
}

// A start tag, behind its `<`.
#[tactic(auto, unfolding(crate::specs::XmpTokens::opening_at))]
fn opening(rest: &[u8]) -> Result<ContentToken, Fault>
    ensures { result ≡ opening_at rest.now }
{
    let n = name_len(rest);
    if n == 0 {
        return Err(Fault::Malformed);
    }
    let location = is_location(&rest[..n]);
    let c = byte_at(rest, n);
    if c == b'>' {
        return Ok(ContentToken {
            kind: Content::Opened(location),
            len: n + 2,
        });
    }
    if is_space(c) {
        return Ok(ContentToken {
            kind: Content::Opens(location),
            len: n + 2,
        });
    }
    if c == b'/' && byte_at(rest, n + 1) == b'>' {
        return Ok(ContentToken {
            kind: Content::Whole(location),
            len: n + 3,
        });
    }
    Err(Fault::Malformed)
}

// An end tag, behind its `</`.
#[tactic(auto, unfolding(crate::specs::XmpTokens::closing_at))]
fn closing(rest: &[u8]) -> Result<ContentToken, Fault>
    ensures { result ≡ closing_at rest.now }
{
    let location = is_location(&rest[..name_len(rest)]);
    match ended(rest, 0, 0) {
        Some(n) => Ok(ContentToken {
            kind: Content::Closes(location),
            len: n + 2,
        }),
        None => Err(Fault::Cut),
    }
}

// A declaration, behind its `<`.
#[tactic(auto, unfolding(crate::specs::XmpTokens::declared_at))]
fn declared(rest: &[u8]) -> Result<ContentToken, Fault>
    ensures { result ≡ declared_at rest.now }
{
    if rest.starts_with(b"!--") {
        return passed(4, ended(&rest[3..], b'-', 2));
    }
    if rest.starts_with(b"![CDATA[") {
        return passed(9, ended(&rest[8..], b']', 2));
    }
    Err(Fault::Doctype)
}

// Markup, behind its `<`.
#[tactic(auto, unfolding(crate::specs::XmpTokens::markup_at))]
fn markup(rest: &[u8]) -> Result<ContentToken, Fault>
    ensures { result ≡ markup_at rest.now }
{
    match byte_at(rest, 0) {
        b'/' => closing(&rest[1..]),
        b'?' => passed(2, ended(&rest[1..], b'?', 1)),
        b'!' => declared(rest),
        _ => opening(rest),
    }
}

/// A token between tags.
#[tactic(auto, unfolding(crate::specs::XmpTokens::content_at))]
pub fn content_token(input: &[u8]) -> Result<ContentToken, Fault>
    requires { 0 < length input.now }
    ensures { result ≡ content_at input.now }
{
    if input[0] == b'<' {
        return markup(&input[1..]);
    }
    Ok(ContentToken {
        kind: Content::Text,
        len: 1,
    })
}

// The quote of an attribute's value, and the value.
fn value(location: bool, front: usize, rest: &[u8]) -> Result<TagToken, Fault>
    requires { front + length rest.now < 2 ^ 63 }
    ensures { result ≡ value_at location front rest.now }
{
    let quote = byte_at(rest, 0);
    if quote == b'"' || quote == b'\'' {
        return match quoted(&rest[1..], quote) {
            Some(n) => Ok(TagToken {
                kind: Within::Attribute(location),
                len: front + 1 + n,
            }),
            None => Err(Fault::Malformed),
        };
    }
    Err(Fault::Malformed)
}

// How many bytes are white space, `=`, and white space.
fn equals(rest: &[u8]) -> Option<usize>
    ensures value { result ≡ equals rest.now }
    ensures within { IfSome result (λ n. n ≤ length rest.now) }
{
    let n = space_len(rest);
    if byte_at(rest, n) == b'=' {
        return Some(n + 1 + space_len(&rest[n + 1..]));
    }
    None
}

// An attribute.
#[tactic(auto, unfolding(crate::specs::XmpTokens::attribute_at))]
fn attribute(input: &[u8]) -> Result<TagToken, Fault>
    ensures { result ≡ attribute_at input.now }
{
    let n = name_len(input);
    if n == 0 {
        return Err(Fault::Malformed);
    }
    let location = is_location(&input[..n]);
    let rest = &input[n..];
    match equals(rest) {
        Some(e) => value(location, n + e, &rest[e..]),
        None => Err(Fault::Malformed),
    }
}

/// A token within a tag.
#[tactic(auto, unfolding(crate::specs::XmpTokens::tag_at))]
pub fn tag_token(input: &[u8]) -> Result<TagToken, Fault>
    requires { 0 < length input.now }
    ensures { result ≡ tag_at input.now }
{
    let c = input[0];
    if is_space(c) {
        return Ok(TagToken {
            kind: Within::Space,
            len: 1,
        });
    }
    if c == b'>' {
        return Ok(TagToken {
            kind: Within::Ends,
            len: 1,
        });
    }
    if c == b'/' {
        if byte_at(input, 1) == b'>' {
            return Ok(TagToken {
                kind: Within::Shuts,
                len: 2,
            });
        }
        return Err(Fault::Malformed);
    }
    attribute(input)
}
