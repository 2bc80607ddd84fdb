//! What is around a value in a packet.

ghost use Rattle.std.specs.Prelude.{◌≡◌, drop, take};
ghost use Rattle.exif_xmp_set.specs.Contexts.{context_of, replaced_span, tag_name};

use crate::found::Found;
use exif_xml::scan::{byte_at, name_len};
use exif_xml::{Span, slice_of};

/// What is around a value.
#[derive(Clone, Copy)]
pub enum Context {
    /// A start tag and an end tag.
    Content,
    /// An empty-element tag, as `<a/>`: the value has no bytes, and is behind it.
    EmptyTag,
    /// This quote: the value is that of an attribute.
    Quotes(u8),
}

/// What is around the value of a property.
pub fn context_of(packet: &[u8], found: Found) -> Context
    ensures { result ≡ context_of packet.now found }
{
    let before = byte_at(packet, found.value.start.saturating_sub(1));
    if before == b'"' || before == b'\'' {
        return Context::Quotes(before);
    }
    if found.value.start == found.whole.end {
        return Context::EmptyTag;
    }
    Context::Content
}

/// The bytes at the beginning, at most `n`.
pub fn first_bytes(bytes: &[u8], n: usize) -> &[u8]
    ensures { result.now ≡ take n bytes.now }
{
    if n < bytes.len() { &bytes[..n] } else { bytes }
}

/// The bytes behind the first `n`.
pub fn bytes_behind(bytes: &[u8], n: usize) -> &[u8]
    ensures { result.now ≡ drop n bytes.now }
{
    if n < bytes.len() { &bytes[n..] } else { &[] }
}

/// The name of the element that begins with this tag.
pub fn tag_name(tag: &[u8]) -> &[u8]
    ensures { result.now ≡ tag_name tag.now }
{
    let behind = bytes_behind(tag, 1);
    first_bytes(behind, name_len(behind))
}

/// The bytes of a packet that another value replaces: those of the value, or the `/>` of an
/// empty-element tag.
pub fn replaced_span(context: Context, found: Found) -> Span
    ensures { result ≡ replaced_span context found }
{
    match context {
        Context::EmptyTag => Span {
            start: found.whole.end.saturating_sub(2),
            end: found.whole.end,
        },
        Context::Content | Context::Quotes(_) => found.value,
    }
}
