//! Spans of a document.

ghost use Rattle.std.specs.Prelude.{◌≡◌, ◌<◌, ◌≤◌, ◌+◌, length};
ghost use Rattle.exif_xml.specs.Scans.{slice_of};

/// The bytes of a document from one offset to another, as a range.
#[derive(Clone, Copy, Debug, PartialEq, Eq)]
pub struct Span {
    /// The offset of the first byte.
    pub start: usize,
    /// The offset behind the last byte.
    pub end: usize,
}

/// The bytes of a span, as far as the document has them: a span beyond its end has none there.
pub fn slice_of(document: &[u8], span: Span) -> &[u8]
    ensures value { result.now ≡ slice_of document.now span }
    ensures within { 0 < length result.now → span.start + length result.now ≤ length document.now }
{
    let end = span.end.min(document.len());
    let start = span.start.min(end);
    &document[start..end]
}
