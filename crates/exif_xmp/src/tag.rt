//! Start tags.

ghost use Rattle.std.specs.Prelude.{◌≡◌, ◌<◌, ◌+◌, ◌^◌};
ghost use Rattle.exif_xmp.specs.Elements.{start_tag_at};

use exif_xml::Span;

/// A start tag, by its offsets.
#[derive(Clone, Copy)]
pub struct StartTag {
    /// The offset of its `<`.
    pub start: usize,
    /// Its name.
    pub name: Span,
    /// What is between its name and its `>` or `/>`.
    pub attributes: Span,
    /// The offset behind it.
    pub content: usize,
    /// Whether it ends in `/>`.
    pub is_empty: bool,
}

/// The start tag of `len` bytes at an offset, whose name has `name_len` bytes.
pub fn start_tag_at(offset: usize, name_len: usize, is_empty: bool, len: usize) -> StartTag
    requires name { name_len < len }
    requires size { offset + len < 2 ^ 63 }
    ensures value { result ≡ start_tag_at offset name_len is_empty len }
    ensures within { result.attributes.start < 2 ^ 63 }
{
    let closing = if is_empty { 2 } else { 1 };
    StartTag {
        start: offset,
        name: Span {
            start: offset + 1,
            end: offset + 1 + name_len,
        },
        attributes: Span {
            start: offset + 1 + name_len,
            end: (offset + len).saturating_sub(closing),
        },
        content: offset + len,
        is_empty,
    }
}
