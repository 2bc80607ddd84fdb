//! The texts of metadata.

ghost use Rattle.std.specs.Prelude.{◌≡◌, ◌≤◌, length};
ghost use Rattle.exif_movie_facts.specs.Texts.{data_value, is_utf8_item, item_text, user_data_text};

use crate::number::{u16_of, u32_of};

// The length and the language code of a text in user data.
const USER_DATA_HEADER_LEN: usize = 4;
// The size and the type of a data box, the type indicator of its value and its locale.
const DATA_HEADER_LEN: usize = 16;
// The type indicator of a text in UTF-8.
const UTF8: u32 = 1;

/// The first text in the content of a user data box whose type begins with `©`, as `©xyz` or
/// `©day` (QuickTime File Format, "User Data Text Strings and Language Codes").
///
/// A length in bytes and a language code precede it. A text whose length is more than the bytes
/// that follow ends with them. Empty if `content` has fewer than four bytes. The encoding depends on the
/// language code, which is not read; the texts of ISO 6709 are ASCII.
pub fn user_data_text(content: &[u8]) -> &[u8]
    ensures text { result.now ≡ user_data_text content.now }
{
    if content.len() < USER_DATA_HEADER_LEN {
        return &content[..0];
    }
    let len = usize::from(u16_of(content));
    let text = &content[USER_DATA_HEADER_LEN..];
    &text[..text.len().min(len)]
}

// Whether a metadata item begins with the data box of a text in UTF-8.
fn is_utf8_item(content: &[u8]) -> bool
    requires { 16 ≤ length content.now }
    ensures { result ≡ is_utf8_item content.now }
{
    &content[4..8] == b"data".as_slice() && u32_of(&content[8..]) == UTF8
}

// The value in the data box that bytes begin with.
fn data_value(content: &[u8]) -> &[u8]
    requires { 16 ≤ length content.now }
    ensures { result.now ≡ data_value content.now }
{
    let size = u32_of(content) as usize;
    let data = &content[..content.len().min(size.max(DATA_HEADER_LEN))];
    &data[DATA_HEADER_LEN..]
}

/// The text in the content of a metadata item, a box in `ilst` (QuickTime File Format, "Data Atom
/// Structure").
///
/// It is the value of the first box in the item, if that is `data` with a text in UTF-8 (type
/// indicator 1). A value whose size is more than the bytes that follow ends with them. Empty for
/// other items.
pub fn item_text(content: &[u8]) -> &[u8]
    ensures text { result.now ≡ item_text content.now }
{
    if content.len() < DATA_HEADER_LEN || !is_utf8_item(content) {
        return &content[..0];
    }
    data_value(content)
}
