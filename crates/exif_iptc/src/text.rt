//! Texts of values.

ghost use Rattle.std.specs.Prelude.{◌≡◌, encode_utf8_all, map, string_bytes, IfOk};
ghost use Rattle.exif_iptc.specs.Texts.{decoded, latin_char, text_of, windows_1252, without_zeros};

use crate::charset::Charset;
use std::alloc::{AllocError, Global};

// The characters of Windows code page 1252 from 80 to 9f. Where it has none, that of Latin-1.
static WINDOWS_1252: [char; 32] = [
    '\u{20ac}', '\u{81}', '\u{201a}', '\u{192}', '\u{201e}', '\u{2026}', '\u{2020}', '\u{2021}',
    '\u{2c6}', '\u{2030}', '\u{160}', '\u{2039}', '\u{152}', '\u{8d}', '\u{17d}', '\u{8f}',
    '\u{90}', '\u{2018}', '\u{2019}', '\u{201c}', '\u{201d}', '\u{2022}', '\u{2013}', '\u{2014}',
    '\u{2dc}', '\u{2122}', '\u{161}', '\u{203a}', '\u{153}', '\u{9d}', '\u{17e}', '\u{178}',
];

fn windows_1252() -> &'static [char]
    ensures { result.now ≡ windows_1252 }
{
    &WINDOWS_1252
}

// The character of a byte.
fn latin_char(byte: u8) -> char
    ensures { result ≡ latin_char byte }
{
    if byte < 0x80 || 0xa0 <= byte {
        return char::from(byte);
    }
    windows_1252()[byte as usize - 0x80]
}

// The text of bytes of a character each.
fn latin_text(alloc: Global, bytes: &[u8]) -> Result<String, AllocError>
    ensures { IfOk result (λ t. string_bytes t ≡ encode_utf8_all (map latin_char bytes.now)) }
{
    let mut text = String::new(alloc);
    for i in 0..bytes.len() {
        text.push(latin_char(bytes[i]))?;
    }
    Ok(text)
}

/// Bytes without the zeros at their end. Some programs end texts with zeros, which are no
/// characters of a text (IIM, section 1.5).
pub fn without_zeros(bytes: &[u8]) -> &[u8]
    ensures { result.now ≡ without_zeros bytes.now }
{
    let mut end = bytes.len();
    while 0 < end && bytes[end - 1] == 0 {
        end -= 1;
    }
    &bytes[..end]
}

/// The text of bytes in a character set. What is not UTF-8 in a text that should be becomes U+FFFD.
pub(crate) fn decoded(alloc: Global, charset: Charset, bytes: &[u8]) -> Result<String, AllocError>
    ensures { IfOk result (λ t. string_bytes t ≡ decoded charset bytes.now) }
{
    match charset {
        Charset::Utf8 => String::from_utf8_lossy(alloc, bytes),
        Charset::Latin1 | Charset::Unknown => latin_text(alloc, bytes),
    }
}

/// The text of a value in a character set, without zeros at its end. What is not UTF-8 in a text
/// that should be becomes U+FFFD.
///
/// # Errors
///
/// Out of memory.
pub fn text_of(alloc: Global, charset: Charset, value: &[u8]) -> Result<String, AllocError>
    ensures { IfOk result (λ t. string_bytes t ≡ text_of charset value.now) }
{
    decoded(alloc, charset, without_zeros(value))
}
