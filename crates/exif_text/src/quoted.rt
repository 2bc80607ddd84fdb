//! Texts in quotes.

ghost use Rattle.std.specs.Prelude.{◌≡◌, ◌<◌, Some, IfSome, false, [], ◌∷◌};
ghost use Rattle.std.specs.List.{flat_map, list_all};
ghost use Rattle.std.specs.Fmt.{WritesOnOk, digit_glyph};
ghost use Rattle.exif_text.specs.Quoted.{escaped, hex_byte, is_plain, quoted};

use std::fmt;

/// Bytes in double quotes: printable ASCII as it is, `"` and `\` behind a `\`, each other byte as
/// `\x` and two lower hexadecimal digits.
#[derive(Clone, Copy)]
pub struct Quoted<'a>(pub &'a [u8]);

impl fmt::Display for Quoted<'_> {
    ghost output = { λ q. Some (quoted q.0.now) };

    fn fmt<W: fmt::Write>(&self, f: &mut fmt::Formatter<W>) -> fmt::Result {
        f.write_str("\"")?;
        match as_they_are(self.0) {
            Some(text) => f.write_str(text)?,
            None => write_each(f, self.0)?,
        }
        f.write_str("\"")
    }
}

/// The bytes as a text, where each is between the quotes as it is: as most do, and then they go
/// out in one piece.
fn as_they_are(bytes: &[u8]) -> Option<&str>
    ensures { IfSome result (λ text. text.now ≡ flat_map escaped bytes.now) }
{
    if !are_plain(bytes) {
        return None;
    }
    match str::from_utf8(bytes) {
        Ok(text) => Some(text),
        Err(_) => None,
    }
}

/// Whether each byte is between the quotes as it is.
fn are_plain(bytes: &[u8]) -> bool
    ensures { result ≡ list_all is_plain bytes.now }
{
    bytes.iter().all(|byte| is_plain(*byte))
}

/// Whether a byte is between the quotes as it is.
fn is_plain(byte: u8) -> bool
    ensures { result ≡ is_plain byte }
{
    matches!(byte, 0x20..=0x7e) && byte != b'"' && byte != b'\\'
}

/// Writes the bytes as they are between the quotes, one after the other.
fn write_each<W: fmt::Write>(f: &mut fmt::Formatter<W>, bytes: &[u8]) -> fmt::Result
    ensures { WritesOnOk W.write_str_gives f.old result (flat_map escaped bytes.now) f.new }
{
    for byte in bytes {
        write_escaped(f, *byte)?;
    }
    Ok(())
}

/// Writes a byte as it is between the quotes.
fn write_escaped<W: fmt::Write>(f: &mut fmt::Formatter<W>, byte: u8) -> fmt::Result
    ensures { WritesOnOk W.write_str_gives f.old result (escaped byte) f.new }
{
    match byte {
        b'"' => f.write_str("\\\""),
        b'\\' => f.write_str("\\\\"),
        0x20..=0x7e => f.write_char(char::from(byte)),
        _ => {
            f.write_str("\\x")?;
            write_hex_byte(f, byte)
        }
    }
}

/// Writes two lower hexadecimal digits.
pub(crate) fn write_hex_byte<W: fmt::Write>(f: &mut fmt::Formatter<W>, byte: u8) -> fmt::Result
    ensures { WritesOnOk W.write_str_gives f.old result (hex_byte byte) f.new }
{
    write_hex_digit(f, byte / 16)?;
    write_hex_digit(f, byte % 16)
}

fn write_hex_digit<W: fmt::Write>(f: &mut fmt::Formatter<W>, digit: u8) -> fmt::Result
    requires { digit < 16 }
    ensures { WritesOnOk W.write_str_gives f.old result (digit_glyph false digit ∷ []) f.new }
{
    let glyph = if digit < 10 {
        b'0' + digit
    } else {
        b'a' + (digit - 10)
    };
    f.write_char(char::from(glyph))
}
