//! Texts that are built piece by piece.

ghost use Rattle.std.specs.Prelude.{◌≡◌, ◌++◌, ◌<◌, ℕ, false, List, OnOk, Some};
ghost use Rattle.std.specs.Fmt.{digit_glyph};
ghost use Rattle.std.specs.List.{flat_map};
ghost use Rattle.std.specs.String.{string_bytes};
ghost use Rattle.exif_text.specs.Quoted.{hex_byte};
ghost use Rattle.exif_columns.specs.Texts.{latin1, text_of};

use std::alloc::AllocError;
use std::fmt::{Display, Write};

// Appends what is shown of an item.
pub(crate) fn push_shown<D: Display + Drop>(text: &mut String, item: D) -> Result<(), AllocError>
    ensures { (shown : List ℕ) → D.output item ≡ Some shown
        → OnOk result (string_bytes text.new ≡ string_bytes text.old ++ shown) }
{
    match write!(text, "{item}") {
        Ok(()) => Ok(()),
        Err(_) => Err(AllocError),
    }
}

// Appends the characters whose numbers the bytes are.
fn push_latin1(text: &mut String, bytes: &[u8]) -> Result<(), AllocError>
    ensures { OnOk result (string_bytes text.new ≡ string_bytes text.old ++ latin1 bytes.now) }
{
    for byte in bytes {
        text.push(char::from(*byte))?;
    }
    Ok(())
}

// Appends bytes as a text: as they are where they are UTF-8, else by Latin-1.
pub(crate) fn push_text(text: &mut String, bytes: &[u8]) -> Result<(), AllocError>
    ensures { OnOk result (string_bytes text.new ≡ string_bytes text.old ++ text_of bytes.now) }
{
    match std::str::from_utf8(bytes) {
        Ok(valid) => text.push_str(valid),
        Err(_) => push_latin1(text, bytes),
    }
}

// A hexadecimal digit.
fn hex_digit(digit: u8) -> char
    requires { digit < 16 }
    ensures glyph { result ≡ digit_glyph false digit }
    ensures ascii { result < 128 }
{
    if digit < 10 {
        char::from(b'0' + digit)
    } else {
        char::from(b'a' + (digit - 10))
    }
}

// Appends two hexadecimal digits for each byte.
pub(crate) fn push_hex(text: &mut String, bytes: &[u8]) -> Result<(), AllocError>
    ensures { OnOk result (string_bytes text.new
        ≡ string_bytes text.old ++ flat_map hex_byte bytes.now) }
{
    for byte in bytes {
        text.push(hex_digit(*byte / 16))?;
        text.push(hex_digit(*byte % 16))?;
    }
    Ok(())
}
