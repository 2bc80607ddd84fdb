//! What a value holds, borrowed.

ghost use Rattle.std.specs.Prelude.{◌≡◌};
ghost use Rattle.std.specs.Option.{option_map};
ghost use Rattle.exif_text.specs.Contents.{contents_view, first_text, letter_in, undefined_byte};

use crate::rational::{Rational, SRational};
use exif_base::Items;

/// The list in a value, or in a tag's default (TIFF 6.0, section 2, "Types").
#[derive(Clone, Copy)]
pub enum Contents<'a> {
    /// 8-bit numbers.
    Byte(&'a [u8]),
    /// Texts.
    Ascii(&'a [Items<u8>]),
    /// One text.
    Text(&'a [u8]),
    /// 16-bit numbers.
    Short(&'a [u16]),
    /// 32-bit numbers.
    Long(&'a [u32]),
    /// Fractions.
    Rational(&'a [Rational]),
    /// 8-bit numbers with sign.
    SByte(&'a [i8]),
    /// Bytes of any meaning.
    Undefined(&'a [u8]),
    /// 16-bit numbers with sign.
    SShort(&'a [i16]),
    /// 32-bit numbers with sign.
    SLong(&'a [i32]),
    /// Fractions with sign.
    SRational(&'a [SRational]),
    /// The bits of 32-bit floating point numbers.
    Float(&'a [u32]),
    /// The bits of 64-bit floating point numbers.
    Double(&'a [u64]),
    /// A value of another type: its type, its count and the offset of its value element.
    Unknown(u16, u32, u32),
}

impl<'a> Contents<'a> {
    /// The first of the texts.
    pub fn first_text(self) -> Option<&'a [u8]>
        ensures { option_map (λ text. text.now) result ≡ first_text (contents_view self.entry) }
    {
        match self {
            Contents::Ascii([text, ..]) => Some(text.as_slice()),
            Contents::Text(text) => Some(text),
            _ => None,
        }
    }

    /// The only byte of the first text.
    pub fn letter(self) -> Option<u8>
        ensures { result ≡ letter_in (first_text (contents_view self.entry)) }
    {
        match self.first_text() {
            Some([letter]) => Some(*letter),
            _ => None,
        }
    }

    /// The first of bytes of any meaning.
    pub fn undefined_byte(self) -> Option<u8>
        ensures { result ≡ undefined_byte (contents_view self.entry) }
    {
        match self {
            Contents::Undefined([byte, ..]) => Some(*byte),
            _ => None,
        }
    }
}
