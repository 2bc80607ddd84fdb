//! What a row of the tag table holds.

use crate::context::Context;
use crate::kind::TextKind;

/// A piece of the text of a value with its unit.
#[derive(Clone, Copy)]
pub enum UnitPiece<'t> {
    /// The text of the value itself.
    Value,
    /// This text.
    Str(&'t str),
    /// The text of the value of another tag, by its context and number.
    Tag(Context, u16),
}

/// What a tag that is absent stands for.
#[derive(Clone, Copy)]
pub enum DefaultValue {
    /// Nothing.
    None,
    /// 8-bit numbers.
    Byte(&'static [u8]),
    /// One text.
    Ascii(&'static [u8]),
    /// 16-bit numbers.
    Short(&'static [u16]),
    /// One fraction: its upper and its lower number.
    Rational(u32, u32),
    /// Bytes of any meaning.
    Undefined(&'static [u8]),
    /// What the rest of the data decides.
    ContextDependent,
    /// What the standard leaves open.
    Unspecified,
}

/// What the standard says of a tag.
#[derive(Clone, Copy)]
pub struct Row {
    /// The tag's number in its context.
    pub number: u16,
    /// Its name.
    pub name: &'static str,
    /// What it stands for, in a few words.
    pub description: &'static str,
    /// How its value's text is made.
    pub kind: TextKind,
    /// The text with its unit, piece by piece; without pieces the value's text stands alone.
    pub unit: &'static [UnitPiece<'static>],
    /// What stands for the value where the tag is absent.
    pub default: DefaultValue,
}
