//! What the values of entries are made of, and what their entries say of them. A pushed value is
//! looked at where it is in memory, once for all that its entry says.

ghost use Rattle.std.specs.Prelude.{◌≡◌, ◌≤◌, false};
ghost use Rattle.exif_types.specs.ValueTypes.{type_number, count_of};
ghost use Rattle.exif_layout.specs.Encoding.{value_len, moved_to};
ghost use Rattle.exif_layout.specs.Refused.{is_unknown};
ghost use Rattle.exif_layout.specs.EntryContents.{symbol_of, IsKnownContent, content_type, content_count, content_size};
ghost use Rattle.exif_layout.specs.Slots as format;

use crate::BlockKind;
use exif_types::{Context, FieldType, Value};
use std::marker::Model;

/// A value with what its entry says of it: the number of its type, and how many items it has, where
/// 32 bits hold that.
#[derive(Drop)]
pub struct Noted<'a> {
    value: &'a Value,
    type_number: u16,
    count: u32,
}

impl<'a> Model for Noted<'a> {
    ghost use Rattle.exif_layout.specs.Noting.{Pushed, IsNoted};

    ghost Value = { Pushed };

    ghost view = { λ noted. noted.value.now };

    ghost invariant = { λ noted. IsNoted noted.value.now noted.type_number noted.count };
}

impl<'a> Noted<'a> {
    /// A value, looked at once.
    pub fn of(value: &'a Value) -> Noted<'a>
        ensures { result ≡ value.now }
    {
        Noted {
            value,
            type_number: value.type_number(),
            count: value.count().unwrap_or(0),
        }
    }

    /// The value itself.
    pub fn value(&self) -> &'a Value
        ensures { result.now ≡ self.now }
    {
        self.value
    }

    /// The number of its type.
    pub fn type_number(&self) -> u16
        ensures { result ≡ type_number self.now }
    {
        self.type_number
    }

    /// How many items it has.
    pub fn count(&self) -> u32
        requires { count_of self.now ≤ 4294967295 }
        ensures { result ≡ count_of self.now }
    {
        self.count
    }

    /// How many bytes it takes.
    pub fn size(&self) -> u32
        requires known { is_unknown self.now ≡ false }
        requires room { value_len self.now ≤ 4294967295 }
        ensures { result ≡ value_len self.now }
    {
        let unit = FieldType::of(self.type_number()).map_or(0, FieldType::unit_length);
        unit * self.count()
    }
}

/// What the value of an entry is made of.
#[derive(Drop)]
pub enum Content<'a> {
    /// A pushed value.
    Known(Noted<'a>),
    /// A pushed value that is one number of 16 bits.
    OneShort(u16),
    /// One of 32 bits.
    OneLong(u32),
    /// The offsets of these blocks.
    OffsetsOf(BlockKind, &'a [&'a [u8]]),
    /// Their lengths.
    LengthsOf(BlockKind, &'a [&'a [u8]]),
    /// The offset of a child directory.
    OffsetOf(Context),
}

impl<'a> Content<'a> {
    /// That of a pushed field with this value.
    pub fn of(value: &'a Value) -> Content<'a>
        ensures { symbol_of result ≡ format.Known (moved_to 0 value.now) }
    {
        match value {
            Value::Short(items) => match items.as_slice() {
                [x] => Content::OneShort(*x),
                _ => Content::Known(Noted::of(value)),
            },
            Value::Long(items) => match items.as_slice() {
                [x] => Content::OneLong(*x),
                _ => Content::Known(Noted::of(value)),
            },
            _ => Content::Known(Noted::of(value)),
        }
    }

    /// The number of the value's type.
    pub fn type_number(&self) -> u16
        ensures { result ≡ content_type self.now }
    {
        match self {
            Content::Known(noted) => noted.type_number(),
            Content::OneShort(_) => FieldType::Short.number(),
            Content::OneLong(_)
            | Content::OffsetsOf(_, _)
            | Content::LengthsOf(_, _)
            | Content::OffsetOf(_) => FieldType::Long.number(),
        }
    }

    /// How many items the value has.
    pub fn count(&self) -> u32
        requires { content_count self.now ≤ 4294967295 }
        ensures { result ≡ content_count self.now }
    {
        match self {
            Content::Known(noted) => noted.count(),
            Content::OffsetsOf(_, blocks) | Content::LengthsOf(_, blocks) => blocks.len() as u32,
            Content::OneShort(_) | Content::OneLong(_) | Content::OffsetOf(_) => 1,
        }
    }

    /// How many bytes the value takes.
    pub fn size(&self) -> u32
        requires known { IsKnownContent self.now }
        requires room { content_size self.now ≤ 4294967295 }
        ensures { result ≡ content_size self.now }
    {
        match self {
            Content::Known(noted) => noted.size(),
            Content::OneShort(_) => 2,
            Content::OffsetsOf(_, blocks) | Content::LengthsOf(_, blocks) => 4
                * blocks.len() as u32,
            Content::OneLong(_) | Content::OffsetOf(_) => 4,
        }
    }
}
