//! Values as TIFF data spell them (TIFF 6.0, section 2).

ghost use Rattle.std.specs.Prelude.{◌≡◌, ◌==◌, ◌≤◌, ◌+◌, ◌*◌, ℕ, List, length, slice_index, IfOk};
ghost use Rattle.std.specs.List.{slice_split};
ghost use Rattle.std.specs.Int.{w8, w16, w32, cast_signed};
ghost use Rattle.exif_base.specs.Bytes.{Reading, number_at, items_at};
ghost use Rattle.exif_tiff.specs.Rationals.{rational_at, srational_at};
ghost use Rattle.exif_text.specs.FieldTypes.{unit_length};
ghost use Rattle.exif_types.specs.Texts.{texts};
ghost use Rattle.exif_tiff.specs.Decode.{decode_as};

use exif_base::{Endian, Items};
use exif_types::{FieldType, Rational, SRational, Value};
use std::alloc::{AllocError, Global};

/// An item of a list in TIFF data.
pub trait Item: Copy + Drop {
    // How many bytes an item takes.
    ghost LEN: { ℕ };

    // The item at an offset of the data.
    ghost item_at: { Reading → List ℕ → ℕ → Self };

    const LEN: usize;

    /// Loads the item at an offset.
    fn load<E: Endian>(bytes: &[u8], offset: usize) -> Self
        requires { offset + LEN ≤ length bytes.now }
        ensures { result ≡ item_at E.number_of bytes.now offset };
}

impl Item for u16 {
    ghost LEN = { 2 };

    ghost item_at = { λ number bytes offset. number_at number 2 bytes offset };

    const LEN: usize = 2;

    fn load<E: Endian>(bytes: &[u8], offset: usize) -> u16 {
        E::loadu16(bytes, offset)
    }
}

impl Item for u32 {
    ghost LEN = { 4 };

    ghost item_at = { λ number bytes offset. number_at number 4 bytes offset };

    const LEN: usize = 4;

    fn load<E: Endian>(bytes: &[u8], offset: usize) -> u32 {
        E::loadu32(bytes, offset)
    }
}

impl Item for u64 {
    ghost LEN = { 8 };

    ghost item_at = { λ number bytes offset. number_at number 8 bytes offset };

    const LEN: usize = 8;

    fn load<E: Endian>(bytes: &[u8], offset: usize) -> u64 {
        E::loadu64(bytes, offset)
    }
}

impl Item for i8 {
    ghost LEN = { 1 };

    ghost item_at = { λ number bytes offset. cast_signed w8 (slice_index bytes offset) };

    const LEN: usize = 1;

    fn load<E: Endian>(bytes: &[u8], offset: usize) -> i8 {
        bytes[offset].cast_signed()
    }
}

impl Item for i16 {
    ghost LEN = { 2 };

    ghost item_at = { λ number bytes offset. cast_signed w16 (number_at number 2 bytes offset) };

    const LEN: usize = 2;

    fn load<E: Endian>(bytes: &[u8], offset: usize) -> i16 {
        E::loadu16(bytes, offset).cast_signed()
    }
}

impl Item for i32 {
    ghost LEN = { 4 };

    ghost item_at = { λ number bytes offset. cast_signed w32 (number_at number 4 bytes offset) };

    const LEN: usize = 4;

    fn load<E: Endian>(bytes: &[u8], offset: usize) -> i32 {
        E::loadu32(bytes, offset).cast_signed()
    }
}

impl Item for Rational {
    ghost LEN = { 8 };

    ghost item_at = { rational_at };

    const LEN: usize = 8;

    fn load<E: Endian>(bytes: &[u8], offset: usize) -> Rational {
        Rational {
            num: E::loadu32(bytes, offset),
            denom: E::loadu32(bytes, offset + 4),
        }
    }
}

impl Item for SRational {
    ghost LEN = { 8 };

    ghost item_at = { srational_at };

    const LEN: usize = 8;

    fn load<E: Endian>(bytes: &[u8], offset: usize) -> SRational {
        SRational {
            num: E::loadu32(bytes, offset).cast_signed(),
            denom: E::loadu32(bytes, offset + 4).cast_signed(),
        }
    }
}

// Decodes so many items, one after the other from an offset on.
fn decode_items<T: Item, E: Endian>(
    alloc: Global,
    bytes: &[u8],
    offset: usize,
    count: usize,
) -> Result<Items<T>, AllocError>
    requires { offset + T.LEN * count ≤ length bytes.now }
    ensures { IfOk result (λ items.
        items ≡ items_at (T.item_at E.number_of bytes.now) T.LEN count offset) }
{
    let mut items = Vec::with_capacity(alloc, count)?;
    let mut at = offset;
    for _ in 0..count {
        items.push(T::load::<E>(bytes, at))?;
        at += T::LEN;
    }
    Ok(Items::from_vec(items))
}

// The parts of bytes, each up to a zero byte or the end: mostly one, whose capacity is just its
// length.
fn parts_of(alloc: Global, bytes: &[u8]) -> Result<Items<Items<u8>>, AllocError>
    ensures { IfOk result (λ parts. parts ≡ slice_split (λ b. b == 0) bytes.now) }
{
    let mut parts = Vec::with_capacity(alloc, 1)?;
    for part in bytes.split(|b| *b == 0) {
        parts.push(Items::from_slice(alloc, part)?)?;
    }
    Ok(Items::from_vec(parts))
}

// The texts of bytes, each up to a zero byte; an empty last one is left out.
fn texts_of(alloc: Global, bytes: &[u8]) -> Result<Items<Items<u8>>, AllocError>
    ensures { IfOk result (λ found. found ≡ texts bytes.now) }
{
    let Some((last, front)) = bytes.split_last() else {
        return Ok(Items::from_vec(Vec::new(alloc)));
    };
    let ended = if *last == 0 { front } else { bytes };
    parts_of(alloc, ended)
}

/// The value of a type that `count` items from an offset on spell.
pub fn decode_value<E: Endian>(
    alloc: Global,
    field_type: FieldType,
    count: u32,
    bytes: &[u8],
    offset: u32,
) -> Result<Value, AllocError>
    requires { offset + unit_length field_type * count ≤ length bytes.now }
    ensures { IfOk result (λ v. v ≡ decode_as E.number_of field_type count bytes.now offset) }
{
    let at = offset as usize;
    let n = count as usize;
    Ok(match field_type {
        FieldType::Byte => Value::Byte(Items::from_slice(alloc, &bytes[at..at + n])?),
        FieldType::Ascii => Value::Ascii(texts_of(alloc, &bytes[at..at + n])?),
        FieldType::Short => Value::Short(decode_items::<u16, E>(alloc, bytes, at, n)?),
        FieldType::Long => Value::Long(decode_items::<u32, E>(alloc, bytes, at, n)?),
        FieldType::Rational => {
            Value::Rational(decode_items::<Rational, E>(alloc, bytes, at, n)?)
        }
        FieldType::SByte => Value::SByte(decode_items::<i8, E>(alloc, bytes, at, n)?),
        FieldType::Undefined => {
            Value::Undefined(Items::from_slice(alloc, &bytes[at..at + n])?, offset)
        }
        FieldType::SShort => Value::SShort(decode_items::<i16, E>(alloc, bytes, at, n)?),
        FieldType::SLong => Value::SLong(decode_items::<i32, E>(alloc, bytes, at, n)?),
        FieldType::SRational => {
            Value::SRational(decode_items::<SRational, E>(alloc, bytes, at, n)?)
        }
        FieldType::Float => Value::Float(decode_items::<u32, E>(alloc, bytes, at, n)?),
        FieldType::Double => Value::Double(decode_items::<u64, E>(alloc, bytes, at, n)?),
    })
}
