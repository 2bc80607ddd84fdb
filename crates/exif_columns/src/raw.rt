//! Values as numbers and texts, without units.

ghost use Rattle.std.specs.Prelude.{◌≡◌, ◌++◌, OnOk};
ghost use Rattle.std.specs.String.{string_bytes};
ghost use Rattle.exif_text.specs.Plain.{bits_text};
ghost use Rattle.exif_columns.specs.Raw.{raw_value};
ghost use Rattle.exif_columns.specs.Texts.{separated};

use crate::texts::{push_hex, push_shown, push_text};
use exif_base::Items;
use exif_text::{Contents, PlainText, Rational, SRational};
use exif_types::Value;
use std::alloc::AllocError;
use std::slice;

// An item of a value.
pub(crate) trait Item {
    ghost use Rattle.std.specs.Prelude.{ℕ, List};

    // Its text.
    ghost raw: { Self → List ℕ };

    // Appends it.
    fn push(&self, text: &mut String) -> Result<(), AllocError>
        ensures { OnOk result (string_bytes text.new ≡ string_bytes text.old ++ raw self.now) };
}

impl Item for u8 {
    ghost use Rattle.std.specs.Fmt.{decimal};

    ghost raw = { decimal };

    fn push(&self, text: &mut String) -> Result<(), AllocError> {
        push_shown(text, *self)
    }
}

impl Item for u16 {
    ghost use Rattle.std.specs.Fmt.{decimal};

    ghost raw = { decimal };

    fn push(&self, text: &mut String) -> Result<(), AllocError> {
        push_shown(text, *self)
    }
}

impl Item for u32 {
    ghost use Rattle.std.specs.Fmt.{decimal};

    ghost raw = { decimal };

    fn push(&self, text: &mut String) -> Result<(), AllocError> {
        push_shown(text, *self)
    }
}

impl Item for i8 {
    ghost use Rattle.std.specs.Fmt.{signed_decimal};

    ghost raw = { signed_decimal };

    fn push(&self, text: &mut String) -> Result<(), AllocError> {
        push_shown(text, *self)
    }
}

impl Item for i16 {
    ghost use Rattle.std.specs.Fmt.{signed_decimal};

    ghost raw = { signed_decimal };

    fn push(&self, text: &mut String) -> Result<(), AllocError> {
        push_shown(text, *self)
    }
}

impl Item for i32 {
    ghost use Rattle.std.specs.Fmt.{signed_decimal};

    ghost raw = { signed_decimal };

    fn push(&self, text: &mut String) -> Result<(), AllocError> {
        push_shown(text, *self)
    }
}

impl Item for Rational {
    ghost use Rattle.exif_columns.specs.Raw.{raw_fraction};

    ghost raw = { raw_fraction };

    fn push(&self, text: &mut String) -> Result<(), AllocError> {
        if self.denom == 0 {
            Ok(())
        } else {
            push_shown(text, self.decimal())
        }
    }
}

impl Item for SRational {
    ghost use Rattle.exif_columns.specs.Raw.{raw_signed_fraction};

    ghost raw = { raw_signed_fraction };

    fn push(&self, text: &mut String) -> Result<(), AllocError> {
        if self.denom == 0 {
            Ok(())
        } else {
            push_shown(text, self.decimal())
        }
    }
}

impl Item for Items<u8> {
    ghost use Rattle.exif_columns.specs.Texts.{text_of};

    ghost raw = { text_of };

    fn push(&self, text: &mut String) -> Result<(), AllocError> {
        push_text(text, self.as_slice())
    }
}

// Appends the items, with a space between each two.
fn push_list<T: Item>(text: &mut String, items: &[T]) -> Result<(), AllocError>
    ensures { OnOk result (string_bytes text.new
        ≡ string_bytes text.old ++ separated 32 T.raw items.now) }
{
    let Some((first, others)) = items.split_first() else {
        return Ok(());
    };
    first.push(text)?;
    for item in others {
        text.push(' ')?;
        item.push(text)?;
    }
    Ok(())
}

// Appends the bits of a floating point number of 32 bits.
fn push_float(text: &mut String, bits: &u32) -> Result<(), AllocError>
    ensures { OnOk result (string_bytes text.new
        ≡ string_bytes text.old ++ bits_text 8 bits.now) }
{
    push_shown(text, PlainText(Contents::Float(slice::from_ref(bits))))
}

// Appends the bits of floating point numbers of 32 bits.
fn push_floats(text: &mut String, items: &[u32]) -> Result<(), AllocError>
    ensures { OnOk result (string_bytes text.new
        ≡ string_bytes text.old ++ separated 32 (bits_text 8) items.now) }
{
    let Some((first, others)) = items.split_first() else {
        return Ok(());
    };
    push_float(text, first)?;
    for item in others {
        text.push(' ')?;
        push_float(text, item)?;
    }
    Ok(())
}

// Appends the bits of a floating point number of 64 bits.
fn push_double(text: &mut String, bits: &u64) -> Result<(), AllocError>
    ensures { OnOk result (string_bytes text.new
        ≡ string_bytes text.old ++ bits_text 16 bits.now) }
{
    push_shown(text, PlainText(Contents::Double(slice::from_ref(bits))))
}

// Appends the bits of floating point numbers of 64 bits.
fn push_doubles(text: &mut String, items: &[u64]) -> Result<(), AllocError>
    ensures { OnOk result (string_bytes text.new
        ≡ string_bytes text.old ++ separated 32 (bits_text 16) items.now) }
{
    let Some((first, others)) = items.split_first() else {
        return Ok(());
    };
    push_double(text, first)?;
    for item in others {
        text.push(' ')?;
        push_double(text, item)?;
    }
    Ok(())
}

// Appends a value.
pub(crate) fn push_value(text: &mut String, value: &Value) -> Result<(), AllocError>
    ensures { OnOk result (string_bytes text.new ≡ string_bytes text.old ++ raw_value value.now) }
{
    match value {
        Value::Byte(items) => push_list(text, items.as_slice()),
        Value::Ascii(texts) => push_list(text, texts.as_slice()),
        Value::Short(items) => push_list(text, items.as_slice()),
        Value::Long(items) => push_list(text, items.as_slice()),
        Value::Rational(items) => push_list(text, items.as_slice()),
        Value::SByte(items) => push_list(text, items.as_slice()),
        Value::Undefined(bytes, _) => push_hex(text, bytes.as_slice()),
        Value::SShort(items) => push_list(text, items.as_slice()),
        Value::SLong(items) => push_list(text, items.as_slice()),
        Value::SRational(items) => push_list(text, items.as_slice()),
        Value::Float(items) => push_floats(text, items.as_slice()),
        Value::Double(items) => push_doubles(text, items.as_slice()),
        Value::Unknown(_, _, _) => Ok(()),
    }
}
