//! The values of fields.

ghost use Rattle.std.specs.Prelude.{◌≡◌, ◌++◌, map};
ghost use Rattle.json.specs.Tree.{json_tokens};
ghost use Rattle.exif_json.specs.Prints.{Prints};
ghost use Rattle.exif_json.specs.Trees.{array};
ghost use Rattle.exif_json.specs.Values.{bits_json, value_json};

use crate::items::write_list;
use crate::printer::Printer;
use exif::Value;
use exif_text::Contents;
use exif_text::plain::PlainText;
use std::alloc::AllocError;
use std::slice;

/// Writes a value: numbers, fractions and texts in an array, bytes of any meaning as hexadecimal
/// digits, and `null` where the type is not known.
pub(crate) fn write_value(printer: &mut Printer, value: &Value) -> Result<(), AllocError>
    ensures { Prints result printer.old.out printer.new.out (json_tokens (value_json value.now)) }
{
    match value {
        Value::Byte(items) => write_list(printer, items.as_slice()),
        Value::Ascii(texts) => write_list(printer, texts.as_slice()),
        Value::Short(items) => write_list(printer, items.as_slice()),
        Value::Long(items) => write_list(printer, items.as_slice()),
        Value::Rational(items) => write_list(printer, items.as_slice()),
        Value::SByte(items) => write_list(printer, items.as_slice()),
        Value::Undefined(bytes, _) => printer.shown(PlainText(Contents::Undefined(
            bytes.as_slice(),
        ))),
        Value::SShort(items) => write_list(printer, items.as_slice()),
        Value::SLong(items) => write_list(printer, items.as_slice()),
        Value::SRational(items) => write_list(printer, items.as_slice()),
        Value::Float(items) => write_floats(printer, items.as_slice()),
        Value::Double(items) => write_doubles(printer, items.as_slice()),
        Value::Unknown(_, _, _) => printer.out.null(),
    }
}

/// Writes the bits of floating point numbers of 32 bits.
fn write_floats(printer: &mut Printer, items: &[u32]) -> Result<(), AllocError>
    ensures { Prints result printer.old.out printer.new.out
        (json_tokens (array (map (bits_json 8) items.now))) }
{
    printer.out.begin_array()?;
    for item in items {
        printer.shown(PlainText(Contents::Float(slice::from_ref(item))))?;
    }
    printer.out.end_array()
}

/// Writes the bits of floating point numbers of 64 bits.
fn write_doubles(printer: &mut Printer, items: &[u64]) -> Result<(), AllocError>
    ensures { Prints result printer.old.out printer.new.out
        (json_tokens (array (map (bits_json 16) items.now))) }
{
    printer.out.begin_array()?;
    for item in items {
        printer.shown(PlainText(Contents::Double(slice::from_ref(item))))?;
    }
    printer.out.end_array()
}
