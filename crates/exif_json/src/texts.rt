//! Texts of a file, whose encoding no standard settles.

ghost use Rattle.std.specs.Prelude.{◌≡◌, ◌++◌, OnOk};
ghost use Rattle.std.specs.List.{flat_map};
ghost use Rattle.std.specs.String.{string_bytes};
ghost use Rattle.json.specs.Tree.{json_tokens};
ghost use Rattle.exif_json.specs.Prints.{Prints};
ghost use Rattle.exif_json.specs.Texts.{latin1, latin1_json, text_json};

use crate::printer::Printer;
use std::alloc::AllocError;

/// Replaces the text with the characters whose numbers the bytes are.
pub(crate) fn set_latin1(text: &mut String, bytes: &[u8]) -> Result<(), AllocError>
    ensures { OnOk result (string_bytes text.new ≡ latin1 bytes.now) }
{
    text.clear();
    for byte in bytes {
        text.push(char::from(*byte))?;
    }
    Ok(())
}

/// Writes a text: a string where it is UTF-8, else an object that names the encoding.
pub(crate) fn write_text(printer: &mut Printer, bytes: &[u8]) -> Result<(), AllocError>
    ensures { Prints result printer.old.out printer.new.out (json_tokens (text_json bytes.now)) }
{
    match std::str::from_utf8(bytes) {
        Ok(text) => printer.out.string(text),
        Err(_) => write_latin1(printer, bytes),
    }
}

/// Writes a text as an object that names its encoding.
fn write_latin1(printer: &mut Printer, bytes: &[u8]) -> Result<(), AllocError>
    ensures { Prints result printer.old.out printer.new.out (json_tokens (latin1_json bytes.now)) }
{
    set_latin1(&mut printer.text, bytes)?;
    printer.out.begin_object()?;
    printer.out.key("latin1")?;
    printer.out.string(&printer.text)?;
    printer.out.end_object()
}
