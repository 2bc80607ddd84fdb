//! The parts of a file as JSON.

ghost use Rattle.std.specs.Prelude.{◌≡◌, IfOk};
ghost use Rattle.json.specs.Print.{print};
ghost use Rattle.json.specs.Tree.{json_tokens};
ghost use Rattle.exif_json.specs.Prints.{Prints};
ghost use Rattle.exif_json.specs.Trees.{parts_tokens};
ghost use Rattle.exif_check.specs.Json.{checked_json, judged_members, part_json, part_members, parts_json};

use crate::checked::{Checked, location_of};
use crate::names::{kind_name, location_name, part_location_name};
use exif_formats::PictureFormat;
use exif_json::printer::Printer;
use exif_json::write_file;
use std::alloc::{AllocError, Global};

// Writes the members of a part.
fn write_members(printer: &mut Printer, checked: Checked) -> Result<(), AllocError>
    ensures { Prints result printer.old.out printer.new.out
        (parts_tokens (part_members checked)) }
{
    let part = checked.part;
    printer.text_member("kind", kind_name(part.kind))?;
    printer.number_member("picture", part.picture)?;
    printer.number_member("offset", part.offset as u64)?;
    printer.number_member("length", part.len as u64)?;
    printer.text_member("location", part_location_name(checked))
}

// Writes the object of a part.
fn write_part(printer: &mut Printer, checked: Checked) -> Result<(), AllocError>
    ensures { Prints result printer.old.out printer.new.out (json_tokens (part_json checked)) }
{
    printer.out.begin_object()?;
    write_members(printer, checked)?;
    printer.out.end_object()
}

// Writes an array of the parts.
fn write_parts(printer: &mut Printer, parts: &[Checked]) -> Result<(), AllocError>
    ensures { Prints result printer.old.out printer.new.out (json_tokens (parts_json parts.now)) }
{
    printer.out.begin_array()?;
    for checked in parts {
        write_part(printer, *checked)?;
    }
    printer.out.end_array()
}

// Writes the members that judge a file.
fn write_judged(printer: &mut Printer, parts: &[Checked]) -> Result<(), AllocError>
    ensures { Prints result printer.old.out printer.new.out
        (parts_tokens (judged_members parts.now)) }
{
    printer.text_member("location", location_name(location_of(parts)))?;
    printer.out.key("parts")?;
    write_parts(printer, parts)
}

// Writes the object of a file.
fn write_checked(
    printer: &mut Printer,
    path: &[u8],
    format: Option<PictureFormat>,
    parts: &[Checked],
) -> Result<(), AllocError>
    ensures { Prints result printer.old.out printer.new.out
        (json_tokens (checked_json path.now format parts.now)) }
{
    printer.out.begin_object()?;
    write_file(printer, path, format)?;
    write_judged(printer, parts)?;
    printer.out.end_object()
}

/// The JSON object (RFC 8259) of a file that was checked: its path, its format, whether it holds a
/// location (`yes`, `no` or `unknown`), and all its parts, each with its kind, the number of its
/// picture, its offset, its length, and the same of it, or `maker_note` where it may hold one in a
/// maker note only. The only error is out of memory.
pub fn check_json(
    alloc: Global,
    path: &[u8],
    format: Option<PictureFormat>,
    parts: &[Checked],
) -> Result<Vec<u8>, AllocError>
    ensures text { IfOk result (λ text. text.items
        ≡ print (json_tokens (checked_json path.now format parts.now))) }
{
    let mut printer = Printer::new(alloc);
    write_checked(&mut printer, path, format, parts)?;
    Ok(printer.finish())
}
