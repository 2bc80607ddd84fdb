//! What people ask of a picture first: how it is turned, when and where it was taken, by which
//! camera, and its size.

ghost use Rattle.std.specs.Prelude.{◌≡◌, codes, option_map};
ghost use Rattle.json.specs.Json as J;
ghost use Rattle.exif_summary.specs.Coordinates.{latitude, longitude};
ghost use Rattle.exif_json.specs.Prints.{Prints};
ghost use Rattle.exif_summary.specs.Seen.{degrees_view};
ghost use Rattle.exif_json.specs.Summaries.{camera_members, date_json, degrees_json, maybe, location_members, size_members, standing_members, summary_json};
ghost use Rattle.exif_json.specs.Texts.{text_json};
ghost use Rattle.exif_json.specs.Trees.{parts_tokens, unsigned};
ghost use Rattle.json.specs.Tree.{json_tokens};

use crate::printer::Printer;
use crate::texts::write_text;
use exif::{DateTime, Exif, Tag};
use exif_summary::{
    Degrees, Iso, LATITUDE, LONGITUDE, TAKEN, find_date, find_degrees, find_either, find_fraction,
    find_orientation, find_text,
};
use std::alloc::AllocError;
use std::fmt::Write;

/// Writes a member of a number, where there is one.
fn write_number(printer: &mut Printer, name: &str, number: Option<u32>) -> Result<(), AllocError>
    ensures { Prints result printer.old.out printer.new.out
        (parts_tokens (maybe name.now unsigned number)) }
{
    match number {
        Some(n) => printer.number_member(name, u64::from(n)),
        None => Ok(()),
    }
}

/// Writes a member of a text, where there is one.
fn write_text_of(printer: &mut Printer, name: &str, text: Option<&[u8]>) -> Result<(), AllocError>
    ensures { Prints result printer.old.out printer.new.out
        (parts_tokens (maybe name.now text_json (option_map (λ t. t.now) text.entry))) }
{
    match text {
        Some(bytes) => {
            printer.out.key(name)?;
            write_text(printer, bytes)
        }
        None => Ok(()),
    }
}

/// Writes a coordinate as a number.
fn print_degrees(printer: &mut Printer, degrees: Degrees) -> Result<(), AllocError>
    ensures { Prints result printer.old.out printer.new.out
        (json_tokens (degrees_json (degrees_view degrees))) }
{
    printer.text.clear();
    match write!(printer.text, "{degrees}") {
        Ok(()) => printer.out.number(&printer.text),
        Err(_) => Err(AllocError),
    }
}

/// Writes a member of a coordinate, where there is one.
fn write_degrees(
    printer: &mut Printer,
    name: &str,
    degrees: Option<Degrees>,
) -> Result<(), AllocError>
    ensures { Prints result printer.old.out printer.new.out
        (parts_tokens (maybe name.now degrees_json (option_map degrees_view degrees))) }
{
    match degrees {
        Some(d) => {
            printer.out.key(name)?;
            print_degrees(printer, d)
        }
        None => Ok(()),
    }
}

/// Writes a member of a date and the digits of the fraction of its second, where there is one.
fn write_date(
    printer: &mut Printer,
    name: &str,
    date: Option<DateTime>,
    fraction: &str,
) -> Result<(), AllocError>
    ensures { Prints result printer.old.out printer.new.out
        (parts_tokens (maybe name.now (date_json fraction.now) date)) }
{
    match date {
        Some(date) => printer.shown_member(name, Iso { date, fraction }),
        None => Ok(()),
    }
}

/// Writes the picture's orientation, and when it was taken.
fn write_standing(printer: &mut Printer, exif: &Exif) -> Result<(), AllocError>
    ensures { Prints result printer.old.out printer.new.out
        (parts_tokens (standing_members exif.now.fields)) }
{
    write_number(printer, "orientation", find_orientation(exif))?;
    write_date(
        printer,
        "date_taken",
        find_date(exif, TAKEN),
        find_fraction(exif, TAKEN),
    )
}

/// Writes where it was taken.
fn write_location(printer: &mut Printer, exif: &Exif) -> Result<(), AllocError>
    ensures { Prints result printer.old.out printer.new.out
        (parts_tokens (location_members exif.now.fields)) }
{
    write_degrees(printer, "latitude", find_degrees(exif, &LATITUDE))?;
    write_degrees(printer, "longitude", find_degrees(exif, &LONGITUDE))
}

/// Writes which camera took it.
fn write_camera(printer: &mut Printer, exif: &Exif) -> Result<(), AllocError>
    ensures { Prints result printer.old.out printer.new.out
        (parts_tokens (camera_members exif.now.fields)) }
{
    write_text_of(printer, "make", find_text(exif, Tag::Make))?;
    write_text_of(printer, "model", find_text(exif, Tag::Model))
}

/// Writes its size.
fn write_size(printer: &mut Printer, exif: &Exif) -> Result<(), AllocError>
    ensures { Prints result printer.old.out printer.new.out
        (parts_tokens (size_members exif.now.fields)) }
{
    let width = find_either(exif, Tag::PixelXDimension, Tag::ImageWidth);
    write_number(printer, "width", width)?;
    let height = find_either(exif, Tag::PixelYDimension, Tag::ImageLength);
    write_number(printer, "height", height)
}

/// Writes the summary.
pub(crate) fn write_summary(printer: &mut Printer, exif: &Exif) -> Result<(), AllocError>
    ensures { Prints result printer.old.out printer.new.out
        (json_tokens (summary_json exif.now.fields)) }
{
    printer.out.begin_object()?;
    write_standing(printer, exif)?;
    write_location(printer, exif)?;
    write_camera(printer, exif)?;
    write_size(printer, exif)?;
    printer.out.end_object()
}
