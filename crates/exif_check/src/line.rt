//! The line of a part, for people.

ghost use Rattle.std.specs.Prelude.{◌≡◌, Some};
ghost use Rattle.std.specs.Fmt.{WritesOnOk};
ghost use Rattle.exif_check.specs.Names.{is_listed, is_metadata, judgement, part_text, picture_text};

use crate::checked::{Checked, Location};
use exif_inventory::{Kind, Part};
use std::fmt;

/// Whether a part holds metadata, or may hold some: all but what makes up the first picture and
/// holds no location.
pub fn is_listed(checked: Checked) -> bool
    ensures { result ≡ is_listed checked }
{
    match checked.location {
        Location::Absent => is_metadata(checked.part),
        Location::Present | Location::Unknown => true,
    }
}

// Whether a part is none of those that make up the first picture.
fn is_metadata(part: Part) -> bool
    ensures { result ≡ is_metadata part }
{
    match part.kind {
        Kind::Picture | Kind::Jfif | Kind::Adobe => part.picture > 0,
        _ => true,
    }
}

// What a line says of a part.
fn judgement(location: Location, maker_note: bool) -> &'static str
    ensures { result.now ≡ judgement location maker_note }
{
    match location {
        Location::Absent => ": no location",
        Location::Present => ": a location",
        Location::Unknown if maker_note => ": may hold a location in its maker note",
        Location::Unknown => ": may hold a location",
    }
}

/// A part as a line: `Exif data at offset 2 (840 bytes): a location`.
#[derive(Clone, Copy)]
pub struct Line(pub Checked);

// Writes the kind of a part, its offset and its length.
fn write_part<W: fmt::Write>(f: &mut fmt::Formatter<W>, part: Part) -> fmt::Result
    ensures { WritesOnOk W.write_str_gives f.old result (part_text part) f.new }
{
    let Part {
        kind,
        offset,
        len,
        ..
    } = part;
    write!(f, "{kind} at offset {offset} ({len} bytes)")
}

// Writes the number of a further picture.
fn write_picture<W: fmt::Write>(f: &mut fmt::Formatter<W>, picture: u64) -> fmt::Result
    ensures { WritesOnOk W.write_str_gives f.old result (picture_text picture) f.new }
{
    if picture > 0 {
        write!(f, " in or before further picture {picture}")
    } else {
        Ok(())
    }
}

impl fmt::Display for Line {
    ghost use Rattle.exif_check.specs.Names.{line_text};

    ghost output = { λ line. Some (line_text line.0) };

    fn fmt<W: fmt::Write>(&self, f: &mut fmt::Formatter<W>) -> fmt::Result {
        let Checked {
            part,
            location,
            maker_note,
        } = self.0;
        write_part(f, part)?;
        write_picture(f, part.picture)?;
        f.write_str(judgement(location, maker_note))
    }
}
