//! The parts of a file, each with its judgement.

ghost use Rattle.std.specs.Prelude.{◌≡◌, [], ◌∷◌, length, All, IfOk};
ghost use Rattle.std.specs.Option.{option_map};
ghost use Rattle.exif_inventory.specs.Promises.{EndsIn};
ghost use Rattle.std.specs.List.{list_all, list_any};
ghost use Rattle.exif_types.specs.Refusals.{Answers};
ghost use Rattle.exif_check.specs.Answered.{checked_answer, without_parts};
ghost use Rattle.exif_check.specs.Checking.{checked, is_maker_note, is_no_other, location_among, location_by, location_of, only_maker_note, parts_checked, picture_alone, weight, maker_note_at_most, only_maker_notes};

use exif_formats::{PictureFormat, format_of};
use exif_inventory::{Kind, Part};
use exif_privacy::{Reason, Reasons, Unread, parts_of};
use exif_scrub::tiff::is_settled;
use exif_types::Error;
use std::alloc::{AllocError, Global};

/// Whether data hold a location.
#[derive(Clone, Copy, Debug, PartialEq, Eq)]
pub enum Location {
    /// None was found.
    Absent,
    /// One was found. [`erase_locations`](exif_privacy::erase_locations) erases it.
    Present,
    /// They may hold one: they can't be read, or are not looked at.
    Unknown,
}

/// A part of a file, and whether it holds a location.
#[derive(Clone, Copy, Debug)]
pub struct Checked {
    /// The part.
    pub part: Part,
    /// Whether it holds a location.
    pub location: Location,
    /// Whether it may hold one in a maker note only, which is not read.
    pub maker_note: bool,
}

// What a reason says of a part.
fn weight(why: Reason) -> Location
    ensures { result ≡ weight why }
{
    match why {
        Reason::StillThere => Location::Present,
        Reason::GpsVersion => Location::Absent,
        _ => Location::Unknown,
    }
}

// Whether a part with these reasons holds a location.
fn location_by(whys: &[Reason]) -> Location
    ensures { result ≡ location_by whys.now }
{
    let mut all = Location::Absent;
    for why in whys {
        all = heavier(all, weight(*why));
    }
    all
}

// Whether a reason is that of a maker note.
fn is_maker_note(why: Reason) -> bool
    ensures { result ≡ is_maker_note why }
{
    matches!(why, Reason::InExif(exif_data_locations::Reason::MakerNote))
}

// Whether a reason is no other one for which a part may hold a location.
fn is_no_other(why: Reason) -> bool
    ensures { result ≡ is_no_other why }
{
    match why {
        Reason::GpsVersion => true,
        _ => is_maker_note(why),
    }
}

// Whether one of these reasons is that of a maker note.
fn any_maker_note(whys: &[Reason]) -> bool
    ensures { result ≡ list_any is_maker_note whys.now }
{
    whys.iter().any(|why| is_maker_note(*why))
}

// Whether no other one is among them.
fn no_other(whys: &[Reason]) -> bool
    ensures { result ≡ list_all is_no_other whys.now }
{
    whys.iter().all(|why| is_no_other(*why))
}

// Whether a part with these reasons may hold a location in a maker note only.
fn only_maker_note(whys: &[Reason]) -> bool
    ensures { result ≡ only_maker_note whys.now }
{
    any_maker_note(whys) && no_other(whys)
}

// These parts of a file with their judgements.
fn check_parts(alloc: Global, file: &[u8], parts: &[Part]) -> Result<Vec<Checked>, AllocError>
    requires { All (EndsIn (length file.now)) parts.now }
    ensures { IfOk result (λ all. all.items ≡ parts_checked file.now parts.now) }
{
    let mut all = Vec::new(alloc);
    let mut reasons = Reasons::none(alloc);
    for (index, part) in parts.iter().enumerate() {
        reasons = reasons.next(alloc, Unread::Keep, file, &parts[index..])?;
        all.push(Checked {
            part: *part,
            location: location_by(reasons.whys.as_slice()),
            maker_note: only_maker_note(reasons.whys.as_slice()),
        })?;
    }
    Ok(all)
}

// A TIFF file of so many bytes that is nothing but its picture: one part.
fn picture_alone(alloc: Global, len: usize) -> Result<Vec<Checked>, AllocError>
    ensures { IfOk result (λ all. all.items ≡ picture_alone len ∷ []) }
{
    let mut all = Vec::new(alloc);
    all.push(Checked {
        part: Part {
            kind: Kind::Picture,
            picture: 0,
            offset: 0,
            len,
            data_offset: 0,
            data_len: len,
        },
        location: Location::Absent,
        maker_note: false,
    })?;
    Ok(all)
}

/// The parts of a JPEG, WebP, HEIF, PNG, JPEG XL or TIFF file, in the order of their bytes, each
/// with whether it holds a location: `None` for a file of another format. Together they are the
/// whole file. A TIFF file is one part: its picture, where it is nothing else
/// ([`is_settled`]), or Exif data.
///
/// A part holds a location if erasing locations changes it, and so does each portion of an extended
/// XMP packet that has one. GPS data that are a version alone are no location. A part may hold one if
/// it can't be read, has texts or keywords, or is of a kind that is not searched, and has other bytes
/// than zeros: comments, trailers, content credentials, other parts of long XMP packets, thumbnails
/// of JFIF, resources of Photoshop but those of numbers alone, and what is not known. So may Exif
/// data with a maker note: where this is the only reason, `maker_note` is set.
///
/// It takes memory for the list, and for copies of the longest part with Exif, XMP or IPTC data.
pub fn check(alloc: Global, file: &[u8]) -> Result<Option<Vec<Checked>>, AllocError>
    ensures { IfOk result (λ found. option_map (λ v. v.items) found ≡ checked file.now) }
{
    if is_settled(alloc, file, true)? {
        return Ok(Some(picture_alone(alloc, file.len())?));
    }
    match parts_of(alloc, file)? {
        Some(parts) => Ok(Some(check_parts(alloc, file, parts.as_slice())?)),
        None => Ok(None),
    }
}

// What is answered of a file of a format whose parts are not known. A JPEG XL codestream without a
// container has no metadata.
fn without_parts(alloc: Global, format: Option<PictureFormat>) -> Result<Vec<Checked>, Error>
    ensures { Answers (λ v. v.items) result (without_parts format) }
{
    match format {
        Some(PictureFormat::JpegXl) => Ok(Vec::new(alloc)),
        Some(_) => Err(Error::NotSupported("files of this format are not checked")),
        None => Err(Error::InvalidFormat("Unknown image format")),
    }
}

/// The same as an answer: a JPEG XL codestream has no parts, a file of another format that is known
/// is NotSupported, and any other file InvalidFormat.
pub fn check_picture(alloc: Global, file: &[u8]) -> Result<Result<Vec<Checked>, Error>, AllocError>
    ensures { IfOk result (λ answer. Answers (λ v. v.items) answer (checked_answer file.now)) }
{
    match check(alloc, file)? {
        Some(parts) => Ok(Ok(parts)),
        None => Ok(without_parts(alloc, format_of(file))),
    }
}

// The one of two judgements that weighs more.
fn heavier(first: Location, second: Location) -> Location
    ensures { result ≡ location_among first second }
{
    match (first, second) {
        (Location::Present, _) | (_, Location::Present) => Location::Present,
        (Location::Unknown, _) | (_, Location::Unknown) => Location::Unknown,
        (Location::Absent, Location::Absent) => Location::Absent,
    }
}

// Whether a part holds no location, but for what a maker note may hold.
fn is_maker_note_at_most(checked: Checked) -> bool
    ensures { result ≡ maker_note_at_most checked }
{
    checked.maker_note || matches!(checked.location, Location::Absent)
}

/// Whether nothing but maker notes may hold a location in a file with these parts.
pub fn is_only_maker_notes(parts: &[Checked]) -> bool
    ensures { result ≡ only_maker_notes parts.now }
{
    parts.iter().all(|checked| is_maker_note_at_most(*checked))
}

/// Whether a file with these parts holds a location: `Present` where one part does, `Unknown` where
/// none does and one may, in a maker note or elsewhere, and `Absent` where no part may.
pub fn location_of(parts: &[Checked]) -> Location
    ensures { result ≡ location_of parts.now }
{
    let mut all = Location::Absent;
    for checked in parts {
        all = heavier(all, checked.location);
    }
    all
}
