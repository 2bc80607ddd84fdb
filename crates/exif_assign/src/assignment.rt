//! What is asked to be set: the name of a tag and the text of its value.

ghost use Rattle.std.specs.Prelude.{◌≡◌, [], ◌∷◌, map, IfOk};
ghost use Rattle.std.specs.List.{find};
ghost use Rattle.std.specs.Option.{option_map};
ghost use Rattle.exif_table.specs.View.{row_view};
ghost use Rattle.exif_assign.specs.Assigning.{all_assigned_in, altitude_fields, assigned_in, fields_named, has_name, latitude_fields, location_in, longitude_fields, named_in, or_else, parts_of, signed_fields, tag_named, trimmed, without_minus};

use exif_table::Row;
use exif_table::rows::rows;
use exif_types::{Context, Tag};
use std::alloc::{AllocError, Global};

/// A tag, and the text of the value that it is to have.
#[derive(Clone, Copy)]
pub struct Assignment<'a> {
    /// The tag, of the primary image.
    pub tag: Tag,
    /// The text of the value.
    pub text: &'a str,
}

impl<'a> Assignment<'a> {
    /// Reads `NAME=TEXT`, where the name is that of a tag, as in `Orientation=6`; `None` where
    /// there is no such tag. It takes no memory.
    pub fn parse(word: &'a str) -> Option<Assignment<'a>>
        ensures { option_map parts_of result ≡ assigned_in word.now }
    {
        let (name, text) = word.split_once('=')?;
        let tag = tag_named(name)?;
        Some(Assignment { tag, text })
    }

    /// Reads `NAME=TEXT` as [`parse`](Assignment::parse) does, or `Location=LATITUDE,LONGITUDE` or
    /// `Location=LATITUDE,LONGITUDE,ALTITUDE`, in decimal degrees and metres with a minus for
    /// south, west and below the sea, which sets the GPS fields together. `None` where there is no
    /// such tag. That the texts are numbers is checked when they are set, not here. It fails only
    /// where there is no memory.
    pub fn parse_all(
        alloc: Global,
        word: &'a str,
    ) -> Result<Option<Vec<Assignment<'a>>>, AllocError>
        ensures { IfOk result
            (λ found. option_map (λ all. map parts_of all.items) found ≡ all_assigned_in word.now) }
    {
        match word.split_once('=') {
            Some((name, text)) => fields_named(alloc, name, text),
            None => Ok(None),
        }
    }
}

// What a name assigns a text to: the fields of a location, or one tag.
fn fields_named<'a>(
    alloc: Global,
    name: &str,
    text: &'a str,
) -> Result<Option<Vec<Assignment<'a>>>, AllocError>
    ensures { IfOk result
        (λ found. option_map (λ all. map parts_of all.items) found
        ≡ fields_named name.now text.now) }
{
    if name == "Location" {
        return Ok(Some(location_in(alloc, text)?));
    }
    match tag_named(name) {
        Some(tag) => Ok(Some(Vec::from_slice(alloc, &[Assignment { tag, text }])?)),
        None => Ok(None),
    }
}

// The fields of a location.
fn location_in<'a>(alloc: Global, text: &'a str) -> Result<Vec<Assignment<'a>>, AllocError>
    ensures { IfOk result (λ found. map parts_of found.items ≡ location_in text.now) }
{
    let (latitude, rest) = text.split_once(',').unwrap_or((text, ""));
    let mut found = Vec::from_slice(alloc, &latitude_fields(latitude))?;
    match rest.split_once(',') {
        Some((longitude, altitude)) => {
            found.extend_from_slice(&longitude_fields(longitude))?;
            found.extend_from_slice(&altitude_fields(altitude))?;
        }
        None => found.extend_from_slice(&longitude_fields(rest))?,
    }
    Ok(found)
}

// The two fields of a latitude.
fn latitude_fields(text: &str) -> [Assignment<'_>; 2]
    ensures { map parts_of result ≡ latitude_fields text.now }
{
    signed_fields(
        Tag::GPSLatitudeRef,
        "N",
        "S",
        Tag::GPSLatitude,
        trimmed(text),
    )
}

// The two fields of a longitude.
fn longitude_fields(text: &str) -> [Assignment<'_>; 2]
    ensures { map parts_of result ≡ longitude_fields text.now }
{
    signed_fields(
        Tag::GPSLongitudeRef,
        "E",
        "W",
        Tag::GPSLongitude,
        trimmed(text),
    )
}

// The two fields of an altitude, of which the reference is 0 above the sea and 1 below it.
fn altitude_fields(text: &str) -> [Assignment<'_>; 2]
    ensures { map parts_of result ≡ altitude_fields text.now }
{
    signed_fields(
        Tag::GPSAltitudeRef,
        "0",
        "1",
        Tag::GPSAltitude,
        trimmed(text),
    )
}

// A number as two fields: its sign, which is the first text or with a minus the second, and the
// rest.
fn signed_fields<'a>(
    sign: Tag,
    plus: &'a str,
    minus: &'a str,
    tag: Tag,
    number: &'a str,
) -> [Assignment<'a>; 2]
    ensures { map parts_of result ≡ signed_fields sign plus.now minus.now tag number.now }
{
    match without_minus(number) {
        Some(rest) => two(sign, minus, tag, rest),
        None => two(sign, plus, tag, number),
    }
}

// A text without the white space around it.
fn trimmed(text: &str) -> &str
    ensures { result.now ≡ trimmed text.now }
{
    text.trim_ascii()
}

// What is behind a minus, if a number begins with one.
fn without_minus(number: &str) -> Option<&str>
    ensures { option_map (λ rest. rest.now) result ≡ without_minus number.now }
{
    number.strip_prefix('-')
}

// Two assignments.
fn two<'a>(sign: Tag, which: &'a str, tag: Tag, text: &'a str) -> [Assignment<'a>; 2]
    ensures { map parts_of result ≡ (sign, which.now) ∷ (tag, text.now) ∷ [] }
{
    [
        Assignment {
            tag: sign,
            text: which,
        },
        Assignment { tag, text },
    ]
}

// The first tag, or else the second.
fn or_else(first: Option<Tag>, second: Option<Tag>) -> Option<Tag>
    ensures { result ≡ or_else first second }
{
    match first {
        Some(tag) => Some(tag),
        None => second,
    }
}

// The tag of a name; a name of several contexts is that of the first.
fn tag_named(name: &str) -> Option<Tag>
    ensures { result ≡ tag_named name.now }
{
    let later = or_else(
        named_in(Context::Gps, name),
        named_in(Context::Interop, name),
    );
    let others = or_else(named_in(Context::Exif, name), later);
    or_else(named_in(Context::Tiff, name), others)
}

// The first row of a name.
fn row_named(rows: &'static [Row], name: &str) -> Option<&'static Row>
    ensures { option_map (λ row. row_view row.now) result
        ≡ find (has_name name.now) (map row_view rows.now) }
{
    for row in rows {
        if row.name == name {
            return Some(row);
        }
    }
    None
}

// The tag of a name in a context.
fn named_in(context: Context, name: &str) -> Option<Tag>
    ensures { result ≡ named_in context name.now }
{
    let row = row_named(rows(context), name)?;
    Some(Tag(context, row.number))
}
