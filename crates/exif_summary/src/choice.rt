//! Conditions on pictures.

ghost use Rattle.std.specs.Prelude.{◌≡◌, option_map};
ghost use Rattle.exif_summary.specs.Choices.{AreFacts, begins, contains, fields_in, fits, is_any, is_as, is_from, is_located, is_taken_by, is_till, takes, takes_fields, taken_in};

use crate::bounds::stamp_of;
use crate::{LATITUDE, LONGITUDE, TAKEN, find_date, find_degrees, find_text};
use exif_types::{Exif, Tag};

/// Which pictures are asked for: those that meet each condition that is given.
#[derive(Clone, Copy)]
pub struct Choice<'a> {
    /// Taken at this time or later, as [`crate::stamp_of`] has it.
    pub after: Option<u64>,
    /// Taken before this time.
    pub before: Option<u64>,
    /// Whether the picture has a date taken.
    pub date: Option<bool>,
    /// Whether Exif tells the location.
    pub location: Option<bool>,
    /// A text that the make or the model of the camera contains, in any case of its letters.
    pub camera: Option<&'a [u8]>,
}

/// What is known of a picture by which it is chosen.
#[derive(Clone, Copy)]
pub struct Facts<'a> {
    /// When it was taken, as [`crate::stamp_of`] has it.
    pub taken: Option<u64>,
    /// Whether Exif tells latitude and longitude.
    pub is_located: bool,
    /// The make of the camera.
    pub make: Option<&'a [u8]>,
    /// The model of the camera.
    pub model: Option<&'a [u8]>,
}

// When a picture was taken.
fn taken_in(exif: &Exif) -> Option<u64>
    ensures { result ≡ taken_in exif.now.fields }
{
    let date = find_date(exif, TAKEN)?;
    Some(stamp_of(date))
}

// Whether a picture tells latitude and longitude.
fn is_located(exif: &Exif) -> bool
    ensures { result ≡ is_located exif.now.fields }
{
    find_degrees(exif, &LATITUDE).is_some() && find_degrees(exif, &LONGITUDE).is_some()
}

// The facts of a picture with Exif data.
fn facts_in<'a>(exif: &'a Exif) -> Facts<'a>
    ensures { AreFacts exif.now.fields result }
{
    Facts {
        taken: taken_in(exif),
        is_located: is_located(exif),
        make: find_text(exif, Tag::Make),
        model: find_text(exif, Tag::Model),
    }
}

/// The facts of a picture: none where it has no Exif data.
pub fn facts_of<'a>(exif: Option<&'a Exif>) -> Facts<'a>
    ensures { AreFacts (fields_in exif.entry) result }
{
    match exif {
        Some(exif) => facts_in(exif),
        None => Facts {
            taken: None,
            is_located: false,
            make: None,
            model: None,
        },
    }
}

// Whether a text begins with another one, in any case of its letters.
fn begins(text: &[u8], part: &[u8]) -> bool
    ensures { result ≡ begins part.now text.now }
{
    match part {
        [] => true,
        [b, part @ ..] => match text {
            [a, text @ ..] => {
                a.to_ascii_lowercase() == b.to_ascii_lowercase() && begins(text, part)
            }
            [] => false,
        },
    }
}

// Whether a text contains another one, in any case of its letters.
fn contains(text: &[u8], part: &[u8]) -> bool
    ensures { result ≡ contains part.now text.now }
{
    let mut rest = text;
    while let [_, behind @ ..] = rest {
        if begins(rest, part) {
            return true;
        }
        rest = behind;
    }
    begins(rest, part)
}

// Whether a text, if there is one, contains another one.
fn fits(text: Option<&[u8]>, part: &[u8]) -> bool
    ensures { result ≡ fits part.now (option_map (λ t. t.now) text.entry) }
{
    match text {
        Some(text) => contains(text, part),
        None => false,
    }
}

// Whether a time is not before another one.
fn is_from(taken: Option<u64>, after: Option<u64>) -> bool
    ensures { result ≡ is_from taken after }
{
    match (taken, after) {
        (_, None) => true,
        (Some(taken), Some(after)) => after <= taken,
        (None, Some(_)) => false,
    }
}

// Whether a time is before another one.
fn is_till(taken: Option<u64>, before: Option<u64>) -> bool
    ensures { result ≡ is_till taken before }
{
    match (taken, before) {
        (_, None) => true,
        (Some(taken), Some(before)) => taken < before,
        (None, Some(_)) => false,
    }
}

// Whether a fact is as it is asked for.
fn is_as(fact: bool, asked: Option<bool>) -> bool
    ensures { result ≡ is_as fact asked }
{
    match asked {
        Some(asked) => fact == asked,
        None => true,
    }
}

// Whether the make or the model contain a text, if one is given.
fn is_taken_by(facts: Facts<'_>, camera: Option<&[u8]>) -> bool
    ensures { result ≡ is_taken_by (option_map (λ t. t.now) facts.entry.make)
        (option_map (λ t. t.now) facts.entry.model) (option_map (λ t. t.now) camera.entry) }
{
    match camera {
        Some(part) => fits(facts.make, part) || fits(facts.model, part),
        None => true,
    }
}

impl Choice<'_> {
    /// Whether any condition is given.
    pub fn is_any(&self) -> bool
        ensures { result ≡ is_any self.now }
    {
        self.after.is_some()
            || self.before.is_some()
            || self.date.is_some()
            || self.location.is_some()
            || self.camera.is_some()
    }

    /// Whether a picture meets each condition. One whose date is not known is neither after nor
    /// before a time.
    pub fn takes(&self, facts: Facts<'_>) -> bool
        ensures { result ≡ takes self.now facts.entry }
    {
        is_from(facts.taken, self.after)
            && is_till(facts.taken, self.before)
            && is_as(facts.taken.is_some(), self.date)
            && is_as(facts.is_located, self.location)
            && is_taken_by(facts, self.camera)
    }

    /// Whether a picture meets each condition. One without Exif data has neither a date, a camera nor
    /// a location.
    pub fn takes_picture(&self, exif: Option<&Exif>) -> bool
        ensures { result ≡ takes_fields self.now (fields_in exif.entry) }
    {
        self.takes(facts_of(exif))
    }
}
