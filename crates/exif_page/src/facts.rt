//! The entry of a picture, by what is known of it.

ghost use Rattle.std.specs.Prelude.{◌≡◌, IfOk, option_and_then, option_map, string_bytes};
ghost use Rattle.exif_page.specs.Dates.{day_of, time_of};
ghost use Rattle.exif_page.specs.Facts.{camera_of_facts, day_of_facts, exposure_of_facts, time_of_facts};

use crate::cameras::camera_of;
use crate::dates::{day_of, time_of};
use crate::entries::{Entry, Thumbnail};
use crate::exposures::{Exposure, exposure_of};
use std::alloc::{AllocError, Global};

/// What is known of a picture, as texts.
#[derive(Clone, Copy, Debug)]
pub struct Facts<'a> {
    /// The path of its file.
    pub path: &'a str,
    /// Where a click on it leads.
    pub link: Option<&'a str>,
    /// The orientation of Exif, as a number.
    pub orientation: Option<&'a str>,
    /// When it was taken, as `2016-05-04T03:02:01.74+09:00`.
    pub date_taken: Option<&'a str>,
    /// The maker of the camera.
    pub make: Option<&'a str>,
    /// The model of the camera.
    pub model: Option<&'a str>,
    /// The exposure.
    pub exposure: Exposure<'a>,
    /// The latitude in decimal degrees.
    pub latitude: Option<&'a str>,
    /// The longitude in decimal degrees.
    pub longitude: Option<&'a str>,
}

/// Texts of an entry that are made of several facts.
#[derive(Debug, Drop)]
pub struct Texts {
    /// The camera.
    pub camera: Option<String>,
    /// The exposure.
    pub exposure: Option<String>,
}

/// The texts that are made of the facts of a picture ([`camera_of`](crate::camera_of),
/// [`exposure_of`](crate::exposure_of)). The only error is out of memory.
pub fn texts_of(alloc: Global, facts: &Facts<'_>) -> Result<Texts, AllocError>
    ensures camera { IfOk result (λ t. option_map string_bytes t.camera
        ≡ camera_of_facts facts.now) }
    ensures exposure { IfOk result (λ t. option_map string_bytes t.exposure
        ≡ exposure_of_facts facts.now) }
{
    let camera = camera_of(alloc, facts.make, facts.model)?;
    let exposure = exposure_of(alloc, &facts.exposure)?;
    Ok(Texts { camera, exposure })
}

// A text, if there is one.
fn text_of(text: &Option<String>) -> Option<&str>
    ensures { option_map (λ t. t.now) result ≡ option_map string_bytes text.now }
{
    match text {
        Some(text) => Some(text.as_str()),
        None => None,
    }
}

// The same text, for a part of the time.
fn shorter<'a, 'f: 'a>(text: Option<&'f str>) -> Option<&'a str>
    ensures { option_map (λ t. t.now) result ≡ option_map (λ t. t.now) text.entry }
{
    match text {
        Some(text) => Some(text),
        None => None,
    }
}

// The day of a date, if there is one.
fn day_in(date: Option<&str>) -> Option<&str>
    ensures { option_map (λ t. t.now) result
        ≡ option_and_then day_of (option_map (λ t. t.now) date.entry) }
{
    day_of(date?)
}

// The time of a date, if there is one.
fn time_in(date: Option<&str>) -> Option<&str>
    ensures { option_map (λ t. t.now) result
        ≡ option_and_then time_of (option_map (λ t. t.now) date.entry) }
{
    time_of(date?)
}

/// The entry of a picture, by its facts, the texts that are made of them ([`texts_of`]) and its
/// thumbnail.
pub fn entry_of<'a>(facts: &'a Facts<'_>, texts: &'a Texts, thumbnail: Thumbnail<'a>) -> Entry<'a>
    ensures path { result.path.now ≡ facts.now.path.now }
    ensures link { option_map (λ t. t.now) result.link
        ≡ option_map (λ t. t.now) facts.now.link }
    ensures orientation { option_map (λ t. t.now) result.orientation
        ≡ option_map (λ t. t.now) facts.now.orientation }
    ensures day { option_map (λ t. t.now) result.day ≡ day_of_facts facts.now }
    ensures time { option_map (λ t. t.now) result.time ≡ time_of_facts facts.now }
    ensures camera { option_map (λ t. t.now) result.camera
        ≡ option_map string_bytes texts.now.camera }
    ensures exposure { option_map (λ t. t.now) result.exposure
        ≡ option_map string_bytes texts.now.exposure }
    ensures latitude { option_map (λ t. t.now) result.latitude
        ≡ option_map (λ t. t.now) facts.now.latitude }
    ensures longitude { option_map (λ t. t.now) result.longitude
        ≡ option_map (λ t. t.now) facts.now.longitude }
    ensures thumbnail { result.thumbnail ≡ thumbnail.entry }
{
    Entry {
        path: facts.path,
        link: shorter(facts.link),
        orientation: shorter(facts.orientation),
        day: day_in(shorter(facts.date_taken)),
        time: time_in(shorter(facts.date_taken)),
        camera: text_of(&texts.camera),
        exposure: text_of(&texts.exposure),
        latitude: shorter(facts.latitude),
        longitude: shorter(facts.longitude),
        thumbnail,
    }
}
