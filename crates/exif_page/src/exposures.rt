//! The text of an exposure.

ghost use Rattle.std.specs.Prelude.{◌≡◌, ◌<◌, ◌≤◌, ◌^◌, ◌+◌, ◌*◌, ◌++◌, IfOk, OnOk, codes, option_map, string_bytes};
ghost use Rattle.exif_page.specs.Numbers.{short_text};
ghost use Rattle.exif_page.specs.Exposures.{exposure_of, is_second, nearest, not_empty, number_part, part_of_second, seconds_text, time_part, with_part};

use crate::numbers::{Short, billionths_of};
use std::alloc::{AllocError, Global};

/// What is known of an exposure: texts of decimal numbers.
#[derive(Clone, Copy, Debug)]
pub struct Exposure<'a> {
    /// The exposure time in seconds, as `0.005`.
    pub time: Option<&'a str>,
    /// The f-number, as `2.8`.
    pub f_number: Option<&'a str>,
    /// The sensitivity, as `100`.
    pub iso: Option<&'a str>,
    /// The focal length in millimetres, as `35`.
    pub focal_length: Option<&'a str>,
}

// Whether billionths are a second, within one in a hundred.
fn is_second(billionths: u64) -> bool
    ensures { result ≡ is_second billionths }
{
    990_000_000 <= billionths && billionths <= 1_010_000_000
}

// The number nearest to a second over a time.
fn nearest(billionths: u64) -> u64
    requires least { 0 < billionths }
    requires most { billionths ≤ 10 ^ 18 }
    ensures value { result ≡ nearest billionths }
    ensures room { result * billionths ≤ 10 ^ 9 + billionths }
{
    (1_000_000_000 + billionths / 2) / billionths
}

// That number, where it says the time well, and the time is at most a third of a second.
fn part_of_second(billionths: u64) -> Option<u64>
    requires least { 0 < billionths }
    requires most { billionths ≤ 10 ^ 18 }
    ensures { result ≡ part_of_second billionths }
{
    let part = nearest(billionths);
    if 3 <= part && is_second(part * billionths) {
        Some(part)
    } else {
        None
    }
}

// An exposure time: as a part of a second, or as a decimal number.
fn seconds_text(alloc: Global, billionths: u64) -> Result<String, AllocError>
    requires least { 0 < billionths }
    requires most { billionths ≤ 10 ^ 18 }
    ensures { IfOk result (λ t. string_bytes t ≡ seconds_text billionths) }
{
    match part_of_second(billionths) {
        Some(part) => format!(in alloc; "1/{part} s"),
        None => {
            let seconds = Short { billionths };
            format!(in alloc; "{seconds} s")
        }
    }
}

// The exposure time, if the text is one.
fn time_part(alloc: Global, text: Option<&str>) -> Result<Option<String>, AllocError>
    ensures { IfOk result (λ t. option_map string_bytes t
        ≡ time_part (option_map (λ t. t.now) text.entry)) }
{
    let Some(text) = text else {
        return Ok(None);
    };
    match billionths_of(text) {
        Some(billionths) => Ok(Some(seconds_text(alloc, billionths)?)),
        None => Ok(None),
    }
}

// A decimal number between two texts.
fn number_text(
    alloc: Global,
    before: &str,
    billionths: u64,
    after: &str,
) -> Result<String, AllocError>
    ensures { IfOk result (λ t. string_bytes t
        ≡ before.now ++ short_text billionths ++ after.now) }
{
    let number = Short { billionths };
    format!(in alloc; "{before}{number}{after}")
}

// The same, if the text is one of a number.
fn number_part(
    alloc: Global,
    before: &str,
    text: Option<&str>,
    after: &str,
) -> Result<Option<String>, AllocError>
    ensures { IfOk result (λ t. option_map string_bytes t
        ≡ number_part before.now (option_map (λ t. t.now) text.entry) after.now) }
{
    let Some(text) = text else {
        return Ok(None);
    };
    match billionths_of(text) {
        Some(billionths) => Ok(Some(number_text(alloc, before, billionths, after)?)),
        None => Ok(None),
    }
}

// The sensitivity.
fn iso_part(alloc: Global, text: Option<&str>) -> Result<Option<String>, AllocError>
    ensures { IfOk result (λ t. option_map string_bytes t
        ≡ option_map (λ t. codes "ISO " ++ t) (option_map (λ t. t.now) text.entry)) }
{
    match text {
        Some(text) => Ok(Some(format!(in alloc; "ISO {text}")?)),
        None => Ok(None),
    }
}

// Adds a part behind others, with a comma between them.
fn push_part(out: &mut String, part: &Option<String>) -> Result<(), AllocError>
    ensures { OnOk result (string_bytes out.new
        ≡ with_part (string_bytes out.old) (option_map string_bytes part.now)) }
{
    let Some(part) = part else {
        return Ok(());
    };
    if !out.is_empty() {
        out.push_str(", ")?;
    }
    out.push_str(part.as_str())
}

// A text, if it is not empty.
fn not_empty(text: String) -> Option<String>
    ensures { option_map string_bytes result ≡ not_empty (string_bytes text) }
{
    if text.is_empty() { None } else { Some(text) }
}

/// The text of an exposure, as `1/200 s, f/2.8, ISO 100, 35 mm`: what is known of it, and `None`
/// where that is nothing. A time of at most a third of a second is a part of one, where that says
/// it within one in a hundred; other numbers have at most two places. What is 0, or no decimal
/// number, is left out. The only error is out of memory.
pub fn exposure_of(alloc: Global, exposure: &Exposure<'_>) -> Result<Option<String>, AllocError>
    ensures { IfOk result (λ t. option_map string_bytes t ≡ exposure_of
        (option_map (λ t. t.now) exposure.now.time)
        (option_map (λ t. t.now) exposure.now.f_number)
        (option_map (λ t. t.now) exposure.now.iso)
        (option_map (λ t. t.now) exposure.now.focal_length)) }
{
    let mut out = String::new(alloc);
    push_part(&mut out, &time_part(alloc, exposure.time)?)?;
    push_part(&mut out, &number_part(alloc, "f/", exposure.f_number, "")?)?;
    push_part(&mut out, &iso_part(alloc, exposure.iso)?)?;
    push_part(
        &mut out,
        &number_part(alloc, "", exposure.focal_length, " mm")?,
    )?;
    Ok(not_empty(out))
}
