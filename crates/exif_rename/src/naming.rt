//! Names that patterns make of what is known of a picture.

ghost use Rattle.std.specs.Prelude.{◌≡◌, IfOk, encode_utf8, string_bytes};
ghost use Rattle.std.specs.Str.{chars};
ghost use Rattle.exif_rename.specs.Views.{ok_as};
ghost use Rattle.exif_rename.specs.Naming.{date_text, known_of, known_text, named, padded, part_text, safe, safe_char, undotted};
ghost use Rattle.exif_files.specs.Names.{name_if};

use crate::pattern::{DatePart, Part, Pattern, chars_of};
use std::alloc::{AllocError, Global};
use std::fmt;

/// When a picture was taken.
#[derive(Clone, Copy, Debug, PartialEq, Eq)]
pub struct Taken {
    /// The year.
    pub year: u16,
    /// The month, from 1 to 12.
    pub month: u8,
    /// The day of the month, from 1 to 31.
    pub day: u8,
    /// The hour, from 0 to 23.
    pub hour: u8,
    /// The minute, from 0 to 59.
    pub minute: u8,
    /// The second, from 0 to 59.
    pub second: u8,
}

/// What is known of a picture.
#[derive(Clone, Copy, Debug)]
pub struct Facts<'a> {
    /// When it was taken.
    pub taken: Option<Taken>,
    /// The make of the camera.
    pub make: Option<&'a str>,
    /// Its model.
    pub model: Option<&'a str>,
    /// The name of the file without its folder and its extension.
    pub name: &'a str,
}

/// Which part of a name is not known. A text is not known either if nothing is left of it without
/// the white space around it.
#[derive(Clone, Copy, Debug, PartialEq, Eq)]
pub enum Missing {
    /// The date.
    Date,
    /// The make of the camera.
    Make,
    /// Its model.
    Model,
    /// The old name.
    Name,
}

impl fmt::Display for Missing {
    ghost use Rattle.std.specs.Prelude.{Some};
    ghost use Rattle.exif_rename.specs.Texts.{missing_text};

    ghost output = { λ missing. Some (missing_text missing) };

    fn fmt<W: fmt::Write>(&self, f: &mut fmt::Formatter<W>) -> fmt::Result {
        f.write_str(match self {
            Missing::Date => "no date",
            Missing::Make => "no make of a camera",
            Missing::Model => "no model of a camera",
            Missing::Name => "no name to keep",
        })
    }
}

impl Pattern {
    /// The new name of a picture: a path relative to a folder, without its extension; or the first
    /// part that is not known. In texts each of `/ \ : * ? " < > |` and each control character
    /// becomes `_`, white space around them is cut off, and `.` and `..` become `_` and `__`. It
    /// takes the memory of the name, and of a text.
    pub fn name(
        &self,
        alloc: Global,
        facts: &Facts<'_>,
    ) -> Result<Result<String, Missing>, AllocError>
        ensures { IfOk result (λ answer.
            ok_as string_bytes answer ≡ named self.now.parts.items (known_of facts.now)) }
    {
        let mut name = String::new(alloc);
        for part in &self.parts {
            match part_text(alloc, *part, facts)? {
                Ok(text) => name.push_str(text.as_str())?,
                Err(missing) => return Ok(Err(missing)),
            }
        }
        Ok(Ok(name))
    }
}

// The text of a part.
fn part_text(
    alloc: Global,
    part: Part,
    facts: &Facts<'_>,
) -> Result<Result<String, Missing>, AllocError>
    ensures { IfOk result (λ answer.
        ok_as string_bytes answer ≡ part_text part (known_of facts.now)) }
{
    match part {
        Part::Literal(c) => Ok(Ok(text_of_char(alloc, c)?)),
        Part::Make => known_text(alloc, facts.make, Missing::Make),
        Part::Model => known_text(alloc, facts.model, Missing::Model),
        Part::Name => known_text(alloc, Some(facts.name), Missing::Name),
        Part::Date(digits) => match facts.taken {
            Some(taken) => Ok(Ok(date_text(alloc, digits, taken)?)),
            None => Ok(Err(Missing::Date)),
        },
    }
}

// A character as a text.
fn text_of_char(alloc: Global, c: char) -> Result<String, AllocError>
    ensures { IfOk result (λ text. string_bytes text ≡ encode_utf8 c) }
{
    let mut text = String::new(alloc);
    text.push(c)?;
    Ok(text)
}

// Digits of a date.
fn date_text(alloc: Global, digits: DatePart, taken: Taken) -> Result<String, AllocError>
    ensures { IfOk result (λ text. string_bytes text ≡ date_text digits taken) }
{
    match digits {
        DatePart::Year => {
            let year = taken.year;
            format!(in alloc; "{year:04}")
        }
        DatePart::ShortYear => two_digits(alloc, (taken.year % 100) as u8),
        DatePart::Month => two_digits(alloc, taken.month),
        DatePart::Day => two_digits(alloc, taken.day),
        DatePart::Hour => two_digits(alloc, taken.hour),
        DatePart::Minute => two_digits(alloc, taken.minute),
        DatePart::Second => two_digits(alloc, taken.second),
    }
}

// A number with two digits at least.
fn two_digits(alloc: Global, number: u8) -> Result<String, AllocError>
    ensures { IfOk result (λ text. string_bytes text ≡ padded 2 number) }
{
    format!(in alloc; "{number:02}")
}

// A text that is known, made safe; it is missing if it is empty then.
fn known_text(
    alloc: Global,
    text: Option<&str>,
    missing: Missing,
) -> Result<Result<String, Missing>, AllocError>
    ensures { IfOk result (λ answer.
        ok_as string_bytes answer ≡ known_text missing (name_if text.entry)) }
{
    let Some(text) = text else {
        return Ok(Err(missing));
    };
    let safe = safe(alloc, text)?;
    if safe.is_empty() {
        return Ok(Err(missing));
    }
    Ok(Ok(safe))
}

// A text as a file's name can have it.
fn safe(alloc: Global, text: &str) -> Result<String, AllocError>
    ensures { IfOk result (λ safe_text. string_bytes safe_text ≡ safe text.now) }
{
    let all = chars_of(alloc, text.trim())?;
    let mut name = String::new(alloc);
    for c in &all {
        name.push(safe_char(*c))?;
    }
    undotted(alloc, name)
}

// A text that is no name of a folder by itself.
fn undotted(alloc: Global, name: String) -> Result<String, AllocError>
    ensures { IfOk result (λ text. string_bytes text ≡ undotted (string_bytes name)) }
{
    match name.as_str() {
        "." => String::from_str(alloc, "_"),
        ".." => String::from_str(alloc, "__"),
        _ => Ok(name),
    }
}

// The character of a file's name that replaces one that it can't have.
fn safe_char(c: char) -> char
    ensures { result ≡ safe_char c }
{
    match c {
        '\0'..='\x1f' | '\x7f' => '_',
        '/' | '\\' | ':' | '*' | '?' | '"' | '<' | '>' | '|' => '_',
        _ => c,
    }
}
