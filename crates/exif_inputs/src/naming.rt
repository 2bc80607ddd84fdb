//! The new name of a picture, by what its fields say.

ghost use Rattle.std.specs.Prelude.{◌≡◌, [], IfOk, None, option_and_then, option_map, string_bytes};
ghost use Rattle.exif_files.specs.Names.{name_if};
ghost use Rattle.exif_rename.specs.Naming.{known_of};
ghost use Rattle.exif_rename.specs.Views.{ok_as};
ghost use Rattle.exif_summary.specs.Choices.{fields_in};
ghost use Rattle.exif_summary.specs.Finding.{text_found};
ghost use Rattle.exif_inputs.specs.Naming.{if_utf8, known_in, moment_by, moment_in, name_by, nanosecond_in, new_name_of, settled, taken_of};

use exif_datetime::DateTime;
use exif_decisions::{is_own_name, name_of};
use exif_rename::{DateTag, Dates, Facts, Missing, Moment, Pattern, Taken};
use exif_summary::{self as summary, CHANGED, DIGITIZED, TAKEN, find_date, find_text};
use exif_text::subsec::read_subsec;
use exif_types::{Exif, Tag};
use std::alloc::{AllocError, Global};

/// The new name of a picture.
#[derive(Drop)]
pub struct NewName {
    /// The name: a path relative to a folder, without its extension.
    pub name: String,
    /// When the picture was taken, if that is known.
    pub moment: Option<Moment>,
}

// A date without its offset from UTC.
fn taken_of(date: DateTime) -> Taken
    ensures { result ≡ taken_of date }
{
    Taken {
        year: date.year,
        month: date.month,
        day: date.day,
        hour: date.hour,
        minute: date.minute,
        second: date.second,
    }
}

// The nanoseconds of the text of a fraction of a second; 0 where none can be read.
fn nanosecond_in(text: Option<&[u8]>) -> u32
    ensures { result ≡ nanosecond_in (option_map (λ t. t.now) text.entry) }
{
    match text {
        Some(text) => match read_subsec(text) {
            Ok(Some(number)) => number,
            Ok(None) | Err(_) => 0,
        },
        None => 0,
    }
}

// A date of a picture, by the tags of a moment.
fn moment_by(exif: &Exif, which: summary::Moment) -> Option<Moment>
    ensures { result ≡ moment_by exif.now.fields which }
{
    let date = find_date(exif, which)?;
    Some(Moment {
        taken: taken_of(date),
        nanosecond: nanosecond_in(find_text(exif, which.fraction)),
    })
}

// When a picture was taken, by the date that is chosen, or else the first that is known.
fn moment_in(exif: &Exif, choice: Option<DateTag>) -> Option<Moment>
    ensures { result ≡ moment_in exif.now.fields choice }
{
    let dates = Dates {
        original: moment_by(exif, TAKEN),
        digitized: moment_by(exif, DIGITIZED),
        changed: moment_by(exif, CHANGED),
    };
    dates.chosen(choice)
}

// Bytes that are a text.
fn if_utf8(bytes: &[u8]) -> Option<&str>
    ensures { name_if result ≡ if_utf8 bytes.now }
{
    match std::str::from_utf8(bytes) {
        Ok(text) => Some(text),
        Err(_) => None,
    }
}

// The text of a tag, if it is one.
fn text_in(exif: &Exif, tag: Tag) -> Option<&str>
    ensures { name_if result ≡ option_and_then if_utf8 (text_found exif.now.fields tag.0 tag.1) }
{
    if_utf8(find_text(exif, tag)?)
}

// What is known of a picture with Exif data.
fn facts_in<'a>(exif: &'a Exif, moment: Option<Moment>, stem: &'a str) -> Facts<'a>
    ensures { known_of result ≡ known_in exif.now.fields moment stem.now }
{
    Facts {
        taken: moment.map(|moment| moment.taken),
        make: text_in(exif, Tag::Make),
        model: text_in(exif, Tag::Model),
        name: stem,
    }
}

// A name and its date, unless it is one that the program gives files of its own.
fn settled(moment: Option<Moment>, name: Result<String, Missing>) -> Result<NewName, Missing>
    ensures { ok_as new_name_of result ≡ settled moment (ok_as string_bytes name) }
{
    match name {
        Ok(name) if is_own_name(name_of(name.as_str())) => Err(Missing::Name),
        Ok(name) => Ok(NewName { name, moment }),
        Err(missing) => Err(missing),
    }
}

/// The new name of a picture by a pattern and its date, or what it lacks: `stem` is its old name
/// without its ending. The program's own names are not given. It takes the memory of the name.
pub fn name_by(
    alloc: Global,
    pattern: &Pattern,
    choice: Option<DateTag>,
    exif: Option<&Exif>,
    stem: &str,
) -> Result<Result<NewName, Missing>, AllocError>
    ensures { IfOk result (λ answer. ok_as new_name_of answer
        ≡ name_by pattern.now.parts.items choice (fields_in exif.entry) stem.now) }
{
    let (moment, facts) = match exif {
        Some(exif) => {
            let moment = moment_in(exif, choice);
            (moment, facts_in(exif, moment, stem))
        }
        None => (None, no_facts(stem)),
    };
    Ok(settled(moment, pattern.name(alloc, &facts)?))
}

// What is known of a picture without Exif data.
fn no_facts(stem: &str) -> Facts<'_>
    ensures { known_of result ≡ known_in [] None stem.now }
{
    Facts {
        taken: None,
        make: None,
        model: None,
        name: stem,
    }
}
