//! The subcommands for many pictures: table, rename, geotag, touch, thumbnail and catalog.

ghost use Rattle.std.specs.Prelude.{◌≡◌, IfOk, not};
ghost use Rattle.exif_decisions.specs.Asking.{undo_mistake};
ghost use Rattle.exif_arguments.specs.Jobs.{beside_undo, catalog_asked, date_in, gap_in, geotag_asked, is_empty, offset_in, rename_asked, table_asked, thumbnail_asked, touch_asked, undo_asked};
ghost use Rattle.exif_arguments.specs.Given.{texts};
ghost use Rattle.exif_arguments.specs.Views.{answer_by, answer_seen};

use crate::given::{has_text, is_set, text_of, text_or_empty};
use crate::selection::{
    Answer, keeping_of, reading_of, request, take_last, takes_many, words_of, wrong,
};
use crate::tags::tags_in;
use clap::ArgMatches;
use exif_decisions::{Aim, Escaped, Mistake, thumbnail_aim, undo_mistake};
use exif_geotag::{gap_by, is_offset};
use exif_rename::{DateTag, Pattern};
use exif_session::{
    Cataloguing, Geotagging, Renaming, Request, Table, Task, cells_by, date_tag_by, separator_by,
};
use std::alloc::{AllocError, Global};

pub fn table_of<'a>(alloc: Global, matches: &ArgMatches<'a>) -> Answer<Request<'a>>
    ensures { IfOk result (λ answer. answer_seen answer ≡ table_asked matches.now) }
{
    let tags = match tags_in(alloc, text_or_empty(matches, "tags"))? {
        Ok(tags) => tags,
        Err(wrong) => return Ok(Err(wrong)),
    };
    let table = Table {
        reading: reading_of(matches, false),
        tags,
        form: cells_by(is_set(matches, "raw")),
        separator: separator_by(is_set(matches, "tsv")),
        header: is_set(matches, "header"),
    };
    let files = words_of(alloc, matches)?;
    request(alloc, Task::Table(table), matches, files)
}

pub fn thumbnail_of<'a>(alloc: Global, matches: &ArgMatches<'a>) -> Answer<Request<'a>>
    ensures { IfOk result (λ answer. answer_seen answer ≡ thumbnail_asked matches.now) }
{
    let force = is_set(matches, "force");
    let mut files = words_of(alloc, matches)?;
    match thumbnail_aim(has_text(matches, "into"), takes_many(matches), files.len()) {
        Ok(Aim::Each) => {
            let task = Task::Thumbnails(text_or_empty(matches, "into"), force);
            request(alloc, task, matches, files)
        }
        Ok(Aim::Out) => {
            let task = Task::Thumbnail(take_last(&mut files), force);
            request(alloc, task, matches, files)
        }
        Err(mistake) => Ok(Err(wrong(alloc, mistake)?)),
    }
}

pub fn rename_of<'a>(alloc: Global, matches: &ArgMatches<'a>) -> Answer<Request<'a>>
    ensures { IfOk result (λ answer. answer_seen answer ≡ rename_asked matches.now) }
{
    if let Some(file) = text_of(matches, "undo") {
        return undo_of(alloc, matches, file);
    }
    let Some(text) = text_of(matches, "pattern") else {
        return Ok(Err(wrong(alloc, Mistake::NoPattern)?));
    };
    let date = match date_tag_of(alloc, matches)? {
        Ok(date) => date,
        Err(wrong) => return Ok(Err(wrong)),
    };
    let pattern = match Pattern::parse(alloc, text)? {
        Ok(pattern) => pattern,
        Err(error) => {
            let text = Escaped(text);
            return Ok(Err(format!(in alloc; "invalid pattern '{text}': {error}")?));
        }
    };
    let renaming = Renaming {
        pattern,
        date,
        into: text_of(matches, "into"),
        copy: is_set(matches, "copy"),
        dry_run: is_set(matches, "dry-run"),
    };
    let files = words_of(alloc, matches)?;
    request(alloc, Task::Rename(renaming), matches, files)
}

// The date that gives new names, if one is chosen.
fn date_tag_of(alloc: Global, matches: &ArgMatches<'_>) -> Answer<Option<DateTag>>
    ensures { IfOk result (λ answer. answer_by (λ tag. tag) answer ≡ date_in matches.now) }
{
    let name = text_of(matches, "date");
    match date_tag_by(name) {
        Ok(tag) => Ok(Ok(tag)),
        Err(_unknown) => {
            let text = Escaped(text_or_empty(matches, "date"));
            Ok(Err(format!(in alloc;
                "unknown date '{text}'; expected DateTimeOriginal, DateTimeDigitized (or CreateDate) or DateTime (or ModifyDate)"
            )?))
        }
    }
}

// Whether there are words.
fn has_words(words: &[&str]) -> bool
    ensures { result ≡ not (is_empty (texts words.now)) }
{
    match words {
        [] => false,
        _ => true,
    }
}

// What is wrong where a run is taken back, and more is asked for.
fn mistake_beside_undo(
    alloc: Global,
    matches: &ArgMatches<'_>,
) -> Result<Option<Mistake>, AllocError>
    ensures { IfOk result (λ mistake. mistake ≡ undo_mistake (beside_undo matches.now)) }
{
    let words = words_of(alloc, matches)?;
    Ok(undo_mistake(&[
        has_text(matches, "pattern"),
        has_text(matches, "into"),
        has_text(matches, "date"),
        has_words(words.as_slice()),
        is_set(matches, "copy"),
        takes_many(matches),
    ]))
}

// The run that takes back the one whose lines a file has.
fn undo_of<'a>(alloc: Global, matches: &ArgMatches<'a>, file: &'a str) -> Answer<Request<'a>>
    ensures { IfOk result (λ answer. answer_seen answer ≡ undo_asked file.entry.now matches.now) }
{
    if let Some(mistake) = mistake_beside_undo(alloc, matches)? {
        return Ok(Err(wrong(alloc, mistake)?));
    }
    let files = Vec::from_slice(alloc, &[file])?;
    let task = Task::Undo(is_set(matches, "dry-run"));
    request(alloc, task, matches, files)
}

// The offset from UTC of pictures that name none.
fn offset_of<'a>(alloc: Global, matches: &ArgMatches<'a>) -> Answer<&'a str>
    ensures { IfOk result (λ answer. answer_by (λ zone. zone.now) answer ≡ offset_in matches.now) }
{
    let zone = text_or_empty(matches, "offset");
    if !is_offset(zone.as_bytes()) {
        let zone = Escaped(zone);
        return Ok(Err(format!(in alloc; "invalid offset '{zone}'; expected e.g. +02:00")?));
    }
    Ok(Ok(zone))
}

pub fn touch_of<'a>(alloc: Global, matches: &ArgMatches<'a>) -> Answer<Request<'a>>
    ensures { IfOk result (λ answer. answer_seen answer ≡ touch_asked matches.now) }
{
    let zone = match offset_of(alloc, matches)? {
        Ok(zone) => zone,
        Err(wrong) => return Ok(Err(wrong)),
    };
    let files = words_of(alloc, matches)?;
    request(alloc, Task::Touch(zone), matches, files)
}

// How far two points of a track may be apart, in milliseconds.
fn gap_of(alloc: Global, matches: &ArgMatches<'_>) -> Answer<u64>
    ensures { IfOk result (λ answer. answer_by (λ gap. gap) answer ≡ gap_in matches.now) }
{
    match gap_by(text_of(matches, "max-gap")) {
        Some(gap) => Ok(Ok(gap)),
        None => {
            let text = Escaped(text_or_empty(matches, "max-gap"));
            Ok(Err(format!(in alloc;
                "invalid gap '{text}'; expected seconds from 0 to 864000, e.g. 300"
            )?))
        }
    }
}

pub fn geotag_of<'a>(alloc: Global, matches: &ArgMatches<'a>) -> Answer<Request<'a>>
    ensures { IfOk result (λ answer. answer_seen answer ≡ geotag_asked matches.now) }
{
    let zone = match offset_of(alloc, matches)? {
        Ok(zone) => zone,
        Err(wrong) => return Ok(Err(wrong)),
    };
    let max_gap = match gap_of(alloc, matches)? {
        Ok(max_gap) => max_gap,
        Err(wrong) => return Ok(Err(wrong)),
    };
    let geotagging = Geotagging {
        track: text_or_empty(matches, "track"),
        zone,
        max_gap,
        overwrite: is_set(matches, "overwrite"),
        keeping: keeping_of(matches),
    };
    let files = words_of(alloc, matches)?;
    request(alloc, Task::Geotag(geotagging), matches, files)
}

pub fn catalog_of<'a>(alloc: Global, matches: &ArgMatches<'a>) -> Answer<Request<'a>>
    ensures { IfOk result (λ answer. answer_seen answer ≡ catalog_asked matches.now) }
{
    let cataloguing = Cataloguing {
        database: text_or_empty(matches, "database"),
        reading: reading_of(matches, false),
        hash: is_set(matches, "hash"),
    };
    let files = words_of(alloc, matches)?;
    request(alloc, Task::Catalog(cataloguing), matches, files)
}
