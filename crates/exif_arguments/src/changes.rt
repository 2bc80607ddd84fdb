//! The subcommands that change files: scrub, set, shift and copy.

ghost use Rattle.std.specs.Prelude.{◌≡◌, ◌||◌, IfOk, codes, map, string_bytes};
ghost use Rattle.exif_assign.specs.Assigning.{around, parts_of};
ghost use Rattle.exif_session.specs.Scrubs.{option_name};
ghost use Rattle.exif_arguments.specs.Changes.{changing, copy_asked, files_among, scrub_asked, scrub_options, set_asked, shape_by, shift_asked, values_in, values_of};
ghost use Rattle.exif_arguments.specs.Given.{flag_in, texts};
ghost use Rattle.exif_arguments.specs.Unknown.{front_of, unassigned, unknown_assignment};
ghost use Rattle.exif_arguments.specs.Views.{answer_by, answer_seen, change_seen};

use crate::given::{is_set, text_or_empty};
use crate::selection::{Answer, keeping_of, request, take_last, takes_many, words_of, wrong};
use crate::tags::unknown_tag;
use clap::ArgMatches;
use exif_copy::{Selection, Shape};
use exif_decisions::{Aim, Escaped, Mistake, change_aim, is_assignment};
use exif_session::{Change, Copying, Request, ScrubOption, ScrubOptions, Target, Task, dates_by};
use exif_setting::{Assignment, ClockShift};
use std::alloc::{AllocError, Global};

/// Another name of `--locations-only`.
pub fn places_only() -> &'static str
    ensures { result.now ≡ codes "places-only" }
{
    "places-only"
}

// Whether an option of `scrub` is given by its own name.
fn is_chosen(matches: &ArgMatches<'_>, option: ScrubOption) -> bool
    ensures { result ≡ flag_in matches.now (option_name option) }
{
    is_set(matches, option.name())
}

// Whether only locations are erased, by either name of the option.
fn is_only_locations(matches: &ArgMatches<'_>) -> bool
    ensures { result ≡ (flag_in matches.now (codes "locations-only")
        || flag_in matches.now (codes "places-only")) }
{
    is_chosen(matches, ScrubOption::LocationsOnly) || is_set(matches, places_only())
}

// Which options of `scrub` are given.
fn scrub_options(matches: &ArgMatches<'_>) -> ScrubOptions
    ensures { result ≡ scrub_options matches.now }
{
    ScrubOptions {
        keep_orientation: is_chosen(matches, ScrubOption::KeepOrientation),
        strip_color: is_chosen(matches, ScrubOption::StripColor),
        locations_only: is_only_locations(matches),
        force_blank: is_chosen(matches, ScrubOption::ForceBlank),
    }
}

pub fn scrub_of<'a>(alloc: Global, matches: &ArgMatches<'a>) -> Answer<Request<'a>>
    ensures { IfOk result (λ answer. answer_seen answer ≡ scrub_asked matches.now) }
{
    match scrub_options(matches).change() {
        Some(change) => changing(alloc, change, matches, words_of(alloc, matches)?),
        None => Ok(Err(wrong(alloc, Mistake::BlankAlone)?)),
    }
}

// What a word assigns, or what is wrong with it: nothing if it names a file.
fn values_of<'a>(alloc: Global, word: &'a str) -> Answer<Vec<Assignment<'a>>>
    ensures { IfOk result (λ answer. answer_by (λ values. map parts_of values.items) answer
        ≡ values_of word.entry.now) }
{
    if !is_assignment(word) {
        return Ok(Ok(Vec::new(alloc)));
    }
    match Assignment::parse_all(alloc, word)? {
        Some(values) => Ok(Ok(values)),
        None => Ok(Err(unknown_assignment(alloc, word)?)),
    }
}

// What words assign, or what is wrong with the first whose tag is not known.
fn values_in<'a>(alloc: Global, words: &[&'a str]) -> Answer<Vec<Assignment<'a>>>
    ensures { IfOk result (λ answer. answer_by (λ values. map parts_of values.items) answer
        ≡ values_in (texts words.entry.now)) }
{
    let mut values = Vec::new(alloc);
    for word in words {
        match values_of(alloc, *word)? {
            Ok(more) => values.extend_from_slice(more.as_slice())?,
            Err(wrong) => return Ok(Err(wrong)),
        }
    }
    Ok(Ok(values))
}

// The words that name files.
fn files_among<'a>(alloc: Global, words: &[&'a str]) -> Result<Vec<&'a str>, AllocError>
    ensures { IfOk result (λ files. texts files.items ≡ files_among (texts words.entry.now)) }
{
    let mut files = Vec::new(alloc);
    for word in words {
        if !is_assignment(*word) {
            files.push(*word)?;
        }
    }
    Ok(files)
}

pub fn set_of<'a>(alloc: Global, matches: &ArgMatches<'a>) -> Answer<Request<'a>>
    ensures { IfOk result (λ answer. answer_seen answer ≡ set_asked matches.now) }
{
    let words = words_of(alloc, matches)?;
    let values = match values_in(alloc, words.as_slice())? {
        Ok(values) => values,
        Err(wrong) => return Ok(Err(wrong)),
    };
    if values.is_empty() {
        return Ok(Err(wrong(alloc, Mistake::NoAssignment)?));
    }
    let files = files_among(alloc, words.as_slice())?;
    changing(alloc, Change::Set(values), matches, files)
}

// The name in a word: what is before its first `=`, or all of it.
fn front_of(word: &str) -> &str
    ensures { result.now ≡ front_of word.now (around 61 word.now) }
{
    match word.split_once('=') {
        Some((name, _)) => name,
        None => word,
    }
}

// The message about a name that is no tag.
fn unassigned(alloc: Global, name: &str) -> Result<String, AllocError>
    ensures { IfOk result (λ text. string_bytes text ≡ unassigned name.now) }
{
    let message = unknown_tag(alloc, name)?;
    let shown = Escaped(name);
    format!(in alloc; "{message} (for a file, write ./{shown}=...)")
}

// The message about a word whose tag is not known.
fn unknown_assignment(alloc: Global, word: &str) -> Result<String, AllocError>
    ensures { IfOk result (λ text. string_bytes text ≡ unknown_assignment word.now) }
{
    unassigned(alloc, front_of(word))
}

pub fn shift_of<'a>(alloc: Global, matches: &ArgMatches<'a>) -> Answer<Request<'a>>
    ensures { IfOk result (λ answer. answer_seen answer ≡ shift_asked matches.now) }
{
    let text = text_or_empty(matches, "by");
    match ClockShift::parse(text) {
        Some(by) => {
            let change = Change::Shift(by, dates_by(is_set(matches, "exif")));
            let task = Task::Change(change, Target::InPlace(keeping_of(matches)));
            let files = words_of(alloc, matches)?;
            request(alloc, task, matches, files)
        }
        None => {
            let text = Escaped(text);
            Ok(Err(format!(in alloc; "invalid shift '{text}'; expected e.g. +1:00 or -2d03:30")?))
        }
    }
}

// Which picture the copied data describe.
fn shape_by(keeps_target: bool) -> Shape
    ensures { result ≡ shape_by keeps_target }
{
    if keeps_target {
        Shape::Target
    } else {
        Shape::Source
    }
}

pub fn copy_of<'a>(alloc: Global, matches: &ArgMatches<'a>) -> Answer<Request<'a>>
    ensures { IfOk result (λ answer. answer_seen answer ≡ copy_asked matches.now) }
{
    let copying = Copying {
        from: text_or_empty(matches, "from"),
        selection: Selection {
            shape: shape_by(is_set(matches, "keep-target-shape")),
            xmp: is_set(matches, "xmp"),
            color_profile: is_set(matches, "icc"),
        },
        keeping: keeping_of(matches),
    };
    let files = words_of(alloc, matches)?;
    request(alloc, Task::Copy(copying), matches, files)
}

// The request for a change of a file into another one, or of files in place.
fn changing<'a>(
    alloc: Global,
    change: Change<'a>,
    matches: &ArgMatches<'a>,
    mut files: Vec<&'a str>,
) -> Answer<Request<'a>>
    ensures { IfOk result (λ answer. answer_seen answer
        ≡ changing (change_seen change.entry) (texts files.entry.items) matches.now) }
{
    let in_place = is_set(matches, "in-place");
    match change_aim(in_place, takes_many(matches), files.len()) {
        Ok(Aim::Each) => {
            let target = Target::InPlace(keeping_of(matches));
            request(alloc, Task::Change(change, target), matches, files)
        }
        Ok(Aim::Out) => {
            let target = Target::Out(take_last(&mut files), is_set(matches, "force"));
            request(alloc, Task::Change(change, target), matches, files)
        }
        Err(mistake) => Ok(Err(wrong(alloc, mistake)?)),
    }
}
