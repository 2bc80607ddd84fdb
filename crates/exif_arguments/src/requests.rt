//! The requests of subcommands, by their names.

ghost use Rattle.std.specs.Prelude.{◌≡◌, IfOk};
ghost use Rattle.exif_arguments.specs.Asked.{request_of};
ghost use Rattle.exif_arguments.specs.Jobs.{check_asked, json_asked, show_asked};
ghost use Rattle.exif_arguments.specs.Views.{answer_seen};

use crate::changes::{copy_of, scrub_of, set_of, shift_of};
use crate::given::{is_set, text_of};
use crate::jobs::{catalog_of, geotag_of, rename_of, table_of, thumbnail_of, touch_of};
use crate::selection::{Answer, reading_of, request, words_of};
use crate::tags::tags_in;
use clap::ArgMatches;
use exif_session::{Request, Task, form_by};
use std::alloc::Global;

/// The request of a subcommand of this name by what was found of its options, or what is wrong with
/// its words. One of any other name shows files. It fails only without memory.
pub fn request_of<'a>(alloc: Global, name: &str, matches: &ArgMatches<'a>) -> Answer<Request<'a>>
    ensures { IfOk result (λ answer. answer_seen answer ≡ request_of name.now matches.now) }
{
    match name {
        "json" => json_of(alloc, matches),
        "table" => table_of(alloc, matches),
        "check" => check_of(alloc, matches),
        "scrub" => scrub_of(alloc, matches),
        "set" => set_of(alloc, matches),
        "shift" => shift_of(alloc, matches),
        "copy" => copy_of(alloc, matches),
        "rename" => rename_of(alloc, matches),
        "geotag" => geotag_of(alloc, matches),
        "touch" => touch_of(alloc, matches),
        "thumbnail" => thumbnail_of(alloc, matches),
        "catalog" => catalog_of(alloc, matches),
        _ => show_of(alloc, matches),
    }
}

fn show_of<'a>(alloc: Global, matches: &ArgMatches<'a>) -> Answer<Request<'a>>
    ensures { IfOk result (λ answer. answer_seen answer ≡ show_asked matches.now) }
{
    let files = words_of(alloc, matches)?;
    let reading = reading_of(matches, is_set(matches, "full"));
    request(alloc, Task::Show(reading), matches, files)
}

fn json_of<'a>(alloc: Global, matches: &ArgMatches<'a>) -> Answer<Request<'a>>
    ensures { IfOk result (λ answer. answer_seen answer ≡ json_asked matches.now) }
{
    let files = words_of(alloc, matches)?;
    let reading = reading_of(matches, true);
    if is_set(matches, "summary") {
        return request(alloc, Task::Summary(reading), matches, files);
    }
    let Some(list) = text_of(matches, "tags") else {
        return request(alloc, Task::Json(reading, None), matches, files);
    };
    match tags_in(alloc, list)? {
        Ok(tags) => request(alloc, Task::Json(reading, Some(tags)), matches, files),
        Err(wrong) => Ok(Err(wrong)),
    }
}

fn check_of<'a>(alloc: Global, matches: &ArgMatches<'a>) -> Answer<Request<'a>>
    ensures { IfOk result (λ answer. answer_seen answer ≡ check_asked matches.now) }
{
    let files = words_of(alloc, matches)?;
    let strict = is_set(matches, "strict");
    request(
        alloc,
        Task::Check(form_by(is_set(matches, "json")), strict),
        matches,
        files,
    )
}
