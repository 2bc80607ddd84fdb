//! The options of the subcommands.

use clap::builder::ValueParser;
use clap::{Arg, ArgAction};
use std::alloc::Global;

/// An option without a value.
pub fn flag<'a>(alloc: Global, id: &'a str, help: &'a str) -> Arg<'a> {
    Arg::new(alloc, id)
        .long(id)
        .action(ArgAction::SetTrue)
        .help(help)
}

pub fn strict<'a>(alloc: Global) -> Arg<'a> {
    flag(
        alloc,
        "strict",
        "Refuse a file at its first fault instead of skipping faults",
    )
}

pub fn limit<'a>(alloc: Global) -> Arg<'a> {
    Arg::new(alloc, "limit")
        .long("limit")
        .value_name("N")
        .value_parser(ValueParser::Unsigned(0, u64::MAX))
        .help("Read at most N directory entries of each file [default: 1000000]")
}

pub fn recursive<'a>(alloc: Global) -> Arg<'a> {
    flag(
        alloc,
        "recursive",
        "Process the pictures in folders and their subfolders",
    )
    .short('r')
}

pub fn null<'a>(alloc: Global) -> Arg<'a> {
    flag(
        alloc,
        "null",
        "Also read file names from standard input, separated by zero bytes",
    )
    .short('0')
}

/// A date that the date taken is compared with.
pub fn date<'a>(alloc: Global, id: &'a str, help: &'a str) -> Arg<'a> {
    Arg::new(alloc, id).long(id).value_name("DATE").help(help)
}

pub fn camera<'a>(alloc: Global) -> Arg<'a> {
    Arg::new(alloc, "camera")
        .long("camera")
        .value_name("TEXT")
        .help("Only pictures whose make or model contains TEXT, in any case")
}

/// A fact that pictures tell or do not tell.
pub fn fact<'a>(alloc: Global, id: &'a str, help: &'a str) -> Arg<'a> {
    Arg::new(alloc, id)
        .long(id)
        .value_name("FACT")
        .action(ArgAction::Append)
        .help(help)
}

pub fn quiet<'a>(alloc: Global) -> Arg<'a> {
    flag(alloc, "quiet", "Do not show progress, notes or a summary").short('q')
}

pub fn in_place<'a>(alloc: Global) -> Arg<'a> {
    flag(
        alloc,
        "in-place",
        "Replace each FILE instead of writing OUT",
    )
    .short('i')
}

pub fn backup<'a>(alloc: Global) -> Arg<'a> {
    flag(
        alloc,
        "backup",
        "Keep each old file as NAME.orig, which must not exist",
    )
}

pub fn keep_time<'a>(alloc: Global) -> Arg<'a> {
    flag(
        alloc,
        "keep-time",
        "Keep the access and modification times of each file",
    )
}

pub fn force<'a>(alloc: Global) -> Arg<'a> {
    flag(alloc, "force", "Replace OUT if it exists").short('f')
}

pub fn full<'a>(alloc: Global) -> Arg<'a> {
    flag(
        alloc,
        "full",
        "Print values of more than 200 characters in full",
    )
}

/// The offset of a camera's clock from UTC.
pub fn offset<'a>(alloc: Global) -> Arg<'a> {
    Arg::new(alloc, "offset")
        .long("offset")
        .value_name("+HH:MM")
        .allow_hyphen_values(true)
        .help(
            "The offset of the camera's clock from UTC, for pictures that name none [default: +00:00]",
        )
}

/// How far two points of a track may be apart.
pub fn max_gap<'a>(alloc: Global) -> Arg<'a> {
    Arg::new(alloc, "max-gap")
        .long("max-gap")
        .value_name("SECONDS")
        .help("Locate pictures between points of the track at most SECONDS apart [default: 300]")
}

/// A folder that files are written to.
pub fn into<'a>(alloc: Global, help: &'a str) -> Arg<'a> {
    Arg::new(alloc, "into")
        .long("into")
        .value_name("FOLDER")
        .help(help)
}

/// The date that gives new names.
pub fn date_tag<'a>(alloc: Global) -> Arg<'a> {
    Arg::new(alloc, "date").long("date").value_name("TAG").help(
        "Take the date from TAG alone: DateTimeOriginal, DateTimeDigitized (or CreateDate), DateTime (or ModifyDate) [default: the first of these that is there]",
    )
}

/// The lines of a run that is taken back.
pub fn undo<'a>(alloc: Global) -> Arg<'a> {
    Arg::new(alloc, "undo").long("undo").value_name("FILE").help(
        "Give files their old names back: FILE has what a run printed, - is standard input",
    )
}

/// The tags that are asked for.
pub fn tags<'a>(alloc: Global) -> Arg<'a> {
    Arg::new(alloc, "tags")
        .long("tags")
        .value_name("TAG,TAG...")
}

/// The file of a catalogue.
pub fn database<'a>(alloc: Global) -> Arg<'a> {
    Arg::new(alloc, "database")
        .value_name("DB")
        .required(true)
        .help("The catalogue, a SQLite file")
}

/// The words after the options.
pub fn words<'a>(alloc: Global, name: &'a str, help: &'a str) -> Arg<'a> {
    Arg::new(alloc, "word")
        .value_name(name)
        .num_args(0..)
        .help(help)
}

/// The files that a subcommand reads.
pub fn paths<'a>(alloc: Global) -> Arg<'a> {
    words(
        alloc,
        "PATH",
        "Files, or with -r folders; - is standard input",
    )
}
