//! The subcommands of the program.

ghost use Rattle.std.specs.Prelude.{◌≡◌, ◌++◌, codes, true, IfOk, IsSomeAnd, string_bytes};
ghost use Rattle.exif_arguments.specs.Subcommands.{can_be_wrong, shown_name_of};

use crate::changes::places_only;
use crate::options;
use clap::{Arg, Command};
use exif_session::ScrubOption;
use std::alloc::{AllocError, Global};

/// The program's arguments, for its help and for reading them. It fails only without memory.
pub fn command<'a>(alloc: Global) -> Result<Command<'a>, AllocError> {
    Command::new(alloc, "mexaldor")
        .version("0.1.0")
        .about(
            "Show, remove and edit the Exif metadata of pictures (TIFF, JPEG, HEIF, WebP, PNG, JPEG XL; RAF, ORF, RW2 and CR3 are only read)",
        )
        .after_help(
            "Exit status: 0 on success, 1 if a file could not be processed, 2 for invalid arguments, 3 if something was skipped or left undone.",
        )
        .subcommand_required(true)
        .arg_required_else_help(true)
        .subcommand(show(alloc)?)?
        .subcommand(json(alloc)?)?
        .subcommand(table(alloc)?)?
        .subcommand(check(alloc)?)?
        .subcommand(scrub(alloc)?)?
        .subcommand(set(alloc)?)?
        .subcommand(shift(alloc)?)?
        .subcommand(copy(alloc)?)?
        .subcommand(rename(alloc)?)?
        .subcommand(geotag(alloc)?)?
        .subcommand(touch(alloc)?)?
        .subcommand(thumbnail(alloc)?)?
        .subcommand(catalog(alloc)?)?
        .subcommand(query(alloc)?)?
        .subcommand(page(alloc)?)?
        .subcommand(tags(alloc))
}

/// A subcommand by its name, for the usage that an error prints: the one of this name, if its words
/// can be wrong, and else the program. It fails only without memory.
pub fn subcommand<'a>(alloc: Global, name: &str) -> Result<Command<'a>, AllocError>
    ensures shown { can_be_wrong name.now ≡ true → IfOk result (λ it.
        IsSomeAnd (shown_name_of it) (λ text. string_bytes text
        ≡ codes "mexaldor " ++ name.now)) }
{
    match name {
        "show" => show(alloc)?.bin_name("mexaldor show"),
        "json" => json(alloc)?.bin_name("mexaldor json"),
        "table" => table(alloc)?.bin_name("mexaldor table"),
        "check" => check(alloc)?.bin_name("mexaldor check"),
        "scrub" => scrub(alloc)?.bin_name("mexaldor scrub"),
        "set" => set(alloc)?.bin_name("mexaldor set"),
        "shift" => shift(alloc)?.bin_name("mexaldor shift"),
        "copy" => copy(alloc)?.bin_name("mexaldor copy"),
        "rename" => rename(alloc)?.bin_name("mexaldor rename"),
        "geotag" => geotag(alloc)?.bin_name("mexaldor geotag"),
        "touch" => touch(alloc)?.bin_name("mexaldor touch"),
        "thumbnail" => thumbnail(alloc)?.bin_name("mexaldor thumbnail"),
        "catalog" => catalog(alloc)?.bin_name("mexaldor catalog"),
        _ => command(alloc),
    }
}

fn show<'a>(alloc: Global) -> Result<Command<'a>, AllocError> {
    let command = Command::new(alloc, "show")
        .about("Print the fields of files, one per line")
        .override_usage("mexaldor show [OPTIONS] PATH...")
        .arg(options::full(alloc))?;
    reading(alloc, command)
}

fn json<'a>(alloc: Global) -> Result<Command<'a>, AllocError> {
    let command = Command::new(alloc, "json")
        .about("Print one JSON object per file, one per line")
        .override_usage("mexaldor json [OPTIONS] PATH...")
        .arg(options::flag(
            alloc,
            "summary",
            "Print a flat object: size, camera, exposure, dates, location and texts",
        ))?
        .arg(
            options::tags(alloc)
                .help("Print only these fields, and the summary, e.g. Model,FNumber")
                .conflicts_with("summary")?,
        )?;
    reading(alloc, command)
}

fn table<'a>(alloc: Global) -> Result<Command<'a>, AllocError> {
    let command = Command::new(alloc, "table")
        .about("Print one row of a table per file: its path and the fields that are asked for")
        .override_usage("mexaldor table [OPTIONS] --tags TAG,TAG... PATH...")
        .after_help("Rows are CSV (RFC 4180). Run 'mexaldor tags' for the names of tags.")
        .arg(
            options::tags(alloc)
                .help("The columns behind the path, e.g. DateTimeOriginal,Model,FNumber")
                .required(true),
        )?
        .arg(options::flag(
            alloc,
            "header",
            "Print a first row with the names of the columns",
        ))?
        .arg(options::flag(
            alloc,
            "raw",
            "Print numbers and texts without names and units",
        ))?
        .arg(options::flag(
            alloc,
            "tsv",
            "Separate cells by tabs; in a cell \\t, \\n, \\r and \\\\ are written for these characters",
        ))?;
    reading(alloc, command)
}

fn check<'a>(alloc: Global) -> Result<Command<'a>, AllocError> {
    let command = Command::new(alloc, "check")
        .about("List what files hold beside the picture, and where they hold a location")
        .override_usage("mexaldor check [OPTIONS] PATH...")
        .after_help(
            "The exit status is 3 if a file holds a location, or may hold one other than in a \
             maker note.",
        )
        .arg(options::flag(
            alloc,
            "json",
            "Print one JSON object per file, with all parts of the file",
        ))?
        .arg(options::flag(
            alloc,
            "strict",
            "Exit with 3 also if only a maker note may hold a location",
        ))?;
    many(alloc, command)?.arg(options::paths(alloc))
}

// The options of a subcommand that reads files.
fn reading<'a>(alloc: Global, command: Command<'a>) -> Result<Command<'a>, AllocError> {
    let command = command
        .arg(options::strict(alloc))?
        .arg(options::limit(alloc))?;
    many(alloc, command)?.arg(options::paths(alloc))
}

// The options of a subcommand that takes many files.
fn many<'a>(alloc: Global, command: Command<'a>) -> Result<Command<'a>, AllocError> {
    command
        .arg(options::recursive(alloc))?
        .arg(options::null(alloc))?
        .arg(options::quiet(alloc))?
        .arg(options::date(
            alloc,
            "after",
            "Only pictures taken at DATE or later, e.g. 2024-05 or 2024-05-01T12:30",
        ))?
        .arg(options::date(alloc, "before", "Only pictures taken before DATE"))?
        .arg(options::camera(alloc))?
        .arg(options::fact(
            alloc,
            "where",
            "Only pictures whose Exif data contain FACT: date or location",
        ))?
        .arg(options::fact(
            alloc,
            "without",
            "Only pictures whose Exif data do not contain FACT",
        ))
}

// The options of a subcommand that writes a new file, or replaces files.
fn changing<'a>(alloc: Global, command: Command<'a>) -> Result<Command<'a>, AllocError> {
    many(alloc, command)?
        .arg(options::force(alloc).conflicts_with("in-place")?)?
        .arg(options::in_place(alloc))?
        .arg(options::backup(alloc).requires_arg("in-place")?)?
        .arg(options::keep_time(alloc).requires_arg("in-place")?)
}

// The options of a subcommand that replaces files.
fn replacing<'a>(alloc: Global, command: Command<'a>) -> Result<Command<'a>, AllocError> {
    many(alloc, command)?
        .arg(options::backup(alloc))?
        .arg(options::keep_time(alloc))
}

// An option of `scrub`.
fn scrub_flag<'a>(alloc: Global, option: ScrubOption, help: &'a str) -> Arg<'a> {
    let id: &'a str = option.name();
    options::flag(alloc, id, help)
}

// The other name of `--locations-only`.
fn places_flag<'a>(alloc: Global) -> Arg<'a> {
    let id: &'a str = places_only();
    options::flag(alloc, id, "The same as --locations-only")
}

// A flag that conflicts with those that choose what goes.
fn alone<'a>(flag: Arg<'a>) -> Result<Arg<'a>, AllocError> {
    flag.conflicts_with(ScrubOption::KeepOrientation.name())?
        .conflicts_with(ScrubOption::StripColor.name())
}

fn scrub<'a>(alloc: Global) -> Result<Command<'a>, AllocError> {
    let command = Command::new(alloc, "scrub")
        .about("Remove metadata from pictures")
        .override_usage(
            "mexaldor scrub [OPTIONS] FILE OUT\n       mexaldor scrub [OPTIONS] --in-place FILE...",
        )
        .after_help(
            "What stays: the colour profile, and in JPEG files the fields of the JFIF and Adobe segments; in TIFF files the tags that describe the picture. Whatever else may hold metadata, or with --locations-only a location, is reported, and the exit status is 3.",
        )
        .arg(scrub_flag(alloc, ScrubOption::KeepOrientation, "Keep the orientation"))?
        .arg(scrub_flag(
            alloc,
            ScrubOption::StripColor,
            "Also remove the colour profile",
        ))?
        .arg(alone(scrub_flag(
            alloc,
            ScrubOption::LocationsOnly,
            "Only erase locations, in place",
        ))?)?
        .arg(alone(places_flag(alloc))?)?
        .arg(scrub_flag(
            alloc,
            ScrubOption::ForceBlank,
            "With --locations-only, also overwrite XMP and IPTC that can't be read",
        ))?;
    changing(alloc, command)?.arg(options::words(
        alloc,
        "FILE",
        "The picture and the new file, or pictures with --in-place",
    ))
}

fn set<'a>(alloc: Global) -> Result<Command<'a>, AllocError> {
    let command = Command::new(alloc, "set")
        .about("Set fields to new values")
        .override_usage(
            "mexaldor set [OPTIONS] FILE OUT TAG=VALUE...\n       mexaldor set [OPTIONS] --in-place FILE... TAG=VALUE...",
        )
        .after_help(
            "An argument with '=' is an assignment. Write ./NAME for a file whose name has '='. Run 'mexaldor tags' for the names of tags.",
        );
    changing(alloc, command)?.arg(options::words(
        alloc,
        "ARGUMENT",
        "Files, and values such as Orientation=6",
    ))
}

fn shift<'a>(alloc: Global) -> Result<Command<'a>, AllocError> {
    let command = Command::new(alloc, "shift")
        .about("Move the dates of pictures, to correct the clock of a camera")
        .override_usage("mexaldor shift [OPTIONS] [+|-][DAYSd]HH:MM[:SS] FILE...")
        .arg(options::flag(
            alloc,
            "exif",
            "Only move DateTimeOriginal and DateTimeDigitized",
        ))?
        .arg(
            Arg::new(alloc, "by")
                .value_name("SHIFT")
                .required(true)
                .allow_hyphen_values(true)
                .help("By how much, e.g. +1:00 or -2d03:30"),
        )?;
    replacing(alloc, command)?.arg(options::words(alloc, "FILE", "Pictures, or with -r folders"))
}

fn copy<'a>(alloc: Global) -> Result<Command<'a>, AllocError> {
    let command = Command::new(alloc, "copy")
        .about("Put the metadata of one picture into others, in place of their own")
        .override_usage("mexaldor copy [OPTIONS] FROM FILE...")
        .after_help(
            "FROM is a picture of any format but TIFF and raw; XMP packets come from JPEG, PNG, WebP and JPEG XL, colour profiles from JPEG, PNG and WebP. FILE is a JPEG, WebP, PNG or JPEG XL picture; a profile is not put into JPEG XL.",
        )
        .arg(options::flag(
            alloc,
            "keep-target-shape",
            "Keep the orientation and the pixel sizes that the Exif data of FILE tell",
        ))?
        .arg(options::flag(alloc, "xmp", "Copy the XMP packet, too"))?
        .arg(options::flag(alloc, "icc", "Copy the colour profile, too"))?
        .arg(
            Arg::new(alloc, "from")
                .value_name("FROM")
                .required(true)
                .help("The picture that has the Exif data"),
        )?;
    replacing(alloc, command)?.arg(options::words(alloc, "FILE", "Pictures, or with -r folders"))
}

fn rename<'a>(alloc: Global) -> Result<Command<'a>, AllocError> {
    let command = Command::new(alloc, "rename")
        .about("Rename or move pictures by date and camera")
        .override_usage(
            "mexaldor rename [OPTIONS] PATTERN PATH...\n       mexaldor rename [--dry-run] --undo FILE",
        )
        .after_help(
            "PATTERN has %Y %m %d %H %M %S (when the picture was taken), %y, %%, {Make}, {Model} and {Name}; a / makes folders. Each file keeps its extension, and its sidecars go along. Where names are equal, _1, _2 and so on are added. No file is ever overwritten. What is printed, --undo takes back.",
        )
        .arg(options::into(
            alloc,
            "Put the new names below FOLDER instead of the folder of each file",
        ))?
        .arg(options::flag(alloc, "copy", "Copy the files instead of renaming them"))?
        .arg(options::date_tag(alloc))?
        .arg(options::undo(alloc))?
        .arg(options::flag(
            alloc,
            "dry-run",
            "Print the old and the new names, and change nothing",
        ))?
        .arg(
            Arg::new(alloc, "pattern")
                .value_name("PATTERN")
                .help("The new name, e.g. %Y/%m/%Y%m%d_%H%M%S"),
        )?;
    many(alloc, command)?.arg(options::words(alloc, "PATH", "Pictures, or with -r folders"))
}

fn geotag<'a>(alloc: Global) -> Result<Command<'a>, AllocError> {
    let command = Command::new(alloc, "geotag")
        .about("Set the locations of pictures from the track of a GPS receiver")
        .override_usage("mexaldor geotag [OPTIONS] TRACK.gpx FILE...")
        .after_help(
            "The location at the time when a picture was taken is found between two points of the track that are at most five minutes apart, or --max-gap. GPSDateStamp and GPSTimeStamp become the time in UTC. A picture without a date, of another time, or with a location already, is left and reported, and the exit status is 3.",
        )
        .arg(options::offset(alloc))?
        .arg(options::max_gap(alloc))?
        .arg(options::flag(
            alloc,
            "overwrite",
            "Replace locations that pictures have already",
        ))?
        .arg(
            Arg::new(alloc, "track")
                .value_name("TRACK")
                .required(true)
                .help("The track, a GPX file"),
        )?;
    replacing(alloc, command)?.arg(options::words(alloc, "FILE", "Pictures, or with -r folders"))
}

fn touch<'a>(alloc: Global) -> Result<Command<'a>, AllocError> {
    let command = Command::new(alloc, "touch")
        .about("Set the times of files to when their pictures were taken")
        .override_usage("mexaldor touch [OPTIONS] PATH...")
        .after_help(
            "The modification time is set. A picture without a date is left and reported, and the exit status is 3.",
        )
        .arg(options::offset(alloc))?;
    many(alloc, command)?.arg(options::words(alloc, "PATH", "Pictures, or with -r folders"))
}

fn thumbnail<'a>(alloc: Global) -> Result<Command<'a>, AllocError> {
    let command = Command::new(alloc, "thumbnail")
        .about("Write the thumbnails of pictures to files")
        .override_usage(
            "mexaldor thumbnail [OPTIONS] FILE OUT\n       mexaldor thumbnail [OPTIONS] --into FOLDER PATH...",
        )
        .arg(options::into(alloc, "Write each thumbnail to FOLDER, as NAME.jpg"))?
        .arg(options::force(alloc))?;
    many(alloc, command)?.arg(options::words(
        alloc,
        "PATH",
        "The picture and the new file, - for standard input and output; or pictures with --into",
    ))
}

fn catalog<'a>(alloc: Global) -> Result<Command<'a>, AllocError> {
    let command = Command::new(alloc, "catalog")
        .about("Keep a row for each picture in a SQLite file")
        .override_usage("mexaldor catalog [OPTIONS] DB PATH...")
        .after_help(
            "Only new and changed files are read. Rows of files that are gone are marked. Any SQLite client reads DB.",
        )
        .arg(options::flag(alloc, "hash", "Also keep the SHA-256 of each file"))?
        .arg(options::database(alloc))?
        .arg(options::strict(alloc))?
        .arg(options::limit(alloc))?;
    many(alloc, command)?.arg(options::words(alloc, "PATH", "Pictures, or with -r folders"))
}

fn query<'a>(alloc: Global) -> Result<Command<'a>, AllocError> {
    Command::new(alloc, "query")
        .about("Print the answer of a catalogue to a query, as tab-separated values")
        .override_usage("mexaldor query DB SQL")
        .arg(options::database(alloc))?
        .arg(
            Arg::new(alloc, "sql")
                .value_name("SQL")
                .required(true)
                .help("The query, e.g. 'SELECT path, model FROM picture'"),
        )
}

fn page<'a>(alloc: Global) -> Result<Command<'a>, AllocError> {
    Command::new(alloc, "page")
        .about("Write one HTML page with the pictures of a catalogue, by day")
        .override_usage("mexaldor page [OPTIONS] DB OUT")
        .after_help("The page has thumbnails and filters in it, and loads nothing from elsewhere.")
        .arg(options::force(alloc))?
        .arg(options::database(alloc))?
        .arg(
            Arg::new(alloc, "out")
                .value_name("OUT")
                .required(true)
                .help("The new file, - for standard output"),
        )
}

fn tags<'a>(alloc: Global) -> Command<'a> {
    Command::new(alloc, "tags")
        .about("List the names of tags, the types of their values, and what they mean")
        .override_usage("mexaldor tags")
}
