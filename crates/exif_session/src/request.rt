//! What the arguments request.

ghost use Rattle.std.specs.Prelude.{◌≡◌};
ghost use Rattle.exif_session.specs.Tasks.{changes, takes_companions, use_for};
ghost use Rattle.exif_session.specs.Words.{partial_of, renamed_as, verb_of};

use exif::Tag;
use exif_change::{Color, Removed};
use exif_columns::{self as columns, Separator};
use exif_copy::Selection;
use exif_files::Keeping;
use exif_formats::Options;
use exif_inputs::Use;
use exif_rename::{DateTag, Pattern};
use exif_setting::{Assignment, ClockShift, Dates};
use exif_summary::Choice;

/// What the arguments request.
#[derive(Drop)]
pub struct Request<'a> {
    /// What is done with each file.
    pub task: Task<'a>,
    /// The files and folders, `-` for standard input.
    pub paths: Vec<&'a str>,
    /// Whether standard input has more names, each ended by a zero byte.
    pub names_from_input: bool,
    /// Whether the pictures in folders are processed too.
    pub recursive: bool,
    /// Whether neither progress, notes nor a summary are written.
    pub quiet: bool,
    /// Which of the pictures are processed.
    pub choice: Choice<'a>,
}

/// What is done with each file.
#[derive(Drop)]
pub enum Task<'a> {
    /// Its report is written under a line with its name.
    Show(Reading),
    /// A JSON object is written in a line, with all fields or with those of some tags.
    Json(Reading, Option<Vec<Tag>>),
    /// A row of a table is written.
    Table(Table),
    /// What its parts hold is written; whether a maker note counts as a finding.
    Check(Form, bool),
    /// It is changed.
    Change(Change<'a>, Target<'a>),
    /// Its flat JSON object is written in a line.
    Summary(Reading),
    /// Its thumbnail is written to a file of this name; whether that may exist.
    Thumbnail(&'a str, bool),
    /// Its thumbnail is written to this folder, under its own name; whether that may exist.
    Thumbnails(&'a str, bool),
    /// It gets another name.
    Rename(Renaming<'a>),
    /// It has the lines of a run of `rename`, which is taken back; whether the names are written only.
    Undo(bool),
    /// Its modification time is set to when it was taken; the offset from UTC, as `+hh:mm`, of
    /// pictures that name none.
    Touch(&'a str),
    /// Its location is set in place by a track.
    Geotag(Geotagging<'a>),
    /// It gets metadata of another picture, in place.
    Copy(Copying<'a>),
    /// It gets a row in a catalogue.
    Catalog(Cataloguing<'a>),
}

impl Task<'_> {
    /// What it does with files, in a summary.
    pub fn verb(&self) -> &'static str
        ensures { result.now ≡ verb_of self.now }
    {
        match self {
            Task::Change(..) | Task::Geotag(_) => "changed",
            Task::Rename(renaming) => renaming.verb(),
            Task::Undo(_) => "undone",
            Task::Touch(_) => "touched",
            Task::Copy(_) => "changed",
            Task::Show(_) | Task::Json(..) | Task::Summary(_) | Task::Check(..) => "read",
            Task::Thumbnail(..) | Task::Thumbnails(..) | Task::Table(_) => "read",
            Task::Catalog(_) => "read",
        }
    }

    /// Whether it changes files, makes some, or gives them other names.
    pub fn changes_files(&self) -> bool
        ensures { result ≡ changes self.now }
    {
        match self {
            Task::Rename(renaming) => !renaming.dry_run,
            Task::Undo(dry_run) => !*dry_run,
            Task::Change(_, target) => matches!(target, Target::InPlace(_)),
            Task::Geotag(_) | Task::Copy(_) | Task::Touch(_) => true,
            Task::Show(_) | Task::Json(..) | Task::Summary(_) | Task::Table(_) => false,
            Task::Check(..) | Task::Thumbnail(..) | Task::Thumbnails(..) => false,
            Task::Catalog(_) => false,
        }
    }

    /// What a summary says of the files of which something was skipped, left undone or found.
    pub fn partial(&self) -> &'static str
        ensures { result.now ≡ partial_of self.now }
    {
        match self {
            Task::Check(..) => "with findings",
            _ => "not completely",
        }
    }

    /// Whether files that are not read get new names with the pictures beside them.
    pub fn moves_companions(&self) -> bool
        ensures { result ≡ takes_companions self.now }
    {
        matches!(self, Task::Rename(_))
    }

    /// What it requires of a picture.
    pub fn use_of_files(&self) -> Use
        ensures { result ≡ use_for self.now }
    {
        match self {
            Task::Show(_) | Task::Json(..) | Task::Summary(_) | Task::Rename(_) => Use::Fields,
            Task::Thumbnail(..) | Task::Thumbnails(..) | Task::Touch(_) => Use::Fields,
            Task::Table(_) | Task::Catalog(_) | Task::Undo(_) => Use::Fields,
            Task::Check(..) | Task::Change(..) | Task::Geotag(_) | Task::Copy(_) => Use::Parts,
        }
    }
}

/// The rows of a table.
#[derive(Drop)]
pub struct Table {
    /// How files are read.
    pub reading: Reading,
    /// What the columns behind the path are.
    pub tags: Vec<Tag>,
    /// How values are written.
    pub form: columns::Form,
    /// What is between two cells.
    pub separator: Separator,
    /// Whether the first line names the columns.
    pub header: bool,
}

/// Which metadata files get.
#[derive(Drop)]
pub struct Copying<'a> {
    /// The picture that has them.
    pub from: &'a str,
    /// What of it is copied.
    pub selection: Selection,
    /// What is kept of the old files.
    pub keeping: Keeping,
}

/// How a catalogue is brought up to date.
#[derive(Drop)]
pub struct Cataloguing<'a> {
    /// The file of the catalogue.
    pub database: &'a str,
    /// How files are read.
    pub reading: Reading,
    /// Whether rows get the hash of the file's bytes.
    pub hash: bool,
}

/// The page of a catalogue.
#[derive(Clone, Copy)]
pub struct Paging<'a> {
    /// The file of the catalogue.
    pub database: &'a str,
    /// Where the page is written, `-` for standard output.
    pub to: &'a str,
    /// Whether that may exist.
    pub force: bool,
}

/// How locations are set by a track.
#[derive(Drop)]
pub struct Geotagging<'a> {
    /// The file of the track, as GPX.
    pub track: &'a str,
    /// The offset of the camera's clock from UTC, as `+hh:mm`, for pictures that name none.
    pub zone: &'a str,
    /// How far two points of the track may be apart between which a picture is located, in
    /// milliseconds.
    pub max_gap: u64,
    /// Whether a location that a picture has already is replaced.
    pub overwrite: bool,
    /// What is kept of the old files.
    pub keeping: Keeping,
}

/// How files get other names.
#[derive(Drop)]
pub struct Renaming<'a> {
    /// What the names are made of.
    pub pattern: Pattern,
    /// The date that gives the names; the first that is known if none is chosen.
    pub date: Option<DateTag>,
    /// The folder that they are in; that of each file if there is none.
    pub into: Option<&'a str>,
    /// Whether the old files stay.
    pub copy: bool,
    /// Whether the new names are written only.
    pub dry_run: bool,
}

impl Renaming<'_> {
    /// What is done with the files, in a summary.
    pub fn verb(&self) -> &'static str
        ensures { result.now ≡ renamed_as self.now.dry_run self.now.copy }
    {
        if self.dry_run {
            "planned"
        } else if self.copy {
            "copied"
        } else {
            "renamed"
        }
    }
}

/// How a file is read.
#[derive(Clone, Copy)]
pub struct Reading {
    /// Whether it is refused at its first fault.
    pub strict: bool,
    /// How many entries are read at most.
    pub limit: u64,
    /// Whether long values are shown whole.
    pub full: bool,
}

impl Reading {
    /// How a picture is read so.
    pub fn options(self) -> Options {
        Options {
            lenient: !self.strict,
            limit: Some(self.limit),
        }
    }
}

/// How an answer is written.
#[derive(Clone, Copy)]
pub enum Form {
    /// As lines for people.
    Lines,
    /// As a JSON object, in a line.
    Json,
}

/// How a file is changed.
#[derive(Drop)]
pub enum Change<'a> {
    /// Metadata are removed, and maybe the colour profile.
    Scrub(Removed, Color),
    /// Values are set.
    Set(Vec<Assignment<'a>>),
    /// Dates are moved.
    Shift(ClockShift, Dates),
    /// The metadata of this picture that are selected are put in place of its own.
    Copy(Vec<u8>, Selection),
}

/// Where a changed file is written.
#[derive(Clone, Copy)]
pub enum Target<'a> {
    /// To a file of this name, `-` for standard output; whether that file may exist.
    Out(&'a str, bool),
    /// In place of the old one.
    InPlace(Keeping),
}
