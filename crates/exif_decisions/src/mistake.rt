//! Command lines that ask for nothing.

ghost use Rattle.std.specs.Prelude.{◌≡◌};
ghost use Rattle.exif_decisions.specs.Asking.{change_aim, fact_named, files_mistake, is_given, mistake_text, names_input, thumbnail_aim, undo_mistake};

/// What is wrong with a command line whose words and flags do not go together.
#[derive(Clone, Copy, Debug, PartialEq, Eq)]
pub enum Mistake {
    /// No file is named.
    NoFile,
    /// Standard input is to be processed on a condition.
    ConditionOnInput,
    /// `--where` or `--without` has another word than `date` or `location`.
    UnknownFact,
    /// Many files are to be changed, and not in place.
    ChangesOfMany,
    /// Neither a file with a new one, nor files in place.
    NoTarget,
    /// The thumbnails of many files are to be written, and not into a folder.
    ThumbnailsOfMany,
    /// Neither a file with a new one, nor a folder.
    NoThumbnail,
    /// No pattern, and no run that is to be taken back.
    NoPattern,
    /// A run is to be taken back, and more is asked for.
    UndoAndMore,
    /// `--force-blank` without `--locations-only`.
    BlankAlone,
    /// Nothing is to be set.
    NoAssignment,
}

impl Mistake {
    /// What a message says of it.
    pub fn text(self) -> &'static str
        ensures { result.now ≡ mistake_text self }
    {
        match self {
            Mistake::NoFile => "expected a file",
            Mistake::ConditionOnInput => "no condition can be put on standard input",
            Mistake::UnknownFact => "expected date or location after --where or --without",
            Mistake::ChangesOfMany => "--recursive, --null and conditions require --in-place",
            Mistake::NoTarget => "expected FILE OUT, or --in-place FILE...",
            Mistake::ThumbnailsOfMany => "--recursive, --null and conditions require --into",
            Mistake::NoThumbnail => "expected FILE OUT, or --into FOLDER PATH...",
            Mistake::NoPattern => "expected PATTERN PATH..., or --undo FILE",
            Mistake::UndoAndMore => {
                "--undo FILE takes no other argument but --dry-run and --quiet"
            }
            Mistake::BlankAlone => "--force-blank requires --locations-only",
            Mistake::NoAssignment => "expected TAG=VALUE, such as Orientation=6",
        }
    }
}

/// Where the result of a run goes.
#[derive(Clone, Copy, Debug, PartialEq, Eq)]
pub enum Aim {
    /// To each file: in its place, or into a folder under its name.
    Each,
    /// From one file into a new one, which the last word names.
    Out,
}

/// Where changed files go, by whether they are changed in place, whether many may be asked for, and
/// how many words there are.
pub fn change_aim(in_place: bool, many: bool, words: usize) -> Result<Aim, Mistake>
    ensures { result ≡ change_aim in_place many words }
{
    match (in_place, many, words) {
        (true, _, _) => Ok(Aim::Each),
        (false, true, _) => Err(Mistake::ChangesOfMany),
        (false, false, 2) => Ok(Aim::Out),
        (false, false, _) => Err(Mistake::NoTarget),
    }
}

/// Where thumbnails go, by whether a folder is given, whether many may be asked for, and how many
/// words there are.
pub fn thumbnail_aim(into: bool, many: bool, words: usize) -> Result<Aim, Mistake>
    ensures { result ≡ thumbnail_aim into many words }
{
    match (into, many, words) {
        (true, _, _) => Ok(Aim::Each),
        (false, true, _) => Err(Mistake::ThumbnailsOfMany),
        (false, false, 2) => Ok(Aim::Out),
        (false, false, _) => Err(Mistake::NoThumbnail),
    }
}

/// Whether one of these is given.
pub fn is_given(flags: &[bool]) -> bool
    ensures { result ≡ is_given flags.now }
{
    flags.iter().any(|flag| *flag)
}

/// What is wrong where a run is taken back and these are given, too.
pub fn undo_mistake(others: &[bool]) -> Option<Mistake>
    ensures { result ≡ undo_mistake others.now }
{
    if is_given(others) {
        return Some(Mistake::UndoAndMore);
    }
    None
}

/// What is wrong with the files of a run, by whether standard input names more, and whether only
/// those are processed that meet a condition: standard input can't be one of these.
pub fn files_mistake(paths: &[&str], from_input: bool, on_condition: bool) -> Option<Mistake>
    ensures { result ≡ files_mistake paths.now from_input on_condition }
{
    let lacks_files = paths.is_empty() && !from_input;
    if lacks_files {
        return Some(Mistake::NoFile);
    }
    let asks_of_input = on_condition && names_input(paths);
    if asks_of_input {
        return Some(Mistake::ConditionOnInput);
    }
    None
}

// Whether standard input is named among paths.
fn names_input(paths: &[&str]) -> bool
    ensures { result ≡ names_input paths.now }
{
    paths.iter().any(|path| *path == "-")
}

/// What a condition asks of a picture.
#[derive(Clone, Copy, Debug, PartialEq, Eq)]
pub enum Fact {
    /// A date.
    Date,
    /// A location.
    Location,
}

/// The fact of a name.
pub fn fact_named(name: &str) -> Result<Fact, Mistake>
    ensures { result ≡ fact_named name.now }
{
    match name {
        "date" => Ok(Fact::Date),
        "location" => Ok(Fact::Location),
        _ => Err(Mistake::UnknownFact),
    }
}
