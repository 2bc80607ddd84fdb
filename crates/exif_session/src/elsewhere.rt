//! Where what was removed from files still is, or is said still, in words.

ghost use Rattle.std.specs.Prelude.{◌≡◌, Some};
ghost use Rattle.std.specs.Fmt.{WritesOnOk};
ghost use Rattle.exif_session.specs.Elsewhere.{backups_text, count_if, elsewhere_count, links_text, names_text, removed_elsewhere, removes, removes_all, times_text};

use crate::request::Change;
use exif_change::Removed;
use exif_files::Keeping;
use std::fmt;

/// What holds or says what a run has removed.
#[derive(Clone, Copy, Debug)]
pub enum Elsewhere {
    /// So many backups of them.
    Backups(u64),
    /// Other names of so many of them.
    Links(u64),
    /// So many names of files that say a day.
    Names(u64),
    /// So many files that keep their times.
    Times(u64),
}

impl Elsewhere {
    /// How many they are.
    pub fn count(self) -> u64
        ensures { result ≡ elsewhere_count self }
    {
        match self {
            Elsewhere::Backups(count)
            | Elsewhere::Links(count)
            | Elsewhere::Names(count)
            | Elsewhere::Times(count) => count,
        }
    }
}

// Writes how many backups there are.
fn write_backups<W: fmt::Write>(f: &mut fmt::Formatter<W>, count: u64) -> fmt::Result
    ensures { WritesOnOk W.write_str_gives f.old result (backups_text count) f.new }
{
    if count == 1 {
        f.write_str("1 backup (.orig) holds what was removed")
    } else {
        write!(f, "{count} backups (.orig) hold what was removed")
    }
}

// Writes how many files have other names.
fn write_links<W: fmt::Write>(f: &mut fmt::Formatter<W>, count: u64) -> fmt::Result
    ensures { WritesOnOk W.write_str_gives f.old result (links_text count) f.new }
{
    if count == 1 {
        f.write_str("1 file has another name (a hard link), under which what was removed stays")
    } else {
        write!(
            f,
            "{count} files have other names (hard links), under which what was removed stays"
        )
    }
}

// Writes how many names say a day.
fn write_names<W: fmt::Write>(f: &mut fmt::Formatter<W>, count: u64) -> fmt::Result
    ensures { WritesOnOk W.write_str_gives f.old result (names_text count) f.new }
{
    if count == 1 {
        f.write_str("1 file has a date in its name, which stays")
    } else {
        write!(f, "{count} files have a date in their names, which stay")
    }
}

// Writes how many files keep their times.
fn write_times<W: fmt::Write>(f: &mut fmt::Formatter<W>, count: u64) -> fmt::Result
    ensures { WritesOnOk W.write_str_gives f.old result (times_text count) f.new }
{
    if count == 1 {
        f.write_str(
            "1 file keeps its time of modification (--keep-time), which may say when it was taken",
        )
    } else {
        write!(
            f,
            "{count} files keep their times of modification (--keep-time), which may say when they were taken"
        )
    }
}

impl fmt::Display for Elsewhere {
    ghost use Rattle.exif_session.specs.Elsewhere.{elsewhere_text};

    ghost output = { λ it. Some (elsewhere_text it) };

    fn fmt<W: fmt::Write>(&self, f: &mut fmt::Formatter<W>) -> fmt::Result {
        match self {
            Elsewhere::Backups(count) => write_backups(f, *count),
            Elsewhere::Links(count) => write_links(f, *count),
            Elsewhere::Names(count) => write_names(f, *count),
            Elsewhere::Times(count) => write_times(f, *count),
        }
    }
}

// So many, if something holds of them.
fn count_if(test: bool, count: u64) -> u64
    ensures { result ≡ count_if test count }
{
    if test { count } else { 0 }
}

// Whether a change removes metadata.
fn removes(change: &Change<'_>) -> bool
    ensures { result ≡ removes change.now }
{
    matches!(change, Change::Scrub(..))
}

// Whether it removes all of them, and not locations alone.
fn removes_all(change: &Change<'_>) -> bool
    ensures { result ≡ removes_all change.now }
{
    matches!(
        change,
        Change::Scrub(Removed::Metadata | Removed::AllButOrientation, _)
    )
}

/// Where what a change has removed is: in the backups of so many files that were changed, if the
/// old ones are kept, and under other names of so many. Where all metadata were removed, the names
/// of so many files still say a day, and so do the times of those that keep them.
pub fn removed_elsewhere(
    change: &Change<'_>,
    keeping: Keeping,
    changed: u64,
    linked: u64,
    dated: u64,
) -> [Elsewhere; 4]
    ensures { result ≡ removed_elsewhere change.now keeping changed linked dated }
{
    let (some, all) = (removes(change), removes_all(change));
    [
        Elsewhere::Backups(count_if(some && keeping.backup, changed)),
        Elsewhere::Links(count_if(some, linked)),
        Elsewhere::Names(count_if(all, dated)),
        Elsewhere::Times(count_if(all && keeping.times, changed)),
    ]
}
