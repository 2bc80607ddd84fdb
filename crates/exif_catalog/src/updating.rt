//! A run over a catalogue, from its first picture to its end.

ghost use Rattle.std.specs.Prelude.{◌≡◌, ◌&&◌, ℕ, Bool, List, [], Option, false, nat_lt, All, Contains, IfOk, IfSome, None, OnErr, OnOk, string_bytes};
ghost use Rattle.exif_catalog.specs.Runs.{has_stamp_of, known_after, known_at, marks_in, moved_times};
ghost use Rattle.exif_catalog.specs.Totals.{counted_all, counted_if, is_kept, no_totals};

use crate::catalog::Catalog;
use crate::hashes::Move;
use crate::known::Stamp;
use crate::totals::{Outcome, Totals};
use crate::values::SqlValue;
use exif_catalog_file::{CatalogError, Job, RunError, change, commit, too_many};
use sqlite::{Alter, Connection};
use std::alloc::{AllocError, Global};

/// A file that a run found, and that may be a picture.
#[derive(Drop)]
pub struct Found {
    /// The text of its path, as [`text_of`](exif_catalog_file::text_of) has it.
    pub path: String,
    /// What its file was before it was read, if all of that is known.
    pub stamp: Option<Stamp>,
}

/// What a file has for its row.
#[derive(Drop)]
pub enum FileRow {
    /// The values of [`row_values`](crate::row_values).
    Values(Vec<SqlValue>),
    /// None since it can't be read: a row that it has stays as it is.
    Unreadable,
    /// None since it is no picture, or none that is asked for: a row that it has is that of a file
    /// that is gone.
    NoPicture,
}

/// What a run did.
#[derive(Drop)]
pub struct Updated {
    /// What became of the rows.
    pub totals: Totals,
    /// The files that were moved, where hashes are needed ([`Pictures::needs_hash`]).
    pub moves: Vec<Move>,
}

/// The files of a run.
pub trait Pictures {
    /// Why the run is to end before the last file.
    type Error: Drop;

    /// What holds behind the last file.
    ghost ends: { Self → Type 0 } = { λ _. Unit {0} };

    /// Whether rows are to have hashes.
    ghost hashes: { Self → Bool };

    /// The names of the references that it holds, the outermost first.
    ghost through: { Self → List ℕ } = { λ _. [] };

    /// The next file that may be a picture, or `None` behind the last. It need not be opened: where
    /// its stamp is that of its row, it is a picture, and nothing more is asked of it.
    fn next(&mut self) -> Result<Option<Found>, Self::Error>
        ensures ended { IfOk result (λ found. found ≡ None → ends self.new) }
        ensures same { through self.new ≡ through self.old };

    /// Whether rows are to have the hash of their file's bytes.
    fn needs_hash(&self) -> bool
        ensures { result ≡ hashes self.now };

    /// What the file that `next` gave last has for its row. It is asked only where the file has no
    /// row, or not the stamp of the row, or the row lacks a hash that is needed.
    fn row(&mut self) -> Result<FileRow, Self::Error>
        ensures same { through self.new ≡ through self.old };

    /// Whether all that is below a root was looked through, asked behind the last file. Where it
    /// was not, as where a folder could not be read, no row below the root is marked as removed.
    fn is_whole(&self, root: &str) -> bool;
}

// Brings the row of a file up to date. None where it is no picture: then nothing changes.
fn take<S: Alter, P: Pictures>(
    alloc: Global,
    database: &mut Connection<S>,
    catalog: &mut Catalog,
    pictures: &mut P,
    found: &Found,
) -> Result<Option<Outcome>, RunError<P::Error>>
    ensures seen { IfOk result (λ outcome. IfSome outcome (λ _. (q : List ℕ)
        → known_at catalog.new q
        ≡ known_after catalog.old (string_bytes found.now.path) q)) }
    ensures kept { IfOk result (λ outcome. is_kept outcome
        ≡ has_stamp_of (known_at catalog.old (string_bytes found.now.path)) found.now.stamp) }
    ensures other { IfOk result (λ outcome. outcome ≡ None → catalog.new ≡ catalog.old) }
    ensures failed { OnErr result (catalog.new ≡ catalog.old) }
    ensures same { P.through pictures.new ≡ P.through pictures.old }
{
    let path = found.path.as_str();
    if catalog.is_unchanged(path, found.stamp) {
        catalog.keep(path);
        return Ok(Some(Outcome::Unchanged));
    }
    match pictures.row().map_err(RunError::Caller)? {
        FileRow::Values(values) => {
            let outcome = catalog.put(alloc, database, path, values.as_slice())?;
            Ok(Some(outcome))
        }
        FileRow::Unreadable => {
            catalog.keep(path);
            Ok(Some(Outcome::Refused))
        }
        FileRow::NoPicture => Ok(None),
    }
}

// The roots that were looked through.
fn whole_roots<'a, P: Pictures>(
    alloc: Global,
    roots: &[&'a str],
    pictures: &P,
) -> Result<Vec<&'a str>, AllocError>
    ensures among { IfOk result (λ whole. All (λ root. Contains roots.now root) whole.items) }
{
    let mut whole = Vec::new(alloc);
    for root in roots {
        if pictures.is_whole(root) {
            whole.push(*root)?;
        }
    }
    Ok(whole)
}

// Counts files that were moved.
fn count_moves(mut totals: Totals, moves: &[Move]) -> Totals
    ensures { result ≡ moved_times totals moves.now }
{
    for _moved in moves {
        totals = totals.moved();
    }
    totals
}

// Gives the rows of files that were moved their new paths, and marks those of the others.
fn end<S: Alter>(
    alloc: Global,
    database: &mut Connection<S>,
    catalog: &mut Catalog,
    roots: &[&str],
    needs_hash: bool,
    mut totals: Totals,
) -> Result<Updated, CatalogError>
    ensures totals { IfOk result (λ all. all.totals ≡ marks_in roots.now
        (moved_times totals all.moves.items) catalog.new.rows.entries) }
    ensures none { needs_hash && nat_lt 0 totals.added ≡ false
        → IfOk result (λ all. all.moves.items ≡ []) }
{
    let moves = if needs_hash && totals.added > 0 {
        catalog.take_moves(alloc, database, roots)?
    } else {
        Vec::new(alloc)
    };
    totals = count_moves(totals, moves.as_slice());
    let totals = catalog.set_marks(database, roots, totals)?;
    Ok(Updated { totals, moves })
}

// What was counted, with what became of a file that is a picture.
fn counted_if(totals: Totals, outcome: Option<Outcome>) -> Totals
    ensures { result ≡ counted_if totals outcome }
{
    match outcome {
        Some(outcome) => totals.counted(outcome),
        None => totals,
    }
}

// Brings the row of each file up to date, and counts what became of them.
fn take_each<S: Alter, P: Pictures>(
    alloc: Global,
    database: &mut Connection<S>,
    catalog: &mut Catalog,
    pictures: &mut P,
) -> Result<Totals, RunError<P::Error>>
    ensures ended { OnOk result (P.ends pictures.new) }
    ensures counted { IfOk result
        (λ totals. (outcomes : List (Option Outcome))
        × (totals ≡ counted_all no_totals outcomes)) }
    ensures same { P.through pictures.new ≡ P.through pictures.old }
{
    let mut totals = Totals::NONE;
    'files: for _ in 0..u64::MAX {
        let Some(found) = pictures.next().map_err(RunError::Caller)? else {
            return Ok(totals);
        };
        totals = counted_if(totals, take(alloc, database, catalog, pictures, &found)?);
    }
    Err(RunError::Catalog(too_many()))
}

// Brings all rows up to date.
fn take_all<S: Alter, P: Pictures>(
    alloc: Global,
    database: &mut Connection<S>,
    roots: &[&str],
    pictures: &mut P,
) -> Result<Updated, RunError<P::Error>>
    ensures ended { OnOk result (P.ends pictures.new) }
    ensures moves { P.hashes pictures.old ≡ false
        → IfOk result (λ all. all.moves.items ≡ []) }
    ensures same { P.through pictures.new ≡ P.through pictures.old }
{
    let needs_hash = pictures.needs_hash();
    let mut catalog = Catalog::open(alloc, database, needs_hash)?;
    let totals = take_each(alloc, database, &mut catalog, pictures)?;
    let whole = whole_roots(alloc, roots, pictures)?;
    Ok(end(
        alloc,
        database,
        &mut catalog,
        whole.as_slice(),
        needs_hash,
        totals,
    )?)
}

// The files of a run, and what was looked through for them.
#[derive(Drop)]
struct UpdateJob<'u, P> {
    roots: &'u [&'u str],
    pictures: &'u mut P,
}

impl<P: Pictures> Job for UpdateJob<'_, P> {
    type Answer = Updated;

    type Error = P::Error;

    ghost does = { λ old result new.
        OnOk result (P.ends new.pictures.now)
        × (P.hashes old.pictures.now ≡ false → IfOk result (λ all. all.moves.items ≡ []))
        × (P.through new.pictures.now ≡ P.through old.pictures.now)
        × (new.pictures.ghost_name ≡ old.pictures.ghost_name) };

    fn run<S: Alter>(
        &mut self,
        alloc: Global,
        database: &mut Connection<S>,
    ) -> Result<Updated, RunError<P::Error>> {
        let updated = take_all(alloc, database, self.roots, self.pictures)?;
        commit(database)?;
        Ok(updated)
    }
}

/// Brings a catalogue up to date: each picture whose file is new or has another [`Stamp`], or
/// whose row lacks a hash that is needed ([`Pictures::needs_hash`]), gets the values that the
/// caller has for it, and each row below the roots whose picture was not among them is marked as
/// removed, if the root was looked through ([`Pictures::is_whole`]). Where hashes are needed, a new
/// picture whose hash is that of one such row, and of no other new one, takes its place: its file
/// was moved ([`moves_of`](crate::moves_of)). A file that is not there is made, also where the run
/// then ends with an error. One that is no database, or has another version or other tables, is
/// refused and left as it is. No other program can read or write the file until the run ends.
///
/// The run is one transaction: after an error the rows are as they were before. It ends only behind
/// the last file, and finds moves only where hashes are needed.
pub fn update<P: Pictures>(
    rt: &HostRuntime,
    path: &str,
    roots: &[&str],
    pictures: &mut P,
) -> Result<Updated, RunError<P::Error>>
    ensures ended { OnOk result (P.ends pictures.new) }
    ensures moves { P.hashes pictures.old ≡ false
        → IfOk result (λ all. all.moves.items ≡ []) }
    ensures same { P.through pictures.new ≡ P.through pictures.old }
{
    change(rt, path, &mut UpdateJob { roots, pictures })
}
