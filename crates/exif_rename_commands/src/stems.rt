//! The files of one stem, which get one new name.

ghost use Rattle.std.specs.Prelude.{◌≡◌, ◌≢◌, ℕ, List, [], All, IfErr, IfOk, OnErr, OnOk, count_by, flat_map, length, string_bytes, take};
ghost use Rattle.std.specs.List.Sorted.{IsPermutation};
ghost use Rattle.exif_files.specs.Folders.{folder_of};
ghost use Rattle.exif_rename.specs.Grouped.{stem_of};
ghost use Rattle.exif_rename.specs.Nested.{IsNested};
ghost use Rattle.exif_rename.specs.RenameRequests.{wanted_of};
ghost use Rattle.exif_inputs.specs.Requested.{wanted_for};
ghost use Rattle.exif_rename_commands.specs.Members.{is_sidecar};
ghost use Rattle.exif_decisions.specs.Tallies.{counted, skipped};
ghost use Rattle.exif_decisions.specs.declared.found.Found.{Found};
ghost use Rattle.exif_decisions.specs.declared.outcome.Outcome.TheVariants.{Unchanged};
ghost use Rattle.exif_inputs.specs.Pending.{with_counts};
ghost use Rattle.exif_rename_commands.specs.Stems.{IsNoPicture, keys_of, left_by};
ghost use Rattle.exif_rename_commands.specs.declared.members.Leaving.TheVariants.{Pass, Skip};

use crate::counting::refuse;
use crate::gathering::{Member, entries_of, members_at};
use crate::members::{Kind, Leaving, is_sidecar, left_as};
use crate::names::new_name;
use exif::{Error, Sink};
use exif_files::folder_of;
use exif_inputs::{NewName, folder_for, request_for};
use exif_rename::{
    Missing, Moment, Place, RenameRequest, Shot, compare_shots, planned_order, split_path,
};
use exif_session::{Renaming, Session, Stop};
use std::alloc::{AllocError, Global};

/// The files of one stem, which get one new name.
#[derive(Drop)]
pub struct Stem {
    /// The new name.
    pub request: RenameRequest,
    /// How many of its files, the first ones, are sidecars.
    pub sidecars: usize,
    /// The path of the picture that gives the name, as it was named or found.
    pub path: String,
    /// When that was taken.
    pub moment: Option<Moment>,
}

/// Plans the new names of all files, those of one stem together, and counts those that stay. Stems
/// are in the order of when their pictures were taken.
pub fn add_stems<W: Sink, E: Sink>(
    session: &mut Session<'_, '_, W, E>,
    renaming: &Renaming<'_>,
    into: &str,
    members: &[Member],
    stems: &mut Vec<Stem>,
) -> Result<(), Stop>
    ensures waiting { session.new.pending.waiting ≡ session.old.pending.waiting }
    ensures beside { session.new.pending.counts.beside ≡ session.old.pending.counts.beside }
{
    let alloc = session.rt.alloc();
    let order = planned_order(alloc, entries_of(alloc, members)?.as_slice())?;
    let by_stem = by_stem(alloc, order.as_slice())?;
    for places in by_stem.iter() {
        let together = members_at(alloc, members, places)?;
        add_stem(session, renaming, into, &together, stems)?;
    }
    Ok(sort_stems(stems)?)
}

// The places of the files of each stem, which are together.
fn by_stem(alloc: Global, order: &[Place]) -> Result<Vec<&[Place]>, AllocError>
    ensures { IfOk result (λ stems. flat_map (λ stem. stem.now) stems.items ≡ order.now) }
{
    order.chunk_by(|a, b| a.leader == b.leader).collect(alloc)
}

// Sorts stems by when their pictures were taken.
fn sort_stems(stems: &mut Vec<Stem>) -> Result<(), AllocError>
    ensures { IsPermutation stems.old.items stems.new.items }
{
    stems.sort_by(|a, b| compare_shots(&shot_of(a), &shot_of(b)))
}

fn shot_of(stem: &Stem) -> Shot<'_> {
    Shot {
        moment: stem.moment,
        path: stem.path.as_str(),
    }
}

// Plans a new name for the files of one stem, or reports why they stay as they are.
fn add_stem<W: Sink, E: Sink>(
    session: &mut Session<'_, '_, W, E>,
    renaming: &Renaming<'_>,
    into: &str,
    together: &[&Member],
    stems: &mut Vec<Stem>,
) -> Result<(), Stop>
    ensures waiting { session.new.pending.waiting ≡ session.old.pending.waiting }
    ensures beside { session.new.pending.counts.beside ≡ session.old.pending.counts.beside }
    ensures stems { OnOk result
        (take (length stems.old.items) stems.new.items ≡ stems.old.items) }
    ensures none { All IsNoPicture together.now → stems.new ≡ stems.old }
{
    for member in together {
        if !matches!(member.kind, Kind::Picture) {
            continue;
        }
        match new_name(session.rt, renaming, member.key.as_str())? {
            Ok(Ok(new)) => {
                stems.push(stem_by(session.rt.alloc(), into, together, member, new)?)?;
                return Ok(());
            }
            Ok(Err(_missing)) => {}
            Err(error) => refuse(session, member.path.as_str(), &error)?,
        }
    }
    leave_all(session, renaming, together)
}

// The files of a stem, by the new name of one of them.
fn stem_by(
    alloc: Global,
    into: &str,
    together: &[&Member],
    named: &Member,
    new: NewName,
) -> Result<Stem, AllocError>
    ensures sidecars { IfOk result (λ stem. stem.sidecars
        ≡ count_by (λ member. is_sidecar member.now.kind) together.now) }
    ensures path { IfOk result (λ stem. string_bytes stem.path ≡ string_bytes named.now.path) }
    ensures moment { IfOk result (λ stem. stem.moment ≡ new.moment) }
{
    let key = named.key.as_str();
    Ok(Stem {
        request: request_of(alloc, into, together, key, new.name.as_str())?,
        sidecars: count_sidecars(together),
        path: named.path.clone()?,
        moment: new.moment,
    })
}

// Reports why the files of a stem stay as they are: no picture of theirs has what the pattern
// requires.
fn leave_all<W: Sink, E: Sink>(
    session: &mut Session<'_, '_, W, E>,
    renaming: &Renaming<'_>,
    together: &[&Member],
) -> Result<(), Stop>
    ensures waiting { session.new.pending.waiting ≡ session.old.pending.waiting }
    ensures beside { session.new.pending.counts.beside ≡ session.old.pending.counts.beside }
{
    for member in together {
        leave(session, renaming, member)?;
    }
    Ok(())
}

// Reports why a file stays as it is, or skips it.
fn leave<W: Sink, E: Sink>(
    session: &mut Session<'_, '_, W, E>,
    renaming: &Renaming<'_>,
    member: &Member,
) -> Result<(), Stop>
    ensures skipped { (found : Found) → left_by member.now ≡ Skip found
        → session.new.pending
        ≡ with_counts (skipped found session.old.pending.counts) session.old.pending }
    ensures passed { left_by member.now ≡ Pass → session.new ≡ session.old }
    ensures waiting { session.new.pending.waiting ≡ session.old.pending.waiting }
    ensures beside { session.new.pending.counts.beside ≡ session.old.pending.counts.beside }
{
    let path = member.path.as_str();
    match left_as(member.kind, path) {
        Leaving::Report => {
            let named = new_name(session.rt, renaming, member.key.as_str())?;
            leave_picture(session, path, named)
        }
        Leaving::Skip(found) => session.skip(path, found),
        Leaving::Pass => Ok(()),
    }
}

// Reports what a picture lacks that gets no new name, and counts it. One that can't be read was
// refused before.
fn leave_picture<W: Sink, E: Sink>(
    session: &mut Session<'_, '_, W, E>,
    path: &str,
    named: Result<Result<NewName, Missing>, Error>,
) -> Result<(), Stop>
    ensures missing { IfOk named.entry (λ name. IfErr name (λ lacks. OnOk result
        (session.new.pending
        ≡ with_counts (counted Unchanged session.old.pending.counts) session.old.pending))) }
    ensures named { IfOk named.entry (λ name. IfOk name (λ new. session.new ≡ session.old)) }
    ensures unread { IfErr named.entry (λ e. session.new ≡ session.old) }
    ensures kept { OnErr result (session.new.pending ≡ session.old.pending) }
{
    match named {
        Ok(Err(missing)) => {
            let outcome = session.leave(path, &missing)?;
            session.count(outcome);
            Ok(())
        }
        _ => Ok(()),
    }
}

// How many files are sidecars.
fn count_sidecars(together: &[&Member]) -> usize
    ensures { result ≡ count_by (λ member. is_sidecar member.now.kind) together.now }
{
    together
        .iter()
        .filter(|member| is_sidecar(member.kind))
        .count()
}

// The new name that the files of a stem are to have, by that of one of them: below the folder that
// is given, or else below that of the file, without the folders of the name where it ends in them.
fn request_of(
    alloc: Global,
    into: &str,
    together: &[&Member],
    key: &str,
    name: &str,
) -> Result<RenameRequest, AllocError>
    ensures given { into.now ≢ [] → IfOk result (λ request. wanted_of request
        ≡ wanted_for into.now (stem_of key.now) name.now (keys_of together.now)) }
    ensures nested { into.now ≡ [] → (root : List ℕ)
        → IsNested (folder_of key.now) name.now root → IfOk result (λ request. wanted_of request
        ≡ wanted_for root (stem_of key.now) name.now (keys_of together.now)) }
    ensures other { into.now ≡ []
        → ((root : List ℕ) → IsNested (folder_of key.now) name.now root → ⊥)
        → IfOk result (λ request. wanted_of request
        ≡ wanted_for (folder_of key.now) (stem_of key.now) name.now (keys_of together.now)) }
{
    let (stem, _) = split_path(key);
    let folder = folder_for(into, folder_of(key), name);
    request_in(alloc, folder, stem, name, together)
}

// The new name that files are to have, in a folder.
fn request_in(
    alloc: Global,
    folder: &str,
    stem: &str,
    name: &str,
    together: &[&Member],
) -> Result<RenameRequest, AllocError>
    ensures { IfOk result (λ request. wanted_of request
        ≡ wanted_for folder.now stem.now name.now (keys_of together.now)) }
{
    let mut paths = Vec::new(alloc);
    for member in together {
        paths.push(member.key.as_str())?;
    }
    request_for(alloc, folder, stem, name, paths.as_slice())
}
