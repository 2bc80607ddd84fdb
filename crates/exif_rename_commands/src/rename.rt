//! Files that get other names, by when and with which camera they were taken.

ghost use Rattle.std.specs.Prelude.{◌≡◌, [], Err, IfErr, IfOk, IsTrue, None, OnErr, OnOk, length, string_bytes};
ghost use Rattle.std.specs.Result.{IsOkAnd};
ghost use Rattle.exif_decisions.specs.Tallies.{counted};
ghost use Rattle.exif_decisions.specs.declared.outcome.Outcome.{Outcome};
ghost use Rattle.exif_decisions.specs.declared.outcome.Outcome.TheVariants.{Refused};
ghost use Rattle.exif_files.specs.declared.outcome.Status.TheVariants as status;
ghost use Rattle.exif_inputs.specs.Pending.{with_counts};
ghost use Rattle.exif_rename.specs.declared.plan.PlanError.TheVariants as plan;
ghost use Rattle.exif_session.specs.Counting.{with_beside};
ghost use Rattle.exif_rename_commands.specs.Planned.{path_refused};

use crate::counting::refuse;
use crate::gathering::gather;
use crate::moves::{Folders, Moving, move_all};
use crate::planned::{Begun, Planned, leave_there};
use crate::stems::{Stem, add_stems};
use crate::words::NotPlanned;
use exif::Sink;
use exif_files::HostFiles;
use exif_rename::{PlanError, RenameRequest, plan_names};
use exif_session::{Renaming, Session, Stop};
use std::{fs, io};

/// Gives each file that is named or found its new name, and counts it. All names are planned before
/// the first file is moved: nothing has them, and no two files get one. The files of one stem in one
/// folder (pictures, videos, sidecars) get one name, by the first picture that has what the pattern
/// requires; where none has, they are left and reported. Moves that an earlier run began are
/// finished: a file that has its new name besides its old one loses the old one.
pub fn rename_files<W: Sink, E: Sink>(
    session: &mut Session<'_, '_, W, E>,
    renaming: &Renaming<'_>,
) -> Result<(), Stop>
    ensures none { renaming.now.into ≡ None
        → OnOk result (length session.new.pending.waiting.items ≡ 0) }
{
    let into = into_folder(session.rt, renaming);
    rename_into(session, renaming, into)
}

// The same with the folder that new names are in; where that can't be made, nothing is done.
fn rename_into<W: Sink, E: Sink>(
    session: &mut Session<'_, '_, W, E>,
    renaming: &Renaming<'_>,
    into: io::Result<String>,
) -> Result<(), Stop>
    ensures refused { IfErr into (λ e. OnOk result (session.new.pending
        ≡ with_beside status.Refused session.old.pending)) }
    ensures kept { IfErr into (λ e.
        OnErr result (session.new.pending ≡ session.old.pending)) }
    ensures done { IfOk into (λ folder.
        OnOk result (length session.new.pending.waiting.items ≡ 0)) }
{
    match into {
        Ok(into) => rename_all(session, renaming, into.as_str()),
        Err(cause) => session.refuse_beside(renaming.into.unwrap_or(""), &cause),
    }
}

// The same with a folder that is there, or none.
fn rename_all<W: Sink, E: Sink>(
    session: &mut Session<'_, '_, W, E>,
    renaming: &Renaming<'_>,
    into: &str,
) -> Result<(), Stop>
    ensures { OnOk result (length session.new.pending.waiting.items ≡ 0) }
{
    let alloc = session.rt.alloc();
    let mut members = Vec::new(alloc);
    gather(session, &mut members)?;
    let mut stems = Vec::new(alloc);
    add_stems(session, renaming, into, members.as_slice(), &mut stems)?;
    carry_out(session, renaming, stems)
}

// The folder that new names are in, without links; nothing for that of each file.
fn into_folder(rt: &HostRuntime, renaming: &Renaming<'_>) -> io::Result<String>
    ensures { renaming.now.into ≡ None → IsOkAnd result (λ into. string_bytes into ≡ []) }
{
    let Some(into) = renaming.into else {
        return Ok(String::new(rt.alloc()));
    };
    if !renaming.dry_run {
        fs::create_dir_all(rt, into)?;
    }
    match fs::canonicalize(rt, into) {
        Ok(path) => Ok(String::from_str(rt.alloc(), path.as_path().as_str())?),
        // a dry run makes no folder
        Err(_nothing) => Ok(String::from_str(rt.alloc(), into)?),
    }
}

// Plans the numbers of the names, and moves the files or writes what would be moved.
fn carry_out<W: Sink, E: Sink>(
    session: &mut Session<'_, '_, W, E>,
    renaming: &Renaming<'_>,
    stems: Vec<Stem>,
) -> Result<(), Stop>
    ensures waiting { session.new.pending.waiting ≡ session.old.pending.waiting }
    ensures dry { IsTrue renaming.now.dry_run
        → session.new.pending.counts.beside ≡ session.old.pending.counts.beside }
{
    let moving = Moving {
        copy: renaming.copy,
        dry_run: renaming.dry_run,
    };
    let planned = leave_there(session, renaming, stems)?;
    let mut files = HostFiles::new(session.rt);
    let numbers = plan_names(session.rt.alloc(), &mut files, planned.requests.as_slice());
    carry_out_plan(session, moving, planned, numbers)
}

// Moves the files by the numbers of their names, or reports why there are none: then nothing is
// moved.
fn carry_out_plan<W: Sink, E: Sink>(
    session: &mut Session<'_, '_, W, E>,
    moving: Moving,
    planned: Planned,
    numbers: Result<Vec<u32>, PlanError>,
) -> Result<(), Stop>
    ensures memory { numbers ≡ Err plan.OutOfMemory → session.new ≡ session.old }
    ensures refused { IfErr numbers (λ e. OnOk result (session.new.pending
        ≡ with_counts (counted Refused session.old.pending.counts) session.old.pending)) }
    ensures kept { IfErr numbers (λ e.
        OnErr result (session.new.pending ≡ session.old.pending)) }
    ensures waiting { session.new.pending.waiting ≡ session.old.pending.waiting }
    ensures dry { IsTrue moving.dry_run
        → session.new.pending.counts.beside ≡ session.old.pending.counts.beside }
{
    match numbers {
        Ok(numbers) => move_planned(session, moving, planned, numbers.as_slice()),
        Err(PlanError::OutOfMemory) => Err(Stop::OutOfMemory),
        Err(error) => {
            let path = path_refused(planned.paths.as_slice(), &error);
            refuse(session, path, &NotPlanned(error))
        }
    }
}

// The path that is named where there are no numbers: that of the picture whose new name too many
// files have.
fn path_refused<'p>(paths: &'p [String], error: &PlanError) -> &'p str
    ensures { result.now ≡ path_refused paths.entry.now error.now }
{
    match error {
        PlanError::Crowded(index) => paths.get(*index).map_or("", |path| path.as_str()),
        PlanError::Io(_) | PlanError::OutOfMemory => "",
    }
}

// Finishes what an earlier run began, and moves the files by the numbers of their names.
fn move_planned<W: Sink, E: Sink>(
    session: &mut Session<'_, '_, W, E>,
    moving: Moving,
    planned: Planned,
    numbers: &[u32],
) -> Result<(), Stop>
    ensures waiting { session.new.pending.waiting ≡ session.old.pending.waiting }
    ensures dry { IsTrue moving.dry_run
        → session.new.pending.counts.beside ≡ session.old.pending.counts.beside }
{
    let mut moved = Folders::new(session.rt.alloc());
    let Planned {
        requests,
        paths,
        begun,
    } = planned;
    finish_begun(session, moving, &mut moved, begun)?;
    for ((path, request), number) in paths.iter().zip(requests.iter()).zip(numbers.iter()) {
        move_request(session, moving, &mut moved, path.as_str(), request, *number)?;
    }
    moved.settle(session)
}

// Moves the files of a request by the number of their name, and counts them.
fn move_request<W: Sink, E: Sink>(
    session: &mut Session<'_, '_, W, E>,
    moving: Moving,
    moved: &mut Folders,
    path: &str,
    request: &RenameRequest,
    number: u32,
) -> Result<(), Stop>
    ensures counted { OnOk result ((outcome : Outcome) × (session.new.pending
        ≡ with_counts (counted outcome session.old.pending.counts) session.old.pending)) }
    ensures kept { OnErr result (session.new.pending ≡ session.old.pending) }
    ensures dry { IsTrue moving.dry_run → moved.new ≡ moved.old }
{
    let moves = request.moves(session.rt.alloc(), number)?;
    let outcome = move_all(session, moving, moved, path, moves.as_slice())?;
    session.count(outcome);
    Ok(())
}

// Finishes the moves that an earlier run began.
fn finish_begun<W: Sink, E: Sink>(
    session: &mut Session<'_, '_, W, E>,
    moving: Moving,
    moved: &mut Folders,
    begun: Vec<Begun>,
) -> Result<(), Stop>
    ensures none { begun.items ≡ [] → session.new ≡ session.old }
    ensures waiting { session.new.pending.waiting ≡ session.old.pending.waiting }
    ensures beside { session.new.pending.counts.beside ≡ session.old.pending.counts.beside }
    ensures dry { IsTrue moving.dry_run → moved.new ≡ moved.old }
{
    for Begun { path, moves } in begun {
        let outcome = move_all(session, moving, moved, path.as_str(), moves.as_slice())?;
        session.count(outcome);
    }
    Ok(())
}
