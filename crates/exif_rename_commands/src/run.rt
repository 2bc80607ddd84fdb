//! A run that gives files other names, or their old ones back.

ghost use Rattle.std.specs.Prelude.{IfOk};
ghost use Rattle.exif_session.specs.Statuses.{IsStatus};

use crate::rename::rename_files;
use crate::undo::undo_renames;
use exif::Sink;
use exif_session::{Request, Session, Stop, Task};

/// Gives the files that are requested other names, or their old ones back. Answers the status of
/// the run, which follows from what was counted: 0, 3 where something was skipped or left undone, 1
/// where a file was refused. Of another task nothing is done.
pub fn run_renames<'r, W: Sink, E: Sink>(
    rt: &'r HostRuntime,
    request: &'r Request<'_>,
    shows_progress: bool,
    out: &'r mut W,
    err: &'r mut E,
) -> Result<u8, Stop>
    ensures { IfOk result IsStatus }
{
    let mut session = Session::begin(rt, request, shows_progress, out, err)?;
    match &request.task {
        Task::Rename(renaming) => rename_files(&mut session, renaming)?,
        Task::Undo(dry_run) => undo_renames(&mut session, *dry_run)?,
        _ => {}
    }
    session.finish()
}
