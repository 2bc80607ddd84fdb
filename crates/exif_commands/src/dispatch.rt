//! Many files, one after the other: what is wrong with one is reported, and the others go on.

ghost use Rattle.std.specs.Prelude.{◌≡◌, IfOk, Ok, OnOk, false, length, true};
ghost use Rattle.exif_decisions.specs.declared.outcome.Outcome.TheVariants.{Unchanged};
ghost use Rattle.exif_session.specs.Statuses.{IsStatus};
ghost use Rattle.exif_commands.specs.Tasks.{goes_through, is_done_elsewhere, makes_files};

use crate::check::{check_file, report_unchecked};
use crate::copying::copy_into_files;
use crate::geotag::geotag_files;
use crate::objects::{write_object, write_summary};
use crate::show::show_file;
use crate::table::{write_header, write_row};
use crate::thumbnail::{write_thumbnail, write_thumbnails};
use crate::touch::touch_file;
use exif::Sink;
use exif_decisions::Outcome;
use exif_session::{Item, Request, Session, Stop, Target, Task, change_in_place, change_into};

/// Does what is requested with each file, but for other names, which `exif_rename_commands` gives,
/// and for a catalogue, which `exif_catalog_commands` brings up to date. Answers the status of the
/// run, which follows from what was counted: 0, 3 where something was skipped or left undone, 1
/// where a file was refused.
pub fn run<'r, W: Sink, E: Sink>(
    rt: &'r HostRuntime,
    request: &'r Request<'_>,
    shows_progress: bool,
    out: &'r mut W,
    err: &'r mut E,
) -> Result<u8, Stop>
    ensures { IfOk result IsStatus }
{
    let mut session = Session::begin(rt, request, shows_progress, out, err)?;
    process_request(&mut session)?;
    session.finish()
}

// Does what is requested. A task that goes through the files leaves none that waits.
fn process_request<W: Sink, E: Sink>(session: &mut Session<'_, '_, W, E>) -> Result<(), Stop>
    ensures { goes_through session.old.request.now.task ≡ true
        → OnOk result (length session.new.pending.waiting.items ≡ 0) }
{
    let request = session.request;
    match &request.task {
        Task::Change(change, Target::InPlace(keeping)) => change_in_place(
            session, change, *keeping,
        ),
        Task::Geotag(geotagging) => geotag_files(session, geotagging),
        Task::Copy(copying) => copy_into_files(session, copying),
        Task::Thumbnails(folder, force) => write_thumbnails(session, folder, *force),
        Task::Table(table) => {
            write_header(session, table)?;
            process_all(session)
        }
        Task::Check(..) => {
            process_all(session)?;
            report_unchecked(session)
        }
        _ => process_all(session),
    }
}

// Does it with one file after the other, until none waits.
fn process_all<W: Sink, E: Sink>(session: &mut Session<'_, '_, W, E>) -> Result<(), Stop>
    ensures { OnOk result (length session.new.pending.waiting.items ≡ 0) }
{
    for _ in 0..u64::MAX {
        let outcome = match session.next_item()? {
            None => return Ok(()),
            Some(Item::Input) => process(session, "-")?,
            Some(Item::File(path)) => process(session, path.as_str())?,
        };
        session.count(outcome);
        session.console.step(session.pending.len());
    }
    Err(Stop::OutOfMemory)
}

// Does it with one file. What waits and what was counted stay: the caller counts the outcome.
fn process<W: Sink, E: Sink>(
    session: &mut Session<'_, '_, W, E>,
    path: &str,
) -> Result<Outcome, Stop>
    ensures pending { makes_files session.old.request.now.task ≡ false
        → session.new.pending ≡ session.old.pending }
    ensures elsewhere { is_done_elsewhere session.old.request.now.task ≡ true
        → result ≡ Ok Unchanged }
    ensures kept { is_done_elsewhere session.old.request.now.task ≡ true
        → session.new ≡ session.old }
{
    let request = session.request;
    match &request.task {
        Task::Show(reading) => show_file(session, *reading, path),
        Task::Json(reading, tags) => write_object(session, *reading, tags.as_ref(), path),
        Task::Summary(reading) => write_summary(session, *reading, path),
        Task::Table(table) => write_row(session, table, path),
        Task::Check(form, strict) => check_file(session, *form, *strict, path),
        Task::Change(what, Target::Out(to, force)) => change_into(session, what, path, to, *force),
        Task::Thumbnail(to, force) => write_thumbnail(session, path, to, *force),
        Task::Touch(zone) => touch_file(session, zone, path),
        // these have all files in view, and are done above, or by the crates beside this one
        Task::Change(_, Target::InPlace(_)) | Task::Thumbnails(..) => Ok(Outcome::Unchanged),
        Task::Rename(_) | Task::Undo(_) | Task::Geotag(_) => Ok(Outcome::Unchanged),
        Task::Copy(_) | Task::Catalog(_) => Ok(Outcome::Unchanged),
    }
}
