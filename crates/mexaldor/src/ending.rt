//! How the program ends: its status, and what is done with a request.

ghost use Rattle.std.specs.Prelude.{◌≡◌, ◌&&◌, not};
ghost use Rattle.mexaldor.specs.Endings.{is_closed, run_for, run_seen, shown_status};

use exif_session::{Cataloguing, Stop, Task};
use std::io::{self, ErrorKind};

/// The status after a message about the words, or the help, was written, by whether the words were
/// wrong: then 2, also where the message could not be written. Or why the help was not written.
pub fn shown_status(is_mistake: bool, written: io::Result<()>) -> Result<u8, Stop>
    ensures { result ≡ shown_status is_mistake written }
{
    if is_mistake {
        return Ok(2);
    }
    match written {
        Ok(()) => Ok(0),
        Err(cause) => Err(Stop::Output(cause)),
    }
}

/// Whether a run ended early since nothing reads its output any more, which needs no message.
pub fn is_closed(stop: &Stop) -> bool
    ensures { result ≡ is_closed stop.now }
{
    match stop {
        Stop::Output(cause) => matches!(cause.kind(), ErrorKind::BrokenPipe),
        Stop::Input(_) | Stop::OutOfMemory => false,
    }
}

/// Whether the progress is shown: to people who do not see the answers among it.
pub fn shows_progress(is_err_terminal: bool, is_out_terminal: bool) -> bool
    ensures { result ≡ (is_err_terminal && not is_out_terminal) }
{
    is_err_terminal && !is_out_terminal
}

/// Which run a task has.
#[derive(Clone, Copy)]
pub enum TaskRun<'t, 'a> {
    /// A catalogue is brought up to date.
    Catalog(&'t Cataloguing<'a>),
    /// Files get other names, or their old ones back.
    Renames,
    /// One file is processed after the other.
    Files,
}

/// Which run a task has.
pub fn run_for<'t, 'a>(task: &'t Task<'a>) -> TaskRun<'t, 'a>
    ensures { run_seen result ≡ run_for task.now }
{
    match task {
        Task::Catalog(cataloguing) => TaskRun::Catalog(cataloguing),
        Task::Rename(_) | Task::Undo(_) => TaskRun::Renames,
        Task::Show(_)
        | Task::Json(..)
        | Task::Table(_)
        | Task::Check(..)
        | Task::Change(..)
        | Task::Summary(_)
        | Task::Thumbnail(..)
        | Task::Thumbnails(..)
        | Task::Touch(_)
        | Task::Geotag(_)
        | Task::Copy(_) => TaskRun::Files,
    }
}
