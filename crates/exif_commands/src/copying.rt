//! Metadata of one picture that are put into others.

ghost use Rattle.std.specs.Prelude.{◌≡◌, IfErr, OnErr, OnOk};
ghost use Rattle.exif_files.specs.declared.outcome.Status.TheVariants as status;
ghost use Rattle.exif_commands.specs.Copies.{IsSource};

use exif::{Error, Sink};
use exif_copy::{Selection, check_source};
use exif_inputs::read_file;
use exif_session::{Change, Copying, Session, Stop, change_in_place};
use std::alloc::Global;
use std::io;

/// Puts the metadata of a picture that are selected into each file that is named or found, in
/// place, and counts it.
pub fn copy_into_files<W: Sink, E: Sink>(
    session: &mut Session<'_, '_, W, E>,
    copying: &Copying<'_>,
) -> Result<(), Stop> {
    let from = read_file(session.rt, copying.from);
    let source = source_of(session.rt.alloc(), from, copying.selection);
    copy_source(session, copying, source)
}

// The change by which files get the metadata of a picture that are selected, or why it can give
// none: it can't be read, or lacks some.
fn source_of(
    alloc: Global,
    from: io::Result<Vec<u8>>,
    selection: Selection,
) -> Result<Change<'static>, Error>
    ensures { IsSource selection from result }
{
    match from {
        Ok(from) => match check_source(alloc, from.as_slice(), selection) {
            Ok(()) => Ok(Change::Copy(from, selection)),
            Err(error) => Err(error),
        },
        Err(cause) => Err(Error::Io(cause)),
    }
}

// Changes each file so, or reports why there is no change, and counts that beside the files, of
// which none is looked at.
fn copy_source<W: Sink, E: Sink>(
    session: &mut Session<'_, '_, W, E>,
    copying: &Copying<'_>,
    source: Result<Change<'static>, Error>,
) -> Result<(), Stop>
    ensures counted { IfErr source.entry (λ why.
        OnOk result (session.new.pending.counts.beside ≡ status.Refused)) }
    ensures kept { IfErr source.entry (λ why.
        OnErr result (session.new.pending ≡ session.old.pending)) }
{
    match source {
        Ok(change) => change_in_place(session, &change, copying.keeping),
        Err(why) => session.refuse_beside(copying.from, &why),
    }
}
