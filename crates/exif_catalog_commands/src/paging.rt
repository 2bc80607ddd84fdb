//! A page with the pictures of a catalogue, written to a file.

ghost use Rattle.std.specs.Prelude.{◌≡◌, IfOk};
ghost use Rattle.exif_files.specs.Statuses.{code};
ghost use Rattle.exif_files.specs.declared.outcome.Status.TheVariants.{Refused};
ghost use Rattle.exif_session.specs.Statuses.{IsStatus};

use crate::refusals::refusal_of;
use exif::Sink;
use exif_catalog_file::RunError;
use exif_files::{Status, folder_of};
use exif_gathering::page_of;
use exif_inputs::Console;
use exif_session::{Paging, Stop, absolute_of, out_of, write_out};

/// Writes a page with the pictures of a catalogue to OUT, and answers the status: 0, 3 where a
/// picture could not be read for its thumbnail, or 1 where there is no page. It takes twice the
/// memory of the page.
pub fn write_page<W: Sink, E: Sink>(
    rt: &HostRuntime,
    paging: &Paging<'_>,
    out: &mut W,
    err: &mut E,
) -> Result<u8, Stop>
    ensures { IfOk result IsStatus }
{
    let mut console = Console::new(rt, err, false);
    let destination = match out_of(rt, paging.database, paging.to, paging.force)? {
        Ok(destination) => destination,
        Err(error) => return Ok(refused(&mut console, paging, &error)),
    };
    let folder = absolute_of(rt, folder_of(paging.to))?;
    let (html, worst) = match page_of(rt, paging.database, folder, &mut console) {
        Ok(page) => page,
        Err(error) => {
            let refusal = refusal_of(RunError::Catalog(error))?;
            return Ok(refused(&mut console, paging, &refusal));
        }
    };
    let written = write_out(rt, paging.to, destination, html.as_slice(), out)?;
    out.flush().map_err(Stop::Output)?;
    match written {
        Ok(()) => Ok(worst.code()),
        Err(error) => Ok(refused(&mut console, paging, &error)),
    }
}

// Reports why there is no page, and answers the status.
fn refused<E: Sink, T: std::fmt::Display>(
    console: &mut Console<'_, E>,
    paging: &Paging<'_>,
    cause: &T,
) -> u8
    ensures { result ≡ code Refused }
{
    console.say(paging.database, cause);
    Status::Refused.code()
}
