//! Thumbnails that are written to files.

ghost use Rattle.std.specs.Prelude.{◌≡◌, Err, IfErr, IfOk, OnOk, length, string_bytes};
ghost use Rattle.exif_change.specs.Refusals.{Answers};
ghost use Rattle.exif_change.specs.declared.refusal.Refusal.TheVariants as refusal;
ghost use Rattle.exif_decisions.specs.Paths.{name_of};
ghost use Rattle.exif_decisions.specs.declared.outcome.Outcome.TheVariants.{Refused};
ghost use Rattle.exif_inputs.specs.Thumbnails.{jpeg_of};
ghost use Rattle.exif_inputs.specs.Requested.{in_folder};
ghost use Rattle.exif_session.specs.declared.session.Stop.TheVariants as stop;
ghost use Rattle.exif_commands.specs.Thumbs.{jpeg_refusal, outcome_out};

use exif::{Error, Sink};
use exif_change::Refusal;
use exif_decisions::{Outcome, name_of};
use exif_inputs::{in_folder, jpeg_of, thumbnail_of};
use exif_rename::give_unused;
use exif_session::{Item, OutError, Session, Stop, out_of, write_out};
use exif_thumbnails::Thumbnail;
use std::alloc::{AllocError, Global};
use std::collections::BTreeSet;
use std::fs;

/// Writes the thumbnail of a picture to OUT, and answers the picture's status.
pub fn write_thumbnail<W: Sink, E: Sink>(
    session: &mut Session<'_, '_, W, E>,
    path: &str,
    to: &str,
    force: bool,
) -> Result<Outcome, Stop>
    ensures pending { session.new.pending ≡ session.old.pending }
{
    match jpeg_in(thumbnail_of(session.rt, path)) {
        Ok(jpeg) => write_jpeg(session, path, jpeg.as_slice(), to, force),
        Err(refusal) => refuse(session, path, refusal),
    }
}

/// Writes the thumbnail of each picture that is named or found into a folder, which is made if it
/// is not there, and counts the pictures. No two of them get one name.
pub fn write_thumbnails<W: Sink, E: Sink>(
    session: &mut Session<'_, '_, W, E>,
    folder: &str,
    force: bool,
) -> Result<(), Stop>
    ensures { OnOk result (length session.new.pending.waiting.items ≡ 0) }
{
    // where it can't be made, no thumbnail can be written, and that is reported
    let _ = fs::create_dir_all(session.rt, folder);
    let mut given = BTreeSet::new(session.rt.alloc());
    for _ in 0..u64::MAX {
        let outcome = match session.next_item()? {
            None => return Ok(()),
            Some(Item::Input) => write_into(session, &mut given, "-", folder, force)?,
            Some(Item::File(path)) => {
                write_into(session, &mut given, path.as_str(), folder, force)?
            }
        };
        session.count(outcome);
        session.console.step(session.pending.len());
    }
    Err(Stop::OutOfMemory)
}

// Writes the thumbnail of a picture into a folder, to a file that no other picture of the run got.
fn write_into<W: Sink, E: Sink>(
    session: &mut Session<'_, '_, W, E>,
    given: &mut BTreeSet<String>,
    path: &str,
    folder: &str,
    force: bool,
) -> Result<Outcome, Stop>
    ensures pending { session.new.pending ≡ session.old.pending }
{
    let jpeg = match jpeg_in(thumbnail_of(session.rt, path)) {
        Ok(jpeg) => jpeg,
        Err(refusal) => return refuse(session, path, refusal),
    };
    let alloc = session.rt.alloc();
    let base = base_in(alloc, folder, path)?;
    match give_unused(alloc, given, base.as_str(), ".jpg")? {
        Some(to) => write_jpeg(session, path, jpeg.as_slice(), to.as_str(), force),
        None => session.refuse(path, &"too many pictures have its name"),
    }
}

// Reports why a picture's thumbnail is not written, unless memory ran out.
fn refuse<W: Sink, E: Sink>(
    session: &mut Session<'_, '_, W, E>,
    path: &str,
    why: Refusal,
) -> Result<Outcome, Stop>
    ensures memory { why ≡ refusal.OutOfMemory → result ≡ Err stop.OutOfMemory }
    ensures outcome { IfOk result (λ outcome. outcome ≡ Refused) }
    ensures pending { session.new.pending ≡ session.old.pending }
{
    match why {
        Refusal::OutOfMemory => Err(Stop::OutOfMemory),
        why => session.refuse(path, &why),
    }
}

// Writes a thumbnail to OUT, and answers the picture's status.
fn write_jpeg<W: Sink, E: Sink>(
    session: &mut Session<'_, '_, W, E>,
    path: &str,
    jpeg: &[u8],
    to: &str,
    force: bool,
) -> Result<Outcome, Stop>
    ensures pending { session.new.pending ≡ session.old.pending }
{
    let destination = match out_of(session.rt, path, to, force)? {
        Ok(destination) => destination,
        Err(error) => return session.refuse(path, &error),
    };
    let written = write_out(session.rt, to, destination, jpeg, session.out)?;
    end_out(session, path, written)
}

// What is counted of a picture whose thumbnail was written, or why it was not.
fn end_out<W: Sink, E: Sink>(
    session: &mut Session<'_, '_, W, E>,
    path: &str,
    written: Result<(), OutError>,
) -> Result<Outcome, Stop>
    ensures outcome { IfOk result (λ outcome. outcome ≡ outcome_out written) }
    ensures pending { session.new.pending ≡ session.old.pending }
{
    match written {
        Ok(()) => Ok(Outcome::Done),
        Err(error) => session.refuse(path, &error),
    }
}

// The bytes of a thumbnail that was found, or why there are none.
fn jpeg_in(found: Result<Option<Thumbnail>, Error>) -> Result<Vec<u8>, Refusal>
    ensures found { IfOk found.entry (λ found.
        Answers (λ jpeg. jpeg.items) result (jpeg_of found)) }
    ensures unread { IfErr found.entry (λ e. result ≡ Err (jpeg_refusal e)) }
{
    match found {
        Ok(found) => jpeg_of(found),
        Err(Error::OutOfMemory) => Err(Refusal::OutOfMemory),
        Err(error) => Err(Refusal::Reading(error)),
    }
}

// The path in a folder of a picture's thumbnail, without its ending: with the picture's whole name,
// so that the thumbnails of `a.png` and `a.heic` are two.
fn base_in(alloc: Global, folder: &str, path: &str) -> Result<String, AllocError>
    ensures { IfOk result (λ text. string_bytes text ≡ in_folder folder.now (name_of path.now)) }
{
    in_folder(alloc, folder, name_of(path))
}
