//! A catalogue that is brought up to date.

ghost use Rattle.std.specs.Prelude.{◌≡◌, [], false, length, IfOk, OnOk, IsErr, IsOk, map, string_bytes};
ghost use Rattle.exif_files.specs.declared.outcome.Status.TheVariants.{Refused};
ghost use Rattle.exif_catalog_commands.specs.Refusals.{report_of};
ghost use Rattle.exif_session.specs.Statuses.{IsStatus};

use crate::gathering::Gathered;
use crate::refusals::report_of;
use exif::Sink;
use exif_catalog::{Move, Totals, Updated, update};
use exif_catalog_file::{CatalogError, RunError};
use exif_gathering::{LastPicture, move_text, reported_moves, reported_totals};
use exif_session::{Cataloguing, Request, Session, Stop, absolute_of};
use std::alloc::{AllocError, Global};

// The paths from the root of the file system on of the names that were given.
fn roots_of(rt: &HostRuntime, paths: &[&str]) -> Result<Vec<String>, AllocError>
    ensures { IfOk result (λ roots. length roots.items ≡ length paths.now) }
{
    let mut roots = Vec::new(rt.alloc());
    for path in paths {
        roots.push(absolute_of(rt, path)?)?;
    }
    Ok(roots)
}

// The texts of strings.
fn texts_of(alloc: Global, strings: &[String]) -> Result<Vec<&str>, AllocError>
    ensures { IfOk result (λ texts. map (λ text. text.now) texts.items
        ≡ map string_bytes strings.now) }
{
    let mut texts = Vec::new(alloc);
    for string in strings {
        texts.push(string.as_str())?;
    }
    Ok(texts)
}

// Brings the rows below roots up to date.
fn update_rows<W: Sink, E: Sink>(
    gathered: &mut Gathered<'_, '_, '_, '_, '_, W, E>,
    roots: &[String],
) -> Result<Updated, RunError<Stop>>
    ensures ended { OnOk result
        (length gathered.new.session.now.pending.waiting.items ≡ 0) }
    ensures moves { gathered.old.cataloguing.now.hash ≡ false
        → IfOk result (λ all. all.moves.items ≡ []) }
    ensures same { gathered.new.session.ghost_name ≡ gathered.old.session.ghost_name }
{
    let rt = gathered.session.rt;
    let names = texts_of(rt.alloc(), roots)?;
    let database = gathered.cataloguing.database;
    update(rt, database, names.as_slice(), gathered)
}

/// Brings a catalogue up to date with the files that are requested. Answers the status of the run,
/// which follows from what was counted: 0, 3 where something was skipped, 1 where a file or the
/// catalogue was refused.
pub fn run_catalog<'r, W: Sink, E: Sink>(
    rt: &'r HostRuntime,
    request: &'r Request<'_>,
    cataloguing: &Cataloguing<'_>,
    shows_progress: bool,
    out: &'r mut W,
    err: &'r mut E,
) -> Result<u8, Stop>
    ensures { IfOk result IsStatus }
{
    let mut session = Session::begin(rt, request, shows_progress, out, err)?;
    update_catalog(&mut session, cataloguing)?;
    session.finish()
}

// Brings a catalogue up to date with the files that are named or found, and counts them.
fn update_catalog<W: Sink, E: Sink>(
    session: &mut Session<'_, '_, W, E>,
    cataloguing: &Cataloguing<'_>,
) -> Result<(), Stop> {
    let roots = roots_of(session.rt, session.request.paths.as_slice())?;
    let updated = update_files(session, cataloguing, roots.as_slice());
    report(session, cataloguing, report_of(updated)?)
}

// Brings the rows up to date with the files.
fn update_files<W: Sink, E: Sink>(
    session: &mut Session<'_, '_, W, E>,
    cataloguing: &Cataloguing<'_>,
    roots: &[String],
) -> Result<Updated, RunError<Stop>>
    ensures moves { cataloguing.now.hash ≡ false
        → IfOk result (λ all. all.moves.items ≡ []) }
{
    let alloc = session.rt.alloc();
    let has_conditions = session.request.choice.is_any();
    let mut gathered = Gathered {
        session,
        cataloguing,
        has_conditions,
        last: LastPicture::new(alloc),
        failed: Vec::new(alloc),
    };
    update_rows(&mut gathered, roots)
}

// Reports what a run did, or why the catalogue was refused, which is counted.
fn report<W: Sink, E: Sink>(
    session: &mut Session<'_, '_, W, E>,
    cataloguing: &Cataloguing<'_>,
    updated: Result<Updated, CatalogError>,
) -> Result<(), Stop>
    ensures done { IsOk updated → session.new.pending ≡ session.old.pending }
    ensures refused { IsErr updated
        → OnOk result (session.new.pending.counts.beside ≡ Refused) }
{
    match updated {
        Ok(updated) => {
            report_moves(session, cataloguing.database, updated.moves.as_slice())?;
            report_totals(session, cataloguing, updated.totals)
        }
        Err(refusal) => session.refuse_beside(cataloguing.database, &refusal),
    }
}

// Reports the files that were moved.
fn report_moves<W: Sink, E: Sink>(
    session: &mut Session<'_, '_, W, E>,
    database: &str,
    moves: &[Move],
) -> Result<(), Stop>
    ensures { session.new.pending ≡ session.old.pending }
{
    for moved in reported_moves(session.request.quiet, moves) {
        session.say(database, &move_text(session.rt.alloc(), moved)?)?;
    }
    Ok(())
}

// Reports what a run did with the rows.
fn report_totals<W: Sink, E: Sink>(
    session: &mut Session<'_, '_, W, E>,
    cataloguing: &Cataloguing<'_>,
    totals: Totals,
) -> Result<(), Stop>
    ensures { session.new.pending ≡ session.old.pending }
{
    let alloc = session.rt.alloc();
    match reported_totals(alloc, session.request.quiet, totals, cataloguing.hash)? {
        Some(text) => session.say(cataloguing.database, &text),
        None => Ok(()),
    }
}
