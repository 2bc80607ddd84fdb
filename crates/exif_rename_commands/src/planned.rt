//! What becomes of the files of each stem: they get a new name, or an earlier run began to give it,
//! or they are there already.

ghost use Rattle.std.specs.Prelude.{◌≡◌, ◌+◌, ◌==◌, IfOk, false, is_some, length, not};
ghost use Rattle.exif_rename.specs.RenameRequests.{wanted_of};
ghost use Rattle.exif_rename_commands.specs.Members.{looks_there, there_outcome};
ghost use Rattle.exif_rename_commands.specs.Planned.{IsFate};

use crate::members::{is_there_said, looks_there, there_outcome};
use crate::present::{Numbered, There, find_begun, find_there};
use crate::stems::Stem;
use exif::Sink;
use exif_decisions::{Escaped, Outcome};
use exif_rename::{Move, RenameRequest};
use exif_session::{Renaming, Session, Stop};
use std::alloc::AllocError;

/// The files that are to be planned, and those whose moves an earlier run began.
#[derive(Drop)]
pub struct Planned {
    /// The names that are to be planned.
    pub requests: Vec<RenameRequest>,
    /// The path of the first picture of each, as it was named or found.
    pub paths: Vec<String>,
    /// What an earlier run began.
    pub begun: Vec<Begun>,
}

/// The files of one stem whose moves an earlier run began, before it was cut off.
#[derive(Drop)]
pub struct Begun {
    /// The path of the first picture, as it was named or found.
    pub path: String,
    /// The moves of all its files.
    pub moves: Vec<Move>,
}

// What becomes of the files of a stem.
#[derive(Drop)]
enum Fate {
    // their new name is planned
    Plan,
    // these moves are finished
    Finish(Vec<Move>),
    // they are left and reported
    Leave(There),
}

// What becomes of the files of a stem: what an earlier run began to move is finished, and what is
// there already is left where it was to be copied, or to be moved to another folder.
fn fate_of(
    rt: &HostRuntime,
    numbered: &mut Numbered,
    renaming: &Renaming<'_>,
    stem: &Stem,
) -> Result<Fate, AllocError>
    ensures { IfOk result (IsFate renaming.now.copy (is_some renaming.now.into)
        stem.now.sidecars (wanted_of stem.now.request)) }
{
    if !renaming.copy {
        if let Some(moves) = find_begun(rt, numbered, &stem.request, stem.sidecars)? {
            return Ok(Fate::Finish(moves));
        }
    }
    if looks_there(renaming.copy, renaming.into.is_some()) {
        if let Some(there) = find_there(rt, numbered, &stem.request, stem.sidecars)? {
            return Ok(Fate::Leave(there));
        }
    }
    Ok(Fate::Plan)
}

/// The files that are to be planned: not those whose moves an earlier run began, which are to be
/// finished; and not those of which another folder, or a copy, has the bytes by one of their new
/// names already, which are left, reported and counted.
pub fn leave_there<W: Sink, E: Sink>(
    session: &mut Session<'_, '_, W, E>,
    renaming: &Renaming<'_>,
    stems: Vec<Stem>,
) -> Result<Planned, Stop>
    ensures paths { IfOk result (λ planned.
        length planned.paths.items ≡ length planned.requests.items) }
    ensures all { looks_there renaming.now.copy (is_some renaming.now.into) ≡ false
        → IfOk result (λ planned. length planned.requests.items + length planned.begun.items
        ≡ length stems.items) }
    ensures waiting { session.new.pending.waiting ≡ session.old.pending.waiting }
    ensures beside { session.new.pending.counts.beside ≡ session.old.pending.counts.beside }
{
    let alloc = session.rt.alloc();
    let mut numbered = Numbered::new(alloc);
    let mut planned = Planned {
        requests: Vec::new(alloc),
        paths: Vec::new(alloc),
        begun: Vec::new(alloc),
    };
    for stem in stems {
        match fate_of(session.rt, &mut numbered, renaming, &stem)? {
            Fate::Plan => {
                planned.requests.push(stem.request)?;
                planned.paths.push(stem.path)?;
            }
            Fate::Finish(moves) => {
                let path = stem.path;
                planned.begun.push(Begun { path, moves })?;
            }
            Fate::Leave(there) => {
                let outcome = report_there(session, renaming.copy, stem.path.as_str(), &there)?;
                session.count(outcome);
            }
        }
    }
    Ok(planned)
}

// Reports that the files of a stem are there already. All is done where they were to be copied and
// each is there; a file that was to be moved, and a sidecar that differs, stays where it is.
fn report_there<W: Sink, E: Sink>(
    session: &mut Session<'_, '_, W, E>,
    copy: bool,
    path: &str,
    there: &There,
) -> Result<Outcome, Stop>
    ensures outcome { IfOk result (λ outcome. outcome
        ≡ there_outcome copy (not (length there.now.differing.items == 0))) }
    ensures pending { session.new.pending ≡ session.old.pending }
{
    let alloc = session.rt.alloc();
    let to = Escaped(there.to.as_str());
    let what = format!(in alloc; "already there: {to}")?;
    if is_there_said(copy, session.request.quiet) {
        session.say(path, &what)?;
    }
    for sidecar in there.differing.iter() {
        let to = Escaped(sidecar.to.as_str());
        let what = format!(in alloc;
            "left, as its picture is there already; it differs from {to}"
        )?;
        session.say(sidecar.from.as_str(), &what)?;
    }
    Ok(there_outcome(copy, !there.differing.is_empty()))
}
