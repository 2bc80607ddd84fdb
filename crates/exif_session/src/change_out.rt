//! A changed file that is written to another one.

ghost use Rattle.std.specs.Prelude.{◌≡◌, ◌==◌, IfErr, IfOk, OnErr, OnOk, false, length};
ghost use Rattle.exif_decisions.specs.Outcomes.{outcome_for};
ghost use Rattle.exif_decisions.specs.Tallies.{counted};
ghost use Rattle.exif_decisions.specs.declared.outcome.Outcome.{Outcome};
ghost use Rattle.exif_decisions.specs.declared.outcome.Outcome.TheVariants.{Refused};
ghost use Rattle.exif_inputs.specs.Pending.{with_counts};
ghost use Rattle.exif_session.specs.Tasks.{is_change};

use crate::change::{change_bytes, notes_of};
use crate::notes::NoteLine;
use crate::output::{OutError, out_of, write_out};
use crate::request::{Change, Task};
use crate::session::{Session, Stop};
use exif::Sink;
use exif_change::{Refusal, Residual, Together, together_len};
use exif_decisions::Outcome;
use exif_inputs::read_file;

/// Writes a changed file to OUT, and answers its status. It counts nothing.
pub fn change_into<W: Sink, E: Sink>(
    session: &mut Session<'_, '_, W, E>,
    what: &Change<'_>,
    path: &str,
    to: &str,
    force: bool,
) -> Result<Outcome, Stop>
    ensures { session.new.pending ≡ session.old.pending }
{
    let rt = session.rt;
    let destination = match out_of(rt, path, to, force)? {
        Ok(destination) => destination,
        Err(OutError::Same) => {
            return session.refuse(path, &"input and output are the same file; use --in-place");
        }
        Err(error) => return session.refuse(path, &error),
    };
    let old = match read_file(rt, path) {
        Ok(old) => old,
        Err(error) => return session.refuse(path, &error),
    };
    let new = match change_bytes(rt.alloc(), what, old.as_slice()) {
        Ok(new) => new,
        Err(Refusal::OutOfMemory) => return Err(Stop::OutOfMemory),
        Err(refusal) => return session.refuse(path, &refusal),
    };
    let written = write_out(rt, to, destination, new.file.as_slice(), session.out)?;
    match end_into(session, path, new.left.as_slice(), written)? {
        Outcome::Refused => Ok(Outcome::Refused),
        outcome => {
            say_notes(session, what, path, old.as_slice())?;
            Ok(outcome)
        }
    }
}

// Reports what was left undone in a changed file, or why it was not written.
fn end_into<W: Sink, E: Sink>(
    session: &mut Session<'_, '_, W, E>,
    path: &str,
    left: &[Residual],
    written: Result<(), OutError>,
) -> Result<Outcome, Stop>
    ensures done { IfOk written (λ t. IfOk result (λ outcome.
        outcome ≡ outcome_for (length left.now == 0))) }
    ensures refused { IfErr written (λ error. IfOk result (λ outcome. outcome ≡ Refused)) }
    ensures pending { session.new.pending ≡ session.old.pending }
{
    if let Err(error) = written {
        return session.refuse(path, &error);
    }
    let mut rest = left;
    while !rest.is_empty() {
        let count = together_len(rest);
        let more = count - 1;
        let first = &rest[0];
        let line = Together { first, more };
        let said = session.say(path, &line);
        let Together {
            first: _first,
            more: _more,
        } = line;
        said?;
        rest = rest.get(count..).unwrap_or(&[]);
    }
    Ok(Outcome::of_done(left.is_empty()))
}

// Writes the notes on a change of these bytes.
fn say_notes<W: Sink, E: Sink>(
    session: &mut Session<'_, '_, W, E>,
    what: &Change<'_>,
    path: &str,
    old: &[u8],
) -> Result<(), Stop>
    ensures { session.new.pending ≡ session.old.pending }
{
    if session.request.quiet {
        return Ok(());
    }
    for note in notes_of(session.rt.alloc(), what, old)? {
        session.say(path, &NoteLine(note))?;
    }
    Ok(())
}

/// Changes standard input into standard output, and counts it.
pub fn change_input<W: Sink, E: Sink>(session: &mut Session<'_, '_, W, E>) -> Result<(), Stop>
    ensures counted { OnOk result ((outcome : Outcome) × (session.new.pending
        ≡ with_counts (counted outcome session.old.pending.counts) session.old.pending)) }
    ensures refused { is_change session.old.request.now.task ≡ false → OnOk result
        (session.new.pending
        ≡ with_counts (counted Refused session.old.pending.counts) session.old.pending) }
    ensures kept { OnErr result (session.new.pending ≡ session.old.pending) }
{
    let request = session.request;
    let outcome = match &request.task {
        Task::Change(what, _) => change_into(session, what, "-", "-", false)?,
        _ => session.refuse("-", &"standard input has no name")?,
    };
    session.count(outcome);
    Ok(())
}
