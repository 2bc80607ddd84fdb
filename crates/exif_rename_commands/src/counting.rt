//! Files that are refused are counted.

ghost use Rattle.std.specs.Prelude.{◌≡◌, OnErr, OnOk};
ghost use Rattle.exif_decisions.specs.Tallies.{counted};
ghost use Rattle.exif_decisions.specs.declared.outcome.Outcome.TheVariants.{Refused};
ghost use Rattle.exif_inputs.specs.Pending.{with_counts};

use exif::Sink;
use exif_session::{Session, Stop};
use std::fmt::Display;

/// Reports why a file was refused, and counts it.
pub fn refuse<W: Sink, E: Sink, T: Display>(
    session: &mut Session<'_, '_, W, E>,
    path: &str,
    cause: &T,
) -> Result<(), Stop>
    ensures counted { OnOk result (session.new.pending
        ≡ with_counts (counted Refused session.old.pending.counts) session.old.pending) }
    ensures kept { OnErr result (session.new.pending ≡ session.old.pending) }
{
    let outcome = session.refuse(path, cause)?;
    session.count(outcome);
    Ok(())
}
