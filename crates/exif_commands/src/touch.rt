//! File times, by when pictures were taken.

ghost use Rattle.std.specs.Prelude.{◌≡◌, ◌*◌, IfOk, None, Ok, codes, false, is_some, option_map};
ghost use Rattle.std.specs.Time.{system_time_nanos};
ghost use Rattle.exif_decisions.specs.declared.outcome.Outcome.TheVariants.{Refused};
ghost use Rattle.exif_geotag.specs.UnixTimes.{unix_time_in};
ghost use Rattle.exif_summary.specs.Choices.{fields_in};
ghost use Rattle.exif_commands.specs.Times.{outcome_touched};

use exif::{Error, Exif, Sink};
use exif_decisions::Outcome;
use exif_geotag::unix_time_of_picture;
use exif_inputs::exif_if_any;
use exif_session::{Session, Stop};
use std::fs::File;
use std::io;
use std::time::{Duration, SystemTime};

/// Sets the modification time of a file to when its picture was taken, and answers its status.
/// `zone` is the offset from UTC of pictures that name none. A file is left, and reported, where
/// that time is not known or before 1970.
pub fn touch_file<W: Sink, E: Sink>(
    session: &mut Session<'_, '_, W, E>,
    zone: &str,
    path: &str,
) -> Result<Outcome, Stop>
    ensures input { path.now ≡ codes "-" → IfOk result (λ outcome. outcome ≡ Refused) }
    ensures pending { session.new.pending ≡ session.old.pending }
{
    if path == "-" {
        return session.refuse(path, &"standard input has no name");
    }
    let touched = touch(session.rt, zone, path);
    end_touch(session, path, touched)
}

// What is counted of a file whose time was set, or not: a picture without a time is left.
fn end_touch<W: Sink, E: Sink>(
    session: &mut Session<'_, '_, W, E>,
    path: &str,
    touched: Result<bool, Error>,
) -> Result<Outcome, Stop>
    ensures outcome { IfOk result (λ outcome. outcome ≡ outcome_touched touched.entry) }
    ensures pending { session.new.pending ≡ session.old.pending }
{
    match touched {
        Ok(true) => Ok(Outcome::Done),
        Ok(false) => {
            let why = "modification time unchanged: it has no date, or one before 1970";
            session.leave(path, &why)
        }
        Err(error) => session.refuse(path, &error),
    }
}

// Sets the time of a file; whether it is known.
fn touch(rt: &HostRuntime, zone: &str, path: &str) -> Result<bool, Error> {
    let exif = exif_if_any(rt, path)?;
    set_if_known(rt, path, system_time_of(exif.as_ref(), zone))
}

// Sets the time of a file to this one, if it is known; whether it is.
fn set_if_known(rt: &HostRuntime, path: &str, time: Option<SystemTime>) -> Result<bool, Error>
    ensures unknown { time ≡ None → result ≡ Ok false }
    ensures set { IfOk result (λ is_set. is_set ≡ is_some time) }
{
    let Some(time) = time else {
        return Ok(false);
    };
    match set_time(rt, path, time) {
        Ok(()) => Ok(true),
        Err(cause) => Err(Error::Io(cause)),
    }
}

fn set_time(rt: &HostRuntime, path: &str, time: SystemTime) -> io::Result<()> {
    File::open(rt, path)?.set_modified(time)
}

// When a picture was taken, as the system counts it.
fn system_time_of(exif: Option<&Exif>, zone: &str) -> Option<SystemTime>
    ensures { option_map system_time_nanos result
        ≡ option_map (λ millis. millis * 1_000_000) (unix_time_in (fields_in exif.entry) zone.now) }
{
    let since_1970 = Duration::from_millis(unix_time_of_picture(exif, zone.as_bytes())?);
    SystemTime::UNIX_EPOCH.checked_add(since_1970)
}
