//! Pictures that get their location from the track of a GPS receiver.

ghost use Rattle.std.specs.Prelude.{◌≡◌, Err, IfErr, IfOk, None, Ok, OnErr, OnOk, is_some, length, true};
ghost use Rattle.exif_decisions.specs.declared.outcome.Outcome.TheVariants.{Refused, Unchanged};
ghost use Rattle.exif_files.specs.declared.changing.Failure.TheVariants as failure;
ghost use Rattle.exif_files.specs.declared.outcome.Status.TheVariants as status;
ghost use Rattle.exif_geotag.specs.Faults.{cut_fault, skipped_fault};
ghost use Rattle.exif_geotag.specs.Spots.{spot_in};
ghost use Rattle.exif_geotag.specs.Walks.{track_of};
ghost use Rattle.exif_session.specs.declared.session.Stop.TheVariants as stop;
ghost use Rattle.exif_summary.specs.Choices.{fields_in};
ghost use Rattle.exif_types.specs.declared.error.Error.TheVariants as error;
ghost use Rattle.exif_commands.specs.Tracks.{IsLocatedBy, beside_with, outcome_changed, track_answer, track_if};
ghost use Rattle.exif_commands.specs.declared.geotag.NoTrack.TheVariants.{Unread};

use exif::{Error, Exif, Sink, Tag};
use exif_change::{Note, Refusal};
use exif_decisions::Outcome;
use exif_files::{Failure, HostFiles, Report, Status, change};
use exif_geotag::{
    Relocation, Spot, Track, TrackError, TrackFault, Unfinished, Unlocated, spot_of_picture,
};
use exif_inputs::{exif_if_any, read_file};
use exif_session::{Geotagging, NotChanged, Plan, Session, Stop, outcome_of};
use std::alloc::{AllocError, Global};
use std::io;

// The location of a picture and its time, and which of its fields are of an old one.
#[derive(Drop)]
struct Located {
    spot: Spot,
    stale: Vec<Tag>,
}

// Why there is no track.
#[derive(Drop)]
enum NoTrack {
    // its file can't be read
    Unread(io::Error),
    // the file is none
    Refused(TrackError),
}

/// Sets the location of each file that is named or found, in place, by a track, and counts it. A file without a date, or of a time at which the track was nowhere, is left and
/// reported, and one that has a location unless that is to be replaced; so are points of the track
/// without a time or a location, and that it is cut off.
pub fn geotag_files<W: Sink, E: Sink>(
    session: &mut Session<'_, '_, W, E>,
    geotagging: &Geotagging<'_>,
) -> Result<(), Stop> {
    let bytes = read_file(session.rt, geotagging.track);
    let track = track_in(session.rt.alloc(), bytes)?;
    let track = report_track(session, geotagging.track, track)?;
    geotag_all(session, geotagging, &track)
}

// The track in a file of which this was read, or why there is none.
fn track_in(alloc: Global, bytes: io::Result<Vec<u8>>) -> Result<Result<Track, NoTrack>, AllocError>
    ensures read { IfOk bytes (λ bytes. IfOk result (λ track.
        track ≡ track_answer (track_of bytes.items))) }
    ensures unread { IfErr bytes (λ cause. IfOk result (λ track. track ≡ Err (Unread cause))) }
{
    let bytes = match bytes {
        Ok(bytes) => bytes,
        Err(cause) => return Ok(Err(NoTrack::Unread(cause))),
    };
    match Track::read(alloc, bytes.as_slice())? {
        Ok(track) => Ok(Ok(track)),
        Err(error) => Ok(Err(NoTrack::Refused(error))),
    }
}

// The track, if there is one. What is wrong with it is reported and counted beside the files.
fn report_track<W: Sink, E: Sink>(
    session: &mut Session<'_, '_, W, E>,
    path: &str,
    track: Result<Track, NoTrack>,
) -> Result<Option<Track>, Stop>
    ensures track { IfOk result (λ found. found ≡ track_if track) }
    ensures faults { IfOk track (λ track. OnOk result (session.new.pending.counts.beside
        ≡ beside_with (cut_fault track.points track.cut_off)
        (beside_with (skipped_fault track.skipped) session.old.pending.counts.beside))) }
    ensures refused { IfErr track (λ why.
        OnOk result (session.new.pending.counts.beside ≡ status.Refused)) }
{
    match track {
        Ok(track) => {
            report_fault(session, path, track.skipped_fault())?;
            report_fault(session, path, track.cut_fault())?;
            Ok(Some(track))
        }
        Err(NoTrack::Unread(cause)) => {
            session.refuse_beside(path, &cause)?;
            Ok(None)
        }
        Err(NoTrack::Refused(error)) => {
            session.refuse_beside(path, &error)?;
            Ok(None)
        }
    }
}

// Reports and counts what a track lacks.
fn report_fault<W: Sink, E: Sink>(
    session: &mut Session<'_, '_, W, E>,
    path: &str,
    fault: Option<TrackFault>,
) -> Result<(), Stop>
    ensures beside { OnOk result (session.new.pending.counts.beside
        ≡ beside_with fault session.old.pending.counts.beside) }
    ensures none { fault ≡ None → result ≡ Ok tt }
    ensures whole { fault ≡ None → session.new ≡ session.old }
    ensures kept { OnErr result (session.new.pending ≡ session.old.pending) }
{
    match fault {
        Some(fault) => {
            session.say(path, &fault)?;
            session.count_beside(Status::Incomplete);
            Ok(())
        }
        None => Ok(()),
    }
}

// Sets the location of all files by a track, if there is one; else no file is looked at.
fn geotag_all<W: Sink, E: Sink>(
    session: &mut Session<'_, '_, W, E>,
    geotagging: &Geotagging<'_>,
    track: &Option<Track>,
) -> Result<(), Stop>
    ensures none { track.now ≡ None → result ≡ Ok tt }
    ensures kept { track.now ≡ None → session.new ≡ session.old }
    ensures all { is_some track.now ≡ true
        → OnOk result (length session.new.pending.waiting.items ≡ 0) }
{
    match track {
        Some(track) => geotag_planned(session, geotagging, track),
        None => Ok(()),
    }
}

// Sets the location of all files by a track.
fn geotag_planned<W: Sink, E: Sink>(
    session: &mut Session<'_, '_, W, E>,
    geotagging: &Geotagging<'_>,
    track: &Track,
) -> Result<(), Stop>
    ensures { OnOk result (length session.new.pending.waiting.items ≡ 0) }
{
    let plan = Plan::gather(session)?;
    for (path, key) in plan.paths.iter().zip(plan.keys.iter()) {
        let outcome = geotag_file(session, geotagging, track, path.as_str(), key.as_str())?;
        session.count(outcome);
    }
    Ok(())
}

// Sets the location of a file, if it is known.
fn geotag_file<W: Sink, E: Sink>(
    session: &mut Session<'_, '_, W, E>,
    geotagging: &Geotagging<'_>,
    track: &Track,
    path: &str,
    key: &str,
) -> Result<Outcome, Stop>
    ensures pending { session.new.pending ≡ session.old.pending }
{
    let located = location_of_file(session.rt, geotagging, track, key);
    geotag_located(session, geotagging, located, path, key)
}

// The same of a file whose location this is. One without a location is left, and one that can't be
// read is refused.
fn geotag_located<W: Sink, E: Sink>(
    session: &mut Session<'_, '_, W, E>,
    geotagging: &Geotagging<'_>,
    located: Result<Result<Located, Unlocated>, Error>,
    path: &str,
    key: &str,
) -> Result<Outcome, Stop>
    ensures left { IfOk located.entry (λ located. IfErr located (λ why.
        IfOk result (λ outcome. outcome ≡ Unchanged))) }
    ensures refused { IfErr located.entry (λ e. IfOk result (λ outcome. outcome ≡ Refused)) }
    ensures memory { located.entry ≡ Err error.OutOfMemory → result ≡ Err stop.OutOfMemory }
    ensures pending { session.new.pending ≡ session.old.pending }
{
    match located {
        Ok(Ok(located)) => {
            let outcome = relocate_file(session, geotagging, &located, path, key)?;
            session.console.step(session.pending.len());
            Ok(outcome)
        }
        Ok(Err(why)) => session.leave(path, &why),
        Err(Error::OutOfMemory) => Err(Stop::OutOfMemory),
        Err(error) => session.refuse(path, &error),
    }
}

// Sets the location of a file and its time, and takes out what is of the old one.
fn relocate_file<W: Sink, E: Sink>(
    session: &mut Session<'_, '_, W, E>,
    geotagging: &Geotagging<'_>,
    located: &Located,
    path: &str,
    key: &str,
) -> Result<Outcome, Stop>
    ensures pending { session.new.pending ≡ session.old.pending }
{
    let alloc = session.rt.alloc();
    let fields = located.spot.fields(alloc)?;
    let relocation = Relocation {
        fields: fields.as_slice(),
        stale: located.stale.as_slice(),
    };
    let mut files = HostFiles::new(session.rt);
    let changed = change(alloc, &mut files, &relocation, key, geotagging.keeping);
    end_change(session, path, key, changed)
}

// Reports what was left undone in a file, or why it was not changed.
fn end_change<W: Sink, E: Sink>(
    session: &mut Session<'_, '_, W, E>,
    path: &str,
    key: &str,
    changed: Result<Report<Unfinished, Note>, Failure<Refusal>>,
) -> Result<Outcome, Stop>
    ensures outcome { IfOk result (λ outcome. outcome ≡ outcome_changed changed) }
    ensures memory { changed ≡ Err failure.OutOfMemory → result ≡ Err stop.OutOfMemory }
    ensures pending { session.new.pending ≡ session.old.pending }
{
    let outcome = outcome_of(&changed);
    say_change(session, path, key, changed)?;
    Ok(outcome)
}

// Reports the same. Where memory ran out, the run ends.
fn say_change<W: Sink, E: Sink>(
    session: &mut Session<'_, '_, W, E>,
    path: &str,
    key: &str,
    changed: Result<Report<Unfinished, Note>, Failure<Refusal>>,
) -> Result<(), Stop>
    ensures memory { changed ≡ Err failure.OutOfMemory → result ≡ Err stop.OutOfMemory }
    ensures pending { session.new.pending ≡ session.old.pending }
{
    match changed {
        Ok(report) => say_left(session, path, report.left.as_slice()),
        Err(Failure::OutOfMemory) => Err(Stop::OutOfMemory),
        Err(failure) => session.say(path, &NotChanged { failure, key }),
    }
}

// Reports what was left undone in a file.
fn say_left<W: Sink, E: Sink>(
    session: &mut Session<'_, '_, W, E>,
    path: &str,
    all: &[Unfinished],
) -> Result<(), Stop>
    ensures pending { session.new.pending ≡ session.old.pending }
{
    for left in all {
        session.say(path, left)?;
    }
    Ok(())
}

// The location of a file's picture, or why it gets none; or why it can't be read.
fn location_of_file(
    rt: &HostRuntime,
    geotagging: &Geotagging<'_>,
    track: &Track,
    path: &str,
) -> Result<Result<Located, Unlocated>, Error> {
    let exif = exif_if_any(rt, path)?;
    Ok(location_in(rt.alloc(), geotagging, track, exif.as_ref())?)
}

// The location of a picture with these Exif data and which fields are of an old one, or why it gets
// none.
fn location_in(
    alloc: Global,
    geotagging: &Geotagging<'_>,
    track: &Track,
    exif: Option<&Exif>,
) -> Result<Result<Located, Unlocated>, AllocError>
    ensures { IfOk result (IsLocatedBy (fields_in exif.entry) (spot_in (fields_in exif.entry)
        geotagging.now.zone.now geotagging.now.max_gap geotagging.now.overwrite track.now.points)) }
{
    let spot = spot_of_picture(
        exif,
        geotagging.zone.as_bytes(),
        track,
        geotagging.max_gap,
        geotagging.overwrite,
    );
    match spot {
        Ok(spot) => {
            let stale = spot.stale_tags(alloc, exif)?;
            Ok(Ok(Located { spot, stale }))
        }
        Err(why) => Ok(Err(why)),
    }
}
