//! What the program does with its arguments and with its report.

ghost use Rattle.std.specs.Prelude.{◌≡◌, ◌<◌, Bool, length, map, string_bytes, IfErr, IfSome, OnOk};
ghost use Rattle.exif_base.specs.Device.{count_after};
ghost use Rattle.exif_types.specs.Refusals.{is_io, IsInterrupted};
ghost use Rattle.exif_show.specs.Program.{asked_by, Says, SaysWhole, Shows};

use exif_base::{Sink, Source, send_all};
use exif_reader::report::report;
use exif_types::Error;
use std::alloc::Global;

/// What the arguments behind the program's name ask for: whether to pass over faults, and which of
/// them is the file's path. Nothing, where they are no such request.
pub fn mode(arguments: &[String]) -> Option<(bool, usize)>
    ensures asked { result ≡ asked_by (map string_bytes arguments.now) }
    ensures path { IfSome result (λ asked. asked.1 < length arguments.now) }
{
    match arguments {
        [file] if file.as_str() != "-c" => Some((false, 0)),
        [flag, _] if flag.as_str() == "-c" => Some((true, 1)),
        _ => None,
    }
}

/// Writes the report of a file, or an error's text. Answers the status that the program ends with:
/// 0 without faults, 3 with faults that were skipped, 1 with an error.
pub fn show<R: Source, W: Sink, E: Sink>(
    alloc: Global,
    reader: &mut R,
    out: &mut W,
    err: &mut E,
    lenient: bool,
) -> u8
    ensures shows { Shows (R.left reader.old) lenient result
        (W.taken out.old) (W.taken out.new) (E.taken err.old) (E.taken err.new)
        (R.failures reader.old) (R.failures reader.new) (W.failures out.old) (W.failures out.new) }
    ensures said { (failed : Bool) ×
        (E.failures err.new ≡ count_after failed (E.failures err.old)) }
    ensures read_through { R.through reader.new ≡ R.through reader.old }
    ensures written_through { W.through out.new ≡ W.through out.old }
    ensures said_through { E.through err.new ≡ E.through err.old }
{
    match report(alloc, reader, out, lenient) {
        Ok(0) => 0,
        Ok(_) => 3,
        Err(error) => {
            // The status reports the error, whether or not its line comes through.
            let _ = say(alloc, err, &error);
            1
        }
    }
}

/// Sends an error's text, behind the program's name, and flushes. Where memory or the device
/// fails, a front of the line may stand out.
pub fn say<E: Sink>(alloc: Global, err: &mut E, error: &Error) -> Result<(), Error>
    ensures sent { OnOk result (SaysWhole error.now (E.taken err.old) (E.taken err.new)) }
    ensures front { Says error.now (E.taken err.old) (E.taken err.new) }
    ensures interrupted { IfErr result IsInterrupted }
    ensures count { E.failures err.new ≡ count_after (is_io result) (E.failures err.old) }
    ensures same { E.through err.new ≡ E.through err.old }
{
    let line = format!(in alloc; "exif_show: {error}\n")?;
    send_all(err, line.as_bytes())?;
    err.flush()?;
    Ok(())
}
