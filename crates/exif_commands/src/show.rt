//! The report of a file, under a line with its name.

ghost use Rattle.std.specs.Prelude.{◌≡◌, ◌+◌, ◌-◌, ◌^◌, Err, IfErr, IfOk, IfSome, None, Ok, min};
ghost use Rattle.exif_session.specs.declared.session.Stop.TheVariants.{Output};
ghost use Rattle.exif_reader.specs.Found.{counted_in};
ghost use Rattle.exif_commands.specs.Reads.{answer_read, outcome_reported};

use crate::reads::{answer_of, read_opened};
use crate::values::{file_values, held_values};
use exif::{Counted, Error, Sink};
use exif_base::send_all;
use exif_decisions::{Escaped, Outcome};
use exif_formats::Picture;
use exif_inputs::{Lines, open};
use exif_reader::report::{found_of, write_all};
use exif_session::{Reading, Session, Stop};
use exif_show_text::{FaultLine, lines_of};
use exif_values::{Fault, Values, read_fields};
use std::alloc::Global;
use std::io;

/// Writes the report of a file, and answers its status.
pub fn show_file<W: Sink, E: Sink>(
    session: &mut Session<'_, '_, W, E>,
    reading: Reading,
    path: &str,
) -> Result<Outcome, Stop>
    ensures pending { session.new.pending ≡ session.old.pending }
{
    let Shown { answer, faults } = show(session.rt, reading, path, session.out)?;
    say_faults(session, path, faults.as_slice())?;
    end_report(session, path, with_faults(answer, faults.len()))
}

// What was shown of a file: how many faults were skipped in its Exif data, or why it was refused,
// and what was not read of its XMP and IPTC values.
#[derive(Drop)]
struct Shown {
    answer: Result<u64, Error>,
    faults: Vec<Fault>,
}

// Reports what was not read of XMP and IPTC values.
fn say_faults<W: Sink, E: Sink>(
    session: &mut Session<'_, '_, W, E>,
    path: &str,
    faults: &[Fault],
) -> Result<(), Stop>
    ensures { session.new.pending ≡ session.old.pending }
{
    for fault in faults {
        session.say(path, &FaultLine(*fault))?;
    }
    Ok(())
}

// How many faults were skipped, with so many more.
fn with_faults(answer: Result<u64, Error>, more: usize) -> Result<u64, Error>
    ensures ok { IfOk answer.entry (λ count. IfOk result (λ all.
        all ≡ min (count + more) (2 ^ 64 - 1))) }
    ensures err { IfErr answer.entry (λ e. result ≡ Err e) }
{
    match answer {
        Ok(count) => Ok(count.saturating_add(more as u64)),
        Err(error) => Err(error),
    }
}

// What is counted of a file by its report: how many faults were skipped, or why it was refused.
fn end_report<W: Sink, E: Sink>(
    session: &mut Session<'_, '_, W, E>,
    path: &str,
    shown: Result<u64, Error>,
) -> Result<Outcome, Stop>
    ensures outcome { IfOk result (λ outcome. outcome ≡ outcome_reported shown.entry) }
    ensures pending { session.new.pending ≡ session.old.pending }
{
    match shown {
        Ok(faults) => Ok(Outcome::of_done(faults == 0)),
        Err(error) => session.refuse(path, &error),
    }
}

// Writes the report of a file under a line with its name, and behind it a line for each XMP
// property and each IPTC dataset.
fn show<W: Sink>(
    rt: &HostRuntime,
    reading: Reading,
    path: &str,
    out: &mut W,
) -> Result<Shown, Stop> {
    let alloc = rt.alloc();
    let name = Escaped(path);
    let line = format!(in alloc; "{name}:\n")?;
    send_all(out, line.as_bytes()).map_err(Stop::Output)?;
    let input = open(rt, path);
    let held = held_values(alloc, &input)?;
    let read = read_opened(alloc, reading.options(), input);
    let mut values = match held {
        Some(values) => values,
        None => file_values(rt, path, &read)?,
    };
    let mut lines = Counted::new(Lines::new(alloc, out, reading.full));
    let result = report_picture(alloc, read, &mut values, &mut lines);
    let text = lines_of(alloc, &values)?;
    let _ = send_all(&mut lines, text.as_bytes());
    let answer = unless_failed(lines.into_inner().failed(), result)?;
    Ok(Shown {
        answer,
        faults: values.faults,
    })
}

// What was answered of a file, unless the output took no more.
fn unless_failed(
    failed: Option<io::Error>,
    answer: Result<u64, Error>,
) -> Result<Result<u64, Error>, Stop>
    ensures whole { failed ≡ None → result ≡ Ok answer.entry }
    ensures stopped { IfSome failed (λ cause. result ≡ Err (Output cause)) }
{
    match failed {
        Some(error) => Err(Stop::Output(error)),
        None => Ok(answer),
    }
}

// The report of a picture of which this was read: how many faults were skipped. Of a picture that
// is refused, nothing is written. The values of its fields are added to others.
fn report_picture<W: Sink>(
    alloc: Global,
    read: Result<Picture, Error>,
    values: &mut Values,
    out: &mut W,
) -> Result<u64, Error>
    ensures count { IfOk result (λ count.
        IfOk (counted_in (answer_read read.entry)) (λ found. count ≡ found.1)) }
    ensures refused { IfErr (counted_in (answer_read read.entry)) (λ e. result ≡ Err e) }
    ensures kept { IfErr (counted_in (answer_read read.entry)) (λ e. out.new ≡ out.old) }
{
    let (exif, faults) = found_of(alloc, answer_of(read))?;
    read_fields(alloc, &exif, values)?;
    write_all(alloc, &exif, faults.as_slice(), out)?;
    Ok(faults.len() as u64)
}
