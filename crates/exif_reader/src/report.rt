//! The report of a file: a line for each field, and one for each fault that was skipped.

ghost use Rattle.std.specs.Prelude.{◌≡◌, ◌<◌, ◌++◌, All, ℕ, List, OnOk, OnErr, IfOk, IfErr, IfSome, None, Some, Result, Ok, Err};
ghost use Rattle.std.specs.List.{flat_map};
ghost use Rattle.std.specs.Io.KnownBytes.{Appends, Keeps};
ghost use Rattle.exif_base.specs.Device.{CountsBoth, count_after};
ghost use Rattle.exif_base.specs.Sent.{Sends, SendsFront};
ghost use Rattle.std.specs.String.{string_bytes};
ghost use Rattle.exif_types.specs.Failures.{IsInvalidFormat};
ghost use Rattle.exif_types.specs.Refusals.{Refusal, is_io, is_io_error, IsInterrupted};
ghost use Rattle.exif_tiff.specs.Answers.{Answer, raw_answer};
ghost use Rattle.exif_reader.specs.Files.{AnswersOwnData, ReadsByNeed, file_answer};
ghost use Rattle.exif_reader.specs.Found.{contents_of, counted_in, with_count};
ghost use Rattle.exif_reader.specs.Lines.{field_line, error_line};
ghost use Rattle.exif_reader.specs.Writes.{Writes};
ghost use Rattle.exif_reader.specs.Reports.{Finds, FindsOwn, Reports, ReportsSome, given_by};

pub mod lines;

use crate::reader::Reader;
use crate::report::lines::{push_field_line, set_error_line};
use exif_base::{Sink, Source, send_all};
use exif_types::{Error, Exif, Field, fields_left};
use std::alloc::Global;
use std::io;

// How much space there is for lines at first, and how long they get before they are sent.
const ROOM: usize = 1024;

const LONG: usize = 8192;

// Sends lines and leaves none of them, once they are long.
fn send_long<W: Sink>(out: &mut W, lines: &mut String) -> io::Result<()>
    ensures sends { (sent : List ℕ) × Sends W.Sink out.old out.new result sent
        × OnOk result (sent ++ string_bytes lines.new ≡ string_bytes lines.old)
        × OnErr result (sent ≡ string_bytes lines.old) }
{
    if lines.len() < LONG {
        return Ok(());
    }
    send_all(out, lines.as_bytes())?;
    lines.clear();
    Ok(())
}

/// Writes a line for each of the fields, which are those of `exif`.
fn write_fields<W: Sink>(
    alloc: Global,
    exif: &Exif,
    fields: &[Field],
    out: &mut W,
) -> Result<(), Error>
    ensures writes { Writes W.Sink out.old out.new result
        (flat_map (field_line exif.now.fields) fields.now) }
{
    let mut lines = String::with_capacity(alloc, ROOM)?;
    for field in fields {
        push_field_line(&mut lines, exif, field)?;
        send_long(out, &mut lines)?;
    }
    send_all(out, lines.as_bytes())?;
    Ok(())
}

/// Writes a line for each fault.
fn write_errors<W: Sink>(alloc: Global, errors: &[Error], out: &mut W) -> Result<(), Error>
    requires { All IsInvalidFormat errors.now }
    ensures writes { Writes W.Sink out.old out.new result (flat_map error_line errors.now) }
{
    let mut line = String::new(alloc);
    for error in errors {
        set_error_line(&mut line, error)?;
        send_all(out, line.as_bytes())?;
    }
    Ok(())
}

/// The fields that were read, and the faults that were skipped; an error that brings no fields comes
/// back as it is.
pub fn found_of(alloc: Global, answer: Result<Exif, Error>) -> Result<(Exif, Vec<Error>), Error>
    ensures found { with_count result ≡ counted_in answer.entry }
    ensures finds { (expected : List ℕ → Answer) (container : Result (List ℕ) Refusal)
        → ReadsByNeed expected container answer.entry
        → Finds (given_by expected container) result }
    ensures own { (expected : List ℕ → Answer) → AnswersOwnData expected answer.entry
        → FindsOwn expected result }
    ensures invalid { IfOk result (λ found. All IsInvalidFormat found.1.items) }
    ensures io { is_io result ≡ is_io answer.entry }
{
    match answer {
        Ok(exif) => Ok((exif, Vec::new(alloc))),
        Err(error) => match error {
            Error::PartialResult(partial) => Ok(partial.into_inner()),
            other => Err(other),
        },
    }
}

/// The Exif data of a picture of which this was read, if it has some, and how many faults were
/// skipped in them; an error that brings none comes back.
pub fn contents_of(answer: Result<Exif, Error>) -> Result<(Option<Exif>, usize), Error>
    ensures { result ≡ contents_of answer.entry }
{
    match answer {
        Ok(exif) => Ok((Some(exif), 0)),
        Err(Error::PartialResult(partial)) => {
            let (exif, faults) = partial.into_inner();
            Ok((Some(exif), faults.len()))
        }
        Err(Error::NotFound(_)) => Ok((None, 0)),
        Err(error) => Err(error),
    }
}

/// Writes the report of what was read: a line for each field and for each fault, and flushes. Where
/// memory or the writer fails, a front of it may have been sent.
pub fn write_all<W: Sink>(
    alloc: Global,
    exif: &Exif,
    errors: &[Error],
    out: &mut W,
) -> Result<(), Error>
    requires { All IsInvalidFormat errors.now }
    ensures writes { Writes W.Sink out.old out.new result
        (flat_map (field_line exif.now.fields) exif.now.fields ++ flat_map error_line errors.now) }
{
    write_fields(alloc, exif, fields_left(&exif.fields()), out)?;
    write_errors(alloc, errors, out)?;
    out.flush()?;
    Ok(())
}

/// Reports what a reader reads of all the bytes.
fn report_by<R: Source, W: Sink>(
    alloc: Global,
    by: &Reader,
    reader: &mut R,
    out: &mut W,
) -> Result<u64, Error>
    ensures reports { IfSome (R.left reader.old)
        (λ bytes. Reports (file_answer by.now.lenient by.now.limit bytes) result (W.taken out.old)
        (W.taken out.new)) }
    ensures some { ReportsSome (raw_answer by.now.lenient by.now.limit) result (W.taken out.old)
        (W.taken out.new) }
    ensures quiet { R.failures reader.old < R.failures reader.new → Keeps (W.taken out.old)
        (W.taken out.new) }
    ensures count { CountsBoth (R.failures reader.old) (R.failures reader.new) (W.failures out.old)
        (W.failures out.new) (is_io result) }
    ensures read_through { R.through reader.new ≡ R.through reader.old }
    ensures written_through { W.through out.new ≡ W.through out.old }
{
    let (exif, errors) = found_of(alloc, by.read_by_need(alloc, reader))?;
    let faults = errors.as_slice();
    write_all(alloc, &exif, faults, out)?;
    Ok(faults.len() as u64)
}

/// Writes what the Exif data of a picture say (TIFF data, or a JPEG, HEIF or WebP file): one line a
/// field, with its tag, its directory and its value. A lenient report passes over soft faults, and
/// writes one line for each behind the fields. Answers how many faults were skipped.
///
/// Where the file is refused or the reader fails nothing is written. Where memory or the writer
/// fails, a front of the report may have been sent. So it is too where a reader does not know its
/// bytes, as that of a file: what is written is the report of the data that were read.
pub fn report<R: Source, W: Sink>(
    alloc: Global,
    reader: &mut R,
    out: &mut W,
    lenient: bool,
) -> Result<u64, Error>
    ensures reports { IfSome (R.left reader.old)
        (λ bytes. Reports (file_answer lenient None bytes) result (W.taken out.old)
        (W.taken out.new)) }
    ensures some { ReportsSome (raw_answer lenient None) result (W.taken out.old)
        (W.taken out.new) }
    ensures quiet { R.failures reader.old < R.failures reader.new → Keeps (W.taken out.old)
        (W.taken out.new) }
    ensures count { CountsBoth (R.failures reader.old) (R.failures reader.new) (W.failures out.old)
        (W.failures out.new) (is_io result) }
    ensures read_through { R.through reader.new ≡ R.through reader.old }
    ensures written_through { W.through out.new ≡ W.through out.old }
{
    let mut by = Reader::new();
    by.continue_on_error(lenient);
    let count = report_by(alloc, &by, reader, out)?;
    Ok(count)
}

/// The report by a reader that visits at most so many entries.
pub fn report_limited<R: Source, W: Sink>(
    alloc: Global,
    reader: &mut R,
    out: &mut W,
    lenient: bool,
    limit: u64,
) -> Result<u64, Error>
    ensures reports { IfSome (R.left reader.old)
        (λ bytes. Reports (file_answer lenient (Some limit) bytes) result (W.taken out.old)
        (W.taken out.new)) }
    ensures some { ReportsSome (raw_answer lenient (Some limit)) result (W.taken out.old)
        (W.taken out.new) }
    ensures quiet { R.failures reader.old < R.failures reader.new → Keeps (W.taken out.old)
        (W.taken out.new) }
    ensures count { CountsBoth (R.failures reader.old) (R.failures reader.new) (W.failures out.old)
        (W.failures out.new) (is_io result) }
    ensures read_through { R.through reader.new ≡ R.through reader.old }
    ensures written_through { W.through out.new ≡ W.through out.old }
{
    let mut by = Reader::new();
    by.continue_on_error(lenient).limit_entries(limit);
    let count = report_by(alloc, &by, reader, out)?;
    Ok(count)
}
