//! What the parts of a file hold, as lines or as JSON.

ghost use Rattle.std.specs.Prelude.{◌≡◌, ◌<◌, ◌++◌, IfErr, IfOk, OnOk, Err, None, codes, string_bytes};
ghost use Rattle.json.specs.Print.{print};
ghost use Rattle.json.specs.Tree.{json_tokens};
ghost use Rattle.exif_check.specs.Json.{checked_json};
ghost use Rattle.exif_check.specs.Lines.{lines_text};
ghost use Rattle.exif_decisions.specs.Escaping.{escaped_text};
ghost use Rattle.exif_formats.specs.Formats.{format_in};
ghost use Rattle.exif_json.specs.Answers.{IsJsonOf};
ghost use Rattle.exif_types.specs.Refusals.{Answers};
ghost use Rattle.exif_types.specs.declared.error.Error.TheVariants.{Io};
ghost use Rattle.exif_files.specs.declared.outcome.Status.TheVariants.{Incomplete};
ghost use Rattle.exif_session.specs.Counting.{with_beside};
ghost use Rattle.exif_commands.specs.Checks.{checked_as, checked_file, checked_with, outcome_by, outcome_checked, unchecked_line};

use exif::{Error, Sink};
use exif_check::{
    Checked, Location, check_json, check_picture, is_only_maker_notes, lines_of, location_of,
};
use exif_decisions::{Escaped, Outcome};
use exif_files::Status;
use exif_formats::format_of;
use exif_inputs::read_file;
use exif_json::json_of_answer;
use exif_session::{Form, Session, Stop};
use std::alloc::{AllocError, Global};
use std::io;

// What is counted of a file that was checked, and the status follows: one that holds a location, or
// may hold one, is no success. Where only maker notes may hold one, it is, unless the check is
// strict: they are in most files of cameras.
fn outcome_of_location(location: Location, only_maker_notes: bool, strict: bool) -> Outcome
    ensures { result ≡ outcome_by location only_maker_notes strict }
{
    match location {
        Location::Absent => Outcome::Done,
        Location::Unknown if only_maker_notes && !strict => Outcome::Done,
        Location::Present | Location::Unknown => Outcome::Partial,
    }
}

// The lines of the parts that hold metadata, or may hold some.
fn lines_by_name(alloc: Global, path: &str, parts: &[Checked]) -> Result<Vec<u8>, AllocError>
    ensures { IfOk result (λ text. text.items ≡ lines_text (escaped_text path.now) parts.now) }
{
    let name = format!(in alloc; "{}", Escaped(path))?;
    Ok(lines_of(alloc, name.as_str(), parts)?.into_bytes())
}

// The object of a file, in a line.
fn json_line(
    alloc: Global,
    path: &str,
    file: &[u8],
    parts: &[Checked],
) -> Result<Vec<u8>, AllocError>
    ensures { IfOk result (λ text. text.items ≡ print (json_tokens
        (checked_json path.now (format_in file.now) parts.now)) ++ codes "\n") }
{
    let mut text = check_json(alloc, path.as_bytes(), format_of(file), parts)?;
    text.push(b'\n')?;
    Ok(text)
}

/// Writes what the parts of a file hold, and answers its status.
pub fn check_file<W: Sink, E: Sink>(
    session: &mut Session<'_, '_, W, E>,
    form: Form,
    strict: bool,
    path: &str,
) -> Result<Outcome, Stop>
    ensures pending { session.new.pending ≡ session.old.pending }
{
    let file = read_file(session.rt, path);
    let answer = answer_of(session.rt.alloc(), form, strict, path, file)?;
    write_answer(session, form, path, answer)
}

// Writes what was answered of a file: as JSON, why it was refused, too; else that is reported.
fn write_answer<W: Sink, E: Sink>(
    session: &mut Session<'_, '_, W, E>,
    form: Form,
    path: &str,
    answer: Result<(Vec<u8>, Outcome), Error>,
) -> Result<Outcome, Stop>
    ensures outcome { IfOk result (λ outcome. outcome ≡ outcome_checked answer.entry) }
    ensures pending { session.new.pending ≡ session.old.pending }
{
    match told(session.rt.alloc(), form, path, answer)? {
        Ok((text, outcome)) => {
            session.answer(text.as_slice())?;
            Ok(outcome)
        }
        Err(error) => session.refuse(path, &error),
    }
}

// What is written of a file: as JSON, an object of why it was refused, too.
fn told(
    alloc: Global,
    form: Form,
    path: &str,
    answer: Result<(Vec<u8>, Outcome), Error>,
) -> Result<Result<(Vec<u8>, Outcome), Error>, AllocError>
    ensures outcome { IfOk result (λ told. outcome_checked told ≡ outcome_checked answer.entry) }
    ensures read { IfOk answer.entry (λ read. IfOk result (λ told. told ≡ answer.entry)) }
{
    match (answer, form) {
        (Ok(answer), _) => Ok(Ok(answer)),
        (Err(error), Form::Lines) => Ok(Err(error)),
        (Err(error), Form::Json) => {
            let mut text = refused_object(alloc, path, error)?;
            text.push(b'\n')?;
            Ok(Ok((text, Outcome::Refused)))
        }
    }
}

// What is written of a file of which this was read, and what is counted of it; or why it was
// refused.
fn answer_of(
    alloc: Global,
    form: Form,
    strict: bool,
    path: &str,
    file: io::Result<Vec<u8>>,
) -> Result<Result<(Vec<u8>, Outcome), Error>, AllocError>
    ensures read { IfOk file (λ bytes. IfOk result (λ answer.
        Answers checked_as answer (checked_file form strict path.now bytes.items))) }
    ensures unread { IfErr file (λ cause. IfOk result (λ answer. answer ≡ Err (Io cause))) }
{
    match file {
        Ok(file) => answer_of_bytes(alloc, form, strict, path, file.as_slice()),
        Err(cause) => Ok(Err(Error::Io(cause))),
    }
}

// The same of a file that was read.
#[tactic(auto, using(crate::proofs::Checked::refused_if))]
fn answer_of_bytes(
    alloc: Global,
    form: Form,
    strict: bool,
    path: &str,
    file: &[u8],
) -> Result<Result<(Vec<u8>, Outcome), Error>, AllocError>
    ensures { IfOk result (λ answer.
        Answers checked_as answer (checked_file form strict path.now file.now)) }
{
    match check_picture(alloc, file)? {
        Ok(parts) => {
            let parts = parts.as_slice();
            Ok(Ok(answer_of_parts(alloc, form, strict, path, file, parts)?))
        }
        Err(error) => Ok(Err(error)),
    }
}

// What is written of a file with these parts, and what is counted of it.
fn answer_of_parts(
    alloc: Global,
    form: Form,
    strict: bool,
    path: &str,
    file: &[u8],
    parts: &[Checked],
) -> Result<(Vec<u8>, Outcome), AllocError>
    ensures { IfOk result (λ answer.
        checked_as answer ≡ checked_with form strict path.now file.now parts.now) }
{
    let text = match form {
        Form::Lines => lines_by_name(alloc, path, parts)?,
        Form::Json => json_line(alloc, path, file, parts)?,
    };
    let only_maker_notes = is_only_maker_notes(parts);
    let outcome = outcome_of_location(location_of(parts), only_maker_notes, strict);
    Ok((text, outcome))
}

// The object of a file that was refused.
fn refused_object(alloc: Global, path: &str, error: Error) -> Result<Vec<u8>, AllocError>
    ensures { IfOk result (λ text. IsJsonOf path.now None (Err error.entry) text.items) }
{
    json_of_answer(alloc, path.as_bytes(), None, Err(error))
}

// The line that says how many files of the program's own were not checked.
fn unchecked_line(alloc: Global, count: u64) -> Result<String, AllocError>
    ensures { IfOk result (λ text. string_bytes text ≡ unchecked_line count) }
{
    if count == 1 {
        return format!(in alloc; "mexaldor: 1 backup or temporary file was not checked\n");
    }
    format!(in alloc; "mexaldor: {count} backups or temporary files were not checked\n")
}

/// Says how many backups and temporary files a check over folders has skipped, if there are some:
/// they may hold a location, so the run is no success.
pub fn report_unchecked<W: Sink, E: Sink>(session: &mut Session<'_, '_, W, E>) -> Result<(), Stop>
    ensures none { session.old.pending.counts.own ≡ 0
        → session.new.pending ≡ session.old.pending }
    ensures some { 0 < session.old.pending.counts.own → OnOk result
        (session.new.pending ≡ with_beside Incomplete session.old.pending) }
{
    let count = session.pending.counts.own;
    if count == 0 {
        return Ok(());
    }
    let line = unchecked_line(session.rt.alloc(), count)?;
    session.console.write(line.as_str());
    session.count_beside(Status::Incomplete);
    Ok(())
}
