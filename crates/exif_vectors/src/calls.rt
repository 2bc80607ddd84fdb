//! The call of a case: its output, and the text of how it ends.

use crate::cases::{Call, Case, CaseError};
use crate::changes::change;
use crate::edits::edit;
use crate::readings::{by_need, end_of_report, exif_data, json, parsed, raw};
use crate::tables::looked_up;
use crate::texts::{dated, shown};
use crate::writings::{copied, image, kept, rewritten, scrubbed};
use exif::{Error, Sink, Source};
use exif_base::send_all;
use std::alloc::Global;
use std::fmt;
use std::fmt::{Display, Write};

/// The text of an error where memory runs out.
pub const OUT_OF_MEMORY: &str = "Out of memory";

/// Makes the call of a case, from a source to a sink. Answers the text of how it ends: nothing,
/// the number of faults that were skipped, or an error.
pub fn run<R: Source, W: Sink>(
    alloc: Global,
    case: &Case,
    source: &mut R,
    out: &mut W,
) -> Result<String, CaseError> {
    match case.call {
        Call::Missing => Err(CaseError::Line("a case without a call")),
        Call::Report => end_of_report(alloc, case, source, out),
        Call::Parse => end_of(alloc, parsed(alloc, source, out)),
        Call::Raw => end_of(alloc, raw(alloc, case, source, out)),
        Call::ByNeed => end_of(alloc, by_need(alloc, case, source, out)),
        Call::Exif => end_of(alloc, exif_data(alloc, case, source, out)),
        Call::Json => end_of(alloc, json(alloc, case, source, out)),
        Call::Rewrite => rewritten(alloc, case, source, out),
        Call::Scrub => end_of(alloc, scrubbed(alloc, case, source, out)),
        Call::Copy => end_of(alloc, copied(alloc, case, source, out)),
        Call::Keep => end_of(alloc, kept(alloc, case, source, out)),
        Call::Write => end_of(alloc, image(alloc, case, out)),
        Call::Set | Call::EraseField | Call::EraseGps | Call::EraseAll => {
            edit(alloc, case, source, out)
        }
        Call::ScrubFile | Call::Assign | Call::Shift | Call::Thumbnail | Call::CopyExif => {
            change(alloc, case, source, out)
        }
        _ => run_on_values(alloc, case, out),
    }
}

// The calls that read no source.
fn run_on_values<W: Sink>(alloc: Global, case: &Case, out: &mut W) -> Result<String, CaseError> {
    match case.call {
        Call::Text | Call::Unit => end_of(alloc, shown(alloc, case, out)),
        Call::Date | Call::Offset => dated(alloc, case, out),
        _ => end_of(alloc, looked_up(alloc, case, out)),
    }
}

/// The text of an error, or nothing. It takes any error, so that no kind of error is opened here.
pub fn end_of<T: Drop, E: Display + Drop>(
    alloc: Global,
    answer: Result<T, E>,
) -> Result<String, CaseError> {
    match answer {
        Ok(_given) => Ok(String::new(alloc)),
        Err(error) => end_of_error(alloc, error),
    }
}

/// The text of an error.
pub fn end_of_error<E: Display + Drop>(alloc: Global, error: E) -> Result<String, CaseError> {
    match format!(in alloc; "{error}") {
        Ok(text) => Ok(text),
        Err(_short) => Err(shortage_of(&error)),
    }
}

// What an error is for whose text there is no memory.
fn shortage_of<E: Display>(error: &E) -> CaseError {
    let mut text = Expected {
        rest: OUT_OF_MEMORY.as_bytes(),
    };
    if write!(text, "{error}").is_ok() && text.rest.is_empty() {
        CaseError::OutOfMemory
    } else {
        CaseError::Refused
    }
}

/// Compares a text with the expected one, without memory. What is left of that is `rest`.
#[derive(Drop)]
struct Expected<'a> {
    rest: &'a [u8],
}

impl fmt::Write for Expected<'_> {
    fn write_str(&mut self, text: &str) -> fmt::Result {
        match self.rest.strip_prefix(text.as_bytes()) {
            Some(rest) => {
                self.rest = rest;
                Ok(())
            }
            None => Err(fmt::Error),
        }
    }
}

/// Sends bytes, and flushes.
pub fn send<W: Sink>(out: &mut W, bytes: &[u8]) -> Result<(), Error> {
    send_all(out, bytes)?;
    out.flush()?;
    Ok(())
}
