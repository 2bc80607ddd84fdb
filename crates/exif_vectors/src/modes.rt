//! The modes in which a case is run, and how what comes out differs from what is expected.

use crate::calls::run;
use crate::cases::{Call, Case, CaseError};
use crate::memory::short_of_memory;
use exif::{Counted, Seekable, Tag, Value};
use exif_test_support::devices::{Drip, Failure, READ_FAILURES, Slow, WRITE_FAILURES};
use std::alloc::{AllocError, Global};
use std::io::Cursor;

/// Cases with more bytes of input and output are not run over devices that fail: a device fails
/// at each call in turn, and each time all is read again.
const SHORT: usize = 1000;

/// What was sent, and the text of how the call ended.
#[derive(Drop)]
struct Outcome {
    bytes: Vec<u8>,
    end: String,
}

// The case over bytes in memory.
fn whole(alloc: Global, case: &Case, input: &[u8]) -> Result<Outcome, CaseError> {
    let mut out = Counted::new(Vec::new(alloc));
    let end = run(alloc, case, &mut Counted::new(input), &mut out)?;
    Ok(Outcome {
        bytes: out.into_inner(),
        end,
    })
}

// The case over a source that seeks.
fn sought(alloc: Global, case: &Case, input: &[u8]) -> Result<Outcome, CaseError> {
    let mut out = Counted::new(Vec::new(alloc));
    let mut source = Seekable::new(Cursor::new(input));
    let end = run(alloc, case, &mut source, &mut out)?;
    Ok(Outcome {
        bytes: out.into_inner(),
        end,
    })
}

// The case one byte a call, with so many successful calls of the reader and of the writer.
fn slow(
    alloc: Global,
    case: &Case,
    reads: usize,
    writes: usize,
    failure: Failure,
) -> Result<Outcome, CaseError> {
    let mut out = Counted::new(Drip::new(alloc, writes, failure));
    let mut source = Counted::new(Slow::new(case.input.as_slice(), reads, failure));
    let end = run(alloc, case, &mut source, &mut out)?;
    Ok(Outcome {
        bytes: out.into_inner().taken,
        end,
    })
}

// How an outcome differs from what is expected, if it does.
fn compared(
    alloc: Global,
    case: &Case,
    mode: &str,
    count: usize,
    got: &Outcome,
) -> Result<Option<String>, CaseError> {
    if got.end != case.end {
        let (found, end) = (&got.end, &case.end);
        return Ok(Some(format!(in alloc; "{mode} {count}: ends {found:?} in place of {end:?}")?));
    }
    if got.bytes != case.output {
        let found = quoted(alloc, got.bytes.as_slice())?;
        let output = quoted(alloc, case.output.as_slice())?;
        return Ok(Some(format!(in alloc; "{mode} {count}: {found} in place of {output}")?));
    }
    Ok(None)
}

// Bytes in quotes, as a value of text prints them.
fn quoted(alloc: Global, bytes: &[u8]) -> Result<String, AllocError> {
    let value = Value::ascii(alloc, &[bytes])?;
    let text = format!(in alloc; "{}", value.display_as(Tag::ImageDescription));
    drop(value);
    text
}

// The reader fails at each call in turn: its error, behind a prefix of the output.
fn readers(alloc: Global, case: &Case, failure: Failure) -> Result<Option<String>, CaseError> {
    for reads in 0..case.input.len().saturating_add(9) {
        let got = slow(alloc, case, reads, usize::MAX, failure)?;
        if got.end.as_str() != failure.text {
            return after_reads(alloc, case, reads, &got);
        }
        if !case.output.starts_with(got.bytes.as_slice()) {
            return Ok(Some(format!(in alloc; "reader {reads}: other output")?));
        }
    }
    Ok(Some(format!(in alloc; "reader: no end")?))
}

// This many reads give the answer.
fn after_reads(
    alloc: Global,
    case: &Case,
    reads: usize,
    got: &Outcome,
) -> Result<Option<String>, CaseError> {
    if let Some(expected) = case.reads {
        if expected != reads {
            return Ok(Some(format!(in alloc; "{reads} reads in place of {expected}")?));
        }
    }
    compared(alloc, case, "reader", reads, got)
}

// The writer fails at each call in turn: its error, behind exactly the bytes that it took.
fn writers(alloc: Global, case: &Case, failure: Failure) -> Result<Option<String>, CaseError> {
    for writes in 0..case.output.len().saturating_add(3) {
        let got = slow(alloc, case, usize::MAX, writes, failure)?;
        if got.end.as_str() != failure.text {
            return compared(alloc, case, "writer", writes, &got);
        }
        if case.output.get(..writes) != Some(got.bytes.as_slice()) {
            return Ok(Some(format!(in alloc; "writer {writes}: other output")?));
        }
    }
    Ok(Some(format!(in alloc; "writer: no end")?))
}

// Each proper prefix of so many bytes or more is refused, with a text if one is given, and alike
// over a source that seeks.
fn prefixes(alloc: Global, case: &Case, least: usize) -> Result<Option<String>, CaseError> {
    for len in least..case.input.len() {
        let input = case.input.get(..len).unwrap_or(b"");
        let got = whole(alloc, case, input)?;
        if !is_refused(case, &got) {
            let end = &got.end;
            return Ok(Some(format!(in alloc; "prefix {len}: ends {end:?}")?));
        }
        let other = sought(alloc, case, input)?;
        if other.end != got.end || other.bytes != got.bytes {
            let end = &other.end;
            return Ok(Some(format!(in alloc; "prefix {len}, seeking: ends {end:?}")?));
        }
    }
    Ok(None)
}

// Whether a prefix was refused as it is to be, and nothing came out.
fn is_refused(case: &Case, got: &Outcome) -> bool {
    let is_named = case.refusal.is_empty() || got.end == case.refusal;
    !got.end.is_empty() && is_named && got.bytes.is_empty()
}

// How many of the errors a case is run with: one, where the call reads all of its input at first.
fn failure_count(case: &Case) -> usize {
    match case.call {
        Call::Report | Call::ByNeed | Call::Exif | Call::Rewrite => 4,
        Call::Scrub | Call::Copy | Call::Keep | Call::Write => 4,
        _ => 1,
    }
}

// The devices that fail, with each of their errors.
fn failing(alloc: Global, case: &Case) -> Result<Option<String>, CaseError> {
    let count = failure_count(case);
    for failure in READ_FAILURES.iter().take(count) {
        let found = readers(alloc, case, *failure)?;
        if found.is_some() {
            return Ok(found);
        }
    }
    for failure in WRITE_FAILURES.iter().take(count) {
        let found = writers(alloc, case, *failure)?;
        if found.is_some() {
            return Ok(found);
        }
    }
    Ok(None)
}

// The three modes in which nothing fails.
fn unfailing(alloc: Global, case: &Case) -> Result<Option<String>, CaseError> {
    let got = whole(alloc, case, case.input.as_slice())?;
    let found = compared(alloc, case, "whole", 0, &got)?;
    if found.is_some() {
        return Ok(found);
    }
    let got = sought(alloc, case, case.input.as_slice())?;
    let found = compared(alloc, case, "seeking", 0, &got)?;
    if found.is_some() {
        return Ok(found);
    }
    let got = slow(alloc, case, usize::MAX, usize::MAX, READ_FAILURES[0])?;
    compared(alloc, case, "slow", 0, &got)
}

/// How a case differs from what is expected, if it does.
pub fn mismatch(alloc: Global, case: &Case) -> Result<Option<String>, CaseError> {
    let found = unfailing(alloc, case)?;
    if found.is_some() {
        return Ok(found);
    }
    if case.input.len().saturating_add(case.output.len()) <= SHORT {
        let found = failing(alloc, case)?;
        if found.is_some() {
            return Ok(found);
        }
    }
    let found = match case.prefixes {
        Some(least) => prefixes(alloc, case, least)?,
        None => None,
    };
    if found.is_some() || !case.short_of_memory {
        return Ok(found);
    }
    short_of_memory(alloc, case)
}
