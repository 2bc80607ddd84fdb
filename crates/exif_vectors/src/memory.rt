//! A case where memory is short: out of memory behind a prefix of the output, until there is
//! enough.

use crate::calls::{OUT_OF_MEMORY, run};
use crate::cases::{Case, CaseError};
use exif::Counted;
use exif_test_support::shortage::{MAX_STEPS, take_most, take_rest};
use std::alloc::Global;

// What comes of a case with little memory.
#[derive(Clone, Copy)]
enum Found {
    OutOfMemory,
    Expected,
    Other,
}

/// Runs a case with ever more memory: it must run out of memory at first, and then give what is
/// expected. Answers what it does instead, if it does.
pub fn short_of_memory(alloc: Global, case: &Case) -> Result<Option<String>, CaseError> {
    let most = take_most(alloc)?;
    let found = steps(alloc, case);
    drop(most);
    let (step, is_expected) = found?;
    if is_expected && step > 0 {
        return Ok(None);
    }
    Ok(Some(format!(in alloc; "memory: step {step}, as expected: {is_expected}")?))
}

// The step at which memory suffices or something else comes, and whether that is expected.
fn steps(alloc: Global, case: &Case) -> Result<(u16, bool), CaseError> {
    for step in 0..MAX_STEPS {
        match within(alloc, case, 16 * step)? {
            Found::OutOfMemory => {}
            Found::Expected => return Ok((step, true)),
            Found::Other => return Ok((step, false)),
        }
    }
    Ok((MAX_STEPS, false))
}

// The case with so many bytes of memory, and space for the output beside them.
fn within(alloc: Global, case: &Case, left: u16) -> Result<Found, CaseError> {
    let space: Vec<u8> = Vec::with_capacity(alloc, case.output.len())?;
    let rest = take_rest(alloc, left)?;
    let mut out = Counted::new(space);
    let answer = run(
        alloc,
        case,
        &mut Counted::new(case.input.as_slice()),
        &mut out,
    );
    let sent = out.into_inner();
    let found = found_of(case, answer, sent.as_slice());
    drop(rest);
    drop(sent);
    Ok(found)
}

fn found_of(case: &Case, answer: Result<String, CaseError>, sent: &[u8]) -> Found {
    match answer {
        Err(CaseError::OutOfMemory) => out_of_memory(case, sent),
        Err(CaseError::Refused) => refused(case, sent),
        Err(CaseError::Line(_)) => Found::Other,
        Ok(end) => ended(case, end.as_str(), sent),
    }
}

fn ended(case: &Case, end: &str, sent: &[u8]) -> Found {
    if end == OUT_OF_MEMORY {
        out_of_memory(case, sent)
    } else if end == case.end.as_str() && sent == case.output.as_slice() {
        Found::Expected
    } else {
        Found::Other
    }
}

// A refusal for whose text there is no memory. Only a case that is refused may have one.
fn refused(case: &Case, sent: &[u8]) -> Found {
    if case.end.is_empty() {
        Found::Other
    } else {
        out_of_memory(case, sent)
    }
}

fn out_of_memory(case: &Case, sent: &[u8]) -> Found {
    if case.output.starts_with(sent) {
        Found::OutOfMemory
    } else {
        Found::Other
    }
}
