//! What an answer is, and whether it is the wanted one.

use exif::{Error, Exif};
use std::alloc::Global;
use std::fmt::{Debug, Display};
use std::io::ErrorKind;
use std::test::Fail;

/// The kind of a device's error, if that is the answer.
pub fn kind_of<T: Drop>(answer: &Result<T, Error>) -> Option<ErrorKind> {
    match answer {
        Err(Error::Io(cause)) => Some(cause.kind()),
        _ => None,
    }
}

/// The message of a refusal, if that is the answer. This takes no memory.
pub fn reason<T: Drop>(answer: &Result<T, Error>) -> Option<&'static str> {
    match answer {
        Err(Error::InvalidFormat(text)) => Some(*text),
        Err(Error::NotFound(what)) => Some(*what),
        Err(Error::NotSupported(text)) => Some(*text),
        _ => None,
    }
}

/// How a value is shown.
pub fn shown<T: Display>(alloc: Global, value: &T) -> Result<String, Fail> {
    Ok(format!(in alloc; "{value}")?)
}

/// How a value is shown for debugging.
pub fn debugged<T: Debug>(alloc: Global, value: &T) -> Result<String, Fail> {
    Ok(format!(in alloc; "{value:?}")?)
}

/// How an error is shown.
pub fn text_of(alloc: Global, error: &Error) -> Result<String, Fail> {
    shown(alloc, error)
}

/// Fails where a text is not the wanted one.
pub fn is_text(found: &str, wanted: &str) -> Result<(), Fail> {
    if found == wanted {
        Ok(())
    } else {
        Err(Fail::new(format_args!("{found:?} in place of {wanted:?}")))
    }
}

/// Fails where bytes are not the wanted ones.
pub fn are_bytes(found: &[u8], wanted: &[u8]) -> Result<(), Fail> {
    if found == wanted {
        Ok(())
    } else {
        Err(Fail::new(format_args!("{found:?} in place of {wanted:?}")))
    }
}

/// Fails where an error is not shown as this text.
pub fn reads(alloc: Global, error: &Error, wanted: &str) -> Result<(), Fail> {
    let shown = text_of(alloc, error)?;
    is_text(shown.as_str(), wanted)
}

/// Fails where an error, which is let go by one call, is not shown as this text.
pub fn shows(alloc: Global, error: Error, text: &str) -> Result<(), Fail> {
    let found = reads(alloc, &error, text);
    drop(error);
    found
}

/// Fails where an answer is no error that is shown as this text.
pub fn is_refused<T: Drop>(
    alloc: Global,
    answer: Result<T, Error>,
    text: &str,
) -> Result<(), Fail> {
    match answer {
        Ok(_given) => Err(Fail::new("nothing was refused")),
        Err(error) => shows(alloc, error, text),
    }
}

/// Fails where a value is not shown for debugging as this text.
pub fn debugs<T: Debug>(alloc: Global, value: &T, wanted: &str) -> Result<(), Fail> {
    let shown = debugged(alloc, value)?;
    is_text(shown.as_str(), wanted)
}

/// The fields of an answer, and how many faults were skipped.
pub fn distilled(answer: Result<Exif, Error>) -> Result<(Exif, usize), Error> {
    match answer {
        Ok(exif) => Ok((exif, 0)),
        Err(Error::PartialResult(partial)) => {
            let (exif, faults) = partial.into_inner();
            Ok((exif, faults.len()))
        }
        Err(other) => Err(other),
    }
}
