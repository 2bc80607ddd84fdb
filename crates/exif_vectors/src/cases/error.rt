//! Why a line can't be used, or a case has no answer.

use std::alloc::{AllocError, AllocFailed};
use std::fmt;

/// What is wrong with a line or a case.
#[derive(Clone, Copy, Debug)]
pub enum CaseError {
    /// Memory ran out.
    OutOfMemory,
    /// The call was refused for another reason than memory, and memory ran out for the text of it.
    Refused,
    /// The line is malformed.
    Line(&'static str),
}

impl fmt::Display for CaseError {
    fn fmt<W: fmt::Write>(&self, f: &mut fmt::Formatter<W>) -> fmt::Result {
        let text = match self {
            CaseError::OutOfMemory => "out of memory",
            CaseError::Refused => "refused, and out of memory",
            CaseError::Line(text) => *text,
        };
        write!(f, "{text}")
    }
}

impl From<AllocError> for CaseError {
    fn from(_error: AllocError) -> CaseError {
        CaseError::OutOfMemory
    }
}

impl<T: Drop> From<AllocFailed<T>> for CaseError {
    fn from(_error: AllocFailed<T>) -> CaseError {
        CaseError::OutOfMemory
    }
}
