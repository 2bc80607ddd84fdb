//! What is answered, written and kept where memory runs short. `exif_test_support::shortage` says
//! which allocator these tests need.

mod copies;
mod reading;
mod reports;
mod rewriting;
mod skips;
mod writing;

use exif::Error;
use exif_test_support::answers::reason;
use exif_test_support::shortage::{Blocks, Outcome, Shortage, take_most, take_rest};
use std::process::Abort;

/// All memory but so many bytes, as long as it is held.
#[derive(Drop)]
pub struct Taken {
    rest: Blocks,
    most: Blocks,
}

/// Takes all memory but so many bytes.
pub fn take_all(rt: &(impl Abort + AllocGlobal), left: u16) -> Taken {
    let most = take_most(rt.alloc()).expect(rt, "memory");
    let rest = take_rest(rt.alloc(), left).expect(rt, "memory");
    Taken { rest, most }
}

/// Whether an error is that memory ran out. It is let go by one call.
pub fn is_out_of_memory(error: Error) -> bool {
    let is_out_of_memory = matches!(&error, Error::OutOfMemory);
    drop(error);
    is_out_of_memory
}

/// The message of a refusal, if that is the answer. The error is let go by one call.
pub fn reason_of<T: Drop>(answer: Result<T, Error>) -> Option<&'static str> {
    let text = reason(&answer);
    match answer {
        Ok(given) => drop(given),
        Err(error) => drop(error),
    }
    text
}

/// Whether two of a kind are equal.
pub fn are_equal<T: PartialEq>(first: &T, second: &T) -> bool {
    first == second
}

// What an error comes to where these bytes were sent. Where memory runs out, none are.
fn refused_after(error: Error, sent: &[u8]) -> Outcome {
    if is_out_of_memory(error) && sent.is_empty() {
        Outcome::OutOfMemory
    } else {
        Outcome::Wrong
    }
}

// What was written to a space of which so much is left.
fn written(space: &[u8], left: usize) -> &[u8] {
    &space[..space.len().saturating_sub(left)]
}

/// What an answer comes to that is to send these bytes to a space, of which so much is left.
pub fn sending(answer: Result<(), Error>, space: &[u8], left: usize, bytes: &[u8]) -> Outcome {
    let sent = written(space, left);
    match answer {
        Ok(()) => Outcome::answered(sent == bytes),
        Err(error) => refused_after(error, sent),
    }
}

/// Memory ran out in some calls, and the last one was right.
pub fn runs_out(rt: &impl Abort, refused: Result<u16, Shortage>) {
    let count = refused.expect(rt, "enough memory");
    assert!(rt; count > 0);
}

/// Appends bytes, for which there is memory.
pub fn append(rt: &impl Abort, data: &mut Vec<u8>, bytes: &[u8]) {
    data.extend_from_slice(bytes).expect(rt, "memory");
}
