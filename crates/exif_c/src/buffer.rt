//! Answers in the caller's buffers.

ghost use Rattle.std.specs.Prelude.{◌≡◌, [], length};
ghost use Rattle.exif_c.specs.Buffers.{Gives, GivesNothing, filled};
ghost use Rattle.exif_c.specs.Statuses.{number_of};

use crate::status::Status;

/// How a call ended, and how long what it made is: more than the buffer's length where that was
/// too short.
#[repr(C)]
#[derive(Clone, Copy)]
pub struct Answer {
    /// 0, or a number that `mexaldor_error` has a text for.
    pub status: u32,
    /// The length of the whole answer.
    pub length: usize,
}

// Puts the front of a text into a buffer. What is behind it stays.
fn fill(out: &mut [u8], text: &[u8])
    ensures { out.new ≡ filled text.now out.old }
{
    let count = text.len().min(out.len());
    out[..count].copy_from_slice(&text[..count]);
}

/// The answer that is a text.
pub fn given(out: &mut [u8], text: &[u8], status: Status) -> Answer
    ensures { Gives (number_of status) text.now out.old out.new result }
{
    fill(out, text);
    Answer {
        status: status.number(),
        length: text.len(),
    }
}

/// The answer that is none.
pub fn nothing(status: Status) -> Answer
    ensures { GivesNothing (number_of status) result }
{
    Answer {
        status: status.number(),
        length: 0,
    }
}
