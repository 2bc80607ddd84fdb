//! Files read.

ghost use Rattle.std.specs.Prelude.{◌≡◌, Some, take};
ghost use Rattle.exif_formats.specs.Formats.{format_in};
ghost use Rattle.exif_formats.specs.Pictures.{ReadsPicture};
ghost use Rattle.exif_c.specs.Calls.{IsRead, answer_status, meant};

use crate::buffer::{Answer, given, nothing};
use crate::status::{Status, error_status};
use exif::{Error, Exif};
use exif_change::ENTRY_LIMIT;
use exif_containers::container::SNIFF_LEN;
use exif_formats::{Options, Picture, read_bytes};
use exif_json::json_of_answer;
use std::alloc::Global;

/// Reads the Exif data of a file and puts the JSON object of them, or of the refusal, into a
/// buffer. Strictly the first fault is the refusal; leniently soft faults are skipped and reported.
/// A limit of 0 stands for 1,000,000 entries. Where memory runs out for the object, nothing is
/// answered.
#[unsafe(no_mangle)]
pub extern "C" fn mexaldor_read(
    alloc: Global,
    file: &[u8],
    lenient: bool,
    limit: u64,
    out: &mut [u8],
) -> Answer
    ensures { IsRead lenient limit file.now out.old out.new result }
{
    let Picture { format, answer } = read(alloc, file, lenient, meant(limit));
    let status = status_of(&answer);
    match json_of_answer(alloc, b"", format, answer) {
        Ok(text) => given(out, &text, status),
        Err(_no_memory) => nothing(Status::OutOfMemory),
    }
}

// The limit that is meant.
fn meant(limit: u64) -> u64
    ensures { result ≡ meant limit }
{
    if limit == 0 { ENTRY_LIMIT } else { limit }
}

// What a reader answers of a file.
fn read(alloc: Global, file: &[u8], lenient: bool, limit: u64) -> Picture
    ensures format { result.format ≡ format_in (take SNIFF_LEN file.now) }
    ensures reads { ReadsPicture lenient (Some limit) file.now result.answer }
{
    let options = Options {
        lenient,
        limit: Some(limit),
    };
    read_bytes(options, alloc, file)
}

// The status of an answer.
fn status_of(answer: &Result<Exif, Error>) -> Status
    ensures { result ≡ answer_status answer.now }
{
    match answer {
        Ok(_) => Status::Well,
        Err(error) => error_status(error),
    }
}
