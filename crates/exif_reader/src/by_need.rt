//! TIFF data of which no more than a front is read, where that says all.

ghost use Rattle.std.specs.Prelude.{◌≡◌, ◌≢◌, ◌<◌, ◌≤◌, ◌+◌, ◌^◌, length, IfOk, IfErr, IfSome, Ok, Err, false, true};
ghost use Rattle.exif_base.specs.Orders.{order_named};
ghost use Rattle.exif_base.specs.Reads.{Counts};
ghost use Rattle.exif_types.specs.Refusals.{IsInterrupted, is_io};
ghost use Rattle.exif_types.specs.declared.error.Error.TheVariants.{OutOfMemory};
ghost use Rattle.exif_tiff.specs.Answers.{Whole, raw_answer};
ghost use Rattle.exif_tiff.specs.Trace.{header};

use exif_base::{BigEndian, Endian, LittleEndian, Order, Source};
use exif_segments::util::pass_over;
use exif_tiff::laws::answers_show_what_was_read;
use exif_tiff::stop::Stop;
use exif_tiff::tiff::{Parsed, header, parse};
use exif_types::Error;
use std::alloc::Global;

/// How long the front is that is read first. In most files it holds the directories with their
/// values, in front of the strips.
pub const FRONT: u64 = 262144;

// This many bytes are more than offsets of 32 bits reach.
const TOO_MANY: u64 = 4294967296;

/// What strict reading finds in a front, where it meets no fault there.
pub fn parse_front(alloc: Global, front: &[u8], limit: Option<u64>) -> Result<Option<Parsed>, Error>
    ensures says { IfOk result (λ found. IfSome found
        (λ parsed. raw_answer false limit front.now ≡ Whole parsed.fields.items)) }
    ensures order { IfOk result (λ found. IfSome found
        (λ parsed. header front.now ≡ Ok (order_named parsed.little_endian))) }
    ensures memory { IfErr result (λ e. e ≡ OutOfMemory) }
{
    if !holds_first_directory(front) {
        return Ok(None);
    }
    answers_show_what_was_read();
    match parse(alloc, front, false, limit) {
        Ok(parsed) => Ok(Some(parsed)),
        Err(Stop::Fault(_)) => Ok(None),
        Err(Stop::OutOfMemory) => Err(Error::OutOfMemory),
    }
}

// Whether a front holds the first directory's entries. Where it doesn't, it can't say all, and
// would be parsed in vain.
fn holds_first_directory(front: &[u8]) -> bool {
    match header(front) {
        Ok(Order::Big) => holds_entries::<BigEndian>(front),
        Ok(Order::Little) => holds_entries::<LittleEndian>(front),
        Err(_fault) => false,
    }
}

// Whether a front whose header is right holds the first directory's entries.
fn holds_entries<E: Endian>(front: &[u8]) -> bool
    requires { 8 ≤ length front.now }
{
    let offset = E::loadu32(front, 4) as usize;
    if offset > front.len() - 2 {
        return false;
    }
    let count = E::loadu16(front, offset) as usize;
    12 * count <= front.len() - 2 - offset
}

/// Passes over what follows a front of so many bytes, and answers whether offsets of 32 bits reach
/// all of it.
pub fn pass_rest<R: Source>(source: &mut R, front: u64) -> Result<bool, Error>
    requires { front ≤ 2 ^ 32 }
    ensures reached { IfOk result (λ reached. IfSome (R.left source.old)
        (λ rest. reached ≡ true → front + length rest < 2 ^ 32)) }
    ensures too_many { IfOk result (λ reached. IfSome (R.left source.old)
        (λ rest. reached ≡ false → 2 ^ 32 ≤ front + length rest)) }
    ensures interrupted { IfErr result IsInterrupted }
    ensures no_memory { result ≢ Err OutOfMemory }
    ensures counts { Counts R.Source source.old source.new (is_io result) }
{
    let goes_on = pass_over(source, TOO_MANY - front)?;
    Ok(!goes_on)
}
