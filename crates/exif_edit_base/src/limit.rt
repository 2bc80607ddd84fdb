//! A limit on the entries of data that are edited.

ghost use Rattle.std.specs.Prelude.{◌≡◌, ◌≤◌, ◌<◌, ◌^◌, length, IfOk, OnOk, Some};
ghost use Rattle.std.specs.List.{list_any};
ghost use Rattle.exif_edit_base.specs.Causes.{Makes};
ghost use Rattle.exif_edit_base.specs.EntryLimit.{has_more, is_limit_fault, limited_reading, within_limit};
ghost use Rattle.exif_edit_base.specs.Readings.{read_of};
ghost use Rattle.exif_edit_base.specs.Walked.{Finds};
ghost use Rattle.exif_edit_base.specs.declared.walk.Located.{Located};

use crate::error::Error;
use crate::read::locate;
use crate::walk::{Located, read_located_within};
use exif_tiff::Fault;
use exif_tiff::stop::Stop;
use exif_tiff::tiff::parse;
use std::alloc::{AllocError, Global};

// Whether a fault is that of a limit.
fn is_limit_fault(fault: &Fault) -> bool
    ensures { result ≡ is_limit_fault fault.now }
{
    matches!(fault, Fault::TooManyEntries)
}

// Whether one of faults is.
fn has_limit_fault(faults: &[Fault]) -> bool
    ensures { result ≡ list_any is_limit_fault faults.now }
{
    for fault in faults {
        if is_limit_fault(fault) {
            return true;
        }
    }
    false
}

// Whether reading visits more entries than so many.
fn has_more(alloc: Global, bytes: &[u8], limit: u64) -> Result<bool, AllocError>
    ensures { IfOk result (λ more. more ≡ has_more limit bytes.now) }
{
    match parse(alloc, bytes, true, Some(limit)) {
        Ok(parsed) => Ok(has_limit_fault(parsed.faults.as_slice())),
        Err(Stop::Fault(_)) => Ok(false),
        Err(Stop::OutOfMemory) => Err(AllocError),
    }
}

/// Refuses data with more entries than a limit, if there is one, as a reader does: directories can
/// share their children, so that 14 KB have millions of entries. It reads the data once, and takes
/// the memory of so many entries. The refusal is `Header(TooManyEntries)`; data with a wrong header
/// have no entries.
pub fn check_limit(alloc: Global, bytes: &[u8], limit: Option<u64>) -> Result<(), Error>
    ensures { Makes (λ (u : Unit {0}). u) result (within_limit limit bytes.now) }
{
    let Some(limit) = limit else {
        return Ok(());
    };
    if has_more(alloc, bytes, limit)? {
        return Err(Error::Header(Fault::TooManyEntries));
    }
    Ok(())
}

// What data hold and where, unless they have more entries than this.
fn locate_up_to(alloc: Global, bytes: &[u8], limit: u64) -> Result<Located, Error>
    ensures reads { Makes (λ (l : Located). read_of l.parsed)
        result (limited_reading (Some limit) bytes.now) }
    ensures offsets { IfOk result (λ located. Finds bytes.now located.walk) }
    ensures space { OnOk result (8 ≤ length bytes.now) }
    ensures small { OnOk result (length bytes.now < 2 ^ 32) }
{
    let located = read_located_within(alloc, bytes, limit)?;
    if has_limit_fault(located.parsed.faults.as_slice()) {
        return Err(Error::Header(Fault::TooManyEntries));
    }
    Ok(located)
}

/// Reads data leniently, and answers the offsets of what is read: what [`check_limit`] and
/// [`locate`] do, in one reading. Refusals are `Header(TooManyEntries)`, and `Header` with the fault
/// of a wrong header.
pub fn locate_within(alloc: Global, bytes: &[u8], limit: Option<u64>) -> Result<Located, Error>
    ensures reads { Makes (λ (l : Located). read_of l.parsed)
        result (limited_reading limit bytes.now) }
    ensures offsets { IfOk result (λ located. Finds bytes.now located.walk) }
    ensures space { OnOk result (8 ≤ length bytes.now) }
    ensures small { OnOk result (length bytes.now < 2 ^ 32) }
{
    match limit {
        Some(limit) => locate_up_to(alloc, bytes, limit),
        None => Ok(locate(alloc, bytes)?),
    }
}
