//! Reads and skips, which keep apart the end of the bytes, a reader's error and out of memory.

ghost use Rattle.std.specs.Prelude.{◌≡◌, ◌≢◌, ◌<◌, ◌≤◌, ◌∷◌, [], length, take, Err, OnOk, IfOk, false, is_err};
ghost use Rattle.std.specs.Io.{StartsWith};
ghost use Rattle.std.specs.Io.KnownBytes.{Consumes, IsAtEnd};
ghost use Rattle.byteorder.specs.Endian.{ReadsNumber, big_number};
ghost use Rattle.exif_base.specs.ReadFaults.{is_io_fault};
ghost use Rattle.exif_base.specs.Reads.{Counts, Reads};
ghost use Rattle.exif_base.specs.Told.{IsFetchedOnto, Skips, TakesAll};
ghost use Rattle.exif_base.specs.declared.read.ReadFault.TheVariants.{End, Io, OutOfMemory};

use crate::device::Source;
use crate::endian::{BigEndian, Endian};
use std::alloc::AllocError;
use std::io;

/// Why the wanted bytes did not come.
#[derive(Debug, Drop)]
pub enum ReadFault {
    /// The bytes ended before.
    End,
    /// The reader answered this error.
    Io(io::Error),
    /// There was no memory to put them in.
    OutOfMemory,
}

impl From<io::Error> for ReadFault {
    ghost from_gives = { λ e fault. fault ≡ Io e };

    fn from(e: io::Error) -> ReadFault {
        ReadFault::Io(e)
    }
}

impl From<AllocError> for ReadFault {
    ghost from_gives = { λ _ fault. fault ≡ OutOfMemory };

    fn from(_e: AllocError) -> ReadFault {
        ReadFault::OutOfMemory
    }
}

/// Fills the front of the buffer with the next bytes: all of it, or as far as the bytes go.
///
/// Answers how many. After an error of the reader, how far it was read is left open.
pub fn read_front<R: Source>(source: &mut R, buf: &mut [u8]) -> io::Result<usize>
    ensures taken { IfOk result
        (λ n. Consumes (R.left source.old) (R.left source.new) (take n buf.new)) }
    ensures bound { IfOk result (λ n. n ≤ length buf.new) }
    ensures end { IfOk result (λ n. n < length buf.new → IsAtEnd (R.left source.new)) }
    ensures counts { Counts R.Source source.old source.new (is_err result) }
    ensures stream { R.stream source.new ≡ R.stream source.old }
{
    let mut at = 0;
    while at < buf.len() {
        let n = source.fetch(&mut buf[at..])?;
        if n == 0 {
            return Ok(at);
        }
        at += n;
    }
    Ok(at)
}

/// Fills the buffer with the next bytes, without memory.
///
/// Where the bytes end before it is full, all of them were taken. After an error of the reader, how
/// far it was read is left open.
pub fn read_exact<R: Source>(source: &mut R, buf: &mut [u8]) -> Result<(), ReadFault>
    ensures taken { OnOk result (Consumes (R.left source.old) (R.left source.new) buf.new) }
    ensures reads { Reads R.Source source.old source.new (length buf.old) result }
    ensures no_memory { result ≢ Err OutOfMemory }
    ensures stream { R.stream source.new ≡ R.stream source.old }
{
    let n = read_front(source, buf)?;
    if n < buf.len() {
        return Err(ReadFault::End);
    }
    Ok(())
}

/// The next byte. Faults are those of `read_exact`.
pub fn read8<R: Source>(source: &mut R) -> Result<u8, ReadFault>
    ensures taken { IfOk result
        (λ byte. Consumes (R.left source.old) (R.left source.new) (byte ∷ [])) }
    ensures reads { Reads R.Source source.old source.new 1 result }
    ensures no_memory { result ≢ Err OutOfMemory }
{
    let mut bytes = [0u8; 1];
    read_exact(source, &mut bytes)?;
    Ok(bytes[0])
}

/// The number in the next two bytes, the highest first. Faults are those of `read_exact`.
pub fn read16<R: Source>(source: &mut R) -> Result<u16, ReadFault>
    ensures taken { IfOk result (ReadsNumber big_number 2 (R.left source.old) (R.left source.new)) }
    ensures reads { Reads R.Source source.old source.new 2 result }
    ensures no_memory { result ≢ Err OutOfMemory }
{
    let mut bytes = [0u8; 2];
    read_exact(source, &mut bytes)?;
    Ok(BigEndian::loadu16(&bytes, 0))
}

/// The number in the next eight bytes, the highest first. Faults are those of `read_exact`.
pub fn read64<R: Source>(source: &mut R) -> Result<u64, ReadFault>
    ensures taken { IfOk result (ReadsNumber big_number 8 (R.left source.old) (R.left source.new)) }
    ensures reads { Reads R.Source source.old source.new 8 result }
    ensures no_memory { result ≢ Err OutOfMemory }
{
    let mut bytes = [0u8; 8];
    read_exact(source, &mut bytes)?;
    Ok(BigEndian::loadu64(&bytes, 0))
}

// How many bytes go through the stack at a time.
const BLOCK: usize = 8192;

/// Takes the next `len` bytes and forgets them, without memory. Faults are those of `read_exact`.
#[tactic(auto, using(crate::proofs::ReadSteps::skipped_short))]
pub fn discard_exact<R: Source>(source: &mut R, len: u64) -> Result<(), ReadFault>
    ensures taken { OnOk result (Skips (R.left source.old) (R.left source.new) len) }
    ensures reads { Reads R.Source source.old source.new len result }
    ensures no_memory { result ≢ Err OutOfMemory }
    ensures stream { R.stream source.new ≡ R.stream source.old }
{
    let n = source.skip(len)?;
    if n < len {
        return Err(ReadFault::End);
    }
    Ok(())
}

// Puts bytes at hand at the end of the list, at most `most`, and answers how many.
fn take_at_hand<R: Source>(source: &mut R, list: &mut Vec<u8>, most: u64) -> Result<u64, AllocError>
    ensures bound { IfOk result (λ n. n ≤ most) }
    ensures taken { IfOk result (λ n. IsFetchedOnto (R.left source.old) (R.left source.new)
        list.old.items list.new.items n) }
    ensures kept { StartsWith list.new.items list.old.items }
    ensures counts { Counts R.Source source.old source.new false }
    ensures stream { R.stream source.new ≡ R.stream source.old }
{
    let mut missing = most;
    while missing > 0 {
        let n = source.take_at_hand(list, missing)?;
        if n == 0 {
            return Ok(most - missing);
        }
        missing -= n;
    }
    Ok(most)
}

// Puts the next bytes at the end of the list by blocks, at most `most`, and answers how many: fewer
// only where they end.
fn read_by_blocks<R: Source>(
    source: &mut R,
    list: &mut Vec<u8>,
    most: u64,
) -> Result<u64, ReadFault>
    ensures bound { IfOk result (λ n. n ≤ most) }
    ensures taken { IfOk result (λ n. IsFetchedOnto (R.left source.old) (R.left source.new)
        list.old.items list.new.items n) }
    ensures end { IfOk result (λ n. n < most → IsAtEnd (R.left source.new)) }
    ensures no_end { result ≢ Err End }
    ensures kept { StartsWith list.new.items list.old.items }
    ensures counts { Counts R.Source source.old source.new (is_io_fault result) }
    ensures stream { R.stream source.new ≡ R.stream source.old }
{
    let mut block = [0u8; BLOCK];
    let mut missing = most;
    while missing > 0 {
        let room = missing.min(BLOCK as u64) as usize;
        let n = source.fetch(&mut block[..room])?;
        if n == 0 {
            return Ok(most - missing);
        }
        list.extend_from_slice(&block[..n])?;
        missing -= n as u64;
    }
    Ok(most)
}

/// Puts the next bytes at the end of the list, at most `most`, and answers how many: fewer only
/// where they end.
///
/// What is at hand is copied once, and the rest comes by blocks. The list grows only as far as
/// bytes come, so a length that lies takes no memory. The end is no fault here. After a fault the
/// list holds what it held and then some of the bytes.
pub fn read_at_most<R: Source>(
    source: &mut R,
    list: &mut Vec<u8>,
    most: u64,
) -> Result<u64, ReadFault>
    ensures bound { IfOk result (λ n. n ≤ most) }
    ensures taken { IfOk result (λ n. IsFetchedOnto (R.left source.old) (R.left source.new)
        list.old.items list.new.items n) }
    ensures end { IfOk result (λ n. n < most → IsAtEnd (R.left source.new)) }
    ensures no_end { result ≢ Err End }
    ensures kept { StartsWith list.new.items list.old.items }
    ensures counts { Counts R.Source source.old source.new (is_io_fault result) }
    ensures stream { R.stream source.new ≡ R.stream source.old }
{
    let at_hand = take_at_hand(source, list, most)?;
    if at_hand == most {
        return Ok(most);
    }
    let behind = read_by_blocks(source, list, most - at_hand)?;
    Ok(at_hand + behind)
}

/// Puts the next `len` bytes at the end of the list.
///
/// All is as `read_at_most` has it, but that an end before is a fault.
pub fn read_exact_len<R: Source>(
    source: &mut R,
    buf: &mut Vec<u8>,
    len: u64,
) -> Result<(), ReadFault>
    ensures taken { OnOk result (IsFetchedOnto (R.left source.old) (R.left source.new)
        buf.old.items buf.new.items len) }
    ensures reads { Reads R.Source source.old source.new len result }
    ensures kept { StartsWith buf.new.items buf.old.items }
    ensures stream { R.stream source.new ≡ R.stream source.old }
{
    let n = read_at_most(source, buf, len)?;
    if n < len {
        return Err(ReadFault::End);
    }
    Ok(())
}

/// Puts all the bytes that are left at the end of the list.
///
/// The end is no fault here. After a fault the list holds what it held and then some of the bytes.
pub fn read_to_end<R: Source>(source: &mut R, buf: &mut Vec<u8>) -> Result<(), ReadFault>
    ensures taken { OnOk result (TakesAll (R.left source.old) buf.old.items buf.new.items) }
    ensures at_end { OnOk result (IsAtEnd (R.left source.new)) }
    ensures no_end { result ≢ Err End }
    ensures kept { StartsWith buf.new.items buf.old.items }
    ensures counts { Counts R.Source source.old source.new (is_io_fault result) }
    ensures stream { R.stream source.new ≡ R.stream source.old }
{
    read_at_most(source, buf, u64::MAX)?;
    Ok(())
}
