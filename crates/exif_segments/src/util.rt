//! What the containers share above the reads of their bytes.

ghost use Rattle.std.specs.Prelude.{◌≡◌, ◌≢◌, ◌<◌, ◌≤◌, length, IfOk, OnOk, IfErr, IfSome, Err, true, false};
ghost use Rattle.std.specs.Io.KnownBytes.{Consumes, IsAtEnd};
ghost use Rattle.exif_base.specs.Reads.{Counts};
ghost use Rattle.exif_base.specs.Told.{HasFewer, IsFetchedOnto, Skips, TakesAll};
ghost use Rattle.exif_types.specs.Refusals.{IsInterrupted, invalid_format, is_io};
ghost use Rattle.exif_types.specs.declared.error.Error.TheVariants.{OutOfMemory};
ghost use Rattle.exif_segments.specs.Answer.{IsErrorOf, IsShort};

use exif_base::{ReadFault, Source, discard_exact, read_exact, read_exact_len};
use exif_types::Error;
use std::alloc::Global;

/// The error that a fault is: the end of the bytes is `InvalidFormat` with this text.
pub fn error_of(fault: ReadFault, broken: &'static str) -> Error
    ensures { IsErrorOf (invalid_format broken.now) fault result }
{
    match fault {
        ReadFault::End => Error::InvalidFormat(broken),
        ReadFault::Io(cause) => Error::Io(cause),
        ReadFault::OutOfMemory => Error::OutOfMemory,
    }
}

/// Fills the buffer with the next bytes. Their end is `InvalidFormat` with this text.
pub fn fill<R: Source>(source: &mut R, buf: &mut [u8], broken: &'static str) -> Result<(), Error>
    ensures taken { OnOk result (Consumes (R.left source.old) (R.left source.new) buf.new) }
    ensures short { IfErr result (λ e. IsShort (invalid_format broken.now) e (R.left source.old)
        (λ xs. length xs < length buf.old)) }
    ensures no_memory { result ≢ Err OutOfMemory }
    ensures counts { Counts R.Source source.old source.new (is_io result) }
{
    read_exact(source, buf).map_err(|fault| error_of(fault, broken))
}

/// Takes the next bytes and forgets them, without memory. Their end is that of `fill`.
pub fn skip<R: Source>(source: &mut R, len: u64, broken: &'static str) -> Result<(), Error>
    ensures taken { OnOk result (Skips (R.left source.old) (R.left source.new) len) }
    ensures short { IfErr result (λ e. IsShort (invalid_format broken.now) e (R.left source.old)
        (λ xs. length xs < len)) }
    ensures no_memory { result ≢ Err OutOfMemory }
    ensures counts { Counts R.Source source.old source.new (is_io result) }
{
    discard_exact(source, len).map_err(|fault| error_of(fault, broken))
}

/// Passes over so many bytes, without memory, and answers whether they go on so far.
///
/// It answers `Io`, and no refusal. How far the source was read then is left open.
pub fn pass_over<R: Source>(source: &mut R, len: u64) -> Result<bool, Error>
    ensures passed { IfOk result
        (λ whole. whole ≡ true → Skips (R.left source.old) (R.left source.new) len) }
    ensures end { IfOk result (λ whole. whole ≡ false → HasFewer (R.left source.old) len) }
    ensures interrupted { IfErr result IsInterrupted }
    ensures no_memory { result ≢ Err OutOfMemory }
    ensures counts { Counts R.Source source.old source.new (is_io result) }
    ensures stream { R.stream source.new ≡ R.stream source.old }
{
    match discard_exact(source, len) {
        Ok(()) => Ok(true),
        Err(ReadFault::End) => Ok(false),
        Err(ReadFault::Io(cause)) => Err(Error::Io(cause)),
        Err(ReadFault::OutOfMemory) => Err(Error::OutOfMemory),
    }
}

/// The next bytes as a list. Their end is that of `fill`.
pub fn collect<R: Source>(
    alloc: Global,
    source: &mut R,
    len: u64,
    broken: &'static str,
) -> Result<Vec<u8>, Error>
    ensures taken { IfOk result (λ v. Consumes (R.left source.old) (R.left source.new) v.items) }
    ensures len { IfOk result (λ v. length v.items ≡ len) }
    ensures short { IfErr result (λ e. IsShort (invalid_format broken.now) e (R.left source.old)
        (λ xs. length xs < len)) }
    ensures counts { Counts R.Source source.old source.new (is_io result) }
{
    let mut bytes = Vec::new(alloc);
    read_exact_len(source, &mut bytes, len).map_err(|fault| error_of(fault, broken))?;
    Ok(bytes)
}

/// Puts the next bytes at the end of the list, at most `most`, and answers how many: fewer only
/// where they end.
///
/// It answers `Io` or `OutOfMemory`, and no refusal. How far the source was read then is left open.
pub fn read_at_most<R: Source>(source: &mut R, list: &mut Vec<u8>, most: u64) -> Result<u64, Error>
    ensures taken { IfOk result (λ n. IsFetchedOnto (R.left source.old) (R.left source.new)
        list.old.items list.new.items n) }
    ensures bound { IfOk result (λ n. n ≤ most) }
    ensures end { IfOk result (λ n. n < most → IsAtEnd (R.left source.new)) }
    ensures interrupted { IfErr result IsInterrupted }
    ensures counts { Counts R.Source source.old source.new (is_io result) }
    ensures stream { R.stream source.new ≡ R.stream source.old }
{
    match exif_base::read_at_most(source, list, most) {
        Ok(n) => Ok(n),
        Err(ReadFault::Io(cause)) => Err(Error::Io(cause)),
        Err(ReadFault::End | ReadFault::OutOfMemory) => Err(Error::OutOfMemory),
    }
}

/// Puts all the bytes that are left at the end of the list. Faults are those of `read_at_most`.
pub fn read_rest<R: Source>(source: &mut R, list: &mut Vec<u8>) -> Result<(), Error>
    ensures taken { OnOk result (TakesAll (R.left source.old) list.old.items list.new.items) }
    ensures at_end { OnOk result (IsAtEnd (R.left source.new)) }
    ensures interrupted { IfErr result IsInterrupted }
    ensures counts { Counts R.Source source.old source.new (is_io result) }
{
    read_at_most(source, list, u64::MAX)?;
    Ok(())
}

/// All the bytes that are left. Faults are those of `read_at_most`.
pub fn read_all<R: Source>(alloc: Global, source: &mut R) -> Result<Vec<u8>, Error>
    ensures taken { IfOk result (λ v. IfSome (R.left source.old) (λ bytes. v.items ≡ bytes)) }
    ensures at_end { OnOk result (IsAtEnd (R.left source.new)) }
    ensures interrupted { IfErr result IsInterrupted }
    ensures counts { Counts R.Source source.old source.new (is_io result) }
{
    let mut bytes = Vec::new(alloc);
    read_rest(source, &mut bytes)?;
    Ok(bytes)
}
