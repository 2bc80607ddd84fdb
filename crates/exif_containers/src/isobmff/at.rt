//! Bytes of a file that are read at an offset of the stream. The source takes none, so that what is
//! left of it can still be read where it does not read at an offset: the answer is none then.

ghost use Rattle.std.specs.Prelude.{◌≡◌, ◌<◌, ◌≤◌, ◌+◌, Some, length, take, is_err, IfOk, IfErr, IfSome, OnOk};
ghost use Rattle.std.specs.Io.KnownBytes.{Consumes, IsAtEnd, Keeps};
ghost use Rattle.exif_base.specs.Reads.{Counts};
ghost use Rattle.exif_base.specs.Told.{left_behind};
ghost use Rattle.exif_types.specs.Refusals.{IsInterrupted, is_io};
ghost use Rattle.exif_containers.specs.GoingBack.{TakesBody};

use exif_base::Source;
use exif_types::Error;
use std::alloc::Global;
use std::io;

// How many bytes are read at a time.
const BLOCK: usize = 8192;

/// Fills the front of the buffer with the bytes from an offset on: all of it, or as far as the
/// stream goes. Answers how many.
pub fn read_front_at<R: Source>(
    source: &mut R,
    offset: u64,
    buf: &mut [u8],
) -> io::Result<Option<usize>>
    ensures bound { IfOk result (λ found. IfSome found (λ n. n ≤ length buf.new)) }
    ensures taken { IfOk result (λ found. IfSome found (λ n. Consumes
        (left_behind (Some offset) (R.stream source.old))
        (left_behind (Some (offset + n)) (R.stream source.old)) (take n buf.new))) }
    ensures end { IfOk result (λ found. IfSome found (λ n. n < length buf.new
        → IsAtEnd (left_behind (Some (offset + n)) (R.stream source.old)))) }
    ensures kept { OnOk result (Keeps (R.left source.old) (R.left source.new)) }
    ensures stream { R.stream source.new ≡ R.stream source.old }
    ensures counts { Counts R.Source source.old source.new (is_err result) }
{
    let mut at = 0;
    while at < buf.len() {
        let Some(next) = offset.checked_add(at as u64) else {
            return Ok(None);
        };
        let Some(n) = source.fetch_at(next, &mut buf[at..])? else {
            return Ok(None);
        };
        if n == 0 {
            return Ok(Some(at));
        }
        at += n;
    }
    Ok(Some(at))
}

/// So many bytes from an offset on, or as far as the stream goes.
pub fn read_at<R: Source>(
    alloc: Global,
    source: &mut R,
    offset: u64,
    len: u64,
) -> Result<Option<Vec<u8>>, Error>
    ensures taken { IfOk result (λ found. IfSome found (λ bytes. TakesBody len bytes.items
        (left_behind (Some offset) (R.stream source.old))
        (left_behind (Some (offset + len)) (R.stream source.old)))) }
    ensures kept { OnOk result (Keeps (R.left source.old) (R.left source.new)) }
    ensures interrupted { IfErr result IsInterrupted }
    ensures stream { R.stream source.new ≡ R.stream source.old }
    ensures counts { Counts R.Source source.old source.new (is_io result) }
{
    let mut bytes = Vec::new(alloc);
    let mut block = [0u8; BLOCK];
    let mut missing = len;
    while missing > 0 {
        let space = missing.min(BLOCK as u64) as usize;
        let Some(next) = offset.checked_add(len - missing) else {
            return Ok(None);
        };
        let Some(n) = source.fetch_at(next, &mut block[..space])? else {
            return Ok(None);
        };
        if n == 0 {
            return Ok(Some(bytes));
        }
        bytes.extend_from_slice(&block[..n])?;
        missing -= n as u64;
    }
    Ok(Some(bytes))
}
