//! Sources that seek over what they skip.

ghost use Rattle.std.specs.Prelude.{◌≡◌, ◌<◌, ◌≤◌, ◌+◌, ◌++◌, [], Some, length, take, IfOk, IfSome, OnOk, true};
ghost use Rattle.std.specs.Io.{ReadsAtMost, StartsWith};
ghost use Rattle.std.specs.Io.KnownBytes.{Consumes, IsAtEnd, Keeps, ReadConsumes};
ghost use Rattle.std.specs.Io.Seek.{SeekMoves};
ghost use Rattle.exif_base.specs.Device.{count_after};
ghost use Rattle.exif_base.specs.Seekable.{known_stream, seekable_failures, seekable_inner};
ghost use Rattle.exif_base.specs.Told.{IsFetchedOnto, PassesOthers, Skips, left_behind};

use crate::device::Source;
use crate::search::others_between;
use std::alloc::AllocError;
use std::fs::File;
use std::io;
use std::io::{AsBytes, Cursor, Read, Seek, SeekFrom};

// How many bytes are read at a time where the end was not found by a seek.
const BLOCK: usize = 512;

// How many bytes in memory are copied at a time.
const PIECE: usize = 4096;

// The highest offset that a file can have: systems count them in 63 bits.
const MAX_OFFSET: u64 = i64::MAX as u64;

/// A reader that seeks in what it reads.
pub trait ReadSeek: Read + Seek {
    /// Reads give the bytes of the stream from the current offset on, where both are known.
    ///
    /// A law: its body is empty.
    fn reads_in_place(&self)
        ensures { Self.remaining self.now
            ≡ left_behind (Self.stream_position self.now) (Self.stream_bytes self.now) };

    /// Reads as `read` does, and keeps the bytes of the stream.
    fn read_stream(&mut self, buf: &mut [u8]) -> io::Result<usize>
        ensures bound { ReadsAtMost result buf.new }
        ensures bytes { ReadConsumes (Self.remaining self.old) (Self.remaining self.new) result
            buf.new }
        ensures stream { known_stream (Self.stream_position self.new) (Self.stream_bytes self.new)
            ≡ known_stream (Self.stream_position self.old) (Self.stream_bytes self.old) };

    /// Seeks as `seek` does, and keeps the bytes of the stream.
    fn seek_stream(&mut self, to: SeekFrom) -> io::Result<u64>
        ensures moves { SeekMoves (Self.stream_position self.old) (Self.stream_position self.new)
            (Self.stream_bytes self.old) to result }
        ensures stream { known_stream (Self.stream_position self.new) (Self.stream_bytes self.new)
            ≡ known_stream (Self.stream_position self.old) (Self.stream_bytes self.old) };

    /// Whether all bytes that reads will give are in memory.
    ///
    /// It says how to read fast, not what is read: `false` is always a right answer.
    fn is_in_memory(&self) -> bool {
        false
    }

    /// Puts the next bytes at the end of the list, at most `most`, where they are in memory, and
    /// answers how many.
    ///
    /// Where memory fails the list holds what it held and then some of the bytes.
    fn take_in_memory(&mut self, list: &mut Vec<u8>, most: u64) -> Result<u64, AllocError>
        ensures bound { IfOk result (λ n. n ≤ most) }
        ensures bytes { IfOk result (λ n. IsFetchedOnto (Self.remaining self.old)
            (Self.remaining self.new) list.old.items list.new.items n) }
        ensures kept { StartsWith list.new.items list.old.items }
        ensures stream { known_stream (Self.stream_position self.new) (Self.stream_bytes self.new)
            ≡ known_stream (Self.stream_position self.old) (Self.stream_bytes self.old) }
    {
        Ok(0)
    }

    /// Takes the next bytes up to the first `stop`, at most `most`, where they are in memory, and
    /// answers how many.
    fn pass_in_memory(&mut self, stop: u8, most: u64) -> u64
        ensures bound { result ≤ most }
        ensures passed { PassesOthers (Self.remaining self.old) (Self.remaining self.new) stop
            result }
        ensures stream { known_stream (Self.stream_position self.new) (Self.stream_bytes self.new)
            ≡ known_stream (Self.stream_position self.old) (Self.stream_bytes self.old) }
    {
        0
    }
}

impl ReadSeek for File {
    fn reads_in_place(&self) {}

    fn read_stream(&mut self, buf: &mut [u8]) -> io::Result<usize> {
        self.read(buf)
    }

    fn seek_stream(&mut self, to: SeekFrom) -> io::Result<u64> {
        self.seek(to)
    }
}

impl ReadSeek for &File {
    fn reads_in_place(&self) {}

    fn read_stream(&mut self, buf: &mut [u8]) -> io::Result<usize> {
        self.read(buf)
    }

    fn seek_stream(&mut self, to: SeekFrom) -> io::Result<u64> {
        self.seek(to)
    }
}

impl<T: AsBytes> ReadSeek for Cursor<T> {
    fn reads_in_place(&self) {}

    fn read_stream(&mut self, buf: &mut [u8]) -> io::Result<usize> {
        self.read(buf)
    }

    fn seek_stream(&mut self, to: SeekFrom) -> io::Result<u64> {
        self.seek(to)
    }

    fn is_in_memory(&self) -> bool {
        true
    }

    fn take_in_memory(&mut self, list: &mut Vec<u8>, most: u64) -> Result<u64, AllocError> {
        let offset = self.position();
        let all = self.get_ref().as_byte_slice();
        let start = offset.min(all.len() as u64) as usize;
        let n = most.min((all.len() - start) as u64);
        copy_in_pieces(&all[start..start + n as usize], list)?;
        self.set_position(offset + n);
        Ok(n)
    }

    fn pass_in_memory(&mut self, stop: u8, most: u64) -> u64 {
        let offset = self.position();
        let all = self.get_ref().as_byte_slice();
        let start = offset.min(all.len() as u64) as usize;
        let n = others_between(all, start, all.len(), stop, most) as u64;
        self.set_position(offset + n);
        n
    }
}

/// A reader that seeks over what is skipped, and how many of its calls failed.
///
/// Each fetch is one read. A skip asks where the stream is and where it ends, and seeks. What
/// does not seek, as a pipe, is in a `Counted`.
#[derive(Drop)]
pub struct Seekable<R> {
    inner: R,
    failures: u64,
}

impl<R> Seekable<R> {
    /// The reader as it is, with no failure counted.
    pub fn new(inner: R) -> Seekable<R>
        ensures inner { seekable_inner result ≡ inner }
        ensures count { seekable_failures result ≡ 0 }
    {
        Seekable { inner, failures: 0 }
    }

    /// The reader as it is now.
    pub fn into_inner(self) -> R
        ensures { result ≡ seekable_inner self }
    {
        self.inner
    }

    // One failure more.
    fn count_failure(&mut self)
        ensures inner { seekable_inner self.new ≡ seekable_inner self.old }
        ensures count { seekable_failures self.new
            ≡ count_after true (seekable_failures self.old) }
    {
        self.failures = self.failures.saturating_add(1);
    }
}

impl<R: ReadSeek> Source for Seekable<R> {
    ghost left = { λ s. R.remaining (seekable_inner s) };

    ghost stream = { λ s. known_stream (R.stream_position (seekable_inner s))
        (R.stream_bytes (seekable_inner s)) };

    ghost failures = { seekable_failures };

    ghost through = { λ _. [] };

    fn fetch(&mut self, buf: &mut [u8]) -> io::Result<usize> {
        let result = self.inner.read_stream(buf);
        if result.is_err() {
            self.count_failure();
        }
        result
    }

    fn skip(&mut self, len: u64) -> io::Result<u64> {
        let result = skip_in(&mut self.inner, len);
        if result.is_err() {
            self.count_failure();
        }
        result
    }

    fn is_at_hand(&self) -> bool {
        self.inner.is_in_memory()
    }

    fn take_at_hand(&mut self, list: &mut Vec<u8>, most: u64) -> Result<u64, AllocError> {
        self.inner.take_in_memory(list, most)
    }

    fn pass_others(&mut self, stop: u8, most: u64) -> u64 {
        self.inner.pass_in_memory(stop, most)
    }

    fn offset(&mut self) -> Option<u64> {
        offset_in(&mut self.inner)
    }

    fn fetch_at(&mut self, offset: u64, buf: &mut [u8]) -> io::Result<Option<usize>> {
        let result = fetch_at_in(&mut self.inner, offset, buf);
        if result.is_err() {
            self.count_failure();
        }
        result
    }
}

// Puts the bytes at the end of the list, in pieces that stay in the nearest cache: a long copy at
// once goes past it, and takes longer.
fn copy_in_pieces(bytes: &[u8], buf: &mut Vec<u8>) -> Result<(), AllocError>
    ensures copied { OnOk result (buf.new.items ≡ buf.old.items ++ bytes.now) }
    ensures kept { StartsWith buf.new.items buf.old.items }
{
    buf.reserve(bytes.len())?;
    let mut at = 0;
    while at < bytes.len() {
        let end = at + PIECE.min(bytes.len() - at);
        buf.extend_from_slice(&bytes[at..end])?;
        at = end;
    }
    Ok(())
}

// Takes the next `len` bytes, and answers how many: fewer only where they end.
fn skip_in<R: ReadSeek>(stream: &mut R, len: u64) -> io::Result<u64>
    ensures bound { IfOk result (λ n. n ≤ len) }
    ensures bytes { IfOk result (Skips (R.remaining stream.old) (R.remaining stream.new)) }
    ensures end { IfOk result (λ n. n < len → IsAtEnd (R.remaining stream.new)) }
    ensures stream { known_stream (R.stream_position stream.new) (R.stream_bytes stream.new)
        ≡ known_stream (R.stream_position stream.old) (R.stream_bytes stream.old) }
{
    let n = seek_over(stream, len)?;
    if n == len {
        return Ok(n);
    }
    // Where the bytes seemed to end, a read decides: a file may have grown.
    let behind = read_over(stream, len - n)?;
    Ok(n + behind)
}

// Moves the offset on by `len` bytes, or to the end where there are fewer. Answers by how many: by
// none where the stream does not report its end.
fn seek_over<R: ReadSeek>(stream: &mut R, len: u64) -> io::Result<u64>
    ensures bound { IfOk result (λ n. n ≤ len) }
    ensures bytes { IfOk result (Skips (R.remaining stream.old) (R.remaining stream.new)) }
    ensures stream { known_stream (R.stream_position stream.new) (R.stream_bytes stream.new)
        ≡ known_stream (R.stream_position stream.old) (R.stream_bytes stream.old) }
{
    stream.reads_in_place();
    let offset = stream.seek_stream(SeekFrom::Current(0))?;
    let seen = stream.seek_stream(SeekFrom::End(0));
    stream.reads_in_place();
    let Ok(end) = seen else {
        return Ok(0);
    };
    let n = end.saturating_sub(offset).min(len);
    stream.seek_stream(SeekFrom::Start(offset + n))?;
    stream.reads_in_place();
    Ok(n)
}

// Reads the next `len` bytes and forgets them. Answers how many: fewer only where they end.
fn read_over<R: ReadSeek>(reader: &mut R, len: u64) -> io::Result<u64>
    ensures bound { IfOk result (λ n. n ≤ len) }
    ensures bytes { IfOk result (Skips (R.remaining reader.old) (R.remaining reader.new)) }
    ensures end { IfOk result (λ n. n < len → IsAtEnd (R.remaining reader.new)) }
    ensures stream { known_stream (R.stream_position reader.new) (R.stream_bytes reader.new)
        ≡ known_stream (R.stream_position reader.old) (R.stream_bytes reader.old) }
{
    let mut block = [0u8; BLOCK];
    let mut rest = len;
    while rest > 0 {
        let room = rest.min(BLOCK as u64) as usize;
        let n = reader.read_stream(&mut block[..room])?;
        if n == 0 {
            return Ok(len - rest);
        }
        rest -= n as u64;
    }
    Ok(len)
}

// Where the stream is, if it reports that.
fn offset_in<R: ReadSeek>(stream: &mut R) -> Option<u64>
    ensures found { IfSome result (λ at. R.remaining stream.new ≡ left_behind (Some at)
        (known_stream (R.stream_position stream.new) (R.stream_bytes stream.new))) }
    ensures bytes { Keeps (R.remaining stream.old) (R.remaining stream.new) }
    ensures stream { known_stream (R.stream_position stream.new) (R.stream_bytes stream.new)
        ≡ known_stream (R.stream_position stream.old) (R.stream_bytes stream.old) }
{
    stream.reads_in_place();
    let found = stream.seek_stream(SeekFrom::Current(0)).ok();
    stream.reads_in_place();
    found
}

// Moves to an offset of the stream.
fn go_in<R: ReadSeek>(stream: &mut R, offset: u64) -> io::Result<()>
    ensures moved { OnOk result (R.remaining stream.new ≡ left_behind (Some offset)
        (known_stream (R.stream_position stream.new) (R.stream_bytes stream.new))) }
    ensures stream { known_stream (R.stream_position stream.new) (R.stream_bytes stream.new)
        ≡ known_stream (R.stream_position stream.old) (R.stream_bytes stream.old) }
{
    stream.seek_stream(SeekFrom::Start(offset))?;
    stream.reads_in_place();
    Ok(())
}

// Reads at an offset of the stream, and goes back to where it was. None where the stream does not
// report where that is, and at an offset that no file has.
fn fetch_at_in<R: ReadSeek>(
    stream: &mut R,
    offset: u64,
    buf: &mut [u8],
) -> io::Result<Option<usize>>
    ensures bound { IfOk result (λ found. IfSome found (λ n. n ≤ length buf.new)) }
    ensures bytes { IfOk result (λ found. IfSome found (λ n. let all = known_stream
        (R.stream_position stream.old) (R.stream_bytes stream.old) in Consumes
        (left_behind (Some offset) all) (left_behind (Some (offset + n)) all) (take n buf.new))) }
    ensures end { IfOk result (λ found. IfSome found (λ n. n ≡ 0 → 0 < length buf.new
        → IsAtEnd (left_behind (Some offset)
        (known_stream (R.stream_position stream.old) (R.stream_bytes stream.old))))) }
    ensures kept { OnOk result (Keeps (R.remaining stream.old) (R.remaining stream.new)) }
    ensures stream { known_stream (R.stream_position stream.new) (R.stream_bytes stream.new)
        ≡ known_stream (R.stream_position stream.old) (R.stream_bytes stream.old) }
{
    if offset > MAX_OFFSET {
        return Ok(None);
    }
    let Some(back) = offset_in(stream) else {
        return Ok(None);
    };
    go_in(stream, offset)?;
    let n = stream.read_stream(buf)?;
    go_in(stream, back)?;
    Ok(Some(n))
}
