//! Where bytes come from and go to: readers and writers that count their failures.

ghost use Rattle.std.specs.Prelude.{◌≡◌, ◌<◌, ◌≤◌, ◌+◌, ℕ, List, [], Option, None, Some, length, take, is_err, IfOk, IfSome, OnOk, true};
ghost use Rattle.std.specs.Io.{ReadsAtMost, StartsWith, WritesAtMost};
ghost use Rattle.std.specs.Io.KnownBytes.{Consumes, IsAtEnd, Keeps, ReadConsumes, WriteAppends};
ghost use Rattle.exif_base.specs.Device.{count_after, put_failed};
ghost use Rattle.exif_base.specs.Told.{IsFetchedOnto, PassesOthers, Skips, left_behind};
ghost use Rattle.exif_base.specs.Counted.{counted_inner, counted_failures};

use std::alloc::AllocError;
use std::io;
use std::io::{Read, Write};

// How many bytes a skip that reads takes at a time.
const BLOCK: usize = 4096;

/// What gives bytes. `Ok(0)` into a buffer with space is the end.
pub trait Source {
    /// The bytes that fetches will give from here on, where they are known.
    ghost left: { Self → Option (List ℕ) };

    /// All bytes of the stream, of which offsets count, where they are known.
    ghost stream: { Self → Option (List ℕ) } = { λ _. None };

    /// How many fetches and skips failed, up to 2^64 - 1.
    ghost failures: { Self → ℕ };

    /// The names of the references that it reads through, the outermost first.
    ghost through: { Self → List ℕ };

    /// Puts the next bytes at the front of the buffer, and answers how many.
    ///
    /// An error gave none of them, and they are still to come.
    fn fetch(&mut self, buf: &mut [u8]) -> io::Result<usize>
        ensures bound { ReadsAtMost result buf.new }
        ensures bytes { ReadConsumes (left self.old) (left self.new) result buf.new }
        ensures count { failures self.new ≡ count_after (is_err result) (failures self.old) }
        ensures stream { stream self.new ≡ stream self.old }
        ensures same { through self.new ≡ through self.old };

    /// Takes the next `len` bytes and forgets them, without memory. Answers how many: fewer only
    /// where the bytes end.
    ///
    /// After an error, how many were taken is left open. A source that can pass over bytes without
    /// reading them does it here.
    fn skip(&mut self, len: u64) -> io::Result<u64>
        ensures bound { IfOk result (λ n. n ≤ len) }
        ensures bytes { IfOk result (Skips (left self.old) (left self.new)) }
        ensures end { IfOk result (λ n. n < len → IsAtEnd (left self.new)) }
        ensures count { failures self.new ≡ count_after (is_err result) (failures self.old) }
        ensures stream { stream self.new ≡ stream self.old }
        ensures same { through self.new ≡ through self.old }
    {
        let mut block = [0u8; BLOCK];
        let mut rest = len;
        while rest > 0 {
            let room = rest.min(BLOCK as u64) as usize;
            let n = self.fetch(&mut block[..room])?;
            if n == 0 {
                return Ok(len - rest);
            }
            rest -= n as u64;
        }
        Ok(len)
    }

    /// Whether all bytes that are left are at hand, so that reading them by blocks gains nothing.
    ///
    /// It says how to read fast, not what is read: `false` is always a right answer.
    fn is_at_hand(&self) -> bool {
        false
    }

    /// Puts bytes that are at hand at the end of the list, at most `most`, and answers how many.
    ///
    /// It reads nothing, so only memory can fail it. Which bytes are at hand is the source's own
    /// choice, and 0 is always a right answer. Where memory fails the list holds what it held and
    /// then some of the bytes.
    fn take_at_hand(&mut self, list: &mut Vec<u8>, most: u64) -> Result<u64, AllocError>
        ensures bound { IfOk result (λ n. n ≤ most) }
        ensures bytes { IfOk result (λ n.
            IsFetchedOnto (left self.old) (left self.new) list.old.items list.new.items n) }
        ensures kept { StartsWith list.new.items list.old.items }
        ensures count { failures self.new ≡ failures self.old }
        ensures stream { stream self.new ≡ stream self.old }
        ensures same { through self.new ≡ through self.old }
    {
        Ok(0)
    }

    /// Takes bytes at hand up to the first `stop`, at most `most`, and answers how many.
    ///
    /// It reads nothing, so it cannot fail. Which bytes are at hand is the source's own choice, and
    /// 0 is always a right answer.
    fn pass_others(&mut self, stop: u8, most: u64) -> u64
        ensures bound { result ≤ most }
        ensures passed { PassesOthers (left self.old) (left self.new) stop result }
        ensures count { failures self.new ≡ failures self.old }
        ensures stream { stream self.new ≡ stream self.old }
        ensures same { through self.new ≡ through self.old }
    {
        0
    }

    /// The offset of the next byte in the stream, or none where the source does not know it.
    ///
    /// It takes no byte. `None` is always a right answer.
    fn offset(&mut self) -> Option<u64>
        ensures found { IfSome result (λ at.
            left self.new ≡ left_behind (Some at) (stream self.new)) }
        ensures bytes { Keeps (left self.old) (left self.new) }
        ensures stream { stream self.new ≡ stream self.old }
        ensures count { failures self.new ≡ failures self.old }
        ensures same { through self.new ≡ through self.old }
    {
        None
    }

    /// Puts bytes of the stream, from this offset on, at the front of the buffer, and answers how
    /// many. It takes no byte.
    ///
    /// `Some(0)` into a buffer with space is the end of the stream. `None`: the source does not
    /// read at an offset. That is always a right answer. After an error, which bytes are left is
    /// open.
    fn fetch_at(&mut self, offset: u64, buf: &mut [u8]) -> io::Result<Option<usize>>
        ensures bound { IfOk result (λ found. IfSome found (λ n. n ≤ length buf.new)) }
        ensures bytes { IfOk result (λ found. IfSome found (λ n. Consumes
            (left_behind (Some offset) (stream self.old))
            (left_behind (Some (offset + n)) (stream self.old)) (take n buf.new))) }
        ensures end { IfOk result (λ found. IfSome found (λ n. n ≡ 0 → 0 < length buf.new
            → IsAtEnd (left_behind (Some offset) (stream self.old)))) }
        ensures kept { OnOk result (Keeps (left self.old) (left self.new)) }
        ensures stream { stream self.new ≡ stream self.old }
        ensures count { failures self.new ≡ count_after (is_err result) (failures self.old) }
        ensures same { through self.new ≡ through self.old }
    {
        Ok(None)
    }
}

/// What takes bytes. `Ok(0)` of some bytes is a failure.
pub trait Sink {
    /// The bytes that were taken so far, where they are known.
    ghost taken: { Self → Option (List ℕ) };

    /// How many puts and flushes failed, up to 2^64 - 1.
    ghost failures: { Self → ℕ };

    /// The names of the references that it writes through, the outermost first.
    ghost through: { Self → List ℕ };

    /// Takes a front of the bytes, and answers how many. An error took none.
    fn put(&mut self, bytes: &[u8]) -> io::Result<usize>
        ensures bound { WritesAtMost result bytes.now }
        ensures bytes { WriteAppends (taken self.old) (taken self.new) result bytes.now }
        ensures count { failures self.new
            ≡ count_after (put_failed result (length bytes.now)) (failures self.old) }
        ensures same { through self.new ≡ through self.old };

    /// Hands on what was taken, and takes no byte.
    fn flush(&mut self) -> io::Result<()>
        ensures bytes { Keeps (taken self.old) (taken self.new) }
        ensures count { failures self.new ≡ count_after (is_err result) (failures self.old) }
        ensures same { through self.new ≡ through self.old };
}

/// A reader or a writer, and how many of its calls failed.
///
/// Each fetch, put or flush is one call of it.
#[derive(Drop)]
pub struct Counted<T> {
    inner: T,
    failures: u64,
}

impl<T> Counted<T> {
    /// The reader or writer as it is, with no failure counted.
    pub fn new(inner: T) -> Counted<T>
        ensures inner { counted_inner result ≡ inner }
        ensures count { counted_failures result ≡ 0 }
    {
        Counted { inner, failures: 0 }
    }

    /// The reader or writer as it is now.
    pub fn into_inner(self) -> T
        ensures { result ≡ counted_inner self }
    {
        self.inner
    }

    // One failure more.
    fn count_failure(&mut self)
        ensures inner { counted_inner self.new ≡ counted_inner self.old }
        ensures count { counted_failures self.new ≡ count_after true (counted_failures self.old) }
    {
        self.failures = self.failures.saturating_add(1);
    }
}

impl<R: Read> Source for Counted<R> {
    ghost left = { λ c. R.remaining (counted_inner c) };

    ghost failures = { counted_failures };

    ghost through = { λ _. [] };

    fn fetch(&mut self, buf: &mut [u8]) -> io::Result<usize> {
        let result = self.inner.read(buf);
        if result.is_err() {
            self.count_failure();
        }
        result
    }
}

impl<W: Write> Sink for Counted<W> {
    ghost taken = { λ c. W.contents (counted_inner c) };

    ghost failures = { counted_failures };

    ghost through = { λ _. [] };

    fn put(&mut self, bytes: &[u8]) -> io::Result<usize> {
        let result = self.inner.write(bytes);
        let failed = match result {
            Ok(n) => n == 0 && !bytes.is_empty(),
            Err(_) => true,
        };
        if failed {
            self.count_failure();
        }
        result
    }

    fn flush(&mut self) -> io::Result<()> {
        let result = self.inner.flush();
        if result.is_err() {
            self.count_failure();
        }
        result
    }
}
