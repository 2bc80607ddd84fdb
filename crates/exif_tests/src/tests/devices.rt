//! Readers that give and writers that take one byte a call, and readers that seek, which fail from
//! some call on.

use exif_base::{Counted, ReadSeek, Seekable};
use std::io;
use std::io::{Cursor, ErrorKind, Read, Seek, SeekFrom, Write};

/// A reader of one byte a call, which fails from some call on and counts its failures.
#[derive(Drop)]
pub struct OneByte<'a> {
    bytes: &'a [u8],
    good_calls: usize,
    kind: ErrorKind,
    pub failures: u32,
}

impl Read for OneByte<'_> {
    fn read(&mut self, buf: &mut [u8]) -> io::Result<usize> {
        if self.good_calls == 0 {
            self.failures = self.failures.saturating_add(1);
            return Err(io::Error::new(self.kind, "the reader failed"));
        }
        self.good_calls -= 1;
        let bytes: &[u8] = self.bytes;
        if bytes.is_empty() || buf.is_empty() {
            return Ok(0);
        }
        buf[0] = bytes[0];
        self.bytes = &bytes[1..];
        Ok(1)
    }
}

/// A reader of one byte a call, with so many good calls.
fn reader(bytes: &[u8], good_calls: usize, kind: ErrorKind) -> OneByte<'_> {
    OneByte {
        bytes,
        good_calls,
        kind,
        failures: 0,
    }
}

/// A counted reader of one byte a call, with so many good calls.
pub fn one_byte(bytes: &[u8], good_calls: usize, kind: ErrorKind) -> Counted<OneByte<'_>> {
    Counted::new(reader(bytes, good_calls, kind))
}

/// A reader of one byte a call, all of which are good.
pub fn byte_reader(bytes: &[u8]) -> OneByte<'_> {
    reader(bytes, usize::MAX, ErrorKind::Other)
}

/// A writer of one byte a call, which fails from some call on and counts its failures.
#[derive(Drop)]
pub struct Drip {
    pub bytes: [u8; 8],
    taken: usize,
    good_calls: usize,
    kind: ErrorKind,
    pub failures: u32,
}

impl Write for Drip {
    fn write(&mut self, buf: &[u8]) -> io::Result<usize> {
        self.flush()?;
        if buf.is_empty() || self.taken >= self.bytes.len() {
            return Ok(0);
        }
        self.bytes[self.taken] = buf[0];
        self.taken += 1;
        Ok(1)
    }

    fn flush(&mut self) -> io::Result<()> {
        if self.good_calls == 0 {
            self.failures = self.failures.saturating_add(1);
            return Err(io::Error::new(self.kind, "the writer failed"));
        }
        self.good_calls -= 1;
        Ok(())
    }
}

/// A writer of one byte a call, with so many good calls.
fn writer(good_calls: usize, kind: ErrorKind) -> Drip {
    Drip {
        bytes: [0u8; 8],
        taken: 0,
        good_calls,
        kind,
        failures: 0,
    }
}

/// A counted writer of one byte a call, with so many good calls.
pub fn dripping(good_calls: usize, kind: ErrorKind) -> Counted<Drip> {
    Counted::new(writer(good_calls, kind))
}

/// A writer of one byte a call, all of which are good.
pub fn byte_writer() -> Drip {
    writer(usize::MAX, ErrorKind::Other)
}

/// A reader that seeks, fails from some call on and counts its failures.
#[derive(Drop)]
pub struct Stream<'a> {
    cursor: Cursor<&'a [u8]>,
    tells_its_end: bool,
    good_calls: usize,
    kind: ErrorKind,
    pub failures: u32,
}

impl Stream<'_> {
    // One call more, where it is a good one.
    fn call(&mut self) -> io::Result<()> {
        if self.good_calls == 0 {
            self.failures = self.failures.saturating_add(1);
            return Err(io::Error::new(self.kind, "the stream failed"));
        }
        self.good_calls -= 1;
        Ok(())
    }
}

impl Read for Stream<'_> {
    fn read(&mut self, buf: &mut [u8]) -> io::Result<usize> {
        self.call()?;
        self.cursor.read(buf)
    }
}

impl Seek for Stream<'_> {
    fn seek(&mut self, to: SeekFrom) -> io::Result<u64> {
        self.call()?;
        if !self.tells_its_end && matches!(to, SeekFrom::End(_)) {
            return Err(io::Error::new(self.kind, "the stream tells no end"));
        }
        self.cursor.seek(to)
    }
}

impl ReadSeek for Stream<'_> {
    fn reads_in_place(&self) {}

    fn read_stream(&mut self, buf: &mut [u8]) -> io::Result<usize> {
        self.read(buf)
    }

    fn seek_stream(&mut self, to: SeekFrom) -> io::Result<u64> {
        self.seek(to)
    }
}

/// A reader that seeks, with so many good calls.
pub fn seeking(bytes: &[u8], good_calls: usize, kind: ErrorKind) -> Seekable<Stream<'_>> {
    Seekable::new(Stream {
        cursor: Cursor::new(bytes),
        tells_its_end: true,
        good_calls,
        kind,
        failures: 0,
    })
}

/// A reader that seeks, but not from its end.
pub fn without_an_end(bytes: &[u8]) -> Seekable<Stream<'_>> {
    Seekable::new(Stream {
        cursor: Cursor::new(bytes),
        tells_its_end: false,
        good_calls: 100,
        kind: ErrorKind::InvalidInput,
        failures: 0,
    })
}
