//! Devices that give or take one byte a call and fail after a number of successful calls, a device
//! that fails once, and a writer that only counts.

use std::alloc::Global;
use std::io;
use std::io::{ErrorKind, Read, Write};

/// The kinds of errors that devices fail with.
pub const KINDS: [ErrorKind; 3] = [
    ErrorKind::Other,
    ErrorKind::Interrupted,
    ErrorKind::UnexpectedEof,
];

/// An error of a device. Each kind has a text of its own, so that the text shows the kind too.
#[derive(Clone, Copy)]
pub struct Failure {
    pub kind: ErrorKind,
    pub text: &'static str,
}

impl Failure {
    fn error(self) -> io::Error {
        io::Error::new(self.kind, self.text)
    }
}

/// The errors of readers.
pub static READ_FAILURES: [Failure; 3] = [
    Failure {
        kind: ErrorKind::Other,
        text: "the reader failed",
    },
    Failure {
        kind: ErrorKind::Interrupted,
        text: "the reader was interrupted",
    },
    Failure {
        kind: ErrorKind::UnexpectedEof,
        text: "the reader reported an end",
    },
];

/// The errors of writers. With the last one a writer takes no byte any more, and its calls do not
/// fail.
pub static WRITE_FAILURES: [Failure; 4] = [
    Failure {
        kind: ErrorKind::Other,
        text: "the writer failed",
    },
    Failure {
        kind: ErrorKind::Interrupted,
        text: "the writer was interrupted",
    },
    Failure {
        kind: ErrorKind::UnexpectedEof,
        text: "the writer reported an end",
    },
    Failure {
        kind: ErrorKind::WriteZero,
        text: "no byte was taken",
    },
];

/// A reader of one byte a call, which fails after its successful calls.
#[derive(Drop)]
pub struct Slow<'a> {
    bytes: &'a [u8],
    good_calls: usize,
    failure: Failure,
}

impl<'a> Slow<'a> {
    /// A reader of these bytes. After so many successful calls each call fails.
    pub fn new(bytes: &'a [u8], good_calls: usize, failure: Failure) -> Slow<'a> {
        Slow {
            bytes,
            good_calls,
            failure,
        }
    }
}

impl Read for Slow<'_> {
    fn read(&mut self, buf: &mut [u8]) -> io::Result<usize> {
        if self.good_calls == 0 {
            return Err(self.failure.error());
        }
        self.good_calls -= 1;
        let bytes: &[u8] = self.bytes;
        if bytes.is_empty() || buf.is_empty() {
            return Ok(0);
        }
        buf[0] = bytes[0];
        self.bytes = &bytes[1..];
        Ok(1)
    }
}

/// A writer of one byte a call, which fails after its successful calls.
#[derive(Drop)]
pub struct Drip {
    /// The bytes that were taken.
    pub taken: Vec<u8>,
    good_calls: usize,
    failure: Failure,
}

impl Drip {
    /// A writer that fails after so many successful calls.
    pub fn new(alloc: Global, good_calls: usize, failure: Failure) -> Drip {
        Drip {
            taken: Vec::new(alloc),
            good_calls,
            failure,
        }
    }

    // Counts a call, or gives the error of a call after the last good one.
    fn call(&mut self) -> io::Result<()> {
        if self.good_calls == 0 {
            return Err(self.failure.error());
        }
        self.good_calls -= 1;
        Ok(())
    }

    // Whether no byte is taken any more, without an error.
    fn is_full(&self) -> bool {
        self.good_calls == 0 && self.failure.kind == ErrorKind::WriteZero
    }
}

impl Write for Drip {
    fn write(&mut self, buf: &[u8]) -> io::Result<usize> {
        if self.is_full() {
            return Ok(0);
        }
        self.call()?;
        if buf.is_empty() {
            return Ok(0);
        }
        self.taken.push(buf[0])?;
        Ok(1)
    }

    fn flush(&mut self) -> io::Result<()> {
        if self.is_full() {
            return Ok(());
        }
        self.call()
    }
}

/// A writer that takes each slice whole and keeps none of it.
#[derive(Drop)]
pub struct Counting {
    /// How many bytes were taken.
    pub bytes: u64,
    /// How many calls took them.
    pub calls: u64,
}

impl Counting {
    /// A writer that was not called yet.
    pub fn new() -> Counting {
        Counting { bytes: 0, calls: 0 }
    }
}

impl Write for Counting {
    fn write(&mut self, buf: &[u8]) -> io::Result<usize> {
        self.bytes = self.bytes.wrapping_add(buf.len() as u64);
        self.calls = self.calls.wrapping_add(1);
        Ok(buf.len())
    }

    fn flush(&mut self) -> io::Result<()> {
        Ok(())
    }
}

/// A device that fails at one call, the one behind so many good ones, and then goes on. The call
/// that fails gives or takes nothing.
#[derive(Drop)]
pub struct Once<D> {
    /// The device that goes on.
    pub inner: D,
    good_calls: usize,
    has_failed: bool,
    kind: ErrorKind,
}

impl<D> Once<D> {
    /// A device over another one, which fails with an error of a kind.
    pub fn new(inner: D, good_calls: usize, kind: ErrorKind) -> Once<D> {
        Once {
            inner,
            good_calls,
            has_failed: false,
            kind,
        }
    }

    // One call more, which is a good one or the one that fails.
    fn call(&mut self) -> io::Result<()> {
        if self.good_calls == 0 && !self.has_failed {
            self.has_failed = true;
            return Err(io::Error::new(self.kind, "the device failed once"));
        }
        self.good_calls = self.good_calls.saturating_sub(1);
        Ok(())
    }
}

impl<R: Read> Read for Once<R> {
    fn read(&mut self, buf: &mut [u8]) -> io::Result<usize> {
        self.call()?;
        self.inner.read(buf)
    }
}

impl<W: Write> Write for Once<W> {
    fn write(&mut self, buf: &[u8]) -> io::Result<usize> {
        self.call()?;
        self.inner.write(buf)
    }

    fn flush(&mut self) -> io::Result<()> {
        self.call()?;
        self.inner.flush()
    }
}
