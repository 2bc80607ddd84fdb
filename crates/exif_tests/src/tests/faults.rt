//! Devices that fail once and then go on: the failure is reported, and no byte is lost or comes
//! twice.

use super::devices::{Drip, OneByte, byte_reader, byte_writer};
use exif_base::{Blocks, Counted, ReadFault, Sink, Source, read_to_end, send_all};
use exif_test_support::devices::{KINDS, Once};
use std::io;
use std::io::ErrorKind;
use std::process::Abort;

const DIGITS: &[u8] = b"0123456789";

const LETTERS: &[u8] = b"abcdefgh";

/// A source of ten digits, one a call, which fails once behind so many.
fn digits(good_calls: usize, kind: ErrorKind) -> Counted<Once<OneByte<'static>>> {
    Counted::new(Once::new(byte_reader(DIGITS), good_calls, kind))
}

/// Whether a reader's error of this kind is the fault.
fn is_fault(read: Result<(), ReadFault>, kind: ErrorKind) -> bool {
    match read {
        Err(ReadFault::Io(cause)) => cause.kind() == kind,
        _ => false,
    }
}

/// A source fails once, behind so many digits, and gives the others then.
fn goes_on<S: Source>(
    rt: &(impl Abort + AllocGlobal),
    source: &mut S,
    good_calls: usize,
    kind: ErrorKind,
) {
    let mut list = Vec::new(rt.alloc());
    assert!(rt; is_fault(read_to_end(source, &mut list), kind));
    assert!(rt; Some(list.as_slice()) == DIGITS.get(..good_calls));
    assert!(rt; read_to_end(source, &mut list).is_ok());
    assert!(rt; list.as_slice() == DIGITS);
}

/// Reads with and without a block in between, where each call in turn fails, that of the end too.
fn reads_go_on(rt: &(impl Abort + AllocGlobal), kind: ErrorKind) {
    for good_calls in 0..=DIGITS.len() {
        goes_on(rt, &mut digits(good_calls, kind), good_calls, kind);
        let mut block = [0u8; 3];
        let mut source = digits(good_calls, kind);
        let mut blocks = Blocks::new(&mut block, 0, &mut source);
        goes_on(rt, &mut blocks, good_calls, kind);
    }
}

#[test]
fn reading_goes_on(rt: HostRuntime) {
    for kind in KINDS {
        reads_go_on(&rt, kind);
    }
}

/// The kind of a device's error, where there is one.
fn error_of<T: Drop>(answer: io::Result<T>) -> Option<ErrorKind> {
    match answer {
        Ok(_) => None,
        Err(cause) => Some(cause.kind()),
    }
}

/// A skip fails once, behind so many digits, and the others are read then.
fn skip_goes_on(rt: &(impl Abort + AllocGlobal), good_calls: usize, kind: ErrorKind) {
    let mut source = digits(good_calls, kind);
    let mut rest = Vec::new(rt.alloc());
    assert!(rt; error_of(source.skip(20)) == Some(kind));
    assert!(rt; read_to_end(&mut source, &mut rest).is_ok());
    assert!(rt; Some(rest.as_slice()) == DIGITS.get(good_calls..));
}

#[test]
fn reading_goes_on_behind_a_skip(rt: HostRuntime) {
    for kind in KINDS {
        for good_calls in 0..=DIGITS.len() {
            skip_goes_on(&rt, good_calls, kind);
        }
    }
}

/// A sink of one byte a call, which fails once behind so many.
fn drops(good_calls: usize, kind: ErrorKind) -> Counted<Once<Drip>> {
    Counted::new(Once::new(byte_writer(), good_calls, kind))
}

/// A send fails once, behind so many letters. Where the others are sent then, all were taken.
fn send_goes_on(rt: &impl Abort, good_calls: usize, kind: ErrorKind) {
    let mut sink = drops(good_calls, kind);
    assert!(rt; error_of(send_all(&mut sink, LETTERS)) == Some(kind));
    let rest = LETTERS.get(good_calls..).unwrap_or(b"");
    assert!(rt; send_all(&mut sink, rest).is_ok());
    assert!(rt; sink.into_inner().inner.bytes == *b"abcdefgh");
}

#[test]
fn sending_goes_on(rt: HostRuntime) {
    for kind in KINDS {
        for good_calls in 0..LETTERS.len() {
            send_goes_on(&rt, good_calls, kind);
        }
    }
}

/// A flush fails once, behind all letters, and the next one does not.
fn flush_goes_on(rt: &impl Abort, kind: ErrorKind) {
    let mut sink = drops(LETTERS.len(), kind);
    assert!(rt; send_all(&mut sink, LETTERS).is_ok());
    assert!(rt; error_of(sink.flush()) == Some(kind));
    assert!(rt; sink.flush().is_ok());
    assert!(rt; sink.into_inner().inner.bytes == *b"abcdefgh");
}

#[test]
fn flushing_goes_on(rt: HostRuntime) {
    for kind in KINDS {
        flush_goes_on(&rt, kind);
    }
}
