//! Skips of streams that fail, or tell no end, and where a stream is behind a skip.

use super::devices::{one_byte, seeking, without_an_end};
use exif_base::{Blocks, ReadFault, Seekable, Source, discard_exact, read_to_end, read8};
use std::io::{Cursor, ErrorKind};
use std::process::Abort;

const DIGITS: &[u8] = b"0123456789";

/// Skips at most so many bytes, and skips this many.
fn skips<R: Source>(rt: &impl Abort, source: &mut R, most: u64, count: u64) {
    let skipped = source.skip(most).expect(rt, "a skip");
    assert!(rt; skipped == count);
}

/// Reads this digit.
fn reads<R: Source>(rt: &impl Abort, source: &mut R, digit: u8) {
    let read = read8(source).expect(rt, "a digit");
    assert!(rt; read == digit);
}

/// Skips among ten digits, up to their end and no further.
fn skips_to_the_end<R: Source>(rt: &impl Abort, source: &mut R) {
    skips(rt, source, 0, 0);
    skips(rt, source, 3, 3);
    reads(rt, source, b'3');
    skips(rt, source, 5, 5);
    reads(rt, source, b'9');
    skips(rt, source, 0, 0);
    skips(rt, source, 1, 0);
}

/// Skips past the end of ten digits.
fn skips_past_the_end<R: Source>(rt: &impl Abort, source: &mut R) {
    skips(rt, source, 8, 8);
    skips(rt, source, u64::MAX, 2);
    skips(rt, source, u64::MAX, 0);
    assert!(rt; matches!(read8(source), Err(ReadFault::End)));
}

#[test]
fn a_stream_that_tells_no_end_is_read(rt: HostRuntime) {
    skips_to_the_end(&rt, &mut without_an_end(DIGITS));
    skips_past_the_end(&rt, &mut without_an_end(DIGITS));
}

/// A skip past the end through blocks leaves the stream at its end.
fn stays_at_its_end(rt: &impl Abort) {
    let mut block = *b"01";
    let mut source = Seekable::new(Cursor::new(b"23456789".as_slice()));
    skips_past_the_end(rt, &mut Blocks::new(&mut block, 2, &mut source));
    assert!(rt; source.into_inner().position() == 8);
}

/// What is read behind a skip, to the end, leaves the stream there.
fn is_read_to_its_end(rt: &(impl Abort + AllocGlobal)) {
    let mut source = Seekable::new(Cursor::new(DIGITS));
    discard_exact(&mut source, 7).expect(rt, "seven digits");
    let mut rest = Vec::new(rt.alloc());
    read_to_end(&mut source, &mut rest).expect(rt, "digits");
    assert!(rt; rest.as_slice() == b"789".as_slice());
    assert!(rt; source.into_inner().position() == 10);
}

#[test]
fn no_skip_goes_past_the_end_of_a_stream(rt: HostRuntime) {
    stays_at_its_end(&rt);
    is_read_to_its_end(&rt);
}

/// The kind of the error that a skip of three bytes answers, where it fails.
fn kind_of_skip<R: Source>(source: &mut R) -> Option<ErrorKind> {
    source.skip(3).err().map(|e| e.kind())
}

/// A skip whose third read fails.
fn a_read_fails(rt: &impl Abort) {
    let kind = ErrorKind::Interrupted;
    let mut source = one_byte(DIGITS, 2, kind);
    assert!(rt; kind_of_skip(&mut source) == Some(kind));
    assert!(rt; source.into_inner().failures == 1);
}

/// A skip of which each of three seeks fails.
fn a_seek_fails(rt: &impl Abort) {
    let kind = ErrorKind::Interrupted;
    for good_calls in 0..3 {
        let mut source = seeking(DIGITS, good_calls, kind);
        assert!(rt; kind_of_skip(&mut source) == Some(kind));
    }
    assert!(rt; kind_of_skip(&mut seeking(DIGITS, 3, kind)) == None);
}

/// A skip past the end, whose read behind the seeks fails.
fn a_read_behind_a_seek_fails(rt: &impl Abort) {
    let kind = ErrorKind::UnexpectedEof;
    let mut source = seeking(b"01", 3, kind);
    assert!(rt; kind_of_skip(&mut source) == Some(kind));
    assert!(rt; source.into_inner().failures == 1);
}

#[test]
fn a_skip_that_fails(rt: HostRuntime) {
    a_read_fails(&rt);
    a_seek_fails(&rt);
    a_read_behind_a_seek_fails(&rt);
}
