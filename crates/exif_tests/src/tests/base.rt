//! Devices that fail at a given call, and bytes at hand: which are passed, and what is looked at.

use super::devices::{dripping, one_byte};
use exif_base::{
    Blocks, Counted, Feed, ReadFault, Seekable, Sink, Source, discard_exact, read_at_most,
    read_exact_len, read_front, read_to_end, read16, send_all,
};
use std::io;
use std::io::{Cursor, ErrorKind};
use std::process::Abort;

const DIGITS: &[u8] = b"0123456789";

/// The kinds of errors that devices fail with.
const KINDS: [ErrorKind; 2] = [ErrorKind::Interrupted, ErrorKind::UnexpectedEof];

/// The kind of the reader's error, where that is the fault.
fn kind_of<T: Drop>(read: Result<T, ReadFault>) -> Option<ErrorKind> {
    match read {
        Err(ReadFault::Io(e)) => Some(e.kind()),
        _ => None,
    }
}

/// The kind of a device's error, where there is one.
fn error_of<T: Drop>(answer: io::Result<T>) -> Option<ErrorKind> {
    match answer {
        Ok(_) => None,
        Err(e) => Some(e.kind()),
    }
}

/// A read of two bytes whose second call fails.
fn read_fails(rt: &impl Abort, kind: ErrorKind) {
    let mut source = one_byte(DIGITS, 1, kind);
    assert!(rt; kind_of(read16(&mut source)) == Some(kind));
    assert!(rt; source.into_inner().failures == 1);
}

/// A skip of three bytes whose third call fails.
fn skip_fails(rt: &impl Abort, kind: ErrorKind) {
    let mut source = one_byte(DIGITS, 2, kind);
    assert!(rt; kind_of(discard_exact(&mut source, 3)) == Some(kind));
    assert!(rt; source.into_inner().failures == 1);
}

/// A read of a front whose first call fails.
fn front_fails(rt: &impl Abort, kind: ErrorKind) {
    let front = read_front(&mut one_byte(DIGITS, 0, kind), &mut [0u8; 1]);
    assert!(rt; error_of(front) == Some(kind));
}

/// Reads onto a list, of which each meets the failing call.
fn lists_fail(rt: &(impl Abort + AllocGlobal), kind: ErrorKind) {
    let mut list = Vec::new(rt.alloc());
    let mut source = one_byte(DIGITS, 2, kind);
    assert!(rt; kind_of(read_exact_len(&mut source, &mut list, 3)) == Some(kind));
    assert!(rt; kind_of(read_to_end(&mut source, &mut list)) == Some(kind));
    assert!(rt; source.into_inner().failures == 2);
}

/// A read onto a list that stops at its second call: what came before is on the list.
fn part_comes(rt: &(impl Abort + AllocGlobal), kind: ErrorKind) {
    let mut list = Vec::from_slice(rt.alloc(), b"x:").expect(rt, "memory");
    let mut source = one_byte(DIGITS, 1, kind);
    assert!(rt; kind_of(read_at_most(&mut source, &mut list, 9)) == Some(kind));
    assert!(rt; list.as_slice() == b"x:0".as_slice());
}

#[test]
fn a_failing_reader_is_asked_no_more(rt: HostRuntime) {
    for kind in KINDS {
        read_fails(&rt, kind);
        skip_fails(&rt, kind);
        front_fails(&rt, kind);
        lists_fail(&rt, kind);
        part_comes(&rt, kind);
    }
}

/// A send whose third call fails.
fn send_fails(rt: &impl Abort, kind: ErrorKind) {
    let mut failing = dripping(2, kind);
    assert!(rt; error_of(send_all(&mut failing, b"abcdefgh")) == Some(kind));
    let inner = failing.into_inner();
    assert!(rt; inner.bytes == *b"ab\0\0\0\0\0\0");
    assert!(rt; inner.failures == 1);
}

/// A send to a writer that has no room.
fn none_is_taken(rt: &impl Abort) {
    let mut none = [0u8; 0];
    let stuck = send_all(&mut Counted::new(&mut none[..]), b"a");
    assert!(rt; error_of(stuck) == Some(ErrorKind::WriteZero));
}

#[test]
fn sends_to_writers_that_fail(rt: HostRuntime) {
    for kind in KINDS {
        send_fails(&rt, kind);
        assert!(rt; error_of(dripping(0, kind).flush()) == Some(kind));
    }
    none_is_taken(&rt);
}

/// Passes at most so many digits up to four, and passes this many.
fn passes<S: Source>(rt: &impl Abort, source: &mut S, most: u64, count: u64) {
    assert!(rt; source.pass_others(b'4', most) == count);
}

/// Passes the first four digits.
fn passes_four<S: Source>(rt: &impl Abort, source: &mut S) {
    passes(rt, source, 3, 3);
    passes(rt, source, 9, 1);
    passes(rt, source, 9, 0);
}

/// Reads the digits behind the first four.
fn reads_behind_four<R: Source>(rt: &(impl Abort + AllocGlobal), source: &mut R) {
    let mut list = Vec::new(rt.alloc());
    read_to_end(source, &mut list).expect(rt, "digits");
    assert!(rt; list.as_slice() == b"456789".as_slice());
}

/// Passes bytes of a block.
fn passes_in_a_block(rt: &(impl Abort + AllocGlobal)) {
    let mut source = Counted::new(b"89".as_slice());
    let mut block = *b"01234567";
    let mut blocks = Blocks::new(&mut block, 8, &mut source);
    passes_four(rt, &mut blocks);
    reads_behind_four(rt, &mut blocks);
}

/// Passes a byte of a block, and those in memory behind it.
fn passes_in_memory(rt: &(impl Abort + AllocGlobal)) {
    let mut source = Seekable::new(Cursor::new(b"123456789".as_slice()));
    let mut block = *b"0";
    let mut blocks = Blocks::new(&mut block, 1, &mut source);
    passes(rt, &mut blocks, 9, 1);
    passes(rt, &mut blocks, 2, 2);
    passes(rt, &mut blocks, 9, 1);
    passes(rt, &mut blocks, 9, 0);
    reads_behind_four(rt, &mut blocks);
}

#[test]
fn bytes_at_hand_are_passed(rt: HostRuntime) {
    passes_in_a_block(&rt);
    passes_in_memory(&rt);
    passes(&rt, &mut Counted::new(DIGITS), 9, 0);
}

fn is_equal(bytes: &[u8], wanted: &[u8]) -> bool {
    bytes == wanted
}

/// These bytes are at hand, and so many of them are passed.
fn passes_at_hand<F: Feed>(rt: &impl Abort, feed: &mut F, bytes: &[u8], count: usize) {
    assert!(rt; is_equal(feed.at_hand(), bytes));
    assert!(rt; count <= feed.at_hand().len());
    feed.pass(count);
}

#[test]
fn bytes_at_hand_are_looked_at(rt: HostRuntime) {
    let mut source = one_byte(b"3", 2, ErrorKind::Other);
    let mut block = *b"012.";
    let mut blocks = Blocks::new(&mut block, 3, &mut source);
    assert!(rt; blocks.fill().is_ok());
    passes_at_hand(&rt, &mut blocks, b"012", 2);
    passes_at_hand(&rt, &mut blocks, b"2", 1);
    assert!(rt; blocks.at_hand().is_empty());
    // One more byte, the end, and a fault.
    assert!(rt; blocks.fill().is_ok());
    passes_at_hand(&rt, &mut blocks, b"3", 1);
    assert!(rt; blocks.fill().is_ok());
    assert!(rt; blocks.at_hand().is_empty());
    assert!(rt; error_of(blocks.fill()) == Some(ErrorKind::Other));
}
