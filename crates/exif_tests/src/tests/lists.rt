//! Which bytes are at hand, and are put onto a list without a read.

use super::devices::seeking;
use exif_base::{Blocks, Counted, Seekable, Source, read_at_most};
use std::io::{Cursor, ErrorKind};
use std::process::Abort;

/// A list of two bytes.
fn begun(rt: &(impl Abort + AllocGlobal)) -> Vec<u8> {
    Vec::from_slice(rt.alloc(), b"x:").expect(rt, "memory")
}

/// Takes at most so many bytes at hand onto the list, and takes this many.
fn takes<S: Source>(rt: &impl Abort, source: &mut S, list: &mut Vec<u8>, most: u64, count: u64) {
    let taken = source.take_at_hand(list, most).expect(rt, "bytes at hand");
    assert!(rt; taken == count);
}

/// Reads at most so many bytes onto the list, and reads this many.
fn reads<S: Source>(rt: &impl Abort, source: &mut S, list: &mut Vec<u8>, most: u64, count: u64) {
    let read = read_at_most(source, list, most).expect(rt, "bytes");
    assert!(rt; read == count);
}

/// Reads five digits, of which none is at hand, three and two at a time.
fn reads_five<R: Source>(rt: &impl Abort, source: &mut R, list: &mut Vec<u8>) {
    takes(rt, source, list, 9, 0);
    reads(rt, source, list, 3, 3);
    reads(rt, source, list, 9, 2);
    reads(rt, source, list, 9, 0);
    assert!(rt; list.as_slice() == b"x:56789".as_slice());
}

/// A reader has nothing at hand, nor has a stream that is not in memory.
fn nothing_is_at_hand(rt: &(impl Abort + AllocGlobal)) {
    let digits = b"56789".as_slice();
    reads_five(rt, &mut Counted::new(digits), &mut begun(rt));
    let mut source = seeking(digits, 100, ErrorKind::Other);
    reads_five(rt, &mut source, &mut begun(rt));
}

/// All that is in memory is at hand.
fn memory_is_at_hand(rt: &(impl Abort + AllocGlobal)) {
    let mut list = begun(rt);
    let mut source = Seekable::new(Cursor::new(b"0123456789".as_slice()));
    let skipped = source.skip(5).expect(rt, "a skip");
    assert!(rt; skipped == 5);
    takes(rt, &mut source, &mut list, 1, 1);
    takes(rt, &mut source, &mut list, 9, 4);
    takes(rt, &mut source, &mut list, 9, 0);
    assert!(rt; list.as_slice() == b"x:56789".as_slice());
    assert!(rt; source.into_inner().position() == 10);
}

/// Behind the end nothing is, and the stream stays where it is.
fn nothing_is_behind_the_end(rt: &(impl Abort + AllocGlobal)) {
    let mut list = begun(rt);
    let mut behind = Cursor::new(b"0123456789".as_slice());
    behind.set_position(u64::MAX);
    let mut source = Seekable::new(behind);
    reads(rt, &mut source, &mut list, 9, 0);
    assert!(rt; source.pass_others(b'4', 9) == 0);
    assert!(rt; source.into_inner().position() == u64::MAX);
}

/// The rest of a block is at hand, and then what its source has there.
fn blocks_are_at_hand(rt: &(impl Abort + AllocGlobal)) {
    let mut list = begun(rt);
    let mut block = *b"01234...";
    let mut source = Seekable::new(Cursor::new(b"56789".as_slice()));
    let mut blocks = Blocks::new(&mut block, 5, &mut source);
    let skipped = blocks.skip(2).expect(rt, "a skip");
    assert!(rt; skipped == 2);
    takes(rt, &mut blocks, &mut list, 1, 1);
    takes(rt, &mut blocks, &mut list, 9, 2);
    reads(rt, &mut blocks, &mut list, 3, 3);
    assert!(rt; list.as_slice() == b"x:234567".as_slice());
}

#[test]
fn what_is_at_hand(rt: HostRuntime) {
    nothing_is_at_hand(&rt);
    memory_is_at_hand(&rt);
    nothing_is_behind_the_end(&rt);
    blocks_are_at_hand(&rt);
}
