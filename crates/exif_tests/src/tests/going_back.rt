//! Sources that read at an offset, and how few calls a HEIF file takes whose media come first.

use crate::tests::devices::seeking;
use exif_base::{Blocks, Counted, Seekable, Source, discard_exact, read8};
use exif_containers::exif_attr_of_stream;
use exif_types::Error;
use std::alloc::{AllocError, Global};
use std::io::{Cursor, ErrorKind};
use std::process::Abort;
use std::test::Fail;

const DIGITS: &[u8] = b"0123456789";

/// The `ftyp` of a HEIF file.
const FTYP: &[u8] = b"\0\0\0\x14ftypmif1\0\0\0\0mif1";

/// An Exif item, which is stored at offset 28.
const ITEM: &[u8] = b"\0\0\0\x01xabcd";

/// The `meta` of a file with this item.
const META: &[u8] =
    b"\0\0\0\x4cmeta\0\0\0\0\0\0\0\x1eiloc\0\0\0\0\x44\0\0\x01\x1e\x1d\0\0\0\x01\0\0\0\x1c\0\0\0\x09\0\0\0\x22iinf\0\0\0\0\0\x01\0\0\0\x14infe\x02\0\0\0\x1e\x1d\0\0Exif\0";

/// A HEIF file whose media come before `meta`: the item, and as many bytes more.
fn media_first(alloc: Global, more: u32) -> Result<Vec<u8>, AllocError> {
    let mut file = Vec::from_slice(alloc, FTYP)?;
    let size = more.saturating_add(17);
    file.extend_from_slice(&size.to_be_bytes())?;
    file.extend_from_slice(b"mdat")?;
    file.extend_from_slice(ITEM)?;
    for _ in 0..more {
        file.push(7)?;
    }
    file.extend_from_slice(META)?;
    Ok(file)
}

/// Reads this digit.
fn reads<R: Source>(rt: &impl Abort, source: &mut R, digit: u8) {
    let read = read8(source).expect(rt, "a digit");
    assert!(rt; read == digit);
}

/// Reads this digit at an offset.
fn reads_at<R: Source>(rt: &impl Abort, source: &mut R, offset: u64, digit: u8) {
    let mut byte = [0];
    let found = source.fetch_at(offset, &mut byte).expect(rt, "a digit");
    assert!(rt; found == Some(1) && byte[0] == digit);
}

/// A source that seeks does, and stays where it is.
fn seeks_back(rt: &impl Abort) {
    let mut source = Seekable::new(Cursor::new(DIGITS));
    discard_exact(&mut source, 3).expect(rt, "three digits");
    reads_at(rt, &mut source, 7, b'7');
    let found = source.fetch_at(10, &mut [0]).expect(rt, "the end");
    assert!(rt; found == Some(0));
    assert!(rt; source.offset() == Some(3));
    reads(rt, &mut source, b'3');
}

/// One that only reads does not, and says so.
fn only_reads(rt: &impl Abort) {
    let mut source = Counted::new(DIGITS);
    assert!(rt; source.offset().is_none());
    let found = source.fetch_at(0, &mut [0]).expect(rt, "no failure");
    assert!(rt; found.is_none());
    reads(rt, &mut source, b'0');
}

/// Blocks do it through their source, and know their own offset where they have read all ahead.
fn blocks_go_back(rt: &impl Abort) {
    let mut block = *b"xy......";
    let mut source = Seekable::new(Cursor::new(DIGITS));
    let mut blocks = Blocks::new(&mut block, 2, &mut source);
    assert!(rt; blocks.offset().is_none());
    reads(rt, &mut blocks, b'x');
    reads_at(rt, &mut blocks, 7, b'7');
    reads(rt, &mut blocks, b'y');
    assert!(rt; blocks.offset() == Some(0));
}

#[test]
fn which_sources_read_at_an_offset(rt: HostRuntime) {
    seeks_back(&rt);
    only_reads(&rt);
    blocks_go_back(&rt);
}

#[test]
fn media_are_not_read(rt: HostRuntime) -> Result<(), Fail> {
    let file = media_first(rt.alloc(), 300_000)?;
    let kind = ErrorKind::Interrupted;
    for good_calls in 0..40 {
        let mut source = seeking(file.as_slice(), good_calls, kind);
        match exif_attr_of_stream(rt.alloc(), &mut source) {
            Ok(payload) => {
                assert!(rt; payload.as_slice() == b"abcd".as_slice());
                return Ok(());
            }
            Err(Error::Io(cause)) => assert!(rt; cause.kind() == kind),
            Err(_) => assert!(rt; false, "an error of the device"),
        }
    }
    assert!(rt; false, "more calls than the front and the item need");
    Ok(())
}
