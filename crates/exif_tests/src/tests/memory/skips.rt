//! What takes no memory of the containers: bytes that are skipped, and refusals.

use super::{reason_of, take_all};
use exif::{Exif, Reader, Tag};
use exif_test_support::answers::are_bytes;
use exif_test_support::files;
use exif_test_support::found::is_text;
use exif_test_support::readings::answer_of;
use exif_test_support::streams::{Container, attr};
use std::process::Abort;
use std::test::Fail;

// Spaces behind some bytes, and other bytes behind them.
fn around_spaces(
    rt: &(impl Abort + AllocGlobal),
    head: &[u8],
    spaces: usize,
    tail: &[u8],
) -> Vec<u8> {
    let mut bytes = Vec::from_slice(rt.alloc(), head).expect(rt, "memory");
    let length = head.len().saturating_add(spaces);
    bytes.resize(length, b' ').expect(rt, "memory");
    bytes.extend_from_slice(tail).expect(rt, "memory");
    bytes
}

// With 8192 bytes of memory left, a stream gives these Exif data.
fn gives(
    rt: &(impl Abort + AllocGlobal),
    container: Container,
    bytes: &[u8],
    wanted: &[u8],
) -> Result<(), Fail> {
    let taken = take_all(rt, 8192);
    let (given, _left) = attr(rt.alloc(), container, bytes);
    drop(taken);
    let payload = given.expect(rt, "Exif data");
    are_bytes(payload.as_slice(), wanted)
}

// A segment of Exif data is found behind one that is 60,002 bytes long with its length.
fn is_found_behind(rt: &(impl Abort + AllocGlobal), head: &[u8]) -> Result<(), Fail> {
    let bytes = around_spaces(rt, head, 60_000, b"\xff\xe1\0\x09Exif\0\0Z");
    gives(rt, Container::Jpeg, bytes.as_slice(), b"Z")
}

fn long_segments_are_skipped(rt: &(impl Abort + AllocGlobal)) -> Result<(), Fail> {
    is_found_behind(rt, b"\xff\xd8\xff\xe0\xea\x62")?;
    is_found_behind(rt, b"\xff\xd8\xff\xe1\xea\x62")
}

const LONG_CHUNK: &[u8] = b"RIFF\xb7\x86\x01\0WEBPwhat\xa0\x86\x01\0";

fn long_chunks_are_skipped(rt: &(impl Abort + AllocGlobal)) -> Result<(), Fail> {
    let bytes = around_spaces(rt, LONG_CHUNK, 100_000, b"EXIF\x03\0\0\0abc");
    gives(rt, Container::WebP, bytes.as_slice(), b"abc")
}

// The boxes in front of 100,000 spaces and three bytes of Exif data (ISO/IEC 14496-12:2015, 8.11).
const HEIF_WITH_A_GAP: &[u8] =
    b"\0\0\0\x14ftypmif1\0\0\0\0mif1\0\0\0\x4dmeta\0\0\0\0\0\0\0\x23iinf\0\0\0\0\0\x01\0\0\0\x15infe\x02\0\0\0\0\x01\0\0Exif\0\0\0\0\x1eiloc\0\0\0\0\x44\0\0\x01\0\x01\0\0\0\x01\0\x01\x87\x09\0\0\0\x07\0\x01\x86\xafmdat";

fn a_long_gap_is_skipped(rt: &(impl Abort + AllocGlobal)) -> Result<(), Fail> {
    let bytes = around_spaces(rt, HEIF_WITH_A_GAP, 100_000, b"\0\0\0\0abc");
    gives(rt, Container::Heif, bytes.as_slice(), b"abc")
}

#[test]
fn what_is_skipped_takes_no_memory(rt: HostRuntime) -> Result<(), Fail> {
    long_segments_are_skipped(&rt)?;
    long_chunks_are_skipped(&rt)?;
    a_long_gap_is_skipped(&rt)
}

// What a strict reader reads with 30,000 bytes of memory left.
fn read_with_little(rt: &(impl Abort + AllocGlobal), bytes: &[u8]) -> Exif {
    let taken = take_all(rt, 30_000);
    let answer = answer_of(rt.alloc(), &Reader::new(), bytes);
    drop(taken);
    answer.expect(rt, "fields")
}

// With 30,000 bytes of memory left, a strict reader gives the description.
fn gives_the_description(rt: &(impl Abort + AllocGlobal), bytes: &[u8]) {
    let exif = read_with_little(rt, bytes);
    assert!(rt; exif.fields().len() == 1);
    assert!(rt; is_text(exif.fields().next(), Tag::ImageDescription, b"Sample"));
}

// The heads of a segment and of a chunk in front of the description.
const JPEG_HEAD: &[u8] = b"\xff\xd8\xff\xe0\xea\x62";

const WEBP_HEAD: &[u8] = b"RIFF\xd6\x86\x01\0WEBPwhat\xa0\x86\x01\0";

#[test]
fn files_are_read_past_what_is_skipped(rt: HostRuntime) {
    let jpeg = around_spaces(&rt, JPEG_HEAD, 60_000, &files::JPEG[2..]);
    let webp = around_spaces(&rt, WEBP_HEAD, 100_000, &files::WEBP[12..]);
    gives_the_description(&rt, jpeg.as_slice());
    gives_the_description(&rt, webp.as_slice());
}

// With all memory refused, a stream is refused for this reason.
fn is_refused(rt: &(impl Abort + AllocGlobal), container: Container, bytes: &[u8], text: &str) {
    let taken = take_all(rt, 0);
    let (given, _left) = attr(rt.alloc(), container, bytes);
    let found = reason_of(given);
    drop(taken);
    assert!(rt; found == Some(text));
}

// A stream and the reason of its refusal.
type Refused = (&'static [u8], &'static str);

static JPEG_REFUSED: [Refused; 5] = [
    (b"\x89PNG", "Not a JPEG file"),
    (b"\xff\xd8\xff\xd8", "Unexpected SOI"),
    (b"\xff\xd8\xff\xe0\0\x01", "Invalid segment length"),
    (b"\xff\xd8\x01\x02\x03\xff\0\xff\xd9", "JPEG"),
    (b"\xff\xd8\xff\xe1\0\x04ab\xff\xd9", "JPEG"),
];

static WEBP_REFUSED: [Refused; 5] = [
    (b"RIFX\x04\0\0\0WEBP", "Not a WebP file"),
    (b"RIFF\x03\0\0\0WEBP", "Invalid header file size"),
    (b"RIFF\x05\0\0\0WEBP", "Chunk overflowing parent"),
    (
        b"RIFF\x0c\0\0\0WEBPwhat\x01\0\0\0",
        "Chunk overflowing parent",
    ),
    (b"RIFF\x0e\0\0\0WEBPwhat\x02\0\0\0ab", "WebP"),
];

#[test]
fn files_are_refused_without_memory(rt: HostRuntime) {
    for (bytes, text) in JPEG_REFUSED {
        is_refused(&rt, Container::Jpeg, bytes, text);
    }
    for (bytes, text) in WEBP_REFUSED {
        is_refused(&rt, Container::WebP, bytes, text);
    }
}
