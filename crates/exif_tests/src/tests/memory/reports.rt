//! Reports to writers that take memory themselves, and to writers over memory.

use super::{append, is_out_of_memory};
use exif::Error;
use exif_test_support::answers::{are_bytes, kind_of};
use exif_test_support::files;
use exif_test_support::readings::report_to;
use exif_test_support::shortage::{Greedy, take_most};
use std::io::ErrorKind;
use std::process::Abort;
use std::test::Fail;

// What a lenient report writes to a writer with so much space that leaves it no memory.
fn reported_greedily(
    rt: &(impl Abort + AllocGlobal),
    bytes: &[u8],
    space: usize,
) -> (Result<u64, Error>, Vec<u8>) {
    let greedy = Greedy::new(rt.alloc(), space).expect(rt, "memory");
    let most = take_most(rt.alloc()).expect(rt, "memory");
    let (answer, out) = report_to(rt.alloc(), bytes, greedy, true);
    drop(most);
    (answer, out.written)
}

// Whether an answer is that memory ran out.
fn ran_out(answer: Result<u64, Error>) -> bool {
    match answer {
        Ok(_) => false,
        Err(error) => is_out_of_memory(error),
    }
}

// A report to a writer with so much space runs out of memory, behind this text.
fn ends_behind(
    rt: &(impl Abort + AllocGlobal),
    bytes: &[u8],
    space: usize,
    text: &[u8],
) -> Result<(), Fail> {
    let (answer, written) = reported_greedily(rt, bytes, space);
    assert!(rt; ran_out(answer));
    are_bytes(written.as_slice(), text)
}

// Eight entries, each of which holds the same 600 bytes, and one that holds 20,000.
fn longer_last(rt: &(impl Abort + AllocGlobal)) -> Vec<u8> {
    let mut data = Vec::from_slice(rt.alloc(), b"MM\0*\0\0\0\x08\0\x09").expect(rt, "memory");
    for _ in 0..8u32 {
        append(rt, &mut data, b"\xfd\xe8\0\x07\0\0\x02\x58\0\0\0\x7a");
    }
    append(
        rt,
        &mut data,
        b"\xfd\xe8\0\x07\0\0\x4e\x20\0\0\0\x7a\0\0\0\0",
    );
    data.resize(20_122, b'x').expect(rt, "memory");
    data
}

// A line of its report.
fn append_line(rt: &impl Abort, text: &mut Vec<u8>) {
    append(rt, text, b"Tag(Tiff, 65000) primary 0x");
    for _ in 0..600u32 {
        append(rt, text, b"78");
    }
    append(rt, text, b"\n");
}

// The first seven lines of it, which are 8,596 bytes.
fn seven_lines(rt: &(impl Abort + AllocGlobal)) -> Vec<u8> {
    let mut text = Vec::new(rt.alloc());
    for _ in 0..7u32 {
        append_line(rt, &mut text);
    }
    text
}

// The lines of fields that are put together first.
const FIELDS: &str = "ExifVersion primary 0x00020302\nTag(Tiff, 65000) primary -19088744\n";

#[test]
fn lines_run_out_of_memory(rt: HostRuntime) -> Result<(), Fail> {
    ends_behind(&rt, files::WRONG_NEXT, 256, FIELDS.as_bytes())?;
    let bytes = longer_last(&rt);
    let text = seven_lines(&rt);
    ends_behind(&rt, bytes.as_slice(), 10_000, text.as_slice())
}

#[test]
fn short_lines_take_memory_but_once(rt: HostRuntime) {
    let (answer, written) = reported_greedily(&rt, files::LONGER_LINE, 256);
    assert!(rt; answer.expect(&rt, "enough memory") == 0);
    assert!(rt;
        written
            .as_slice()
            .starts_with(b"Tag(Tiff, 65000) primary 1\n")
    );
}

// A report to a writer with so much space fails as the writer does, behind this text.
fn fails_with_its_memory(
    rt: &(impl Abort + AllocGlobal),
    space: usize,
    text: &str,
) -> Result<(), Fail> {
    let (answer, written) = reported_greedily(rt, files::WRONG_NEXT, space);
    assert!(rt; kind_of(&answer) == Some(ErrorKind::OutOfMemory));
    are_bytes(written.as_slice(), text.as_bytes())
}

#[test]
fn a_writer_over_memory_fails_where_its_memory_does(rt: HostRuntime) -> Result<(), Fail> {
    fails_with_its_memory(&rt, 0, "")?;
    fails_with_its_memory(&rt, FIELDS.len().saturating_sub(1), "")
}
