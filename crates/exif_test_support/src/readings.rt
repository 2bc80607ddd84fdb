//! What readers and reports make of bytes.

use crate::answers::text_of;
use exif::{Counted, Error, Exif, Reader};
use exif_reader::report::report;
use std::alloc::Global;
use std::io::{Read, Write};
use std::test::Fail;

/// A reader that passes over faults, or not.
pub fn reader_of(lenient: bool) -> Reader {
    let mut reader = Reader::new();
    reader.continue_on_error(lenient);
    reader
}

/// What a reader answers of TIFF data.
pub fn raw_answer(alloc: Global, reader: &Reader, bytes: &[u8]) -> Result<Exif, Error> {
    reader.read_raw(alloc, Vec::from_slice(alloc, bytes)?)
}

// What a reader answers of a file.
fn file_answer<R: Read + Drop>(alloc: Global, reader: &Reader, file: R) -> Result<Exif, Error> {
    reader.read_from_container(alloc, &mut Counted::new(file))
}

/// What a reader answers of a file in memory.
pub fn answer_of(alloc: Global, reader: &Reader, bytes: &[u8]) -> Result<Exif, Error> {
    file_answer(alloc, reader, bytes)
}

/// The fields that a reader reads, and the texts of the faults that it passes over.
pub fn read(alloc: Global, reader: &Reader, bytes: &[u8]) -> Result<(Exif, Vec<String>), Fail> {
    match raw_answer(alloc, reader, bytes) {
        Ok(exif) => Ok((exif, Vec::new(alloc))),
        Err(Error::PartialResult(partial)) => {
            let (exif, faults) = partial.into_inner();
            let texts = texts_of(alloc, faults.as_slice())?;
            Ok((exif, texts))
        }
        Err(other) => Err(Fail::from(other)),
    }
}

// How errors are shown.
fn texts_of(alloc: Global, errors: &[Error]) -> Result<Vec<String>, Fail> {
    let mut texts = Vec::new(alloc);
    for error in errors {
        texts.push(text_of(alloc, error)?)?;
    }
    Ok(texts)
}

/// What a strict reader reads.
pub fn read_strictly(alloc: Global, bytes: &[u8]) -> Result<Exif, Error> {
    raw_answer(alloc, &Reader::new(), bytes)
}

/// What the report of a file answers, and the writer that it was written to.
pub fn report_to<R: Read + Drop, W: Write>(
    alloc: Global,
    file: R,
    out: W,
    lenient: bool,
) -> (Result<u64, Error>, W) {
    let mut out = Counted::new(out);
    let answer = report(alloc, &mut Counted::new(file), &mut out, lenient);
    (answer, out.into_inner())
}

/// Three directories of so many entries side by side: pointers to the second, pointers to the
/// third, and numbers. The first names a next offset.
pub fn shared_children(alloc: Global, count: u16, next: u32) -> Result<Vec<u8>, Fail> {
    let mut bytes = Vec::from_slice(alloc, b"MM\0\x2a\0\0\0\x08")?;
    let entries = u32::from(count);
    for (head, value, next) in [
        (b"\x87\x69\0\x04\0\0\0\x01", 14 + 12 * entries, next),
        (b"\xa0\x05\0\x04\0\0\0\x01", 20 + 24 * entries, 0),
        (b"\0\x01\0\x03\0\0\0\x01", 0x0007_0000, 0),
    ] {
        bytes.extend_from_slice(&count.to_be_bytes())?;
        for _ in 0..count {
            bytes.extend_from_slice(head)?;
            bytes.extend_from_slice(&value.to_be_bytes())?;
        }
        bytes.extend_from_slice(&next.to_be_bytes())?;
    }
    Ok(bytes)
}
