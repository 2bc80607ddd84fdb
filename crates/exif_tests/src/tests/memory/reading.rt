//! What is read where memory is refused: all of it, or what is behind some request.

use super::{append, reason_of, runs_out, take_all};
use exif::{Error, Exif, Reader, parse_exif};
use exif_test_support::answers::distilled;
use exif_test_support::files;
use exif_test_support::readings::{answer_of, raw_answer, reader_of, shared_children};
use exif_test_support::shortage::{Outcome, in_turn};
use std::alloc::Global;
use std::process::Abort;
use std::test::Fail;

// With all memory refused, the fault of these data's header comes.
fn header_is_refused(rt: &(impl Abort + AllocGlobal), bytes: &[u8], text: &str) {
    let alloc = rt.alloc();
    let data = Vec::from_slice(alloc, bytes).expect(rt, "memory");
    let taken = take_all(rt, 0);
    let parsed = reason_of(parse_exif(alloc, bytes));
    let read = reason_of(Reader::new().read_raw(alloc, data));
    drop(taken);
    assert!(rt; parsed == Some(text));
    assert!(rt; read == Some(text));
}

#[test]
fn headers_are_refused_without_memory(rt: HostRuntime) {
    header_is_refused(&rt, &files::NOTHING[..7], "Truncated TIFF header");
    header_is_refused(&rt, b"MI\0\x2a\0\0\0\x08", "Invalid TIFF byte order");
    header_is_refused(&rt, b"II\0\x2a\x08\0\0\0", "Invalid forty two");
}

// Data or a file: how it is read, how many fields it has, and the texts of its faults.
#[derive(Clone, Copy)]
struct Row<'a> {
    bytes: &'a [u8],
    is_file: bool,
    lenient: bool,
    fields: usize,
    faults: &'a [&'static str],
}

// What reading answers.
fn answer(alloc: Global, row: Row<'_>) -> Result<Exif, Error> {
    let reader = reader_of(row.lenient);
    if row.is_file {
        answer_of(alloc, &reader, row.bytes)
    } else {
        raw_answer(alloc, &reader, row.bytes)
    }
}

// Whether faults have these texts.
fn are_faults(found: &[Error], wanted: &[&'static str]) -> bool {
    found.len() == wanted.len()
        && found
            .iter()
            .zip(wanted)
            .all(|(error, text)| is_fault(error, text))
}

fn is_fault(error: &Error, wanted: &str) -> bool {
    match error {
        Error::InvalidFormat(text) => *text == wanted,
        _ => false,
    }
}

// Whether the fields are the wanted ones, with their values.
fn are_fields(found: &Exif, wanted: &Exif) -> bool {
    found.fields().eq(wanted.fields()) && found.buf() == wanted.buf()
}

// What an answer comes to, where these fields and faults are to be read.
fn compared(answer: Result<Exif, Error>, wanted: &Exif, faults: &[&'static str]) -> Outcome {
    match answer {
        Ok(exif) => Outcome::answered(faults.is_empty() && are_fields(&exif, wanted)),
        Err(Error::PartialResult(partial)) => {
            let (exif, found) = partial.into_inner();
            let are_found = are_faults(found.as_slice(), faults) && are_fields(&exif, wanted);
            drop(exif);
            drop(found);
            Outcome::answered(are_found)
        }
        Err(error) => Outcome::refused(error),
    }
}

// Each reading runs out of memory, or gives the fields that it gives with enough of it, and the
// same faults.
fn gives_all_or_nothing(rt: &(impl Abort + AllocGlobal), row: Row<'_>) -> Result<(), Fail> {
    let alloc = rt.alloc();
    let (wanted, _faults) = distilled(answer(alloc, row))?;
    assert!(rt; wanted.fields().len() == row.fields);
    let refused = in_turn(alloc, || compared(answer(alloc, row), &wanted, row.faults));
    drop(wanted);
    runs_out(rt, refused);
    Ok(())
}

// Data that are read by themselves.
static DATA: [Row<'static>; 4] = [
    Row {
        bytes: files::SHARED_CHILD,
        is_file: false,
        lenient: false,
        fields: 4,
        faults: &[],
    },
    Row {
        bytes: files::EVERY_TYPE_LITTLE,
        is_file: false,
        lenient: false,
        fields: 14,
        faults: &[],
    },
    Row {
        bytes: files::WRONG_NEXT,
        is_file: false,
        lenient: true,
        fields: 2,
        faults: &["Unexpected next IFD", "Truncated IFD count"],
    },
    Row {
        bytes: files::CIRCLE,
        is_file: false,
        lenient: true,
        fields: 8,
        faults: &["Limit the IFD count to 8"],
    },
];

static FILES: [&[u8]; 5] = [
    files::JPEG,
    files::WEBP,
    files::HEIF,
    files::DESCRIBED_BIG,
    files::DESCRIBED_LITTLE,
];

// A file that is read leniently.
fn file<'a>(bytes: &'a [u8], fields: usize, faults: &'a [&'static str]) -> Row<'a> {
    Row {
        bytes,
        is_file: true,
        lenient: true,
        fields,
        faults,
    }
}

#[test]
fn no_other_fields_ever_come(rt: HostRuntime) -> Result<(), Fail> {
    for row in DATA {
        gives_all_or_nothing(&rt, row)?;
    }
    for bytes in FILES {
        gives_all_or_nothing(&rt, file(bytes, 1, &[]))?;
    }
    Ok(())
}

// Sixty entries, each of which holds the same 600 bytes.
fn same_bytes(rt: &(impl Abort + AllocGlobal)) -> Vec<u8> {
    let mut data = Vec::from_slice(rt.alloc(), b"MM\0*\0\0\0\x08\0\x3c").expect(rt, "memory");
    for _ in 0..60u32 {
        append(rt, &mut data, b"\xfd\xe8\0\x07\0\0\x02\x58\0\0\x02\xde");
    }
    append(rt, &mut data, b"\0\0\0\0");
    data.resize(1334, b'x').expect(rt, "memory");
    data
}

// The fields take more memory than the buffer of the bytes did, which is given back before, so that
// memory is refused amid the walk.
#[test]
fn many_fields_run_out_of_memory(rt: HostRuntime) -> Result<(), Fail> {
    let children = shared_children(rt.alloc(), 3, 8)?;
    let same = same_bytes(&rt);
    gives_all_or_nothing(
        &rt,
        file(children.as_slice(), 216, &["Limit the IFD count to 8"]),
    )?;
    gives_all_or_nothing(&rt, file(same.as_slice(), 60, &[]))
}
