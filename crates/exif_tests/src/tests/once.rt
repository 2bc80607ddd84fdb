//! Devices that fail once and then go on: the failure is the answer, whichever call it is, and what
//! was written is what the writer took before it.

use exif::experimental::Writer;
use exif::{Counted, Error, Exif};
use exif_rewrite::{Remove, rewrite};
use exif_test_support::answers::kind_of;
use exif_test_support::devices::{Drip, KINDS, Once, READ_FAILURES, Slow, WRITE_FAILURES};
use exif_test_support::files;
use exif_test_support::readings::{reader_of, report_to};
use exif_test_support::writings::{descriptions, push_all};
use std::alloc::Global;
use std::io::ErrorKind;
use std::process::Abort;
use std::test::Fail;

static FILES: [&[u8]; 5] = [
    files::JPEG,
    files::WEBP,
    files::HEIF,
    files::DESCRIBED_BIG,
    files::WRONG_NEXT,
];

// A reader of one byte a call, which fails once behind so many.
fn input(bytes: &[u8], good_calls: usize, kind: ErrorKind) -> Once<Slow<'_>> {
    Once::new(
        Slow::new(bytes, usize::MAX, READ_FAILURES[0]),
        good_calls,
        kind,
    )
}

// A writer of one byte a call, which fails once behind so many.
fn output(alloc: Global, good_calls: usize, kind: ErrorKind) -> Once<Drip> {
    Once::new(
        Drip::new(alloc, usize::MAX, WRITE_FAILURES[0]),
        good_calls,
        kind,
    )
}

// Whether an answer is the error of a device. It is let go by one call.
fn is_fault<T: Drop>(answer: Result<T, Error>, kind: ErrorKind) -> bool {
    let found = kind_of(&answer);
    drop(answer);
    found == Some(kind)
}

// What lenient reading of a file answers.
fn read(alloc: Global, file: Once<Slow<'_>>) -> Result<Exif, Error> {
    reader_of(true).read_from_container(alloc, &mut Counted::new(file))
}

// Reading a file fails at each of its calls.
fn reading_fails(rt: &(impl Abort + AllocGlobal), bytes: &[u8], kind: ErrorKind) {
    for good_calls in 0..=bytes.len() {
        let answer = read(rt.alloc(), input(bytes, good_calls, kind));
        assert!(rt; is_fault(answer, kind), "call {good_calls}");
    }
}

#[test]
fn reading_answers_the_failure(rt: HostRuntime) {
    for kind in KINDS {
        for bytes in FILES {
            reading_fails(&rt, bytes, kind);
        }
    }
}

const DESCRIPTION: &[u8] = b"ImageDescription primary \"Sample\"\n";

// A report fails where its reader does, and writes nothing.
fn report_fails_unwritten(rt: &(impl Abort + AllocGlobal), good_calls: usize, kind: ErrorKind) {
    let source = input(files::DESCRIBED_BIG, good_calls, kind);
    let (answer, written) = report_to(rt.alloc(), source, Vec::new(rt.alloc()), true);
    assert!(rt;
        is_fault(answer, kind) && written.is_empty(),
        "read {good_calls}"
    );
}

// A report fails where its writer does, behind a front of its text.
fn report_fails_amid(rt: &(impl Abort + AllocGlobal), good_calls: usize, kind: ErrorKind) {
    let out = output(rt.alloc(), good_calls, kind);
    let (answer, out) = report_to(rt.alloc(), files::DESCRIBED_BIG, out, true);
    let taken = Some(out.inner.taken.as_slice());
    let is_front = taken == DESCRIPTION.get(..good_calls);
    assert!(rt; is_fault(answer, kind) && is_front, "write {good_calls}");
}

#[test]
fn reports_answer_the_failure(rt: HostRuntime) {
    for kind in KINDS {
        for good_calls in 0..=files::DESCRIBED_BIG.len() {
            report_fails_unwritten(&rt, good_calls, kind);
        }
        for good_calls in 0..=DESCRIPTION.len() {
            report_fails_amid(&rt, good_calls, kind);
        }
    }
}

// What a write of a writer answers, and what was taken.
fn written(writer: &mut Writer, out: Once<Drip>) -> (Result<(), Error>, Vec<u8>) {
    let mut out = Counted::new(out);
    let answer = writer.write(&mut out, false);
    (answer, out.into_inner().inner.taken)
}

// A write fails where its writer does, behind a front of the image, and the next one is whole.
fn write_fails_amid(
    rt: &(impl Abort + AllocGlobal),
    writer: &mut Writer,
    good_calls: usize,
    kind: ErrorKind,
) {
    let (answer, taken) = written(writer, output(rt.alloc(), good_calls, kind));
    let is_front = Some(taken.as_slice()) == files::DESCRIBED_BIG.get(..good_calls);
    assert!(rt; is_fault(answer, kind) && is_front, "write {good_calls}");
    let (answer, taken) = written(writer, output(rt.alloc(), usize::MAX, kind));
    let is_whole = answer.is_ok() && taken.as_slice() == files::DESCRIBED_BIG;
    drop(answer);
    assert!(rt; is_whole);
}

#[test]
fn writing_answers_the_failure(rt: HostRuntime) -> Result<(), Fail> {
    let fields = descriptions(rt.alloc(), &[b"Sample"])?;
    let mut writer = Writer::new(rt.alloc());
    push_all(&mut writer, fields.as_slice())?;
    for kind in KINDS {
        for good_calls in 0..=files::DESCRIBED_BIG.len() {
            write_fails_amid(&rt, &mut writer, good_calls, kind);
        }
    }
    Ok(())
}

const STREAM: &[u8] = b"\xff\xd8\xff\xe1\0\x0aExif\0\0xy\xff\xfe\0\x04hi\xff\xda\0\x02s\xff\xd9end";

const STREAM_AB: &[u8] =
    b"\xff\xd8\xff\xe1\0\x0aExif\0\0ab\xff\xfe\0\x04hi\xff\xda\0\x02s\xff\xd9end";

// What rewriting the stream with new data answers, and what was taken.
fn rewritten(
    alloc: Global,
    source: Once<Slow<'_>>,
    out: Once<Drip>,
) -> (Result<(), Error>, Vec<u8>) {
    let mut out = Counted::new(out);
    let mut source = Counted::new(source);
    let answer = rewrite(alloc, &mut source, &mut out, Some(b"ab"), Remove::Exif);
    (answer, out.into_inner().inner.taken)
}

// Rewriting fails where its reader does, behind a front of the new stream.
fn rewrite_fails_reading(rt: &(impl Abort + AllocGlobal), good_calls: usize, kind: ErrorKind) {
    let source = input(STREAM, good_calls, kind);
    let (answer, taken) = rewritten(rt.alloc(), source, output(rt.alloc(), usize::MAX, kind));
    let is_front = STREAM_AB.starts_with(taken.as_slice());
    assert!(rt; is_fault(answer, kind) && is_front, "read {good_calls}");
}

// Rewriting fails where its writer does, behind the front that was taken.
fn rewrite_fails_writing(rt: &(impl Abort + AllocGlobal), good_calls: usize, kind: ErrorKind) {
    let out = output(rt.alloc(), good_calls, kind);
    let (answer, taken) = rewritten(rt.alloc(), input(STREAM, usize::MAX, kind), out);
    let is_front = Some(taken.as_slice()) == STREAM_AB.get(..good_calls);
    assert!(rt; is_fault(answer, kind) && is_front, "write {good_calls}");
}

#[test]
fn rewriting_answers_the_failure(rt: HostRuntime) {
    for kind in KINDS {
        for good_calls in 0..=STREAM.len() {
            rewrite_fails_reading(&rt, good_calls, kind);
        }
        for good_calls in 0..=STREAM_AB.len() {
            rewrite_fails_writing(&rt, good_calls, kind);
        }
    }
}
