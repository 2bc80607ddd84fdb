//! Partial results, and what becomes of them.

use exif::{Error, Exif};
use exif_test_support::answers::{debugs, is_refused, reads};
use exif_test_support::files;
use exif_test_support::readings::{raw_answer, reader_of};
use std::alloc::Global;
use std::process::Abort;
use std::test::Fail;

const PARTIAL: &str =
    "PartialResult(PartialResult(Exif(1 fields), [InvalidFormat(\"Truncated IFD\")]))";

// What a lenient reader answers.
fn lenient(alloc: Global, bytes: &[u8]) -> Result<Exif, Error> {
    raw_answer(alloc, &reader_of(true), bytes)
}

// What an error is without its faults, and how many of them a closure was given, if any were.
fn distilled(error: Error) -> (Result<Exif, Error>, Option<usize>) {
    let mut count = None;
    let answer = error.distill_partial_result(|faults: Vec<Error>| count = Some(faults.len()));
    (answer, count)
}

// What a closure was given of an error: so many fields were read, and so many faults were found.
fn is_distilled(rt: &impl Abort, error: Error, fields: usize, faults: usize) {
    let (answer, count) = distilled(error);
    let read = field_count(&answer);
    drop(answer);
    assert!(rt; read == Some(fields));
    assert!(rt; count == Some(faults));
}

// How many fields were read.
fn field_count(answer: &Result<Exif, Error>) -> Option<usize> {
    match answer {
        Ok(exif) => Some(exif.fields().len()),
        Err(_other) => None,
    }
}

// A partial result of one field and one fault is shown so, and so for debugging.
fn is_told(alloc: Global, error: &Error) -> Result<(), Fail> {
    reads(alloc, error, "Partial result with 1 fields and 1 errors")?;
    debugs(alloc, error, PARTIAL)
}

// The fault of a partial result is handed over.
fn is_handed_over(rt: &(impl Abort + AllocGlobal)) -> Result<(), Fail> {
    let alloc = rt.alloc();
    match lenient(alloc, files::CUT_DIRECTORY) {
        Ok(_exif) => Err(Fail::new("no fault was found")),
        Err(error) => {
            let answer = is_told(alloc, &error);
            is_distilled(rt, error, 1, 1);
            answer
        }
    }
}

// A closure is given nothing of an error, which comes back with this text.
fn comes_back(rt: &(impl Abort + AllocGlobal), error: Error, text: &str) -> Result<(), Fail> {
    let (answer, count) = distilled(error);
    assert!(rt; count.is_none());
    is_refused(rt.alloc(), answer, text)
}

// Another error is not.
fn another_comes_back(rt: &(impl Abort + AllocGlobal)) -> Result<(), Fail> {
    match lenient(rt.alloc(), &files::NOTHING[..7]) {
        Ok(_exif) => Err(Fail::new("a header was taken")),
        Err(error) => comes_back(rt, error, "Truncated TIFF header"),
    }
}

#[test]
fn faults_are_handed_over(rt: HostRuntime) -> Result<(), Fail> {
    is_handed_over(&rt)?;
    another_comes_back(&rt)
}
