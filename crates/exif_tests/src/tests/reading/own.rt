//! A source of a caller's own that only fetches, and a reader that is used again after refusals.

ghost use Rattle.std.specs.Prelude.{[], None};

use exif::{Counted, Error, Exif, In, Reader, Source, Tag};
use exif_test_support::answers::{is_refused, kind_of};
use exif_test_support::devices::{READ_FAILURES, Slow};
use exif_test_support::files;
use std::alloc::{AllocError, Global};
use std::io;
use std::process::Abort;
use std::test::Fail;

/// Gives bytes in memory, and has no method but `fetch`.
#[derive(Drop)]
struct Fetched<'a> {
    bytes: &'a [u8],
}

impl Source for Fetched<'_> {
    ghost left = { λ _. None };

    ghost failures = { λ _. 0 };

    ghost through = { λ _. [] };

    fn fetch(&mut self, buf: &mut [u8]) -> io::Result<usize> {
        let bytes: &[u8] = self.bytes;
        let n = buf.len().min(bytes.len());
        buf[..n].copy_from_slice(&bytes[..n]);
        self.bytes = &bytes[n..];
        Ok(n)
    }
}

/// The boxes of a HEIF file before its media, which begin with the Exif item at offset 28.
const FTYP: &[u8] = b"\0\0\0\x14ftypmif1\0\0\0\0mif1\0\0\x27\x3dmdat\0\0\0\0";

/// The `meta` of a file with an item of 37 bytes at that offset.
const META: &[u8] =
    b"\0\0\0\x4cmeta\0\0\0\0\0\0\0\x1eiloc\0\0\0\0\x44\0\0\x01\x1e\x1d\0\0\0\x01\0\0\0\x1c\0\0\0\x25\0\0\0\x22iinf\0\0\0\0\0\x01\0\0\0\x14infe\x02\0\0\0\x1e\x1d\0\0Exif\0";

/// A HEIF file whose media come before `meta`: the item, and 10,000 bytes more.
fn media_first(alloc: Global) -> Result<Vec<u8>, AllocError> {
    let mut file = Vec::from_slice(alloc, FTYP)?;
    file.extend_from_slice(files::DESCRIBED_BIG)?;
    for _ in 0..10_000 {
        file.push(7)?;
    }
    file.extend_from_slice(META)?;
    Ok(file)
}

// The picture that was read is described.
fn is_described(rt: &impl Abort, answer: Result<Exif, Error>) {
    let found = match &answer {
        Ok(exif) => exif.get_field(Tag::ImageDescription, In::PRIMARY).is_some(),
        Err(_fault) => false,
    };
    drop(answer);
    assert!(rt; found);
}

#[test]
fn fetching_is_enough_for_every_reading(rt: HostRuntime) -> Result<(), Fail> {
    let file = media_first(rt.alloc())?;
    let reader = Reader::new();
    for bytes in [files::JPEG, files::DESCRIBED_BIG, file.as_slice()] {
        let answer = reader.read_from_container(rt.alloc(), &mut Fetched { bytes });
        is_described(&rt, answer);
        let answer = reader.read_by_need(rt.alloc(), &mut Fetched { bytes });
        is_described(&rt, answer);
    }
    Ok(())
}

/// A reader that fails at its first call.
fn failing() -> Counted<Slow<'static>> {
    Counted::new(Slow::new(files::JPEG, 0, READ_FAILURES[0]))
}

#[test]
fn a_reader_is_used_again_after_refusals(rt: HostRuntime) -> Result<(), Fail> {
    let reader = Reader::new();
    let png: &[u8] = b"\x89PNG\x0d\x0a\x1a\x0a";
    let answer = reader.read_from_container(rt.alloc(), &mut Counted::new(png));
    is_refused(rt.alloc(), answer, "Unknown image format")?;
    let answer = reader.read_from_container(rt.alloc(), &mut failing());
    assert!(rt; kind_of(&answer) == Some(READ_FAILURES[0].kind));
    drop(answer);
    let answer = reader.read_from_container(rt.alloc(), &mut Counted::new(files::JPEG));
    is_described(&rt, answer);
    Ok(())
}
