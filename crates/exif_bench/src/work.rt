//! What is timed.

use exif::experimental::Writer;
use exif::{Counted, Error, Exif, Reader, Seekable};
use exif_reader::report::report;
use std::alloc::Global;
use std::io::Cursor;

/// A work on a file.
#[derive(Clone, Copy, PartialEq, Eq)]
pub enum Work {
    /// All fields read, with their values; of TIFF data a front of them, where it says all.
    Read,
    /// The same, and all the data passed on.
    Whole,
    /// All fields read, and the report of it written into memory.
    Report,
    /// The fields that were read written as an image into memory.
    Write,
}

impl Work {
    /// Each work.
    pub const ALL: [Work; 4] = [Work::Read, Work::Whole, Work::Report, Work::Write];

    /// Its name in a line of times.
    pub fn name(self) -> &'static str {
        match self {
            Work::Read => "read",
            Work::Whole => "whole",
            Work::Report => "report",
            Work::Write => "write",
        }
    }

    /// The work of this name.
    pub fn named(name: &str) -> Option<Work> {
        Work::ALL.into_iter().find(|work| work.name() == name)
    }
}

/// What a file says.
pub fn read(alloc: Global, bytes: &[u8]) -> Result<Exif, Error> {
    Reader::new().read_by_need(alloc, &mut Seekable::new(Cursor::new(bytes)))
}

// What a file says, with all its data.
fn read_whole(alloc: Global, bytes: &[u8]) -> Result<Exif, Error> {
    Reader::new().read_from_container(alloc, &mut Seekable::new(Cursor::new(bytes)))
}

// How long the report of a file is.
fn report_len(alloc: Global, bytes: &[u8]) -> Result<usize, Error> {
    let mut out = Counted::new(Vec::new(alloc));
    report(
        alloc,
        &mut Seekable::new(Cursor::new(bytes)),
        &mut out,
        false,
    )?;
    Ok(out.into_inner().len())
}

// How long the image of these fields is.
fn image_len(alloc: Global, exif: &Exif) -> Result<usize, Error> {
    let mut writer = Writer::new(alloc);
    for field in exif.fields() {
        writer.push_field(field)?;
    }
    let mut image = Counted::new(Vec::new(alloc));
    writer.write(&mut image, false)?;
    Ok(image.into_inner().len())
}

/// What one call of a work makes: so many fields, or bytes. `exif` is what the file says.
pub fn made_by(alloc: Global, work: Work, bytes: &[u8], exif: &Exif) -> usize {
    let made = match work {
        Work::Read => read(alloc, bytes).map(|exif| exif.fields().len()),
        Work::Whole => read_whole(alloc, bytes).map(|exif| exif.fields().len()),
        Work::Report => report_len(alloc, bytes),
        Work::Write => image_len(alloc, exif),
    };
    made.unwrap_or(0)
}
