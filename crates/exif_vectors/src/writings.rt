//! The calls that write Exif data, and those that write whole files.

use crate::calls::{end_of, end_of_error, send};
use crate::cases::{Block, BlockKind, Case, CaseError, Kind};
use crate::readings::read_fields;
use exif::experimental::Writer;
use exif::{Error, Exif, Field, In, Sink, Source};
use exif_rewrite::{
    Ended, Remove, rewrite, rewrite_jpeg, rewrite_jpeg_as_it_stands, rewrite_webp, scrub,
    scrubbed_exif,
};
use std::alloc::{AllocError, Global};
use std::fmt::Display;

/// The file with other Exif data, or without.
pub fn rewritten<R: Source, W: Sink>(
    alloc: Global,
    case: &Case,
    source: &mut R,
    out: &mut W,
) -> Result<String, CaseError> {
    let remove = if case.removes_all {
        Remove::Metadata
    } else {
        Remove::Exif
    };
    let put: Option<&[u8]> = match &case.put {
        Some(bytes) => Some(bytes.as_slice()),
        None => None,
    };
    match case.kind {
        Kind::Jpeg => end_of(alloc, rewrite_jpeg(alloc, source, out, put, remove)),
        Kind::WebP => end_of(alloc, rewrite_webp(alloc, source, out, put, remove)),
        Kind::CutJpeg => {
            let answer = rewrite_jpeg_as_it_stands(alloc, source, out, put, remove);
            end_of_cut(alloc, answer)
        }
        _ => end_of(alloc, rewrite(alloc, source, out, put, remove)),
    }
}

fn end_of_cut<E: Display + Drop>(
    alloc: Global,
    answer: Result<Ended, E>,
) -> Result<String, CaseError> {
    match answer {
        Ok(Ended::Whole) => Ok(String::new(alloc)),
        Ok(Ended::Cut) => Ok(String::from_str(alloc, "cut")?),
        Err(error) => end_of_error(alloc, error),
    }
}

/// Data of the fields that were read, but for the GPS directory and the thumbnail.
pub fn scrubbed<R: Source, W: Sink>(
    alloc: Global,
    case: &Case,
    source: &mut R,
    out: &mut W,
) -> Result<(), Error> {
    let exif = read_fields(alloc, case, source)?;
    scrub(alloc, &exif, out, case.is_little)
}

/// Data of the tags that are kept; the error `none` where there are none.
pub fn kept<R: Source, W: Sink>(
    alloc: Global,
    case: &Case,
    source: &mut R,
    out: &mut W,
) -> Result<(), Error> {
    let exif = read_fields(alloc, case, source)?;
    let made = scrubbed_exif(alloc, &exif, case.kept.as_slice());
    drop(exif);
    match made? {
        Some(data) => send(out, data.as_slice()),
        None => Err(Error::InvalidFormat("none")),
    }
}

/// All fields that were read, and the blocks of the case, written again.
pub fn copied<R: Source, W: Sink>(
    alloc: Global,
    case: &Case,
    source: &mut R,
    out: &mut W,
) -> Result<(), Error> {
    let exif = read_fields(alloc, case, source)?;
    let slices = slices_of(alloc, case)?;
    let mut writer = writer_of(alloc, &exif)?;
    put_blocks(&mut writer, case.blocks.as_slice(), slices.as_slice())?;
    writer.write(out, case.is_little)
}

// A writer of all fields that were read.
fn writer_of<'a>(alloc: Global, exif: &'a Exif) -> Result<Writer<'a>, Error> {
    let mut writer = Writer::new(alloc);
    for field in exif.fields() {
        push(&mut writer, field)?;
    }
    Ok(writer)
}

// A writer of fields.
fn writer_with<'a>(alloc: Global, fields: &'a [Field]) -> Result<Writer<'a>, Error> {
    let mut writer = Writer::new(alloc);
    for field in fields {
        push(&mut writer, field)?;
    }
    Ok(writer)
}

fn push<'a>(writer: &mut Writer<'a>, field: &'a Field) -> Result<(), Error> {
    writer.push_field(field)
}

/// The fields and the blocks of the case, written.
pub fn image<W: Sink>(alloc: Global, case: &Case, out: &mut W) -> Result<(), Error> {
    let slices = slices_of(alloc, case)?;
    let mut writer = writer_with(alloc, case.fields.as_slice())?;
    put_blocks(&mut writer, case.blocks.as_slice(), slices.as_slice())?;
    writer.write(out, case.is_little)
}

// The parts of all blocks in a row.
fn slices_of<'a>(alloc: Global, case: &'a Case) -> Result<Vec<&'a [u8]>, AllocError> {
    let mut all: Vec<&'a [u8]> = Vec::new(alloc);
    for block in case.blocks.as_slice() {
        for part in block.parts.as_slice() {
            all.push(part.as_slice())?;
        }
    }
    Ok(all)
}

fn put_blocks<'a>(
    writer: &mut Writer<'a>,
    blocks: &[Block],
    slices: &'a [&'a [u8]],
) -> Result<(), Error> {
    let mut rest = slices;
    for block in blocks {
        let count = block.parts.len();
        let parts = rest.get(..count).unwrap_or(&[]);
        rest = rest.get(count..).unwrap_or(&[]);
        put(writer, block.kind, block.ifd_num, parts)?;
    }
    Ok(())
}

fn put<'a>(
    writer: &mut Writer<'a>,
    kind: BlockKind,
    ifd_num: In,
    parts: &'a [&'a [u8]],
) -> Result<(), Error> {
    match kind {
        BlockKind::Strips => writer.set_strips(parts, ifd_num),
        BlockKind::Tiles => writer.set_tiles(parts, ifd_num),
        BlockKind::Jpeg => writer.set_jpeg(parts.first().copied().unwrap_or(b""), ifd_num),
    }
}
