//! The calls that read.

use crate::calls::{end_of_error, send};
use crate::cases::{Case, CaseError, Kind};
use exif::{Error, Exif, Field, Reader, Sink, Source, parse_exif};
use exif_base::{Blocks, Counted};
use exif_containers::{exif_attr_of_stream, isobmff};
use exif_formats::{Options, Picture, read_bytes};
use exif_json::json_of_answer;
use exif_reader::report::{report, report_limited};
use exif_segments::util::read_all;
use exif_segments::{get_exif_attr_from_jpeg, jpeg, webp};
use std::alloc::{AllocError, Global};

/// The end of a report, with the number of the faults that were skipped.
pub fn end_of_report<R: Source, W: Sink>(
    alloc: Global,
    case: &Case,
    source: &mut R,
    out: &mut W,
) -> Result<String, CaseError> {
    match reported(alloc, case, source, out) {
        Ok(0) => Ok(String::new(alloc)),
        Ok(faults) => Ok(format!(in alloc; "{faults} faults")?),
        Err(error) => end_of_error(alloc, error),
    }
}

fn reported<R: Source, W: Sink>(
    alloc: Global,
    case: &Case,
    source: &mut R,
    out: &mut W,
) -> Result<u64, Error> {
    match case.limit {
        None => report(alloc, source, out, case.is_lenient),
        Some(limit) => report_limited(alloc, source, out, case.is_lenient, limit),
    }
}

/// The Exif data of a file.
pub fn exif_data<R: Source, W: Sink>(
    alloc: Global,
    case: &Case,
    source: &mut R,
    out: &mut W,
) -> Result<(), Error> {
    let bytes = match case.kind {
        Kind::Jpeg => get_exif_attr_from_jpeg(alloc, source)?,
        Kind::JpegByBlocks => by_blocks(alloc, source)?,
        Kind::WebP => webp::get_exif_attr(alloc, source)?,
        Kind::Heif => isobmff::get_exif_attr(alloc, source)?,
        _ => exif_attr_of_stream(alloc, source)?,
    };
    send(out, bytes.as_slice())
}

// The Exif data of a JPEG stream that is read seven bytes at a time.
fn by_blocks<R: Source>(alloc: Global, source: &mut R) -> Result<Vec<u8>, Error> {
    let mut block = [0u8; 7];
    jpeg::get_exif_attr(alloc, &mut Blocks::new(&mut block, 0, source))
}

// How a picture of a case is read.
fn options_of(case: &Case) -> Options {
    Options {
        lenient: case.is_lenient,
        limit: case.limit,
    }
}

// The reader of a case.
fn reader_of(case: &Case) -> Reader {
    let mut reader = Reader::new();
    reader.continue_on_error(case.is_lenient);
    if let Some(limit) = case.limit {
        reader.limit_entries(limit);
    }
    reader
}

// The answer of a reader for a file.
fn read<R: Source>(alloc: Global, case: &Case, source: &mut R) -> Result<Exif, Error> {
    reader_of(case).read_from_container(alloc, source)
}

/// What was read of a file. The faults that were skipped are dropped.
pub fn read_fields<R: Source>(alloc: Global, case: &Case, source: &mut R) -> Result<Exif, Error> {
    without_faults(read(alloc, case, source))
}

fn without_faults(answer: Result<Exif, Error>) -> Result<Exif, Error> {
    match answer {
        Err(Error::PartialResult(partial)) => {
            let (exif, _faults) = partial.into_inner();
            Ok(exif)
        }
        other => other,
    }
}

/// The JSON object of a file, of what was read or of the refusal.
pub fn json<R: Source, W: Sink>(
    alloc: Global,
    case: &Case,
    source: &mut R,
    out: &mut W,
) -> Result<(), Error> {
    let file = read_all(alloc, source)?;
    let Picture { format, answer } = read_bytes(options_of(case), alloc, file.as_slice());
    let answer = match answer {
        Err(Error::OutOfMemory) => return Err(Error::OutOfMemory),
        other => other,
    };
    let text = json_of_answer(alloc, case.path.as_slice(), format, answer)?;
    send(out, text.as_slice())
}

/// The byte order and the fields of TIFF data, as they are held.
pub fn parsed<R: Source, W: Sink>(alloc: Global, source: &mut R, out: &mut W) -> Result<(), Error> {
    let data = read_all(alloc, source)?;
    let (fields, little_endian) = parse_exif(alloc, data.as_slice())?;
    let text = listed(alloc, fields.as_slice(), little_endian)?;
    send(out, text.as_bytes())
}

/// The same of a reader that is given TIFF data. The faults that were skipped are dropped.
pub fn raw<R: Source, W: Sink>(
    alloc: Global,
    case: &Case,
    source: &mut R,
    out: &mut W,
) -> Result<(), Error> {
    let data = read_all(alloc, source)?;
    let exif = without_faults(reader_of(case).read_raw(alloc, data))?;
    let mut text = order_line(alloc, exif.little_endian())?;
    for field in exif.fields() {
        push_field(&mut text, field)?;
    }
    drop(exif);
    send(out, text.as_bytes())
}

fn order_line(alloc: Global, little_endian: bool) -> Result<String, AllocError> {
    String::from_str(
        alloc,
        if little_endian {
            "little endian\n"
        } else {
            "big endian\n"
        },
    )
}

fn listed(alloc: Global, fields: &[Field], little_endian: bool) -> Result<String, AllocError> {
    let mut text = order_line(alloc, little_endian)?;
    for field in fields {
        push_field(&mut text, field)?;
    }
    Ok(text)
}

fn push_field(text: &mut String, field: &Field) -> Result<(), AllocError> {
    let (tag, ifd_num, value) = (&field.tag, &field.ifd_num, &field.value);
    write!(text, "{tag} {ifd_num} {value:?}\n")
}

/// How much of a file was read where no more is read than is needed, and how much is held.
pub fn by_need<R: Source, W: Sink>(
    alloc: Global,
    case: &Case,
    source: &mut R,
    out: &mut W,
) -> Result<(), Error> {
    let (exif, faults) = needed(alloc, case, source)?;
    let text = counted(alloc, &exif, faults)?;
    drop(exif);
    send(out, text.as_bytes())
}

fn needed<R: Source>(alloc: Global, case: &Case, source: &mut R) -> Result<(Exif, usize), Error> {
    match reader_of(case).read_by_need(alloc, source) {
        Err(Error::PartialResult(partial)) => {
            let (exif, faults) = partial.into_inner();
            Ok((exif, faults.len()))
        }
        Err(error) => Err(error),
        Ok(exif) => Ok((exif, 0)),
    }
}

fn counted(alloc: Global, exif: &Exif, faults: usize) -> Result<String, AllocError> {
    let (fields, held) = (exif.fields().len(), exif.buf().len());
    format!(in alloc; "{fields} fields, {faults} faults, {held} bytes held")
}
