//! Pictures read, whatever format they have.

ghost use Rattle.std.specs.Prelude.{◌≡◌, ◌≤◌, ℕ, length, take, List, Result, IfOk, IfErr, IfSome};
ghost use Rattle.exif_base.specs.Reads.{Counts};
ghost use Rattle.exif_types.specs.Refusals.{Gives, IsInterrupted, Refusal, is_io};
ghost use Rattle.exif_tiff.specs.Answers.{raw_answer};
ghost use Rattle.exif_reader.specs.Files.{ReadsContainer};
ghost use Rattle.exif_containers.specs.GoingBack.{BeginsAt};
ghost use Rattle.exif_formats.specs.Formats.{format_in};
ghost use Rattle.exif_formats.specs.Pictures.{ReadsAsFormat, ReadsPicture, as_read, container_of, is_other_tiff, origin_for};
ghost use Rattle.exif_formats.specs.Failing.{has_io};

use crate::cr3::read_cr3;
use crate::format::{PictureFormat, format_of, format_of_file};
use crate::jxl::get_exif_attr_from_jxl;
use crate::magic::make_tiff;
use crate::options::Options;
use crate::raw::raf;
use exif_base::{Blocks, Counted, Source};
use exif_containers::container::{BLOCK, Format, SNIFF_LEN, read_signature};
use exif_containers::png::get_exif_attr_from_png;
use exif_reader::Reader;
use exif_types::{Error, Exif};
use std::alloc::Global;

/// The format of a picture, and what reading it answers.
#[derive(Drop)]
pub struct Picture {
    /// The format that the first 4096 bytes begin, if they begin one.
    pub format: Option<PictureFormat>,
    /// What was read, or why nothing was.
    pub answer: Result<Exif, Error>,
}

// The container of Exif data that a format is read as, if it is one.
fn container_of(format: Option<PictureFormat>) -> Option<Format>
    ensures { result ≡ container_of format }
{
    match format {
        Some(PictureFormat::Container(format)) => Some(format),
        Some(PictureFormat::Orf | PictureFormat::Rw2) => Some(Format::Tiff),
        _ => None,
    }
}

// What is read of the data of a container, or its refusal.
fn read_data(reader: &Reader, alloc: Global, data: Result<Vec<u8>, Error>) -> Result<Exif, Error>
    ensures reads { (container : Result (List ℕ) Refusal)
        → Gives (λ v. v.items) data.entry container
        → ReadsContainer (raw_answer reader.now.lenient reader.now.limit) container result }
    ensures io { is_io result ≡ is_io data.entry }
{
    let bytes = data?;
    let exif = reader.read_raw(alloc, bytes)?;
    Ok(exif)
}

// What is read of bytes that are read as a picture of a format. The first byte is at this offset;
// with none, the stream is read in order.
fn read_as<R: Source>(
    options: Options,
    alloc: Global,
    format: Option<PictureFormat>,
    source: &mut R,
    origin: Option<u64>,
) -> Result<Exif, Error>
    ensures reads { IfSome (R.left source.old) (λ bytes.
        BeginsAt origin (R.stream source.old) (R.left source.old)
        → ReadsAsFormat (raw_answer options.lenient options.limit) format bytes result) }
    ensures counts { Counts R.Source source.old source.new (is_io result) }
{
    let reader = options.reader();
    match format {
        Some(PictureFormat::Png) => read_data(
            &reader,
            alloc,
            get_exif_attr_from_png(alloc, source),
        ),
        Some(PictureFormat::JpegXl) => {
            read_data(&reader, alloc, get_exif_attr_from_jxl(alloc, source))
        }
        Some(PictureFormat::Raf) => read_data(&reader, alloc, raf::get_exif_attr(alloc, source)),
        Some(PictureFormat::Cr3) => read_cr3(options, alloc, source),
        _ => reader.read_as(alloc, container_of(format), source, origin),
    }
}

// Whether files of a format are TIFF data with another number in place of 42.
fn is_other_tiff(format: Option<PictureFormat>) -> bool
    ensures { result ≡ is_other_tiff format }
{
    matches!(format, Some(PictureFormat::Orf | PictureFormat::Rw2))
}

// Makes the front of a picture what it is read as.
fn make_read(format: Option<PictureFormat>, front: &mut [u8])
    requires { format ≡ format_in front.old }
    ensures { front.new ≡ as_read format front.old }
{
    if is_other_tiff(format) {
        make_tiff(front);
    }
}

// The offset at which the stream may be read again: none where the bytes are read as others.
fn origin_for(format: Option<PictureFormat>, origin: Option<u64>) -> Option<u64>
    ensures { result ≡ origin_for format origin }
{
    if is_other_tiff(format) { None } else { origin }
}

// Reads a picture through a block.
fn read_through<R: Source>(
    options: Options,
    alloc: Global,
    source: &mut R,
    origin: Option<u64>,
    block: &mut [u8],
) -> Result<Picture, Error>
    requires { SNIFF_LEN ≤ length block.now }
    ensures format { IfOk result (λ p. IfSome (R.left source.old)
        (λ bytes. p.format ≡ format_in (take SNIFF_LEN bytes))) }
    ensures reads { IfOk result (λ p. IfSome (R.left source.old) (λ bytes.
        BeginsAt origin (R.stream source.old) (R.left source.old)
        → ReadsPicture options.lenient options.limit bytes p.answer)) }
    ensures interrupted { IfErr result IsInterrupted }
    ensures counts { Counts R.Source source.old source.new (has_io result) }
{
    let filled = read_signature(source, block)?;
    let format = format_of(&block[..filled]);
    make_read(format, &mut block[..filled]);
    let mut blocks = Blocks::new(block, filled, source);
    let answer = read_as(
        options,
        alloc,
        format,
        &mut blocks,
        origin_for(format, origin),
    );
    Ok(Picture { format, answer })
}

/// Reads a picture of any format that is known: the four of
/// [`Reader::read_with_format`](exif_reader::Reader::read_with_format), as it does, and these.
///
/// | Format | Exif data |
/// |-|-|
/// | PNG | the chunk `eXIf` |
/// | JPEG XL in its container | the box `Exif`; compressed data are refused |
/// | Fujifilm RAF | those of the JPEG stream whose offset the header has |
/// | Olympus ORF, Panasonic RW2 | the file: TIFF data with another number in place of 42 |
/// | Canon CR3 | the boxes `CMT1`, `CMT2` and `CMT4`: each is read by itself, and the fields of the second and the third are those of the Exif and the GPS directory |
///
/// The first 4096 bytes choose. Each of the data of a CR3 file is read under the limit by itself;
/// a refusal of one is that of the file, and `Exif::buf` answers the first data. The error of the
/// call is one of the source before the first 4096 bytes are read.
pub fn read_picture<R: Source>(
    options: Options,
    alloc: Global,
    source: &mut R,
) -> Result<Picture, Error>
    ensures format { IfOk result (λ p. IfSome (R.left source.old)
        (λ bytes. p.format ≡ format_in (take SNIFF_LEN bytes))) }
    ensures reads { IfOk result (λ p. IfSome (R.left source.old)
        (λ bytes. ReadsPicture options.lenient options.limit bytes p.answer)) }
    ensures interrupted { IfErr result IsInterrupted }
    ensures counts { Counts R.Source source.old source.new (has_io result) }
{
    let origin = source.offset();
    if source.is_at_hand() {
        return read_through(options, alloc, source, origin, &mut [0; SNIFF_LEN]);
    }
    read_through(options, alloc, source, origin, &mut [0; BLOCK])
}

/// Reads a picture in memory, as [`read_picture`] does.
pub fn read_bytes(options: Options, alloc: Global, file: &[u8]) -> Picture
    ensures format { result.format ≡ format_in (take SNIFF_LEN file.now) }
    ensures reads { ReadsPicture options.lenient options.limit file.now result.answer }
{
    match read_picture(options, alloc, &mut Counted::new(file)) {
        Ok(picture) => picture,
        Err(error) => Picture {
            format: format_of_file(file),
            answer: Err(error),
        },
    }
}
