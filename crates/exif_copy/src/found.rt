//! The Exif data of a picture, by its format.

ghost use Rattle.std.specs.Prelude.{◌≡◌, true, Some};
ghost use Rattle.exif_types.specs.Refusals.{Gives, refusal_of};
ghost use Rattle.exif_tiff.specs.Answers.{raw_answer};
ghost use Rattle.exif_tiff.specs.Readings.{ReadsAs};
ghost use Rattle.exif_containers.specs.Container.{container_answer};
ghost use Rattle.exif_change.specs.Reading.{contents_of, data_contents, entry_limit, faults_skipped};
ghost use Rattle.exif_copy.specs.Found.{data_found, exif_found, raw_refused, tiff_refused};

use exif::{Counted, Error, Exif, Reader};
use exif_change::ENTRY_LIMIT;
use exif_containers::exif_attr_of_stream;
use exif_formats::{Format, PictureFormat, format_of_file, jxl_data, png_data, raf_data};
use std::alloc::Global;

// ---- data

// The Exif data of a JPEG, HEIF or WebP file.
fn container_data(alloc: Global, file: &[u8]) -> Result<Vec<u8>, Error>
    ensures { Gives (λ v. v.items) result (container_answer file.now) }
{
    exif_attr_of_stream(alloc, &mut Counted::new(file))
}

// Why the data of TIFF files are not copied: they hold the picture.
fn tiff_refused() -> Error
    ensures { refusal_of result ≡ Some tiff_refused }
{
    Error::NotSupported("no Exif data are copied from TIFF files, which are such data as a whole")
}

// Why those of raw files are not: they are TIFF data too, or are in several parts.
fn raw_refused() -> Error
    ensures { refusal_of result ≡ Some raw_refused }
{
    Error::NotSupported("no Exif data are copied from raw files")
}

// The Exif data of a file of a format.
fn data_found(alloc: Global, format: Option<PictureFormat>, file: &[u8]) -> Result<Vec<u8>, Error>
    ensures { Gives (λ v. v.items) result (data_found format file.now) }
{
    match format {
        None => Err(Error::InvalidFormat("Unknown image format")),
        Some(PictureFormat::Container(Format::Jpeg | Format::Heif | Format::WebP)) => {
            container_data(alloc, file)
        }
        Some(PictureFormat::Png) => png_data(alloc, file),
        Some(PictureFormat::JpegXl) => jxl_data(alloc, file),
        Some(PictureFormat::Raf) => raf_data(alloc, file),
        Some(PictureFormat::Container(Format::Tiff)) => Err(tiff_refused()),
        Some(PictureFormat::Orf | PictureFormat::Rw2 | PictureFormat::Cr3) => Err(raw_refused()),
    }
}

// ---- fields

// What a lenient reader answers of data.
fn answered(alloc: Global, data: Vec<u8>) -> Result<Exif, Error>
    ensures { ReadsAs (raw_answer true entry_limit data.items) data.items result }
{
    let mut reader = Reader::new();
    reader.continue_on_error(true).limit_entries(ENTRY_LIMIT);
    reader.read_raw(alloc, data)
}

// What was read, whatever faults there were.
fn faults_skipped(answer: Result<Exif, Error>) -> Result<Exif, Error>
    ensures { result ≡ faults_skipped answer.entry }
{
    match answer {
        Ok(exif) => Ok(exif),
        Err(Error::PartialResult(partial)) => {
            let (exif, _faults) = partial.into_inner();
            Ok(exif)
        }
        Err(error) => Err(error),
    }
}

// The fields of data; soft faults are skipped.
fn fields_of(alloc: Global, data: Vec<u8>) -> Result<Exif, Error>
    ensures { Gives contents_of result (data_contents data.items) }
{
    faults_skipped(answered(alloc, data))
}

/// The Exif data of a picture, and their fields.
pub(crate) fn exif_found(alloc: Global, file: &[u8]) -> Result<Exif, Error>
    ensures { Gives contents_of result (exif_found file.now) }
{
    let data = data_found(alloc, format_of_file(file), file)?;
    fields_of(alloc, data)
}
