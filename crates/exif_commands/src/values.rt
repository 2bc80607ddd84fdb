//! The XMP and IPTC values of a file.

ghost use Rattle.std.specs.Prelude.{◌≡◌, IfOk, IfSome};
ghost use Rattle.exif_inputs.specs.Uses.{held};
ghost use Rattle.exif_values.specs.Values.{values_view};
ghost use Rattle.exif_commands.specs.Shown.{has_packets, values_in};

use exif::Error;
use exif_containers::container::Format;
use exif_formats::{Picture, PictureFormat};
use exif_inputs::{Input, read_file};
use exif_values::Values;
use std::alloc::{AllocError, Global};
use std::io;

/// The values of a file that is held in memory, as standard input is; `None` for one that is not.
pub fn held_values(alloc: Global, input: &io::Result<Input>) -> Result<Option<Values>, AllocError>
    ensures { IfOk result (λ values. IfOk input.now (λ input. IfSome (held input) (λ bytes.
        IfSome values (λ values. values_view values ≡ values_in bytes)))) }
{
    match input {
        Ok(Input::Bytes(bytes)) => Ok(Some(values_in(alloc, bytes.as_slice())?)),
        Ok(Input::File(_)) | Err(_) => Ok(None),
    }
}

/// The values of a file that was read, which is read again whole where they are outside of its
/// fields: for none else the memory of a file is taken.
pub fn file_values(
    rt: &HostRuntime,
    path: &str,
    read: &Result<Picture, Error>,
) -> Result<Values, AllocError> {
    match read {
        Ok(picture) if has_packets(picture.format) => match read_file(rt, path) {
            Ok(bytes) => values_in(rt.alloc(), bytes.as_slice()),
            Err(_gone) => Ok(Values::new(rt.alloc())),
        },
        _ => Ok(Values::new(rt.alloc())),
    }
}

// Whether files of a format have packets outside of the fields of their Exif data.
fn has_packets(format: Option<PictureFormat>) -> bool
    ensures { result ≡ has_packets format }
{
    match format {
        Some(PictureFormat::Container(Format::Tiff)) | None => false,
        Some(PictureFormat::Container(_) | PictureFormat::Png | PictureFormat::JpegXl) => true,
        Some(PictureFormat::Raf | PictureFormat::Orf | PictureFormat::Rw2 | PictureFormat::Cr3) =>
            false,
    }
}

// The values in the packets of a file, if it has some.
fn values_in(alloc: Global, file: &[u8]) -> Result<Values, AllocError>
    ensures { IfOk result (λ values. values_view values ≡ values_in file.now) }
{
    match exif_values::read(alloc, file)? {
        Some(values) => Ok(values),
        None => Ok(Values::new(alloc)),
    }
}
