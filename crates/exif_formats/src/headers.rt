//! The headers of the boxes of a file, read from a source (ISO/IEC 14496-12:2015, 4.2).

ghost use Rattle.std.specs.Prelude.{◌≡◌, ◌≢◌, ◌<◌, ◌≤◌, [], length, take, IfErr, IfOk, IfSome, Err};
ghost use Rattle.std.specs.Io.KnownBytes.{Consumes};
ghost use Rattle.exif_base.specs.Reads.{Counts};
ghost use Rattle.exif_types.specs.Refusals.{Answers, invalid_format, is_io};
ghost use Rattle.exif_types.specs.declared.error.Error.TheVariants.{OutOfMemory};
ghost use Rattle.exif_isobmff.specs.Boxes.{header_len};
ghost use Rattle.exif_segments.specs.Answer.{IsShort};
ghost use Rattle.exif_formats.specs.Headers.{file_header};

use exif_base::{Source, read_front};
use exif_isobmff::{BoxSplitter, sizes_itself};
use exif_segments::util::fill;
use exif_types::Error;

/// The header of a box of a file: its type, and the length of its payload, which is absent where
/// the box runs to the end of the file.
#[derive(Clone, Copy)]
pub struct FileHeader {
    /// The type of the box.
    pub name: [u8; 4],
    /// How many bytes of the box follow the header.
    pub len: Option<u64>,
}

/// Reads the header of the next box into the buffer, and answers its length: 0 at the end.
///
/// A header that is cut off is `InvalidFormat` with this text.
pub fn read_header<R: Source>(
    source: &mut R,
    buf: &mut [u8; 16],
    broken: &'static str,
) -> Result<usize, Error>
    ensures taken { IfOk result
        (λ n. Consumes (R.left source.old) (R.left source.new) (take n buf.new)) }
    ensures whole { IfOk result
        (λ n. 0 < n → n ≡ header_len (take n buf.new)) }
    ensures bound { IfOk result (λ n. n ≤ length buf.new) }
    ensures end { IfOk result (λ n. n ≡ 0 → IfSome (R.left source.old) (λ xs. xs ≡ [])) }
    ensures short { IfErr result (λ e. IsShort (invalid_format broken.now) e (R.left source.old)
        (λ xs. (0 < length xs) × (length xs < header_len xs))) }
    ensures no_memory { result ≢ Err OutOfMemory }
    ensures counts { Counts R.Source source.old source.new (is_io result) }
{
    let n = read_front(source, &mut buf[..8])?;
    if n == 0 {
        return Ok(0);
    }
    if n < 8 {
        return Err(Error::InvalidFormat(broken));
    }
    if buf[..4] != [0, 0, 0, 1] {
        return Ok(8);
    }
    fill(source, &mut buf[8..], broken)?;
    Ok(16)
}

/// The header that these bytes are, whatever follows them. A size that is less than the header's
/// is `InvalidFormat` with this text.
///
/// `header_of` of `exif_isobmff` is not enough here: it answers none for a box up to the end of the
/// file and for a size that is wrong.
pub fn header_in(bytes: &[u8], wrong_size: &'static str) -> Result<FileHeader, Error>
    requires { length bytes.now ≡ header_len bytes.now }
    ensures { Answers (λ header. header) result
        (file_header (invalid_format wrong_size.now) bytes.now) }
{
    let name = [bytes[4], bytes[5], bytes[6], bytes[7]];
    if !sizes_itself(bytes) {
        return Ok(FileHeader { name, len: None });
    }
    let Ok(header) = BoxSplitter::new(bytes).header() else {
        return Err(Error::InvalidFormat(wrong_size));
    };
    let len = Some(header.len);
    Ok(FileHeader { name, len })
}
