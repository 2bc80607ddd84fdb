//! Formats that are known by their signatures, and not read.

ghost use Rattle.std.specs.Prelude.{◌≡◌, drop, nat_eq};
ghost use Rattle.std.specs.List.{starts_with};
ghost use Rattle.exif_decisions.specs.Unsupported.{format_text, unsupported, picture, other, begins_raw, begins_still, begins_video, begins_jpeg2000, begins_big_tiff};

/// A format of pictures, videos or documents that is known, and not read.
#[derive(Clone, Copy, PartialEq, Eq)]
pub enum Unsupported {
    Gif,
    Bmp,
    Psd,
    Raw,
    Video,
    Jpeg2000,
    BigTiff,
    Svg,
    Pdf,
}

impl Unsupported {
    /// Its name.
    pub fn name(self) -> &'static str
        ensures { result.now ≡ format_text self }
    {
        match self {
            Unsupported::Gif => "GIF",
            Unsupported::Bmp => "BMP",
            Unsupported::Psd => "PSD",
            Unsupported::Raw => "raw",
            Unsupported::Video => "video",
            Unsupported::Jpeg2000 => "JPEG 2000",
            Unsupported::BigTiff => "BigTIFF",
            Unsupported::Svg => "SVG",
            Unsupported::Pdf => "PDF",
        }
    }
}

/// The format of a file that begins with these bytes, if it is one of these: GIF, BMP, Photoshop,
/// raw formats, videos (QuickTime, MPEG-4, Matroska, AVI), JPEG 2000, BigTIFF and PDF.
///
/// HEIF files and the raw files that are read have signatures of the same kind: a caller that reads
/// them asks for those first.
pub fn unsupported_of(head: &[u8]) -> Option<Unsupported>
    ensures { result ≡ unsupported head.now }
{
    match picture_of(head) {
        Some(format) => Some(format),
        None => other_of(head),
    }
}

// GIF, BMP, Photoshop and raw formats.
fn picture_of(head: &[u8]) -> Option<Unsupported>
    ensures { result ≡ picture head.now }
{
    if head.starts_with(b"GIF8") {
        Some(Unsupported::Gif)
    } else if head.starts_with(b"BM") && is_at(head, 6, b"\0\0\0\0") {
        Some(Unsupported::Bmp)
    } else if head.starts_with(b"8BPS") {
        Some(Unsupported::Psd)
    } else if begins_raw(head) {
        Some(Unsupported::Raw)
    } else {
        None
    }
}

// JPEG 2000, BigTIFF, PDF and videos.
fn other_of(head: &[u8]) -> Option<Unsupported>
    ensures { result ≡ other head.now }
{
    if begins_jpeg2000(head) {
        Some(Unsupported::Jpeg2000)
    } else if begins_big_tiff(head) {
        Some(Unsupported::BigTiff)
    } else if head.starts_with(b"%PDF-") {
        Some(Unsupported::Pdf)
    } else if begins_video(head) {
        Some(Unsupported::Video)
    } else {
        None
    }
}

fn begins_raw(head: &[u8]) -> bool
    ensures { result ≡ begins_raw head.now }
{
    head.starts_with(b"FUJIFILMCCD-RAW")
        || is_at(head, 6, b"HEAPCCDR")
        || is_at(head, 4, b"ftypcrx ")
        || head.starts_with(b"IIU\0")
        || head.starts_with(b"IIR")
        || head.starts_with(b"MMOR")
        || head.starts_with(b"\0MRM")
        || head.starts_with(b"FOVb")
}

fn begins_jpeg2000(head: &[u8]) -> bool
    ensures { result ≡ begins_jpeg2000 head.now }
{
    is_at(head, 4, b"jP  \x0d\x0a\x87\x0a") || head.starts_with(b"\xff\x4f\xff\x51")
}

fn begins_big_tiff(head: &[u8]) -> bool
    ensures { result ≡ begins_big_tiff head.now }
{
    head.starts_with(b"II\x2b\0") || head.starts_with(b"MM\0\x2b")
}

fn begins_video(head: &[u8]) -> bool
    ensures { result ≡ begins_video head.now }
{
    (is_at(head, 4, b"ftyp") && !begins_still(head))
        || is_at(head, 4, b"moov")
        || is_at(head, 4, b"mdat")
        || is_at(head, 4, b"wide")
        || is_at(head, 4, b"pnot")
        || head.starts_with(b"\x1a\x45\xdf\xa3")
        || (head.starts_with(b"RIFF") && is_at(head, 8, b"AVI "))
}

// Whether the major brand is one of HEIF or AVIF files.
fn begins_still(head: &[u8]) -> bool
    ensures { result ≡ begins_still head.now }
{
    is_at(head, 8, b"hei")
        || is_at(head, 8, b"hev")
        || is_at(head, 8, b"avi")
        || is_at(head, 8, b"mif")
        || is_at(head, 8, b"msf")
}

// Whether bytes are at an offset.
fn is_at(head: &[u8], offset: usize, bytes: &[u8]) -> bool
    ensures { result ≡ starts_with nat_eq (drop offset head.now) bytes.now }
{
    match head.get(offset..) {
        Some(rest) => rest.starts_with(bytes),
        None => [].as_slice().starts_with(bytes),
    }
}
