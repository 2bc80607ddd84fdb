//! What files are by the endings of their names.

ghost use Rattle.std.specs.Prelude.{◌≡◌, ◌-◌, drop, length};
ghost use Rattle.exif_decisions.specs.Endings.{ending_text, has, ending_in, is_jpeg, is_heif, is_raw_tiff, is_raw_other, is_jpeg2000, is_video, other_picture};

/// What a file is by the ending of its name.
#[derive(Clone, Copy, PartialEq, Eq)]
pub enum Ending {
    Jpeg,
    Png,
    Tiff,
    Heif,
    WebP,
    JpegXl,
    Raw,
    Gif,
    Bmp,
    Photoshop,
    Jpeg2000,
    Svg,
    Pdf,
    Video,
    /// XMP beside a picture.
    Xmp,
    /// Edits of Apple's Photos, beside a picture.
    Aae,
    /// A thumbnail beside a video or a raw file.
    Thm,
}

impl Ending {
    /// What a message names it.
    pub fn name(self) -> &'static str
        ensures { result.now ≡ ending_text self }
    {
        match self {
            Ending::Jpeg => "JPEG",
            Ending::Png => "PNG",
            Ending::Tiff => "TIFF",
            Ending::Heif => "HEIF",
            Ending::WebP => "WebP",
            Ending::JpegXl => "JPEG XL",
            Ending::Raw => "raw",
            Ending::Gif => "GIF",
            Ending::Bmp => "BMP",
            Ending::Photoshop => "PSD",
            Ending::Jpeg2000 => "JPEG 2000",
            Ending::Svg => "SVG",
            Ending::Pdf => "PDF",
            Ending::Video => "video",
            Ending::Xmp => "XMP",
            Ending::Aae => "AAE",
            Ending::Thm => "THM",
        }
    }
}

// The last bytes of a name: so many, or all where it has fewer.
fn last(name: &[u8], count: usize) -> &[u8]
    ensures { result.now ≡ drop (length name.now - count) name.now }
{
    if count >= name.len() {
        return name;
    }
    &name[name.len() - count..]
}

// Whether a name has an ending, whatever the case of its letters.
fn has(name: &[u8], ending: &[u8]) -> bool
    ensures { result ≡ has name.now ending.now }
{
    last(name, ending.len()).eq_ignore_ascii_case(ending)
}

fn is_jpeg(name: &[u8]) -> bool
    ensures { result ≡ is_jpeg name.now }
{
    has(name, b".jpg")
        || has(name, b".jpeg")
        || has(name, b".jpe")
        || has(name, b".jfif")
        || has(name, b".jif")
}

fn is_heif(name: &[u8]) -> bool
    ensures { result ≡ is_heif name.now }
{
    has(name, b".heic")
        || has(name, b".heif")
        || has(name, b".hif")
        || has(name, b".heics")
        || has(name, b".heifs")
        || has(name, b".avif")
        || has(name, b".avifs")
}

// Raw files that are TIFF data.
fn is_raw_tiff(name: &[u8]) -> bool
    ensures { result ≡ is_raw_tiff name.now }
{
    has(name, b".dng")
        || has(name, b".nef")
        || has(name, b".nrw")
        || has(name, b".cr2")
        || has(name, b".arw")
        || has(name, b".sr2")
        || has(name, b".srf")
        || has(name, b".srw")
        || has(name, b".pef")
        || has(name, b".erf")
        || has(name, b".3fr")
        || has(name, b".iiq")
}

// Other raw files.
fn is_raw_other(name: &[u8]) -> bool
    ensures { result ≡ is_raw_other name.now }
{
    has(name, b".cr3")
        || has(name, b".crw")
        || has(name, b".raf")
        || has(name, b".orf")
        || has(name, b".rw2")
        || has(name, b".rwl")
        || has(name, b".raw")
        || has(name, b".x3f")
        || has(name, b".mrw")
        || has(name, b".kdc")
        || has(name, b".dcr")
        || has(name, b".mef")
}

fn is_jpeg2000(name: &[u8]) -> bool
    ensures { result ≡ is_jpeg2000 name.now }
{
    has(name, b".jp2")
        || has(name, b".jpx")
        || has(name, b".jpf")
        || has(name, b".j2k")
        || has(name, b".j2c")
}

fn is_video(name: &[u8]) -> bool
    ensures { result ≡ is_video name.now }
{
    has(name, b".mov")
        || has(name, b".mp4")
        || has(name, b".m4v")
        || has(name, b".3gp")
        || has(name, b".3g2")
        || has(name, b".avi")
        || has(name, b".mts")
        || has(name, b".m2ts")
        || has(name, b".mkv")
        || has(name, b".webm")
        || has(name, b".insv")
        || has(name, b".lrv")
        || has(name, b".mpg")
        || has(name, b".wmv")
}

// What files with the remaining endings of pictures are.
fn other_picture(name: &[u8]) -> Option<Ending>
    ensures { result ≡ other_picture name.now }
{
    if has(name, b".png") {
        Some(Ending::Png)
    } else if has(name, b".tif") || has(name, b".tiff") {
        Some(Ending::Tiff)
    } else if has(name, b".webp") {
        Some(Ending::WebP)
    } else if has(name, b".jxl") {
        Some(Ending::JpegXl)
    } else if has(name, b".gif") {
        Some(Ending::Gif)
    } else if has(name, b".bmp") {
        Some(Ending::Bmp)
    } else if has(name, b".psd") || has(name, b".psb") {
        Some(Ending::Photoshop)
    } else if has(name, b".svg") || has(name, b".svgz") {
        Some(Ending::Svg)
    } else if has(name, b".pdf") {
        Some(Ending::Pdf)
    } else {
        None
    }
}

/// What a file is by the ending of its name, if it is one of these; the case of letters does not
/// count.
pub fn ending_of(name: &str) -> Option<Ending>
    ensures { result ≡ ending_in name.now }
{
    let name = name.as_bytes();
    if is_jpeg(name) {
        Some(Ending::Jpeg)
    } else if is_heif(name) {
        Some(Ending::Heif)
    } else if is_raw_tiff(name) || is_raw_other(name) {
        Some(Ending::Raw)
    } else if is_jpeg2000(name) {
        Some(Ending::Jpeg2000)
    } else if is_video(name) {
        Some(Ending::Video)
    } else if has(name, b".xmp") {
        Some(Ending::Xmp)
    } else if has(name, b".aae") {
        Some(Ending::Aae)
    } else if has(name, b".thm") {
        Some(Ending::Thm)
    } else {
        other_picture(name)
    }
}
