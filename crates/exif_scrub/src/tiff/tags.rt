//! Which tags describe a picture, and which ones show a raw file.

ghost use Rattle.std.specs.Prelude.{◌≡◌};
ghost use Rattle.exif_scrub.specs.Tags.{describes_picture, is_jpeg_compression, is_raw_compression, is_raw_photometric, size_of_type};

/// The tag of the tables that the JPEG streams of a picture share: a stream too.
pub const JPEG_TABLES: u16 = 347;

/// Whether a tag describes its picture, so that it stays. The orientation does where it is kept.
pub fn describes_picture(keeps_orientation: bool, tag: u16) -> bool
    ensures { result ≡ describes_picture keeps_orientation tag }
{
    match tag {
        254..=259
        | 262..=266
        | 273
        | 277..=284
        | 290..=293
        | 296..=297
        | 301
        | 317..=325
        | 330
        | 332
        | 334
        | 336
        | 338..=342
        | 346..=347
        | 512..=515
        | 529..=532
        | 34675 => true,
        274 => keeps_orientation,
        _ => false,
    }
}

/// Whether a compression is one of cameras' raw files.
pub fn is_raw_compression(number: u32) -> bool
    ensures { result ≡ is_raw_compression number }
{
    matches!(number, 262 | 32767 | 32769 | 34316 | 34713 | 65000 | 65535)
}

/// Whether a photometric interpretation is one of raw files: a colour filter array, or linear raw.
pub fn is_raw_photometric(number: u32) -> bool
    ensures { result ≡ is_raw_photometric number }
{
    matches!(number, 32803 | 34892)
}

/// Whether a compression is JPEG.
pub fn is_jpeg_compression(number: u32) -> bool
    ensures { result ≡ is_jpeg_compression number }
{
    matches!(number, 6 | 7 | 34892)
}

/// How many bytes an item of a type has; 0 for a type that is not known.
pub fn size_of_type(number: u16) -> u64
    ensures { result ≡ size_of_type number }
{
    match number {
        1 | 2 | 6 | 7 => 1,
        3 | 8 => 2,
        4 | 9 | 11 | 13 => 4,
        5 | 10 | 12 => 8,
        _ => 0,
    }
}
