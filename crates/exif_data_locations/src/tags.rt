//! The tags whose values are a location, hold a text, or hold data of their own.

ghost use Rattle.std.specs.Prelude.{◌≡◌, map};
ghost use Rattle.exif_data_locations.specs.TagNumbers.{character_codes, geo_tiff_tags, other_tags, text_tags};

// Numbers that say where the picture lies on the earth.
static GEO_TIFF_TAGS: [u16; 8] = [33550, 33920, 33922, 34264, 34735, 34736, 34737, 50844];

// Texts.
static TEXT_TAGS: [u16; 16] = [
    269, 270, 285, 33432, 37510, 40091, 40092, 40093, 40094, 40095, 42038, 42112, 50255, 50898,
    50899, 50909,
];

// Data of their own, and pointers to directories that are not read.
static OTHER_TAGS: [u16; 6] = [33424, 34263, 37724, 50740, 50828, 65024];

// The codes of ASCII, JIS and Unicode.
static CHARACTER_CODES: [&str; 3] = ["ASCII\0\0\0", "JIS\0\0\0\0\0", "UNICODE\0"];

/// The tags whose values are numbers that say where the picture lies on the earth.
pub fn geo_tiff_tags() -> &'static [u16]
    ensures { result.now ≡ geo_tiff_tags }
{
    &GEO_TIFF_TAGS
}

/// The tags whose values are texts.
pub fn text_tags() -> &'static [u16]
    ensures { result.now ≡ text_tags }
{
    &TEXT_TAGS
}

/// The tags whose values hold data of their own, or point to directories that are not read.
pub fn other_tags() -> &'static [u16]
    ensures { result.now ≡ other_tags }
{
    &OTHER_TAGS
}

/// The codes before the text of a comment.
pub fn character_codes() -> &'static [&'static str]
    ensures { map (λ code. code.now) result.now ≡ character_codes }
{
    &CHARACTER_CODES
}
