//! The datasets that are a location, and those that hold a text or a picture.

ghost use Rattle.std.specs.Prelude.{◌≡◌, map};
ghost use Rattle.exif_locations.specs.IptcNumbers.{character_sets, location_numbers, text_numbers, text_records};

// The datasets of the second record that are a location.
static LOCATION_NUMBERS: [u8; 7] = [26, 27, 90, 92, 95, 100, 101];

// Those that hold a text, keywords or a picture.
static TEXT_NUMBERS: [u8; 17] = [
    5, 12, 15, 20, 25, 40, 105, 116, 118, 120, 121, 122, 125, 202, 230, 231, 255,
];

// The other records whose datasets may hold a text or a picture.
static TEXT_RECORDS: [u8; 4] = [1, 3, 8, 240];

// The escape sequences of UTF-8 and ISO 8859-1.
static CHARACTER_SETS: [&str; 2] = ["\x1b%G", "\x1b.A"];

/// The datasets of the second record that are a location.
pub fn location_numbers() -> &'static [u8]
    ensures { result.now ≡ location_numbers }
{
    &LOCATION_NUMBERS
}

/// The datasets of the second record that hold a text, keywords or a picture.
pub fn text_numbers() -> &'static [u8]
    ensures { result.now ≡ text_numbers }
{
    &TEXT_NUMBERS
}

/// The other records whose datasets may hold a text or a picture.
pub fn text_records() -> &'static [u8]
    ensures { result.now ≡ text_records }
{
    &TEXT_RECORDS
}

/// The character sets that name no text.
pub fn character_sets() -> &'static [&'static str]
    ensures { map (λ set. set.now) result.now ≡ character_sets }
{
    &CHARACTER_SETS
}
