//! Why a text is no date, or no part of one.

ghost use Rattle.std.specs.Prelude.{◌≡◌};

/// Why a text is no date, or no part of one.
#[derive(Clone, Copy, Debug, PartialEq, Eq)]
pub enum DateFault {
    /// The date is spaces, or spaces between colons.
    BlankDate,
    /// The date has fewer than 19 bytes.
    DateTooShort,
    /// A colon of the date, or the space before its time, is not at its position.
    InvalidDateDelimiter,
    /// A byte that should be a digit is none.
    NotANumber,
    /// The offset is spaces, or spaces with a colon.
    BlankOffset,
    /// The offset has fewer than 6 bytes.
    OffsetTooShort,
    /// The colon of the offset is not at its position.
    InvalidOffsetDelimiter,
    /// The offset begins with another byte than `+` and `-`.
    InvalidOffsetSign,
}

impl DateFault {
    ghost use Rattle.exif_text.specs.Faults.{message_of};

    /// What the fault is called in an error.
    pub fn message(self) -> &'static str
        ensures { result.now ≡ message_of self }
    {
        match self {
            DateFault::BlankDate => "DateTime is blank",
            DateFault::DateTooShort => "DateTime too short",
            DateFault::InvalidDateDelimiter => "Invalid DateTime delimiter",
            DateFault::NotANumber => "Not a number",
            DateFault::BlankOffset => "OffsetTime is blank",
            DateFault::OffsetTooShort => "OffsetTime too short",
            DateFault::InvalidOffsetDelimiter => "Invalid OffsetTime delimiter",
            DateFault::InvalidOffsetSign => "Invalid OffsetTime sign",
        }
    }
}
