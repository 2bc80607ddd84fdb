//! How calls end, as numbers.

ghost use Rattle.std.specs.Prelude.{◌≡◌, ◌==◌, length, find, Option};
ghost use Rattle.std.specs.Option.{option_copied};
ghost use Rattle.exif_c.specs.Buffers.{filled};
ghost use Rattle.exif_c.specs.Statuses.{all, edit_status, error_status, named, number_of, refusal_status, status_text, text_of, tiff_status};

use crate::buffer::given;
use exif::Error;
use exif_change::Refusal;
use exif_scrub::tiff::Fault;

/// How a call ended.
#[derive(Clone, Copy)]
pub enum Status {
    /// All is well.
    Well,
    /// Faults were skipped.
    Faults,
    /// No file that is read, or Exif data with a fault.
    InvalidFormat,
    /// No Exif data in the file.
    NotFound,
    /// A value is blank.
    BlankValue,
    /// Longer than the format allows.
    TooBig,
    /// A form of the file that is not read.
    NotSupported,
    /// A value of another type.
    UnexpectedValue,
    /// There was no memory.
    OutOfMemory,
    /// No such field where one is to be set.
    FieldNotFound,
    /// The value is of an unknown type.
    UnknownType,
    /// The new value takes more bytes than the old one's space.
    ValueTooLong,
    /// The field holds offsets of other data.
    NamesOffsets,
    /// The bytes are those of something else too.
    SharedBytes,
    /// A TIFF file: the picture is in the same data.
    PictureData,
    /// Invalid header of the Exif data.
    InvalidHeader,
    /// There is no directory to put the field into.
    NoDirectory,
    /// The directory has no space for an entry.
    FullDirectory,
    /// No `TAG=VALUE` of a known tag.
    NoAssignment,
    /// Invalid value for the type of the field.
    NotOfItsType,
    /// The file has more than one block of Exif data, and only one would be left.
    SecondExif,
    /// There is no date to shift.
    NoDate,
    /// The standard does not have this value for the tag.
    OutOfRange,
    /// There is no thumbnail.
    NoThumbnail,
    /// A part of the file holds a location.
    LocationFound,
    /// A part of the file may hold a location.
    LocationPossible,
    /// A HEIF file would be read otherwise without its metadata.
    Unstable,
}

impl Status {
    /// The number that C is given.
    pub fn number(self) -> u32
        ensures { result ≡ number_of self }
    {
        match self {
            Status::Well => 0,
            Status::Faults => 1,
            Status::InvalidFormat => 2,
            Status::NotFound => 3,
            Status::BlankValue => 4,
            Status::TooBig => 5,
            Status::NotSupported => 6,
            Status::UnexpectedValue => 7,
            Status::OutOfMemory => 8,
            Status::FieldNotFound => 16,
            Status::UnknownType => 17,
            Status::ValueTooLong => 18,
            Status::NamesOffsets => 19,
            Status::SharedBytes => 20,
            Status::PictureData => 22,
            Status::InvalidHeader => 23,
            Status::NoDirectory => 24,
            Status::FullDirectory => 25,
            Status::NoAssignment => 32,
            Status::NotOfItsType => 33,
            Status::SecondExif => 34,
            Status::NoDate => 35,
            Status::OutOfRange => 36,
            Status::NoThumbnail => 38,
            Status::LocationFound => 39,
            Status::LocationPossible => 40,
            Status::Unstable => 41,
        }
    }

    // What it says.
    fn text(self) -> &'static str
        ensures { result.now ≡ text_of self }
    {
        match self {
            Status::Well => "No error",
            Status::Faults => "Faults were skipped",
            Status::InvalidFormat => "Invalid format",
            Status::NotFound => "No Exif data found",
            Status::BlankValue => "Blank value",
            Status::TooBig => "Too big",
            Status::NotSupported => "Not supported",
            Status::UnexpectedValue => "Unexpected value",
            Status::OutOfMemory => "Out of memory",
            Status::FieldNotFound => "No such field, and it cannot be created",
            Status::UnknownType => "Cannot write unknown field types",
            Status::ValueTooLong => "The value is too long for its space",
            Status::NamesOffsets => "The field holds offsets of other data",
            Status::SharedBytes => "The bytes are shared with other data",
            Status::PictureData => "The picture is in the same data",
            Status::InvalidHeader => "Invalid header of the Exif data",
            Status::NoDirectory => "No directory to put the field into",
            Status::FullDirectory => "The directory has no space for an entry",
            Status::NoAssignment => "Expected TAG=VALUE with a known tag",
            Status::NotOfItsType => "Invalid value for the type of the field",
            Status::SecondExif =>
                "The file has more than one block of Exif data, and only one would be left",
            Status::NoDate => "No date to shift",
            Status::OutOfRange => "The tag cannot have this value",
            Status::NoThumbnail => "No thumbnail",
            Status::LocationFound => "The file holds a location",
            Status::LocationPossible => "The file may hold a location",
            Status::Unstable => "The file would be read otherwise without its metadata",
        }
    }

    // All of them.
    fn all() -> &'static [Status]
        ensures { result.now ≡ all }
    {
        &[
            Status::Well,
            Status::Faults,
            Status::InvalidFormat,
            Status::NotFound,
            Status::BlankValue,
            Status::TooBig,
            Status::NotSupported,
            Status::UnexpectedValue,
            Status::OutOfMemory,
            Status::FieldNotFound,
            Status::UnknownType,
            Status::ValueTooLong,
            Status::NamesOffsets,
            Status::SharedBytes,
            Status::PictureData,
            Status::InvalidHeader,
            Status::NoDirectory,
            Status::FullDirectory,
            Status::NoAssignment,
            Status::NotOfItsType,
            Status::SecondExif,
            Status::NoDate,
            Status::OutOfRange,
            Status::NoThumbnail,
            Status::LocationFound,
            Status::LocationPossible,
            Status::Unstable,
        ]
    }

    // The one of a number.
    fn named(number: u32) -> Option<Status>
        ensures { result ≡ named number }
    {
        Status::all()
            .iter()
            .copied()
            .find(|status| status.number() == number)
    }
}

/// That of an error of reading.
pub fn error_status(error: &Error) -> Status
    ensures { result ≡ error_status error.now }
{
    match error {
        Error::PartialResult(_) => Status::Faults,
        Error::InvalidFormat(_) => Status::InvalidFormat,
        Error::NotFound(_) => Status::NotFound,
        Error::BlankValue(_) => Status::BlankValue,
        Error::TooBig(_) => Status::TooBig,
        Error::NotSupported(_) => Status::NotSupported,
        Error::UnexpectedValue(_) => Status::UnexpectedValue,
        Error::OutOfMemory | Error::Io(_) => Status::OutOfMemory,
    }
}

/// That of a refusal of an edit in place.
pub fn edit_status(error: &exif_edit::Error) -> Status
    ensures { result ≡ edit_status error.now }
{
    match error {
        exif_edit::Error::FieldNotFound => Status::FieldNotFound,
        exif_edit::Error::NoDirectory => Status::NoDirectory,
        exif_edit::Error::FullDirectory => Status::FullDirectory,
        exif_edit::Error::UnknownType => Status::UnknownType,
        exif_edit::Error::ValueTooLong => Status::ValueTooLong,
        exif_edit::Error::NamesOffsets => Status::NamesOffsets,
        exif_edit::Error::SharedBytes => Status::SharedBytes,
        exif_edit::Error::PictureData => Status::PictureData,
        exif_edit::Error::Header(_) => Status::InvalidHeader,
        exif_edit::Error::Container(cause) => error_status(cause),
        exif_edit::Error::OutOfMemory => Status::OutOfMemory,
    }
}

// That of a TIFF file that is not scrubbed.
fn tiff_status(fault: Fault) -> Status
    ensures { result ≡ tiff_status fault }
{
    match fault {
        Fault::NoHeader | Fault::Broken | Fault::TooManyDirectories | Fault::OddTag => {
            Status::InvalidFormat
        }
        Fault::SharedBytes => Status::SharedBytes,
        Fault::Raw | Fault::NotSupported => Status::NotSupported,
    }
}

/// That of a refusal of a change.
pub fn refusal_status(refusal: &Refusal) -> Status
    ensures { result ≡ refusal_status refusal.now }
{
    match refusal {
        Refusal::Reading(cause) => error_status(cause),
        Refusal::Editing(cause) => edit_status(cause),
        Refusal::UnknownFormat => Status::InvalidFormat,
        Refusal::FieldNotFound => Status::FieldNotFound,
        Refusal::Tiff(fault) => tiff_status(*fault),
        Refusal::Heif(_) => Status::Unstable,
        Refusal::NotOfItsType(_) => Status::NotOfItsType,
        Refusal::OutOfRange(_) => Status::OutOfRange,
        Refusal::SecondExif => Status::SecondExif,
        Refusal::TooLong(_) => Status::TooBig,
        Refusal::NoDate => Status::NoDate,
        Refusal::NoThumbnail => Status::NoThumbnail,
        Refusal::OutOfMemory => Status::OutOfMemory,
    }
}

// The text of a number.
fn text_of(number: u32) -> &'static str
    ensures { result.now ≡ status_text number }
{
    match Status::named(number) {
        Some(status) => status.text(),
        None => "Unknown status",
    }
}

/// Puts the text of a status into a buffer, without an ending zero, and answers its whole length.
#[unsafe(no_mangle)]
pub extern "C" fn mexaldor_error(status: u32, out: &mut [u8]) -> usize
    ensures front { out.new ≡ filled (status_text status) out.old }
    ensures whole { result ≡ length (status_text status) }
{
    given(out, text_of(status).as_bytes(), Status::Well).length
}
