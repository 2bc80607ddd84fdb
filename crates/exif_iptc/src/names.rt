//! The names of datasets, and what their values are.
//!
//! The datasets are those of the records 1, 2, 7, 8 and 9 that IIM 4.2 defines, and those of record
//! 3 (Digital Newsphoto Parameter Record). Each has the name under which exiftool shows it.

ghost use Rattle.std.specs.Prelude.{◌≡◌, map};
ghost use Rattle.std.specs.List.{find};
ghost use Rattle.std.specs.Option.{option_map};
ghost use Rattle.exif_iptc.specs.Named.{dataset_of_name, has_name, named_in, or_else};
ghost use Rattle.exif_iptc.specs.Rows.{application_rows, envelope_rows, kind_of, name_of, news_photo_rows, row_of, rows_of};
ghost use Rattle.exif_iptc.specs.RowViews.{row_view};

use crate::kind::Kind;

/// A dataset that the standard defines.
#[derive(Clone, Copy, Debug)]
struct Row {
    number: u8,
    name: &'static str,
    kind: Kind,
}

// A row: the number of a dataset in its record, its name, and what its value is.
macro_rules! row {
    ($number:literal $name:literal $kind:ident) => {
        Row {
            number: $number,
            name: $name,
            kind: Kind::$kind,
        }
    };
}

// Record 1, the envelope (IIM, chapter 5).
static ENVELOPE: [Row; 14] = [
    row!(0 "EnvelopeRecordVersion" Number),
    row!(5 "Destination" Text),
    row!(20 "FileFormat" Number),
    row!(22 "FileVersion" Number),
    row!(30 "ServiceIdentifier" Text),
    row!(40 "EnvelopeNumber" Text),
    row!(50 "ProductID" Text),
    row!(60 "EnvelopePriority" Text),
    row!(70 "DateSent" Date),
    row!(80 "TimeSent" Time),
    row!(90 "CodedCharacterSet" Text),
    row!(100 "UniqueObjectName" Text),
    row!(120 "ARMIdentifier" Number),
    row!(122 "ARMVersion" Number),
];

// Record 2, the application record (IIM, chapter 6).
static APPLICATION: [Row; 57] = [
    row!(0 "ApplicationRecordVersion" Number),
    row!(3 "ObjectTypeReference" Text),
    row!(4 "ObjectAttributeReference" Text),
    row!(5 "ObjectName" Text),
    row!(7 "EditStatus" Text),
    row!(8 "EditorialUpdate" Text),
    row!(10 "Urgency" Text),
    row!(12 "SubjectReference" Text),
    row!(15 "Category" Text),
    row!(20 "SupplementalCategories" Text),
    row!(22 "FixtureIdentifier" Text),
    row!(25 "Keywords" Text),
    row!(26 "ContentLocationCode" Text),
    row!(27 "ContentLocationName" Text),
    row!(30 "ReleaseDate" Date),
    row!(35 "ReleaseTime" Time),
    row!(37 "ExpirationDate" Date),
    row!(38 "ExpirationTime" Time),
    row!(40 "SpecialInstructions" Text),
    row!(42 "ActionAdvised" Text),
    row!(45 "ReferenceService" Text),
    row!(47 "ReferenceDate" Date),
    row!(50 "ReferenceNumber" Text),
    row!(55 "DateCreated" Date),
    row!(60 "TimeCreated" Time),
    row!(62 "DigitalCreationDate" Date),
    row!(63 "DigitalCreationTime" Time),
    row!(65 "OriginatingProgram" Text),
    row!(70 "ProgramVersion" Text),
    row!(75 "ObjectCycle" Text),
    row!(80 "By-line" Text),
    row!(85 "By-lineTitle" Text),
    row!(90 "City" Text),
    row!(92 "Sub-location" Text),
    row!(95 "Province-State" Text),
    row!(100 "Country-PrimaryLocationCode" Text),
    row!(101 "Country-PrimaryLocationName" Text),
    row!(103 "OriginalTransmissionReference" Text),
    row!(105 "Headline" Text),
    row!(110 "Credit" Text),
    row!(115 "Source" Text),
    row!(116 "CopyrightNotice" Text),
    row!(118 "Contact" Text),
    row!(120 "Caption-Abstract" Text),
    row!(122 "Writer-Editor" Text),
    row!(125 "RasterizedCaption" Bytes),
    row!(130 "ImageType" Text),
    row!(131 "ImageOrientation" Text),
    row!(135 "LanguageIdentifier" Text),
    row!(150 "AudioType" Text),
    row!(151 "AudioSamplingRate" Text),
    row!(152 "AudioSamplingResolution" Text),
    row!(153 "AudioDuration" Text),
    row!(154 "AudioOutcue" Text),
    row!(200 "ObjectPreviewFileFormat" Number),
    row!(201 "ObjectPreviewFileVersion" Number),
    row!(202 "ObjectPreviewData" Bytes),
];

// Record 3, the digital newsphoto parameter record (IPTC-NAA, Digital Newsphoto Parameter Record).
static NEWS_PHOTO: [Row; 26] = [
    row!(0 "NewsPhotoVersion" Number),
    row!(10 "IPTCPictureNumber" Bytes),
    row!(20 "IPTCImageWidth" Number),
    row!(30 "IPTCImageHeight" Number),
    row!(40 "IPTCPixelWidth" Number),
    row!(50 "IPTCPixelHeight" Number),
    row!(55 "SupplementalType" Number),
    row!(60 "ColorRepresentation" Number),
    row!(64 "InterchangeColorSpace" Number),
    row!(65 "ColorSequence" Number),
    row!(66 "ICC_Profile" Bytes),
    row!(70 "ColorCalibrationMatrix" Bytes),
    row!(80 "LookupTable" Bytes),
    row!(84 "NumIndexEntries" Number),
    row!(85 "ColorPalette" Bytes),
    row!(86 "IPTCBitsPerSample" Number),
    row!(90 "SampleStructure" Number),
    row!(100 "ScanningDirection" Number),
    row!(102 "IPTCImageRotation" Number),
    row!(110 "DataCompressionMethod" Number),
    row!(120 "QuantizationMethod" Number),
    row!(125 "EndPoints" Bytes),
    row!(130 "ExcursionTolerance" Number),
    row!(135 "BitsPerComponent" Number),
    row!(140 "MaximumDensityRange" Number),
    row!(145 "GammaCompensatedValue" Number),
];

// Record 7, before the object data (IIM, chapter 7).
static PRE_OBJECT_DATA: [Row; 4] = [
    row!(10 "SizeMode" Number),
    row!(20 "MaxSubfileSize" Number),
    row!(90 "ObjectSizeAnnounced" Number),
    row!(95 "MaximumObjectSize" Number),
];

// Record 8, the object data (IIM, chapter 8).
static OBJECT_DATA: [Row; 1] = [row!(10 "SubFile" Bytes)];

// Record 9, behind the object data (IIM, chapter 9).
static POST_OBJECT_DATA: [Row; 1] = [row!(10 "ConfirmedObjectSize" Number)];

fn envelope() -> &'static [Row]
    ensures { map row_view result.now ≡ envelope_rows }
{
    &ENVELOPE
}

fn application() -> &'static [Row]
    ensures { map row_view result.now ≡ application_rows }
{
    &APPLICATION
}

fn news_photo() -> &'static [Row]
    ensures { map row_view result.now ≡ news_photo_rows }
{
    &NEWS_PHOTO
}

// The datasets of a record.
#[tactic(auto, unfolding(crate::specs::Rows::rows_of))]
fn rows(record_number: u8) -> &'static [Row]
    ensures { map row_view result.now ≡ rows_of record_number }
{
    match record_number {
        1 => envelope(),
        2 => application(),
        3 => news_photo(),
        7 => &PRE_OBJECT_DATA,
        8 => &OBJECT_DATA,
        9 => &POST_OBJECT_DATA,
        _ => &[],
    }
}

// The dataset with these numbers, if the standard defines one.
fn find_row(record_number: u8, number: u8) -> Option<Row>
    ensures { option_map row_view result ≡ row_of record_number number }
{
    let rows = rows(record_number);
    for i in 0..rows.len() {
        if rows[i].number == number {
            return Some(rows[i]);
        }
    }
    None
}

/// The name of a dataset by the number of its record and its own, or `None` if the standard defines
/// none. The names are those under which exiftool shows the datasets: 2:25 is `Keywords`.
pub fn name_of(record_number: u8, number: u8) -> Option<&'static str>
    ensures { option_map (λ s. s.now) result ≡ name_of record_number number }
{
    match find_row(record_number, number) {
        Some(row) => Some(row.name),
        None => None,
    }
}

/// What the value of a dataset is, by the number of its record and its own. The values of datasets
/// that the standard does not define are bytes.
pub fn kind_of(record_number: u8, number: u8) -> Kind
    ensures { result ≡ kind_of record_number number }
{
    match find_row(record_number, number) {
        Some(row) => row.kind,
        None => Kind::Bytes,
    }
}

/// A dataset, by the number of its record and its own.
#[derive(Clone, Copy, Debug, PartialEq, Eq)]
pub struct DatasetId {
    /// The number of the record.
    pub record_number: u8,
    /// The number of the dataset in its record.
    pub number: u8,
}

// The first row of a name.
fn row_named(rows: &'static [Row], name: &str) -> Option<&'static Row>
    ensures { option_map (λ row. row_view row.now) result
        ≡ find (has_name name.now) (map row_view rows.now) }
{
    for row in rows {
        if row.name.eq_ignore_ascii_case(name) {
            return Some(row);
        }
    }
    None
}

// The dataset of a name in a record.
fn named_in(record_number: u8, name: &str) -> Option<DatasetId>
    ensures { result ≡ named_in record_number name.now }
{
    let row = row_named(rows(record_number), name)?;
    Some(DatasetId {
        record_number,
        number: row.number,
    })
}

// The first dataset, or else the second.
fn or_else(first: Option<DatasetId>, second: Option<DatasetId>) -> Option<DatasetId>
    ensures { result ≡ or_else first second }
{
    match first {
        Some(id) => Some(id),
        None => second,
    }
}

/// The dataset of a name, in letters of any case; `None` where the standard gives none this name.
/// The names are those of [`name_of`]. A name of several records is that of the first.
#[tactic(auto, unfolding(crate::specs::Named::dataset_of_name))]
pub fn dataset_of_name(name: &str) -> Option<DatasetId>
    ensures { result ≡ dataset_of_name name.now }
{
    let last = or_else(named_in(8, name), named_in(9, name));
    let later = or_else(named_in(3, name), or_else(named_in(7, name), last));
    or_else(named_in(1, name), or_else(named_in(2, name), later))
}
