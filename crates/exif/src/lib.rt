//! Exif metadata: pictures read into fields and faults, and fields and blocks written as one TIFF
//! image.
//!
//! ```
//! let file = File::open(rt, path)?;
//! let exif = Reader::new().read_from_container(rt.alloc(), &mut Seekable::new(file))?;
//! if let Some(field) = exif.get_field(Tag::Orientation, In::PRIMARY) {
//!     println!(rt; "{}", field.display_value())?;
//! }
//! ```
//!
//! What was read is written again, or new fields are:
//!
//! ```
//! let mut writer = Writer::new(alloc);
//! for field in exif.fields() {
//!     writer.push_field(field)?;
//! }
//! let mut image = Counted::new(Vec::new(alloc));
//! writer.write(&mut image, exif.little_endian())?;
//! Ok(image.into_inner())
//! ```
//!
//! Edits in place are in `exif_edit`, files written again in `exif_rewrite`, reports in
//! `exif_reader::report`, JSON in `exif_json`.
#![tactic(auto)]

pub mod experimental;
pub mod laws;

pub use exif_base::{Counted, Items, ReadFault, ReadSeek, Seekable, Sink, Source};
pub use exif_containers::container::Format;
pub use exif_datetime::DateTime;
pub use exif_reader::{Reader, Sniffed};
pub use exif_segments::get_exif_attr_from_jpeg;
pub use exif_tiff::parse_exif;
pub use exif_types::{
    Context, Decimal, Display, DisplayValue, DisplayValueUnit, Error, Exif, Field, FieldType,
    Fields, In, PartialResult, ProvideUnit, Rational, SRational, Tag, UIntIter, UIntValue, Value,
};
