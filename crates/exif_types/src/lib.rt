//! Values, tags, fields and errors: the types that users of `exif` meet.
#![tactic(auto)]

mod defaults;
pub mod display;
pub mod error;
pub mod exif;
pub mod field;
pub mod fields;
mod index;
pub mod laws;
pub mod tag;
pub mod unit;
pub mod unsigned;
pub mod value;

pub use display::{Display, DisplayValue};
pub use error::{Error, PartialResult, partial_from_parts};
pub use exif::{Exif, exif_from_parts};
pub use exif_table::Context;
pub use exif_text::{Decimal, FieldType, In, Rational, SRational};
pub use field::Field;
pub use fields::{Fields, fields_left};
pub use tag::Tag;
pub use unit::{DisplayValueUnit, ProvideUnit};
pub use unsigned::{UIntIter, UIntValue};
pub use value::Value;
