//! IPTC data: the datasets of the IPTC-NAA Information Interchange Model (IIM) 4.2, with their
//! names and texts.
//!
//! The data are datasets, one after another: the byte `1c`, the number of a record, a number in it,
//! the length of a value, and the value (IIM, section 1.5).
#![tactic(auto)]

pub mod charset;
pub mod dataset;
pub mod fault;
mod form;
pub mod header;
pub mod kind;
pub mod laws;
pub mod names;
mod number;
pub mod reading;
mod repeats;
pub mod text;
pub mod value;

pub use charset::{Charset, charset_of};
pub use dataset::{Dataset, Scanned, datasets, scan, value_bytes};
pub use fault::{Fault, ReadError, Refusal};
pub use kind::Kind;
pub use names::{DatasetId, dataset_of_name, kind_of, name_of};
pub use reading::{Reading, read, read_lenient};
pub use repeats::is_repeatable;
pub use text::text_of;
pub use value::{Content, Value, label_of, value_of, values_of};
