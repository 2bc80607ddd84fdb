//! A table of pictures: a row for each, with its path and the fields of some tags, separated by
//! commas (RFC 4180) or by tabs.
//!
//! [`tags_of`] reads the tags of a list of names, [`header`] writes the first line, and [`row`] the
//! line of a picture. [`columns_of`] reads columns that also show XMP properties and IPTC datasets, of
//! which [`xmp_cell`] and [`iptc_cell`] give the cells; no row has them yet.
#![tactic(auto)]

mod cells;
mod column;
mod csv_lines;
pub mod laws;
mod names;
mod prefixes;
mod raw;
mod rows;
mod texts;
mod tsv_lines;
mod value_cells;

pub use cells::{Form, cell_text};
pub use column::{Column, UnknownColumn, columns_of, shows_values};
pub use names::{tag_of_name, tags_of};
pub use prefixes::known_prefixes;
pub use rows::{Separator, header, row};
pub use value_cells::{iptc_cell, xmp_cell};
