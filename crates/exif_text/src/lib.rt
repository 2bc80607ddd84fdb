//! What values hold, borrowed, the types that they have in TIFF data, and their plain texts; dates
//! read and written, and the numbers of directories. Nothing here takes memory.
#![tactic(auto)]

pub mod clock;
pub mod contents;
pub mod date;
mod date_fault;
pub mod decimal;
pub mod digits;
pub mod field_type;
pub mod ifd;
pub mod laws;
pub mod offset;
pub mod pad;
pub mod plain;
pub mod quoted;
pub mod rational;
pub mod subsec;
pub mod unsigned;

pub use contents::Contents;
pub use date_fault::DateFault;
pub use decimal::Decimal;
pub use field_type::FieldType;
pub use ifd::In;
pub use plain::PlainText;
pub use quoted::Quoted;
pub use rational::{Rational, SRational};
pub use unsigned::Numbers;
