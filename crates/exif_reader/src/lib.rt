//! Pictures read into fields and faults, from files of each container of the reader, and the report
//! of a file: a line for each field, and for each fault.
#![tactic(auto)]

mod by_need;
pub mod laws;
mod reader;
pub mod report;

pub use reader::{Reader, Sniffed, errors_of};
