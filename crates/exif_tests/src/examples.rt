//! Common tasks, each in a few lines over the library: proved, tested, and quoted by the guides.

pub mod changing;
pub mod dates;
pub mod locations;
pub mod reading;
pub mod values;
pub mod writing;
