//! The library for C and for languages that call C: files in the caller's memory are read and
//! changed, answers go into the caller's buffers, and nothing is kept between calls. A slice
//! crosses as a pointer and a length, which may be null and 0; `alloc` is no parameter for C.
//! Memory is taken by `malloc` and freed before a call returns.
#![tactic(auto)]

mod buffer;
mod change;
mod locations;
mod read;
mod status;

pub use buffer::Answer;
pub use change::{mexaldor_erase_gps, mexaldor_scrub, mexaldor_set};
pub use locations::{mexaldor_check, mexaldor_erase_locations};
pub use read::mexaldor_read;
pub use status::mexaldor_error;
