//! What those use that insert other bytes among the pieces of a file, as `exif_blocks` does: what a
//! piece begins with, how long it is with all that belongs to it, and where new bytes go.

pub use crate::jpeg::{full_len, inserted, pending};
pub use crate::jxl::{contained, front_len, is_named};
pub use crate::marker::{is_broken, is_insertion_point, marker_of};
pub use crate::png::{chunks_in, first_chunk};
pub use crate::webp::body_space;
pub use crate::webp::chunk::add_chunk;
