//! What a change makes of a picture, and metadata taken out of pictures of every format, in memory.
//!
//! Each call answers the whole new file and what was left undone in it ([`Changed`]), or a refusal
//! by its cause ([`Refusal`]). [`scrub`] takes metadata out. How files are read, and written again,
//! serves those that set values, too. Raw files are not changed.
#![tactic(auto)]

mod changed;
pub mod codestream;
mod found;
pub mod jxl;
pub mod laws;
mod notes;
mod pictures;
pub mod png;
mod profile;
mod reading;
mod refusal;
mod rewriting;
mod rotation;
mod scrubbing;
mod together;

pub use changed::{Changed, Residual};
pub use exif_privacy::Unread;
pub use notes::{Color, Note};
pub use pictures::{cut_off, no_codestream, scrub, scrub_notes, scrub_with_color};
pub use reading::{ENTRY_LIMIT, read};
pub use refusal::Refusal;
pub use rewriting::rewritten;
pub use scrubbing::Removed;
pub use together::{Together, together_len};
