//! Tags, fields and dates: constants, debug texts, and what a date keeps.

use exif_base::Items;
use std::process::Abort;

mod constants;
mod dates;
mod debug;

/// A list of these.
pub fn list<T: Copy>(rt: &(impl Abort + AllocGlobal), items: &[T]) -> Items<T> {
    Items::from_slice(rt.alloc(), items).expect(rt, "memory")
}
