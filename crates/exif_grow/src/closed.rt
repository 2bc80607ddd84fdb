//! Whether a box can follow the boxes of a file.

ghost use Rattle.std.specs.Prelude.{◌≡◌};
ghost use Rattle.exif_grow.specs.ItemFields.{are_closed};

use exif_isobmff::{BoxSplitter, sizes_itself};

/// Whether all boxes of a file say their sizes and are whole: none runs to the end of the file, or
/// past it. A box can follow them then.
pub fn are_closed(file: &[u8]) -> bool
    ensures { result ≡ are_closed file.now }
{
    let mut rest = BoxSplitter::new(file);
    while !rest.is_empty() {
        if !sizes_itself(rest.rest()) {
            return false;
        }
        let Ok((_kind, _body)) = rest.child_box() else {
            return false;
        };
    }
    true
}
