//! Laws of writing. They hold for all groups, and speak of the definitions alone.

pub mod pushing;
pub mod scrubbing;
pub mod writing;

ghost use Rattle.std.specs.Prelude.{List};
ghost use Rattle.exif_base.specs.declared.endian.Order.{Order};
ghost use Rattle.exif_layout.specs.Groups.{Group};
ghost use Rattle.exif_layout.specs.Views.{WritesAgree};

pub use pushing::{calls_make_groups, images_hold_what_was_pushed, pushing_keeps};
pub use scrubbing::scrubbing_twice_is_once;
pub use writing::{images_are_canonical, images_are_laid_out, images_read_back};

/// Two writes of the same groups in one byte order that both come through send equal bytes,
/// whatever was sent before.
pub fn writes_send_equal_bytes()
    ensures { (order : Order) (groups : List Group) → WritesAgree order groups }
{}
