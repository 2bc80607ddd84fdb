//! Bytes of a picture that may be a JPEG stream.

ghost use Rattle.std.specs.Prelude.{◌≡◌, length};
ghost use Rattle.exif_scrub.specs.Keeping.{bared_if, is_stretch};

use exif_blanks::steps::{Place, bare, is_bared};

/// Puts bytes in place of others, without the metadata of the JPEG stream that they may be.
pub fn put(is_stream: bool, bytes: &[u8], new: &mut [u8])
    requires { length new.old ≡ length bytes.now }
    ensures { new.new ≡ bared_if is_stream bytes.now }
{
    new.copy_from_slice(bytes);
    if is_stream {
        bare(Place::Start, new);
    }
}

/// Whether bytes are what stays of others, which are a JPEG stream, or not.
pub fn is_stretch(is_stream: bool, old: &[u8], new: &[u8]) -> bool
    requires { length new.now ≡ length old.now }
    ensures { result ≡ is_stretch is_stream old.now new.now }
{
    if is_stream {
        is_bared(Place::Start, old, new)
    } else {
        old == new
    }
}
