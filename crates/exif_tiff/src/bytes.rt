//! What a proof may know of bytes.

ghost use Rattle.exif_tiff.specs.Visits.{AreBytes};

/// Shows that each of the bytes is below 256. It does nothing.
pub fn show_bytes(bytes: &[u8])
    ensures { AreBytes bytes.now }
{
    let _count = bytes.len();
}
