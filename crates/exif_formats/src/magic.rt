//! TIFF data with another number in place of 42, as raw files of Olympus and Panasonic have it.

ghost use Rattle.std.specs.Prelude.{◌≡◌, ◌≤◌, length};
ghost use Rattle.exif_formats.specs.Magic.{as_tiff};

/// Puts the signature of TIFF data over the first four bytes, in the order of bytes that they name.
pub fn make_tiff(bytes: &mut [u8])
    requires { 4 ≤ length bytes.old }
    ensures { bytes.new ≡ as_tiff bytes.old }
{
    let signature: &[u8; 4] = if bytes[..1] == b"M"[..] {
        b"MM\0*"
    } else {
        b"II*\0"
    };
    bytes[..4].copy_from_slice(signature);
}
