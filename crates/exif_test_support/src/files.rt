//! Small TIFF files. Each is written out by hand from TIFF 6.0, section 2, and Exif 2.32, 4.6.

/// No directory at all, big endian.
pub const NOTHING: &[u8] = b"MM\0*\0\0\0\0";

/// One image description, big endian.
pub const DESCRIBED_BIG: &[u8] =
    b"MM\0*\0\0\0\x08\0\x01\x01\x0e\0\x02\0\0\0\x07\0\0\0\x1a\0\0\0\0Sample\0";

/// One image description, little endian.
pub const DESCRIBED_LITTLE: &[u8] =
    b"II*\0\x08\0\0\0\x01\0\x0e\x01\x02\0\x07\0\0\0\x1a\0\0\0\0\0\0\0Sample\0";

/// A directory that is the next of itself.
pub const CIRCLE: &[u8] = b"MM\0*\0\0\0\x08\0\x01\x01\0\0\x03\0\0\0\x01\0\x14\0\0\0\0\0\x08";

/// An Exif directory that names a next one, an entry of signed numbers, and a next offset past the
/// end.
pub const WRONG_NEXT: &[u8] =
    b"MM\0*\0\0\0\x08\0\x02\x87i\0\x04\0\0\0\x01\0\0\0&\xfd\xe8\0\x09\0\0\0\x01\xfe\xdc\xba\x98\xff\xff\xff\xff\0\x01\x90\0\0\x07\0\0\0\x04\0\x02\x03\x02\0\0\0\x01";

/// A number, and a text that is longer than the number's line.
pub const LONGER_LINE: &[u8] =
    b"MM\0*\0\0\0\x08\0\x02\xfd\xe8\0\x03\0\0\0\x01\0\x01\0\0\x01\x0e\0\x02\0\0\0C\0\0\0&\0\0\0\0A text that is longer than the line before it has room for, by far\0";

/// Two widths, and two pointers to one Exif directory.
pub const SHARED_CHILD: &[u8] =
    b"MM\0*\0\0\0\x08\0\x04\x01\0\0\x03\0\0\0\x01\0\x14\0\0\x01\0\0\x03\0\0\0\x01\0\x15\0\0\x87i\0\x04\0\0\0\x01\0\0\0>\x87i\0\x04\0\0\0\x01\0\0\0>\0\0\0\0\0\x01\x90\0\0\x07\0\0\0\x040231\0\0\0\0";

/// Two entries, of which the last lacks two bytes.
pub const CUT_DIRECTORY: &[u8] =
    b"MM\0*\0\0\0\x08\0\x02\x01\0\0\x03\0\0\0\x01\0\x14\0\0\x01\x01\0\x03\0\0\0\x01\0\x15\0";

/// A value of each of the twelve types, of a thirteenth and of no text, big endian.
pub const EVERY_TYPE_BIG: &[u8] =
    b"MM\0*\0\0\0\x08\0\x0e\xfd\xe8\0\x01\0\0\0\x03\x01\x02\xff\0\xfd\xe9\0\x02\0\0\0\x04a\0\0b\xfd\xea\0\x03\0\0\0\x03\0\0\0\xb6\xfd\xeb\0\x04\0\0\0\x02\0\0\0\xbc\xfd\xec\0\x05\0\0\0\x01\0\0\0\xc4\xfd\xed\0\x06\0\0\0\x02\xfe\x7f\0\0\xfd\xee\0\x07\0\0\0\x02\x0a\xff\0\0\xfd\xef\0\x08\0\0\0\x02\xff\xfe\x7f\xff\xfd\xf0\0\x09\0\0\0\x01\xff\xff\xff\xfd\xfd\xf1\0\x0a\0\0\0\x01\0\0\0\xcc\xfd\xf2\0\x0b\0\0\0\x01@ \0\0\xfd\xf3\0\x0c\0\0\0\x01\0\0\0\xd4\xfd\xf4\0\x0d\0\0\0\x02\0\0\0\x09\xfd\xf5\0\x02\0\0\0\0\0\0\0\0\0\0\0\0\0\x01\0\x02\xff\xff\0\0\0\x01\xff\xff\xff\xff\0\0\0\x01\0\0\0\x02\xff\xff\xff\xff\xff\xff\xff\xfe@\x04\0\0\0\0\0\0";

/// A value of each of the twelve types, of a thirteenth and of no text, little endian.
pub const EVERY_TYPE_LITTLE: &[u8] =
    b"II*\0\x08\0\0\0\x0e\0\xe8\xfd\x01\0\x03\0\0\0\x01\x02\xff\0\xe9\xfd\x02\0\x04\0\0\0a\0\0b\xea\xfd\x03\0\x03\0\0\0\xb6\0\0\0\xeb\xfd\x04\0\x02\0\0\0\xbc\0\0\0\xec\xfd\x05\0\x01\0\0\0\xc4\0\0\0\xed\xfd\x06\0\x02\0\0\0\xfe\x7f\0\0\xee\xfd\x07\0\x02\0\0\0\x0a\xff\0\0\xef\xfd\x08\0\x02\0\0\0\xfe\xff\xff\x7f\xf0\xfd\x09\0\x01\0\0\0\xfd\xff\xff\xff\xf1\xfd\x0a\0\x01\0\0\0\xcc\0\0\0\xf2\xfd\x0b\0\x01\0\0\0\0\0 @\xf3\xfd\x0c\0\x01\0\0\0\xd4\0\0\0\xf4\xfd\x0d\0\x02\0\0\0\x09\0\0\0\xf5\xfd\x02\0\0\0\0\0\0\0\0\0\0\0\0\0\x01\0\x02\0\xff\xff\x01\0\0\0\xff\xff\xff\xff\x01\0\0\0\x02\0\0\0\xff\xff\xff\xff\xfe\xff\xff\xff\0\0\0\0\0\0\x04@";

/// A description, a version, a GPS version and an index, each in a directory of its own context,
/// and a thumbnail of four bytes.
pub const EVERY_DIRECTORY: &[u8] =
    b"MM\0*\0\0\0\x08\0\x03\x01\x0e\0\x02\0\0\0\x07\0\0\0t\x87i\0\x04\0\0\0\x01\0\0\02\x88%\0\x04\0\0\0\x01\0\0\0P\0\0\0|\0\x02\x90\0\0\x07\0\0\0\x040231\xa0\x05\0\x04\0\0\0\x01\0\0\0b\0\0\0\0\0\x01\0\0\0\x01\0\0\0\x04\x02\x03\0\0\0\0\0\0\0\x01\0\x01\0\x02\0\0\0\x04ABC\0\0\0\0\0Sample\0\0\0\x02\x02\x01\0\x04\0\0\0\x01\0\0\0\x9a\x02\x02\0\x04\0\0\0\x01\0\0\0\x04\0\0\0\0JPEG";

/// A GPS version in the first directory, and a description in the second.
pub const OFFSET_BEFORE_DESCRIPTION: &[u8] =
    b"MM\0*\0\0\0\x08\0\x01\x88\x25\0\x04\0\0\0\x01\0\0\0\x1a\0\0\0\x2c\0\x01\0\0\0\x01\0\0\0\x04\x02\x03\0\0\0\0\0\0\0\x01\x01\x0e\0\x02\0\0\0\x02p\0\0\0\0\0\0\0";

/// The image description in the first segment of a JPEG stream.
pub const JPEG: &[u8] =
    b"\xff\xd8\xff\xe1\0)Exif\0\0MM\0*\0\0\0\x08\0\x01\x01\x0e\0\x02\0\0\0\x07\0\0\0\x1a\0\0\0\0Sample\0";

/// The image description in a WebP file.
pub const WEBP: &[u8] =
    b"RIFF.\0\0\0WEBPEXIF!\0\0\0MM\0*\0\0\0\x08\0\x01\x01\x0e\0\x02\0\0\0\x07\0\0\0\x1a\0\0\0\0Sample\0\0";

/// The image description in a HEIF file.
pub const HEIF: &[u8] =
    b"\0\0\0\x14ftypmif1\0\0\0\0mif1\0\0\0Lmeta\0\0\0\0\0\0\0\x1eiloc\0\0\0\0D\0\0\x01\x1e\x1d\0\0\0\x01\0\0\0`\0\0\0%\0\0\0\"iinf\0\0\0\0\0\x01\0\0\0\x14infe\x02\0\0\0\x1e\x1d\0\0Exif\0\0\0\0MM\0*\0\0\0\x08\0\x01\x01\x0e\0\x02\0\0\0\x07\0\0\0\x1a\0\0\0\0Sample\0";
