//! What is put into files: XMP packets and colour profiles.

ghost use Rattle.exif_types.specs.Refusals.{Answers};
ghost use Rattle.exif_blocks.specs.PutViews.{packet_alone, packet_view};

use exif_types::Error;

/// What is put into a file in place of its own.
#[derive(Clone, Copy, Debug)]
pub enum Block {
    /// An XMP packet.
    Xmp,
    /// A colour profile.
    Profile,
}

/// A format of files into which an XMP packet is put.
#[derive(Clone, Copy, Debug)]
pub enum Container {
    /// A JPEG stream.
    Jpeg,
    /// A PNG file.
    Png,
    /// A WebP file in the extended format.
    WebP,
    /// A JPEG XL file in its container. It holds no profile but in its codestream.
    JpegXl,
}

/// The XMP packet of a picture.
#[derive(Debug, Drop)]
pub struct Xmp {
    /// The packet.
    pub packet: Vec<u8>,
    /// The segments of a JPEG file that go on with it, as they are.
    pub extension: Vec<u8>,
}

/// The colour profile of a picture.
#[derive(Debug, Drop)]
pub enum Profile {
    /// Its bytes.
    Plain(Vec<u8>),
    /// What a PNG file holds: a name, and the bytes compressed.
    Compressed(Vec<u8>),
}

/// A packet that is in one segment, chunk or box.
pub fn packet_alone(xmp: &Xmp) -> Result<&[u8], Error>
    ensures { Answers (λ packet. packet.now) result (packet_alone (packet_view xmp.now)) }
{
    if !xmp.extension.is_empty() {
        return Err(Error::NotSupported("XMP in several segments is copied into JPEG files only"));
    }
    Ok(xmp.packet.as_slice())
}
