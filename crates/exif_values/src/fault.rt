//! What is not read of the metadata of a picture.

use exif_iptc::Refusal as IptcRefusal;
use exif_packets::TextFault;
use exif_xmp::Refusal as XmpRefusal;

/// Why a packet, or bytes of one, are not read.
#[derive(Clone, Copy, Debug, PartialEq, Eq)]
pub enum Cause {
    /// An XMP packet is refused: none of its properties is read.
    Xmp(XmpRefusal),
    /// The rest of a long XMP packet is not whole: the bytes from this offset of it on are missing.
    Portions(usize),
    /// The properties of a packet would be more than
    /// [`MAX_PROPERTIES`](crate::values::MAX_PROPERTIES) with those before them: none of them is
    /// listed.
    TooMany,
    /// A packet in a text of a PNG file is not read.
    Text(TextFault),
    /// IPTC data are refused from a dataset on: those before it are read.
    Iptc(IptcRefusal),
}

/// What is not read, and where the file has it.
#[derive(Clone, Copy, Debug, PartialEq, Eq)]
pub struct Fault {
    /// Why.
    pub cause: Cause,
    /// The offset of the packet in the file, where the packet is not the value of a field.
    pub offset: Option<usize>,
}
