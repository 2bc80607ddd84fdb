//! Locations erased in data that may be unreadable.

ghost use Rattle.std.specs.Prelude.{◌≡◌};
ghost use Rattle.exif_locations.specs.Unread.{blank_packet, iptc_answer, xmp_answer, zeros};

use crate::{iptc, xmp};

/// What becomes of XMP packets and IPTC data that can't be read.
#[derive(Clone, Copy, Debug)]
pub enum Unread {
    /// They stay, and are answered.
    Keep,
    /// They are overwritten: an XMP packet by one without properties and spaces, IPTC data by
    /// zeros.
    Blank,
}

// An XMP packet without properties.
const NO_PROPERTIES: &[u8] = b"<x:xmpmeta xmlns:x='adobe:ns:meta/'/>";

// Makes an XMP packet without properties of these bytes, and spaces: only these, if it is longer.
fn blank_packet(bytes: &mut [u8])
    ensures { bytes.new ≡ blank_packet bytes.old }
{
    bytes.fill(b' ');
    if NO_PROPERTIES.len() <= bytes.len() {
        bytes[..NO_PROPERTIES.len()].copy_from_slice(NO_PROPERTIES);
    }
}

// Makes zeros of these bytes.
fn clear(bytes: &mut [u8])
    ensures { bytes.new ≡ zeros bytes.old }
{
    bytes.fill(0);
}

/// Erases the locations of an XMP packet, as [`xmp::erase_locations`] does, and answers why it
/// can't be read, if it can't be and is kept.
pub fn erase_xmp(unread: Unread, packet: &mut [u8]) -> Option<xmp::Fault>
    ensures { (packet.new, result) ≡ xmp_answer unread packet.old }
{
    match xmp::erase_locations(packet) {
        Ok(_) => None,
        Err(fault) => match unread {
            Unread::Keep => Some(fault),
            Unread::Blank => {
                blank_packet(packet);
                None
            }
        },
    }
}

/// Erases the locations of IPTC data, as [`iptc::erase_locations`] does, and answers why they
/// can't be read, if they can't be and are kept.
pub fn erase_iptc(unread: Unread, bytes: &mut [u8]) -> Option<iptc::Fault>
    ensures { (bytes.new, result) ≡ iptc_answer unread bytes.old }
{
    match iptc::erase_locations(bytes) {
        Ok(_) => None,
        Err(fault) => match unread {
            Unread::Keep => Some(fault),
            Unread::Blank => {
                clear(bytes);
                None
            }
        },
    }
}
