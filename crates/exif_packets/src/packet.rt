//! Packets, and where a file holds them.

ghost use Rattle.std.specs.Prelude.{◌≡◌, IfOk};
ghost use Rattle.std.specs.Option.{option_map};
ghost use Rattle.exif_packets.specs.Packets.{content_of, form_of, packet_of, packets, packets_in, parts_of, slice};

use exif_inventory::{Kind, Part, inventory};
use exif_inventory_heif as heif;
use std::alloc::{AllocError, Global};

/// What a packet is.
#[derive(Clone, Copy, Debug, PartialEq, Eq)]
pub enum Form {
    /// An XMP packet (ISO 16684-1, 7.3), or the part of a long one that is read first.
    Xmp,
    /// A portion of the rest of a long XMP packet (XMP part 3, 1.1.3.1).
    XmpPortion,
    /// IPTC data: datasets (IIM 4.2, part II).
    Iptc,
}

/// A packet in a file: so many bytes from an offset on.
#[derive(Clone, Copy, Debug, PartialEq, Eq)]
pub struct Packet {
    /// What it is.
    pub form: Form,
    /// The offset of its first byte.
    pub offset: usize,
    /// How many bytes it has.
    pub len: usize,
}

// The form of what a part of this kind holds.
fn form_of(kind: Kind) -> Option<Form>
    ensures { result ≡ form_of kind }
{
    match kind {
        Kind::Xmp | Kind::PhotoshopXmp => Some(Form::Xmp),
        Kind::ExtendedXmp => Some(Form::XmpPortion),
        Kind::Iptc => Some(Form::Iptc),
        _ => None,
    }
}

// The packet that a part of the first picture holds.
fn packet_of(part: Part) -> Option<Packet>
    ensures { result ≡ packet_of part }
{
    if part.picture != 0 {
        return None;
    }
    match form_of(part.kind) {
        Some(form) => Some(Packet {
            form,
            offset: part.data_offset,
            len: part.data_len,
        }),
        None => None,
    }
}

// The packets of parts.
fn packets_in(alloc: Global, parts: &[Part]) -> Result<Vec<Packet>, AllocError>
    ensures { IfOk result (λ packets. packets.items ≡ packets_in parts.now) }
{
    let mut packets = Vec::new(alloc);
    for part in parts {
        if let Some(packet) = packet_of(*part) {
            packets.push(packet)?;
        }
    }
    Ok(packets)
}

// The parts of a file.
fn parts_of(alloc: Global, file: &[u8]) -> Result<Option<Vec<Part>>, AllocError>
    ensures { IfOk result (λ parts. option_map (λ v. v.items) parts ≡ parts_of file.now) }
{
    match inventory(alloc, file)? {
        Some(parts) => Ok(Some(parts)),
        None => heif::inventory(alloc, file),
    }
}

/// The XMP packets and the IPTC data of the first picture of a JPEG, WebP, PNG, JPEG XL, HEIF or
/// AVIF file, in the order of its bytes. `None` for a file of another format.
///
/// Packets within Exif data, as all those of TIFF files, are values of fields and not listed here.
/// Nor are compressed ones, nor those of further pictures in the file, such as gain maps. It takes
/// memory for the list, and for that of the file's parts.
pub fn packets(alloc: Global, file: &[u8]) -> Result<Option<Vec<Packet>>, AllocError>
    ensures { IfOk result (λ found. option_map (λ v. v.items) found ≡ packets file.now) }
{
    match parts_of(alloc, file)? {
        Some(parts) => Ok(Some(packets_in(alloc, parts.as_slice())?)),
        None => Ok(None),
    }
}

/// The bytes from an offset on, so many if there are.
pub(crate) fn slice(offset: usize, len: usize, bytes: &[u8]) -> &[u8]
    ensures { result.now ≡ slice offset len bytes.now }
{
    let rest = &bytes[offset.min(bytes.len())..];
    &rest[..len.min(rest.len())]
}

/// The bytes of a packet, as far as the file has them.
pub fn content_of(packet: Packet, file: &[u8]) -> &[u8]
    ensures { result.now ≡ content_of packet file.now }
{
    slice(packet.offset, packet.len, file)
}
