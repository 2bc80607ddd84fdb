//! Packets in the values of fields: those of TIFF and raw files, and of Exif data.

ghost use Rattle.std.specs.Prelude.{◌≡◌, map, IfOk};
ghost use Rattle.std.specs.List.{flat_map};
ghost use Rattle.std.specs.Option.{option_map};
ghost use Rattle.exif_packets.specs.Fields.{form_in, held_view, number_bytes, packet_in, packets_of_fields, value_bytes};

use crate::packet::Form;
use exif_base::{BigEndian, Endian, LittleEndian};
use exif_types::{Context, Exif, Field, Tag, Value};
use std::alloc::{AllocError, Global};

/// A packet in the value of a field.
#[derive(Debug, Drop)]
pub struct FieldPacket {
    /// What it is.
    pub form: Form,
    /// Its bytes.
    pub content: Vec<u8>,
}

// What the value of a tag is, if a packet.
fn form_in(tag: Tag) -> Option<Form>
    ensures { result ≡ form_in tag }
{
    match tag {
        Tag(Context::Tiff, 700) => Some(Form::Xmp),
        Tag(Context::Tiff, 33723) => Some(Form::Iptc),
        _ => None,
    }
}

// The bytes of a 32-bit number in the order of the data.
fn number_bytes(little_endian: bool, x: u32) -> [u8; 4]
    ensures { result ≡ number_bytes little_endian x }
{
    let mut bytes = [0; 4];
    if little_endian {
        LittleEndian::writeu32(&mut bytes, 0, x);
    } else {
        BigEndian::writeu32(&mut bytes, 0, x);
    }
    bytes
}

// The bytes of 32-bit numbers.
fn numbers_bytes(alloc: Global, little_endian: bool, xs: &[u32]) -> Result<Vec<u8>, AllocError>
    ensures { IfOk result (λ v. v.items ≡ flat_map (number_bytes little_endian) xs.now) }
{
    let mut bytes = Vec::new(alloc);
    for x in xs {
        bytes.extend_from_slice(&number_bytes(little_endian, *x))?;
    }
    Ok(bytes)
}

// The bytes of a value as the data have them, where its type is one that packets have.
fn value_bytes(
    alloc: Global,
    little_endian: bool,
    value: &Value,
) -> Result<Option<Vec<u8>>, AllocError>
    ensures { IfOk result (λ found.
        option_map (λ v. v.items) found ≡ value_bytes little_endian value.now) }
{
    match value {
        Value::Byte(items) | Value::Undefined(items, _) => {
            Ok(Some(Vec::from_slice(alloc, items.as_slice())?))
        }
        Value::Long(items) => Ok(Some(numbers_bytes(alloc, little_endian, items.as_slice())?)),
        _ => Ok(None),
    }
}

// The packet that a field holds.
fn packet_in(
    alloc: Global,
    little_endian: bool,
    field: &Field,
) -> Result<Option<FieldPacket>, AllocError>
    ensures { IfOk result (λ found.
        option_map held_view found ≡ packet_in little_endian field.now) }
{
    let Some(form) = form_in(field.tag) else {
        return Ok(None);
    };
    match value_bytes(alloc, little_endian, &field.value)? {
        Some(content) => Ok(Some(FieldPacket { form, content })),
        None => Ok(None),
    }
}

/// The XMP packets and the IPTC data in the values of fields, in the order of the fields: the tags
/// 700 and 33723 of the chain of directories. So a TIFF or raw file holds them, and Exif data can.
///
/// A value of another type than bytes or 32-bit numbers is no packet. It takes the memory of the
/// packets.
pub fn packets_of_fields(alloc: Global, exif: &Exif) -> Result<Vec<FieldPacket>, AllocError>
    ensures { IfOk result (λ packets. map held_view packets.items
        ≡ packets_of_fields exif.now.little_endian exif.now.fields) }
{
    let mut packets = Vec::new(alloc);
    for field in exif.fields() {
        if let Some(packet) = packet_in(alloc, exif.little_endian(), field)? {
            packets.push(packet)?;
        }
    }
    Ok(packets)
}
