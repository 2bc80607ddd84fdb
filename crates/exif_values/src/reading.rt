//! The packets of a picture, read.

ghost use Rattle.std.specs.Prelude.{◌≡◌, map, IfOk, OnOk};
ghost use Rattle.std.specs.List.{list_any};
ghost use Rattle.std.specs.Option.{option_map};
ghost use Rattle.exif_packets.specs.Fields.{held_view};
ghost use Rattle.exif_packets.specs.PngPackets.{text_view};
ghost use Rattle.exif_packets.specs.Portions.{is_portion};
ghost use Rattle.exif_values.specs.Readings.{read, read_all, read_whole, with_extension, with_field_packet, with_fields, with_main, with_packet, with_rest, with_strays, with_text, with_texts, with_xmp};
ghost use Rattle.exif_values.specs.Values.{values_view};

use crate::extension::{extension_id, names_one};
use crate::fault::Cause;
use crate::values::Values;
use exif_packets::{
    FieldPacket, Form, JoinError, Packet, TextPacket, content_of, joined, packets,
    packets_of_fields, png_packets,
};
use exif_types::Exif;
use exif_xmp::ReadError;
use std::alloc::{AllocError, Global};

/// How many bytes of a text of a PNG file are decoded at most: 16 MiB.
pub const MAX_TEXT_LEN: usize = 16_777_216;

// Adds the properties of an XMP packet.
fn add_xmp(
    alloc: Global,
    offset: Option<usize>,
    content: &[u8],
    values: &mut Values,
) -> Result<(), AllocError>
    ensures { OnOk result (values_view values.new
        ≡ with_xmp offset content.now (values_view values.old)) }
{
    match exif_xmp::read(alloc, content) {
        Ok(properties) => values.add_properties(offset, properties),
        Err(ReadError::Refused(refusal)) => values.add_fault(Cause::Xmp(refusal), offset),
        Err(ReadError::OutOfMemory) => Err(AllocError),
    }
}

// Adds the properties of the rest of a packet, whose portions have this identifier.
fn add_extension(
    alloc: Global,
    file: &[u8],
    packets: &[Packet],
    id: &[u8],
    offset: Option<usize>,
    values: &mut Values,
) -> Result<(), AllocError>
    ensures { OnOk result (values_view values.new
        ≡ with_extension file.now packets.now id.now offset (values_view values.old)) }
{
    match joined(alloc, file, packets, id) {
        Ok(rest) => add_xmp(alloc, offset, rest.as_slice(), values),
        Err(JoinError::Missing(at)) => values.add_fault(Cause::Portions(at), offset),
        Err(JoinError::OutOfMemory) => Err(AllocError),
    }
}

// The same, if there is a rest.
fn add_rest(
    alloc: Global,
    file: &[u8],
    packets: &[Packet],
    id: Option<Vec<u8>>,
    offset: Option<usize>,
    values: &mut Values,
) -> Result<(), AllocError>
    ensures { OnOk result (values_view values.new
        ≡ with_rest file.now packets.now (option_map (λ v. v.items) id) offset
        (values_view values.old)) }
{
    match id {
        Some(id) => add_extension(alloc, file, packets, id.as_slice(), offset, values),
        None => Ok(()),
    }
}

// Adds the properties of a packet of a file, and of the rest of it.
fn add_main(
    alloc: Global,
    file: &[u8],
    packets: &[Packet],
    packet: Packet,
    values: &mut Values,
) -> Result<(), AllocError>
    ensures { OnOk result (values_view values.new
        ≡ with_main file.now packets.now packet (values_view values.old)) }
{
    let offset = Some(packet.offset);
    match exif_xmp::read(alloc, content_of(packet, file)) {
        Ok(properties) => {
            let id = extension_id(alloc, properties.as_slice())?;
            values.add_properties(offset, properties)?;
            add_rest(alloc, file, packets, id, offset, values)
        }
        Err(ReadError::Refused(refusal)) => values.add_fault(Cause::Xmp(refusal), offset),
        Err(ReadError::OutOfMemory) => Err(AllocError),
    }
}

// Adds what a packet of a file has. Only the first XMP packet has a rest.
fn add_packet(
    alloc: Global,
    file: &[u8],
    packets: &[Packet],
    packet: Packet,
    is_first: bool,
    values: &mut Values,
) -> Result<(), AllocError>
    ensures { OnOk result (values_view values.new
        ≡ with_packet is_first file.now packets.now packet (values_view values.old)) }
{
    let offset = Some(packet.offset);
    match packet.form {
        Form::Xmp if is_first => add_main(alloc, file, packets, packet, values),
        Form::Xmp => add_xmp(alloc, offset, content_of(packet, file), values),
        Form::Iptc => values.add_iptc(alloc, offset, content_of(packet, file)),
        Form::XmpPortion => Ok(()),
    }
}

// Whether there are portions of a long packet.
fn has_portions(packets: &[Packet]) -> bool
    ensures { result ≡ list_any (λ p. is_portion p.form) packets.now }
{
    packets
        .iter()
        .any(|packet| matches!(packet.form, Form::XmpPortion))
}

// Names portions that no packet of the file names.
fn name_strays(packets: &[Packet], values: &mut Values) -> Result<(), AllocError>
    ensures { OnOk result (values_view values.new
        ≡ with_strays packets.now (values_view values.old)) }
{
    if has_portions(packets) && !names_one(values.xmp.as_slice()) {
        return values.add_fault(Cause::Portions(0), None);
    }
    Ok(())
}

// What the packets of a file have.
fn read_packets(alloc: Global, file: &[u8], packets: &[Packet]) -> Result<Values, AllocError>
    ensures { IfOk result (λ values. values_view values
        ≡ read_all file.now packets.now) }
{
    let mut values = Values::new(alloc);
    let mut is_first = true;
    for packet in packets {
        add_packet(alloc, file, packets, *packet, is_first, &mut values)?;
        is_first = is_first && packet.form != Form::Xmp;
    }
    name_strays(packets, &mut values)?;
    Ok(values)
}

// Adds what a packet in a text has.
fn add_text(alloc: Global, text: &TextPacket, values: &mut Values) -> Result<(), AllocError>
    ensures { OnOk result (values_view values.new
        ≡ with_text (text_view text.now) (values_view values.old)) }
{
    let offset = Some(text.offset);
    match &text.content {
        Ok(content) => match text.form {
            Form::Xmp => add_xmp(alloc, offset, content.as_slice(), values),
            Form::Iptc => values.add_iptc(alloc, offset, content.as_slice()),
            Form::XmpPortion => Ok(()),
        },
        Err(fault) => values.add_fault(Cause::Text(*fault), offset),
    }
}

// Adds what packets in texts have.
fn add_texts(alloc: Global, texts: &[TextPacket], values: &mut Values) -> Result<(), AllocError>
    ensures { OnOk result (values_view values.new
        ≡ with_texts (map text_view texts.now) (values_view values.old)) }
{
    for text in texts {
        add_text(alloc, text, values)?;
    }
    Ok(())
}

// What the packets of a file have, and those in its texts.
fn read_whole(alloc: Global, file: &[u8], packets: &[Packet]) -> Result<Values, AllocError>
    ensures { IfOk result (λ values. values_view values ≡ read_whole file.now packets.now) }
{
    let mut values = read_packets(alloc, file, packets)?;
    let texts = png_packets(alloc, MAX_TEXT_LEN, file)?;
    add_texts(alloc, texts.as_slice(), &mut values)?;
    Ok(values)
}

/// The XMP properties and the IPTC values of a JPEG, WebP, PNG, JPEG XL, HEIF or AVIF file, in the
/// order of its packets, the first XMP packet with the rest of it where that is in portions, and
/// behind them those in the texts of a PNG file; and what is not read. `None` for a file of
/// another format.
///
/// It takes the memory of the properties and values, of the list of the file's parts, and of a text
/// of at most [`MAX_TEXT_LEN`] bytes.
pub fn read(alloc: Global, file: &[u8]) -> Result<Option<Values>, AllocError>
    ensures { IfOk result (λ found. option_map values_view found ≡ read file.now) }
{
    match packets(alloc, file)? {
        Some(packets) => Ok(Some(read_whole(alloc, file, packets.as_slice())?)),
        None => Ok(None),
    }
}

// Adds what a packet in the value of a field has.
fn add_field_packet(
    alloc: Global,
    packet: &FieldPacket,
    values: &mut Values,
) -> Result<(), AllocError>
    ensures { OnOk result (values_view values.new
        ≡ with_field_packet (held_view packet.now) (values_view values.old)) }
{
    match packet.form {
        Form::Xmp => add_xmp(alloc, None, packet.content.as_slice(), values),
        Form::Iptc => values.add_iptc(alloc, None, packet.content.as_slice()),
        Form::XmpPortion => Ok(()),
    }
}

/// Adds the XMP properties and the IPTC values in the values of fields, as TIFF and raw files have
/// them: see [`packets_of_fields`]. After an error some of them may be added.
pub fn read_fields(alloc: Global, exif: &Exif, values: &mut Values) -> Result<(), AllocError>
    ensures { OnOk result (values_view values.new
        ≡ with_fields exif.now.little_endian exif.now.fields (values_view values.old)) }
{
    let packets = packets_of_fields(alloc, exif)?;
    for packet in &packets {
        add_field_packet(alloc, packet, values)?;
    }
    Ok(())
}
