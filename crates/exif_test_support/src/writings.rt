//! Fields, and what a writer makes of them.

use crate::devices::Counting;
use exif::experimental::Writer;
use exif::{Counted, Error, Field, In, Items, Tag, Value};
use std::alloc::Global;
use std::io::Write;
use std::test::Fail;

/// A field of a directory.
pub fn field(tag: Tag, ifd_num: In, value: Value) -> Field {
    Field {
        tag,
        ifd_num,
        value,
    }
}

/// A field of one text.
pub fn text(alloc: Global, tag: Tag, ifd_num: In, text: &[u8]) -> Result<Field, Fail> {
    Ok(field(tag, ifd_num, Value::ascii(alloc, &[text])?))
}

/// An image description.
pub fn description(alloc: Global, ifd_num: In, bytes: &[u8]) -> Result<Field, Fail> {
    text(alloc, Tag::ImageDescription, ifd_num, bytes)
}

/// The version of Exif.
pub fn version(alloc: Global) -> Result<Field, Fail> {
    let value = Value::Undefined(Items::from_slice(alloc, b"0231")?, 0);
    Ok(field(Tag::ExifVersion, In::PRIMARY, value))
}

// The version of GPS.
fn gps_version(alloc: Global) -> Result<Field, Fail> {
    let value = Value::Byte(Items::from_slice(alloc, b"\x02\x03\0\0")?);
    Ok(field(Tag::GPSVersionID, In::PRIMARY, value))
}

/// A description, the version of Exif, that of GPS and an index of interoperability.
pub fn four_fields(alloc: Global) -> Result<Vec<Field>, Fail> {
    let mut fields = Vec::with_capacity(alloc, 4)?;
    fields.push(description(alloc, In::PRIMARY, b"Sample")?)?;
    fields.push(version(alloc)?)?;
    fields.push(gps_version(alloc)?)?;
    fields.push(text(alloc, Tag::InteroperabilityIndex, In::PRIMARY, b"ABC")?)?;
    Ok(fields)
}

/// A description in each of so many directories, the last one first.
pub fn descriptions(alloc: Global, texts: &[&[u8]]) -> Result<Vec<Field>, Fail> {
    let mut fields = Vec::with_capacity(alloc, texts.len())?;
    for (number, text) in (0..u16::MAX).zip(texts) {
        fields.push(description(alloc, In(number), text)?)?;
    }
    fields.reverse();
    Ok(fields)
}

/// Pushes a field. It promises nothing, as the calls below: what a test makes of a writer it looks
/// at by its image, and calls of the writer itself would cost each test their proof.
pub fn push<'a>(writer: &mut Writer<'a>, field: &'a Field) -> Result<(), Error> {
    writer.push_field(field)
}

/// Sets the strips of a directory.
pub fn put_strips<'a>(
    writer: &mut Writer<'a>,
    strips: &'a [&'a [u8]],
    ifd_num: In,
) -> Result<(), Error> {
    writer.set_strips(strips, ifd_num)
}

/// Sets the tiles of a directory.
pub fn put_tiles<'a>(
    writer: &mut Writer<'a>,
    tiles: &'a [&'a [u8]],
    ifd_num: In,
) -> Result<(), Error> {
    writer.set_tiles(tiles, ifd_num)
}

/// Sets the thumbnail of a directory.
pub fn put_jpeg<'a>(writer: &mut Writer<'a>, jpeg: &'a [u8], ifd_num: In) -> Result<(), Error> {
    writer.set_jpeg(jpeg, ifd_num)
}

/// Pushes fields in their order.
pub fn push_all<'a>(writer: &mut Writer<'a>, fields: &'a [Field]) -> Result<(), Error> {
    for field in fields {
        push(writer, field)?;
    }
    Ok(())
}

// What a write answers, and the writer that the image was sent to.
fn write_to<W: Write>(writer: &mut Writer, out: W, little_endian: bool) -> (Result<(), Error>, W) {
    let mut out = Counted::new(out);
    let answer = writer.write(&mut out, little_endian);
    (answer, out.into_inner())
}

/// What a write answers, big endian, and what is left of the space that the image was sent to.
pub fn write_into<'a>(
    writer: &mut Writer,
    space: &'a mut [u8],
) -> (Result<(), Error>, &'a mut [u8]) {
    write_to(writer, space, false)
}

/// What a write answers, and what was sent.
pub fn written(
    alloc: Global,
    writer: &mut Writer,
    little_endian: bool,
) -> (Result<(), Error>, Vec<u8>) {
    write_to(writer, Vec::new(alloc), little_endian)
}

/// What a write answers, big endian, and how much was sent.
pub fn counted_write(writer: &mut Writer) -> (Result<(), Error>, Counting) {
    write_to(writer, Counting::new(), false)
}

/// What a writer sends.
pub fn image(alloc: Global, writer: &mut Writer, little_endian: bool) -> Result<Vec<u8>, Error> {
    let (answer, sent) = written(alloc, writer, little_endian);
    answer?;
    Ok(sent)
}

/// Whether a writer sends this image, big endian.
pub fn is_image(alloc: Global, writer: &mut Writer, bytes: &[u8]) -> Result<bool, Error> {
    let sent = image(alloc, writer, false)?;
    Ok(sent.as_slice() == bytes)
}
