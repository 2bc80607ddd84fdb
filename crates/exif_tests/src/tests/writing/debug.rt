//! The debug texts of writers.

use super::{list_of, writer_with};
use exif::experimental::Writer;
use exif::{In, Items, Tag, Value};
use exif_test_support::answers::debugs;
use exif_test_support::writings::{field, put_jpeg, put_strips, put_tiles};
use std::alloc::Global;
use std::test::Fail;

const NOTHING: &str = "Writer { alloc: Global, ifds: [] }";

const FIELDS: &str =
    "Writer { alloc: Global, ifds: [Ifd { tiff: [Field { tag: Tag(Tiff, 256), ifd_num: In(0), value: Short([20]) }], exif: [], gps: [], interop: [], strips: None, tiles: None, jpeg: None }] }";

const BLOCKS: &str =
    "Writer { alloc: Global, ifds: [Ifd { tiff: [], exif: [], gps: [], interop: [], strips: Some([[65]]), tiles: Some([]), jpeg: Some([255, 216]) }] }";

fn a_writer_of_nothing(alloc: Global) -> Result<(), Fail> {
    debugs(alloc, &Writer::new(alloc), NOTHING)
}

fn a_writer_of_fields(alloc: Global) -> Result<(), Fail> {
    let width = Value::Short(Items::from_slice(alloc, &[20])?);
    let fields = list_of(alloc, field(Tag::ImageWidth, In::PRIMARY, width))?;
    let writer = writer_with(alloc, fields.as_slice())?;
    debugs(alloc, &writer, FIELDS)
}

fn a_writer_of_blocks(alloc: Global) -> Result<(), Fail> {
    let mut writer = Writer::new(alloc);
    put_strips(&mut writer, &[b"A"], In::PRIMARY)?;
    put_tiles(&mut writer, &[], In::PRIMARY)?;
    put_jpeg(&mut writer, b"\xff\xd8", In::PRIMARY)?;
    debugs(alloc, &writer, BLOCKS)
}

#[test]
fn debug_texts_of_writers(rt: HostRuntime) -> Result<(), Fail> {
    a_writer_of_nothing(rt.alloc())?;
    a_writer_of_fields(rt.alloc())?;
    a_writer_of_blocks(rt.alloc())
}
