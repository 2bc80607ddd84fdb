//! As many fields as a directory can have and images as long as can be, and what is refused past
//! that.

use super::list_of;
use exif::experimental::Writer;
use exif::{Error, Field, In, Tag, Value};
use exif_test_support::answers;
use exif_test_support::writings::{
    counted_write, descriptions, field, image, push_all, put_strips,
};
use std::alloc::{AllocError, Global};
use std::process::Abort;
use std::test::Fail;

// Nothing is sent, for a reason.
fn is_refused(alloc: Global, writer: &mut Writer, reason: &str) -> Result<(), Fail> {
    let (answer, sent) = counted_write(writer);
    answers::is_refused(alloc, answer, reason)?;
    if sent.bytes == 0 && sent.calls == 0 {
        Ok(())
    } else {
        Err(Fail::new("something was sent"))
    }
}

// A field with a value of an unknown type.
fn unknown(ifd_num: In) -> Field {
    field(Tag::ImageWidth, ifd_num, Value::Unknown(65535, 1, 18))
}

// A writer into which fields were pushed so many times.
fn crowded<'a>(alloc: Global, fields: &'a [Field], times: u32) -> Result<Writer<'a>, Error> {
    let mut writer = Writer::new(alloc);
    for _pushed in 0..times {
        push_all(&mut writer, fields)?;
    }
    Ok(writer)
}

// As many fields as a count can say are written.
fn are_written(rt: &(impl Abort + AllocGlobal)) -> Result<(), Fail> {
    let alloc = rt.alloc();
    let described = descriptions(alloc, &[b"p"])?;
    let mut writer = crowded(alloc, described.as_slice(), 65_535)?;
    assert!(rt; image(alloc, &mut writer, true)?.len() == 8 + 6 + 12 * 65_535);
    Ok(())
}

// One field more is refused.
fn one_more_is_refused(alloc: Global) -> Result<(), Fail> {
    let described = descriptions(alloc, &[b"p"])?;
    let mut writer = crowded(alloc, described.as_slice(), 65_536)?;
    is_refused(alloc, &mut writer, "Too many fields in an IFD")
}

// So many are refused before their type is.
fn unknown_ones_are_refused(alloc: Global) -> Result<(), Fail> {
    let strange = list_of(alloc, unknown(In::PRIMARY))?;
    let mut writer = crowded(alloc, strange.as_slice(), 65_536)?;
    is_refused(alloc, &mut writer, "Too many fields in an IFD")
}

#[test]
fn as_many_fields_as_a_count_can_say(rt: HostRuntime) -> Result<(), Fail> {
    are_written(&rt)?;
    one_more_is_refused(rt.alloc())?;
    unknown_ones_are_refused(rt.alloc())
}

const STRIP: usize = 1 << 20;

// A block of so many spaces.
fn block(alloc: Global, len: usize) -> Result<Vec<u8>, AllocError> {
    let mut block = Vec::with_capacity(alloc, len)?;
    block.resize(len, b' ')?;
    Ok(block)
}

// 4096 strips that are one block, the last of them so long.
fn strips<'a>(alloc: Global, block: &'a Vec<u8>, last: usize) -> Result<Vec<&'a [u8]>, AllocError> {
    let mut strips: Vec<&'a [u8]> = Vec::with_capacity(alloc, 4096)?;
    strips.resize(4095, block.as_slice())?;
    strips.push(block.get(..last).unwrap_or(b""))?;
    Ok(strips)
}

#[test]
fn images_past_four_gigabytes(rt: HostRuntime) -> Result<(), Fail> {
    let alloc = rt.alloc();
    let block = block(alloc, STRIP)?;
    let one_more = strips(alloc, &block, 1_015_770)?;
    let whole = strips(alloc, &block, STRIP)?;
    let mut writer = Writer::new(alloc);
    put_strips(&mut writer, one_more.as_slice(), In::PRIMARY)?;
    is_refused(alloc, &mut writer, "Offset too large")?;
    put_strips(&mut writer, whole.as_slice(), In::PRIMARY)?;
    is_refused(alloc, &mut writer, "Offset too large")
}

#[test]
fn the_longest_image(rt: HostRuntime) -> Result<(), Fail> {
    let alloc = rt.alloc();
    let block = block(alloc, STRIP)?;
    let strips = strips(alloc, &block, 1_015_769)?;
    let mut writer = Writer::new(alloc);
    put_strips(&mut writer, strips.as_slice(), In::PRIMARY)?;
    let (answer, sent) = counted_write(&mut writer);
    answer?;
    assert!(rt; sent.bytes == 4_294_967_295);
    Ok(())
}
