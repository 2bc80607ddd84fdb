//! What a writer does where memory is refused: all of it, or what is behind some request.

use super::{reason_of, runs_out, sending, take_all};
use exif::experimental::Writer;
use exif::{Error, Field, In, Tag, Value};
use exif_test_support::answers::{are_bytes, kind_of};
use exif_test_support::files;
use exif_test_support::shortage::{Outcome, in_turn, take_most, take_rest};
use exif_test_support::writings::{
    description, descriptions, field, four_fields, is_image, push, push_all, put_jpeg, put_strips,
    put_tiles, write_into, written,
};
use std::alloc::Global;
use std::io::ErrorKind;
use std::process::Abort;
use std::test::Fail;

// What a write comes to.
fn writing(writer: &mut Writer, bytes: &[u8]) -> Outcome {
    let mut space = [0u8; 256];
    let (answer, rest) = write_into(writer, &mut space[..]);
    let left = rest.len();
    sending(answer, &space, left, bytes)
}

// A writer of these fields.
fn writer_with<'a>(rt: &(impl Abort + AllocGlobal), fields: &'a [Field]) -> Writer<'a> {
    let mut writer = Writer::new(rt.alloc());
    push_all(&mut writer, fields).expect(rt, "memory");
    writer
}

// A writer of these fields and of a thumbnail.
fn with_thumbnail<'a>(rt: &(impl Abort + AllocGlobal), fields: &'a [Field]) -> Writer<'a> {
    let mut writer = writer_with(rt, fields);
    put_jpeg(&mut writer, b"JPEG", In::THUMBNAIL).expect(rt, "memory");
    writer
}

#[test]
fn writing_runs_out_of_memory(rt: HostRuntime) -> Result<(), Fail> {
    let fields = four_fields(rt.alloc())?;
    let mut writer = with_thumbnail(&rt, fields.as_slice());
    let refused = in_turn(rt.alloc(), || writing(&mut writer, files::EVERY_DIRECTORY));
    runs_out(&rt, refused);
    Ok(())
}

// Changes the sixth directory in one of the four ways.
fn change<'a>(writer: &mut Writer<'a>, field: &'a Field, way: u8) -> Result<(), Error> {
    match way {
        0 => push(writer, field),
        1 => put_strips(writer, &[b"STRIP"], In(5)),
        2 => put_tiles(writer, &[b"TILE"], In(5)),
        _ => put_jpeg(writer, b"JPEG", In(5)),
    }
}

// What a change comes to where so much memory is left.
fn change_with<'a>(
    rt: &(impl Abort + AllocGlobal),
    left: u16,
    writer: &mut Writer<'a>,
    field: &'a Field,
    way: u8,
) -> Outcome {
    let rest = take_rest(rt.alloc(), left).expect(rt, "memory");
    let answer = change(writer, field, way);
    drop(rest);
    match answer {
        Ok(()) => Outcome::Right,
        Err(error) => Outcome::refused(error),
    }
}

// The writer, which holds the description, is as it was.
fn is_left(rt: &(impl Abort + AllocGlobal), writer: &mut Writer) {
    let is_image = is_image(rt.alloc(), writer, files::DESCRIBED_BIG);
    assert!(rt; is_image.expect(rt, "memory"));
}

// Whether a change is refused where so much memory is left. Then it leaves the writer.
fn is_refused_with<'a>(
    rt: &(impl Abort + AllocGlobal),
    left: u16,
    writer: &mut Writer<'a>,
    field: &'a Field,
    way: u8,
) -> bool {
    match change_with(rt, left, writer, field, way) {
        Outcome::Right => false,
        Outcome::OutOfMemory => {
            is_left(rt, writer);
            true
        }
        Outcome::Wrong => panic!(rt; "another error"),
    }
}

// How many changes of a writer are refused until one is not.
fn refused_changes<'a>(
    rt: &(impl Abort + AllocGlobal),
    writer: &mut Writer<'a>,
    later: &'a Field,
    way: u8,
) -> u16 {
    for step in 0..1000u16 {
        if !is_refused_with(rt, 16 * step, writer, later, way) {
            return step;
        }
    }
    panic!(rt; "memory was never enough");
}

// A way is refused some memory, and leaves the writer.
fn is_refused_at_first(
    rt: &(impl Abort + AllocGlobal),
    later: &Field,
    way: u8,
) -> Result<(), Fail> {
    let fields = descriptions(rt.alloc(), &[b"Sample"])?;
    let mut writer = writer_with(rt, fields.as_slice());
    let most = take_most(rt.alloc()).expect(rt, "memory");
    let count = refused_changes(rt, &mut writer, later, way);
    drop(most);
    assert!(rt; count > 0);
    Ok(())
}

// Each way is so.
fn each_way_is_refused(rt: &(impl Abort + AllocGlobal), later: &Field) -> Result<(), Fail> {
    for way in 0..4u8 {
        is_refused_at_first(rt, later, way)?;
    }
    Ok(())
}

#[test]
fn refused_changes_leave_the_writer(rt: HostRuntime) -> Result<(), Fail> {
    let later = description(rt.alloc(), In(5), b"later")?;
    let answer = each_way_is_refused(&rt, &later);
    drop(later);
    answer
}

// With all memory refused, a write is refused for this reason.
fn is_refused(rt: &(impl Abort + AllocGlobal), writer: &mut Writer, text: &str) {
    let mut space = [0u8; 8];
    let taken = take_all(rt, 0);
    let (answer, _space) = write_into(writer, &mut space[..]);
    let found = reason_of(answer);
    drop(taken);
    assert!(rt; found == Some(text));
}

fn no_directory_is_refused(rt: &(impl Abort + AllocGlobal)) {
    let mut writer = Writer::new(rt.alloc());
    is_refused(rt, &mut writer, "At least one IFD must exist");
}

fn unknown_values_are_refused(rt: &(impl Abort + AllocGlobal)) {
    let unknown = Value::Unknown(65535, 1, 18);
    let mut fields = Vec::new(rt.alloc());
    let pushed = fields.push(field(Tag::ImageWidth, In::PRIMARY, unknown));
    pushed.expect(rt, "memory");
    let mut writer = writer_with(rt, fields.as_slice());
    is_refused(rt, &mut writer, "Cannot write unknown field types");
}

fn empty_directories_are_refused(rt: &(impl Abort + AllocGlobal)) {
    let mut writer = with_thumbnail(rt, &[]);
    is_refused(rt, &mut writer, "IFD must not be empty");
}

#[test]
fn writers_are_refused_without_memory(rt: HostRuntime) {
    no_directory_is_refused(&rt);
    unknown_values_are_refused(&rt);
    empty_directories_are_refused(&rt);
}

// The directory of a strip of 40,000 bytes.
const LONG_STRIP: &[u8] =
    b"MM\0*\0\0\0\x08\0\x02\x01\x11\0\x04\0\0\0\x01\0\0\0\x26\x01\x17\0\x04\0\0\0\x01\0\0\x9c\x40\0\0\0\0";

// What a writer answers with 8192 bytes of memory left, and what was sent.
fn written_with_little(
    rt: &(impl Abort + AllocGlobal),
    writer: &mut Writer,
) -> (Result<(), Error>, Vec<u8>) {
    let taken = take_all(rt, 8192);
    let (answer, sent) = written(rt.alloc(), writer, false);
    drop(taken);
    (answer, sent)
}

#[test]
fn a_writer_over_memory_fails_where_its_memory_does(rt: HostRuntime) -> Result<(), Fail> {
    let mut strip = Vec::new(rt.alloc());
    strip.resize(40_000, b' ').expect(&rt, "memory");
    let strips: [&[u8]; 1] = [strip.as_slice()];
    let mut writer = Writer::new(rt.alloc());
    put_strips(&mut writer, &strips, In::PRIMARY).expect(&rt, "memory");
    let (answer, sent) = written_with_little(&rt, &mut writer);
    assert!(rt; kind_of(&answer) == Some(ErrorKind::OutOfMemory));
    are_bytes(sent.as_slice(), LONG_STRIP)
}
