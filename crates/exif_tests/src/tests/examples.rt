//! Each example asked of the picture that the guides show, which `tests/make_sample.py` makes.

mod picture;

use crate::examples::changing::{
    erase_location, set_orientation, without_location, without_metadata,
};
use crate::examples::dates::date_taken;
use crate::examples::locations::location;
use crate::examples::reading::{
    field_lines, orientation, print_orientation, read_damaged, read_fields, read_from_stranger,
    read_picture, size, thumbnail,
};
use crate::examples::values::{artist, resolution_unit, width};
use crate::examples::writing::{new_exif, written_again};
use exif::{DateTime, Error, Exif};
use exif_test_support::answers::{are_bytes, is_text, shown};
use exif_test_support::files;
use picture::PICTURE;
use std::alloc::Global;
use std::io::{Cursor, ErrorKind};
use std::process::Abort;
use std::test::Fail;

// What the picture says.
fn read(alloc: Global) -> Result<Exif, Error> {
    read_picture(alloc, Cursor::new(PICTURE))
}

fn what_the_picture_says(rt: &(impl Abort + AllocGlobal)) -> Result<(), Fail> {
    let exif = read(rt.alloc())?;
    assert!(rt; orientation(&exif) == Some(6));
    assert!(rt; size(&exif) == Some((32, 8)));
    Ok(())
}

fn what_the_fields_say(rt: &(impl Abort + AllocGlobal)) -> Result<(), Fail> {
    let exif = read_fields(rt.alloc(), Cursor::new(PICTURE))?;
    assert!(rt; orientation(&exif) == Some(6));
    Ok(())
}

#[test]
fn a_file_that_is_not_there(rt: HostRuntime) -> Result<(), Fail> {
    match print_orientation(&rt, "no/such/picture.jpg") {
        Err(Error::Io(cause)) if cause.kind() == ErrorKind::NotFound => Ok(()),
        _ => Err(Fail::new("a file that is not there was read")),
    }
}

fn when_it_was_taken(rt: &(impl Abort + AllocGlobal)) -> Result<(), Fail> {
    let exif = read(rt.alloc())?;
    let taken = DateTime {
        year: 2024,
        month: 5,
        day: 1,
        hour: 12,
        minute: 30,
        second: 0,
        nanosecond: Some(250_000_000),
        offset: Some(600),
    };
    assert!(rt; date_taken(&exif)? == Some(taken));
    Ok(())
}

fn where_it_was_taken(rt: &(impl Abort + AllocGlobal)) -> Result<(), Fail> {
    let alloc = rt.alloc();
    let exif = read(alloc)?;
    let Some((latitude, longitude)) = location(&exif) else {
        return Err(Fail::new("no place"));
    };
    is_text(shown(alloc, &latitude)?.as_str(), "33° 51' 35.9\" S")?;
    is_text(shown(alloc, &longitude)?.as_str(), "151° 12' 40\" E")
}

const LINES: &str = "Make primary \"Example\"
Model primary \"Pinhole 2\"
Orientation primary row 0 at right and column 0 at top
ExposureTime primary 1/200 s
FNumber primary f/2.8
ExifVersion primary 2.32
DateTimeOriginal primary 2024-05-01 12:30:00
OffsetTimeOriginal primary \"+10:00\"
SubSecTimeOriginal primary \"25\"
PixelXDimension primary 32 pixels
PixelYDimension primary 8 pixels
GPSVersionID primary 2.3.0.0
GPSLatitudeRef primary S
GPSLatitude primary 33 deg 51 min 35.9 sec S
GPSLongitudeRef primary E
GPSLongitude primary 151 deg 12 min 40 sec E
Compression thumbnail JPEG
JPEGInterchangeFormat thumbnail 394
JPEGInterchangeFormatLength thumbnail 154
";

#[test]
fn all_of_its_fields(rt: HostRuntime) -> Result<(), Fail> {
    let alloc = rt.alloc();
    let exif = read(alloc)?;
    is_text(field_lines(alloc, &exif)?.as_str(), LINES)
}

fn a_damaged_picture(rt: &(impl Abort + AllocGlobal)) -> Result<(), Fail> {
    let (exif, faults) = read_damaged(rt.alloc(), Cursor::new(files::WRONG_NEXT))?;
    assert!(rt; exif.fields().len() == 2);
    assert!(rt; faults == 2);
    Ok(())
}

fn a_picture_of_a_stranger(rt: &(impl Abort + AllocGlobal)) -> Result<(), Fail> {
    let exif = read_from_stranger(rt.alloc(), Cursor::new(PICTURE))?;
    assert!(rt; exif.fields().len() == 19);
    Ok(())
}

fn its_thumbnail(rt: &(impl Abort + AllocGlobal)) -> Result<(), Fail> {
    let exif = read(rt.alloc())?;
    let Some(small) = thumbnail(&exif) else {
        return Err(Fail::new("no thumbnail"));
    };
    assert!(rt; small.len() == 154);
    assert!(rt; small.starts_with(b"\xff\xd8\xff\xdb"));
    assert!(rt; small.ends_with(b"\xff\xd9"));
    Ok(())
}

fn new_data(rt: &(impl Abort + AllocGlobal)) -> Result<(), Fail> {
    let written = new_exif(rt.alloc(), 6, b"JPEG")?;
    are_bytes(
        written.as_slice(),
        b"MM\0*\0\0\0\x08\0\x01\x01\x12\0\x03\0\0\0\x01\0\x06\0\0\0\0\0\x1a\0\x02\x02\x01\0\
        \x04\0\0\0\x01\0\0\0\x38\x02\x02\0\x04\0\0\0\x01\0\0\0\x04\0\0\0\0JPEG",
    )
}

fn what_was_read_written_again(rt: &(impl Abort + AllocGlobal)) -> Result<(), Fail> {
    let alloc = rt.alloc();
    let exif = read_picture(alloc, Cursor::new(files::DESCRIBED_LITTLE))?;
    are_bytes(
        written_again(alloc, &exif)?.as_slice(),
        files::DESCRIBED_LITTLE,
    )
}

fn an_orientation_set(rt: &(impl Abort + AllocGlobal)) -> Result<(), Fail> {
    let alloc = rt.alloc();
    let mut picture = Vec::from_slice(alloc, PICTURE)?;
    assert!(rt; set_orientation(alloc, picture.as_mut_slice(), 1).is_ok());
    let exif = read_picture(alloc, Cursor::new(picture.as_slice()))?;
    assert!(rt; orientation(&exif) == Some(1));
    Ok(())
}

fn a_location_erased(rt: &(impl Abort + AllocGlobal)) -> Result<(), Fail> {
    let alloc = rt.alloc();
    let mut picture = Vec::from_slice(alloc, PICTURE)?;
    assert!(rt; erase_location(alloc, picture.as_mut_slice()).is_ok());
    let exif = read_picture(alloc, Cursor::new(picture.as_slice()))?;
    assert!(rt; location(&exif).is_none());
    assert!(rt; exif.fields().len() == 14);
    Ok(())
}

fn fields_without_a_location(rt: &(impl Abort + AllocGlobal)) -> Result<(), Fail> {
    let alloc = rt.alloc();
    let data = without_location(alloc, &read(alloc)?)?;
    let exif = read_picture(alloc, Cursor::new(data.as_slice()))?;
    assert!(rt; location(&exif).is_none());
    assert!(rt; orientation(&exif) == Some(6));
    Ok(())
}

fn a_picture_without_metadata(rt: &(impl Abort + AllocGlobal)) -> Result<(), Fail> {
    let alloc = rt.alloc();
    let clean = without_metadata(alloc, PICTURE)?;
    // The stream but for its Exif segment, which follows 20 bytes and takes 558.
    assert!(rt; clean.len() == 172);
    assert!(rt; clean.starts_with(&PICTURE[..20]));
    assert!(rt; clean.ends_with(&PICTURE[578..]));
    match read_picture(alloc, Cursor::new(clean.as_slice())) {
        Err(Error::NotFound(_)) => Ok(()),
        _ => Err(Fail::new("metadata stayed")),
    }
}

fn values_made_counted_and_shown(rt: &(impl Abort + AllocGlobal)) -> Result<(), Fail> {
    let alloc = rt.alloc();
    let exif = read(alloc)?;
    assert!(rt; width(&exif)? == Some(32));
    is_text(resolution_unit(alloc, &exif)?.as_str(), "inch")?;
    let field = artist(alloc, b"A. Nyone")?;
    is_text(
        shown(alloc, &field.display_value())?.as_str(),
        "\"A. Nyone\"",
    )
}

#[test]
fn what_the_guides_read(rt: HostRuntime) -> Result<(), Fail> {
    what_the_picture_says(&rt)?;
    what_the_fields_say(&rt)?;
    when_it_was_taken(&rt)?;
    where_it_was_taken(&rt)?;
    its_thumbnail(&rt)?;
    values_made_counted_and_shown(&rt)
}

#[test]
fn what_the_guides_read_of_others(rt: HostRuntime) -> Result<(), Fail> {
    a_damaged_picture(&rt)?;
    a_picture_of_a_stranger(&rt)
}

#[test]
fn what_the_guides_write(rt: HostRuntime) -> Result<(), Fail> {
    new_data(&rt)?;
    what_was_read_written_again(&rt)
}

#[test]
fn what_the_guides_change(rt: HostRuntime) -> Result<(), Fail> {
    an_orientation_set(&rt)?;
    a_location_erased(&rt)?;
    fields_without_a_location(&rt)?;
    a_picture_without_metadata(&rt)
}
