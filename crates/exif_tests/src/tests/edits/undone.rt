//! Edits that are undone: where what they make is read otherwise, where a file does not hold it,
//! and where memory is refused on the way.

use super::{DESCRIPTION, put, text};
use exif_base::Items;
use exif_edit::{Edit, Error, apply, apply_in_file};
use exif_test_support::shortage::{Outcome, in_turn};
use exif_types::{Context, In, Tag, Value};
use std::alloc::Global;
use std::test::Fail;

// A HEIF file whose item is in two extents: the second is the eight bytes that say where the first
// is, and they are the description.
const HEIF: &[u8] =
    b"\0\0\0\x14ftypmif1\0\0\0\0mif1\0\0\0Tmeta\0\0\0\0\0\0\0&iloc\0\0\0\0D\0\0\x01\x1e\x1d\0\0\0\x02\0\0\0h\0\0\0\x1e\0\0\0\x36\0\0\0\x08\0\0\0\"iinf\0\0\0\0\0\x01\0\0\0\x14infe\x02\0\0\0\x1e\x1d\0\0Exif\0\0\0\0MM\0*\0\0\0\x08\0\x01\x01\x0e\0\x02\0\0\0\x08\0\0\0\x1a\0\0\0\0";

const LENGTH: usize = 134;

// What an error comes to that is to be that memory ran out, with all bytes as they were.
pub(super) fn out_of_memory(error: Error, is_kept: bool) -> Outcome {
    let is_short = matches!(&error, Error::OutOfMemory);
    drop(error);
    if is_short && is_kept {
        Outcome::OutOfMemory
    } else {
        Outcome::Wrong
    }
}

// What setting the description comes to: the file would not hold the new data.
fn setting_in_heif(alloc: Global, edit: &Edit) -> Outcome {
    let mut file = [0u8; LENGTH];
    put(&mut file[..], 0, HEIF);
    let answer = apply_in_file(alloc, edit, None, &mut file[..]);
    refused(answer, &file[..] == HEIF)
}

// In how many calls memory runs out that set an item which says where it is.
fn refused_in_heif(alloc: Global) -> Result<u16, Fail> {
    let edit = Edit::Set {
        tag: DESCRIPTION,
        ifd_num: In(0),
        value: text(alloc, b"Sample")?,
    };
    let count = in_turn(alloc, || setting_in_heif(alloc, &edit));
    drop(edit);
    Ok(count?)
}

// A resolution and an altitude, whose values are the same eight bytes.
const SAME_VALUE: &[u8] =
    b"MM\0*\0\0\0\x08\0\x02\x01\x1a\0\x05\0\0\0\x01\0\0\0\x38\x88\x25\0\x04\0\0\0\x01\0\0\0\x26\0\0\0\0\0\x01\0\x06\0\x05\0\0\0\x01\0\0\0\x38\0\0\0\0\0\0\0\x48\0\0\0\x01";

// A directory whose second entry is that of another one too, which begins in the first entry and is
// the next of itself.
const OVERLAPPING: &[u8] =
    b"MM\0*\0\0\0\x08\0\x02\x01\0\0\x03\0\0\0\x01\0\x14\0\x01\x01\x01\0\x03\0\0\0\x01\0\x1e\0\0\0\0\0\x14";

// What a refused edit comes to that is to leave data as they were.
fn refused(answer: Result<(), Error>, is_kept: bool) -> Outcome {
    match answer {
        Ok(()) => Outcome::Wrong,
        Err(error) if matches!(&error, Error::SharedBytes) => {
            drop(error);
            Outcome::answered(is_kept)
        }
        Err(error) => out_of_memory(error, is_kept),
    }
}

// What erasing GPS data comes to whose values are something else too.
fn erasing_shared(alloc: Global) -> Outcome {
    let mut bytes = [0u8; 64];
    put(&mut bytes[..], 0, SAME_VALUE);
    let answer = apply(alloc, &Edit::EraseGps, None, &mut bytes[..]);
    refused(answer, &bytes[..] == SAME_VALUE)
}

// What setting a width comes to that is something else too.
fn setting_shared(alloc: Global, edit: &Edit) -> Outcome {
    let mut bytes = [0u8; 38];
    put(&mut bytes[..], 0, OVERLAPPING);
    let answer = apply(alloc, edit, None, &mut bytes[..]);
    refused(answer, &bytes[..] == OVERLAPPING)
}

// In how many calls memory runs out that set a shared width.
fn refused_of_shared(alloc: Global) -> Result<u16, Fail> {
    let edit = Edit::Set {
        tag: Tag(Context::Tiff, 0x100),
        ifd_num: In(0),
        value: Value::Short(Items::from_slice(alloc, &[7])?),
    };
    let count = in_turn(alloc, || setting_shared(alloc, &edit));
    drop(edit);
    Ok(count?)
}

#[test]
fn what_is_refused_is_put_back(rt: HostRuntime) -> Result<(), Fail> {
    let alloc = rt.alloc();
    assert!(rt; refused_in_heif(alloc)? > 0);
    assert!(rt; in_turn(alloc, || erasing_shared(alloc))? > 0);
    assert!(rt; refused_of_shared(alloc)? > 0);
    Ok(())
}
