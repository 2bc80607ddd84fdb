//! The offsets of patches: in data, and in files, where they count from the first byte.

use super::{DESCRIPTION, is_so, text};
use exif_base::Counted;
use exif_edit::{Edit, Error, Patch, patches_in, patches_of};
use exif_test_support::files::{DESCRIBED_BIG, JPEG, OFFSET_BEFORE_DESCRIPTION};
use exif_types::{Context, In, Tag};
use std::alloc::{AllocError, Global};

// A width, a program's name at 50, four bytes of any meaning, and a second directory at 57.
const THREE: &[u8] =
    b"MM\0*\0\0\0\x08\0\x03\x01\0\0\x03\0\0\0\x01\0\x14\0\0\x01\x31\0\x02\0\0\0\x07\0\0\0\x32\xc4\xa5\0\x07\0\0\0\x04abcd\0\0\0\x39Sample\0\0\0\0\0\0\0";

// A JPEG stream with a comment of the same bytes as its data, which begin at 78.
static PARTS: [&[u8]; 5] = [
    b"\xff\xd8\xff\xfe\0\x40",
    OFFSET_BEFORE_DESCRIPTION,
    b"\xff\xe1\0\x46Exif\0\0",
    OFFSET_BEFORE_DESCRIPTION,
    b"\xff\xd9",
];

fn joined(alloc: Global) -> Result<Vec<u8>, AllocError> {
    let mut file = Vec::new(alloc);
    for part in PARTS {
        file.extend_from_slice(part)?;
    }
    Ok(file)
}

// Whether the offsets and the bytes of patches are these, each in a row.
fn are_these(
    alloc: Global,
    patches: &[Patch],
    at: &[u64],
    wanted: &[u8],
) -> Result<bool, AllocError> {
    let mut offsets = Vec::new(alloc);
    let mut bytes = Vec::new(alloc);
    for patch in patches {
        offsets.push(patch.offset)?;
        bytes.extend_from_slice(patch.bytes.as_slice())?;
    }
    Ok(offsets.as_slice() == at && bytes.as_slice() == wanted)
}

// The edit that sets a description.
fn described(alloc: Global, ifd_num: In, new: &[u8]) -> Result<Edit, AllocError> {
    Ok(Edit::Set {
        tag: DESCRIPTION,
        ifd_num,
        value: text(alloc, new)?,
    })
}

// Whether the patches that set a description in data are these.
fn sets_by(alloc: Global, new: &[u8], at: &[u64], wanted: &[u8]) -> Result<bool, Error> {
    let edit = described(alloc, In(0), new)?;
    let patches = patches_of(alloc, &edit, None, DESCRIBED_BIG);
    drop(edit);
    Ok(are_these(alloc, patches?.as_slice(), at, wanted)?)
}

// The same of a description in a file.
fn sets_in_file_by(
    alloc: Global,
    file: &[u8],
    ifd_num: In,
    new: &[u8],
    at: &[u64],
    wanted: &[u8],
) -> Result<bool, Error> {
    let edit = described(alloc, ifd_num, new)?;
    let patches = patches_in(alloc, &edit, None, &mut Counted::new(file));
    drop(edit);
    Ok(are_these(alloc, patches?.as_slice(), at, wanted)?)
}

// The bytes of the patches that set a shorter description. The data of the JPEG file begin at 12.
const SET_BLUE: &[u8] = b"Blue\0\0\0\0\x02\0\0\0\x05\0\0\0\x1a";

// Whether those of an entry behind a copy of it are at its own offset. It is at 46 of the data. Its
// value is in it, and stays what it is.
fn sets_behind_a_copy(alloc: Global) -> Result<bool, Error> {
    let file = joined(alloc)?;
    let wanted: &[u8] = b"\0\x02\0\0\0\x02p\0\0\0";
    sets_in_file_by(alloc, file.as_slice(), In(1), b"p", &[126], wanted)
}

#[test]
fn patches_of_files_count_from_their_first_byte(rt: HostRuntime) {
    let alloc = rt.alloc();
    assert!(rt; is_so(sets_in_file_by(alloc, JPEG, In(0), b"Blue", &[38, 24], SET_BLUE)));
    assert!(rt; is_so(sets_behind_a_copy(alloc)));
}

// The offset and the length of each patch that erases the program's name.
fn erases_by(alloc: Global, first: (u64, usize), second: (u64, usize)) -> Result<bool, Error> {
    let edit = Edit::EraseField {
        tag: Tag(Context::Tiff, 0x131),
        ifd_num: In(0),
    };
    let patches = patches_of(alloc, &edit, None, THREE)?;
    match patches.as_slice() {
        [a, b] => Ok((a.offset, a.bytes.len()) == first && (b.offset, b.bytes.len()) == second),
        _ => Ok(false),
    }
}

// A value and the end of its entry are set; a directory and a value are erased.
#[test]
fn patches_of_data(rt: HostRuntime) {
    assert!(rt; is_so(sets_by(rt.alloc(), b"Blue", &[26, 12], SET_BLUE)));
    assert!(rt; is_so(erases_by(rt.alloc(), (8, 42), (50, 7))));
}
