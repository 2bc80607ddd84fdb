//! What edits answer where memory is refused: all of it, or what is behind some request.
//! `exif_test_support::shortage` says which allocator these tests need.

use super::undone::out_of_memory;
use super::{DESCRIPTION, put, text};
use exif_base::Counted;
use exif_edit::{Edit, Error, Patch, apply, apply_in_file, patches_in, patches_of};
use exif_test_support::shortage::{Outcome, in_turn};
use exif_types::In;
use std::alloc::Global;
use std::test::Fail;

// The segment of a JPEG stream whose data have a GPS version and a description that is behind its
// entry.
const FILE: &[u8] =
    b"\xff\xd8\xff\xe1\0\x47Exif\0\0MM\0*\0\0\0\x08\0\x02\x01\x0e\0\x02\0\0\0\x07\0\0\0\x38\x88\x25\0\x04\0\0\0\x01\0\0\0\x26\0\0\0\0\0\x01\0\0\0\x01\0\0\0\x04\x02\x03\0\0\0\0\0\0Sample\0";

// The same with another description, without its GPS data, without the description, and without
// all.
const SET: &[u8] =
    b"\xff\xd8\xff\xe1\0\x47Exif\0\0MM\0*\0\0\0\x08\0\x02\x01\x0e\0\x02\0\0\0\x05\0\0\0\x38\x88\x25\0\x04\0\0\0\x01\0\0\0\x26\0\0\0\0\0\x01\0\0\0\x01\0\0\0\x04\x02\x03\0\0\0\0\0\0Blue\0\0\0";

const NOWHERE: &[u8] =
    b"\xff\xd8\xff\xe1\0\x47Exif\0\0MM\0*\0\0\0\x08\0\x02\x01\x0e\0\x02\0\0\0\x07\0\0\0\x38\x88\x25\0\x04\0\0\0\x01\0\0\0\x26\0\0\0\0\0\0\0\0\0\0\0\0\0\0\0\0\0\0\0\0\0\0Sample\0";

const UNDESCRIBED: &[u8] =
    b"\xff\xd8\xff\xe1\0\x47Exif\0\0MM\0*\0\0\0\x08\0\x01\x88\x25\0\x04\0\0\0\x01\0\0\0\x26\0\0\0\0\0\0\0\0\0\0\0\0\0\0\0\0\0\x01\0\0\0\x01\0\0\0\x04\x02\x03\0\0\0\0\0\0\0\0\0\0\0\0\0";

const EMPTY: &[u8] =
    b"\xff\xd8\xff\xe1\0\x47Exif\0\0MM\0*\0\0\0\x08\0\0\0\0\0\0\0\0\0\0\0\0\0\0\0\0\0\0\0\0\0\0\0\0\0\0\0\0\0\0\0\0\0\0\0\0\0\0\0\0\0\0\0\0\0\0\0\0\0\0\0\0\0\0\0";

// Where the data begin.
const FRONT: usize = 12;

const LENGTH: usize = 75;

// A form of a call.
#[derive(Clone, Copy)]
enum Form {
    Data,
    DataPatches,
    File,
    FilePatches,
}

static FORMS: [Form; 4] = [Form::Data, Form::DataPatches, Form::File, Form::FilePatches];

// An edit of the file, in place or as patches.
fn edited(
    alloc: Global,
    form: Form,
    edit: &Edit,
    file: &mut [u8; LENGTH],
) -> Result<Vec<Patch>, Error> {
    match form {
        Form::Data => apply(alloc, edit, None, &mut file[FRONT..])?,
        Form::File => apply_in_file(alloc, edit, None, &mut file[..])?,
        Form::DataPatches => return patches_of(alloc, edit, None, &file[FRONT..]),
        Form::FilePatches => {
            return patches_in(alloc, edit, None, &mut Counted::new(&file[..]));
        }
    }
    Ok(Vec::new(alloc))
}

// Puts patches over the bytes that they count from.
fn put_all(bytes: &mut [u8], patches: &[Patch]) {
    for patch in patches {
        put(bytes, patch.offset as usize, patch.bytes.as_slice());
    }
}

// What an edit of the file comes to that is to give these bytes. An error leaves it as it was.
fn attempt(alloc: Global, form: Form, edit: &Edit, wanted: &[u8]) -> Outcome {
    let mut file = [0u8; LENGTH];
    put(&mut file[..], 0, FILE);
    let answer = edited(alloc, form, edit, &mut file);
    let begin = if matches!(form, Form::DataPatches) {
        FRONT
    } else {
        0
    };
    match answer {
        Ok(patches) => {
            put_all(&mut file[begin..], patches.as_slice());
            if &file[..] == wanted {
                Outcome::Right
            } else {
                Outcome::Wrong
            }
        }
        Err(error) => out_of_memory(error, &file[..] == FILE),
    }
}

// In how many calls memory runs out, in each form.
fn refusals(alloc: Global, edit: &Edit, wanted: &[u8]) -> Result<[u16; 4], Fail> {
    let mut counts = [0u16; 4];
    for (count, form) in counts.iter_mut().zip(FORMS.iter()) {
        *count = in_turn(alloc, || attempt(alloc, *form, edit, wanted))?;
    }
    Ok(counts)
}

// Whether memory runs out in each form of an edit that is to give these bytes.
fn runs_out(alloc: Global, edit: &Edit, wanted: &[u8]) -> Result<bool, Fail> {
    let counts = refusals(alloc, edit, wanted)?;
    Ok(counts.iter().all(|count| *count > 0))
}

// The same of a description that is set.
fn setting_runs_out(alloc: Global) -> Result<bool, Fail> {
    let edit = Edit::Set {
        tag: DESCRIPTION,
        ifd_num: In(0),
        value: text(alloc, b"Blue")?,
    };
    let answer = runs_out(alloc, &edit, SET);
    drop(edit);
    answer
}

#[test]
fn edits_run_out_of_memory(rt: HostRuntime) -> Result<(), Fail> {
    let alloc = rt.alloc();
    assert!(rt; setting_runs_out(alloc)?);
    assert!(rt; runs_out(alloc, &Edit::EraseGps, NOWHERE)?);
    let edit = Edit::EraseField {
        tag: DESCRIPTION,
        ifd_num: In(0),
    };
    assert!(rt; runs_out(alloc, &edit, UNDESCRIBED)?);
    Ok(())
}

#[test]
fn all_fields_of_data_are_erased_without_memory(rt: HostRuntime) -> Result<(), Fail> {
    let counts = refusals(rt.alloc(), &Edit::EraseAll, EMPTY)?;
    assert!(rt; counts[0] == 0);
    assert!(rt; counts.iter().skip(1).all(|count| *count > 0));
    Ok(())
}
