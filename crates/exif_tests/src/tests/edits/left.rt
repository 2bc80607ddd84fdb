//! GPS pointers that are not followed are reported: out of the data, or over a limit.

use exif_edit::leftovers;
use std::alloc::{AllocError, Global};
use std::test::Fail;

// A pointer of type IFD to offset 200.
const OUTSIDE: &[u8] = b"MM\0*\0\0\0\x08\0\x01\x88\x25\0\x0d\0\0\0\x01\0\0\0\xc8\0\0\0\0";

// Two pointers in one entry, to offsets 34 and 4000.
const ONE_OF_TWO: &[u8] =
    b"MM\0*\0\0\0\x08\0\x01\x88\x25\0\x04\0\0\0\x02\0\0\0\x1a\0\0\0\0\0\0\0\x22\0\0\x0f\xa0\0\x01\0\0\0\x01\0\0\0\x04\x02\x03\0\0\0\0\0\0";

// 256 SubIFDs, as many as are followed.
const MANY: &[u8] = b"MM\0*\0\0\0\x08\0\x01\x01\x4a\0\x04\0\0\x01\0\0\0\0\x1a\0\0\0\0";

// Whether the pointers that are left over are these, and whether there may be more.
fn are_left(alloc: Global, data: &[u8], pointers: &[u32], more: bool) -> bool {
    match leftovers(alloc, data) {
        Ok(left) => left.pointers.as_slice() == pointers && left.meets_limit == more,
        Err(_) => false,
    }
}

// Whether there may be more behind so many SubIFDs.
fn may_have_more(alloc: Global, count: usize) -> Result<bool, AllocError> {
    let mut data = Vec::from_slice(alloc, MANY)?;
    for _ in 0..count {
        data.extend_from_slice(b"\0\0\x27\x0f")?;
    }
    Ok(are_left(alloc, data.as_slice(), &[], true))
}

#[test]
fn pointers_that_are_not_followed(rt: HostRuntime) {
    assert!(rt; are_left(rt.alloc(), OUTSIDE, &[200], false));
    assert!(rt; are_left(rt.alloc(), ONE_OF_TWO, &[4000], false));
    assert!(rt; matches!(may_have_more(rt.alloc(), 256), Ok(true)));
    assert!(rt; matches!(may_have_more(rt.alloc(), 255), Ok(false)));
}
