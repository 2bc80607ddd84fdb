//! Whether two files have the same bytes.

ghost use Rattle.std.specs.Prelude.{◌≡◌, IfOk, IfSome, None, Ok, false, is_some, length, take};
ghost use Rattle.exif_rename_commands.specs.Same.{IsAnswer, IsStep, is_last, known_by, may_be_same};

use crate::gathering::is_told;
use exif_base::read::read_front;
use exif_base::{Counted, Source};
use std::alloc::Global;
use std::fs::{self, File};
use std::io::{self, ErrorKind};

// How many bytes of two files are compared at a time.
const BLOCK: usize = 1 << 18;

/// Whether a path is that of a regular file, and no link, with the bytes of another file; not where
/// one can't be read.
pub fn is_same(rt: &HostRuntime, a: &str, b: &str) -> bool {
    is_told(compare(rt, a, b))
}

// Whether a path is that of a regular file with the same bytes. Lengths are compared first.
fn compare(rt: &HostRuntime, a: &str, b: &str) -> io::Result<bool> {
    let (old, there) = (fs::metadata(rt, a)?, fs::symlink_metadata(rt, b)?);
    let may_be = may_be_same(there.is_file(), old.len(), there.len());
    compare_opened(rt.alloc(), open_both(rt, a, b, may_be)?)
}

// Whether two files may have the same bytes: the second is a regular one, as long as the first.
fn may_be_same(is_file: bool, old: u64, there: u64) -> bool
    ensures { result ≡ may_be_same is_file old there }
{
    is_file && old == there
}

// Two files, opened where they may have the same bytes.
fn open_both(
    rt: &HostRuntime,
    a: &str,
    b: &str,
    may_be_same: bool,
) -> io::Result<Option<(Counted<File>, Counted<File>)>>
    ensures { IfOk result (λ opened. is_some opened ≡ may_be_same) }
{
    if !may_be_same {
        return Ok(None);
    }
    let (old, there) = (File::open(rt, a)?, File::open(rt, b)?);
    Ok(Some((Counted::new(old), Counted::new(there))))
}

// Whether two sources give the same bytes: not where they were not opened.
fn compare_opened<A: Source + Drop, B: Source + Drop>(
    alloc: Global,
    opened: Option<(A, B)>,
) -> io::Result<bool>
    ensures unopened { opened ≡ None → result ≡ Ok false }
    ensures same { IfSome opened (λ both.
        IfOk result (IsAnswer (A.left both.0) (B.left both.1))) }
{
    match opened {
        Some((mut a, mut b)) => have_same_bytes(alloc, &mut a, &mut b),
        None => Ok(false),
    }
}

// Whether two sources give the same bytes.
fn have_same_bytes<A: Source, B: Source>(alloc: Global, a: &mut A, b: &mut B) -> io::Result<bool>
    ensures { IfOk result (IsAnswer (A.left a.old) (B.left b.old)) }
{
    let mut left = vec![in alloc; 0u8; BLOCK]?;
    let mut right = vec![in alloc; 0u8; BLOCK]?;
    compare_blocks(a, b, left.as_mut_slice(), right.as_mut_slice())
}

// Whether two sources give the same bytes, by blocks of one length.
fn compare_blocks<A: Source, B: Source>(
    a: &mut A,
    b: &mut B,
    left: &mut [u8],
    right: &mut [u8],
) -> io::Result<bool>
    ensures { length left.old ≡ length right.old
        → IfOk result (IsAnswer (A.left a.old) (B.left b.old)) }
{
    for _ in 0..u64::MAX {
        if let Some(same) = compare_next(a, b, left, right)? {
            return Ok(same);
        }
    }
    Err(io::Error::from(ErrorKind::OutOfMemory))
}

// Whether two sources give the same bytes, by the next blocks of them: not known where the blocks
// are the same, and more may follow. The blocks are of one length.
fn compare_next<A: Source, B: Source>(
    a: &mut A,
    b: &mut B,
    left: &mut [u8],
    right: &mut [u8],
) -> io::Result<Option<bool>>
    ensures { length left.old ≡ length right.old → IfOk result (λ known. IsStep known
        (A.left a.old) (B.left b.old) (A.left a.new) (B.left b.new)) }
{
    let n = read_front(a, left)?;
    let m = read_front(b, right)?;
    let is_last = is_last(n, left.len(), m, right.len());
    Ok(known_by(front_of(left, n), front_of(right, m), is_last))
}

// Whether nothing follows two blocks, by how many bytes were read into each, and its length.
fn is_last(n: usize, left: usize, m: usize, right: usize) -> bool
    ensures { result ≡ is_last n left m right }
{
    n < left && m < right
}

// Whether two files are the same by blocks of them, before which they are: not known where the
// blocks are, and more may follow.
fn known_by(left: &[u8], right: &[u8], is_last: bool) -> Option<bool>
    ensures { result ≡ known_by left.now right.now is_last }
{
    if left != right {
        Some(false)
    } else if is_last {
        Some(true)
    } else {
        None
    }
}

// The first bytes, so many.
fn front_of(bytes: &[u8], n: usize) -> &[u8]
    ensures { result.now ≡ take n bytes.now }
{
    if n < bytes.len() { &bytes[..n] } else { bytes }
}
