//! The bytes of the Exif item, which are read from the file as far as its extents need.

ghost use Rattle.std.specs.Prelude.{◌≡◌, ◌<◌, ◌≤◌, ◌++◌, length, drop, None, Some, IfOk, IfErr, IfSome, OnOk, false};
ghost use Rattle.std.specs.Io.KnownBytes.{Keeps};
ghost use Rattle.exif_base.specs.Reads.{Counts};
ghost use Rattle.exif_base.specs.Told.{left_behind};
ghost use Rattle.exif_types.specs.Refusals.{Gives, IsInterrupted, is_io};
ghost use Rattle.exif_isobmff.specs.ItemLocations.{item_bytes, location_view};
ghost use Rattle.exif_isobmff.specs.HeifRefusals.{heif_refusals};
ghost use Rattle.exif_segments.specs.Answer.{IsNamed};
ghost use Rattle.exif_containers.specs.GoingBack.{MayGive};
ghost use Rattle.exif_containers.specs.HeifSteps.{OffsetIsReached, one_part};

use super::at::{read_at, read_front_at};
use super::front::read_whole;
use exif_base::Source;
use exif_isobmff::{Location, MAX_EXIF_SIZE, extent_front, item_bytes};
use exif_segments::util::{pass_over, read_rest, skip};
use exif_types::Error;
use std::alloc::Global;

// One byte more than an item may have.
const TOO_MANY: u64 = MAX_EXIF_SIZE as u64 + 1;

// The index of an offset of the file in the bytes that are kept, or none where the file ends before
// it. For an offset that was not read yet, the bytes before it are dropped.
fn reach<R: Source>(
    source: &mut R,
    bytes: &mut Vec<u8>,
    offset: u64,
) -> Result<Option<usize>, Error>
    ensures reached { IfOk result (λ start. OffsetIsReached offset start
        (R.left source.old) (R.left source.new) bytes.old.items bytes.new.items) }
    ensures start { IfOk result (λ start. IfSome start (λ at. at ≤ length bytes.new.items)) }
    ensures interrupted { IfErr result IsInterrupted }
    ensures counts { Counts R.Source source.old source.new (is_io result) }
{
    let read = bytes.len() as u64;
    if offset < read {
        return Ok(Some(offset as usize));
    }
    if !pass_over(source, offset - read)? {
        return Ok(None);
    }
    bytes.clear();
    Ok(Some(0))
}

// The bytes of an item of one extent, among those from its location on.
fn part_of(alloc: Global, len: u64, bytes: &[u8]) -> Result<Vec<u8>, Error>
    ensures gives { Gives (λ v. v.items) result (one_part len bytes.now) }
    ensures no_io { is_io result ≡ false }
{
    let part = extent_front(len, bytes)?;
    if part.len() > MAX_EXIF_SIZE {
        return Err(Error::InvalidFormat("Exif data too large"));
    }
    Ok(Vec::from_slice(alloc, part)?)
}

// The bytes of an item of one extent, which begins at this location.
//
// An extent that is too long is skipped: only whether the file reaches its end counts.
fn one_extent<R: Source>(
    alloc: Global,
    source: &mut R,
    front: Vec<u8>,
    offset: u64,
    len: u64,
) -> Result<Vec<u8>, Error>
    ensures gives { IfSome (R.left source.old) (λ rest. Gives (λ v. v.items) result
        (one_part len (drop offset (front.items ++ rest)))) }
    ensures named { IfErr result (IsNamed heif_refusals) }
    ensures counts { Counts R.Source source.old source.new (is_io result) }
{
    let mut bytes = front;
    let Some(start) = reach(source, &mut bytes, offset)? else {
        return part_of(alloc, len, &[]);
    };
    let at_hand = (bytes.len() - start) as u64;
    if len > TOO_MANY {
        skip(source, len.saturating_sub(at_hand), "Broken HEIF file")?;
        return Err(Error::InvalidFormat("Exif data too large"));
    }
    let wanted = if len == 0 { TOO_MANY } else { len };
    let _whole = read_whole(source, &mut bytes, wanted.saturating_sub(at_hand))?;
    part_of(alloc, len, &bytes[start..])
}

/// The bytes of an item in the file, where the front of the file was read.
///
/// An item of one extent is read by need. Else what is left of the file is read first.
pub fn bytes_in_file<R: Source>(
    alloc: Global,
    source: &mut R,
    front: Vec<u8>,
    location: &Location,
) -> Result<Vec<u8>, Error>
    requires { location.now.method ≡ 0 }
    ensures gives { IfSome (R.left source.old) (λ rest. Gives (λ v. v.items) result
        (item_bytes (front.items ++ rest) None (location_view location.now))) }
    ensures named { IfErr result (IsNamed heif_refusals) }
    ensures counts { Counts R.Source source.old source.new (is_io result) }
{
    if location.extents.len() != 1 {
        let mut file = front;
        read_rest(source, &mut file)?;
        let found = item_bytes(alloc, &file, None, location)?;
        return Ok(found);
    }
    let extent = location.extents[0];
    let Some(offset) = location.base.checked_add(extent.offset) else {
        return Err(Error::InvalidFormat("Invalid offset"));
    };
    one_extent(alloc, source, front, offset, extent.len)
}

// Why an item of one extent, which begins at this offset of the stream, is refused as too long: by
// its last byte, which is there or not.
fn long_extent_at<R: Source>(source: &mut R, at: u64, len: u64) -> Result<Option<Vec<u8>>, Error>
    requires { TOO_MANY < len }
    ensures gives { IfSome (left_behind (Some at) (R.stream source.old))
        (λ xs. MayGive (λ v. v.items) result (one_part len xs)) }
    ensures kept { OnOk result (Keeps (R.left source.old) (R.left source.new)) }
    ensures named { IfErr result (IsNamed heif_refusals) }
    ensures stream { R.stream source.new ≡ R.stream source.old }
    ensures counts { Counts R.Source source.old source.new (is_io result) }
{
    let Some(last) = at.checked_add(len - 1) else {
        return Ok(None);
    };
    let mut byte = [0; 1];
    let Some(n) = read_front_at(source, last, &mut byte)? else {
        return Ok(None);
    };
    if n == 0 {
        return Err(Error::InvalidFormat("Broken HEIF file"));
    }
    Err(Error::InvalidFormat("Exif data too large"))
}

// The bytes of an item of one extent, which begins at this offset of the stream.
fn extent_at<R: Source>(
    alloc: Global,
    source: &mut R,
    at: u64,
    len: u64,
) -> Result<Option<Vec<u8>>, Error>
    ensures gives { IfSome (left_behind (Some at) (R.stream source.old))
        (λ xs. MayGive (λ v. v.items) result (one_part len xs)) }
    ensures kept { OnOk result (Keeps (R.left source.old) (R.left source.new)) }
    ensures named { IfErr result (IsNamed heif_refusals) }
    ensures stream { R.stream source.new ≡ R.stream source.old }
    ensures counts { Counts R.Source source.old source.new (is_io result) }
{
    if len > TOO_MANY {
        return long_extent_at(source, at, len);
    }
    let wanted = if len == 0 { TOO_MANY } else { len };
    let Some(bytes) = read_at(alloc, source, at, wanted)? else {
        return Ok(None);
    };
    let part = part_of(alloc, len, &bytes)?;
    Ok(Some(part))
}

/// The bytes of an item in the file, which begins at `origin` of the stream, where it has one
/// extent and the source reads at an offset.
pub fn bytes_at<R: Source>(
    alloc: Global,
    source: &mut R,
    origin: u64,
    location: &Location,
) -> Result<Option<Vec<u8>>, Error>
    requires { location.now.method ≡ 0 }
    ensures gives { IfSome (left_behind (Some origin) (R.stream source.old)) (λ file.
        MayGive (λ v. v.items) result (item_bytes file None (location_view location.now))) }
    ensures kept { OnOk result (Keeps (R.left source.old) (R.left source.new)) }
    ensures named { IfErr result (IsNamed heif_refusals) }
    ensures stream { R.stream source.new ≡ R.stream source.old }
    ensures counts { Counts R.Source source.old source.new (is_io result) }
{
    if location.extents.len() != 1 {
        return Ok(None);
    }
    let extent = location.extents[0];
    let Some(offset) = location.base.checked_add(extent.offset) else {
        return Err(Error::InvalidFormat("Invalid offset"));
    };
    let Some(at) = origin.checked_add(offset) else {
        return Ok(None);
    };
    extent_at(alloc, source, at, extent.len)
}
