//! Strips and tiles, and the picture of a directory.

ghost use Rattle.std.specs.Prelude.{◌≡◌, ◌<◌, ◌^◌};
ghost use Rattle.exif_base.specs.Orders.{number_of};
ghost use Rattle.exif_scrub.specs.Keeping.{Puts};
ghost use Rattle.exif_scrub.specs.Pictures.{is_jpeg_stored, picture_stored, picture_visited, strips_from, strips_visited};

use crate::tiff::bytes::{Old, visit_stretch};
use crate::tiff::entry::{count_of, entry_named, item_at};
use crate::tiff::fault::Fault;
use crate::tiff::pass::{Handling, Pass};
use crate::tiff::tags::is_jpeg_compression;

// Whether the strips and tiles of a directory are JPEG streams.
fn is_jpeg_stored(old: Old<'_>, count: u16, first: u64) -> Result<bool, Fault>
    requires { first < 2 ^ 61 }
    ensures { result
        ≡ is_jpeg_stored (number_of old.entry.order) old.entry.bytes.now count first }
{
    match entry_named(old, count, first, 259)? {
        Some(entry) => Ok(is_jpeg_compression(item_at(old, entry, 0)?)),
        None => Ok(false),
    }
}

// What a walk does with so many strips, whose offsets and lengths two entries have.
fn visit_strips(
    old: Old<'_>,
    how: Handling,
    count: u32,
    offsets: u64,
    lengths: u64,
    new: &mut [u8],
) -> Result<(), Fault>
    requires offsets { offsets < 2 ^ 62 }
    requires lengths { lengths < 2 ^ 62 }
    ensures { Puts result new.new (strips_from (number_of old.entry.order)
        old.entry.bytes.now how offsets lengths count 0 new.old) }
{
    for index in 0..count {
        let at = u64::from(item_at(old, offsets, index)?);
        let len = u64::from(item_at(old, lengths, index)?);
        visit_stretch(old.bytes, how, at, len, new)?;
    }
    Ok(())
}

// The same of what two tags of a directory name by offsets and lengths, if it has them.
fn visit_named(
    old: Old<'_>,
    how: Handling,
    count: u16,
    first: u64,
    tags: (u16, u16),
    new: &mut [u8],
) -> Result<(), Fault>
    requires { first < 2 ^ 61 }
    ensures { Puts result new.new (strips_visited (number_of old.entry.order)
        old.entry.bytes.now how count first tags.0 tags.1 new.old) }
{
    let Some(offsets) = entry_named(old, count, first, tags.0)? else {
        return Ok(());
    };
    let Some(lengths) = entry_named(old, count, first, tags.1)? else {
        return Err(Fault::Broken);
    };
    let strips = count_of(old, offsets)?;
    if count_of(old, lengths)? != strips {
        return Err(Fault::Broken);
    }
    visit_strips(old, how, strips, offsets, lengths, new)
}

// What a walk does with the strips and tiles of a directory, which may be JPEG streams, and with
// its own stream.
fn visit_stored(
    old: Old<'_>,
    how: Handling,
    count: u16,
    first: u64,
    new: &mut [u8],
) -> Result<(), Fault>
    requires { first < 2 ^ 61 }
    ensures { Puts result new.new (picture_stored (number_of old.entry.order) old.entry.bytes.now
        how.pass count first how.is_stream new.old) }
{
    visit_named(old, how, count, first, (273, 279), new)?;
    visit_named(old, how, count, first, (324, 325), new)?;
    let stream = Handling {
        pass: how.pass,
        is_stream: true,
    };
    visit_named(old, stream, count, first, (513, 514), new)
}

/// What a walk does with the strips, the tiles and the JPEG stream of a directory with so many
/// entries.
pub fn visit_picture(
    old: Old<'_>,
    pass: Pass,
    count: u16,
    first: u64,
    new: &mut [u8],
) -> Result<(), Fault>
    requires { first < 2 ^ 61 }
    ensures { Puts result new.new
        (picture_visited (number_of old.entry.order) old.entry.bytes.now pass count first new.old) }
{
    let is_stream = is_jpeg_stored(old, count, first)?;
    visit_stored(old, Handling { pass, is_stream }, count, first, new)
}
