//! The locations in Exif data, but for those in their thumbnail.

ghost use Rattle.std.specs.Prelude.{◌≡◌, ◌<◌, ◌^◌, length, All, IfOk, OnOk};
ghost use Rattle.exif_data_locations.specs.Erasing.{checked, fields_erased, gps_erased, has_number, if_read, own_erased, read_erased, unread_noted};
ghost use Rattle.exif_data_locations.specs.Known.{IsLocated, MayBeLocated, MayBeRead};
ghost use Rattle.exif_data_locations.specs.Regions.{LiesIn, regions_erased};
ghost use Rattle.exif_data_locations.specs.Wanted.{wanted};
ghost use Rattle.exif_edit_base.specs.Readings.{read_of};

use crate::field::regions_of;
use crate::gps::{erase_gps, unchanged};
use crate::reason::{Reason, note_if};
use crate::region::{Region, erase_regions};
use crate::stream::stores_streams;
use crate::text::note_texts;
use crate::wanted::set_all_wanted;
use exif_edit_base::limit::locate_within;
use exif_edit_base::read::{locate, order_named, reads_as};
use exif_edit_base::{EntryOffset, Error, Located};
use exif_locations::Unread;
use exif_tiff::stop::Stop;
use exif_tiff::tiff::Parsed;
use exif_types::Field;
use std::alloc::{AllocError, Global};

/// How many entries are read at most.
pub const ENTRY_LIMIT: u64 = 1_000_000;

// Whether a field has this number in its tag.
fn has_number(number: u16, fields: &[Field]) -> bool
    ensures { result ≡ has_number number fields.now }
{
    for field in fields {
        if field.tag.1 == number {
            return true;
        }
    }
    false
}

// Notes why what was not read may be a location.
fn note_unread(parsed: &Parsed, whys: &mut Vec<Reason>) -> Result<(), AllocError>
    ensures { OnOk result (whys.new.items
        ≡ unread_noted (read_of parsed.now) whys.old.items) }
{
    let fields = parsed.fields.as_slice();
    note_if(!parsed.faults.is_empty(), Reason::NotReadWhole, whys)?;
    note_if(has_number(330, fields), Reason::SubIfdsNotRead, whys)?;
    note_if(has_number(37500, fields), Reason::MakerNote, whys)?;
    note_if(stores_streams(fields), Reason::StreamsNotSearched, whys)?;
    note_texts(fields, whys)
}

// Puts new data over the old ones, if they are read as it is wanted.
fn put_if_read(
    alloc: Global,
    bytes: &mut [u8],
    new: &[u8],
    entries: &[EntryOffset],
    mut parsed: Parsed,
    whys: &mut Vec<Reason>,
) -> Result<(), AllocError>
    requires long { length new.now ≡ length bytes.old }
    requires small { length bytes.old < 2 ^ 32 }
    ensures { OnOk result ((bytes.new, whys.new.items)
        ≡ if_read (read_of parsed) entries.now bytes.old (new.now, whys.old.items)) }
{
    let order = order_named(parsed.little_endian);
    set_all_wanted(
        alloc,
        order,
        bytes,
        new,
        entries,
        parsed.fields.as_mut_slice(),
    )?;
    if reads_as(alloc, new, &parsed)? {
        bytes.copy_from_slice(new);
    } else {
        whys.push(Reason::Shared)?;
    }
    Ok(())
}

// Erases the locations of regions, if the data are read as it is wanted then, and answers what is
// read of the new data if there are no regions.
fn erase_checked(
    alloc: Global,
    unread: Unread,
    bytes: &mut [u8],
    regions: &[Region],
    located: Located,
    whys: &mut Vec<Reason>,
) -> Result<Option<Parsed>, AllocError>
    requires within { All (LiesIn (length bytes.old)) regions.now }
    requires located { IsLocated bytes.old located }
    ensures erased { OnOk result ((bytes.new, whys.new.items) ≡ checked unread
        (read_of located.parsed) located.walk.entries bytes.old regions.now whys.old.items) }
    ensures read { IfOk result (λ parsed. MayBeRead bytes.new parsed) }
{
    let Located { parsed, walk } = located;
    if regions.is_empty() {
        return Ok(Some(parsed));
    }
    let mut new = Vec::from_slice(alloc, bytes)?;
    erase_regions(unread, new.as_mut_slice(), regions, whys)?;
    put_if_read(alloc, bytes, new.as_slice(), walk.entries(), parsed, whys)?;
    Ok(None)
}

// Erases the locations of fields of data that were located, and answers what is read of the new
// data, if that is known.
fn erase_located(
    alloc: Global,
    unread: Unread,
    bytes: &mut [u8],
    located: Located,
    whys: &mut Vec<Reason>,
) -> Result<Option<Parsed>, AllocError>
    requires { IsLocated bytes.old located }
    ensures erased { OnOk result ((bytes.new, whys.new.items) ≡ read_erased unread
        (read_of located.parsed) located.walk.entries bytes.old whys.old.items) }
    ensures read { IfOk result (λ parsed. MayBeRead bytes.new parsed) }
{
    let order = order_named(located.parsed.little_endian);
    let fields = located.parsed.fields.as_slice();
    let regions = regions_of(alloc, order, bytes, fields, located.walk.entries())?;
    note_unread(&located.parsed, whys)?;
    erase_checked(alloc, unread, bytes, regions.as_slice(), located, whys)
}

// Erases the locations of fields, and answers what is read of the new data, if that is known.
fn erase_fields(
    alloc: Global,
    unread: Unread,
    bytes: &mut [u8],
    located: Option<Located>,
    whys: &mut Vec<Reason>,
) -> Result<Option<Parsed>, AllocError>
    requires { MayBeLocated bytes.old located }
    ensures erased { OnOk result ((bytes.new, whys.new.items)
        ≡ fields_erased unread (bytes.old, whys.old.items)) }
    ensures read { IfOk result (λ parsed. MayBeRead bytes.new parsed) }
{
    if let Some(located) = located {
        return erase_located(alloc, unread, bytes, located, whys);
    }
    match locate(alloc, bytes) {
        Ok(located) => erase_located(alloc, unread, bytes, located, whys),
        Err(Stop::Fault(_)) => Ok(None),
        Err(Stop::OutOfMemory) => Err(AllocError),
    }
}

/// Erases GPS data and the locations of fields of data that were located, and answers why some may
/// be left; and what is read of the new data, if that is known.
pub fn erase_all(
    alloc: Global,
    unread: Unread,
    bytes: &mut [u8],
    located: Located,
) -> Result<(Vec<Reason>, Option<Parsed>), AllocError>
    requires { IsLocated bytes.old located }
    ensures erased { IfOk result (λ r. (bytes.new, r.0.items)
        ≡ fields_erased unread (gps_erased bytes.old)) }
    ensures read { IfOk result (λ r. MayBeRead bytes.new r.1) }
{
    let (mut whys, located) = erase_gps(alloc, bytes, located)?;
    let parsed = erase_fields(alloc, unread, bytes, located, &mut whys)?;
    Ok((whys, parsed))
}

/// Erases the locations in Exif data but for those in their thumbnail, and answers why there may
/// still be one; and what is read of the new data, if that is known. Data with too many entries
/// stay whole.
pub fn erase_own(
    alloc: Global,
    unread: Unread,
    bytes: &mut [u8],
) -> Result<(Vec<Reason>, Option<Parsed>), AllocError>
    ensures erased { IfOk result (λ r. (bytes.new, r.0.items) ≡ own_erased unread bytes.old) }
    ensures read { IfOk result (λ r. MayBeRead bytes.new r.1) }
{
    match locate_within(alloc, bytes, Some(ENTRY_LIMIT)) {
        Ok(located) => erase_all(alloc, unread, bytes, located),
        Err(Error::Header(_)) => Ok((unchanged(alloc)?, None)),
        Err(_) => Err(AllocError),
    }
}
