//! The locations in Exif data.

ghost use Rattle.std.specs.Prelude.{◌≡◌, IfOk};
ghost use Rattle.exif_data_locations.specs.Erasing.{fields_erased, gps_erased};
ghost use Rattle.exif_data_locations.specs.Known.{IsLocated};
ghost use Rattle.exif_data_locations.specs.Locations.{data_erased};
ghost use Rattle.exif_data_locations.specs.Thumbnails.{thumbnail_erased};

use crate::erase::{ENTRY_LIMIT, erase_all};
use crate::gps::unchanged;
use crate::reason::Reason;
use crate::thumbnail::erase_thumbnail;
use exif_edit_base::limit::locate_within;
use exif_edit_base::{Error, Located};
use exif_locations::Unread;
use std::alloc::{AllocError, Global};

// Erases the locations in data that were located, and then those in their thumbnail.
fn erase_with_thumbnail(
    alloc: Global,
    unread: Unread,
    bytes: &mut [u8],
    located: Located,
) -> Result<Vec<Reason>, AllocError>
    requires { IsLocated bytes.old located }
    ensures { IfOk result (λ whys. (bytes.new, whys.items)
        ≡ thumbnail_erased unread (fields_erased unread (gps_erased bytes.old))) }
{
    let (mut whys, parsed) = erase_all(alloc, unread, bytes, located)?;
    erase_thumbnail(alloc, unread, bytes, parsed, &mut whys)?;
    Ok(whys)
}

/// Erases the locations in Exif data, in place, and answers why there may still be one. A TIFF file
/// is Exif data, too.
///
/// Erased are the GPS data, as [`exif_edit::Edit::EraseGps`] does; the locations in the XMP packet
/// of tag 700, in the IPTC data of tag 33723, and in both where the resources of Photoshop of tag
/// 34377 have them; and the values of the tags of GeoTIFF. All other bytes stay, and so do all
/// these but for GPS data where the data would not be read as before then, because bytes have two
/// uses. XMP and IPTC that can't be read stay and are answered, or are overwritten, as `unread`
/// says. Data with more than 1,000,000 entries stay whole.
///
/// The thumbnail is a JPEG stream, which may have Exif data, XMP and IPTC data of its own (Exif
/// 2.32, 4.5.8). Their locations are erased, too, unless the data would not be read as before then.
/// What else it holds that may say a location has one reason together. A thumbnail that its Exif
/// data have in turn is not looked at.
///
/// It takes the memory of two readings and of a copy of the data, and so for the thumbnail. Out of
/// memory leaves the data as they were, or with some of their locations erased.
pub fn erase_locations(
    alloc: Global,
    unread: Unread,
    bytes: &mut [u8],
) -> Result<Vec<Reason>, AllocError>
    ensures { IfOk result (λ whys. (bytes.new, whys.items) ≡ data_erased unread bytes.old) }
{
    match locate_within(alloc, bytes, Some(ENTRY_LIMIT)) {
        Ok(located) => erase_with_thumbnail(alloc, unread, bytes, located),
        Err(Error::Header(_)) => Ok(unchanged(alloc)?),
        Err(_) => Err(AllocError),
    }
}
