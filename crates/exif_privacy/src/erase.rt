//! The locations in a file.

ghost use Rattle.std.specs.Prelude.{◌≡◌, [], ◌∷◌, ◌++◌, All, length, map, IfOk, OnOk};
ghost use Rattle.std.specs.Option.{option_map};
ghost use Rattle.exif_inventory.specs.Promises.{EndsIn};
ghost use Rattle.exif_privacy.specs.Erasing.{erased, erased_by, first_erased, found, found_in, joined_erased, next_erased, part_erased, parts_erased, stays_for};
ghost use Rattle.exif_privacy.specs.Files.{parts_of};
ghost use Rattle.exif_privacy.specs.Chunks.{mended};
ghost use Rattle.exif_privacy.specs.Promises.{AllElseStays, AllSearched, OthersStay, OthersStayIn};

use crate::chunks::mend_parts;
use crate::part::erase_part;
use crate::parts::parts_of;
use crate::portions::{join, joined_len, put_back};
use crate::reasons::Reasons;
use crate::remaining::{Reason, Remaining};
use exif_containers::png::is_png;
use exif_inventory::{Kind, Part};
use exif_locations::Unread;
use std::alloc::{AllocError, Global};

// Erases the locations in one part of a file.
fn erase_in_part(
    alloc: Global,
    unread: Unread,
    file: &mut [u8],
    part: Part,
) -> Result<(), AllocError>
    requires { EndsIn (length file.old) part }
    ensures value { OnOk result (file.new ≡ part_erased unread part file.old) }
    ensures others { OthersStay (part ∷ []) file.old file.new }
{
    let end = part.data_offset + part.data_len;
    let bytes = &mut file[part.data_offset..end];
    erase_part(alloc, unread, part.kind, bytes)?;
    Ok(())
}

// Erases the locations in the extended XMP packet whose portions are in these parts.
fn erase_joined(
    alloc: Global,
    unread: Unread,
    file: &mut [u8],
    parts: &[Part],
) -> Result<(), AllocError>
    requires inside { All (EndsIn (length file.old)) parts.now }
    requires searched { AllSearched parts.now }
    ensures value { OnOk result (file.new ≡ joined_erased unread parts.now file.old) }
    ensures others { OthersStay parts.now file.old file.new }
{
    let mut packet = join(alloc, file, parts)?;
    erase_part(alloc, unread, Kind::Xmp, packet.as_mut_slice())?;
    put_back(file, parts, packet.as_slice());
    Ok(())
}

// Erases the locations in the first of these parts, and answers how many more these are of.
fn erase_first(
    alloc: Global,
    unread: Unread,
    file: &mut [u8],
    parts: &[Part],
) -> Result<usize, AllocError>
    requires { All (EndsIn (length file.old)) parts.now }
    ensures value { IfOk result (λ left. (file.new, left)
        ≡ first_erased unread parts.now file.old) }
    ensures others { OthersStay parts.now file.old file.new }
{
    let Some(first) = parts.first() else {
        return Ok(0);
    };
    let joined = joined_len(file, parts);
    if joined == 0 {
        erase_in_part(alloc, unread, file, *first)?;
        return Ok(0);
    }
    erase_joined(alloc, unread, file, &parts[..joined])?;
    Ok(joined - 1)
}

// So behind a packet that goes on in so many parts.
fn erase_next(
    alloc: Global,
    unread: Unread,
    file: &mut [u8],
    left: usize,
    parts: &[Part],
) -> Result<usize, AllocError>
    requires { All (EndsIn (length file.old)) parts.now }
    ensures value { IfOk result (λ next. (file.new, next)
        ≡ next_erased unread left parts.now file.old) }
    ensures others { OthersStay parts.now file.old file.new }
{
    match left {
        0 => erase_first(alloc, unread, file, parts),
        left => Ok(left - 1),
    }
}

// Erases the locations in all these parts.
fn erase_parts(
    alloc: Global,
    unread: Unread,
    file: &mut [u8],
    parts: &[Part],
) -> Result<(), AllocError>
    requires { All (EndsIn (length file.old)) parts.now }
    ensures value { OnOk result (file.new ≡ parts_erased unread 0 parts.now file.old) }
    ensures others { OthersStay parts.now file.old file.new }
{
    let mut left = 0;
    for index in 0..parts.len() {
        left = erase_next(alloc, unread, file, left, &parts[index..])?;
    }
    Ok(())
}

// Erases the locations in all these parts, and mends the CRCs of chunks.
fn erase_and_mend(
    alloc: Global,
    unread: Unread,
    file: &mut [u8],
    parts: &[Part],
) -> Result<(), AllocError>
    requires { All (EndsIn (length file.old)) parts.now }
    ensures value { OnOk result (file.new
        ≡ mended file.old parts.now (parts_erased unread 0 parts.now file.old)) }
    ensures others { AllElseStays parts.now file.old file.new }
{
    if !is_png(file) {
        return erase_parts(alloc, unread, file, parts);
    }
    let old = Vec::from_slice(alloc, file)?;
    let erased = erase_parts(alloc, unread, file, parts);
    mend_parts(old.as_slice(), parts, file);
    erased
}

// Erases the locations in all parts of a file.
fn erase_all(alloc: Global, unread: Unread, file: &mut [u8]) -> Result<(), AllocError>
    ensures value { OnOk result (file.new
        ≡ erased_by unread file.old (parts_of file.old)) }
    ensures others { OthersStayIn (parts_of file.old) file.old file.new }
{
    match parts_of(alloc, file)? {
        Some(parts) => erase_and_mend(alloc, unread, file, parts.as_slice()),
        None => Ok(()),
    }
}

// Notes that a part may hold a location, for each reason.
fn note_all(part: Part, whys: &[Reason], stays: &mut Vec<Remaining>) -> Result<(), AllocError>
    ensures { OnOk result (stays.new.items ≡ stays.old.items ++ map (stays_for part) whys.now) }
{
    for why in whys {
        stays.push(Remaining { part, why: *why })?;
    }
    Ok(())
}

// These parts of a file that may hold a location.
fn find(
    alloc: Global,
    unread: Unread,
    file: &[u8],
    parts: &[Part],
) -> Result<Vec<Remaining>, AllocError>
    requires { All (EndsIn (length file.now)) parts.now }
    ensures { IfOk result (λ stays. stays.items ≡ found unread file.now parts.now) }
{
    let mut stays = Vec::new(alloc);
    let mut reasons = Reasons::none(alloc);
    for (index, part) in parts.iter().enumerate() {
        reasons = reasons.next(alloc, unread, file, &parts[index..])?;
        note_all(*part, reasons.whys.as_slice(), &mut stays)?;
    }
    Ok(stays)
}

// The parts of a file that may hold a location.
fn find_all(
    alloc: Global,
    unread: Unread,
    file: &[u8],
) -> Result<Option<Vec<Remaining>>, AllocError>
    ensures { IfOk result (λ stays. option_map (λ v. v.items) stays
        ≡ found_in unread file.now) }
{
    match parts_of(alloc, file)? {
        Some(parts) => Ok(Some(find(alloc, unread, file, parts.as_slice())?)),
        None => Ok(None),
    }
}

/// Erases the locations in a JPEG, WebP, HEIF, PNG, JPEG XL or TIFF file, in place, and answers the
/// parts that may still hold one, in their order: `None` for a file of another format, which stays
/// as it is. A part is answered for each reason why it may. A TIFF file is one part, of Exif data.
///
/// Erased are the locations of each part with Exif data, as
/// [`exif_data_locations::erase_locations`] does, the properties of XMP packets and the datasets of
/// IPTC data that name a location. The portions of an extended XMP packet are joined for this, if
/// they follow one another and are all there. Of all other parts no byte changes. Chunks of a PNG
/// file that were changed get their new CRC. What can't be
/// read stays and is answered, or is overwritten, as `unread` says. Comments, trailers, content
/// credentials, other parts of long XMP packets, and segments and chunks that are not known stay
/// and are answered, unless they are zeros; so do texts and keywords.
///
/// What is answered is what is found in the new file. It takes the memory of two copies of the
/// longest part with Exif, XMP or IPTC data, or of the longest extended packet, and of a copy of a
/// PNG file. Out of memory leaves
/// each part as it was, or with some of its locations erased.
pub fn erase_locations(
    alloc: Global,
    file: &mut [u8],
    unread: Unread,
) -> Result<Option<Vec<Remaining>>, AllocError>
    ensures value { IfOk result (λ stays. (file.new, option_map (λ v. v.items) stays)
        ≡ erased unread file.old) }
    ensures others { OthersStayIn (parts_of file.old) file.old file.new }
{
    erase_all(alloc, unread, file)?;
    find_all(alloc, unread, file)
}
