//! The locations in one part of a file.

ghost use Rattle.std.specs.Prelude.{◌≡◌, ◌∷◌, drop, false, IfOk, map};
ghost use Rattle.std.specs.Option.{option_to_list};
ghost use Rattle.exif_privacy.specs.Parts.{changed_reasons, exif_reasons, in_exif, iptc_answer, iptc_judged, part_answer, part_reasons, unjudged, version_reasons, xmp_answer, xmp_judged};
ghost use Rattle.exif_data_locations.specs.Regions.{all_zero};
ghost use Rattle.exif_privacy.specs.Promises.{is_searched};
ghost use Rattle.exif_data_locations.specs.Locations.{data_erased};

use crate::remaining::Reason;
use exif_inventory::Kind;
use exif_locations::texts::{iptc_has_texts, xmp_has_texts};
use exif_locations::{Unread, unread};
use std::alloc::{AllocError, Global};

// A reason, if there is one.
fn listed(alloc: Global, why: Option<Reason>) -> Result<Vec<Reason>, AllocError>
    ensures { IfOk result (λ whys. whys.items ≡ option_to_list why) }
{
    let mut whys = Vec::new(alloc);
    if let Some(why) = why {
        whys.push(why)?;
    }
    Ok(whys)
}

// Erases the locations of an XMP packet.
fn erase_xmp(bytes: &mut [u8], unread: Unread) -> Option<Reason>
    ensures { (bytes.new, result) ≡ xmp_answer unread bytes.old }
{
    match unread::erase_xmp(unread, bytes) {
        Some(fault) => Some(Reason::XmpNotRead(fault)),
        None => None,
    }
}

// Erases the locations of IPTC data.
fn erase_iptc(bytes: &mut [u8], unread: Unread) -> Option<Reason>
    ensures { (bytes.new, result) ≡ iptc_answer unread bytes.old }
{
    match unread::erase_iptc(unread, bytes) {
        Some(fault) => Some(Reason::IptcNotRead(fault)),
        None => None,
    }
}

// Erases the locations of an XMP packet, which may hold texts.
fn judge_xmp(bytes: &mut [u8], unread: Unread) -> Option<Reason>
    ensures { (bytes.new, result) ≡ xmp_judged unread bytes.old }
{
    match erase_xmp(bytes, unread) {
        None if xmp_has_texts(bytes) => Some(Reason::Texts),
        why => why,
    }
}

// The same of IPTC data.
fn judge_iptc(bytes: &mut [u8], unread: Unread) -> Option<Reason>
    ensures { (bytes.new, result) ≡ iptc_judged unread bytes.old }
{
    match erase_iptc(bytes, unread) {
        None if iptc_has_texts(bytes) => Some(Reason::Texts),
        why => why,
    }
}

// The reasons of Exif data as those of a part.
fn all_in_exif(
    alloc: Global,
    whys: &[exif_data_locations::Reason],
) -> Result<Vec<Reason>, AllocError>
    ensures { IfOk result (λ all. all.items ≡ map Reason.InExif whys.now) }
{
    whys.iter().map(|why| Reason::InExif(*why)).collect(alloc)
}

// Erases the locations of Exif data.
fn erase_exif(alloc: Global, unread: Unread, bytes: &mut [u8]) -> Result<Vec<Reason>, AllocError>
    ensures { IfOk result (λ whys. (bytes.new, whys.items)
        ≡ in_exif (data_erased unread bytes.old)) }
{
    let whys = exif_data_locations::erase_locations(alloc, unread, bytes)?;
    all_in_exif(alloc, whys.as_slice())
}

// Whether all bytes are zero.
fn all_zero(bytes: &[u8]) -> bool
    ensures { result ≡ all_zero bytes.now }
{
    bytes.iter().all(|b| *b == 0)
}

// Why data that are not looked at may hold a location.
fn unjudged(bytes: &[u8]) -> Option<Reason>
    ensures { result ≡ unjudged bytes.now }
{
    if all_zero(bytes) {
        None
    } else {
        Some(Reason::NotJudged)
    }
}

// The same of those behind so many.
fn unjudged_behind(n: usize, bytes: &[u8]) -> Option<Reason>
    ensures { result ≡ unjudged (drop n bytes.now) }
{
    match bytes.get(n..) {
        Some(rest) => unjudged(rest),
        None => None,
    }
}

/// Erases the locations in the data of a part, and answers why it may still hold one.
pub fn erase_part(
    alloc: Global,
    unread: Unread,
    kind: Kind,
    bytes: &mut [u8],
) -> Result<Vec<Reason>, AllocError>
    ensures value { IfOk result (λ whys. (bytes.new, whys.items)
        ≡ part_answer unread kind bytes.old) }
    ensures others { is_searched kind ≡ false → bytes.new ≡ bytes.old }
{
    match kind {
        Kind::Exif | Kind::PhotoshopExif => erase_exif(alloc, unread, bytes),
        Kind::Xmp | Kind::PhotoshopXmp => listed(alloc, judge_xmp(bytes, unread)),
        Kind::Iptc => listed(alloc, judge_iptc(bytes, unread)),
        Kind::Jfif => listed(alloc, unjudged_behind(14, bytes)),
        Kind::Adobe => listed(alloc, unjudged_behind(12, bytes)),
        Kind::JfifThumbnail
        | Kind::PhotoshopOther
        | Kind::ExtendedXmp
        | Kind::Comment
        | Kind::ContentCredentials
        | Kind::Trailer
        | Kind::Unknown
        | Kind::Broken => listed(alloc, unjudged(bytes)),
        Kind::Picture | Kind::Photoshop | Kind::IccProfile | Kind::MultiPicture => {
            listed(alloc, None)
        }
    }
}

// Why Exif data whose GPS data are no version alone may hold a location, by a copy of them.
fn exif_reasons(alloc: Global, unread: Unread, bytes: &[u8]) -> Result<Vec<Reason>, AllocError>
    ensures { IfOk result (λ whys. whys.items ≡ exif_reasons unread bytes.now) }
{
    let mut new = Vec::from_slice(alloc, bytes)?;
    let whys = erase_exif(alloc, unread, &mut new)?;
    if new.as_slice() == bytes {
        Ok(whys)
    } else {
        listed(alloc, Some(Reason::StillThere))
    }
}

// Those of Exif data without the version of their GPS data, behind the reason of that.
fn behind_version(alloc: Global, unread: Unread, bytes: &[u8]) -> Result<Vec<Reason>, AllocError>
    ensures { IfOk result (λ whys. whys.items ≡ Reason.GpsVersion ∷ exif_reasons unread bytes.now) }
{
    let whys = exif_reasons(alloc, unread, bytes)?;
    let mut all = listed(alloc, Some(Reason::GpsVersion))?;
    all.extend_from_slice(whys.as_slice())?;
    Ok(all)
}

// Why data of this kind that would change may hold a location.
fn changed_reasons(
    alloc: Global,
    unread: Unread,
    kind: Kind,
    bytes: &[u8],
) -> Result<Vec<Reason>, AllocError>
    ensures { IfOk result (λ whys. whys.items
        ≡ changed_reasons (version_reasons unread kind bytes.now)) }
{
    if !matches!(kind, Kind::Exif | Kind::PhotoshopExif) {
        return listed(alloc, Some(Reason::StillThere));
    }
    match exif_data_locations::without_version(alloc, bytes)? {
        Some(new) => behind_version(alloc, unread, new.as_slice()),
        None => listed(alloc, Some(Reason::StillThere)),
    }
}

// Why data that are searched may hold a location, by a copy of them.
fn tried(alloc: Global, unread: Unread, kind: Kind, bytes: &[u8]) -> Result<Vec<Reason>, AllocError>
    ensures { IfOk result (λ whys. whys.items ≡ part_reasons unread kind bytes.now) }
{
    let mut new = Vec::from_slice(alloc, bytes)?;
    let whys = erase_part(alloc, unread, kind, &mut new)?;
    if new.as_slice() == bytes {
        Ok(whys)
    } else {
        changed_reasons(alloc, unread, kind, bytes)
    }
}

/// Why the data of a part may hold a location: it would be erased, or else for each reason why it
/// would stay. Only data with Exif, XMP and IPTC are copied.
pub fn part_reasons(
    alloc: Global,
    unread: Unread,
    kind: Kind,
    bytes: &[u8],
) -> Result<Vec<Reason>, AllocError>
    ensures { IfOk result (λ whys. whys.items ≡ part_reasons unread kind bytes.now) }
{
    match kind {
        Kind::Exif | Kind::PhotoshopExif | Kind::Xmp | Kind::PhotoshopXmp | Kind::Iptc => tried(
            alloc, unread, kind, bytes,
        ),
        Kind::Jfif => listed(alloc, unjudged_behind(14, bytes)),
        Kind::Adobe => listed(alloc, unjudged_behind(12, bytes)),
        Kind::JfifThumbnail
        | Kind::PhotoshopOther
        | Kind::ExtendedXmp
        | Kind::Comment
        | Kind::ContentCredentials
        | Kind::Trailer
        | Kind::Unknown
        | Kind::Broken => listed(alloc, unjudged(bytes)),
        Kind::Picture | Kind::Photoshop | Kind::IccProfile | Kind::MultiPicture => {
            listed(alloc, None)
        }
    }
}
