//! Regions of Exif data, and the locations in them.

ghost use Rattle.std.specs.Prelude.{◌≡◌, ◌+◌, ◌≤◌, length, replicate, All, OnOk};
ghost use Rattle.exif_data_locations.specs.Regions.{LiesIn, all_zero, iptc_answer, iptc_judged, region_erased, regions_erased, what_answer, xmp_answer, xmp_judged};

use crate::reason::Reason;
use exif_locations::texts::{iptc_has_texts, xmp_has_texts};
use exif_locations::{Unread, unread};
use std::alloc::{AllocError, Global};

/// What a region of Exif data holds.
#[derive(Clone, Copy)]
pub enum What {
    /// An XMP packet.
    Xmp,
    /// IPTC data.
    Iptc,
    /// A value of a GeoTIFF tag.
    GeoTiff,
    /// Nothing that is known to say a location.
    Other,
    /// What may say one and stays, for this reason.
    Residual(Reason),
}

/// This many bytes of Exif data from an offset on, which are of a field with this tag.
#[derive(Clone, Copy)]
pub struct Region {
    pub tag: u16,
    pub offset: usize,
    pub len: usize,
    pub what: What,
}

/// Whether all bytes are zero.
pub fn all_zero(bytes: &[u8]) -> bool
    ensures { result ≡ all_zero bytes.now }
{
    bytes.iter().all(|b| *b == 0)
}

// Erases the locations of an XMP packet.
fn erase_xmp(tag: u16, unread: Unread, bytes: &mut [u8]) -> Option<Reason>
    ensures { (bytes.new, result) ≡ xmp_answer tag unread bytes.old }
{
    match unread::erase_xmp(unread, bytes) {
        Some(fault) => Some(Reason::XmpNotRead(tag, fault)),
        None => None,
    }
}

// Erases the locations of IPTC data.
fn erase_iptc(tag: u16, unread: Unread, bytes: &mut [u8]) -> Option<Reason>
    ensures { (bytes.new, result) ≡ iptc_answer tag unread bytes.old }
{
    match unread::erase_iptc(unread, bytes) {
        Some(fault) => Some(Reason::IptcNotRead(tag, fault)),
        None => None,
    }
}

// The same of a packet, which may hold texts.
fn judge_xmp(tag: u16, unread: Unread, bytes: &mut [u8]) -> Option<Reason>
    ensures { (bytes.new, result) ≡ xmp_judged tag unread bytes.old }
{
    match erase_xmp(tag, unread, bytes) {
        None if xmp_has_texts(bytes) => Some(Reason::Texts(tag)),
        why => why,
    }
}

// The same of IPTC data.
fn judge_iptc(tag: u16, unread: Unread, bytes: &mut [u8]) -> Option<Reason>
    ensures { (bytes.new, result) ≡ iptc_judged tag unread bytes.old }
{
    match erase_iptc(tag, unread, bytes) {
        None if iptc_has_texts(bytes) => Some(Reason::Texts(tag)),
        why => why,
    }
}

// Makes zeros of all bytes.
fn zero(bytes: &mut [u8])
    ensures { bytes.new ≡ replicate (length bytes.old) 0 }
{
    bytes.fill(0);
}

/// Erases the locations in what a region holds, and answers why it may still hold one.
pub fn erase_what(tag: u16, unread: Unread, what: What, bytes: &mut [u8]) -> Option<Reason>
    ensures { (bytes.new, result) ≡ what_answer tag unread what bytes.old }
{
    match what {
        What::Xmp => judge_xmp(tag, unread, bytes),
        What::Iptc => judge_iptc(tag, unread, bytes),
        What::GeoTiff => {
            zero(bytes);
            None
        }
        What::Other => None,
        What::Residual(why) => Some(why),
    }
}

// Erases the locations in one region, and notes why it may still hold one.
fn erase_region(
    unread: Unread,
    bytes: &mut [u8],
    region: Region,
    whys: &mut Vec<Reason>,
) -> Result<(), AllocError>
    requires { LiesIn (length bytes.old) region }
    ensures { OnOk result ((bytes.new, whys.new.items)
        ≡ region_erased unread region (bytes.old, whys.old.items)) }
{
    let end = region.offset + region.len;
    let content = &mut bytes[region.offset..end];
    if let Some(why) = erase_what(region.tag, unread, region.what, content) {
        whys.push(why)?;
    }
    Ok(())
}

/// Erases the locations in regions, one after the other, and notes why they may still hold one.
pub fn erase_regions(
    unread: Unread,
    bytes: &mut [u8],
    regions: &[Region],
    whys: &mut Vec<Reason>,
) -> Result<(), AllocError>
    requires { All (LiesIn (length bytes.old)) regions.now }
    ensures { OnOk result ((bytes.new, whys.new.items)
        ≡ regions_erased unread regions.now (bytes.old, whys.old.items)) }
{
    for region in regions {
        erase_region(unread, bytes, *region, whys)?;
    }
    Ok(())
}
