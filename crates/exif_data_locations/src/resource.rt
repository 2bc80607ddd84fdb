//! The resources of Photoshop in Exif data (Photoshop File Formats, "Image Resource Blocks").

ghost use Rattle.std.specs.Prelude.{◌≡◌, ◌++◌, ◌+◌, ◌≤◌, ◌<◌, ◌^◌, All, length, take, drop, OnOk};
ghost use Rattle.exif_data_locations.specs.Regions.{LiesIn};
ghost use Rattle.exif_data_locations.specs.Resources.{resource_region, resource_regions, unjudged, what_of};

use crate::reason::Reason;
use crate::region::{Region, What, all_zero};
use exif_inventory::{Kind, Resource, resource_at};
use std::alloc::AllocError;

// What data that are not looked at hold.
fn unjudged(bytes: &[u8]) -> What
    ensures { result ≡ unjudged bytes.now }
{
    if all_zero(bytes) {
        What::Other
    } else {
        What::Residual(Reason::OtherResource)
    }
}

// What a resource of this kind with these data holds.
fn what_of(kind: Kind, bytes: &[u8]) -> What
    ensures { result ≡ what_of kind bytes.now }
{
    match kind {
        Kind::Iptc => What::Iptc,
        Kind::PhotoshopXmp => What::Xmp,
        Kind::PhotoshopExif => What::Residual(Reason::ExifResource),
        Kind::Photoshop => What::Other,
        Kind::Broken => What::Residual(Reason::ResourcesNotRead),
        _ => unjudged(bytes),
    }
}

// The region of the data of a resource that is at the front of bytes and at an offset.
fn region_of(tag: u16, at: usize, resource: Resource, bytes: &[u8]) -> Region
    requires within { resource.front + resource.size ≤ length bytes.now }
    requires fits { at + resource.front < 2 ^ 64 }
    ensures { result ≡ resource_region tag at resource bytes.now }
{
    let content = &bytes[resource.front..][..resource.size];
    Region {
        tag,
        offset: at + resource.front,
        len: resource.size,
        what: what_of(resource.kind, content),
    }
}

/// Adds the regions of the resources in so many bytes from an offset on.
pub fn add_resources(
    tag: u16,
    bytes: &[u8],
    offset: usize,
    len: usize,
    regions: &mut Vec<Region>,
) -> Result<(), AllocError>
    requires within { offset + len ≤ length bytes.now }
    requires old { All (LiesIn (length bytes.now)) regions.old.items }
    ensures value { OnOk result (regions.new.items ≡ regions.old.items
        ++ resource_regions tag offset (take len (drop offset bytes.now))) }
    ensures new { OnOk result (All (LiesIn (length bytes.now)) regions.new.items) }
{
    let mut at = offset;
    let mut rest = &bytes[offset..offset + len];
    while !rest.is_empty() {
        let resource = resource_at(rest);
        regions.push(region_of(tag, at, resource, rest))?;
        at += resource.len;
        rest = &rest[resource.len..];
    }
    Ok(())
}
