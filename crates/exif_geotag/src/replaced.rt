//! What a picture has of the location that is replaced.

ghost use Rattle.std.specs.Prelude.{◌≡◌, IfOk, OnOk};
ghost use Rattle.exif_geotag.specs.Replaced.{altitude_tags, found_in, has, is_located, old_altitude, old_tags, stale_tags};

use exif_types::{Exif, In, Tag};
use std::alloc::{AllocError, Global};

// Whether a picture has a field.
fn has(exif: &Exif, tag: Tag) -> bool
    ensures { result ≡ has exif.now.fields tag }
{
    exif.get_field(tag, In::PRIMARY).is_some()
}

// The fields of an altitude.
fn altitude_tags() -> &'static [Tag]
    ensures { result.now ≡ altitude_tags }
{
    &[Tag::GPSAltitudeRef, Tag::GPSAltitude]
}

// The fields that say how a location was measured, and what was seen and done from it.
fn old_tags() -> &'static [Tag]
    ensures { result.now ≡ old_tags }
{
    &[
        Tag::GPSSatellites,
        Tag::GPSStatus,
        Tag::GPSMeasureMode,
        Tag::GPSDOP,
        Tag::GPSSpeedRef,
        Tag::GPSSpeed,
        Tag::GPSTrackRef,
        Tag::GPSTrack,
        Tag::GPSImgDirectionRef,
        Tag::GPSImgDirection,
        Tag::GPSMapDatum,
        Tag::GPSDestLatitudeRef,
        Tag::GPSDestLatitude,
        Tag::GPSDestLongitudeRef,
        Tag::GPSDestLongitude,
        Tag::GPSDestBearingRef,
        Tag::GPSDestBearing,
        Tag::GPSDestDistanceRef,
        Tag::GPSDestDistance,
        Tag::GPSProcessingMethod,
        Tag::GPSAreaInformation,
        Tag::GPSDifferential,
        Tag::GPSHPositioningError,
    ]
}

// Adds those of some tags that a picture has.
fn add_found(exif: &Exif, tags: &[Tag], found: &mut Vec<Tag>) -> Result<(), AllocError>
    ensures { OnOk result
        (found.new.items ≡ found_in exif.now.fields tags.now found.old.items) }
{
    for tag in tags {
        if has(exif, *tag) {
            found.push(*tag)?;
        }
    }
    Ok(())
}

// Whether a picture has a latitude or a longitude.
fn is_located(exif: &Exif) -> bool
    ensures { result ≡ is_located exif.now.fields }
{
    has(exif, Tag::GPSLatitude) || has(exif, Tag::GPSLongitude)
}

// The old altitude, unless the new location has one.
fn old_altitude(alloc: Global, exif: &Exif, has_altitude: bool) -> Result<Vec<Tag>, AllocError>
    ensures { IfOk result (λ tags. tags.items ≡ old_altitude exif.now.fields has_altitude) }
{
    let mut found = Vec::new(alloc);
    if !has_altitude {
        add_found(exif, altitude_tags(), &mut found)?;
    }
    Ok(found)
}

/// The fields of a picture that are of its old location, where it has one that is replaced by a
/// location of a track: speed, directions, the destination, how it was measured, and the altitude
/// unless the new one has an altitude. None where it has neither GPSLatitude nor GPSLongitude: what
/// its camera measured without a location stays true.
pub fn stale_tags(alloc: Global, exif: &Exif, has_altitude: bool) -> Result<Vec<Tag>, AllocError>
    ensures { IfOk result (λ tags. tags.items ≡ stale_tags exif.now.fields has_altitude) }
{
    if !is_located(exif) {
        return Ok(Vec::new(alloc));
    }
    let mut found = old_altitude(alloc, exif, has_altitude)?;
    add_found(exif, old_tags(), &mut found)?;
    Ok(found)
}
