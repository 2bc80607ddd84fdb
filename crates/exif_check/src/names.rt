//! The names of kinds and judgements in JSON.

ghost use Rattle.std.specs.Prelude.{◌≡◌};
ghost use Rattle.exif_check.specs.Names.{kind_name, location_name, part_location_name};

use crate::checked::{Checked, Location};
use exif_inventory::Kind;

/// The name of a kind.
pub fn kind_name(kind: Kind) -> &'static str
    ensures { result.now ≡ kind_name kind }
{
    match kind {
        Kind::Picture => "picture",
        Kind::Jfif => "jfif",
        Kind::JfifThumbnail => "jfif_thumbnail",
        Kind::Exif => "exif",
        Kind::Xmp => "xmp",
        Kind::ExtendedXmp => "extended_xmp",
        Kind::Photoshop => "photoshop",
        Kind::PhotoshopExif => "photoshop_exif",
        Kind::PhotoshopXmp => "photoshop_xmp",
        Kind::PhotoshopOther => "photoshop_other",
        Kind::Iptc => "iptc",
        Kind::Comment => "comment",
        Kind::IccProfile => "icc_profile",
        Kind::Adobe => "adobe",
        Kind::MultiPicture => "multi_picture",
        Kind::ContentCredentials => "content_credentials",
        Kind::Trailer => "trailer",
        Kind::Unknown => "unknown",
        Kind::Broken => "broken",
    }
}

/// The name of a judgement.
pub fn location_name(location: Location) -> &'static str
    ensures { result.now ≡ location_name location }
{
    match location {
        Location::Absent => "no",
        Location::Present => "yes",
        Location::Unknown => "unknown",
    }
}

/// The name of the judgement of a part.
pub fn part_location_name(checked: Checked) -> &'static str
    ensures { result.now ≡ part_location_name checked }
{
    if checked.maker_note {
        "maker_note"
    } else {
        location_name(checked.location)
    }
}
