//! Parts of a file that may still hold a location.

ghost use Rattle.std.specs.Prelude.{◌≡◌, Some};
ghost use Rattle.std.specs.Fmt.{WritesOnOk};
ghost use Rattle.exif_privacy.specs.RemainingTexts.{exif_text};
ghost use Rattle.exif_privacy.specs.Parts.{can_be_blanked};

use exif_inventory::{Kind, Part};
use exif_locations::{iptc, xmp};
use std::fmt;

/// Why a part may still hold a location.
#[derive(Clone, Copy, Debug)]
pub enum Reason {
    /// The XMP packet can't be read, and is as it was.
    XmpNotRead(xmp::Fault),
    /// The IPTC data can't be read, and are as they were.
    IptcNotRead(iptc::Fault),
    /// The Exif data may still hold one, for this reason.
    InExif(exif_data_locations::Reason),
    /// It has texts or keywords, or a picture in XMP: they are not judged.
    Texts,
    /// What it holds is not looked at.
    NotJudged,
    /// Erasing it again would change the part.
    StillThere,
    /// Erasing it again would change the part: its GPS data are a version alone, which names no
    /// location.
    GpsVersion,
}

impl Reason {
    /// Whether what can't be read would be overwritten with
    /// [`Unread::Blank`](crate::Unread::Blank).
    pub fn can_be_blanked(self) -> bool
        ensures { result ≡ can_be_blanked self }
    {
        match self {
            Reason::XmpNotRead(_) | Reason::IptcNotRead(_) => true,
            Reason::InExif(why) => why.can_be_blanked(),
            _ => false,
        }
    }
}

/// A part that may still hold a location.
#[derive(Clone, Copy, Debug)]
pub struct Remaining {
    /// The part.
    pub part: Part,
    /// Why it may.
    pub why: Reason,
}

// Why Exif data, which are called this and are at this offset, may still hold a location.
fn write_exif<W: fmt::Write>(
    f: &mut fmt::Formatter<W>,
    name: Kind,
    offset: usize,
    why: exif_data_locations::Reason,
) -> fmt::Result
    ensures { WritesOnOk W.write_str_gives f.old result (exif_text name offset why) f.new }
{
    match why {
        exif_data_locations::Reason::NotChanged => write!(
            f,
            "still there: {name} at offset {offset}, which can't be changed"
        ),
        exif_data_locations::Reason::GpsShared => write!(
            f,
            "still there: GPS data of {name} at offset {offset}, which share their bytes"
        ),
        exif_data_locations::Reason::GpsNotFollowed => write!(
            f,
            "GPS data may be left: GPS pointers of {name} at offset {offset} are not followed"
        ),
        other => write!(
            f,
            "a location may be left in {name} at offset {offset}: {other}"
        ),
    }
}

impl fmt::Display for Remaining {
    ghost use Rattle.exif_privacy.specs.RemainingTexts.{stays_text};

    ghost output = { λ stays. Some (stays_text stays) };

    fn fmt<W: fmt::Write>(&self, f: &mut fmt::Formatter<W>) -> fmt::Result {
        let name = self.part.kind;
        let offset = self.part.offset;
        match self.why {
            Reason::XmpNotRead(fault) => write!(
                f,
                "still there: {name} at offset {offset}, which can't be read ({fault})"
            ),
            Reason::IptcNotRead(fault) => write!(
                f,
                "still there: {name} at offset {offset}, which can't be read ({fault})"
            ),
            Reason::InExif(why) => write_exif(f, name, offset, why),
            Reason::Texts => write!(
                f,
                "a location may be left: {name} at offset {offset} has texts, which are not judged"
            ),
            Reason::NotJudged => write!(
                f,
                "still there: {name} at offset {offset}, which may hold a location"
            ),
            Reason::StillThere => write!(f, "a location is still there: {name} at offset {offset}"),
            Reason::GpsVersion => write!(
                f,
                "the version of GPS data is still there: {name} at offset {offset}"
            ),
        }
    }
}
