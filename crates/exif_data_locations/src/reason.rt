//! Why Exif data may still hold a location.

ghost use Rattle.std.specs.Prelude.{◌≡◌, OnOk, Some};
ghost use Rattle.exif_data_locations.specs.Erasing.{noted_if};
ghost use Rattle.exif_data_locations.specs.Regions.{can_be_blanked};

use exif_locations::{iptc, xmp};
use exif_types::Tag;
use std::alloc::AllocError;
use std::fmt;

/// Why Exif data may still hold a location.
#[derive(Clone, Copy, Debug)]
pub enum Reason {
    /// The data can't be read, or have too many entries: they are as they were.
    NotChanged,
    /// GPS data use bytes that have another use, too: they are as they were.
    GpsShared,
    /// GPS pointers are not followed.
    GpsNotFollowed,
    /// Not all of the data can be read.
    NotReadWhole,
    /// SubIFDs are not read, and may hold XMP.
    SubIfdsNotRead,
    /// There is a maker note, which is not read.
    MakerNote,
    /// The picture is stored in JPEG streams, which can have metadata of their own and are not
    /// searched.
    StreamsNotSearched,
    /// The XMP packet of this tag can't be read, and is as it was.
    XmpNotRead(u16, xmp::Fault),
    /// The IPTC data of this tag can't be read, and are as they were.
    IptcNotRead(u16, iptc::Fault),
    /// Resources of Photoshop can't be read, and are as they were.
    ResourcesNotRead,
    /// A resource of Photoshop holds Exif data of its own.
    ExifResource,
    /// Another resource of Photoshop may hold a text or a picture.
    OtherResource,
    /// The XMP packet or the IPTC data of this tag, or a resource in it, have texts or keywords.
    Texts(u16),
    /// This field is a text.
    Text(Tag),
    /// The value of this field holds data that are not searched.
    NotSearched(Tag),
    /// The value of this tag has a type that is not known.
    TypeNotKnown(u16),
    /// The thumbnail has metadata of its own that may say a location.
    Thumbnail,
    /// XMP, IPTC data, resources of Photoshop or GeoTIFF tags use bytes that have another use, too:
    /// all of these are as they were. Or the thumbnail does, and is as it was.
    Shared,
}

impl Reason {
    /// Whether what can't be read would be overwritten with
    /// [`Unread::Blank`](exif_locations::Unread).
    pub fn can_be_blanked(self) -> bool
        ensures { result ≡ can_be_blanked self }
    {
        matches!(self, Reason::XmpNotRead(..) | Reason::IptcNotRead(..))
    }
}

impl fmt::Display for Reason {
    ghost use Rattle.exif_data_locations.specs.ReasonTexts.{why_text};

    ghost output = { λ why. Some (why_text why) };

    fn fmt<W: fmt::Write>(&self, f: &mut fmt::Formatter<W>) -> fmt::Result {
        match *self {
            Reason::NotChanged => write!(f, "the data can't be read"),
            Reason::GpsShared => write!(f, "GPS data share their bytes with other data"),
            Reason::GpsNotFollowed => write!(f, "GPS pointers are not followed"),
            Reason::NotReadWhole => write!(f, "some of the data can't be read"),
            Reason::SubIfdsNotRead => write!(f, "SubIFDs are not read"),
            Reason::MakerNote => write!(f, "the maker note is not read"),
            Reason::StreamsNotSearched => {
                write!(f, "the JPEG streams of the picture are not searched")
            }
            Reason::XmpNotRead(tag, fault) => {
                write!(f, "the XMP packet of tag {tag} can't be read ({fault})")
            }
            Reason::IptcNotRead(tag, fault) => {
                write!(f, "the IPTC data of tag {tag} can't be read ({fault})")
            }
            Reason::ResourcesNotRead => write!(f, "resources of Photoshop can't be read"),
            Reason::ExifResource => write!(f, "a resource of Photoshop holds Exif data"),
            Reason::OtherResource => write!(f, "a resource of Photoshop is not searched"),
            Reason::Texts(tag) => write!(f, "texts of tag {tag} are not judged"),
            Reason::Text(tag) => write!(f, "the text of {tag} is not judged"),
            Reason::NotSearched(tag) => write!(f, "the value of {tag} is not searched"),
            Reason::TypeNotKnown(tag) => write!(f, "the type of tag {tag} is not known"),
            Reason::Thumbnail => write!(f, "the thumbnail may hold a location"),
            Reason::Shared => write!(
                f,
                "XMP, IPTC or GeoTIFF data, or the thumbnail, share their bytes with other data"
            ),
        }
    }
}

/// Notes a reason, if a test holds.
pub fn note_if(test: bool, why: Reason, whys: &mut Vec<Reason>) -> Result<(), AllocError>
    ensures { OnOk result (whys.new.items ≡ noted_if test why whys.old.items) }
{
    if test {
        whys.push(why)?;
    }
    Ok(())
}
