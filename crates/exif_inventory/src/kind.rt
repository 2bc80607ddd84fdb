//! What a part of a file holds.

ghost use Rattle.std.specs.Prelude.{Some};

use std::fmt;

/// What a part of a file holds.
#[derive(Clone, Copy, Debug, PartialEq, Eq)]
pub enum Kind {
    /// What the picture is made of: markers, tables, frames and scans; the image's chunks or boxes.
    Picture,
    /// The header of JFIF: the density of the picture, and maybe a small thumbnail.
    Jfif,
    /// A thumbnail of JFIF (`JFXX`).
    JfifThumbnail,
    /// Exif data.
    Exif,
    /// An XMP packet.
    Xmp,
    /// A part of a long XMP packet.
    ExtendedXmp,
    /// The identifier of Photoshop's resources, or one of them whose fields are numbers alone.
    Photoshop,
    /// The resource of Photoshop that holds Exif data.
    PhotoshopExif,
    /// The resource of Photoshop that holds an XMP packet.
    PhotoshopXmp,
    /// Any other resource of Photoshop: a caption, a thumbnail, or one that has a name.
    PhotoshopOther,
    /// The resource of Photoshop that holds IPTC data.
    Iptc,
    /// A comment.
    Comment,
    /// A colour profile, or a part of one.
    IccProfile,
    /// Adobe's segment: how the colours are stored.
    Adobe,
    /// The index of further pictures in the file (MPF).
    MultiPicture,
    /// Content credentials (JUMBF boxes, as those of C2PA).
    ContentCredentials,
    /// Bytes that follow a picture and begin none.
    Trailer,
    /// A segment, chunk or box of a kind that is not known, or bytes between segments.
    Unknown,
    /// Bytes that end before the segment, chunk or box does that they begin.
    Broken,
}

/// What people call it.
impl fmt::Display for Kind {
    ghost use Rattle.exif_inventory.specs.KindTexts.{kind_text};

    ghost output = { λ kind. Some (kind_text kind) };

    fn fmt<W: fmt::Write>(&self, f: &mut fmt::Formatter<W>) -> fmt::Result {
        f.write_str(match self {
            Kind::Picture => "picture data",
            Kind::Jfif => "JFIF header",
            Kind::JfifThumbnail => "JFIF thumbnail",
            Kind::Exif => "Exif data",
            Kind::Xmp => "XMP packet",
            Kind::ExtendedXmp => "part of a long XMP packet",
            Kind::Photoshop => "Photoshop resource",
            Kind::PhotoshopExif => "Photoshop resource with Exif data",
            Kind::PhotoshopXmp => "Photoshop resource with an XMP packet",
            Kind::PhotoshopOther => "other Photoshop resource",
            Kind::Iptc => "IPTC data",
            Kind::Comment => "comment",
            Kind::IccProfile => "colour profile",
            Kind::Adobe => "Adobe segment",
            Kind::MultiPicture => "index of pictures",
            Kind::ContentCredentials => "content credentials",
            Kind::Trailer => "data after the picture",
            Kind::Unknown => "unknown data",
            Kind::Broken => "data that are cut off",
        })
    }
}
