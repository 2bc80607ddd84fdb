//! What is taken out of a video.

ghost use Rattle.std.specs.Prelude.{◌≡◌};
ghost use Rattle.exif_movie_scrub.specs.Requests.{if_all, zeroed_of};

use crate::zeros::Zeroed;
use exif_movie::{Kind, Part, Subject};

/// What is taken out of a video.
#[derive(Clone, Copy, Debug, PartialEq, Eq)]
pub enum Request {
    /// What states a location, or may do so: texts and items of a location, items whose key is
    /// missing or too long, XMP packets, other XML documents, and what a camera recorded in a form
    /// of its maker.
    Locations,
    /// All metadata, boxes of unknown types, what is in free space, and the dates of headers.
    Metadata,
}

// What of a part becomes zeros only where all metadata are taken out.
fn if_all(request: Request, zeroed: Zeroed) -> Zeroed
    ensures { result ≡ if_all request zeroed }
{
    match request {
        Request::Locations => Zeroed::Nothing,
        Request::Metadata => zeroed,
    }
}

/// What of a part becomes zeros.
pub fn zeroed_of(request: Request, part: Part) -> Zeroed
    ensures { result ≡ zeroed_of request part }
{
    match part.kind {
        Kind::UserData(Subject::Location) | Kind::Item(Subject::Location) => Zeroed::Content,
        Kind::Xmp | Kind::Xml | Kind::Telemetry => Zeroed::Content,
        Kind::UserData(_) | Kind::Item(_) => if_all(request, Zeroed::Content),
        Kind::Keys | Kind::FilledFree | Kind::Unknown => if_all(request, Zeroed::Content),
        Kind::MovieHeader | Kind::TrackHeader | Kind::MediaHeader => {
            if_all(request, Zeroed::Dates)
        }
        _ => Zeroed::Nothing,
    }
}
