//! Why a file is no track.

ghost use Rattle.std.specs.Prelude.{◌≡◌, Some};
ghost use Rattle.exif_geotag.specs.Errors.{error_text, named, other_text};

use crate::format::OtherFormat;
use exif_locations::xmp::Fault;
use std::fmt;

/// Why a file is no track.
#[derive(Clone, Copy, Debug, PartialEq, Eq)]
pub enum TrackError {
    /// XML that is refused: not well formed, with a document type, or cut off before the first
    /// point.
    Xml(Fault),
    /// A file of another format of tracks.
    Other(OtherFormat),
    /// A file without a root element `gpx`.
    NotGpx,
    /// A track without a point that has a time and a location.
    Empty,
}

impl TrackError {
    /// The same of a file that is of another format, if it is.
    pub(crate) fn named(self, other: Option<OtherFormat>) -> TrackError
        ensures { result ≡ named other self }
    {
        match other {
            Some(format) => TrackError::Other(format),
            None => self,
        }
    }
}

// What a file of another format is, and what to do.
fn other_text(format: OtherFormat) -> &'static str
    ensures { result.now ≡ other_text format }
{
    match format {
        OtherFormat::Kml => {
            "KML, not GPX; convert it, e.g. gpsbabel -i kml -f IN.kml -o gpx -F OUT.gpx"
        }
        OtherFormat::Zip => {
            "a zip archive, not GPX; of KMZ, unzip and convert doc.kml, e.g. gpsbabel -i kml -f doc.kml -o gpx -F OUT.gpx"
        }
        OtherFormat::Tcx => {
            "TCX, not GPX; convert it, e.g. gpsbabel -i gtrnctr -f IN.tcx -o gpx -F OUT.gpx"
        }
        OtherFormat::Nmea => {
            "NMEA, not GPX; convert it, e.g. gpsbabel -i nmea -f IN.nmea -o gpx -F OUT.gpx"
        }
        OtherFormat::Fit => {
            "FIT, not GPX; convert it, e.g. gpsbabel -i garmin_fit -f IN.fit -o gpx -F OUT.gpx"
        }
    }
}

/// What is wrong, and for a file of another format how it becomes GPX.
impl fmt::Display for TrackError {
    ghost output = { λ error. Some (error_text error) };

    fn fmt<W: fmt::Write>(&self, f: &mut fmt::Formatter<W>) -> fmt::Result {
        let text = match self {
            TrackError::Xml(Fault::Doctype) => "XML with a document type",
            TrackError::Xml(Fault::Cut) => "XML ends too early",
            TrackError::Xml(_) => "XML is not well formed",
            TrackError::Other(format) => other_text(*format),
            TrackError::NotGpx => "not a GPX file",
            TrackError::Empty => "no track point with a time and a location",
        };
        f.write_str(text)
    }
}
