//! What a file is that is no GPX.

ghost use Rattle.std.specs.Prelude.{◌≡◌};
ghost use Rattle.exif_locations.specs.XmpNames.{begins};
ghost use Rattle.exif_geotag.specs.Formats.{holds, is_fit, is_nmea, other_format, xml_format};

/// A format of tracks, or of archives that have one, other than GPX.
#[derive(Clone, Copy, Debug, PartialEq, Eq)]
pub enum OtherFormat {
    /// Keyhole Markup Language, of Google Earth.
    Kml,
    /// A zip archive, as KMZ is: KML with its pictures.
    Zip,
    /// Training Center XML, of Garmin.
    Tcx,
    /// Sentences of NMEA 0183, which receivers send.
    Nmea,
    /// Flexible and Interoperable Data Transfer, of Garmin.
    Fit,
}

// Whether bytes begin with a word.
fn begins(bytes: &[u8], word: &[u8]) -> bool
    ensures { result ≡ begins bytes.now word.now }
{
    bytes.starts_with(word)
}

// Whether bytes contain a word.
fn holds(word: &[u8], bytes: &[u8]) -> bool
    ensures { result ≡ holds word.now bytes.now }
{
    for at in 0..bytes.len() {
        if begins(&bytes[at..], word) {
            return true;
        }
    }
    false
}

// Whether bytes are a file of FIT: its header has this word behind eight bytes.
fn is_fit(bytes: &[u8]) -> bool
    ensures { result ≡ is_fit bytes.now }
{
    8 <= bytes.len() && bytes[8..].starts_with(b".FIT")
}

// Whether a line of bytes begins with a sentence of GPS, or of several systems.
fn is_nmea(bytes: &[u8]) -> bool
    ensures { result ≡ is_nmea bytes.now }
{
    bytes.starts_with(b"$GP")
        || bytes.starts_with(b"$GN")
        || holds(b"\n$GP", bytes)
        || holds(b"\n$GN", bytes)
}

// What XML is, by an element of it.
fn xml_format(bytes: &[u8]) -> Option<OtherFormat>
    ensures { result ≡ xml_format bytes.now }
{
    if holds(b"<kml", bytes) {
        return Some(OtherFormat::Kml);
    }
    if holds(b"<TrainingCenterDatabase", bytes) {
        return Some(OtherFormat::Tcx);
    }
    None
}

/// What a file is that is no GPX, where its bytes show it: FIT and zip archives by their first
/// bytes, KML and TCX by their outermost element, NMEA by a line that begins with `$GP` or `$GN`.
/// Its time grows with the bytes. It takes no memory.
pub fn other_format(bytes: &[u8]) -> Option<OtherFormat>
    ensures { result ≡ other_format bytes.now }
{
    if is_fit(bytes) {
        return Some(OtherFormat::Fit);
    }
    if bytes.starts_with(b"PK\x03\x04") {
        return Some(OtherFormat::Zip);
    }
    match xml_format(bytes) {
        Some(format) => Some(format),
        None => {
            if is_nmea(bytes) {
                Some(OtherFormat::Nmea)
            } else {
                None
            }
        }
    }
}
