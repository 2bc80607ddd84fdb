//! The elements of GPX, and the values in them.

ghost use Rattle.std.specs.Prelude.{◌≡◌, ◌≤◌, length};
ghost use Rattle.std.specs.Prelude.{◌<◌};
ghost use Rattle.exif_geotag.specs.Elements.{element_at, element_of, is_quote, local_name, quoted_in, text_of, until};

use exif_locations::xmp::scan::name_len;

/// An element, by its name without a prefix.
#[derive(Clone, Copy, Debug, PartialEq, Eq)]
pub(crate) enum Element {
    /// `gpx`, the root.
    Gpx,
    /// `trkpt`.
    TrackPoint,
    /// `time`.
    Time,
    /// `ele`.
    Elevation,
    /// Any other.
    Other,
}

/// How many bytes there are before the first one like this.
pub(crate) fn until(mark: u8, text: &[u8]) -> usize
    ensures value { result ≡ until mark text.now }
    ensures within { result ≤ length text.now }
{
    for at in 0..text.len() {
        if text[at] == mark {
            return at;
        }
    }
    text.len()
}

// A name without its prefix.
fn local_name(name: &[u8]) -> &[u8]
    ensures { result.now ≡ local_name name.now }
{
    let len = until(b':', name);
    if len < name.len() {
        &name[len + 1..]
    } else {
        name
    }
}

// The element of a name without a prefix.
fn element_of(name: &[u8]) -> Element
    ensures { result ≡ element_of name.now }
{
    if name == b"trkpt".as_slice() {
        return Element::TrackPoint;
    }
    if name == b"time".as_slice() {
        return Element::Time;
    }
    if name == b"ele".as_slice() {
        return Element::Elevation;
    }
    if name == b"gpx".as_slice() {
        return Element::Gpx;
    }
    Element::Other
}

/// The element whose start tag is at the front.
#[tactic(auto, unfolding(crate::specs::Elements::element_at))]
pub(crate) fn element_at(input: &[u8]) -> Element
    requires { 0 < length input.now }
    ensures { result ≡ element_at input.now }
{
    let rest = &input[1..];
    element_of(local_name(&rest[..name_len(rest)]))
}

// Whether a byte is a quote.
fn is_quote(byte: u8) -> bool
    ensures { result ≡ is_quote byte }
{
    byte == b'"' || byte == b'\''
}

/// The value of an attribute: the bytes between the first quote and the next one like it.
pub(crate) fn quoted_in(input: &[u8]) -> &[u8]
    ensures { result.now ≡ quoted_in input.now }
{
    for at in 0..input.len() {
        if is_quote(input[at]) {
            let rest = &input[at + 1..];
            return &rest[..until(input[at], rest)];
        }
    }
    &input[input.len()..]
}

/// The text in front of the next markup.
pub(crate) fn text_of(input: &[u8]) -> &[u8]
    ensures { result.now ≡ text_of input.now }
{
    &input[..until(b'<', input)]
}
