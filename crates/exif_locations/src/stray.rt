//! Text of an XMP packet that is no value of a property.

ghost use Rattle.std.specs.Prelude.{◌≡◌};
ghost use Rattle.exif_locations.specs.Stray.{ends_with_text, has_stray_text, is_blank, is_other_tag, next_place, opening_step, tag_step, text_step};

// Where a byte of a packet is.
#[derive(Clone, Copy)]
enum Place {
    // Between two tags: whether a value may be there, and whether there was text.
    Between { holds: bool, filled: bool },
    // Behind `<`: whether there was text in front of it.
    Opening { filled: bool },
    // Within a tag: whether it is a start tag, and whether its last byte was `/`.
    Tag { starts: bool, slash: bool },
}

// Whether a byte is white space, zero, or one of a byte order mark.
fn is_blank(b: u8) -> bool
    ensures { result ≡ is_blank b }
{
    matches!(b, b' ' | b'\t' | b'\n' | b'\r' | 0 | 0xef | 0xbb | 0xbf)
}

// Whether a tag that begins with this byte is no start tag.
fn is_other_tag(b: u8) -> bool
    ensures { result ≡ is_other_tag b }
{
    matches!(b, b'/' | b'?' | b'!')
}

// The place behind a byte between tags, unless it is text that is no value.
fn text_step(holds: bool, filled: bool, b: u8) -> Option<Place>
    ensures { result ≡ text_step holds filled b }
{
    if b == b'<' {
        Some(Place::Opening { filled })
    } else if is_blank(b) {
        Some(Place::Between { holds, filled })
    } else if holds {
        Some(Place::Between {
            holds,
            filled: true,
        })
    } else {
        None
    }
}

// The place behind the first byte of a tag, unless there was text in front of it that is no value.
fn opening_step(filled: bool, b: u8) -> Option<Place>
    ensures { result ≡ opening_step filled b }
{
    if b == b'/' {
        Some(Place::Tag {
            starts: false,
            slash: false,
        })
    } else if filled {
        None
    } else {
        Some(Place::Tag {
            starts: !is_other_tag(b),
            slash: false,
        })
    }
}

// The place behind a byte within a tag.
fn tag_step(starts: bool, slash: bool, b: u8) -> Place
    ensures { result ≡ tag_step starts slash b }
{
    if b == b'>' {
        Place::Between {
            holds: starts && !slash,
            filled: false,
        }
    } else {
        Place::Tag {
            starts,
            slash: b == b'/',
        }
    }
}

// The place behind a byte, unless it shows that there is text that is no value.
fn next_place(at: Place, b: u8) -> Option<Place>
    ensures { result ≡ next_place at b }
{
    match at {
        Place::Between { holds, filled } => text_step(holds, filled, b),
        Place::Opening { filled } => opening_step(filled, b),
        Place::Tag { starts, slash } => Some(tag_step(starts, slash, b)),
    }
}

// Whether bytes that end here end with text that no end tag follows.
fn ends_with_text(at: Place) -> bool
    ensures { result ≡ ends_with_text at }
{
    match at {
        Place::Between { filled, .. } | Place::Opening { filled } => filled,
        Place::Tag { .. } => false,
    }
}

/// Whether a packet has text that is no value of a property: in front of its first tag, behind its
/// last one, or between two tags that are not the start tag and the end tag of one element.
pub fn has_stray_text(packet: &[u8]) -> bool
    ensures { result ≡ has_stray_text packet.now }
{
    let mut at = Place::Between {
        holds: false,
        filled: false,
    };
    for b in packet {
        match next_place(at, *b) {
            Some(next) => at = next,
            None => return true,
        }
    }
    ends_with_text(at)
}
