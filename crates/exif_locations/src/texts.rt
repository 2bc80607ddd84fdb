//! Texts, keywords and encoded pictures, in which a location may be named.

ghost use Rattle.std.specs.Prelude.{◌≡◌};
ghost use Rattle.exif_locations.specs.Texts.{begins_described, begins_identifier, begins_name, begins_remark, begins_text, holds_text, iptc_has_texts, is_rdf, names_texts, xmp_has_texts};

use crate::iptc_numbers::{character_sets, text_numbers, text_records};
use crate::stray::has_stray_text;
use crate::text_names::{no_identifiers, text_names};
use crate::words::{begins_with, begins_with_one};

// Whether bytes begin with an identifier of the picture, which may be any text.
fn begins_identifier(bytes: &[u8]) -> bool
    ensures { result ≡ begins_identifier bytes.now }
{
    bytes.starts_with(b"about") && !begins_with_one(no_identifiers(), bytes)
}

// Whether bytes behind `<` begin a comment, character data, or an instruction that is not that of a
// packet.
fn begins_remark(bytes: &[u8]) -> bool
    ensures { result ≡ begins_remark bytes.now }
{
    match bytes {
        [first, rest @ ..] => *first == b'!' || (*first == b'?' && !rest.starts_with(b"xpacket ")),
        [] => false,
    }
}

// Whether three bytes are the prefix of RDF.
fn is_rdf(a: u8, b: u8, c: u8) -> bool
    ensures { result ≡ is_rdf a b c }
{
    a == b'r' && b == b'd' && c == b'f'
}

// Whether bytes begin with the end of a prefix and the name of a description, which is not that of
// RDF.
fn begins_described(bytes: &[u8]) -> bool
    ensures { result ≡ begins_described bytes.now }
{
    match bytes {
        [a, b, c, d, rest @ ..] => {
            *d == b':' && !is_rdf(*a, *b, *c) && begins_with(b"Description", rest)
        }
        _ => false,
    }
}

// Whether bytes begin with the name of a property that may hold a location in a text.
#[tactic(auto, unfolding(crate::specs::Texts::begins_name))]
fn begins_name(bytes: &[u8]) -> bool
    ensures { result ≡ begins_name bytes.now }
{
    begins_with_one(text_names(), bytes) || begins_identifier(bytes)
}

// Whether an XMP packet has the name of a property that holds a text, or a remark.
fn names_texts(packet: &[u8]) -> bool
    ensures { result ≡ names_texts packet.now }
{
    for i in 0..packet.len() {
        let rest = &packet[i + 1..];
        if packet[i] == b':' && begins_name(rest) {
            return true;
        }
        if packet[i] == b'<' && begins_remark(rest) {
            return true;
        }
        if begins_described(&packet[i..]) {
            return true;
        }
    }
    false
}

/// Whether an XMP packet has a property that holds what people write of a picture, keywords, names,
/// an identifier or a picture: a name of one behind the colon of a prefix, wherever that is. So
/// does one with a `Description` behind another prefix than `rdf`, a comment, character data, an
/// instruction that is not that of a packet, or text that is no value of a property: outside of
/// elements, or beside some.
pub fn xmp_has_texts(packet: &[u8]) -> bool
    ensures { result ≡ xmp_has_texts packet.now }
{
    has_stray_text(packet) || names_texts(packet)
}

// Whether a dataset with a number, behind which its length and value follow, holds more than a
// version or a character set.
fn holds_text(bytes: &[u8]) -> bool
    ensures { result ≡ holds_text bytes.now }
{
    match bytes {
        [number, high, low, value @ ..] => {
            let len = 256 * usize::from(*high) + usize::from(*low);
            !(len == 0
                || (len == 2 && *number == 0)
                || (len == 3 && *number == 90 && begins_with_one(character_sets(), value)))
        }
        _ => false,
    }
}

// Whether bytes go on as the front of a dataset does that holds a text or a picture.
fn begins_text(bytes: &[u8]) -> bool
    ensures { result ≡ begins_text bytes.now }
{
    match bytes {
        [record_number, number, ..] => {
            if *record_number == 2 {
                text_numbers().contains(number)
            } else {
                text_records().contains(record_number) && holds_text(&bytes[1..])
            }
        }
        _ => false,
    }
}

/// Whether IPTC data have a dataset that holds a text, keywords or a picture, or bytes like its
/// front.
pub fn iptc_has_texts(input: &[u8]) -> bool
    ensures { result ≡ iptc_has_texts input.now }
{
    for i in 0..input.len() {
        if input[i] == 0x1c && begins_text(&input[i + 1..]) {
            return true;
        }
    }
    false
}
