//! Which names are those of locations.

ghost use Rattle.std.specs.Prelude.{◌≡◌};
ghost use Rattle.exif_locations.specs.XmpNames.{any_case, begins_gps, behind_colon, is_binding, is_location, is_word};

use crate::words::{ends_with_one, is_one_of};
use crate::xmp::location_names::{location_endings, location_names};

// Whether a byte is a letter, in either case.
fn same_letter(byte: u8, small: u8, large: u8) -> bool
    ensures { result ≡ any_case byte small large }
{
    byte == small || byte == large
}

// Whether a name begins with `gps`, in any case.
fn begins_gps(name: &[u8]) -> bool
    ensures { result ≡ begins_gps name.now }
{
    match name {
        [g, p, s, ..] => {
            same_letter(*g, b'g', b'G')
                && same_letter(*p, b'p', b'P')
                && same_letter(*s, b's', b'S')
        }
        _ => false,
    }
}

// Whether a name declares a prefix.
fn is_binding(name: &[u8]) -> bool
    ensures { result ≡ is_binding name.now }
{
    match name {
        [a, b, c, d, e, ..] => *a == b'x' && *b == b'm' && *c == b'l' && *d == b'n' && *e == b's',
        _ => false,
    }
}

// Whether a name without its prefix is that of a location. This takes a time that does not grow
// with the name.
#[tactic(auto, unfolding(crate::specs::XmpNames::is_word))]
fn is_word(name: &[u8]) -> bool
    ensures { result ≡ is_word name.now }
{
    begins_gps(name) || is_one_of(location_names(), name) || ends_with_one(location_endings(), name)
}

// Whether what is behind a colon of a name is that of a location.
fn behind_colon(name: &[u8]) -> bool
    ensures { result ≡ behind_colon name.now }
{
    for i in 0..name.len() {
        if name[i] == b':' && is_word(&name[i + 1..]) {
            return true;
        }
    }
    false
}

/// Whether a name is that of a location, whatever prefix it has. The declaration of a prefix is
/// not.
#[tactic(auto, unfolding(crate::specs::XmpNames::is_location))]
pub fn is_location(name: &[u8]) -> bool
    ensures { result ≡ is_location name.now }
{
    !is_binding(name) && (is_word(name) || behind_colon(name))
}
