//! A packet with one property more: which one it is.

ghost use Rattle.std.specs.Prelude.{◌≡◌, map};
ghost use Rattle.exif_xmp.specs.Properties.{property_view};
ghost use Rattle.exif_xmp_set.specs.Added.{given_view};
ghost use Rattle.exif_xmp_set.specs.Contents.{is_followed, is_given, is_inserted};

use crate::read_back::all_same;
use exif_xmp::{Form, Property};

/// A property that a packet gets: a text without a language.
#[derive(Clone, Copy)]
pub struct Given<'a> {
    /// The URI of its namespace.
    pub namespace: &'a [u8],
    /// Its path.
    pub path: &'a [u8],
    /// Its text.
    pub text: &'a [u8],
}

// Whether a property is the one.
fn is_given(given: Given<'_>, property: &Property) -> bool
    ensures { result ≡ is_given (given_view given.entry) (property_view property.now) }
{
    let is_plain = property.language.is_none() && matches!(property.form, Form::Text);
    given.namespace == property.namespace.as_slice()
        && given.path == property.path.as_slice()
        && given.text == property.text.as_slice()
        && is_plain
}

// Whether properties are this one, and others that say what others say.
fn is_followed(given: Given<'_>, old: &[Property], new: &[Property]) -> bool
    ensures { result ≡ is_followed (given_view given.entry) (map property_view old.now)
        (map property_view new.now) }
{
    match new {
        [first, rest @ ..] => {
            if is_given(given, first) {
                all_same(old, rest)
            } else {
                false
            }
        }
        [] => false,
    }
}

/// Whether properties say what others say, and one more in front of the one of an index.
pub fn is_inserted(at: usize, given: Given<'_>, old: &[Property], new: &[Property]) -> bool
    ensures { result ≡ is_inserted at (given_view given.entry) (map property_view old.now)
        (map property_view new.now) }
{
    if old.len() < at || new.len() < at {
        return false;
    }
    if all_same(&old[..at], &new[..at]) {
        is_followed(given, &old[at..], &new[at..])
    } else {
        false
    }
}
