//! The items of an array among properties.

ghost use Rattle.std.specs.Prelude.{◌≡◌, ◌≤◌, ◌<◌, ◌+◌, ◌^◌, length, map, IfSome};
ghost use Rattle.std.specs.List.{list_all};
ghost use Rattle.exif_xmp.specs.Properties.{property_view};
ghost use Rattle.exif_xmp_set.specs.Items.{begins_with, has_brackets, is_digit, is_index, is_item, last_item, next_item};

use crate::context::{bytes_behind, first_bytes};
use exif_xml::Span;
use exif_xml::scan::byte_at;
use exif_xmp::Property;

/// An array that a packet gets.
#[derive(Clone, Copy, Debug, PartialEq, Eq)]
pub enum Array {
    /// One whose order says nothing, as keywords.
    Bag,
    /// One with an order, as creators.
    Seq,
}

/// The last item of an array.
#[derive(Clone, Copy)]
pub struct LastItem {
    /// Its index among the properties of the packet.
    pub position: usize,
    /// How many items the array has.
    pub count: usize,
    /// Its element.
    pub whole: Span,
}

/// Whether bytes begin with others.
#[tactic(auto, unfolding(crate::specs::Items::begins_with))]
pub fn begins_with(word: &[u8], bytes: &[u8]) -> bool
    ensures { result ≡ begins_with word.now bytes.now }
{
    bytes.starts_with(word)
}

// Whether a byte is a decimal digit.
fn is_digit(b: u8) -> bool
    ensures { result ≡ is_digit b }
{
    48 <= b && b <= 57
}

// Whether all bytes are decimal digits.
fn all_digits(bytes: &[u8]) -> bool
    ensures { result ≡ list_all is_digit bytes.now }
{
    bytes.iter().all(|b| is_digit(*b))
}

// Whether bytes are in brackets.
fn has_brackets(bytes: &[u8]) -> bool
    ensures { result ≡ has_brackets bytes.now }
{
    byte_at(bytes, 0) == b'[' && byte_at(bytes, bytes.len().saturating_sub(1)) == b']'
}

// Whether bytes are an index, as `[2]`.
fn is_index(bytes: &[u8]) -> bool
    ensures { result ≡ is_index bytes.now }
{
    if bytes.len() < 3 || !has_brackets(bytes) {
        return false;
    }
    all_digits(first_bytes(bytes_behind(bytes, 1), bytes.len() - 2))
}

// Whether a property is an item of the array of a namespace and path.
fn is_item(property: &Property, namespace: &[u8], path: &[u8]) -> bool
    ensures { result ≡ is_item namespace.now path.now (property_view property.now) }
{
    if property.namespace.as_slice() != namespace {
        return false;
    }
    let whole = property.path.as_slice();
    if !begins_with(path, whole) {
        return false;
    }
    is_index(bytes_behind(whole, path.len()))
}

// An item behind others.
fn next_item(position: usize, property: &Property, last: Option<LastItem>) -> LastItem
    requires fits { position + 1 < 2 ^ 64 }
    requires few { IfSome last (λ l. l.count ≤ position) }
    ensures value { result ≡ next_item position (property_view property.now) last }
    ensures few { result.count ≤ position + 1 }
{
    let before = match last {
        Some(last) => last.count,
        None => 0,
    };
    LastItem {
        position,
        count: before + 1,
        whole: property.whole,
    }
}

/// The last item of the array of a namespace and path, and how many items it has.
pub fn last_item(properties: &[Property], namespace: &[u8], path: &[u8]) -> Option<LastItem>
    ensures value { result ≡ last_item namespace.now path.now (map property_view properties.now) }
    ensures position { IfSome result (λ l. l.position + 1 ≤ length properties.now) }
    ensures few { IfSome result (λ l. l.count ≤ length properties.now) }
{
    let mut last = None;
    for i in 0..properties.len() {
        if is_item(&properties[i], namespace, path) {
            last = Some(next_item(i, &properties[i], last));
        }
    }
    last
}
