//! Where the values of entries are.

ghost use Rattle.std.specs.Prelude.{◌≡◌, ◌≤◌, ◌<◌, ◌+◌, ◌^◌, length};
ghost use Rattle.exif_base.specs.Orders.{number_of};
ghost use Rattle.exif_edit_base.specs.Spans.{value_space, value_span};

use crate::patch::Span;
use crate::read::{number16, number32};
use exif_base::Order;
use exif_types::FieldType;

/// Where the value of the entry at an offset is, outside of the entry.
pub fn value_space(order: Order, bytes: &[u8], entry: u32) -> Span
    requires { entry + 12 ≤ length bytes.now }
    ensures value { result ≡ value_space (number_of order) bytes.now entry }
    ensures near { result.offset < 2 ^ 32 }
    ensures bound { result.len < 2 ^ 36 }
{
    let at = entry as usize;
    let count = number32(order, bytes, at + 4);
    let offset = number32(order, bytes, at + 8);
    let size = match FieldType::of(number16(order, bytes, at + 2)) {
        None => 0,
        Some(field_type) => field_type.unit_length() as usize * count as usize,
    };
    if size <= 4 {
        Span { offset: 0, len: 0 }
    } else {
        Span { offset, len: size }
    }
}

/// Where the value of the entry at an offset is, outside of the entry, if it lies in the data.
pub fn value_span(order: Order, bytes: &[u8], entry: u32) -> Span
    requires { entry + 12 ≤ length bytes.now }
    ensures { result ≡ value_span (number_of order) bytes.now entry }
{
    let space = value_space(order, bytes, entry);
    if space.offset as usize + space.len <= bytes.len() {
        space
    } else {
        Span { offset: 0, len: 0 }
    }
}
