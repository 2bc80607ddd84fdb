//! What stays of the configuration of a HEVC decoder.

ghost use Rattle.std.specs.Prelude.{◌≡◌, ◌≤◌, length};
ghost use Rattle.exif_blanks.specs.ConfigSteps.{config_len, config_step, is_parameters, one_unit, unit_len, units_by, units_listed};
ghost use Rattle.exif_blanks.specs.HeifSteps.{units_step};

use crate::boxes::property_step;
use crate::bytes::{front_of, lesser, short};
use crate::steps::{ListedUnits, Place, Step, front, whole};
use exif_inventory::boxes::{Head, name_of};

/// How many bytes of fields the configuration of a HEVC decoder has before the units of its
/// bitstream, with the count of their lists; 0 for other properties.
pub fn config_len(name: &[u8]) -> usize
    ensures value { result ≡ config_len name.now }
    ensures most { result ≤ 23 }
{
    if name == b"hvcC".as_slice() {
        23
    } else if name == b"lhvC".as_slice() {
        6
    } else {
        0
    }
}

/// A configuration up to its first list of units, if it has all its fields.
pub fn config_step(space: usize, bytes: &[u8], head: Head) -> Step
    requires named { 8 ≤ length bytes.now }
    requires least { 8 ≤ head.front }
    requires front { head.front ≤ 16 }
    requires within { head.len ≤ length bytes.now }
    ensures { result ≡ config_step space bytes.now head }
{
    let fields = head.front + config_len(name_of(bytes));
    let behind = space.saturating_sub(head.len);
    if head.len < fields {
        return front(head.front, head.len, Place::Properties(behind));
    }
    let units = ListedUnits {
        lists: usize::from(bytes[fields - 1]),
        left: 0,
        space: head.len - fields,
        behind,
    };
    whole(fields, Place::Units(units))
}

// Whether a unit, by its first byte, has parameters.
fn is_parameters(b: u8) -> bool
    ensures { result ≡ is_parameters b }
{
    let kind = b / 2 % 64;
    kind == 32 || kind == 33 || kind == 34
}

// A list of units up to the first one: a type and a count.
fn units_listed(bytes: &[u8], units: ListedUnits) -> Step
    requires { 3 ≤ length bytes.now }
    ensures { result ≡ units_listed bytes.now units }
{
    let next = ListedUnits {
        lists: units.lists.saturating_sub(1),
        left: usize::from(short(&bytes[1..])),
        space: units.space.saturating_sub(3),
        behind: units.behind,
    };
    whole(3, Place::Units(next))
}

// How many bytes a unit takes, with its length.
fn unit_len(bytes: &[u8]) -> usize
    requires { 2 ≤ length bytes.now }
    ensures { result ≡ unit_len bytes.now }
{
    2 + usize::from(short(bytes))
}

// A unit behind its length.
fn one_unit(bytes: &[u8], units: ListedUnits) -> Step
    requires { 3 ≤ length bytes.now }
    ensures { result ≡ one_unit bytes.now units }
{
    let len = unit_len(bytes);
    let next = ListedUnits {
        lists: units.lists,
        left: units.left.saturating_sub(1),
        space: units.space.saturating_sub(len),
        behind: units.behind,
    };
    let kept = if is_parameters(bytes[2]) { len } else { 4 };
    front(kept, lesser(units.space, len), Place::Units(next))
}

// The bytes of a configuration that come next.
fn units_by(bytes: &[u8], units: ListedUnits) -> Step
    ensures { result ≡ units_by bytes.now units }
{
    if bytes.len() < 3 {
        front(0, units.space, Place::Properties(units.behind))
    } else if units.left > 0 {
        one_unit(bytes, units)
    } else if units.lists > 0 {
        units_listed(bytes, units)
    } else {
        front(0, units.space, Place::Properties(units.behind))
    }
}

/// The bytes of a configuration that come next, if there is space for some, or the property behind
/// it.
pub fn units_step(units: ListedUnits, bytes: &[u8]) -> Step
    ensures { result ≡ units_step units bytes.now }
{
    if units.space == 0 {
        property_step(units.behind, bytes)
    } else {
        units_by(front_of(units.space, bytes), units)
    }
}
