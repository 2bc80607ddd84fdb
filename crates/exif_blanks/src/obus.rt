//! What stays of the configuration of an AV1 decoder: the header of the sequence, and the headers of
//! other units.

ghost use Rattle.std.specs.Prelude.{◌≡◌, ◌<◌, ◌≤◌, length};
ghost use Rattle.exif_blanks.specs.ConfigSteps.{all_obu, has_size, is_sequence, long_obu, obu_head, obu_size, obus_by, obus_config, sized_obu};
ghost use Rattle.exif_blanks.specs.HeifSteps.{obus_step};

use crate::boxes::property_step;
use crate::bytes::{front_of, lesser};
use crate::steps::{ListedObus, Place, Step, front, whole};
use exif_inventory::boxes::Head;

// How many bytes a unit takes.
#[derive(Clone, Copy)]
struct ObuSize {
    // Its header, with its size.
    head: usize,
    // All of it.
    len: usize,
}

/// The configuration of an AV1 decoder up to its first unit.
pub fn obus_config(space: usize, head: Head) -> Step
    requires { head.front ≤ 16 }
    ensures { result ≡ obus_config space head }
{
    let behind = space.saturating_sub(head.len);
    if head.len < head.front + 4 {
        return front(head.front, head.len, Place::Properties(behind));
    }
    let obus = ListedObus {
        space: head.len - (head.front + 4),
        behind,
    };
    whole(head.front + 4, Place::Obus(obus))
}

// How many bytes the header of a unit takes, by its first byte.
fn obu_head(b: u8) -> usize
    ensures value { result ≡ obu_head b }
    ensures most { result ≤ 2 }
{
    if b / 4 % 2 == 0 { 1 } else { 2 }
}

// Whether a unit, by its first byte, says its size.
fn has_size(b: u8) -> bool
    ensures { result ≡ has_size b }
{
    b / 2 % 2 != 0
}

// Whether it has the parameters of a sequence.
fn is_sequence(b: u8) -> bool
    ensures { result ≡ is_sequence b }
{
    b / 8 % 16 == 1
}

// A unit that takes all bytes.
fn all_obu(bytes: &[u8], head: usize) -> ObuSize
    ensures { result ≡ all_obu bytes.now head }
{
    ObuSize {
        head,
        len: bytes.len(),
    }
}

// A unit whose size has two bytes.
fn long_obu(bytes: &[u8], head: usize) -> ObuSize
    requires most { head ≤ 2 }
    requires within { head < length bytes.now }
    ensures { result ≡ long_obu bytes.now head }
{
    if bytes.len() <= head + 1 || bytes[head + 1] >= 128 {
        return all_obu(bytes, head);
    }
    ObuSize {
        head: head + 2,
        len: head + 2 + usize::from(bytes[head] % 128) + 128 * usize::from(bytes[head + 1]),
    }
}

// A unit whose size has one byte or two.
fn sized_obu(bytes: &[u8], head: usize) -> ObuSize
    requires { head ≤ 2 }
    ensures { result ≡ sized_obu bytes.now head }
{
    if bytes.len() <= head {
        return all_obu(bytes, head);
    }
    let size = bytes[head];
    if size < 128 {
        return ObuSize {
            head: head + 1,
            len: head + 1 + usize::from(size),
        };
    }
    long_obu(bytes, head)
}

// How many bytes the unit at the front takes.
fn obu_size(bytes: &[u8]) -> ObuSize
    requires { 0 < length bytes.now }
    ensures { result ≡ obu_size bytes.now }
{
    let head = obu_head(bytes[0]);
    if has_size(bytes[0]) {
        sized_obu(bytes, head)
    } else {
        all_obu(bytes, head)
    }
}

// The unit at the front of these bytes.
fn obus_by(bytes: &[u8], obus: ListedObus) -> Step
    requires { 0 < length bytes.now }
    ensures { result ≡ obus_by bytes.now obus }
{
    let size = obu_size(bytes);
    let next = ListedObus {
        space: obus.space.saturating_sub(size.len),
        behind: obus.behind,
    };
    let kept = if is_sequence(bytes[0]) {
        size.len
    } else {
        size.head
    };
    front(kept, lesser(obus.space, size.len), Place::Obus(next))
}

/// The unit at the front, if there is space for one, or the property behind all.
pub fn obus_step(obus: ListedObus, bytes: &[u8]) -> Step
    requires { 0 < length bytes.now }
    ensures { result ≡ obus_step obus bytes.now }
{
    if obus.space == 0 {
        property_step(obus.behind, bytes)
    } else {
        obus_by(front_of(obus.space, bytes), obus)
    }
}
