//! What stays of lists of items: where their data are, which properties they have, and what they
//! refer to. What is behind their entries becomes zeros.

ghost use Rattle.std.specs.Prelude.{◌≡◌, ◌≤◌, ◌<◌, length};
ghost use Rattle.exif_inventory.specs.BoxHeaders.{head_of};
ghost use Rattle.exif_inventory_heif.specs.Extents.{head_len};
ghost use Rattle.exif_blanks.specs.HeifSteps.{association_len, associations_by, associations_listed, associations_step, item_len, location_len, locations_listed, locations_step, reference_kept, references_by, references_listed, references_step};

use crate::boxes::list_step;
use crate::bytes::{front_of, lesser, long, short};
use crate::steps::{AssociationList, LocationList, Place, Step, front, whole};
use exif_inventory::boxes::{Head, head_of};
use exif_inventory_heif::{extent_len, head_len, number, widths_of};

// How many bytes the number of an item takes.
fn item_len(wide: bool) -> usize
    ensures value { result ≡ item_len wide }
    ensures most { result ≤ 4 }
{
    if wide { 4 } else { 2 }
}

/// Which properties items have, up to the first entry, if the box says it.
pub fn associations_listed(bytes: &[u8], head: Head) -> Step
    requires front { head.front ≤ 16 }
    requires within { head.len ≤ length bytes.now }
    ensures { result ≡ associations_listed bytes.now head }
{
    if head.len < head.front + 8 {
        return front(head.front, head.len, Place::Boxes);
    }
    let found = AssociationList {
        left: long(&bytes[head.front + 4..]) as usize,
        wide: bytes[head.front] != 0,
        large: bytes[head.front + 3] % 2 != 0,
        space: head.len - (head.front + 8),
    };
    whole(head.front + 8, Place::Associations(found))
}

// How many bytes an entry takes: the number of an item, a count, and as many numbers.
fn association_len(found: AssociationList, bytes: &[u8]) -> usize
    requires { item_len found.wide < length bytes.now }
    ensures { result ≡ association_len found bytes.now }
{
    let width = item_len(found.wide);
    let each = if found.large { 2 } else { 1 };
    width + 1 + each * usize::from(bytes[width])
}

// The entry at the front of these bytes.
fn associations_by(bytes: &[u8], found: AssociationList) -> Step
    ensures { result ≡ associations_by bytes.now found }
{
    if found.left == 0 || bytes.len() <= item_len(found.wide) {
        return front(0, found.space, Place::Boxes);
    }
    let len = association_len(found, bytes);
    let next = AssociationList {
        left: found.left.saturating_sub(1),
        wide: found.wide,
        large: found.large,
        space: found.space.saturating_sub(len),
    };
    whole(lesser(found.space, len), Place::Associations(next))
}

/// Which properties an item has, if there is space for an entry, or the box behind all.
pub fn associations_step(found: AssociationList, bytes: &[u8]) -> Step
    ensures { result ≡ associations_step found bytes.now }
{
    if found.space == 0 {
        list_step(bytes)
    } else {
        associations_by(front_of(found.space, bytes), found)
    }
}

/// What items refer to, up to the first box.
pub fn references_listed(bytes: &[u8], head: Head) -> Step
    requires front { head.front ≤ 16 }
    requires within { head.len ≤ length bytes.now }
    ensures { result ≡ references_listed bytes.now head }
{
    if head.front < head.len {
        whole(head.front + 4, Place::References(bytes[head.front] != 0))
    } else {
        whole(bytes.len(), Place::Rest)
    }
}

// How many bytes of a reference stay: its header, the number of an item, a count, and as many
// numbers of others.
fn reference_kept(wide: bool, bytes: &[u8], head: Head) -> usize
    requires front { head.front ≤ 16 }
    requires within { head.len ≤ length bytes.now }
    ensures { result ≡ reference_kept wide bytes.now head }
{
    let width = item_len(wide);
    if head.len < head.front + width + 2 {
        return head.front;
    }
    let count = usize::from(short(&bytes[head.front + width..]));
    head.front + width + 2 + width * count
}

/// The box at the front of references. What is no box becomes zeros.
pub fn references_step(wide: bool, bytes: &[u8]) -> Step
    ensures { result ≡ references_step wide bytes.now }
{
    let Some(head) = head_of(bytes) else {
        return front(0, bytes.len(), Place::Rest);
    };
    front(
        reference_kept(wide, bytes, head),
        head.len,
        Place::References(wide),
    )
}

/// Where items' data are, up to the first entry, if the box says it.
pub fn locations_listed(bytes: &[u8], head: Head) -> Step
    requires front { head.front ≤ 16 }
    requires within { head.len ≤ length bytes.now }
    ensures { result ≡ locations_listed bytes.now head }
{
    if head.len < head.front + 10 {
        return whole(bytes.len(), Place::Rest);
    }
    let widths = widths_of(bytes[head.front], number(2, &bytes[head.front + 4..]));
    let found = LocationList {
        left: number(usize::from(widths.number), &bytes[head.front + 6..]),
        widths,
    };
    whole(
        head.front + 6 + usize::from(widths.number),
        Place::Locations(found),
    )
}

// How many bytes an entry takes, with its extents.
fn location_len(found: LocationList, bytes: &[u8]) -> usize
    requires { head_len found.widths ≤ length bytes.now }
    ensures { result ≡ location_len found bytes.now }
{
    let front = head_len(found.widths);
    front + extent_len(found.widths) * usize::from(short(&bytes[front - 2..]))
}

/// Where the data of an item are, if an entry is left.
pub fn locations_step(found: LocationList, bytes: &[u8]) -> Step
    ensures { result ≡ locations_step found bytes.now }
{
    if found.left == 0 || bytes.len() < head_len(found.widths) {
        return front(0, bytes.len(), Place::Rest);
    }
    let next = LocationList {
        left: found.left.saturating_sub(1),
        widths: found.widths,
    };
    whole(location_len(found, bytes), Place::Locations(next))
}
