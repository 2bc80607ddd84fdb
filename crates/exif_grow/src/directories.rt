//! Directories, and the four bytes that hold the offset of each.

ghost use Rattle.std.specs.Prelude.{◌≡◌, ◌≤◌, ◌<◌, ◌+◌, ◌*◌, ◌^◌, length, IfSome, MatchOption, Some, None};
ghost use Rattle.exif_base.specs.Orders.{number_of};
ghost use Rattle.exif_grow.specs.Directories.{chain_at, chain_from, child_at, directory_at, directory_named, leading, next_slot, tag_slot};

use exif_base::Order;
use exif_edit_base::read::{number16, number32};
use exif_types::{Context, In};

/// A directory of the data: where its offset is stored, its offset, and how many entries it has.
#[derive(Clone, Copy, Debug)]
pub struct Directory {
    pub slot: u32,
    pub offset: u32,
    pub count: u16,
}

// The directory whose offset is stored in the four bytes at a slot, if it is whole in the data.
fn directory_at(order: Order, bytes: &[u8], slot: u32) -> Option<Directory>
    requires slot { slot + 4 ≤ length bytes.now }
    requires small { length bytes.now < 2 ^ 32 }
    ensures value { result ≡ directory_at (number_of order) bytes.now slot }
    ensures whole { IfSome result (λ d. d.offset + 12 * d.count + 6 ≤ length bytes.now) }
{
    let offset = number32(order, bytes, slot as usize);
    if offset == 0 || bytes.len() < offset as usize + 2 {
        return None;
    }
    let count = number16(order, bytes, offset as usize);
    if bytes.len() < offset as usize + 12 * count as usize + 6 {
        return None;
    }
    Some(Directory {
        slot,
        offset,
        count,
    })
}

// The next directory of the chain.
fn next_directory(order: Order, bytes: &[u8], directory: Directory) -> Option<Directory>
    requires whole { directory.offset + 12 * directory.count + 6 ≤ length bytes.now }
    requires small { length bytes.now < 2 ^ 32 }
    ensures value { result ≡ directory_at (number_of order) bytes.now (next_slot directory) }
    ensures whole { IfSome result (λ d. d.offset + 12 * d.count + 6 ≤ length bytes.now) }
{
    directory_at(
        order,
        bytes,
        directory.offset + 2 + 12 * directory.count as u32,
    )
}

// The directory that is k steps further in the chain.
fn chain_from(order: Order, bytes: &[u8], first: Directory, k: u16) -> Option<Directory>
    requires whole { first.offset + 12 * first.count + 6 ≤ length bytes.now }
    requires small { length bytes.now < 2 ^ 32 }
    ensures value { result ≡ chain_from (number_of order) bytes.now k (Some first) }
    ensures whole { IfSome result (λ d. d.offset + 12 * d.count + 6 ≤ length bytes.now) }
{
    let mut directory = first;
    let mut left = k;
    while left > 0 {
        match next_directory(order, bytes, directory) {
            None => return None,
            Some(next) => directory = next,
        }
        left -= 1;
    }
    Some(directory)
}

// The offset of the value in the first entry of a directory that has this tag.
fn tag_slot(order: Order, bytes: &[u8], number: u16, directory: Directory) -> Option<u32>
    requires whole { directory.offset + 12 * directory.count + 6 ≤ length bytes.now }
    requires small { length bytes.now < 2 ^ 32 }
    ensures value { result ≡ tag_slot (number_of order) bytes.now number directory.count
        (directory.offset + 2) }
    ensures slot { IfSome result (λ s. s + 4 ≤ length bytes.now) }
{
    let mut left = directory.count;
    let mut at = directory.offset + 2;
    while left > 0 {
        if number16(order, bytes, at as usize) == number {
            return Some(at + 8);
        }
        at += 12;
        left -= 1;
    }
    None
}

// The directory to which a tag of another one points.
fn child_at(
    order: Order,
    bytes: &[u8],
    number: u16,
    directory: Option<Directory>,
) -> Option<Directory>
    requires whole { IfSome directory (λ d. d.offset + 12 * d.count + 6 ≤ length bytes.now) }
    requires small { length bytes.now < 2 ^ 32 }
    ensures value { result ≡ child_at (number_of order) bytes.now number directory }
    ensures whole { IfSome result (λ d. d.offset + 12 * d.count + 6 ≤ length bytes.now) }
{
    let Some(directory) = directory else {
        return None;
    };
    match tag_slot(order, bytes, number, directory) {
        None => None,
        Some(slot) => directory_at(order, bytes, slot),
    }
}

// Directory k of the chain.
fn chain_at(order: Order, bytes: &[u8], k: u16) -> Option<Directory>
    requires header { 8 ≤ length bytes.now }
    requires small { length bytes.now < 2 ^ 32 }
    ensures value { result ≡ chain_at (number_of order) bytes.now k }
    ensures whole { IfSome result (λ d. d.offset + 12 * d.count + 6 ≤ length bytes.now) }
{
    match directory_at(order, bytes, 4) {
        None => None,
        Some(first) => chain_from(order, bytes, first, k),
    }
}

/// The directory of a context that belongs to a directory of the chain.
pub fn directory_named(
    order: Order,
    bytes: &[u8],
    context: Context,
    ifd_num: In,
) -> Option<Directory>
    requires header { 8 ≤ length bytes.now }
    requires small { length bytes.now < 2 ^ 32 }
    ensures value { result ≡ directory_named (number_of order) bytes.now context ifd_num.0 }
    ensures whole { IfSome result (λ d. d.offset + 12 * d.count + 6 ≤ length bytes.now) }
{
    let chained = chain_at(order, bytes, ifd_num.0);
    match context {
        Context::Tiff => chained,
        Context::Exif => child_at(order, bytes, 0x8769, chained),
        Context::Gps => child_at(order, bytes, 0x8825, chained),
        Context::Interop => {
            let exif = child_at(order, bytes, 0x8769, chained);
            child_at(order, bytes, 0xa005, exif)
        }
    }
}

/// How many entries of a directory are before the first one with a larger tag.
pub fn leading(order: Order, bytes: &[u8], number: u16, directory: Directory) -> u16
    requires whole { directory.offset + 12 * directory.count + 6 ≤ length bytes.now }
    requires small { length bytes.now < 2 ^ 32 }
    ensures value { result
        ≡ leading (number_of order) bytes.now number directory.count (directory.offset + 2) }
    ensures bound { result ≤ directory.count }
{
    let mut passed = 0;
    let mut at = directory.offset + 2;
    while passed < directory.count {
        if number16(order, bytes, at as usize) > number {
            return passed;
        }
        at += 12;
        passed += 1;
    }
    passed
}
