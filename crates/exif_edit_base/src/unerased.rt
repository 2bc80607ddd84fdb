//! What may be GPS data and is not erased with them.

ghost use Rattle.std.specs.Prelude.{◌≡◌, ◌≤◌, ◌<◌, ◌^◌, ◌==◌, ◌||◌, length, Ok, IfOk};
ghost use Rattle.std.specs.List.{filter, list_any};
ghost use Rattle.exif_base.specs.Orders.{number_of};
ghost use Rattle.exif_edit_base.specs.Causes.{Makes};
ghost use Rattle.exif_edit_base.specs.Readings.{read_of, reading};
ghost use Rattle.exif_edit_base.specs.Walked.{Finds};
ghost use Rattle.exif_edit_base.specs.GpsOffsets.{Left, all_directories, is_full, is_left, leftovers, max_directories, max_pointers, pointers};

use crate::error::Error;
use crate::offsets::{
    MAX_DIRECTORIES, MAX_POINTERS, Target, all_directories, gps_offsets, gps_pointers, is_usable,
    pointers,
};
use crate::read::{locate, order_named};
use crate::walk::Located;
use exif_base::Order;
use std::alloc::{AllocError, Global};
use std::marker::Model;

/// What may be GPS data and is not erased with them.
#[derive(Debug, Drop)]
pub struct Unerased {
    /// Where GPS pointers lead that are not followed: out of the data, or over a limit.
    pub pointers: Vec<u32>,
    /// Whether there are as many directories, or pointers of one of them, as are followed, so that
    /// there may be more.
    pub meets_limit: bool,
}

impl Model for Unerased {
    ghost use Rattle.exif_edit_base.specs.GpsOffsets.{Left};

    ghost Value = { Left };

    ghost view = { λ l. record { pointers = l.pointers.items; meets_limit = l.meets_limit } };
}

// Whether a pointer leads to no directory of these, and behind the header.
fn is_left(bytes: &[u8], erased: &[u32], offset: u32) -> bool
    ensures { result ≡ is_left bytes.now erased.now offset }
{
    8 <= offset && !(is_usable(bytes, offset) && erased.contains(&offset))
}

// The pointers that do.
fn left_of(
    alloc: Global,
    bytes: &[u8],
    erased: &[u32],
    pointers: &[u32],
) -> Result<Vec<u32>, AllocError>
    ensures { IfOk result (λ v. v.items
        ≡ filter (is_left bytes.now erased.now) pointers.now) }
{
    let mut left = Vec::new(alloc);
    for offset in pointers {
        if is_left(bytes, erased, *offset) {
            left.push(*offset)?;
        }
    }
    Ok(left)
}

// Whether the directory at an offset has as many pointers as are followed.
fn is_full(alloc: Global, order: Order, bytes: &[u8], offset: u32) -> Result<bool, AllocError>
    requires { length bytes.now < 2 ^ 32 }
    ensures { IfOk result (λ full. full ≡ is_full (number_of order) bytes.now offset) }
{
    let children = pointers(alloc, order, bytes, Target::Child, offset)?;
    let offsets = pointers(alloc, order, bytes, Target::Gps, offset)?;
    Ok(children.len() == MAX_POINTERS || offsets.len() == MAX_POINTERS)
}

// Whether one of directories has.
fn is_any_full(
    alloc: Global,
    order: Order,
    bytes: &[u8],
    directories: &[u32],
) -> Result<bool, AllocError>
    requires { length bytes.now < 2 ^ 32 }
    ensures { IfOk result (λ full.
        full ≡ list_any (is_full (number_of order) bytes.now) directories.now) }
{
    for directory in directories {
        if is_full(alloc, order, bytes, *directory)? {
            return Ok(true);
        }
    }
    Ok(false)
}

// Whether there are as many directories, or pointers of one of them, as are followed.
fn meets_limit(
    alloc: Global,
    order: Order,
    bytes: &[u8],
    directories: &[u32],
) -> Result<bool, AllocError>
    requires { length bytes.now < 2 ^ 32 }
    ensures { IfOk result (λ met. met ≡ ((length directories.now == max_directories)
        || list_any (is_full (number_of order) bytes.now) directories.now)) }
{
    if directories.len() == MAX_DIRECTORIES {
        return Ok(true);
    }
    is_any_full(alloc, order, bytes, directories)
}

/// What [`leftovers`] answers to data that are located already.
pub fn leftovers_of(alloc: Global, bytes: &[u8], located: &Located) -> Result<Unerased, AllocError>
    requires reads { reading bytes.now ≡ Ok (read_of located.now.parsed) }
    requires offsets { Finds bytes.now located.now.walk }
    requires space { 8 ≤ length bytes.now }
    requires small { length bytes.now < 2 ^ 32 }
    ensures { IfOk result (λ (l : Left). leftovers bytes.now ≡ Ok l) }
{
    let order = order_named(located.parsed.little_endian);
    let directories = all_directories(alloc, order, bytes)?;
    let met = meets_limit(alloc, order, bytes, directories.as_slice())?;
    let erased = gps_offsets(alloc, order, bytes, located.walk.gps())?;
    let pointers = gps_pointers(alloc, order, bytes, directories.as_slice())?;
    let left = left_of(alloc, bytes, erased.as_slice(), pointers.as_slice())?;
    Ok(Unerased {
        pointers: left,
        meets_limit: met,
    })
}

/// What may be GPS data and is not erased with them: a program is to say so. It takes the memory of
/// one reading. The refusal is `Header`.
pub fn leftovers(alloc: Global, bytes: &[u8]) -> Result<Unerased, Error>
    ensures { Makes (λ (l : Left). l) result (leftovers bytes.now) }
{
    let located = locate(alloc, bytes)?;
    let left = leftovers_of(alloc, bytes, &located)?;
    Ok(left)
}
