//! All fields erased: the header stays, and no directory is left.

ghost use Rattle.std.specs.Prelude.{◌≡◌, ◌≢◌, ◌≤◌, ◌-◌, ◌<◌, ◌^◌, All, length, replicate, Err, IfOk, OnOk};
ghost use Rattle.exif_layout.specs.Encoding.{spelled};
ghost use Rattle.exif_edit_base.specs.Causes.{Edits};
ghost use Rattle.exif_edit_base.specs.Patches.{FitsIn, put_at};
ghost use Rattle.exif_edit_base.specs.Plans.{Plans};
ghost use Rattle.exif_edit_base.specs.declared.error.Error.TheVariants.{OutOfMemory};
ghost use Rattle.exif_edit.specs.Clearing.{IsCleared, clear_answer, clear_patches, clearing, empty_offset};

use exif_base::{BigEndian, Endian, Items, LittleEndian, Order};
use exif_edit_base::Error;
use exif_edit_base::patch::{Patch, Span, zeros};
use exif_edit_base::plan::{Plan, Wanted};
use exif_layout::item::spelled_u32;
use exif_tiff::tiff::header;
use std::alloc::{AllocError, Global};

// The offset of the directory of the chain in data of a length: behind the header, if there is
// space for its count and its next offset.
fn empty_offset(total: usize) -> u32
    ensures { result ≡ empty_offset total }
{
    if total < 14 { 0 } else { 8 }
}

// Puts the offset of the first directory into the header.
fn put_first(order: Order, bytes: &mut [u8], offset: u32)
    requires { 8 ≤ length bytes.old }
    ensures value { bytes.new ≡ put_at 4 (spelled order 4 offset) bytes.old }
    ensures len { length bytes.new ≡ length bytes.old }
{
    match order {
        Order::Big => BigEndian::writeu32(bytes, 4, offset),
        Order::Little => LittleEndian::writeu32(bytes, 4, offset),
    }
}

// Puts zeros over all bytes behind the header.
fn zero_behind(bytes: &mut [u8])
    requires { 8 ≤ length bytes.old }
    ensures value { bytes.new ≡ put_at 8 (replicate (length bytes.old - 8) 0) bytes.old }
    ensures len { length bytes.new ≡ length bytes.old }
{
    bytes[8..].fill(0);
}

// What clears data of a length.
fn clearing(alloc: Global, order: Order, total: usize) -> Result<Vec<Patch>, AllocError>
    ensures { IfOk result (λ ps. ps.items ≡ clearing order total) }
{
    let encoded = Vec::from_slice(alloc, &spelled_u32(order, empty_offset(total)))?;
    let mut patches = Vec::with_capacity(alloc, 2)?;
    patches.push(Patch {
        offset: 4,
        bytes: Items::from_vec(encoded),
    })?;
    let behind = Span {
        offset: 8,
        len: total.saturating_sub(8),
    };
    let patch = zeros(alloc, behind)?;
    patches.push(patch)?;
    Ok(patches)
}

/// What [`erase_all`] puts over the data, which need not be read again.
pub fn plan(alloc: Global, bytes: &[u8]) -> Result<Plan, Error>
    ensures answer { Plans result bytes.now (clear_patches bytes.now) }
    ensures within { IfOk result (λ p. All (FitsIn (length bytes.now)) p.patches.items) }
{
    let order = match header(bytes) {
        Ok(order) => order,
        Err(fault) => return Err(Error::Header(fault)),
    };
    let patches = clearing(alloc, order, bytes.len())?;
    Ok(Plan {
        patches,
        wanted: Wanted::Anything,
    })
}

/// Erases all fields: the byte order and the number 42 stay, and all behind them becomes zero, but
/// for the offset of an empty directory. It takes no memory.
pub fn erase_all(bytes: &mut [u8]) -> Result<(), Error>
    ensures answer { Edits result bytes.old bytes.new (clear_answer bytes.old) }
    ensures cleared { OnOk result (IsCleared bytes.old bytes.new) }
    ensures no_memory { result ≢ Err OutOfMemory }
{
    match header(bytes) {
        Ok(order) => {
            put_first(order, bytes, empty_offset(bytes.len()));
            zero_behind(bytes);
            Ok(())
        }
        Err(fault) => Err(Error::Header(fault)),
    }
}
