//! Patches of located data as patches of the file.

ghost use Rattle.std.specs.Prelude.{◌≡◌, ◌++◌, [], ◌∷◌, IfOk, OnOk};
ghost use Rattle.std.specs.Io.Iter.{u64_saturate};
ghost use Rattle.exif_edit.specs.Spreading.{spread, spread_one};

use crate::Patch;
use exif_base::Items;
use exif_containers::Extent;
use std::alloc::{AllocError, Global};

// Adds a patch of these bytes.
fn add(alloc: Global, offset: u64, bytes: &[u8], spread: &mut Vec<Patch>) -> Result<(), AllocError>
    ensures { OnOk result (spread.new.items
        ≡ spread.old.items ++ record { offset = offset; bytes = bytes.now } ∷ []) }
{
    spread.push(Patch {
        offset,
        bytes: Items::from_slice(alloc, bytes)?,
    })?;
    Ok(())
}

// Adds a patch of data that are in these extents, cut where an extent ends.
fn add_spread(
    alloc: Global,
    extents: &[Extent],
    patch: &Patch,
    spread: &mut Vec<Patch>,
) -> Result<(), AllocError>
    ensures { OnOk result
        (spread.new.items ≡ spread.old.items ++ spread_one extents.now patch.now) }
{
    let mut offset = patch.offset;
    let mut bytes = patch.bytes.as_slice();
    for extent in extents {
        if extent.len <= offset {
            offset -= extent.len;
            continue;
        }
        let at = extent.offset.saturating_add(offset);
        let space = extent.len - offset;
        if bytes.len() as u64 <= space {
            return add(alloc, at, bytes, spread);
        }
        add(alloc, at, &bytes[..space as usize], spread)?;
        bytes = &bytes[space as usize..];
        offset = 0;
    }
    Ok(())
}

/// Patches of data that are in these extents, as patches of the file.
pub fn spread(
    alloc: Global,
    extents: &[Extent],
    patches: &[Patch],
) -> Result<Vec<Patch>, AllocError>
    ensures { IfOk result (λ v. v.items ≡ spread extents.now patches.now) }
{
    let mut all = Vec::with_capacity(alloc, patches.len())?;
    for patch in patches {
        add_spread(alloc, extents, patch, &mut all)?;
    }
    Ok(all)
}
