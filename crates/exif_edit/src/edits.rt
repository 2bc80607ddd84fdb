//! Edits of Exif data, in memory and as patches.

ghost use Rattle.std.specs.Prelude.{◌≡◌, All, length, IfOk, OnOk};
ghost use Rattle.exif_edit_base.specs.Causes.{Edits, Makes};
ghost use Rattle.exif_edit_base.specs.Patches.{FitsIn};
ghost use Rattle.exif_edit_base.specs.Plans.{Plans};
ghost use Rattle.exif_edit.specs.Edits.{IsEdited, limited_edit, limited_patches};

use crate::clear::erase_all;
use crate::{clear, erase, remove, set};
use exif_edit_base::Error;
use exif_edit_base::patch::Patch;
use exif_edit_base::plan::{Plan, carry_out, try_on_copy};
use exif_types::{In, Tag, Value};
use std::alloc::Global;

/// An edit of Exif data. Data whose changed bytes have no other use are never refused with
/// `SharedBytes` (see [`laws`](crate::laws)).
#[derive(Drop)]
pub enum Edit {
    /// Sets the last value of a name: in its entry where it takes at most four bytes, else over the
    /// old one. The type, the count and the offset of the entry follow, and bytes of the old value
    /// that are left become zero.
    ///
    /// Refusals are `NamesOffsets`, `UnknownType`, `Header`, `FieldNotFound`, `ValueTooLong` and
    /// `SharedBytes`. It takes the memory of one reading, and where bytes are shared of a second.
    Set {
        /// The tag of the field.
        tag: Tag,
        /// Its directory.
        ifd_num: In,
        /// The new value.
        value: Value,
    },
    /// Puts zeros over the GPS directories to which data point, and over their values: those that
    /// reading visits, and those to which a GPS pointer of type SHORT, LONG, SLONG or IFD leads
    /// from the chain, however long it is, from Exif and interoperability directories, and from
    /// SubIFDs. Of a value that is cut off by the end of the data the part that is there goes. The
    /// pointers stay, to empty directories. Locations in XMP, in maker notes and in bytes that
    /// nothing points to stay too; [`leftovers`](crate::leftovers) answers the GPS pointers that
    /// are not followed.
    ///
    /// Refusals are `Header` and `SharedBytes`. It takes the memory of one reading and of the
    /// zeros, and where bytes are shared of a second reading.
    EraseGps,
    /// Erases all fields of a name from their directories. The entries behind them and the offset
    /// of the next directory move up; the end of the directory and the bytes of the values become
    /// zero. A directory that was cut ends with no next offset then.
    ///
    /// Refusals are `NamesOffsets`, `Header`, `FieldNotFound` and `SharedBytes`. It takes the
    /// memory of two readings and of the directories.
    EraseField {
        /// The tag of the fields.
        tag: Tag,
        /// Their directory.
        ifd_num: In,
    },
    /// Erases all fields: the byte order and the number 42 stay, and all behind them becomes zero,
    /// but for the offset of an empty directory.
    ///
    /// The refusal is `Header`. It takes no memory.
    EraseAll,
}

// What an edit puts over data, and how they must be read then.
fn plan(alloc: Global, edit: &Edit, limit: Option<u64>, bytes: &[u8]) -> Result<Plan, Error>
    ensures answer { Plans result bytes.now (limited_patches limit edit.now bytes.now) }
    ensures within { IfOk result (λ p. All (FitsIn (length bytes.now)) p.patches.items) }
{
    match edit {
        Edit::Set {
            tag,
            ifd_num,
            value,
        } => set::plan(alloc, bytes, limit, *tag, *ifd_num, value),
        Edit::EraseGps => erase::plan(alloc, bytes, limit),
        Edit::EraseField { tag, ifd_num } => remove::plan(alloc, bytes, limit, *tag, *ifd_num),
        Edit::EraseAll => clear::plan(alloc, bytes),
    }
}

/// Edits data in memory. An error leaves all bytes as they were.
///
/// Data with more entries than the limit, if there is one, are refused with `Header`, as a reader
/// refuses them; all fields are erased whatever their number. The other refusals are those of the
/// edit, and so is the memory: the limit takes no reading of its own.
pub fn apply(alloc: Global, edit: &Edit, limit: Option<u64>, bytes: &mut [u8]) -> Result<(), Error>
    ensures answer { Edits result bytes.old bytes.new (limited_edit limit edit.now bytes.old) }
    ensures promise { OnOk result (IsEdited edit.now bytes.old bytes.new) }
{
    if let Edit::EraseAll = edit {
        return erase_all(bytes);
    }
    let plan = plan(alloc, edit, limit, bytes)?;
    carry_out(alloc, bytes, plan)
}

/// What [`apply`] puts over the data, which stay as they are. The refusals are the same. Where
/// bytes are shared it takes the memory of a copy, too.
pub fn patches_of(
    alloc: Global,
    edit: &Edit,
    limit: Option<u64>,
    bytes: &[u8],
) -> Result<Vec<Patch>, Error>
    ensures answer { Makes (λ ps. ps.items) result
        (limited_patches limit edit.now bytes.now) }
    ensures within { IfOk result (λ ps. All (FitsIn (length bytes.now)) ps.items) }
{
    let plan = plan(alloc, edit, limit, bytes)?;
    try_on_copy(alloc, bytes, plan)
}
