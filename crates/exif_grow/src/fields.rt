//! Several fields set, one after the other.

ghost use Rattle.std.specs.Prelude.{◌≡◌, IfOk};
ghost use Rattle.exif_edit_base.specs.Causes.{Makes};
ghost use Rattle.exif_grow.specs.FieldPromises.{AreSet};
ghost use Rattle.exif_grow.specs.Fields.{field_grown, fields_grown};

use crate::alike::make_alike;
use crate::{grow_value, grown};
use exif_edit_base::Error;
use exif_types::Field;
use std::alloc::Global;

// The new data with a field, and all fields of its name alike.
fn set_field(alloc: Global, bytes: &[u8], field: &Field) -> Result<Vec<u8>, Error>
    ensures answer { Makes (λ v. v.items) result (field_grown field.now bytes.now) }
{
    let growth = grow_value(alloc, bytes, field.tag, field.ifd_num, &field.value)?;
    let data = grown(alloc, &growth, bytes)?;
    make_alike(alloc, data, field.tag, field.ifd_num)
}

/// The data with several fields set by [`grow_value`], one after the other. A directory may hold a
/// tag more than once, and some programs read the first such entry; so each field of the name is
/// set: the other entries of the name become copies of the one that was set, and their old values
/// become zeros, unless the data would be read otherwise then.
///
/// The first refusal is that of the whole. It takes the memory of one `grow_value`, and twice that
/// of the new data.
pub fn set_fields(alloc: Global, bytes: &[u8], fields: &[Field]) -> Result<Vec<u8>, Error>
    ensures answer { Makes (λ v. v.items) result (fields_grown fields.now bytes.now) }
    ensures set { IfOk result (λ v. AreSet fields.now bytes.now v.items) }
{
    let mut data = Vec::from_slice(alloc, bytes)?;
    for field in fields {
        data = set_field(alloc, data.as_slice(), field)?;
    }
    Ok(data)
}
