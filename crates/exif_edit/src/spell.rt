//! Values and entries as bytes.

ghost use Rattle.std.specs.Prelude.{◌≡◌, IfOk};
ghost use Rattle.exif_edit.specs.Setting.{entry_bytes};
ghost use Rattle.exif_types.specs.ValueTypes.{count_of};
ghost use Rattle.exif_layout.specs.Encoding.{encode};
ghost use Rattle.exif_layout.specs.Refused.{is_unknown};

use exif_base::{Counted, Order};
use exif_edit_base::patch::padded;
use exif_layout::item::{send_value, spelled_u16, spelled_u32};
use exif_types::Value;
use std::alloc::{AllocError, Global};

/// The bytes of a value.
pub fn encode(alloc: Global, order: Order, value: &Value) -> Result<Vec<u8>, AllocError>
    ensures { IfOk result (λ v. v.items ≡ encode order value.now) }
{
    let mut out = Counted::new(Vec::new(alloc));
    match send_value(&mut out, order, value) {
        Ok(()) => Ok(out.into_inner()),
        Err(_) => Err(AllocError),
    }
}

/// The 10 bytes behind the tag of an entry: the type of the value, how many items it has, and the
/// bytes of the value, or their offset.
pub fn entry_bytes(
    alloc: Global,
    order: Order,
    value: &Value,
    count: u32,
    offset: u32,
    encoded: &[u8],
) -> Result<Vec<u8>, AllocError>
    requires { count ≡ count_of value.now }
    ensures { IfOk result (λ v. v.items ≡ entry_bytes order value.now offset encoded.now) }
{
    let mut out = Vec::with_capacity(alloc, 10)?;
    out.extend_from_slice(&spelled_u16(order, value.type_number()))?;
    out.extend_from_slice(&spelled_u32(order, count))?;
    if encoded.len() <= 4 {
        out.extend_from_slice(padded(alloc, 4, encoded)?.as_slice())?;
    } else {
        out.extend_from_slice(&spelled_u32(order, offset))?;
    }
    Ok(out)
}

/// Whether the value's type is not known.
pub fn is_unknown(value: &Value) -> bool
    ensures { result ≡ is_unknown value.now }
{
    matches!(value, Value::Unknown(_, _, _))
}
