//! Directories of TIFF data: their entries, their ends and their children (TIFF 6.0, section 2;
//! Exif 2.32, 4.6.3).

ghost use Rattle.std.specs.Prelude.{◌≡◌, ◌≤◌, ◌<◌, ◌+◌, ◌*◌, ◌^◌, length, IfOk};
ghost use Rattle.exif_tiff.specs.Trace.{entry_value, whole_entries, directory_end, child_of};

use crate::{Fault, decode_value};
use exif_base::Endian;
use exif_types::{Context, FieldType, Value};
use std::alloc::{AllocError, Global};

/// The value of the entry at an offset, if it lies in the data.
pub fn entry_value<E: Endian>(
    alloc: Global,
    bytes: &[u8],
    at: usize,
) -> Result<Option<Value>, AllocError>
    requires small { length bytes.now < 2 ^ 32 }
    requires whole { at + 12 ≤ length bytes.now }
    ensures { IfOk result (λ found. found ≡ entry_value E.number_of bytes.now at) }
{
    let number = E::loadu16(bytes, at + 2);
    let count = E::loadu32(bytes, at + 4);
    let Some(field_type) = FieldType::of(number) else {
        return Ok(Some(Value::Unknown(number, count, (at + 8) as u32)));
    };
    let size = field_type.unit_length() as u64 * count as u64;
    let offset = if size <= 4 {
        (at + 8) as u32
    } else {
        E::loadu32(bytes, at + 8)
    };
    if offset as u64 + size > bytes.len() as u64 {
        return Ok(None);
    }
    Ok(Some(decode_value::<E>(alloc, field_type, count, bytes, offset)?))
}

/// How many entries of the directory at an offset are whole.
pub fn whole_entries<E: Endian>(bytes: &[u8], offset: u32) -> usize
    ensures value { result ≡ whole_entries E.number_of bytes.now offset }
    ensures room { 0 < result → offset + 2 + 12 * result ≤ length bytes.now }
{
    let start = offset as usize + 2;
    if bytes.len() < start {
        return 0;
    }
    let count = E::loadu16(bytes, offset as usize) as usize;
    count.min((bytes.len() - start) / 12)
}

/// How the directory at an offset ends: with the offset of the next one, or a fault.
pub fn directory_end<E: Endian>(bytes: &[u8], offset: u32) -> Result<u32, Fault>
    ensures { result ≡ directory_end E.number_of bytes.now offset }
{
    let start = offset as usize + 2;
    if bytes.len() < start {
        return Err(Fault::TruncatedCount);
    }
    let count = E::loadu16(bytes, offset as usize) as usize;
    if (bytes.len() - start) / 12 < count {
        return Err(Fault::TruncatedDirectory);
    }
    if bytes.len() < start + 12 * count + 4 {
        return Err(Fault::TruncatedNextOffset);
    }
    Ok(E::loadu32(bytes, start + 12 * count))
}

/// The context of the directory that a tag points to, if it is a pointer.
pub fn child_of(context: Context, number: u16) -> Option<Context>
    ensures { result ≡ child_of context number }
{
    match (context, number) {
        (Context::Tiff, 0x8769) => Some(Context::Exif),
        (Context::Tiff, 0x8825) => Some(Context::Gps),
        (Context::Exif, 0xa005) => Some(Context::Interop),
        _ => None,
    }
}
