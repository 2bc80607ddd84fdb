//! Edited data read again: whether they give what they must.

ghost use Rattle.std.specs.Prelude.{◌≡◌, IfOk};
ghost use Rattle.exif_edit_base.specs.Readings.{read_of};
ghost use Rattle.exif_edit_base.specs.Rereading.{clears, still_reads, field_at_entry, without_entry_offsets};

use crate::read::read;
use exif_tiff::stop::Stop;
use exif_tiff::tiff::Parsed;
use exif_types::{Field, Value};
use std::alloc::{AllocError, Global};

/// Whether data are read so, with no more faults.
pub fn clears(alloc: Global, bytes: &[u8], wanted: &Parsed) -> Result<bool, AllocError>
    ensures { IfOk result (λ same. same ≡ clears bytes.now (read_of wanted.now)) }
{
    match read(alloc, bytes) {
        Ok(found) => Ok(
            found.little_endian == wanted.little_endian
                && found.fields.as_slice() == wanted.fields.as_slice()
                && found.faults.len() <= wanted.faults.len(),
        ),
        Err(Stop::Fault(_)) => Ok(false),
        Err(Stop::OutOfMemory) => Err(AllocError),
    }
}

// The field as an entry at offset 0 would give it.
fn forget_entry_offset(field: &mut Field)
    ensures { field.new ≡ field_at_entry 0 field.old }
{
    match &mut field.value {
        Value::Undefined(bytes, offset) => {
            if bytes.len() <= 4 {
                *offset = 8;
            }
        }
        Value::Unknown(_, _, offset) => *offset = 8,
        _ => {}
    }
}

/// The fields without the offsets of small values, which are those of their entries.
pub fn forget_entry_offsets(fields: &mut [Field])
    ensures { fields.new ≡ without_entry_offsets fields.old }
{
    for field in fields.iter_mut() {
        forget_entry_offset(field);
    }
}

/// Whether data are read so, wherever the entries are, with no more faults.
pub fn still_reads(alloc: Global, bytes: &[u8], mut wanted: Parsed) -> Result<bool, AllocError>
    ensures { IfOk result (λ same. same ≡ still_reads bytes.now (read_of wanted)) }
{
    forget_entry_offsets(wanted.fields.as_mut_slice());
    match read(alloc, bytes) {
        Ok(mut found) => {
            forget_entry_offsets(found.fields.as_mut_slice());
            Ok(
                found.little_endian == wanted.little_endian
                    && found.fields.as_slice() == wanted.fields.as_slice()
                    && found.faults.len() <= wanted.faults.len(),
            )
        }
        Err(Stop::Fault(_)) => Ok(false),
        Err(Stop::OutOfMemory) => Err(AllocError),
    }
}
