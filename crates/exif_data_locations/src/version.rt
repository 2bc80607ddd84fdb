//! GPS data that are a version alone, which names no location.

ghost use Rattle.std.specs.Prelude.{◌≡◌, Some, IfOk};
ghost use Rattle.std.specs.List.{list_any};
ghost use Rattle.std.specs.Option.{option_map};
ghost use Rattle.exif_data_locations.specs.Erasing.{gps_erased};
ghost use Rattle.exif_data_locations.specs.Known.{IsLocated};
ghost use Rattle.exif_data_locations.specs.Versions.{has_version_alone, may_locate, version_erased};
ghost use Rattle.exif_edit_base.specs.Readings.{read_of};

use crate::gps::erase_gps;
use exif_edit_base::Located;
use exif_edit_base::read::locate;
use exif_tiff::stop::Stop;
use exif_tiff::tiff::Parsed;
use exif_types::{Context, Field};
use std::alloc::{AllocError, Global};

// Whether a field of GPS data is not their version.
fn may_locate(field: &Field) -> bool
    ensures { result ≡ may_locate field.now }
{
    matches!(field.tag.0, Context::Gps) && field.tag.1 != 0
}

// Whether one of these fields is such.
fn any_locates(fields: &[Field]) -> bool
    ensures { result ≡ list_any may_locate fields.now }
{
    fields.iter().any(|field| may_locate(field))
}

// Whether all was read, and GPS data are a version alone, if there are some.
fn has_version_alone(parsed: &Parsed) -> bool
    ensures { result ≡ has_version_alone (read_of parsed.now) }
{
    parsed.faults.is_empty() && !any_locates(parsed.fields.as_slice())
}

// Data that were located, without their GPS data.
fn without_gps(alloc: Global, bytes: &[u8], located: Located) -> Result<Vec<u8>, AllocError>
    requires { IsLocated bytes.now located }
    ensures { IfOk result (λ new. new.items ≡ (gps_erased bytes.now).0) }
{
    let mut new = Vec::from_slice(alloc, bytes)?;
    erase_gps(alloc, new.as_mut_slice(), located)?;
    Ok(new)
}

/// Data without their GPS data, where these are a version alone, as some cameras write it: it names
/// no location. `None` where GPS data have another field, or not all of the data can be read.
pub fn without_version(alloc: Global, bytes: &[u8]) -> Result<Option<Vec<u8>>, AllocError>
    ensures { IfOk result (λ new. option_map (λ v. v.items) new ≡ version_erased bytes.now) }
{
    match locate(alloc, bytes) {
        Ok(located) if has_version_alone(&located.parsed) => {
            Ok(Some(without_gps(alloc, bytes, located)?))
        }
        Ok(_) => Ok(None),
        Err(Stop::Fault(_)) => Ok(None),
        Err(Stop::OutOfMemory) => Err(AllocError),
    }
}
