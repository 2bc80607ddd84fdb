//! Whether a HEIF, AVIF or TIFF file has a colour profile, which stays where it is scrubbed.

ghost use Rattle.std.specs.Prelude.{◌≡◌, ◌≤◌, IfOk, drop, length};
ghost use Rattle.std.specs.List.{list_any};
ghost use Rattle.exif_change.specs.Profiles.{begins_color, format_profile, has_color_box, has_color_field, is_color_field, read_color_field};

use crate::reading::ENTRY_LIMIT;
use exif_containers::container::{Format, format_of};
use exif_edit_base::Error;
use exif_edit_base::limit::check_limit;
use exif_edit_base::read::read;
use exif_tiff::stop::Stop;
use exif_types::{Context, Field};
use std::alloc::{AllocError, Global};

// Whether bytes go on with the name of a box of colours, and a profile in it.
fn begins_color(bytes: &[u8]) -> bool
    ensures { result ≡ begins_color bytes.now }
{
    bytes.starts_with(b"colrprof") || bytes.starts_with(b"colrrICC")
}

// The bytes of a file from an offset on.
fn bytes_from(file: &[u8], at: usize) -> &[u8]
    requires { at ≤ length file.now }
    ensures { result.now ≡ drop at file.now }
{
    &file[at..]
}

// Whether a HEIF file has a box of colours with a profile.
fn has_color_box(file: &[u8]) -> bool
    ensures { result ≡ has_color_box file.now }
{
    for at in 0..file.len() {
        if begins_color(bytes_from(file, at)) {
            return true;
        }
    }
    false
}

// Whether a field is a colour profile.
fn is_color_field(field: &Field) -> bool
    ensures { result ≡ is_color_field field.now }
{
    matches!(field.tag.0, Context::Tiff) && field.tag.1 == 34675
}

// Whether one of these fields is.
fn has_color(fields: &[Field]) -> bool
    ensures { result ≡ list_any is_color_field fields.now }
{
    fields.iter().any(|field| is_color_field(field))
}

// Whether one of the fields that are read of a TIFF file is.
fn read_color_field(alloc: Global, file: &[u8]) -> Result<bool, AllocError>
    ensures { IfOk result (λ has. has ≡ read_color_field file.now) }
{
    match read(alloc, file) {
        Ok(parsed) => Ok(has_color(parsed.fields.as_slice())),
        Err(Stop::Fault(_)) => Ok(false),
        Err(Stop::OutOfMemory) => Err(AllocError),
    }
}

// The same, if it does not have too many entries.
fn has_color_field(alloc: Global, file: &[u8]) -> Result<bool, AllocError>
    ensures { IfOk result (λ has. has ≡ has_color_field file.now) }
{
    match check_limit(alloc, file, Some(ENTRY_LIMIT)) {
        Ok(()) => read_color_field(alloc, file),
        Err(Error::OutOfMemory) => Err(AllocError),
        Err(_) => Ok(false),
    }
}

/// Whether a file is a HEIF, AVIF or TIFF file with a colour profile.
pub fn has_format_profile(alloc: Global, file: &[u8]) -> Result<bool, AllocError>
    ensures { IfOk result (λ has. has ≡ format_profile file.now) }
{
    match format_of(file) {
        Some(Format::Heif) => Ok(has_color_box(file)),
        Some(Format::Tiff) => has_color_field(alloc, file),
        _ => Ok(false),
    }
}
