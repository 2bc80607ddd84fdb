//! Names that are listed, each ended by a zero byte.

ghost use Rattle.std.specs.Prelude.{◌≡◌, ◌++◌, ◌==◌, IfOk, OnOk, map, string_bytes};
ghost use Rattle.std.specs.List.{slice_split};
ghost use Rattle.exif_decisions.specs.Names.{listed_name, names_listed};

use crate::escaped::readable;
use std::alloc::{AllocError, Global};

/// The names that bytes list, each ended by a zero byte, as text ([`readable`]) and in their order.
/// The last may lack that byte. It takes memory for the names, and 16 bytes for each.
pub fn names_listed(alloc: Global, listing: &[u8]) -> Result<Vec<String>, AllocError>
    ensures { IfOk result (λ names. map string_bytes names.items ≡ names_listed listing.now) }
{
    let parts = parts_of(alloc, listing)?;
    let mut names = Vec::new(alloc);
    for part in parts.as_slice() {
        push_name(alloc, part, &mut names)?;
    }
    Ok(names)
}

// What is between the zero bytes.
fn parts_of(alloc: Global, listing: &[u8]) -> Result<Vec<&[u8]>, AllocError>
    ensures { IfOk result (λ parts. map (λ part. part.now) parts.items
        ≡ slice_split (λ byte. byte == 0) listing.now) }
{
    listing.split(|byte| *byte == 0).collect(alloc)
}

// Adds a name as text, if it has a byte.
fn push_name(alloc: Global, part: &[u8], names: &mut Vec<String>) -> Result<(), AllocError>
    ensures { OnOk result (map string_bytes names.new.items
        ≡ map string_bytes names.old.items ++ listed_name part.now) }
{
    if !part.is_empty() {
        names.push(readable(alloc, part)?)?;
    }
    Ok(())
}
