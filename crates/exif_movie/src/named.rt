//! Metadata items, by the keys of their metadata.

ghost use Rattle.std.specs.Prelude.{◌≡◌, ◌++◌, None, IfOk, OnOk};
ghost use Rattle.exif_movie.specs.Named.{keys_after, keys_in, kind_named, name_in, named, named_part};

use crate::keys::item_subject;
use crate::kind::{Container, Kind};
use crate::part::{Part, bytes_of, data_of};
use std::alloc::{AllocError, Global};

// The type of a box, as far as it is there.
fn name_in(part: Part, file: &[u8]) -> &[u8]
    ensures { result.now ≡ name_in part file.now }
{
    let bytes = bytes_of(part, file);
    if bytes.len() < 8 {
        &bytes[..0]
    } else {
        &bytes[4..8]
    }
}

// The keys of a box `keys`, behind its version and their number.
fn keys_in(keys: Option<Part>, file: &[u8]) -> &[u8]
    ensures { result.now ≡ keys_in keys file.now }
{
    match keys {
        Some(part) => {
            let content = data_of(part, file);
            if content.len() < 8 {
                &content[..0]
            } else {
                &content[8..]
            }
        }
        None => &file[..0],
    }
}

// The box with the keys of what follows a part: each box of metadata has its own.
fn keys_after(keys: Option<Part>, part: Part) -> Option<Part>
    ensures { result ≡ keys_after keys part }
{
    match part.kind {
        Kind::Keys => Some(part),
        Kind::Header(Container::Meta) => None,
        _ => keys,
    }
}

// What a part holds, where these are the keys.
fn kind_named(file: &[u8], keys: Option<Part>, part: Part) -> Kind
    ensures { result ≡ kind_named file.now keys part }
{
    match part.kind {
        Kind::Item(_) => Kind::Item(item_subject(name_in(part, file), keys_in(keys, file))),
        kind => kind,
    }
}

// A part, with the subject of an item.
fn named_part(file: &[u8], keys: Option<Part>, part: Part) -> Part
    ensures { result ≡ named_part file.now keys part }
{
    Part {
        kind: kind_named(file, keys, part),
        ..part
    }
}

/// The parts, where each metadata item has the subject of its key.
pub fn named(alloc: Global, file: &[u8], parts: &[Part]) -> Result<Vec<Part>, AllocError>
    ensures { IfOk result (λ found. found.items ≡ named file.now None parts.now) }
{
    let mut found = Vec::with_capacity(alloc, parts.len())?;
    let mut keys = None;
    for part in parts {
        found.push(named_part(file, keys, *part))?;
        keys = keys_after(keys, *part);
    }
    Ok(found)
}
