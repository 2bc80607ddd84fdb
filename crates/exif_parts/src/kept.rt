//! What stays of a piece of a file.

ghost use Rattle.std.specs.Prelude.{◌≡◌, ◌++◌, OnOk};
ghost use Rattle.exif_parts.specs.Kept.{adobe_fields, jfif_fields, kept, stays, trimmed};

use crate::marker::{body_of, is_reserved, marker_of, prefix_of, split};
use exif_inventory::Kind;
use exif_segments::Remove;
use std::alloc::AllocError;

// How many bytes JFIF's and Adobe's segments have with their fields alone, behind the marker.
const JFIF_LEN: u8 = 16;

const ADOBE_LEN: u8 = 14;

/// Whether a piece of this kind, which may begin with a marker, stays.
pub fn stays(remove: Remove, kind: Kind, marker: Option<u8>) -> bool
    ensures { result ≡ stays remove kind marker }
{
    match remove {
        Remove::Exif => !matches!(kind, Kind::Exif),
        Remove::Metadata => match kind {
            Kind::Picture | Kind::Jfif | Kind::IccProfile | Kind::Adobe => true,
            Kind::Unknown => is_reserved(marker),
            _ => false,
        },
    }
}

// Adds JFIF's segment with its fields alone, and without a thumbnail.
fn add_jfif(out: &mut Vec<u8>, piece: &[u8]) -> Result<(), AllocError>
    ensures { OnOk result (out.new.items ≡ out.old.items ++ jfif_fields piece.now) }
{
    let body = body_of(piece);
    if body.len() < usize::from(JFIF_LEN) {
        return out.extend_from_slice(piece);
    }
    out.extend_from_slice(prefix_of(piece))?;
    out.extend_from_slice(&[0, JFIF_LEN])?;
    out.extend_from_slice(split(12, split(2, body).1).0)?;
    out.extend_from_slice(&[0, 0])
}

// Adds Adobe's segment with its fields alone.
fn add_adobe(out: &mut Vec<u8>, piece: &[u8]) -> Result<(), AllocError>
    ensures { OnOk result (out.new.items ≡ out.old.items ++ adobe_fields piece.now) }
{
    let body = body_of(piece);
    if body.len() < usize::from(ADOBE_LEN) {
        return out.extend_from_slice(piece);
    }
    out.extend_from_slice(prefix_of(piece))?;
    out.extend_from_slice(&[0, ADOBE_LEN])?;
    out.extend_from_slice(split(12, split(2, body).1).0)
}

// Adds a piece that stays, without what goes of it.
fn add_trimmed(
    out: &mut Vec<u8>,
    remove: Remove,
    kind: Kind,
    piece: &[u8],
) -> Result<(), AllocError>
    ensures { OnOk result (out.new.items ≡ out.old.items ++ trimmed remove kind piece.now) }
{
    match (remove, kind) {
        (Remove::Metadata, Kind::Jfif) => add_jfif(out, piece),
        (Remove::Metadata, Kind::Adobe) => add_adobe(out, piece),
        _ => out.extend_from_slice(piece),
    }
}

/// Adds what stays of a piece.
pub fn add_kept(
    out: &mut Vec<u8>,
    remove: Remove,
    kind: Kind,
    piece: &[u8],
) -> Result<(), AllocError>
    ensures { OnOk result (out.new.items ≡ out.old.items ++ kept remove kind piece.now) }
{
    if stays(remove, kind, marker_of(piece)) {
        return add_trimmed(out, remove, kind, piece);
    }
    Ok(())
}
