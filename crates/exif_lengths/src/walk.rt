//! A walk over the parts of a picture, piece after piece.

ghost use Rattle.std.specs.Prelude.{◌≡◌, ◌+◌, ◌<◌, ◌≤◌, ◌^◌, All, IfOk, IfSome, OnOk, length};
ghost use Rattle.std.specs.Option.{option_map};
ghost use Rattle.exif_inventory.specs.Promises.{AreInOrder, EndsIn};
ghost use Rattle.exif_lengths.specs.Walks.{by_kind, indexed, measured, measured_inventory, part_at, split_part, stepped, walk_view, with_run};

use crate::format::{Format, format_of, step_at};
use crate::pictures::pictures_fit;
use crate::step::Step;
use exif_inventory::{Kind, Part};
use std::alloc::{AllocError, Global};

// The parts so far, where the pieces begin that fit and are no part yet, how many bytes they have,
// and whether bytes of a scan may come.
#[derive(Drop)]
struct Walk {
    parts: Vec<Part>,
    from: usize,
    len: usize,
    scanning: bool,
}

// So many bytes from an offset on, as a part.
fn part_at(kind: Kind, picture: u64, from: usize, len: usize) -> Part
    ensures { result ≡ part_at kind picture from len }
{
    Part {
        kind,
        picture,
        offset: from,
        len,
        data_offset: from,
        data_len: len,
    }
}

// The pieces that fit, which are so many bytes from an offset on, become a part.
fn close(parts: &mut Vec<Part>, picture: u64, from: usize, len: usize) -> Result<(), AllocError>
    ensures { OnOk result (parts.new.items ≡ with_run picture from len parts.old.items) }
{
    if len != 0 {
        parts.push(part_at(Kind::Picture, picture, from, len))?;
    }
    Ok(())
}

// Adds a piece.
fn add(walk: &mut Walk, picture: u64, step: Step) -> Result<(), AllocError>
    requires { walk.old.from + walk.old.len + step.len < 2 ^ 64 }
    ensures { OnOk result (walk_view walk.new ≡ stepped picture (walk_view walk.old) step) }
{
    walk.scanning = step.scanning;
    if step.fits {
        walk.len += step.len;
        return Ok(());
    }
    close(&mut walk.parts, picture, walk.from, walk.len)?;
    let at = walk.from + walk.len;
    walk.parts
        .push(part_at(Kind::Unknown, picture, at, step.len))?;
    walk.from = at + step.len;
    walk.len = 0;
    Ok(())
}

// Adds a part of the picture to others, piece after piece.
fn split_part(
    parts: Vec<Part>,
    format: Format,
    file: &[u8],
    part: Part,
) -> Result<Vec<Part>, AllocError>
    requires ends { part.offset + part.len ≤ length file.now }
    requires order { AreInOrder 0 parts.items part.offset }
    requires inside { All (EndsIn (length file.now)) parts.items }
    ensures value { IfOk result (λ all. all.items ≡ split_part format file.now part parts.items) }
    ensures order { IfOk result (λ all. AreInOrder 0 all.items (part.offset + part.len)) }
    ensures inside { IfOk result (λ all. All (EndsIn (length file.now)) all.items) }
{
    let mut walk = Walk {
        parts,
        from: part.offset,
        len: 0,
        scanning: false,
    };
    let mut rest = &file[part.offset..][..part.len];
    while !rest.is_empty() {
        let step = step_at(format, walk.scanning, rest);
        add(&mut walk, part.picture, step)?;
        rest = &rest[step.len..];
    }
    let Walk {
        mut parts,
        from,
        len,
        ..
    } = walk;
    close(&mut parts, part.picture, from, len)?;
    Ok(parts)
}

// An index of pictures, if its data are one and have no more bytes; else a part whose kind is not
// known.
fn indexed(file: &[u8], part: Part) -> Part
    requires { EndsIn (length file.now) part }
    ensures value { result ≡ indexed file.now part }
    ensures offset { result.offset ≡ part.offset }
    ensures len { result.len ≡ part.len }
    ensures inside { EndsIn (length file.now) result }
{
    if pictures_fit(&file[part.data_offset..][..part.data_len]) {
        return part;
    }
    Part {
        kind: Kind::Unknown,
        ..part
    }
}

// Adds a part to others.
#[tactic(auto, using(crate::proofs::WalkSteps::behind_ordered))]
fn add_part(
    parts: Vec<Part>,
    format: Format,
    file: &[u8],
    part: Part,
) -> Result<Vec<Part>, AllocError>
    requires ends { part.offset + part.len ≤ length file.now }
    requires data { EndsIn (length file.now) part }
    requires order { AreInOrder 0 parts.items part.offset }
    requires inside { All (EndsIn (length file.now)) parts.items }
    ensures value { IfOk result (λ all. all.items
        ≡ by_kind part.kind format file.now part parts.items) }
    ensures order { IfOk result (λ all. AreInOrder 0 all.items (part.offset + part.len)) }
    ensures inside { IfOk result (λ all. All (EndsIn (length file.now)) all.items) }
{
    let mut parts = parts;
    match part.kind {
        Kind::Picture => split_part(parts, format, file, part),
        Kind::MultiPicture => {
            parts.push(indexed(file, part))?;
            Ok(parts)
        }
        _ => {
            parts.push(part)?;
            Ok(parts)
        }
    }
}

// The parts of a file, where those of the picture are split.
fn measured(
    alloc: Global,
    format: Format,
    file: &[u8],
    parts: &[Part],
) -> Result<Vec<Part>, AllocError>
    requires order { AreInOrder 0 parts.now (length file.now) }
    requires inside { All (EndsIn (length file.now)) parts.now }
    ensures value { IfOk result (λ all. all.items ≡ measured format file.now parts.now) }
    ensures covers { IfOk result (λ all. AreInOrder 0 all.items (length file.now)) }
    ensures inside { IfOk result (λ all. All (EndsIn (length file.now)) all.items) }
{
    let mut all = Vec::new(alloc);
    for part in parts {
        all = add_part(all, format, file, *part)?;
    }
    Ok(all)
}

/// The parts of a JPEG, WebP, PNG or JPEG XL file, as [`exif_inventory::inventory`] lists them, but
/// that a piece of the picture with other bytes than its standard gives it is a part of its own,
/// whose kind is not known: a marker, a segment, a chunk, a box, or bytes between segments. So is an
/// index of pictures that has more bytes than its fields. They too are in the order of their bytes,
/// and together they are the file. `None` for a file of another format.
///
/// It takes memory for the two lists.
pub fn inventory(alloc: Global, file: &[u8]) -> Result<Option<Vec<Part>>, AllocError>
    ensures answer { IfOk result (λ parts. option_map (λ v. v.items) parts
        ≡ measured_inventory file.now) }
    ensures covers { IfOk result (λ found. IfSome found
        (λ parts. AreInOrder 0 parts.items (length file.now))) }
    ensures inside { IfOk result (λ found. IfSome found
        (λ parts. All (EndsIn (length file.now)) parts.items)) }
{
    let Some(format) = format_of(file) else {
        return Ok(None);
    };
    match exif_inventory::inventory(alloc, file)? {
        Some(parts) => Ok(Some(measured(alloc, format, file, parts.as_slice())?)),
        None => Ok(None),
    }
}
