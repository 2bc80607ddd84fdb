//! Boxes that contain others, opened.

ghost use Rattle.std.specs.Prelude.{◌≡◌, ◌++◌, IfOk, OnOk};
ghost use Rattle.exif_movie.specs.Walks.{header_of, opened, opened_file, opened_one};

use crate::kind::{Container, Kind};
use crate::part::{Part, data_of};
use crate::walk::push_boxes;
use std::alloc::{AllocError, Global};

// The header of a box whose content is boxes.
fn header_of(container: Container, part: Part) -> Part
    ensures { result ≡ header_of container part }
{
    Part {
        kind: Kind::Header(container),
        end: part.data_offset,
        ..part
    }
}

// Appends a part, opened if it is a box that contains others.
fn push_opened(file: &[u8], level: u8, part: Part, found: &mut Vec<Part>) -> Result<(), AllocError>
    ensures { OnOk result
        (found.new.items ≡ found.old.items ++ opened_one file.now level part) }
{
    match part.kind {
        Kind::Unopened(container) => {
            found.push(header_of(container, part))?;
            push_boxes(
                container,
                level,
                part.data_offset,
                data_of(part, file),
                found,
            )
        }
        _ => {
            found.push(part)?;
            Ok(())
        }
    }
}

// All parts, each box that contains others opened.
fn opened(alloc: Global, file: &[u8], level: u8, parts: &[Part]) -> Result<Vec<Part>, AllocError>
    ensures { IfOk result (λ found. found.items ≡ opened file.now level parts.now) }
{
    let mut found = Vec::new(alloc);
    for part in parts {
        push_opened(file, level, *part, &mut found)?;
    }
    Ok(found)
}

/// The boxes of a file, opened six levels deep.
pub fn opened_file(alloc: Global, file: &[u8]) -> Result<Vec<Part>, AllocError>
    ensures { IfOk result (λ found. found.items ≡ opened_file file.now) }
{
    let mut parts = Vec::new(alloc);
    push_boxes(Container::File, 0, 0, file, &mut parts)?;
    let parts = opened(alloc, file, 1, &parts)?;
    let parts = opened(alloc, file, 2, &parts)?;
    let parts = opened(alloc, file, 3, &parts)?;
    let parts = opened(alloc, file, 4, &parts)?;
    let parts = opened(alloc, file, 5, &parts)?;
    opened(alloc, file, 6, &parts)
}
