//! The lines of the parts of a file, for people.

ghost use Rattle.std.specs.Prelude.{◌≡◌, [], IfOk, OnOk, string_bytes};
ghost use Rattle.std.specs.List.{list_any};
ghost use Rattle.exif_check.specs.Lines.{file_line, is_open, joined, lines_from, lines_text, listed_lines, with_line};
ghost use Rattle.exif_check.specs.Names.{is_listed};

use crate::checked::{Checked, Location};
use crate::line::{Line, is_listed};
use exif_inventory::{Kind, Part};
use std::alloc::{AllocError, Global};

// The line of a part behind the name of its file.
fn file_line(alloc: Global, name: &str, checked: Checked) -> Result<String, AllocError>
    ensures { IfOk result (λ text. string_bytes text ≡ file_line name.now checked) }
{
    let line = Line(checked);
    format!(in alloc; "{name}: {line}\n")
}

// Whether a part is listed.
fn any_listed(parts: &[Checked]) -> bool
    ensures { result ≡ list_any is_listed parts.now }
{
    parts.iter().any(|checked| is_listed(*checked))
}

// Whether a part is one that is not known, and may hold a location.
fn is_open(checked: Checked) -> bool
    ensures { result ≡ is_open checked }
{
    matches!(checked.part.kind, Kind::Unknown)
        && matches!(checked.location, Location::Unknown)
        && !checked.maker_note
}

// Two parts as one, if neither is known and the second follows the first.
fn joined(first: Checked, second: Checked) -> Option<Checked>
    ensures { result ≡ joined first second }
{
    let end = first.part.offset.checked_add(first.part.len)?;
    let len = first.part.len.checked_add(second.part.len)?;
    let follows = end == second.part.offset && first.part.picture == second.part.picture;
    if !(is_open(first) && is_open(second) && follows) {
        return None;
    }
    Some(Checked {
        part: Part { len, ..first.part },
        location: first.location,
        maker_note: first.maker_note,
    })
}

// Adds the line of a part, if it is listed.
fn add_line(
    alloc: Global,
    name: &str,
    checked: Checked,
    text: &mut String,
) -> Result<(), AllocError>
    ensures { OnOk result
        (string_bytes text.new ≡ with_line name.now (string_bytes text.old) checked) }
{
    if is_listed(checked) {
        text.push_str(file_line(alloc, name, checked)?.as_str())?;
    }
    Ok(())
}

// The lines of those that are listed, from this one on.
fn lines_from(
    alloc: Global,
    name: &str,
    first: Checked,
    parts: &[Checked],
) -> Result<String, AllocError>
    ensures { IfOk result (λ text. string_bytes text ≡ lines_from name.now [] first parts.now) }
{
    let mut text = String::new(alloc);
    let mut last = first;
    for checked in parts {
        match joined(last, *checked) {
            Some(longer) => last = longer,
            None => {
                add_line(alloc, name, last, &mut text)?;
                last = *checked;
            }
        }
    }
    add_line(alloc, name, last, &mut text)?;
    Ok(text)
}

// The lines of those that are listed.
fn listed_lines(alloc: Global, name: &str, parts: &[Checked]) -> Result<String, AllocError>
    ensures { IfOk result (λ text. string_bytes text ≡ listed_lines name.now parts.now) }
{
    match parts.split_first() {
        Some((first, rest)) => lines_from(alloc, name, *first, rest),
        None => Ok(String::new(alloc)),
    }
}

/// The lines of the parts of a file that are listed ([`is_listed`]), each behind its name; or a
/// line that it has no metadata, where none is. Parts that are not known and follow one another, as
/// the boxes of an AVIF sequence, have one line. It takes the memory of the lines.
pub fn lines_of(alloc: Global, name: &str, parts: &[Checked]) -> Result<String, AllocError>
    ensures { IfOk result (λ text. string_bytes text ≡ lines_text name.now parts.now) }
{
    if any_listed(parts) {
        listed_lines(alloc, name, parts)
    } else {
        format!(in alloc; "{name}: no metadata\n")
    }
}
