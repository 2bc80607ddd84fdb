//! Tags by their names, and the list of them.

ghost use Rattle.std.specs.Prelude.{◌≡◌, IfOk, flat_map, map, string_bytes};
ghost use Rattle.exif_files.specs.Names.{name_if};
ghost use Rattle.exif_table.specs.View.{row_view};
ghost use Rattle.exif_decisions.specs.Listing.{WritesText, tag_line, tags_text};
ghost use Rattle.exif_decisions.specs.Tags.{canonical_word, near_of, nearer, nearest, nearest_in, nearest_of, spelled, type_word, word_for};

use exif_assign::{Spelling, spelling_of};
use exif_base::{Sink, send_all};
use exif_columns::tag_of_name;
use exif_table::rows::rows;
use exif_table::{Context, Row};
use exif_types::Tag;
use std::alloc::{AllocError, Global};
use std::io;
use strsim::levenshtein;

// How far a name may be from what was written to be suggested.
const FAR: usize = 5;

/// A word in which the name of a tag before its `=` is spelled as the standard has it, whatever its
/// case was; a word of another kind as it is.
pub fn canonical_word(alloc: Global, word: &str) -> Result<String, AllocError>
    ensures { IfOk result (λ text. string_bytes text ≡ canonical_word word.now) }
{
    match word.split_once('=') {
        Some((name, text)) => spelled(alloc, word, name, text),
        None => String::from_str(alloc, word),
    }
}

// A word that begins with a name and `=`, with the name as the standard has it.
fn spelled(alloc: Global, word: &str, name: &str, text: &str) -> Result<String, AllocError>
    ensures { IfOk result (λ all. string_bytes all ≡ spelled word.now name.now text.now) }
{
    if let Some(tag) = tag_of_name(name) {
        return format!(in alloc; "{tag}={text}");
    }
    if name.eq_ignore_ascii_case("Location") {
        return format!(in alloc; "Location={text}");
    }
    String::from_str(alloc, word)
}

/// The name of a tag that is nearest to a name, whatever their case, if one is near. Of several
/// that are as near it is the first of Tiff, Exif, Gps and Interop.
#[tactic(auto, unfolding(crate::specs::Tags::nearest))]
pub fn nearest(alloc: Global, name: &str) -> Result<Option<&'static str>, AllocError>
    ensures { IfOk result (λ found. name_if found ≡ nearest name.now) }
{
    let name = name.to_ascii_lowercase(alloc)?;
    let name = name.as_str();
    let best = Near {
        name: None,
        distance: FAR,
    };
    let best = nearest_in(alloc, name, Context::Tiff, best)?;
    let best = nearest_in(alloc, name, Context::Exif, best)?;
    let best = nearest_in(alloc, name, Context::Gps, best)?;
    let best = nearest_in(alloc, name, Context::Interop, best)?;
    Ok(best.name)
}

// The nearest name so far, and how far it is.
#[derive(Clone, Copy)]
struct Near {
    name: Option<&'static str>,
    distance: usize,
}

// The nearest name, with those of a context.
fn nearest_in(alloc: Global, name: &str, context: Context, best: Near) -> Result<Near, AllocError>
    ensures { IfOk result (λ near. near_of near ≡ nearest_in name.now context (near_of best)) }
{
    nearest_of(alloc, name, rows(context), best)
}

// The nearest name, with those of rows.
#[tactic(auto, unfolding(crate::specs::Tags::nearest_of))]
fn nearest_of(
    alloc: Global,
    name: &str,
    rows: &'static [Row],
    best: Near,
) -> Result<Near, AllocError>
    ensures { IfOk result (λ near. near_of near
        ≡ nearest_of name.now (map row_view rows.now) (near_of best)) }
{
    let mut best = best;
    for row in rows {
        best = nearer(alloc, name, row.name, best)?;
    }
    Ok(best)
}

// The nearer of the nearest name so far and another one, which counts in lower case.
fn nearer(alloc: Global, name: &str, other: &'static str, best: Near) -> Result<Near, AllocError>
    ensures { IfOk result (λ near. near_of near ≡ nearer name.now other.now (near_of best)) }
{
    let lower = other.to_ascii_lowercase(alloc)?;
    let distance = levenshtein(alloc, name, lower.as_str())?;
    if distance < best.distance {
        return Ok(Near {
            name: Some(other),
            distance,
        });
    }
    Ok(best)
}

/// Writes a line for each tag: its name, how its value is written, and what it means. Where memory
/// runs out or the writer fails, a front of the lines may have been written.
pub fn write_tags<W: Sink>(alloc: Global, out: &mut W) -> io::Result<()>
    ensures writes { WritesText W.Sink out.old out.new result tags_text }
{
    write_rows(alloc, Context::Tiff, rows(Context::Tiff), out)?;
    write_rows(alloc, Context::Exif, rows(Context::Exif), out)?;
    write_rows(alloc, Context::Gps, rows(Context::Gps), out)?;
    write_rows(alloc, Context::Interop, rows(Context::Interop), out)?;
    out.flush()
}

// Writes the lines of the tags of a context.
fn write_rows<W: Sink>(alloc: Global, context: Context, rows: &[Row], out: &mut W) -> io::Result<()>
    ensures writes { WritesText W.Sink out.old out.new result
        (flat_map (tag_line context) (map row_view rows.now)) }
{
    for row in rows {
        write_row(alloc, context, row, out)?;
    }
    Ok(())
}

// Writes the line of a tag.
fn write_row<W: Sink>(alloc: Global, context: Context, row: &Row, out: &mut W) -> io::Result<()>
    ensures writes { WritesText W.Sink out.old out.new result
        (tag_line context (row_view row.now)) }
{
    let line = line_of(alloc, context, row)?;
    send_all(out, line.as_bytes())
}

// The line of a tag.
#[tactic(auto, unfolding(crate::specs::Listing::tag_line))]
fn line_of(alloc: Global, context: Context, row: &Row) -> Result<String, AllocError>
    ensures { IfOk result (λ line. string_bytes line ≡ tag_line context (row_view row.now)) }
{
    let (name, description) = (row.name, row.description);
    let kind = type_word(Tag(context, row.number));
    format!(in alloc; "{name:<36} {kind:<15} {description}\n")
}

// The word for how the value of a tag is written.
fn type_word(tag: Tag) -> &'static str
    ensures { result.now ≡ type_word tag }
{
    word_for(spelling_of(tag))
}

fn word_for(spelling: Spelling) -> &'static str
    ensures { result.now ≡ word_for spelling }
{
    match spelling {
        Spelling::Nothing => "(not settable)",
        Spelling::Text => "text",
        Spelling::Number => "number",
        Spelling::Fraction => "fraction",
        Spelling::SignedFraction => "signed fraction",
        Spelling::Bytes => "bytes",
    }
}
