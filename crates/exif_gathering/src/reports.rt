//! What is reported of a run over a catalogue.

ghost use Rattle.std.specs.Prelude.{◌≡◌, IfOk, option_map, string_bytes};
ghost use Rattle.exif_gathering.specs.Reports.{move_text, reported_moves, reported_totals, totals_text};

use exif_catalog::{Move, Totals};
use exif_decisions::Escaped;
use std::alloc::{AllocError, Global};

/// Which of the moves are reported: all, unless the run is quiet.
pub fn reported_moves(is_quiet: bool, moves: &[Move]) -> &[Move]
    ensures { result.now ≡ reported_moves is_quiet moves.now }
{
    if is_quiet {
        return &[];
    }
    moves
}

/// What is reported of the rows, unless the run is quiet.
pub fn reported_totals(
    alloc: Global,
    is_quiet: bool,
    totals: Totals,
    has_hashes: bool,
) -> Result<Option<String>, AllocError>
    ensures { IfOk result (λ text. option_map string_bytes text
        ≡ reported_totals is_quiet totals has_hashes) }
{
    if is_quiet {
        return Ok(None);
    }
    Ok(Some(totals_text(alloc, totals, has_hashes)?))
}

/// That a file was moved.
pub fn move_text(alloc: Global, moved: &Move) -> Result<String, AllocError>
    ensures { IfOk result (λ text. string_bytes text
        ≡ move_text (string_bytes moved.now.old) (string_bytes moved.now.new)) }
{
    let (old, new) = (Escaped(moved.old.as_str()), Escaped(moved.new.as_str()));
    format!(in alloc; "moved: {old} -> {new}")
}

// What a run did with the rows. Moves are only known by hashes.
fn totals_text(alloc: Global, totals: Totals, has_hashes: bool) -> Result<String, AllocError>
    ensures { IfOk result (λ text. string_bytes text ≡ totals_text totals has_hashes) }
{
    let Totals {
        added,
        moved,
        changed,
        unchanged,
        refused: _,
        removed,
        restored,
    } = totals;
    let mut text = format!(in alloc;
        "{added} added, {changed} changed, {unchanged} unchanged, {removed} removed, {restored} restored"
    )?;
    if has_hashes {
        let more = format!(in alloc; ", {moved} moved")?;
        text.push_str(more.as_str())?;
    }
    Ok(text)
}
