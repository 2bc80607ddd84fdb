//! What the lines of a run say together.

ghost use Rattle.std.specs.Prelude.{◌≡◌, IfErr, IfOk, filter, map};
ghost use Rattle.exif_rename.specs.Lines.{IsFirstWrong, IsStepOf, is_filled, lines_in, step_line};

use crate::undo::{Step, parse_line};
use std::alloc::{AllocError, Global};

/// The steps of a run by the lines that it wrote, in their order; or the number of the first line,
/// counted from 1, that no run writes. Lines without a byte say nothing. It takes memory for the
/// steps, and 16 bytes for each line.
pub fn steps_of(alloc: Global, text: &[u8]) -> Result<Result<Vec<Step>, usize>, AllocError>
    ensures steps { IfOk result (λ read. IfOk read (λ steps.
        map step_line steps.items ≡ filter is_filled (lines_in text.now))) }
    ensures wrong { IfOk result (λ read. IfErr read (IsFirstWrong (lines_in text.now))) }
{
    let lines = lines_in(alloc, text)?;
    let mut steps = Vec::new(alloc);
    for (index, line) in lines.iter().enumerate() {
        if line.is_empty() {
            continue;
        }
        match step_of(alloc, line)? {
            Some(step) => steps.push(step)?,
            None => return Ok(Err(index + 1)),
        }
    }
    Ok(Ok(steps))
}

// The lines of a text, without their line feeds.
fn lines_in(alloc: Global, text: &[u8]) -> Result<Vec<&[u8]>, AllocError>
    ensures { IfOk result (λ lines. map (λ line. line.now) lines.items ≡ lines_in text.now) }
{
    text.split(|byte| *byte == b'\n').collect(alloc)
}

// What a line says, if a run wrote it.
fn step_of(alloc: Global, line: &[u8]) -> Result<Option<Step>, AllocError>
    ensures { IfOk result (IsStepOf line.now) }
{
    match std::str::from_utf8(line) {
        Ok(line) => parse_line(alloc, line),
        Err(_) => Ok(None),
    }
}
