//! The new names that are asked for, and the moves that give them.

ghost use Rattle.std.specs.Prelude.{◌≡◌, ◌<◌, ◌^◌, ◌++◌, ℕ, IfOk, Some, map, string_bytes};
ghost use Rattle.exif_rename.specs.Planned.{all_own, own};
ghost use Rattle.exif_rename.specs.Starts.{IsOwn};
ghost use Rattle.exif_rename.specs.RenameRequests.{file_of, wanted_of, move_of, candidate, moves_in, moves_by};

use crate::plan::TRIES;
use std::alloc::{AllocError, Global};

/// A file that is to have a new path.
#[derive(Debug, Drop)]
pub struct RequestFile {
    /// The path that it has.
    pub old: String,
    /// What follows the new name in its new path, as `.JPG` or `.JPG.xmp`.
    pub ending: String,
}

/// Files that are to have one new name: pictures, raw files and videos of one stem, and their
/// sidecars.
#[derive(Debug, Drop)]
pub struct RenameRequest {
    /// The new path without what the files end in.
    pub base: String,
    /// The files, in the order in which they are moved: sidecars before their picture. So where a
    /// run is stopped between them, the next run gives the picture the name that its sidecars have.
    pub files: Vec<RequestFile>,
}

/// A file that gets another path.
#[derive(Debug, Drop)]
pub struct Move {
    /// The path that it has.
    pub from: String,
    /// The path that it gets.
    pub to: String,
}

// Two texts as one.
pub(crate) fn joined(alloc: Global, front: &str, back: &str) -> Result<String, AllocError>
    ensures { IfOk result (λ text. string_bytes text ≡ front.now ++ back.now) }
{
    format!(in alloc; "{front}{back}")
}

/// The candidate of a number: the base itself, `base_1`, `base_2` and so on.
pub fn candidate(alloc: Global, base: &str, number: u32) -> Result<String, AllocError>
    ensures { IfOk result (λ name. string_bytes name ≡ candidate base.now number) }
{
    if number == 0 {
        return String::from_str(alloc, base);
    }
    format!(in alloc; "{base}_{number}")
}

// The number by which a path is the candidate of a base with an ending, if it is one.
fn number_of(path: &str, base: &str, ending: &str) -> Option<u32>
    ensures { (number : ℕ) → number < 2 ^ 32
        → path.now ≡ candidate base.now number ++ ending.now → result ≡ Some number }
{
    let middle = path.strip_prefix(base)?.strip_suffix(ending)?;
    if middle.is_empty() {
        return Some(0);
    }
    middle.strip_prefix('_')?.parse().ok()
}

// The move of a file to a path.
fn make_move(alloc: Global, from: &str, to: String) -> Result<Move, AllocError>
    ensures { IfOk result (λ made. move_of made ≡ (from.now, string_bytes to)) }
{
    let from = String::from_str(alloc, from)?;
    Ok(Move { from, to })
}

// The moves of files to a name. A file that has its path already has none.
fn moves_in(alloc: Global, name: &str, files: &[RequestFile]) -> Result<Vec<Move>, AllocError>
    ensures { IfOk result (λ moves. map move_of moves.items
        ≡ moves_in name.now (map file_of files.now)) }
{
    let mut moves = Vec::new(alloc);
    for file in files {
        let to = joined(alloc, name, file.ending.as_str())?;
        if to.as_str() != file.old.as_str() {
            moves.push(make_move(alloc, file.old.as_str(), to)?)?;
        }
    }
    Ok(moves)
}

// Whether each file has its path by a name already.
fn has_paths(alloc: Global, name: &str, files: &[RequestFile]) -> Result<bool, AllocError>
    ensures { IfOk result (λ answer. answer ≡ all_own name.now (map file_of files.now)) }
{
    for file in files {
        if joined(alloc, name, file.ending.as_str())?.as_str() != file.old.as_str() {
            return Ok(false);
        }
    }
    Ok(true)
}

impl RenameRequest {
    /// The number by which each file has its new path already, if there is one below 100,000: the
    /// files of such a request stay.
    pub fn kept_number(&self, alloc: Global) -> Result<Option<u32>, AllocError>
        ensures { IfOk result (λ number. own (wanted_of self.now) ≡ number) }
    {
        let Some(_first) = self.files.first() else {
            return Ok(None);
        };
        let Some(number) = self.own_number() else {
            return Ok(None);
        };
        if number >= TRIES {
            return Ok(None);
        }
        let name = candidate(alloc, self.base.as_str(), number)?;
        if has_paths(alloc, name.as_str(), self.files.as_slice())? {
            return Ok(Some(number));
        }
        Ok(None)
    }

    // The number by which the first file has its new path already, if one does.
    pub(crate) fn own_number(&self) -> Option<u32>
        ensures { IsOwn (wanted_of self.now) result }
    {
        let file = self.files.first()?;
        number_of(file.old.as_str(), self.base.as_str(), file.ending.as_str())
    }

    /// The moves that give the files the name of this number, in the order of the files.
    /// [`plan_names`](crate::plan_names) chose the number. A file that has its new path already has
    /// none.
    pub fn moves(&self, alloc: Global, number: u32) -> Result<Vec<Move>, AllocError>
        ensures { IfOk result (λ moves. map move_of moves.items
            ≡ moves_by (wanted_of self.now) number) }
    {
        let name = candidate(alloc, self.base.as_str(), number)?;
        moves_in(alloc, name.as_str(), self.files.as_slice())
    }
}
