//! The moves of a run, by the hashes of rows.

ghost use Rattle.std.specs.Prelude.{◌≡◌, ◌⊎◌, ◌++◌, [], Err, IfErr, IfOk, Ok, OnOk, map, option_map};
ghost use Rattle.std.specs.BTreeMap.{get_by_text};
ghost use Rattle.sqlite.specs.Held.{state};
ghost use Rattle.sqlite.specs.State.{CommitsShowing, HasCleanDisk, Survives};
ghost use Rattle.exif_catalog.specs.Moves.{moved_paths, moves_of};
ghost use Rattle.exif_catalog.specs.Reading.{FailsToRead, ReadsMoves, ReadsSides, gone_in, hashed_parts, new_in};
ghost use Rattle.exif_catalog.specs.Statements.{hashed_at, parts_of, read_hashes};

use crate::known::{Rows, Side, side_of};
use crate::moving::{Hashed, moves_of};
use crate::statements::READ_HASHES;
use exif_catalog_file::{CatalogError, text_at};
use sqlite::{Alter, Connection, Row};
use std::alloc::{AllocError, Global};

/// A file that was moved, by the paths of its row.
#[derive(Drop)]
pub struct Move {
    /// The path before.
    pub old: String,
    /// The path now.
    pub new: String,
}

// The pictures with hashes that are gone, and those that are new.
#[derive(Drop)]
struct Sides {
    gone: Vec<Hashed>,
    fresh: Vec<Hashed>,
}

impl Sides {
    // Adds a picture to its side, if it is of one.
    fn add(&mut self, found: Option<(Side, Hashed)>) -> Result<(), AllocError>
        ensures gone { OnOk result (map hashed_parts self.new.gone.items
            ≡ map hashed_parts self.old.gone.items ++ gone_in (option_map parts_of found)) }
        ensures fresh { OnOk result (map hashed_parts self.new.fresh.items
            ≡ map hashed_parts self.old.fresh.items ++ new_in (option_map parts_of found)) }
    {
        match found {
            Some((Side::Gone, picture)) => self.gone.push(picture)?,
            Some((Side::New, picture)) => self.fresh.push(picture)?,
            None => {}
        }
        Ok(())
    }
}

// What a row's picture may be of a move, with its path and its hash.
fn hashed_of(
    alloc: Global,
    row: &Row,
    rows: &Rows,
    roots: &[&str],
) -> Result<Option<(Side, Hashed)>, CatalogError>
    ensures hashed { IfOk result (λ it. hashed_at (get_by_text rows.now) roots.now row.now
        ≡ Ok (option_map parts_of it)) }
    ensures refused { IfErr result (λ e. (e ≡ CatalogError.OutOfMemory)
        ⊎ (hashed_at (get_by_text rows.now) roots.now row.now ≡ Err e)) }
{
    let path = text_at(alloc, row, 0)?;
    match side_of(rows, path.as_str(), roots) {
        None => Ok(None),
        Some(side) => {
            let hash = text_at(alloc, row, 1)?;
            Ok(Some((side, Hashed { path, hash })))
        }
    }
}

// The pictures with hashes that are gone or new.
fn read_sides<S: Alter>(
    alloc: Global,
    database: &mut Connection<S>,
    rows: &Rows,
    roots: &[&str],
) -> Result<Sides, CatalogError>
    ensures sides { HasCleanDisk (state S.Store database.new) → IfOk result
        (λ it. ReadsSides S.Store (get_by_text rows.now) roots.now database.old database.new
        it.gone.items it.fresh.items) }
    ensures refused { HasCleanDisk (state S.Store database.new) → IfErr result
        (λ e. (e ≡ CatalogError.OutOfMemory) ⊎ FailsToRead S.Store read_hashes
        (hashed_at (get_by_text rows.now) roots.now) database.old database.new e) }
    ensures survives { Survives (state S.Store database.old) (state S.Store database.new)
        (CommitsShowing read_hashes [] (state S.Store database.old)) }
{
    let mut sides = Sides {
        gone: Vec::new(alloc),
        fresh: Vec::new(alloc),
    };
    let mut answer = database.query(READ_HASHES, &[])?;
    'rows: for _ in 0..u64::MAX {
        let Some(row) = answer.next()? else {
            return Ok(sides);
        };
        sides.add(hashed_of(alloc, row, rows, roots)?)?;
    }
    Err(CatalogError::OutOfMemory)
}

// The moves that are found among them.
fn find_moves(alloc: Global, sides: &Sides) -> Result<Vec<Move>, AllocError>
    ensures { IfOk result (λ moves. map moved_paths moves.items
        ≡ moves_of sides.now.gone.items sides.now.fresh.items) }
{
    let found = moves_of(alloc, sides.gone.as_slice(), sides.fresh.as_slice())?;
    let mut moves = Vec::new(alloc);
    for moved in found.as_slice() {
        let old = String::from_str(alloc, moved.old)?;
        let new = String::from_str(alloc, moved.new)?;
        moves.push(Move { old, new })?;
    }
    Ok(moves)
}

/// The files that were moved, by the rows as they are now and what was known of them before: a new
/// picture has the hash of one that was looked for below the roots and not seen, and no other of
/// either has it.
pub(crate) fn read_moves<S: Alter>(
    alloc: Global,
    database: &mut Connection<S>,
    rows: &Rows,
    roots: &[&str],
) -> Result<Vec<Move>, CatalogError>
    ensures moves { HasCleanDisk (state S.Store database.new) → IfOk result
        (λ moves. ReadsMoves S.Store (get_by_text rows.now) roots.now database.old database.new
        moves.items) }
    ensures refused { HasCleanDisk (state S.Store database.new) → IfErr result
        (λ e. (e ≡ CatalogError.OutOfMemory) ⊎ FailsToRead S.Store read_hashes
        (hashed_at (get_by_text rows.now) roots.now) database.old database.new e) }
    ensures survives { Survives (state S.Store database.old) (state S.Store database.new)
        (CommitsShowing read_hashes [] (state S.Store database.old)) }
{
    let sides = read_sides(alloc, database, rows, roots)?;
    Ok(find_moves(alloc, &sides)?)
}
