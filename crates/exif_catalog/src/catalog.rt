//! A run over a catalogue: rows that follow the pictures of a run.

ghost use Rattle.std.specs.Prelude.{◌≡◌, ◌⊎◌, ℕ, List, [], IfErr, IfOk, Err, Ok, OnErr, OnOk, Some, false, is_some, map, string_bytes, true};
ghost use Rattle.std.specs.BTreeMap.{get_by_text};
ghost use Rattle.exif_catalog.specs.Totals.{outcome_of};
ghost use Rattle.exif_catalog.specs.Parameters.{bound, parameter_of};
ghost use Rattle.exif_catalog.specs.Values.{stored};
ghost use Rattle.exif_catalog.specs.Known.{is_no, known_from, stamp_from};
ghost use Rattle.sqlite.specs.Held.{Held, state};
ghost use Rattle.sqlite.specs.State.{CommitsBy, CommitsShowing, HasCleanDisk, Survives};
ghost use Rattle.sqlite.specs.Values.{bound as bound_row, bound_value};
ghost use Rattle.sqlite_value.specs.Value.{owned};
ghost use Rattle.exif_summary.specs.Columns.{columns};
ghost use Rattle.exif_catalog.specs.Statements.{WritesRow, amount_at, entry_at, insert_text, known_at as known_in, mark_parameters, mark_row, parameter_value, path_parameter, read_rows, stamp_at};
ghost use Rattle.exif_catalog_file.specs.Statements.{RunsWith};
ghost use Rattle.exif_catalog.specs.Reading.{DeletesEach, FailsToDelete, FailsToRead, OpensCatalog, ReadsMoves, ReadsRows};
ghost use Rattle.exif_catalog.specs.Runs.{forgotten, has_path, has_stamp_of, known_after, known_at, marks_in};

use crate::hashes::{Move, read_moves};
use crate::known::{Known, Rows, Stamp, forget, is_unchanged, mark_of, see, stamp_for};
use crate::statements::{DELETE_ROW, MARK_ROW, READ_ROWS, insert_text};
use crate::totals::{Outcome, Totals, outcome_of};
use crate::values::SqlValue;
use exif_catalog_file::{CatalogError, number_at, prepare, prepare_tables, text_at};
use sqlite::types::ValueRef;
use sqlite::{Alter, Connection, Row, Statement, params};
use std::alloc::{AllocError, Global};

/// What a run knows of the rows, and the statements that change them.
#[derive(Drop)]
pub(crate) struct Catalog {
    rows: Rows,
    insert: Statement,
    mark: Statement,
}

// A number of a row that is not negative.
fn amount_at(row: &Row, column: usize) -> Result<Option<u64>, CatalogError>
    ensures { result ≡ amount_at row.now column }
{
    match number_at(row, column)? {
        Some(number) => Ok(u64::try_from(number).ok()),
        None => Ok(None),
    }
}

// The stamp that a row has, if it has all of it.
fn stamp_of(row: &Row) -> Result<Option<Stamp>, CatalogError>
    ensures { result ≡ stamp_at row.now }
{
    let (size, modified) = (amount_at(row, 1)?, amount_at(row, 2)?);
    let (modified_ns, changed) = (amount_at(row, 3)?, amount_at(row, 4)?);
    let (changed_ns, device) = (amount_at(row, 5)?, amount_at(row, 6)?);
    let inode = amount_at(row, 7)?;
    Ok(stamp_from([
        size,
        modified,
        modified_ns,
        changed,
        changed_ns,
        device,
        inode,
    ]))
}

// A stamp of its parts, if all are there.
fn stamp_from(parts: [Option<u64>; 7]) -> Option<Stamp>
    ensures { result ≡ stamp_from parts }
{
    Some(Stamp {
        size: parts[0]?,
        modified: parts[1]?,
        modified_ns: parts[2]?,
        changed: parts[3]?,
        changed_ns: parts[4]?,
        device: parts[5]?,
        inode: parts[6]?,
    })
}

// Whether a number is 0: neither NULL nor another one.
fn is_no(number: Option<i64>) -> bool
    ensures { result ≡ is_no number }
{
    match number {
        Some(number) => number == 0,
        None => false,
    }
}

// What is known of a picture, by its stamp, its mark, and whether its hash is NULL.
fn known_from(
    stamp: Option<Stamp>,
    removed: Option<i64>,
    lacks_hash: Option<i64>,
    needs_hash: bool,
) -> Known
    ensures { result ≡ known_from stamp removed lacks_hash needs_hash }
{
    Known {
        stamp: stamp_for(stamp, needs_hash, is_no(lacks_hash)),
        is_removed: !is_no(removed),
        is_seen: false,
    }
}

// What is known of a picture, by its row.
fn known_of(row: &Row, needs_hash: bool) -> Result<Known, CatalogError>
    ensures { result ≡ known_in row.now needs_hash }
{
    let stamp = stamp_of(row)?;
    let (removed, lacks_hash) = (number_at(row, 8)?, number_at(row, 9)?);
    Ok(known_from(stamp, removed, lacks_hash, needs_hash))
}

// The path of a row, and what is known of its picture.
fn entry_of(alloc: Global, row: &Row, needs_hash: bool) -> Result<(String, Known), CatalogError>
    ensures entry { IfOk result (λ it. entry_at row.now needs_hash
        ≡ Ok (string_bytes it.0, it.1)) }
    ensures refused { IfErr result (λ e. (e ≡ CatalogError.OutOfMemory)
        ⊎ (entry_at row.now needs_hash ≡ Err e)) }
{
    let path = text_at(alloc, row, 0)?;
    let known = known_of(row, needs_hash)?;
    Ok((path, known))
}

// What is known of all pictures. As many rows as a count can't tell are out of memory, too.
fn read_rows<S: Alter>(
    alloc: Global,
    database: &mut Connection<S>,
    needs_hash: bool,
) -> Result<Rows, CatalogError>
    ensures rows { HasCleanDisk (state S.Store database.new) → IfOk result
        (ReadsRows S.Store needs_hash database.old database.new) }
    ensures refused { HasCleanDisk (state S.Store database.new) → IfErr result
        (λ e. (e ≡ CatalogError.OutOfMemory) ⊎ FailsToRead S.Store read_rows
        (λ cells. entry_at cells needs_hash) database.old database.new e) }
    ensures survives { Survives (state S.Store database.old) (state S.Store database.new)
        (CommitsShowing read_rows [] (state S.Store database.old)) }
{
    let mut rows = Rows::new(alloc);
    let mut answer = database.query(READ_ROWS, &[])?;
    'rows: for _ in 0..u64::MAX {
        let Some(row) = answer.next()? else {
            return Ok(rows);
        };
        let (path, known) = entry_of(alloc, row, needs_hash)?;
        rows.insert(path, known)?;
    }
    Err(CatalogError::OutOfMemory)
}

// A value as a parameter of the text that writes a row.
fn parameter(value: &SqlValue) -> ValueRef<'_>
    ensures stored { bound result ≡ Some (parameter_of (stored value.now)) }
    ensures value { bound_value (owned result) ≡ parameter_value value.now }
{
    match value {
        SqlValue::Null => ValueRef::Null,
        SqlValue::Integer(number) => ValueRef::Int(*number),
        SqlValue::Real(text) | SqlValue::Text(text) => ValueRef::Text(text.as_bytes()),
    }
}

// Runs a statement that writes.
fn write<S: Alter>(
    database: &mut Connection<S>,
    statement: &Statement,
    parameters: &[ValueRef<'_>],
) -> Result<(), CatalogError>
    ensures runs { HasCleanDisk (state S.Store database.new) → RunsWith S.Store statement.now.text
        (bound_row parameters.now) database.old database.new result }
    ensures survives { Survives (state S.Store database.old) (state S.Store database.new)
        (CommitsBy statement.now.text (bound_row parameters.now) (state S.Store database.old)) }
{
    statement.execute(database, parameters)?;
    Ok(())
}

// Whether a row begins with a path.
fn begins_with_path(values: &[SqlValue], path: &str) -> bool
    ensures { result ≡ has_path path.now values.now }
{
    match values.first() {
        Some(SqlValue::Text(text)) => text.as_str() == path,
        _ => false,
    }
}

// The values of a row as parameters.
fn parameters_of<'v>(alloc: Global, values: &'v [SqlValue]) -> Result<Vec<ValueRef<'v>>, AllocError>
    ensures { IfOk result (λ all. bound_row all.items ≡ map parameter_value values.entry.now) }
{
    let mut parameters = Vec::new(alloc);
    for value in values {
        parameters.push(parameter(value))?;
    }
    Ok(parameters)
}

// Writes the values of a row.
fn write_row<S: Alter>(
    alloc: Global,
    database: &mut Connection<S>,
    insert: &Statement,
    values: &[SqlValue],
) -> Result<(), CatalogError>
    ensures writes { HasCleanDisk (state S.Store database.new) → WritesRow S.Store
        insert.now.text values.now database.old database.new result }
{
    let parameters = parameters_of(alloc, values)?;
    write(database, insert, parameters.as_slice())
}

// Takes the row of a path away.
fn delete_row<S: Alter>(
    database: &mut Connection<S>,
    delete: &Statement,
    path: &str,
) -> Result<(), CatalogError>
    ensures runs { HasCleanDisk (state S.Store database.new) → RunsWith S.Store delete.now.text
        (path_parameter path.now) database.old database.new result }
    ensures clean { HasCleanDisk (state S.Store database.new)
        → HasCleanDisk (state S.Store database.old) }
{
    write(database, delete, params![path])
}

// Takes the rows of the old paths away.
fn delete_rows<S: Alter>(database: &mut Connection<S>, moves: &[Move]) -> Result<(), CatalogError>
    ensures deletes { HasCleanDisk (state S.Store database.new) → OnOk result
        (DeletesEach S.Store database.old moves.now database.new) }
    ensures refused { HasCleanDisk (state S.Store database.new) → IfErr result
        (FailsToDelete S.Store database.old moves.now database.new) }
    ensures clean { HasCleanDisk (state S.Store database.new)
        → HasCleanDisk (state S.Store database.old) }
{
    let delete = prepare(database, DELETE_ROW)?;
    for moved in moves {
        delete_row(database, &delete, moved.old.as_str())?;
    }
    Ok(())
}

// Forgets the rows of the old paths.
fn forget_moved(rows: &mut Rows, moves: &[Move])
    ensures { (q : List ℕ) → get_by_text rows.new q
        ≡ forgotten moves.now (get_by_text rows.old q) q }
{
    for moved in moves {
        forget(rows, moved.old.as_str());
    }
}

impl Catalog {
    /// What a database holds as a run begins that may need the hash of each picture; a new file
    /// gets the tables. Another version or other tables are refused.
    pub(crate) fn open<S: Alter>(
        alloc: Global,
        database: &mut Connection<S>,
        needs_hash: bool,
    ) -> Result<Catalog, CatalogError>
        ensures insert { HasCleanDisk (state S.Store database.new)
            → IfOk result (λ it. it.insert.text ≡ insert_text columns) }
        ensures mark { HasCleanDisk (state S.Store database.new)
            → IfOk result (λ it. it.mark.text ≡ mark_row) }
        ensures known { HasCleanDisk (state S.Store database.new) → IfOk result
            (λ it. OpensCatalog S.Store needs_hash database.old database.new it.rows) }
    {
        prepare_tables(alloc, database)?;
        let rows = read_rows(alloc, database, needs_hash)?;
        let insert = prepare(database, insert_text())?;
        let mark = prepare(database, MARK_ROW)?;
        Ok(Catalog { rows, insert, mark })
    }

    /// Whether the picture has a row with all that the run needs, and its file had this stamp when
    /// it was read.
    pub(crate) fn is_unchanged(&self, path: &str, stamp: Option<Stamp>) -> bool
        ensures { result ≡ has_stamp_of (known_at self.now path.now) stamp }
    {
        match stamp {
            Some(stamp) => is_unchanged(&self.rows, path, stamp),
            None => false,
        }
    }

    /// Notes that the file is there: its row stays, and is not marked as removed.
    pub(crate) fn keep(&mut self, path: &str)
        ensures { (q : List ℕ) → known_at self.new q ≡ known_after self.old path.now q }
    {
        see(&mut self.rows, path);
    }

    /// Writes the values of [`row_values`](crate::row_values) in place of the row of their path, or
    /// as a new one.
    pub(crate) fn put<S: Alter>(
        &mut self,
        alloc: Global,
        database: &mut Connection<S>,
        path: &str,
        values: &[SqlValue],
    ) -> Result<Outcome, CatalogError>
        ensures seen { OnOk result ((q : List ℕ) → known_at self.new q
            ≡ known_after self.old path.now q) }
        ensures path { OnOk result (has_path path.now values.now ≡ true) }
        ensures outcome { IfOk result (λ outcome.
            outcome ≡ outcome_of (is_some (known_at self.old path.now))) }
        ensures writes { HasCleanDisk (state S.Store database.new) → OnOk result (RunsWith S.Store
            self.old.insert.text (map parameter_value values.now) database.old database.new
            (Ok tt)) }
        ensures refused { has_path path.now values.now ≡ false
            → (result ≡ Err CatalogError.NoPath) × (database.new ≡ database.old) }
        ensures failed { OnErr result (self.new ≡ self.old) }
    {
        if !begins_with_path(values, path) {
            return Err(CatalogError::NoPath);
        }
        write_row(alloc, database, &self.insert, values)?;
        let outcome = outcome_of(self.rows.get(path).is_some());
        self.keep(path);
        Ok(outcome)
    }

    /// Finds the files that were moved, among the rows below the roots that were not seen and those
    /// that are new, and takes the rows of their old paths away.
    pub(crate) fn take_moves<S: Alter>(
        &mut self,
        alloc: Global,
        database: &mut Connection<S>,
        roots: &[&str],
    ) -> Result<Vec<Move>, CatalogError>
        ensures moves { HasCleanDisk (state S.Store database.new) → IfOk result
            (λ moves. (read : Held S) × ReadsMoves S.Store (known_at self.old) roots.now
            database.old read moves.items × DeletesEach S.Store read moves.items database.new) }
        ensures forgotten { IfOk result (λ moves. (q : List ℕ) → known_at self.new q
            ≡ forgotten moves.items (known_at self.old q) q) }
        ensures failed { OnErr result (self.new ≡ self.old) }
    {
        let moves = read_moves(alloc, database, &self.rows, roots)?;
        delete_rows(database, moves.as_slice())?;
        forget_moved(&mut self.rows, moves.as_slice());
        Ok(moves)
    }

    // Sets the mark of a row.
    fn set_mark<S: Alter>(
        &self,
        database: &mut Connection<S>,
        path: &str,
        is_removed: bool,
    ) -> Result<(), CatalogError>
        ensures runs { HasCleanDisk (state S.Store database.new) → RunsWith S.Store
            self.now.mark.text (mark_parameters path.now is_removed)
            database.old database.new result }
    {
        write(database, &self.mark, params![path, is_removed])
    }

    /// Marks each row as removed whose file is a root or below one and was not seen in this run,
    /// and takes the mark off those that were seen ([`mark_of`](crate::mark_of)).
    pub(crate) fn set_marks<S: Alter>(
        &self,
        database: &mut Connection<S>,
        roots: &[&str],
        mut totals: Totals,
    ) -> Result<Totals, CatalogError>
        ensures { IfOk result (λ all. all ≡ marks_in roots.now totals self.now.rows.entries) }
    {
        for (path, known) in self.rows.iter() {
            if let Some(is_removed) = mark_of(path.as_str(), *known, roots) {
                self.set_mark(database, path.as_str(), is_removed)?;
                totals = totals.marked(is_removed);
            }
        }
        Ok(totals)
    }
}
