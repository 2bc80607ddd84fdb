//! Answers of a database as text.

ghost use Rattle.std.specs.Prelude.{◌≡◌, ◌⊎◌, ◌<◌, ◌++◌, ℕ, List, [], Err, IfErr, IfOk, IsTrue, OnOk, codes, false, length};
ghost use Rattle.sqlite.specs.Held.{state};
ghost use Rattle.sqlite.specs.State.{CommitsShowing, HasCleanDisk, Survives};
ghost use Rattle.exif_catalog_file.specs.Cells.{is_query, names_line};
ghost use Rattle.exif_catalog_file.specs.Errors.{is_hand_error};
ghost use Rattle.exif_catalog_file.specs.Handing.{FailsToHand, HandsEach};
ghost use Rattle.exif_catalog_file.specs.Shown.{AddsCell, AddsRow, Answers, HandsLine};

use crate::cells::{is_query, push_gap, push_text, push_value};
use crate::database::{Job, prepare};
use crate::errors::{CatalogError, RunError, too_many};
use crate::heads::check_existing;
use crate::opening::run_reading;
use sqlite::types::Bytes;
use sqlite::{Alter, Connection, Row, Statement};
use std::alloc::{AllocError, Global};

/// What takes the lines of an answer.
pub trait Lines {
    /// Why it takes no more.
    type Error: Drop;

    /// What it is before a line, the line, and what it is once it took it.
    ghost takes: { Self → List ℕ → Self → Type 0 } = { λ _ _ _. Unit {0} };

    /// Takes a line, which ends with a line feed.
    fn take(&mut self, line: &[u8]) -> Result<(), Self::Error>
        ensures taken { OnOk result (takes self.old line.now self.new) };
}

// Ends a line.
fn end_line(line: &mut Vec<u8>) -> Result<(), AllocError>
    ensures { OnOk result (line.new.items ≡ line.old.items ++ codes "\n") }
{
    Ok(line.push(b'\n')?)
}

// Hands a line on, and empties it.
fn hand_on<L: Lines>(lines: &mut L, line: &mut Vec<u8>) -> Result<(), RunError<L::Error>>
    ensures taken { OnOk result
        (L.takes lines.old (line.old.items ++ codes "\n") lines.new) }
    ensures empty { OnOk result (line.new.items ≡ []) }
    ensures named { IfErr result (λ e. IsTrue (is_hand_error e)) }
{
    end_line(line)?;
    lines.take(line.as_slice()).map_err(RunError::Caller)?;
    line.clear();
    Ok(())
}

// Adds the names of the columns.
fn push_names(line: &mut Vec<u8>, names: &[Bytes]) -> Result<(), AllocError>
    ensures { OnOk result (line.new.items ≡ line.old.items ++ names_line names.now) }
{
    for i in 0..names.len() {
        push_gap(line, i)?;
        push_text(line, names[i].as_slice())?;
    }
    Ok(())
}

// Adds a value of a row.
fn push_cell(
    alloc: Global,
    line: &mut Vec<u8>,
    row: &Row,
    column: usize,
) -> Result<(), CatalogError>
    ensures cell { OnOk result (AddsCell row.now column line.old.items line.new.items) }
    ensures memory { column < length row.now
        → IfErr result (λ e. e ≡ CatalogError.OutOfMemory) }
{
    push_gap(line, column)?;
    push_value(alloc, line, row.get_ref(column)?)?;
    Ok(())
}

// Adds the values of a row.
fn push_row(alloc: Global, line: &mut Vec<u8>, row: &Row) -> Result<(), CatalogError>
    ensures row { OnOk result (AddsRow row.now line.old.items line.new.items) }
    ensures memory { IfErr result (λ e. e ≡ CatalogError.OutOfMemory) }
{
    for i in 0..row.column_count() {
        push_cell(alloc, line, row, i)?;
    }
    Ok(())
}

// Hands on the rows of an answer.
fn answer_rows<S: Alter, L: Lines>(
    alloc: Global,
    database: &mut Connection<S>,
    statement: &Statement,
    lines: &mut L,
) -> Result<u64, RunError<L::Error>>
    ensures rows { HasCleanDisk (state S.Store database.new) → IfOk result
        (HandsEach S.Store (HandsLine L.takes) statement.now.text database.old database.new
        lines.old lines.new) }
    ensures refused { HasCleanDisk (state S.Store database.new) → IfErr result
        (λ e. IsTrue (is_hand_error e) ⊎ ((why : CatalogError) × (e ≡ RunError.Catalog why)
        × FailsToHand S.Store statement.now.text database.old database.new why)) }
    ensures survives { Survives (state S.Store database.old) (state S.Store database.new)
        (CommitsShowing statement.now.text [] (state S.Store database.old)) }
{
    let mut line = Vec::new(alloc);
    let mut answer = database.query_prepared(statement, &[])?;
    'rows: for count in 0..u64::MAX {
        let Some(row) = answer.next()? else {
            return Ok(count);
        };
        push_row(alloc, &mut line, row)?;
        hand_on(lines, &mut line)?;
    }
    Err(RunError::Catalog(too_many()))
}

// Hands on the line of names, and the rows.
fn answer<S: Alter, L: Lines>(
    alloc: Global,
    database: &mut Connection<S>,
    sql: &str,
    lines: &mut L,
) -> Result<u64, RunError<L::Error>>
    ensures answers { HasCleanDisk (state S.Store database.new) → IfOk result
        (Answers S.Store L.takes sql.now database.old database.new lines.old lines.new) }
{
    let statement = prepare(database, sql)?;
    let mut line = Vec::new(alloc);
    push_names(&mut line, statement.column_names())?;
    hand_on(lines, &mut line)?;
    answer_rows(alloc, database, &statement, lines)
}

// A query, and what takes the lines of its answer.
#[derive(Drop)]
struct QueryJob<'q, L> {
    sql: &'q str,
    lines: &'q mut L,
}

impl<L: Lines> Job for QueryJob<'_, L> {
    type Answer = u64;

    type Error = L::Error;

    fn run<S: Alter>(
        &mut self,
        alloc: Global,
        database: &mut Connection<S>,
    ) -> Result<u64, RunError<L::Error>> {
        answer(alloc, database, self.sql, self.lines)
    }
}

/// The answer of a query as tab-separated values: a line of the columns' names, and a line for each
/// row ([`push_text`](crate::push_text) says how texts are written). Each is handed on as it is
/// read, so after an error some may have been. Answers how many rows there were.
///
/// Only a text that begins with SELECT or WITH is taken. It runs in a transaction that is never
/// kept, so the database stays as it is. A file that is not there is not made.
pub fn query<L: Lines>(
    rt: &HostRuntime,
    path: &str,
    sql: &str,
    lines: &mut L,
) -> Result<u64, RunError<L::Error>>
    ensures refused { is_query sql.now ≡ false
        → result ≡ Err (RunError.Catalog CatalogError.NotAQuery) }
    ensures kept { is_query sql.now ≡ false → lines.new ≡ lines.old }
{
    if !is_query(sql) {
        return Err(RunError::Catalog(CatalogError::NotAQuery));
    }
    check_existing(rt, path)?;
    run_reading(rt, path, &mut QueryJob { sql, lines })
}
