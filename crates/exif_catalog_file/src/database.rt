//! The database file of a catalogue.

ghost use Rattle.std.specs.Prelude.{◌≡◌, ◌⊎◌, [], Ok, Err, Result, string_bytes, IfErr, IfOk, OnOk, map};
ghost use Rattle.sqlite_value.specs.Order.{Row as SqlRow};
ghost use Rattle.sqlite.specs.Held.{state};
ghost use Rattle.sqlite.specs.State.{CommitsBy, HasCleanDisk, IsNotRun, IsUnchanged, Survives};
ghost use Rattle.sqlite.specs.Listing.{understood};
ghost use Rattle.sqlite.specs.Steps.{Outlines};
ghost use Rattle.exif_catalog_file.specs.Errors.{IsFailure, database_error};
ghost use Rattle.exif_catalog_file.specs.Statements.{Asks, AsksCatalog, AsksTable, AsksVersion, Begins, ByTables, ChecksAs, Commits, FindsTables, IsText, MakesRest, MakesTables, PreparesAs, Runs, number_at, read_create, read_version, table_answer, text_at, texts_at, version_answer};

use crate::errors::{CatalogError, RunError};
use crate::schema::{
    CREATE_VERSION, READ_CREATE, READ_TABLES, READ_VERSION, VERSION, WRITE_VERSION, create_text,
};
use crate::tables::{Tables, tables_of};
use sqlite::types::{Type, ValueRef};
use sqlite::{Alter, Connection, Error, Row, Statement};
use std::alloc::Global;

// Runs a statement that has no parameters.
fn execute<S: Alter>(database: &mut Connection<S>, sql: &str) -> Result<(), CatalogError>
    ensures failed { IfErr result IsFailure }
    ensures runs { HasCleanDisk (state S.Store database.new)
        → Runs S.Store sql.now database.old database.new result }
    ensures survives { Survives (state S.Store database.old) (state S.Store database.new)
        (CommitsBy sql.now [] (state S.Store database.old)) }
{
    database.execute(sql, &[])?;
    Ok(())
}

/// Begins a transaction.
pub(crate) fn begin<S: Alter>(database: &mut Connection<S>) -> Result<(), CatalogError>
    ensures failed { IfErr result IsFailure }
    ensures runs { HasCleanDisk (state S.Store database.new)
        → Begins S.Store database.old database.new result }
{
    execute(database, "BEGIN")
}

/// Keeps what a transaction did.
pub fn commit<S: Alter>(database: &mut Connection<S>) -> Result<(), CatalogError>
    ensures runs { HasCleanDisk (state S.Store database.new)
        → Commits S.Store database.old database.new result }
{
    execute(database, "COMMIT")
}

/// Compiles a statement.
pub fn prepare<S: Alter>(database: &mut Connection<S>, sql: &str) -> Result<Statement, CatalogError>
    ensures text { HasCleanDisk (state S.Store database.new)
        → IfOk result (λ s. s.text ≡ sql.now) }
    ensures shape { HasCleanDisk (state S.Store database.new) → IfOk result
        (Outlines (understood (state S.Store database.old).now.schema sql.now)) }
    ensures same { HasCleanDisk (state S.Store database.new) → OnOk result
        (IsUnchanged (state S.Store database.old) (state S.Store database.new)) }
    ensures refused { HasCleanDisk (state S.Store database.new)
        → IfErr result (λ e. (why : Error)
        × (e ≡ database_error why) × ((params : SqlRow) → IsNotRun (state S.Store database.old)
        (state S.Store database.new) sql.now params why)) }
    ensures survives { Survives (state S.Store database.old)
        (state S.Store database.new) (λ _. ⊥) }
{
    Ok(database.prepare(sql)?)
}

/// The text in a column of a row.
pub fn text_at(alloc: Global, row: &Row, column: usize) -> Result<String, CatalogError>
    ensures text { IfOk result (λ text. text_at row.now column ≡ Ok (string_bytes text)) }
    ensures refused { IfErr result (λ e. (e ≡ CatalogError.OutOfMemory)
        ⊎ (text_at row.now column ≡ Err e)) }
{
    match row.get_ref(column)? {
        ValueRef::Text(bytes) => match std::str::from_utf8(bytes) {
            Ok(text) => Ok(String::from_str(alloc, text)?),
            Err(_) => Err(CatalogError::Database(Error::Utf8Error(column))),
        },
        other => Err(CatalogError::Database(Error::InvalidColumnType(column, Type::of(other)))),
    }
}

/// The whole number in a column of a row, if it has one.
pub fn number_at(row: &Row, column: usize) -> Result<Option<i64>, CatalogError>
    ensures { result ≡ number_at row.now column }
{
    match row.get_ref(column)? {
        ValueRef::Null => Ok(None),
        ValueRef::Int(number) => Ok(Some(number)),
        other => Err(CatalogError::Database(Error::InvalidColumnType(column, Type::of(other)))),
    }
}

// The texts in the first column of rows.
fn texts_of(alloc: Global, rows: &[Row]) -> Result<Vec<String>, CatalogError>
    ensures texts { IfOk result
        (λ texts. texts_at rows.now ≡ Ok (map string_bytes texts.items)) }
    ensures refused { IfErr result (λ e. (e ≡ CatalogError.OutOfMemory)
        ⊎ (texts_at rows.now ≡ Err e)) }
{
    let mut texts = Vec::new(alloc);
    for row in rows {
        let text = text_at(alloc, row, 0)?;
        texts.push(text)?;
    }
    Ok(texts)
}

// The version of the tables.
fn read_version<S: Alter>(database: &mut Connection<S>) -> Result<Option<i64>, CatalogError>
    ensures asks { HasCleanDisk (state S.Store database.new) → Asks S.Store read_version
        (λ row result. result ≡ number_at row 0) database.old database.new result }
    ensures clean { HasCleanDisk (state S.Store database.new)
        → HasCleanDisk (state S.Store database.old) }
{
    let row = database.query_row(READ_VERSION, &[])?;
    number_at(&row, 0)
}

// The text that made the table of pictures.
fn read_create_text<S: Alter>(
    alloc: Global,
    database: &mut Connection<S>,
) -> Result<String, CatalogError>
    ensures asks { HasCleanDisk (state S.Store database.new) → Asks S.Store read_create IsText
        database.old database.new result }
    ensures clean { HasCleanDisk (state S.Store database.new)
        → HasCleanDisk (state S.Store database.old) }
{
    let row = database.query_row(READ_CREATE, &[])?;
    text_at(alloc, &row, 0)
}

// Refuses a text that is not the one that makes the table of pictures.
fn accept_table(text: &str) -> Result<(), CatalogError>
    ensures { result ≡ table_answer text.now }
{
    if text == create_text() {
        Ok(())
    } else {
        Err(CatalogError::OtherTables)
    }
}

// Refuses a table of pictures that was made, or changed, by others.
fn check_table<S: Alter>(alloc: Global, database: &mut Connection<S>) -> Result<(), CatalogError>
    ensures asks { HasCleanDisk (state S.Store database.new)
        → AsksTable S.Store database.old database.new result }
    ensures clean { HasCleanDisk (state S.Store database.new)
        → HasCleanDisk (state S.Store database.old) }
{
    accept_table(read_create_text(alloc, database)?.as_str())
}

// Refuses a version that this program does not read.
fn accept_version(version: Option<i64>) -> Result<(), CatalogError>
    ensures { result ≡ version_answer version }
{
    match version {
        Some(VERSION) => Ok(()),
        Some(version) => Err(CatalogError::OtherVersion(version)),
        None => Err(CatalogError::OtherTables),
    }
}

// Refuses tables of a version that this program does not read.
fn check_number<S: Alter>(database: &mut Connection<S>) -> Result<(), CatalogError>
    ensures asks { HasCleanDisk (state S.Store database.new)
        → AsksVersion S.Store database.old database.new result }
    ensures clean { HasCleanDisk (state S.Store database.new)
        → HasCleanDisk (state S.Store database.old) }
{
    accept_version(read_version(database)?)
}

// Refuses tables that are not those of this version.
fn check_version<S: Alter>(alloc: Global, database: &mut Connection<S>) -> Result<(), CatalogError>
    ensures asks { HasCleanDisk (state S.Store database.new)
        → AsksCatalog S.Store database.old database.new result }
    ensures clean { HasCleanDisk (state S.Store database.new)
        → HasCleanDisk (state S.Store database.old) }
{
    check_number(database)?;
    check_table(alloc, database)
}

// Makes the tables.
fn create_tables<S: Alter>(database: &mut Connection<S>) -> Result<(), CatalogError>
    ensures makes { HasCleanDisk (state S.Store database.new)
        → MakesTables S.Store database.old database.new result }
    ensures clean { HasCleanDisk (state S.Store database.new)
        → HasCleanDisk (state S.Store database.old) }
{
    execute(database, CREATE_VERSION)?;
    create_rest(database)
}

// Writes the version, and makes the table of pictures.
fn create_rest<S: Alter>(database: &mut Connection<S>) -> Result<(), CatalogError>
    ensures makes { HasCleanDisk (state S.Store database.new)
        → MakesRest S.Store database.old database.new result }
    ensures clean { HasCleanDisk (state S.Store database.new)
        → HasCleanDisk (state S.Store database.old) }
{
    execute(database, WRITE_VERSION)?;
    execute(database, create_text())
}

// Which tables there are.
fn find_tables<S: Alter>(
    alloc: Global,
    database: &mut Connection<S>,
) -> Result<Tables, CatalogError>
    ensures finds { HasCleanDisk (state S.Store database.new)
        → FindsTables S.Store database.old database.new result }
    ensures clean { HasCleanDisk (state S.Store database.new)
        → HasCleanDisk (state S.Store database.old) }
{
    let rows = database.query_all(READ_TABLES, &[])?;
    let names = texts_of(alloc, rows.as_slice())?;
    Ok(tables_of(names.as_slice()))
}

/// Makes the tables of a new file, or refuses what is no catalogue of this version.
pub fn prepare_tables<S: Alter>(
    alloc: Global,
    database: &mut Connection<S>,
) -> Result<(), CatalogError>
    ensures prepares { HasCleanDisk (state S.Store database.new) → ByTables S.Store
        (PreparesAs S.Store) database.old database.new result }
{
    match find_tables(alloc, database)? {
        Tables::None => create_tables(database),
        Tables::Catalog => check_version(alloc, database),
        Tables::Other => Err(CatalogError::OtherTables),
    }
}

/// Refuses what is no catalogue of this version.
pub(crate) fn check_tables<S: Alter>(
    alloc: Global,
    database: &mut Connection<S>,
) -> Result<(), CatalogError>
    ensures checks { HasCleanDisk (state S.Store database.new) → ByTables S.Store
        (ChecksAs S.Store) database.old database.new result }
{
    match find_tables(alloc, database)? {
        Tables::Catalog => check_version(alloc, database),
        Tables::None | Tables::Other => Err(CatalogError::OtherTables),
    }
}

/// What is done with a database, in a transaction.
pub trait Job {
    ghost use Rattle.exif_catalog_file.specs.declared.errors.RunError.{RunError};

    /// What it answers.
    type Answer;

    /// Why its caller ends it.
    type Error;

    /// What it is before it is done, what it answers, and what it is then.
    ghost does: { Self → Result Self.Answer (RunError Self.Error) → Self → Type 0 } = { λ _ _ _. Unit {0} };

    /// Does it. What it wrote is kept only if it ends the transaction itself.
    fn run<S: Alter>(
        &mut self,
        alloc: Global,
        database: &mut Connection<S>,
    ) -> Result<Self::Answer, RunError<Self::Error>>
        ensures done { does self.old result self.new };
}
