//! Why a catalogue cannot be used.

ghost use Rattle.std.specs.Prelude.{◌≡◌};
ghost use Rattle.sqlite.specs.declared.error.Error.TheVariants.{SqliteFailure};
ghost use Rattle.sqlite.specs.declared.error.ErrorCode.TheVariants.{OperationInterrupted};
ghost use Rattle.exif_catalog_file.specs.Errors.{database_error, file_error};
ghost use Rattle.exif_catalog_file.specs.declared.errors.CatalogError.TheVariants as catalog;
ghost use Rattle.exif_catalog_file.specs.declared.errors.RunError.TheVariants as run;

use crate::schema::VERSION;
use sqlite::{Error, ErrorCode};
use std::alloc::{AllocError, AllocFailed};
use std::{fmt, io};

/// Why a catalogue cannot be opened, written or read. The file is as it was.
#[derive(Debug, Drop)]
pub enum CatalogError {
    /// There is no such file.
    Absent,
    /// It is a folder or a device.
    NotAFile,
    /// It cannot be read.
    Unreadable(io::Error),
    /// There is none, and none can be made in its folder.
    NotMade,
    /// It cannot be written, or its folder cannot, so that it gets no log.
    ReadOnly,
    /// It has a second name (a hard link), or its log has, or the log is no regular file.
    Linked,
    /// A rollback journal is beside it: a program that wrote it was interrupted.
    Journal,
    /// It is no SQLite database.
    NotADatabase,
    /// It has tables that are not those of a catalogue.
    OtherTables,
    /// It is a catalogue of another version.
    OtherVersion(i64),
    /// A row does not begin with the path of its picture.
    NoPath,
    /// The text is no query: it does not begin with SELECT or WITH.
    NotAQuery,
    /// The database answered with an error.
    Database(Error),
    /// Out of memory.
    OutOfMemory,
}

/// Why a run over a catalogue ended.
#[derive(Debug, Drop)]
pub enum RunError<E> {
    /// The catalogue cannot be used.
    Catalog(CatalogError),
    /// What the caller gave.
    Caller(E),
}

/// A query shows more rows than a count can tell.
pub fn too_many() -> CatalogError
    ensures { result ≡ catalog.Database (SqliteFailure OperationInterrupted) }
{
    CatalogError::Database(Error::SqliteFailure(ErrorCode::OperationInterrupted))
}

impl fmt::Display for CatalogError {
    ghost use Rattle.exif_catalog_file.specs.Errors.{error_text};

    ghost output = { error_text };

    fn fmt<W: fmt::Write>(&self, f: &mut fmt::Formatter<W>) -> fmt::Result {
        match self {
            CatalogError::Absent => f.write_str("no such catalogue: `catalog` makes one"),
            CatalogError::NotAFile => f.write_str("not a regular file"),
            CatalogError::Unreadable(error) => write!(f, "{error}"),
            CatalogError::NotMade => {
                f.write_str("it can't be made: its folder is missing, or can't be written")
            }
            CatalogError::ReadOnly => {
                f.write_str("it can't be changed: the file or its folder can't be written")
            }
            CatalogError::Linked => {
                f.write_str("the database or its log has a second name, or is a link")
            }
            CatalogError::Journal => {
                f.write_str("a program that wrote it was interrupted: open it with sqlite3 first")
            }
            CatalogError::NotADatabase => f.write_str("not a SQLite database"),
            CatalogError::OtherTables => f.write_str("a database that is no catalogue of pictures"),
            CatalogError::OtherVersion(version) if *version > VERSION => write!(
                f,
                "a catalogue of version {version}, by a newer program; this one reads version 2"
            ),
            CatalogError::OtherVersion(version) => write!(
                f,
                "a catalogue of version {version}; this program reads version 2: move it away, and make a new one"
            ),
            CatalogError::NoPath => f.write_str("a row without a path"),
            CatalogError::NotAQuery => f.write_str("expected a query that begins with SELECT"),
            CatalogError::Database(error) => write!(f, "{error}"),
            CatalogError::OutOfMemory => f.write_str("out of memory"),
        }
    }
}

impl std::error::Error for CatalogError {}

impl From<Error> for CatalogError {
    ghost from_gives = { λ failure error. error ≡ database_error failure };

    fn from(error: Error) -> CatalogError {
        match error {
            Error::SqliteFailure(ErrorCode::OutOfMemory) => CatalogError::OutOfMemory,
            other => CatalogError::Database(other),
        }
    }
}

impl From<io::Error> for CatalogError {
    ghost from_gives = { λ failure error. error ≡ file_error failure };

    fn from(error: io::Error) -> CatalogError {
        match error.kind() {
            io::ErrorKind::OutOfMemory => CatalogError::OutOfMemory,
            _ => CatalogError::Unreadable(error),
        }
    }
}

impl From<AllocError> for CatalogError {
    ghost from_gives = { λ _ error. error ≡ catalog.OutOfMemory };

    fn from(_error: AllocError) -> CatalogError {
        CatalogError::OutOfMemory
    }
}

impl<T: Drop> From<AllocFailed<T>> for CatalogError {
    ghost from_gives = { λ _ error. error ≡ catalog.OutOfMemory };

    fn from(_error: AllocFailed<T>) -> CatalogError {
        CatalogError::OutOfMemory
    }
}

impl<E> From<CatalogError> for RunError<E> {
    ghost from_gives = { λ failure error. error ≡ run.Catalog failure };

    fn from(error: CatalogError) -> RunError<E> {
        RunError::Catalog(error)
    }
}

impl<E> From<Error> for RunError<E> {
    ghost from_gives = { λ failure error. error ≡ run.Catalog (database_error failure) };

    fn from(error: Error) -> RunError<E> {
        RunError::Catalog(CatalogError::from(error))
    }
}

impl<E> From<AllocError> for RunError<E> {
    ghost from_gives = { λ _ error. error ≡ run.Catalog catalog.OutOfMemory };

    fn from(_error: AllocError) -> RunError<E> {
        RunError::Catalog(CatalogError::OutOfMemory)
    }
}
