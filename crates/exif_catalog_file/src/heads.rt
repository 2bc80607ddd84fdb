//! What is at a path, before it is opened as a database.

ghost use Rattle.std.specs.Prelude.{◌≡◌, ◌≢◌, None, Some, IfErr, IfOk, IsTrue};
ghost use Rattle.std.specs.Fs.{IsFile, file_type};
ghost use Rattle.std.specs.IoError.{error_kind};
ghost use Rattle.exif_catalog_file.specs.Heads.{existing_answer, is_existing_error, is_kind_error, is_new_error, kind_of, new_answer};

use crate::errors::CatalogError;
use std::alloc::Global;
use std::fs::{self, File, Metadata};
use std::io::{self, ErrorKind, Read};

/// What is at a path.
#[derive(Clone, Copy, Debug, PartialEq, Eq)]
pub enum FileKind {
    /// Nothing.
    Absent,
    /// An empty file, which an open makes a database.
    Empty,
    /// A SQLite database.
    Database,
    /// Another file.
    Other,
}

// The length of the mark of a database.
const MARK_LEN: u64 = 16;

// What a file is, by its first bytes (SQLite, "Database File Format", section 1.3.1).
fn kind_of(head: &[u8]) -> FileKind
    ensures { result ≡ kind_of head.now }
{
    if head.is_empty() {
        FileKind::Empty
    } else if head.starts_with(b"SQLite format 3\0") {
        FileKind::Database
    } else {
        FileKind::Other
    }
}

/// What the system found at a path, if it found something.
pub(crate) fn if_found(found: io::Result<Metadata>) -> io::Result<Option<Metadata>>
    ensures found { IfOk found (λ it. result ≡ Ok (Some it)) }
    ensures absent { IfErr found
        (λ e. error_kind e ≡ ErrorKind.NotFound → result ≡ Ok None) }
    ensures unknown { IfErr found (λ e. error_kind e ≢ ErrorKind.NotFound → result ≡ Err e) }
{
    match found {
        Ok(it) => Ok(Some(it)),
        Err(error) if error.kind() == ErrorKind::NotFound => Ok(None),
        Err(error) => Err(error),
    }
}

// The first bytes of a file.
fn read_head(rt: &HostRuntime, path: &str) -> io::Result<Vec<u8>> {
    let alloc: Global = rt.alloc();
    let mut head = Vec::new(alloc);
    File::open(rt, path)?.take(MARK_LEN).read_to_end(&mut head)?;
    Ok(head)
}

// Refuses a folder and a device.
fn accept_file(found: &Metadata) -> Result<(), CatalogError>
    ensures file { IsFile (file_type found.now) → result ≡ Ok tt }
    ensures other { IfOk result (λ _. IsFile (file_type found.now)) }
    ensures refused { IfErr result (λ e. e ≡ CatalogError.NotAFile) }
{
    if found.is_file() {
        Ok(())
    } else {
        Err(CatalogError::NotAFile)
    }
}

// What is at a path. Nothing is changed there. A folder, a device, and what cannot be read are
// refused.
fn find_kind(rt: &HostRuntime, path: &str) -> Result<FileKind, CatalogError>
    ensures named { IfErr result (λ e. IsTrue (is_kind_error e)) }
{
    let Some(found) = if_found(fs::metadata(rt, path))? else {
        return Ok(FileKind::Absent);
    };
    accept_file(&found)?;
    let head = read_head(rt, path)?;
    Ok(kind_of(head.as_slice()))
}

// Refuses a file that is not empty and no database.
fn accept_new(kind: FileKind) -> Result<(), CatalogError>
    ensures { result ≡ new_answer kind }
{
    match kind {
        FileKind::Absent | FileKind::Empty | FileKind::Database => Ok(()),
        FileKind::Other => Err(CatalogError::NotADatabase),
    }
}

// Refuses a file that is no database yet.
fn accept_existing(kind: FileKind) -> Result<(), CatalogError>
    ensures { result ≡ existing_answer kind }
{
    match kind {
        FileKind::Database => Ok(()),
        FileKind::Absent => Err(CatalogError::Absent),
        FileKind::Empty => Err(CatalogError::OtherTables),
        FileKind::Other => Err(CatalogError::NotADatabase),
    }
}

/// Refuses a file that is not empty and no database.
pub(crate) fn check_new(rt: &HostRuntime, path: &str) -> Result<(), CatalogError>
    ensures named { IfErr result (λ e. IsTrue (is_new_error e)) }
{
    accept_new(find_kind(rt, path)?)
}

/// Refuses a file that is no database yet.
pub(crate) fn check_existing(rt: &HostRuntime, path: &str) -> Result<(), CatalogError>
    ensures named { IfErr result (λ e. IsTrue (is_existing_error e)) }
{
    accept_existing(find_kind(rt, path)?)
}
