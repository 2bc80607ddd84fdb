//! Databases that cannot be written, as copies in memory.

ghost use Rattle.std.specs.Prelude.{◌≡◌, ℕ, List, [], None, Some, false, string_bytes, IfErr, IfNone, IfOk, IfSome, IsOkAnd, IsSomeAnd, IsTrue};
ghost use Rattle.std.specs.Fs.{IsFile, file_type, metadata_len};
ghost use Rattle.sqlite_disk.specs.Memory.{memory_bytes, memory_is_usable};
ghost use Rattle.sqlite.specs.Files.{Finds, IsOpened, file_state};
ghost use Rattle.sqlite.specs.Held.{IsNew};
ghost use Rattle.sqlite.specs.State.{HasCleanDisk};
ghost use Rattle.exif_catalog_file.specs.Errors.{IsOpenFailure};
ghost use Rattle.exif_catalog_file.specs.Copies.{is_copy_error, is_journal_error, is_moment_error, is_names_error, is_read_error, journal_path, log_path};

use crate::errors::CatalogError;
use crate::heads::if_found;
use sqlite::{Connection, Error, ErrorCode, FileStore, Files, Options};
use sqlite_disk::{Disk, Memory};
use std::alloc::Global;
use std::fs::{self, File, Metadata};
use std::io::Read;
use std::os::unix::fs::MetadataExt;

// What a file is at a moment: its number, its length, and when it was changed.
type Moment = (u64, u64, i64, i64);

// What a file is now.
fn moment_of(found: &Metadata) -> Moment
    ensures len { result.1 ≡ metadata_len found.now }
{
    (found.ino(), found.len(), found.ctime(), found.ctime_nsec())
}

// What a file is, if there is one. One that has a second name is refused, since a log could be
// beside that one, and so is what is no regular file.
fn moment_if(found: Option<Metadata>) -> Result<Option<Moment>, CatalogError>
    ensures absent { IfNone found (result ≡ Ok None) }
    ensures linked { IfErr result (λ e. e ≡ CatalogError.Linked) }
    ensures regular { IfSome found (λ it. IfOk result (λ _. IsFile (file_type it))) }
    ensures len { IfSome found (λ it. IfOk result (λ moment.
        IsSomeAnd moment (λ m. m.1 ≡ metadata_len it))) }
{
    match found {
        None => Ok(None),
        Some(found) if found.is_file() && found.nlink() == 1 => Ok(Some(moment_of(&found))),
        Some(_) => Err(CatalogError::Linked),
    }
}

// What a file is now, if there is one, by its own name.
fn find_moment(rt: &HostRuntime, path: &str) -> Result<Option<Moment>, CatalogError>
    ensures named { IfErr result (λ e. IsTrue (is_moment_error e)) }
{
    moment_if(if_found(fs::symlink_metadata(rt, path))?)
}

// The path of the log of a database.
fn log_of(alloc: Global, path: &str) -> Result<String, CatalogError>
    ensures path { IfOk result (λ log. string_bytes log ≡ log_path path.now) }
    ensures memory { IfErr result (λ e. e ≡ CatalogError.OutOfMemory) }
{
    Ok(format!(in alloc; "{path}-wal")?)
}

// The path of the rollback journal of a database.
fn journal_of(alloc: Global, path: &str) -> Result<String, CatalogError>
    ensures path { IfOk result (λ journal. string_bytes journal ≡ journal_path path.now) }
    ensures memory { IfErr result (λ e. e ≡ CatalogError.OutOfMemory) }
{
    Ok(format!(in alloc; "{path}-journal")?)
}

// Refuses a rollback journal that is not empty.
fn accept_journal(found: Option<Metadata>) -> Result<(), CatalogError>
    ensures absent { IfNone found (result ≡ Ok tt) }
    ensures empty { IfSome found (λ it. IsFile (file_type it) → metadata_len it ≡ 0
        → result ≡ Ok tt) }
    ensures other { IfSome found (λ it. IfOk result (λ _. IsFile (file_type it)
        × (metadata_len it ≡ 0))) }
    ensures refused { IfErr result (λ e. e ≡ CatalogError.Journal) }
{
    match found {
        None => Ok(()),
        Some(found) if found.is_file() && found.len() == 0 => Ok(()),
        Some(_) => Err(CatalogError::Journal),
    }
}

// Refuses a database that has a rollback journal which is not empty.
fn check_journal(rt: &HostRuntime, path: &str) -> Result<(), CatalogError>
    ensures named { IfErr result (λ e. IsTrue (is_journal_error e)) }
{
    let journal = journal_of(rt.alloc(), path)?;
    accept_journal(if_found(fs::symlink_metadata(rt, journal.as_str()))?)
}

/// Refuses a database with a second name, a log that is no file of its own, or a rollback journal.
/// Its path has no links.
pub(crate) fn check_names(rt: &HostRuntime, path: &str) -> Result<(), CatalogError>
    ensures named { IfErr result (λ e. IsTrue (is_names_error e)) }
{
    find_moment(rt, path)?;
    let log = log_of(rt.alloc(), path)?;
    find_moment(rt, log.as_str())?;
    check_journal(rt, path)
}

// The bytes of a file; none where there is no file.
fn bytes_of(rt: &HostRuntime, path: &str, is_there: bool) -> Result<Vec<u8>, CatalogError>
    ensures absent { is_there ≡ false → IsOkAnd result (λ bytes. bytes.items ≡ []) }
    ensures named { IfErr result (λ e. IsTrue (is_read_error e)) }
{
    let mut bytes = Vec::new(rt.alloc());
    if is_there {
        File::open(rt, path)?.read_to_end(&mut bytes)?;
    }
    Ok(bytes)
}

// Bytes as a file in memory.
fn memory_of(alloc: Global, bytes: &[u8]) -> Result<Memory, CatalogError>
    ensures usable { IfOk result (λ memory. IsTrue (memory_is_usable memory)) }
    ensures bytes { IfOk result (λ memory. memory_bytes memory ≡ bytes.now) }
    ensures named { IfErr result (λ e. IsTrue (is_read_error e)) }
{
    let mut memory = Memory::new(alloc);
    memory.write_at(0, bytes)?;
    Ok(memory)
}

/// A copy in memory of a database and its log. A database that is written meanwhile is refused as
/// locked.
pub(crate) fn copy_of(rt: &HostRuntime, path: &str) -> Result<Files<Memory>, CatalogError>
    ensures log { IfOk result (λ files. IsTrue (memory_is_usable files.log)) }
    ensures db { IfOk result (λ files. IsTrue (memory_is_usable files.db)) }
    ensures named { IfErr result (λ e. IsTrue (is_copy_error e)) }
{
    let alloc = rt.alloc();
    let real = fs::canonicalize(rt, path)?;
    let real = real.as_str();
    let log = log_of(alloc, real)?;
    let log = log.as_str();
    check_journal(rt, real)?;
    let before = (find_moment(rt, real)?, find_moment(rt, log)?);
    let database = bytes_of(rt, real, before.0.is_some())?;
    let frames = bytes_of(rt, log, before.1.is_some())?;
    if before != (find_moment(rt, real)?, find_moment(rt, log)?) {
        return Err(CatalogError::Database(Error::SqliteFailure(ErrorCode::DatabaseBusy)));
    }
    Ok(Files {
        log: memory_of(alloc, frames.as_slice())?,
        db: memory_of(alloc, database.as_slice())?,
    })
}

/// The database in files in memory.
pub(crate) fn memory_database(
    alloc: Global,
    files: Files<Memory>,
) -> Result<Connection<FileStore<Memory>>, CatalogError>
    requires log { IsTrue (memory_is_usable files.log) }
    requires db { IsTrue (memory_is_usable files.db) }
    ensures found { IfOk result (λ c. HasCleanDisk (file_state c) → Finds files c) }
    ensures opened { IfOk result (λ c. HasCleanDisk (file_state c) → IsOpened c) }
    ensures fresh { IfOk result IsNew }
    ensures named { IfErr result (λ e. IsOpenFailure e) }
{
    match Connection::open_files(alloc, files, Options::new(0)) {
        Ok(database) => Ok(database),
        Err((error, _files)) => Err(CatalogError::from(error)),
    }
}
