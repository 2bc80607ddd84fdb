//! Database files that are opened for a job, and closed behind it.

ghost use Rattle.std.specs.Prelude.{◌≡◌, IsTrue, false, true};
ghost use Rattle.exif_catalog_file.specs.Copies.{is_cause};
ghost use Rattle.exif_catalog_file.specs.Errors.{IsFailure, database_error, is_closed};
ghost use Rattle.exif_catalog_file.specs.Jobs.{IsDone, IsNotChanged, IsNotOpened, IsNotRead};

use crate::copies::{check_names, copy_of, memory_database};
use crate::database::{Job, begin};
use crate::errors::{CatalogError, RunError};
use crate::heads::check_new;
use sqlite::{Alter, Connection, Error, ErrorCode};
use std::alloc::Global;
use std::fs;

// Does a job in a transaction.
fn run_inside<S: Alter, J: Job>(
    alloc: Global,
    database: &mut Connection<S>,
    job: &mut J,
) -> Result<J::Answer, RunError<J::Error>>
    ensures done { IsDone J.does IsFailure job.old result job.new }
{
    begin(database)?;
    job.run(alloc, database)
}

// Why a database could not be opened, by what is at its path.
fn cause_of(rt: &HostRuntime, path: &str) -> CatalogError
    ensures named { IsTrue (is_cause result) }
{
    let Ok(real) = fs::canonicalize(rt, path) else {
        return CatalogError::NotMade;
    };
    match check_names(rt, real.as_str()) {
        Ok(()) => CatalogError::ReadOnly,
        Err(error) => error,
    }
}

// Which error it is that a database was not opened.
fn failure_of(rt: &HostRuntime, path: &str, error: Error) -> CatalogError
    ensures named { IsNotOpened result }
    ensures cause { is_closed error ≡ true → IsTrue (is_cause result) }
    ensures other { is_closed error ≡ false → result ≡ database_error error }
{
    match error {
        Error::SqliteFailure(ErrorCode::CannotOpen) => cause_of(rt, path),
        other => CatalogError::from(other),
    }
}

/// Does a job with a database file, which is made where it is not there. A file that is not empty
/// and no database is refused, and stays as it is.
pub fn change<J: Job>(
    rt: &HostRuntime,
    path: &str,
    job: &mut J,
) -> Result<J::Answer, RunError<J::Error>>
    ensures done { IsDone J.does IsNotChanged job.old result job.new }
{
    check_new(rt, path)?;
    run_job(rt, path, job)
}

// Does a job with a database file, which is made where it is not there. This function and
// `run_reading` alone own connections: they close them on each way, so that no proof of how
// their parts are dropped is asked for, here and in the crates above.
fn run_job<J: Job>(
    rt: &HostRuntime,
    path: &str,
    job: &mut J,
) -> Result<J::Answer, RunError<J::Error>>
    ensures done { IsDone J.does IsNotOpened job.old result job.new }
{
    let mut database = match Connection::open(rt, path) {
        Ok(database) => database,
        Err(error) => return Err(RunError::Catalog(failure_of(rt, path, error))),
    };
    let answer = run_inside(rt.alloc(), &mut database, job);
    // What was not kept is undone, and the log is copied into the file. Where that fails, the next
    // open reads the log.
    let _ = database.close();
    answer
}

/// Does a job that keeps nothing with a database file that is there. One that cannot be written,
/// or whose folder cannot, is read as a copy in memory: it is not locked meanwhile.
pub(crate) fn run_reading<J: Job>(
    rt: &HostRuntime,
    path: &str,
    job: &mut J,
) -> Result<J::Answer, RunError<J::Error>>
    ensures done { IsDone J.does IsNotRead job.old result job.new }
{
    let mut database = match Connection::open(rt, path) {
        Ok(database) => database,
        Err(Error::SqliteFailure(ErrorCode::CannotOpen)) => return run_copied(rt, path, job),
        Err(error) => return Err(RunError::from(error)),
    };
    let answer = run_inside(rt.alloc(), &mut database, job);
    let _ = database.close();
    answer
}

// Does a job with a copy of a database file in memory.
fn run_copied<J: Job>(
    rt: &HostRuntime,
    path: &str,
    job: &mut J,
) -> Result<J::Answer, RunError<J::Error>>
    ensures done { IsDone J.does IsNotRead job.old result job.new }
{
    let files = copy_of(rt, path)?;
    let mut database = memory_database(rt.alloc(), files)?;
    let answer = run_inside(rt.alloc(), &mut database, job);
    let _ = database.close();
    answer
}
