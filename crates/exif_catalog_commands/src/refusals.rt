//! Why a catalogue or a query was refused, or why a run over it ends.

ghost use Rattle.std.specs.Prelude.{◌≡◌};
ghost use Rattle.exif_catalog_commands.specs.Refusals.{query_refusal, refusal_of, report_of};

use exif_catalog::Updated;
use exif_catalog_file::{CatalogError, RunError};
use exif_session::Stop;
use std::io;

/// Why a catalogue was refused; or why the run ends.
pub fn refusal_of(error: RunError<Stop>) -> Result<CatalogError, Stop>
    ensures { result ≡ refusal_of error }
{
    match error {
        RunError::Caller(stop) => Err(stop),
        RunError::Catalog(CatalogError::OutOfMemory) => Err(Stop::OutOfMemory),
        RunError::Catalog(error) => Ok(error),
    }
}

/// What a run did, or why the catalogue was refused; or why the run ends.
pub fn report_of(
    updated: Result<Updated, RunError<Stop>>,
) -> Result<Result<Updated, CatalogError>, Stop>
    ensures { result ≡ report_of updated }
{
    match updated {
        Ok(updated) => Ok(Ok(updated)),
        Err(error) => Ok(Err(refusal_of(error)?)),
    }
}

/// Why a query was refused, if it was; or why the program ends: its output took no more, or memory
/// ran out.
pub fn query_refusal(
    answered: Result<u64, RunError<io::Error>>,
) -> Result<Option<CatalogError>, Stop>
    ensures { result ≡ query_refusal answered }
{
    match answered {
        Ok(_rows) => Ok(None),
        Err(RunError::Caller(cause)) => Err(Stop::Output(cause)),
        Err(RunError::Catalog(CatalogError::OutOfMemory)) => Err(Stop::OutOfMemory),
        Err(RunError::Catalog(error)) => Ok(Some(error)),
    }
}
