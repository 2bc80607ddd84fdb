//! Files as they are read before they are changed.

ghost use Rattle.std.specs.Prelude.{◌≡◌, true};
ghost use Rattle.exif_types.specs.Refusals.{Gives};
ghost use Rattle.exif_tiff.specs.Answers.{raw_answer};
ghost use Rattle.exif_containers.specs.Container.{container_answer};
ghost use Rattle.exif_reader.specs.Files.{ReadsContainer};
ghost use Rattle.exif_change.specs.Reading.{contents_of, entry_limit, faults_skipped, file_contents};

use exif::{Counted, Error, Exif, Reader};
use std::alloc::Global;

/// How many entries of a file are read at most: data of 14 KB that share their children hold
/// millions.
pub const ENTRY_LIMIT: u64 = 1_000_000;

/// The fields of a file; soft faults are skipped.
pub fn read(alloc: Global, file: &[u8]) -> Result<Exif, Error>
    ensures { Gives contents_of result (file_contents file.now) }
{
    faults_skipped(answered(alloc, file))
}

// What a lenient reader answers of a file.
fn answered(alloc: Global, file: &[u8]) -> Result<Exif, Error>
    ensures { ReadsContainer (raw_answer true entry_limit) (container_answer file.now) result }
{
    let mut reader = Reader::new();
    reader.continue_on_error(true).limit_entries(ENTRY_LIMIT);
    reader.read_from_container(alloc, &mut Counted::new(file))
}

// What was read, whatever faults there were.
fn faults_skipped(answer: Result<Exif, Error>) -> Result<Exif, Error>
    ensures { result ≡ faults_skipped answer.entry }
{
    match answer {
        Ok(exif) => Ok(exif),
        Err(Error::PartialResult(partial)) => {
            let (exif, _faults) = partial.into_inner();
            Ok(exif)
        }
        Err(error) => Err(error),
    }
}
