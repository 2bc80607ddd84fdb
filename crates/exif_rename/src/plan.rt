//! Which new paths files get.

ghost use Rattle.std.specs.Prelude.{◌≡◌, ◌≢◌, ◌≤◌, ◌-◌, ◌&&◌, ◌||◌, not, ℕ, List, Ok, Err, IfOk, IfErr, OnOk, map, string_bytes, true, false, if◌then◌else◌};
ghost use Rattle.std.specs.BTreeSet.{contains_text};
ghost use Rattle.std.specs.Option.{option_or};
ghost use Rattle.std.specs.Str.{bytes_eq};
ghost use Rattle.exif_files.specs.Each.{is_among};
ghost use Rattle.exif_files.specs.States.{Now};
ghost use Rattle.exif_files.specs.Steps.{count_after};
ghost use Rattle.exif_rename.specs.Failures.{is_failed, IfCrowded};
ghost use Rattle.exif_rename.specs.Planned.{chosen, free_in, fit, fit_from, fits, is_claimed, planned, with_paths};
ghost use Rattle.exif_rename.specs.Starts.{IsStart};
ghost use Rattle.exif_rename.specs.RenameRequests.{File, candidate, file_of, wanted_of};
ghost use Rattle.exif_rename.specs.declared.plan.PlanError.TheVariants.{Io, Crowded, OutOfMemory};

use crate::request::{RenameRequest, RequestFile, candidate, joined};
use crate::starts::{Series, find_start};
use exif_files::FileSystem;
use std::alloc::{AllocError, AllocFailed, Global};
use std::collections::{BTreeMap, BTreeSet};
use std::{fmt, io};

// How many candidates a name has.
pub(crate) const TRIES: u32 = 100_000;

/// Why there is no plan.
#[derive(Debug, Drop)]
pub enum PlanError {
    /// A call of the system failed.
    Io(io::Error),
    /// No candidate is left for the request of this index.
    Crowded(usize),
    /// Out of memory.
    OutOfMemory,
}

impl From<io::Error> for PlanError {
    ghost from_gives = { λ cause e. e ≡ Io cause };

    fn from(e: io::Error) -> PlanError {
        PlanError::Io(e)
    }
}

impl From<AllocError> for PlanError {
    ghost from_gives = { λ _ e. e ≡ OutOfMemory };

    fn from(_e: AllocError) -> PlanError {
        PlanError::OutOfMemory
    }
}

impl<T: Drop> From<AllocFailed<T>> for PlanError {
    ghost from_gives = { λ _ e. e ≡ OutOfMemory };

    fn from(_e: AllocFailed<T>) -> PlanError {
        PlanError::OutOfMemory
    }
}

impl fmt::Display for PlanError {
    ghost use Rattle.exif_rename.specs.Texts.{plan_text};

    ghost output = { plan_text };

    fn fmt<W: fmt::Write>(&self, f: &mut fmt::Formatter<W>) -> fmt::Result {
        match self {
            PlanError::Io(cause) => write!(f, "{cause}"),
            PlanError::Crowded(_) => write!(f, "all names with a number up to 99999 are taken"),
            PlanError::OutOfMemory => write!(f, "out of memory"),
        }
    }
}

/// Which new names files get: the number of the candidate of each request, from which
/// [`RenameRequest::moves`](crate::RenameRequest::moves) makes the new paths. Files that have all
/// their paths by one number already, which no file was given before, keep it: so a second run
/// changes nothing. Other requests get the first number by which each file has a path that nothing
/// has, or that is its own, and that no file was given before. It only asks which paths are free,
/// and takes the memory of all new paths. It remembers how far the numbers of each name and ending
/// are taken, so many files of one name take no longer than as many of different names.
pub fn plan_names<F: FileSystem>(
    alloc: Global,
    files: &mut F,
    requests: &[RenameRequest],
) -> Result<Vec<u32>, PlanError>
    ensures planned { IfOk result (λ numbers. Now (F.states files.old)
        (λ s. planned (free_in s) (map wanted_of requests.now) ≡ Ok numbers.items)) }
    ensures crowded { IfErr result (λ e. IfCrowded e (λ index. Now (F.states files.old)
        (λ s. planned (free_in s) (map wanted_of requests.now) ≡ Err index))) }
    ensures same { F.states files.new ≡ F.states files.old }
    ensures count { F.failures files.new ≡ count_after (is_failed result) (F.failures files.old) }
{
    let mut given: BTreeSet<String> = BTreeSet::new(alloc);
    let mut starts: BTreeMap<Series, u32> = BTreeMap::new(alloc);
    let mut numbers = Vec::new(alloc);
    for (index, request) in requests.iter().enumerate() {
        let start = find_start(alloc, files, &given, &mut starts, request)?;
        let Some(number) = choose(alloc, files, &given, request, start)? else {
            return Err(PlanError::Crowded(index));
        };
        numbers.push(number)?;
        give_paths(alloc, &mut given, request, number)?;
    }
    Ok(numbers)
}

// The number that a request gets: the one by which its files have their paths already, or the first
// whose candidate they can have.
fn choose<F: FileSystem>(
    alloc: Global,
    files: &mut F,
    given: &BTreeSet<String>,
    request: &RenameRequest,
    start: u32,
) -> Result<Option<u32>, PlanError>
    requires { start ≤ 100000 }
    ensures answer { IfOk result (λ number. (names : List (List ℕ))
        → ((q : List ℕ) → contains_text given.now q ≡ is_among q names)
        → Now (F.states files.old)
        (λ s. IsStart (free_in s) (contains_text given.now) (wanted_of request.now) start
        → chosen (free_in s) names (wanted_of request.now) ≡ number)) }
    ensures never { IfErr result (λ e. IfCrowded e (λ index. ⊥)) }
    ensures same { F.states files.new ≡ F.states files.old }
    ensures count { F.failures files.new ≡ count_after (is_failed result) (F.failures files.old) }
{
    let Some(own) = request.kept_number(alloc)? else {
        return first_fit(alloc, files, given, request, start);
    };
    if all_fit_by(alloc, files, given, request, own)? {
        return Ok(Some(own));
    }
    first_fit(alloc, files, given, request, start)
}

// The first number whose candidate all files of a request can have. Below `start` that is only the
// number by which the first file has its path already, so the search tries it and those from
// `start` on.
fn first_fit<F: FileSystem>(
    alloc: Global,
    files: &mut F,
    given: &BTreeSet<String>,
    request: &RenameRequest,
    start: u32,
) -> Result<Option<u32>, PlanError>
    requires { start ≤ 100000 }
    ensures answer { IfOk result (λ number. (names : List (List ℕ))
        → ((q : List ℕ) → contains_text given.now q ≡ is_among q names)
        → Now (F.states files.old)
        (λ s. IsStart (free_in s) (contains_text given.now) (wanted_of request.now) start
        → fit (free_in s) names (wanted_of request.now) ≡ number)) }
    ensures never { IfErr result (λ e. IfCrowded e (λ index. ⊥)) }
    ensures same { F.states files.new ≡ F.states files.old }
    ensures count { F.failures files.new ≡ count_after (is_failed result) (F.failures files.old) }
{
    if let Some(own) = own_fit(alloc, files, given, request, start)? {
        return Ok(Some(own));
    }
    for number in start..TRIES {
        if all_fit_by(alloc, files, given, request, number)? {
            return Ok(Some(number));
        }
    }
    Ok(None)
}

// The number below `start` by which the first file has its path already, if all files can have
// their paths by it.
fn own_fit<F: FileSystem>(
    alloc: Global,
    files: &mut F,
    given: &BTreeSet<String>,
    request: &RenameRequest,
    start: u32,
) -> Result<Option<u32>, PlanError>
    requires { start ≤ 100000 }
    ensures answer { IfOk result (λ own. (names : List (List ℕ))
        → ((q : List ℕ) → contains_text given.now q ≡ is_among q names)
        → Now (F.states files.old)
        (λ s. IsStart (free_in s) (contains_text given.now) (wanted_of request.now) start
        → fit (free_in s) names (wanted_of request.now)
        ≡ option_or own (fit_from (free_in s) names (wanted_of request.now) (100000 - start) start))) }
    ensures never { IfErr result (λ e. IfCrowded e (λ index. ⊥)) }
    ensures same { F.states files.new ≡ F.states files.old }
    ensures count { F.failures files.new ≡ count_after (is_failed result) (F.failures files.old) }
{
    let Some(own) = request.own_number() else {
        return Ok(None);
    };
    if own >= start {
        return Ok(None);
    }
    if all_fit_by(alloc, files, given, request, own)? {
        return Ok(Some(own));
    }
    Ok(None)
}

// Whether all files of a request can have their paths by the candidate of a number.
fn all_fit_by<F: FileSystem>(
    alloc: Global,
    files: &mut F,
    given: &BTreeSet<String>,
    request: &RenameRequest,
    number: u32,
) -> Result<bool, PlanError>
    ensures answer { IfOk result (λ answer. (names : List (List ℕ))
        → ((q : List ℕ) → contains_text given.now q ≡ is_among q names)
        → Now (F.states files.old) (λ s. fits (free_in s) names
        (candidate (wanted_of request.now).base number) (wanted_of request.now).files ≡ answer)) }
    ensures never { IfErr result (λ e. IfCrowded e (λ index. ⊥)) }
    ensures same { F.states files.new ≡ F.states files.old }
    ensures count { F.failures files.new ≡ count_after (is_failed result) (F.failures files.old) }
{
    let name = candidate(alloc, request.base.as_str(), number)?;
    all_fit(alloc, files, given, name.as_str(), request.files.as_slice())
}

// Whether all files of a request can have their paths by a name.
fn all_fit<F: FileSystem>(
    alloc: Global,
    files: &mut F,
    given: &BTreeSet<String>,
    name: &str,
    request_files: &[RequestFile],
) -> Result<bool, PlanError>
    ensures answer { IfOk result (λ answer. (names : List (List ℕ))
        → ((q : List ℕ) → contains_text given.now q ≡ is_among q names)
        → Now (F.states files.old)
        (λ s. fits (free_in s) names name.now (map file_of request_files.now) ≡ answer)) }
    ensures never { IfErr result (λ e. IfCrowded e (λ index. ⊥)) }
    ensures same { F.states files.new ≡ F.states files.old }
    ensures count { F.failures files.new ≡ count_after (is_failed result) (F.failures files.old) }
{
    let mut paths: Vec<String> = Vec::new(alloc);
    for file in request_files {
        let path = joined(alloc, name, file.ending.as_str())?;
        if !can_have(
            files,
            given,
            paths.as_slice(),
            path.as_str(),
            file.old.as_str(),
        )? {
            return Ok(false);
        }
        paths.push(path)?;
    }
    Ok(true)
}

// Whether a file can have a path: no file was given it, and it is its own or nothing has it.
fn can_have<F: FileSystem>(
    files: &mut F,
    given: &BTreeSet<String>,
    paths: &[String],
    path: &str,
    old: &str,
) -> Result<bool, PlanError>
    ensures answer { IfOk result (λ answer. Now (F.states files.old) (λ s. answer
        ≡ (not (is_claimed (contains_text given.now) (map string_bytes paths.now) path.now)
        && (bytes_eq path.now old.now || free_in s path.now)))) }
    ensures never { IfErr result (λ e. IfCrowded e (λ index. ⊥)) }
    ensures no_memory { result ≢ Err OutOfMemory }
    ensures same { F.states files.new ≡ F.states files.old }
    ensures count { F.failures files.new ≡ count_after (is_failed result) (F.failures files.old) }
{
    if given.contains(path) || is_among(paths, path) {
        return Ok(false);
    }
    if path == old {
        return Ok(true);
    }
    Ok(files.is_free(path)?)
}

// Whether a path is among others.
fn is_among(paths: &[String], path: &str) -> bool
    ensures { result ≡ is_among path.now (map string_bytes paths.now) }
{
    for other in paths {
        if other.as_str() == path {
            return true;
        }
    }
    false
}

// Adds the paths that the files of a request get by a candidate to those that were given.
fn give_paths(
    alloc: Global,
    given: &mut BTreeSet<String>,
    request: &RenameRequest,
    number: u32,
) -> Result<(), AllocError>
    ensures { OnOk result ((names : List (List ℕ))
        → ((q : List ℕ) → contains_text given.old q ≡ is_among q names)
        → (q : List ℕ) → contains_text given.new q ≡ is_among q (with_paths
        (candidate (wanted_of request.now).base number) (wanted_of request.now).files names)) }
{
    let name = candidate(alloc, request.base.as_str(), number)?;
    give_by(alloc, given, name.as_str(), request.files.as_slice())
}

// Adds those by a name.
fn give_by(
    alloc: Global,
    given: &mut BTreeSet<String>,
    name: &str,
    request_files: &[RequestFile],
) -> Result<(), AllocError>
    ensures { OnOk result ((names : List (List ℕ))
        → ((q : List ℕ) → contains_text given.old q ≡ is_among q names)
        → (q : List ℕ) → contains_text given.new q ≡ is_among q
        (with_paths name.now (map file_of request_files.now) names)) }
{
    for file in request_files {
        insert(given, joined(alloc, name, file.ending.as_str())?)?;
    }
    Ok(())
}

// Adds a path to those that were given.
pub(crate) fn insert(given: &mut BTreeSet<String>, path: String) -> Result<(), AllocError>
    ensures { OnOk result ((q : List ℕ) → contains_text given.new q
        ≡ (if bytes_eq (string_bytes path) q then true else contains_text given.old q)) }
{
    given.insert(path)?;
    Ok(())
}
