//! Files of one stem, which get one new name: pictures, raw files, videos and their sidecars.

ghost use Rattle.std.specs.Prelude.{◌≡◌, ◌≤◌, ◌<◌, ℕ, List, IfOk, OnOk, None, Some, ◌∷◌, drop, if◌then◌else◌, length, map, slice_index, string_bytes};
ghost use Rattle.std.specs.BTreeMap.{get_by_text};
ghost use Rattle.std.specs.BTreeSet.{contains_text};
ghost use Rattle.std.specs.Option.{option_or, unwrap_or};
ghost use Rattle.std.specs.Str.{bytes_eq};
ghost use Rattle.exif_files.specs.Each.{is_among};
ghost use Rattle.exif_rename.specs.Grouped.{after_byte, ending_of, entry_of, folded, grouped, leaders, owners_of, stem_in, stem_of, stems_of};

use crate::plan::insert;
use crate::request::joined;
use std::alloc::{AllocError, Global};
use std::collections::{BTreeMap, BTreeSet};

/// A file that may be renamed.
#[derive(Debug, Drop)]
pub struct Entry {
    /// Its path.
    pub path: String,
    /// Whether it is a sidecar: a file that says something of another one, as `.xmp`, `.aae` and
    /// `.thm`.
    pub is_sidecar: bool,
}

/// The files of one stem together, so that each of them gets the same new name: of each file the
/// index of the first file of its stem. A sidecar may have the whole name of its picture before its
/// own ending (`a.jpg.xmp`), in which the case of the ASCII letters of the picture's ending does
/// not count; all else is compared byte by byte. It takes the memory of all paths, three times.
pub fn group(alloc: Global, entries: &[Entry]) -> Result<Vec<usize>, AllocError>
    ensures { IfOk result (λ numbers. numbers.items ≡ grouped (map entry_of entries.now)) }
{
    let owners = owners_of(alloc, entries)?;
    let stems = stems_of(alloc, &owners, entries)?;
    leaders(alloc, stems.as_slice())
}

/// A path, cut before what it ends in: the last `.` of the file's name with what follows it, unless
/// the name begins with it.
pub fn split_path(path: &str) -> (&str, &str)
    ensures stem { result.0.now ≡ stem_of path.now }
    ensures ending { result.1.now ≡ ending_of path.now }
{
    path.split_at(ending_start(path.as_bytes()))
}

// Where the ending of a path begins.
fn ending_start(path: &[u8]) -> usize
    ensures start { drop result path.now ≡ ending_of path.now }
    ensures within { result ≤ length path.now }
    ensures dot { result < length path.now → slice_index path.now result ≡ 46 }
{
    let mut start = path.len();
    let mut begun = false;
    for (index, byte) in path.iter().enumerate() {
        let next = after_byte(*byte, index, path.len(), start, begun);
        start = next.0;
        begun = next.1;
    }
    start
}

// Where the ending begins, and whether the name has begun, after a byte more.
fn after_byte(byte: u8, index: usize, size: usize, start: usize, begun: bool) -> (usize, bool)
    ensures { result ≡ after_byte byte index size start begun }
{
    if byte == b'/' {
        return (size, false);
    }
    if byte == b'.' && begun {
        return (index, true);
    }
    (start, true)
}

// A path whose ending is in lower case.
fn folded(alloc: Global, path: &str) -> Result<String, AllocError>
    ensures { IfOk result (λ text. string_bytes text ≡ folded path.now) }
{
    let (stem, ending) = split_path(path);
    let ending = ending.to_ascii_lowercase(alloc)?;
    joined(alloc, stem, ending.as_str())
}

// The paths that sidecars can go with, each folded.
fn owners_of(alloc: Global, entries: &[Entry]) -> Result<BTreeSet<String>, AllocError>
    ensures { IfOk result (λ owners. (q : List ℕ)
        → contains_text owners q ≡ is_among q (owners_of (map entry_of entries.now))) }
{
    let mut owners: BTreeSet<String> = BTreeSet::new(alloc);
    for entry in entries {
        add_owner(alloc, &mut owners, entry)?;
    }
    Ok(owners)
}

// Adds a file that sidecars can go with.
fn add_owner(alloc: Global, owners: &mut BTreeSet<String>, entry: &Entry) -> Result<(), AllocError>
    ensures { OnOk result ((names : List (List ℕ))
        → ((q : List ℕ) → contains_text owners.old q ≡ is_among q names)
        → (q : List ℕ) → contains_text owners.new q ≡ is_among q
        (if entry.now.is_sidecar then names else folded (string_bytes entry.now.path) ∷ names)) }
{
    if entry.is_sidecar {
        return Ok(());
    }
    insert(owners, folded(alloc, entry.path.as_str())?)
}

// The stem of each file.
fn stems_of(
    alloc: Global,
    owners: &BTreeSet<String>,
    entries: &[Entry],
) -> Result<Vec<String>, AllocError>
    requires { (q : List ℕ)
        → contains_text owners.now q ≡ is_among q (owners_of (map entry_of entries.now)) }
    ensures { IfOk result (λ stems.
        map string_bytes stems.items ≡ stems_of (map entry_of entries.now)) }
{
    let mut stems = Vec::new(alloc);
    for entry in entries {
        stems.push(stem_in(alloc, owners, entry)?)?;
    }
    Ok(stems)
}

// The stem of a file: that of its picture, for a sidecar that has the whole name of its picture
// before its own ending.
fn stem_in(alloc: Global, owners: &BTreeSet<String>, entry: &Entry) -> Result<String, AllocError>
    ensures { IfOk result (λ stem. (names : List (List ℕ))
        → ((q : List ℕ) → contains_text owners.now q ≡ is_among q names)
        → string_bytes stem ≡ stem_in names (entry_of entry.now)) }
{
    let stem = split_path(entry.path.as_str()).0;
    if entry.is_sidecar {
        let whole = folded(alloc, stem)?;
        if owners.contains(whole.as_str()) {
            return String::from_str(alloc, split_path(stem).0);
        }
    }
    String::from_str(alloc, stem)
}

// Of each stem the index of the first one that is the same.
fn leaders(alloc: Global, stems: &[String]) -> Result<Vec<usize>, AllocError>
    ensures { IfOk result (λ numbers. numbers.items ≡ leaders (map string_bytes stems.now)) }
{
    let mut first: BTreeMap<String, usize> = BTreeMap::new(alloc);
    let mut numbers = Vec::new(alloc);
    for (index, stem) in stems.iter().enumerate() {
        let leader = leader_of(alloc, &mut first, stem.as_str(), index)?;
        numbers.push(leader)?;
    }
    Ok(numbers)
}

// The index of the first stem that is one: this one, if it was not there before.
fn leader_of(
    alloc: Global,
    first: &mut BTreeMap<String, usize>,
    stem: &str,
    index: usize,
) -> Result<usize, AllocError>
    ensures leader { IfOk result (λ leader.
        leader ≡ unwrap_or (get_by_text first.old stem.now) index) }
    ensures more { OnOk result ((q : List ℕ) → get_by_text first.new q
        ≡ option_or (get_by_text first.old q) (if bytes_eq stem.now q then Some index else None)) }
{
    if let Some(leader) = first.get(stem) {
        return Ok(*leader);
    }
    first.insert(String::from_str(alloc, stem)?, index)?;
    Ok(index)
}
