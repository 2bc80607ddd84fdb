//! Files whose bytes have one of their new names already.

ghost use Rattle.std.specs.Prelude.{◌≡◌, ◌<◌, ◌≤◌, ◌∷◌, ◌++◌, [], IfErr, IfOk, IfSome, Some, None, false, is_some, length, string_bytes, true};
ghost use Rattle.exif_files.specs.States.{Now};
ghost use Rattle.exif_rename.specs.Planned.{own};
ghost use Rattle.exif_rename.specs.RenameRequests.{moves_by, wanted_of};
ghost use Rattle.exif_rename_commands.specs.Present.{AreMoves, AreMovesBy, ArePresences, IsHeld, IsThere, differing_of, found_by, if_regular, key_by, new_path_at};

use crate::same::is_same;
use exif_files::{FileSystem, HostFiles};
use exif_rename::{Held, Move, Presence, RenameRequest, are_there, candidate, is_begun};
use std::alloc::{AllocError, Global};
use std::collections::BTreeMap;
use std::fs::{self, Metadata};
use std::io;
use std::os::unix::fs::MetadataExt;

// How many numbers of a name are looked at, as many as a plan gives.
const NUMBERS: u32 = 100_000;

// A regular file: how long it is, and which.
#[derive(Clone, Copy, PartialEq, Eq)]
struct Found {
    length: u64,
    device: u64,
    inode: u64,
}

impl Found {
    fn of(there: &Metadata) -> Found {
        Found {
            length: there.len(),
            device: there.dev(),
            inode: there.ino(),
        }
    }
}

/// The files that have the numbered paths of a name, so that each is asked for once.
#[derive(Drop)]
pub struct Numbered {
    // by the name and the ending; nothing of what is no regular file
    known: BTreeMap<String, Vec<Option<Found>>>,
}

impl Numbered {
    /// None.
    pub fn new(alloc: Global) -> Numbered {
        Numbered {
            known: BTreeMap::new(alloc),
        }
    }

    // The files by number, up to the first number by which nothing is there.
    fn of(
        &mut self,
        rt: &HostRuntime,
        base: &str,
        ending: &str,
    ) -> Result<Vec<Option<Found>>, AllocError>
        ensures again { is_some (found_by self.old.known base.now ending.now) ≡ true
            → IfOk result (λ found. Some found.items
            ≡ found_by self.old.known base.now ending.now) }
        ensures kept { IfOk result (λ found.
            found_by self.new.known base.now ending.now ≡ Some found.items) }
    {
        let alloc = rt.alloc();
        let key = key_by(alloc, base, ending)?;
        if let Some(known) = self.known.get(key.as_str()) {
            return Vec::from_slice(alloc, known.as_slice());
        }
        let found = look_up(rt, base, ending)?;
        let kept = Vec::from_slice(alloc, found.as_slice())?;
        self.known.insert(key, kept)?;
        Ok(found)
    }
}

// A name and an ending as one text: a line for the name.
fn key_by(alloc: Global, base: &str, ending: &str) -> Result<String, AllocError>
    ensures { IfOk result (λ key. string_bytes key ≡ key_by base.now ending.now) }
{
    format!(in alloc; "{base}\n{ending}")
}

// The files that have the numbered paths of a name, as many as a plan gives at most.
fn look_up(rt: &HostRuntime, base: &str, ending: &str) -> Result<Vec<Option<Found>>, AllocError>
    ensures { IfOk result (λ found. length found.items ≤ 100000) }
{
    let alloc = rt.alloc();
    let mut found = Vec::new(alloc);
    for number in 0..NUMBERS {
        let name = candidate(alloc, base, number)?;
        let path = format!(in alloc; "{name}{ending}")?;
        let seen = fs::symlink_metadata(rt, path.as_str());
        if !add_seen(
            &mut found,
            seen.map(|there| if_regular(there.is_file(), Found::of(&there))),
        )? {
            break;
        }
    }
    Ok(found)
}

// A file, if it is a regular one.
fn if_regular(is_file: bool, found: Found) -> Option<Found>
    ensures { result ≡ if_regular is_file found }
{
    if is_file { Some(found) } else { None }
}

// Adds what has the next path, and answers whether something has.
fn add_seen(
    found: &mut Vec<Option<Found>>,
    seen: io::Result<Option<Found>>,
) -> Result<bool, AllocError>
    ensures something { IfOk seen (λ there. IfOk result (λ more. (more ≡ true)
        × (found.new.items ≡ found.old.items ++ (there ∷ [])))) }
    ensures nothing { IfErr seen (λ e. IfOk result (λ more. (more ≡ false)
        × (found.new.items ≡ found.old.items))) }
{
    match seen {
        Ok(there) => {
            found.push(there)?;
            Ok(true)
        }
        Err(_nothing) => Ok(false),
    }
}

/// Where the files of one stem are already.
#[derive(Drop)]
pub struct There {
    /// The path by which the first file that is no sidecar is there.
    pub to: String,
    /// The sidecars that are not there, or differ.
    pub differing: Vec<Move>,
}

/// Where the files of one stem are already, if they are: all but the sidecars, which are the first
/// of them, with the same bytes by one number of their new name. Lengths are compared first. Files
/// that have their new names themselves are not.
pub fn find_there(
    rt: &HostRuntime,
    numbered: &mut Numbered,
    request: &RenameRequest,
    sidecars: usize,
) -> Result<Option<There>, AllocError>
    ensures kept { is_some (own (wanted_of request.now)) ≡ true
        → IfOk result (λ found. found ≡ None) }
    ensures there { IfOk result (λ found. IfSome found
        (IsThere sidecars (wanted_of request.now))) }
{
    if request.kept_number(rt.alloc())?.is_some() {
        return Ok(None);
    }
    let Some(main) = request.files.get(sidecars) else {
        return Ok(None);
    };
    let Ok(old) = fs::metadata(rt, main.old.as_str()) else {
        return Ok(None);
    };
    let there = numbered.of(rt, request.base.as_str(), main.ending.as_str())?;
    for (number, found) in (0..NUMBERS).zip(there.iter()) {
        if found.map(|found| found.length) != Some(old.len()) {
            continue;
        }
        let Some(moves) = moves_of_all(rt.alloc(), request, number)? else {
            // one of the files has its new path itself
            return Ok(None);
        };
        let found = presences(rt, moves.as_slice(), sidecars)?;
        if are_there(found.as_slice()) {
            return there_by(rt.alloc(), moves, found, sidecars);
        }
    }
    Ok(None)
}

/// The moves of the files of one stem that an earlier run began, if it was cut off: then one of the
/// files has its new path besides its old one, and no other file has one of these paths.
pub fn find_begun(
    rt: &HostRuntime,
    numbered: &mut Numbered,
    request: &RenameRequest,
    sidecars: usize,
) -> Result<Option<Vec<Move>>, AllocError>
    ensures { IfOk result (λ found. IfSome found
        (λ moves. AreMoves (wanted_of request.now) moves.items)) }
{
    let alloc = rt.alloc();
    let mut files = HostFiles::new(rt);
    let Some(main) = request.files.get(sidecars) else {
        return Ok(None);
    };
    let Ok(old) = fs::symlink_metadata(rt, main.old.as_str()) else {
        return Ok(None);
    };
    let old = Found::of(&old);
    let there = numbered.of(rt, request.base.as_str(), main.ending.as_str())?;
    let mut free = 0;
    for (number, found) in (0..NUMBERS).zip(there.iter()) {
        if *found == Some(old) {
            if let Some(moves) = begun_by(alloc, &mut files, request, number)? {
                return Ok(Some(moves));
            }
        }
        free = number.saturating_add(1);
    }
    // a sidecar may have its new path, and the picture none yet
    if sidecars > 0 {
        return begun_by(alloc, &mut files, request, free);
    }
    Ok(None)
}

// The moves of the files of one stem by a number, if they were begun.
fn begun_by<F: FileSystem>(
    alloc: Global,
    files: &mut F,
    request: &RenameRequest,
    number: u32,
) -> Result<Option<Vec<Move>>, AllocError>
    ensures moves { IfOk result (λ found. IfSome found
        (λ moves. AreMovesBy (wanted_of request.now) number moves.items)) }
    ensures same { F.states files.new ≡ F.states files.old }
{
    let Some(moves) = moves_of_all(alloc, request, number)? else {
        // one of the files has its new path itself
        return Ok(None);
    };
    let mut held = Vec::new(alloc);
    for wanted in moves.iter() {
        held.push(held_by(files, wanted.from.as_str(), wanted.to.as_str()))?;
    }
    if is_begun(held.as_slice()) {
        return Ok(Some(moves));
    }
    Ok(None)
}

// The moves of all files of one stem by a number; none where one of the files has its new path
// itself.
fn moves_of_all(
    alloc: Global,
    request: &RenameRequest,
    number: u32,
) -> Result<Option<Vec<Move>>, AllocError>
    ensures moves { IfOk result (λ found. IfSome found
        (λ moves. AreMovesBy (wanted_of request.now) number moves.items)) }
    ensures all { length (moves_by (wanted_of request.now) number)
        ≡ length (wanted_of request.now).files → IfOk result (λ found. is_some found ≡ true) }
{
    let moves = request.moves(alloc, number)?;
    if moves.len() == request.files.len() {
        Ok(Some(moves))
    } else {
        Ok(None)
    }
}

// What has the new path of a file; another file where that can't be told.
fn held_by<F: FileSystem>(files: &mut F, from: &str, to: &str) -> Held
    ensures held { Now (F.states files.old) (IsHeld from.now to.now result) }
    ensures same { F.states files.new ≡ F.states files.old }
{
    if let Ok(true) = files.is_free(to) {
        return Held::Nothing;
    }
    match files.is_one_file(from, to) {
        Ok(true) => Held::Itself,
        _ => Held::Other,
    }
}

// What has the new path of each file.
fn presences(rt: &HostRuntime, moves: &[Move], sidecars: usize) -> Result<Vec<Presence>, AllocError>
    ensures { IfOk result (λ found. ArePresences sidecars moves.now found.items) }
{
    let mut found = Vec::new(rt.alloc());
    for (index, wanted) in moves.iter().enumerate() {
        found.push(Presence {
            is_sidecar: index < sidecars,
            is_same: is_same(rt, wanted.from.as_str(), wanted.to.as_str()),
        })?;
    }
    Ok(found)
}

// Where files are by these new paths, and which differ.
fn there_by(
    alloc: Global,
    moves: Vec<Move>,
    found: Vec<Presence>,
    sidecars: usize,
) -> Result<Option<There>, AllocError>
    ensures to { IfOk result (λ there. IfSome there (λ there. Some (string_bytes there.to)
        ≡ new_path_at sidecars moves.items)) }
    ensures differing { IfOk result (λ there. IfSome there (λ there. there.differing.items
        ≡ differing_of moves.items found.items)) }
    ensures some { sidecars < length moves.items
        → IfOk result (λ there. is_some there ≡ true) }
{
    let Some(main) = moves.get(sidecars) else {
        return Ok(None);
    };
    let to = main.to.clone()?;
    let differing = differing_of(alloc, moves, found)?;
    Ok(Some(There { to, differing }))
}

// The files of which none of the same bytes has the new path.
fn differing_of(
    alloc: Global,
    moves: Vec<Move>,
    found: Vec<Presence>,
) -> Result<Vec<Move>, AllocError>
    ensures { IfOk result (λ differing.
        differing.items ≡ differing_of moves.items found.items) }
{
    let mut differing = Vec::new(alloc);
    let mut left = moves.into_iter();
    for presence in found.iter() {
        let Some(wanted) = left.next() else {
            break;
        };
        if !presence.is_same {
            differing.push(wanted)?;
        }
    }
    Ok(differing)
}
