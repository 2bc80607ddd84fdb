//! The files of a run of `rename`: those that are named or found, and the sidecars of pictures.

ghost use Rattle.std.specs.Prelude.{◌≡◌, ◌++◌, ℕ, List, IfOk, OnOk, Some, length, map, option_map, string_bytes, true};
ghost use Rattle.std.specs.BTreeSet.{contains_text};
ghost use Rattle.exif_rename.specs.Grouped.{entry_of};
ghost use Rattle.exif_rename.specs.Unused.{given_after};
ghost use Rattle.exif_rename_commands.specs.Entries.{entry_at};
ghost use Rattle.exif_rename_commands.specs.Gathered.{AddsSidecars, if_there, is_told, listed, member_at, member_of, members_by, step_of, with_member, with_sidecar};

use crate::counting::refuse;
use crate::members::{Kind, is_sidecar};
use exif::Sink;
use exif_inputs::{Next, sidecars_of};
use exif_rename::{Entry, Place};
use exif_session::{Session, Stop, key_of};
use std::alloc::{AllocError, Global};
use std::collections::BTreeSet;
use std::{fs, io};

/// A file of the run.
#[derive(Drop)]
pub struct Member {
    /// As it was named or found.
    pub path: String,
    /// Where the links of its path end.
    pub key: String,
    /// What it is to the plan.
    pub kind: Kind,
}

// What is done with what a run gives next.
#[derive(Drop)]
enum NextStep {
    // it is a file of the run
    Add(String, Kind),
    // it is refused: standard input
    RefuseInput,
    // it is refused: a name that can't be followed
    Refuse(String, io::Error),
}

// What is done with what a run gives next: each file is one of the run.
fn step_of(next: Next) -> NextStep
    ensures { result ≡ step_of next }
{
    match next {
        Next::Input => NextStep::RefuseInput,
        Next::Failed(path, cause) => NextStep::Refuse(path, cause),
        Next::Named(path) | Next::Found(path) => NextStep::Add(path, Kind::Picture),
        Next::Beside(path, why) => NextStep::Add(path, Kind::Beside(why)),
    }
}

/// Adds all files of the run, and counts the names that lead to none.
pub fn gather<W: Sink, E: Sink>(
    session: &mut Session<'_, '_, W, E>,
    members: &mut Vec<Member>,
) -> Result<(), Stop>
    ensures { OnOk result (length session.new.pending.waiting.items ≡ 0) }
{
    let mut seen = BTreeSet::new(session.rt.alloc());
    for _ in 0..u64::MAX {
        let Some(next) = session.next_chosen()? else {
            return Ok(add_sidecars(session.rt, members, &mut seen)?);
        };
        match step_of(next) {
            NextStep::Add(path, kind) => add_file(session, members, &mut seen, path, kind)?,
            NextStep::RefuseInput => refuse(session, "-", &"standard input has no name")?,
            NextStep::Refuse(path, cause) => refuse(session, path.as_str(), &cause)?,
        }
    }
    Err(Stop::OutOfMemory)
}

// Adds a file, or reports why its path leads to none.
fn add_file<W: Sink, E: Sink>(
    session: &mut Session<'_, '_, W, E>,
    members: &mut Vec<Member>,
    seen: &mut BTreeSet<String>,
    path: String,
    kind: Kind,
) -> Result<(), Stop>
    ensures waiting { session.new.pending.waiting ≡ session.old.pending.waiting }
{
    let key = key_of(session.rt, path.as_str());
    match member_of(path, kind, key) {
        Ok(member) => Ok(add_member(members, seen, member)?),
        Err((path, cause)) => refuse(session, path.as_str(), &cause),
    }
}

// The file of a path whose links end here, or why it is none.
fn member_of(
    path: String,
    kind: Kind,
    key: io::Result<String>,
) -> Result<Member, (String, io::Error)>
    ensures { result ≡ member_of path kind key }
{
    match key {
        Ok(key) => Ok(Member { path, key, kind }),
        Err(cause) => Err((path, cause)),
    }
}

// Adds a file, once however often it is named.
fn add_member(
    members: &mut Vec<Member>,
    seen: &mut BTreeSet<String>,
    member: Member,
) -> Result<(), AllocError>
    ensures members { OnOk result (members.new.items
        ≡ with_member (contains_text seen.old) member members.old.items) }
    ensures seen { OnOk result ((q : List ℕ) → contains_text seen.new q
        ≡ given_after (contains_text seen.old) (Some (string_bytes member.key)) q) }
{
    if is_seen(seen, member.key.as_str()) {
        return Ok(());
    }
    seen.insert(member.key.clone()?)?;
    members.push(member)?;
    Ok(())
}

// Whether a file is one of the run already, by where the links of its path end.
fn is_seen(seen: &BTreeSet<String>, key: &str) -> bool
    ensures { result ≡ contains_text seen.now key.now }
{
    seen.contains(key)
}

// Adds the sidecars of all pictures that are not among the files yet, behind the files.
fn add_sidecars(
    rt: &HostRuntime,
    members: &mut Vec<Member>,
    seen: &mut BTreeSet<String>,
) -> Result<(), AllocError>
    ensures { OnOk result (AddsSidecars (contains_text seen.old) members.old.items
        members.new.items) }
{
    let alloc = rt.alloc();
    let mut found = Vec::new(alloc);
    for member in members.iter() {
        for key in sidecars_of(alloc, member.key.as_str())? {
            let is_there = is_regular(rt, key.as_str());
            add_sidecar(&mut found, seen, is_there, key)?;
        }
    }
    for sidecar in found {
        members.push(sidecar)?;
    }
    Ok(())
}

// Adds a sidecar that is there, once however often it is found.
fn add_sidecar(
    found: &mut Vec<Member>,
    seen: &mut BTreeSet<String>,
    is_there: bool,
    key: String,
) -> Result<(), AllocError>
    ensures found { OnOk result (map entry_at found.new.items
        ≡ with_sidecar (contains_text seen.old) is_there (string_bytes key)
        (map entry_at found.old.items)) }
    ensures seen { OnOk result ((q : List ℕ) → contains_text seen.new q
        ≡ given_after (contains_text seen.old) (if_there is_there (string_bytes key)) q) }
{
    if is_there {
        add_member(found, seen, sidecar_at(key)?)
    } else {
        Ok(())
    }
}

// Whether a path is that of a regular file, and not of a link to one.
fn is_regular(rt: &HostRuntime, path: &str) -> bool {
    is_told(fs::symlink_metadata(rt, path).map(|there| there.is_file()))
}

/// Whether it was told that something is so: not where it can't be told.
pub fn is_told(told: io::Result<bool>) -> bool
    ensures { result ≡ is_told told }
{
    match told {
        Ok(is_so) => is_so,
        Err(_unknown) => false,
    }
}

// A sidecar, which was looked for beside a picture.
fn sidecar_at(key: String) -> Result<Member, AllocError>
    ensures { IfOk result (λ member. entry_at member ≡ (string_bytes key, true)) }
{
    Ok(Member {
        path: key.clone()?,
        key,
        kind: Kind::Sidecar,
    })
}

/// The files as the grouping sees them.
pub fn entries_of(alloc: Global, members: &[Member]) -> Result<Vec<Entry>, AllocError>
    ensures { IfOk result (λ entries. map entry_of entries.items ≡ map entry_at members.now) }
{
    let mut entries = Vec::new(alloc);
    for member in members {
        entries.push(Entry {
            path: member.key.clone()?,
            is_sidecar: is_sidecar(member.kind),
        })?;
    }
    Ok(entries)
}

/// The files at these places.
pub fn members_at<'m>(
    alloc: Global,
    members: &'m [Member],
    places: &[Place],
) -> Result<Vec<&'m Member>, AllocError>
    ensures { IfOk result (λ together.
        map (λ member. member.now) together.items ≡ members_by members.entry.now places.now) }
{
    let mut together = Vec::new(alloc);
    for place in places {
        add_at(&mut together, members, *place)?;
    }
    Ok(together)
}

// Adds the file at a place, if there is one.
fn add_at<'m>(
    together: &mut Vec<&'m Member>,
    members: &'m [Member],
    place: Place,
) -> Result<(), AllocError>
    ensures { OnOk result (map (λ member. member.now) together.new.items
        ≡ map (λ member. member.now) together.old.items ++ member_at members.entry.now place) }
{
    add_found(together, members.get(place.index))
}

// Adds a file, if there is one.
fn add_found<'m>(
    together: &mut Vec<&'m Member>,
    found: Option<&'m Member>,
) -> Result<(), AllocError>
    ensures { OnOk result (map (λ member. member.now) together.new.items
        ≡ map (λ member. member.now) together.old.items
        ++ listed (option_map (λ member. member.now) found.entry)) }
{
    match found {
        Some(member) => {
            together.push(member)?;
            Ok(())
        }
        None => Ok(()),
    }
}
