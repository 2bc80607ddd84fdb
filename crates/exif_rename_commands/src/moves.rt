//! Files that are moved or copied to their new names.

ghost use Rattle.std.specs.Prelude.{◌≡◌, ◌≢◌, ◌≤◌, ◌⊎◌, ℕ, List, [], IfErr, IfOk, OnOk, IsFalse, IsTrue, None, Ok, Some, false, is_some, map, string_bytes, true};
ghost use Rattle.std.specs.BTreeSet.{contains_text};
ghost use Rattle.std.specs.IoError.{error_kind};
ghost use Rattle.std.specs.Result.{IsErrAnd};
ghost use Rattle.exif_decisions.specs.declared.outcome.Outcome.TheVariants.{Current, Done};
ghost use Rattle.exif_files.specs.Folders.{folder_of};
ghost use Rattle.exif_files.specs.Names.{name_if};
ghost use Rattle.exif_files.specs.States.{Run};
ghost use Rattle.exif_files.specs.Steps.{count_after};
ghost use Rattle.exif_files.specs.Written.{FailedToRemove};
ghost use Rattle.exif_rename.specs.Moves.{IsCaused, IsNotCopied, IsNotMoved, IsWholeCopy, IsWholeMove};
ghost use Rattle.exif_rename.specs.Unused.{given_after};
ghost use Rattle.exif_rename_commands.specs.Counting.{beside_as};
ghost use Rattle.exif_rename_commands.specs.Moving.{IsCopiedBy, IsGivenBy, IsSettled, is_whole, may_be_lost, why_locked, with_name};

use crate::words::NotMoved;
use exif::Sink;
use exif_decisions::Outcome;
use exif_files::{FileSystem, HostFiles, Status, WriteError, finish_move, folder_of};
use exif_rename::{Attributes, Move, Moved, copy_file, move_file, write_line};
use exif_session::{Session, Stop};
use std::alloc::{AllocError, Global};
use std::collections::BTreeSet;
use std::fs::{self, File, TryLockError};
use std::io::{self, ErrorKind};

/// The folders that have new names which the disk may not have yet.
#[derive(Drop)]
pub struct Folders {
    /// The folders.
    pub folders: BTreeSet<String>,
    /// A new name in each.
    pub names: Vec<String>,
}

impl Folders {
    /// No folder.
    pub fn new(alloc: Global) -> Folders
        ensures { result.names.items ≡ [] }
    {
        Folders {
            folders: BTreeSet::new(alloc),
            names: Vec::new(alloc),
        }
    }

    // Adds the folder of a new name.
    fn add(&mut self, alloc: Global, name: &str) -> Result<(), AllocError>
        ensures names { OnOk result (map string_bytes self.new.names.items
            ≡ with_name (contains_text self.old.folders) name.now
            (map string_bytes self.old.names.items)) }
        ensures folders { OnOk result ((q : List ℕ) → contains_text self.new.folders q
            ≡ given_after (contains_text self.old.folders) (Some (folder_of name.now)) q) }
    {
        let folder = folder_of(name);
        if self.has(folder) {
            return Ok(());
        }
        self.folders.insert(String::from_str(alloc, folder)?)?;
        self.names.push(String::from_str(alloc, name)?)?;
        Ok(())
    }

    // Whether it has a folder.
    fn has(&self, folder: &str) -> bool
        ensures { result ≡ contains_text self.now.folders folder.now }
    {
        self.folders.contains(folder)
    }

    /// Waits until the disk has all new names, once for each folder. Where it may not have them, that
    /// is reported and counted.
    pub fn settle<W: Sink, E: Sink>(self, session: &mut Session<'_, '_, W, E>) -> Result<(), Stop>
        ensures none { self.names.items ≡ [] → result ≡ Ok tt }
        ensures kept { self.names.items ≡ [] → session.new ≡ session.old }
        ensures beside { IsSettled session.old.pending.counts.beside
            session.new.pending.counts.beside }
        ensures waiting { session.new.pending.waiting ≡ session.old.pending.waiting }
        ensures rest { session.new.pending
            ≡ beside_as session.new.pending.counts.beside session.old.pending }
    {
        let mut files = HostFiles::new(session.rt);
        for name in self.names.iter() {
            if let Err(cause) = files.settle(name.as_str()) {
                let why = format!(in session.rt.alloc();
                    "folder not synced; a power loss may undo the renames: {cause}"
                )?;
                session.say(folder_of(name.as_str()), &why)?;
                session.count_beside(Status::Incomplete);
            }
        }
        Ok(())
    }
}

/// What is done with files that get other names.
#[derive(Clone, Copy)]
pub struct Moving {
    /// Whether the old files stay.
    pub copy: bool,
    /// Whether the new names are written only.
    pub dry_run: bool,
}

/// Moves or copies the files of one stem, in their order, and writes a line for each, which is
/// there once the file is moved, also where the run is stopped. Where one can't be moved, those
/// behind it stay. Answers what became of them: where none is to be moved, they are as requested.
pub fn move_all<W: Sink, E: Sink>(
    session: &mut Session<'_, '_, W, E>,
    moving: Moving,
    folders: &mut Folders,
    path: &str,
    moves: &[Move],
) -> Result<Outcome, Stop>
    ensures none { moves.now ≡ [] → IfOk result (λ outcome. outcome ≡ Current) }
    ensures planned { IsTrue moving.dry_run → moves.now ≢ []
        → IfOk result (λ outcome. outcome ≡ Done) }
    ensures dry { IsTrue moving.dry_run → folders.new ≡ folders.old }
    ensures pending { session.new.pending ≡ session.old.pending }
{
    if moves.is_empty() {
        return Ok(Outcome::Current);
    }
    if moving.dry_run {
        write_moves(session, moving.copy, moves)?;
        return Ok(Outcome::Done);
    }
    let mut is_complete = true;
    for wanted in moves {
        let (from, to) = (wanted.from.as_str(), wanted.to.as_str());
        let moved = match move_one(session.rt, moving.copy, from, to) {
            Ok(moved) => moved,
            Err(WriteError::OutOfMemory) => return Err(Stop::OutOfMemory),
            Err(error) => return session.refuse(path, &NotMoved(error)),
        };
        if may_be_lost(moved) {
            folders.add(session.rt.alloc(), to)?;
        }
        if !is_whole(moved) {
            let what = "the mode, the owner or the times of the file were not kept";
            session.say(path, &what)?;
            is_complete = false;
        }
        if !session.request.quiet {
            write_move(session, wanted, moving.copy)?;
            session.out.flush().map_err(Stop::Output)?;
        }
    }
    Ok(Outcome::of_done(is_complete))
}

// Whether a loss of power may bring the old name of a file back.
fn may_be_lost(moved: Moved) -> bool
    ensures { result ≡ may_be_lost moved }
{
    moved == Moved::Renamed
}

// Whether a file has all that it had: its mode, owner and times too.
fn is_whole(moved: Moved) -> bool
    ensures { result ≡ is_whole moved }
{
    moved != Moved::Copied(Attributes::Lost)
}

// Writes a line for each file that is to be moved.
fn write_moves<W: Sink, E: Sink>(
    session: &mut Session<'_, '_, W, E>,
    copied: bool,
    moves: &[Move],
) -> Result<(), Stop>
    ensures none { moves.now ≡ [] → session.new ≡ session.old }
    ensures pending { session.new.pending ≡ session.old.pending }
{
    for wanted in moves {
        write_move(session, wanted, copied)?;
    }
    Ok(())
}

// Writes a line with both paths of a file, by which `--undo` finds them.
fn write_move<W: Sink, E: Sink>(
    session: &mut Session<'_, '_, W, E>,
    wanted: &Move,
    copied: bool,
) -> Result<(), Stop>
    ensures pending { session.new.pending ≡ session.old.pending }
{
    let (from, to) = (wanted.from.as_str(), wanted.to.as_str());
    let mut line = write_line(session.rt.alloc(), from, to, copied)?;
    line.push('\n')?;
    session.answer(line.as_bytes())
}

// Moves or copies a file, into a folder that is made if it is not there. Where the file system has
// locks, two runs side by side do not move one file at a time, so that the second finds it gone.
fn move_one(rt: &HostRuntime, copy: bool, from: &str, to: &str) -> Result<Moved, WriteError>
    ensures { IsTrue copy → IfOk result (λ moved. may_be_lost moved ≡ false) }
{
    fs::create_dir_all(rt, folder_of(to))?;
    let _held = held_for(rt, copy, from)?;
    give_name(rt.alloc(), &mut HostFiles::new(rt), copy, from, to)
}

// A file that is locked while it is moved; nothing where it is copied.
fn held_for(rt: &HostRuntime, copy: bool, path: &str) -> io::Result<Option<File>>
    ensures { IsTrue copy → result ≡ Ok None }
{
    if copy {
        return Ok(None);
    }
    held(File::open(rt, path))
}

// A file that is locked while it is moved; nothing where it can't be opened. Where the file system
// has no locks it is moved without one.
fn held(opened: io::Result<File>) -> io::Result<Option<File>>
    ensures opened { IfOk opened (λ file. IfOk result (λ held. held ≡ Some file)) }
    ensures unopened { IfErr opened (λ cause. result ≡ Ok None) }
    ensures refused { IfErr result (λ e. error_kind e ≡ ErrorKind.WouldBlock) }
{
    match opened {
        Ok(file) => {
            unless_locked(why_locked(file.try_lock()))?;
            Ok(Some(file))
        }
        Err(_cause) => Ok(None),
    }
}

// Why a file is not moved, by the answer of its lock: another program has it. Where the file system
// has no locks, that is no reason.
fn why_locked(locked: Result<(), TryLockError>) -> Option<&'static str>
    ensures { name_if result ≡ why_locked locked }
{
    match locked {
        Err(TryLockError::WouldBlock) => Some("another program has it locked"),
        Ok(()) | Err(TryLockError::Error(_)) => None,
    }
}

// The error of a file that is locked, if it is.
fn unless_locked(why: Option<&str>) -> io::Result<()>
    ensures free { why.entry ≡ None → result ≡ Ok tt }
    ensures locked { is_some why.entry ≡ true
        → IsErrAnd result (λ e. error_kind e ≡ ErrorKind.WouldBlock) }
{
    match why {
        Some(why) => Err(io::Error::new(ErrorKind::WouldBlock, why)),
        None => Ok(()),
    }
}

// Gives a file or a copy of it another name. A move that an earlier run began is finished.
fn give_name<F: FileSystem>(
    alloc: Global,
    files: &mut F,
    copy: bool,
    from: &str,
    to: &str,
) -> Result<Moved, WriteError>
    ensures copied { IsTrue copy → IfOk result (λ moved. Run (IsWholeCopy from.now to.now
        (count_after true (F.failures files.old) ≤ F.failures files.new))
        (IsCopiedBy from.now to.now moved) (F.states files.old) (F.states files.new)) }
    ensures moved { IsFalse copy → IfOk result (λ moved. IsGivenBy from.now to.now moved
        (count_after true (F.failures files.old) ≤ F.failures files.new)
        (F.states files.old) (F.states files.new)) }
    ensures not_copied { IsTrue copy → IfErr result (λ e. Run (IsWholeCopy from.now to.now
        (count_after true (F.failures files.old) ≤ F.failures files.new))
        (IsNotCopied from.now to.now
        (IsCaused e (F.failures files.old) (F.failures files.new))
        (count_after true (F.failures files.old) ≤ F.failures files.new)
        (FailedToRemove e (F.failures files.old) (F.failures files.new)))
        (F.states files.old) (F.states files.new)) }
    ensures not_moved { IsFalse copy → IfErr result (λ e.
        (F.states files.new ≡ F.states files.old) ⊎ Run (IsWholeMove from.now to.now
        (count_after true (F.failures files.old) ≤ F.failures files.new))
        (IsNotMoved from.now to.now
        (IsCaused e (F.failures files.old) (F.failures files.new))
        (count_after true (F.failures files.old) ≤ F.failures files.new)
        (count_after true (F.failures files.old) ≤ F.failures files.new))
        (F.states files.old) (F.states files.new)) }
    ensures whole { IsTrue copy → IfOk result (λ moved. may_be_lost moved ≡ false) }
{
    if copy {
        return match copy_file(alloc, files, from, to) {
            Ok(attributes) => Ok(Moved::Copied(attributes)),
            Err(error) => Err(error),
        };
    }
    if finish_move(files, from, to)? {
        return Ok(Moved::Renamed);
    }
    move_file(alloc, files, from, to)
}
