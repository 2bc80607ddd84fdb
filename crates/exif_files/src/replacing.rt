//! Files that are replaced whole or not at all.

ghost use Rattle.std.specs.Prelude.{◌≡◌, ◌≢◌, ◌≤◌, [], is_err, IfErr, OnOk, OnErr, Some, None, true};
ghost use Rattle.exif_files.specs.States.{Run, Now, Holds, Elsewhere};
ghost use Rattle.exif_files.specs.Steps.{BeginsWith, CreatesPrivate, count_after};
ghost use Rattle.exif_files.specs.Names.{IsHidden, name_if};
ghost use Rattle.exif_files.specs.NewNames.{IsThere};
ghost use Rattle.exif_files.specs.Written.{IsWhole, IsReplacedForGood, IsGivenUp, IsTakenIf, FailedTwice, FailedToRemove, none_failed};
ghost use Rattle.exif_files.specs.Parts.{FailsOrNot, FailsOnceOrNot, FailsOnceOrTwice, MayHaveOwner, HasTimesIf, HasAccess, IsMoving, IsMoved, IsNotMoved, IsPutting, IsPut, IsNotPut};
ghost use Rattle.exif_files.specs.declared.failure.WriteError.TheVariants.{OutOfMemory, Taken, Crowded};

use crate::failure::WriteError;
use crate::system::FileSystem;
use crate::temporary::{append_all, create_beside};
use std::alloc::Global;
use std::io;

// Who may use a file that replaces another, while it is written: its owner alone.
const PRIVATE: u32 = 0o600;

/// Replaces the file of this name by one with these bytes: it is written first in the same folder
/// under a hidden name, by which its owner alone may use it, and then in one step. It has the mode of the old one, its owner if the
/// system allows that, and its times if `times` says so. The old one stays under the name `backup`,
/// which must be free. It takes the memory of a name.
///
/// In every state of the run the name has the old file or the new one, whole and kept by the disk,
/// and every other name what it had: after a kill or a loss of power one of the two files is there.
pub fn replace<F: FileSystem>(
    alloc: Global,
    files: &mut F,
    name: &str,
    backup: Option<&str>,
    times: bool,
    bytes: &[u8],
) -> Result<(), WriteError>
    requires { name_if backup ≢ Some name.now }
    // At Ok the name has the new file, for good, and every other name what it had.
    ensures done { OnOk result (Run
        (IsWhole name.now (name_if backup.entry) bytes.now times
        (none_failed (F.failures files.old) (F.failures files.new)))
        (IsReplacedForGood name.now (name_if backup.entry) bytes.now times
        (none_failed (F.failures files.old) (F.failures files.new)))
        (F.states files.old) (F.states files.new)) }
    // An error leaves all as it was, but for the exceptions that `IsGivenUp` names.
    ensures failed { IfErr result (λ e. Run
        (IsWhole name.now (name_if backup.entry) bytes.now times
        (none_failed (F.failures files.old) (F.failures files.new)))
        (IsGivenUp name.now (name_if backup.entry) bytes.now times
        (none_failed (F.failures files.old) (F.failures files.new))
        (FailedToRemove e (F.failures files.old) (F.failures files.new)))
        (F.states files.old) (F.states files.new)) }
    // First the new file is made, which its owner alone may use.
    ensures private { BeginsWith CreatesPrivate (F.states files.old) (F.states files.new) }
    // `Taken` is of the backup's name.
    ensures taken { IfErr result (λ e. e ≡ Taken
        → Now (F.states files.old) (IsTakenIf (name_if backup.entry))) }
    // It gives up by itself only where there is no memory or no free name; else a call failed.
    ensures cause { IfErr result (λ e. e ≢ OutOfMemory → e ≢ Taken → e ≢ Crowded
        → count_after true (F.failures files.old) ≤ F.failures files.new) }
{
    let beside = create_beside(alloc, files, name, backup, PRIVATE)?;
    let beside = beside.as_str();
    match fill_and_move(files, name, beside, backup, times, bytes) {
        Ok(()) => Ok(files.settle(name)?),
        Err(error) => {
            let _ = files.remove(beside);
            Err(error)
        }
    }
}

// Fills the new file, and gives it the name.
fn fill_and_move<F: FileSystem>(
    files: &mut F,
    name: &str,
    beside: &str,
    backup: Option<&str>,
    times: bool,
    bytes: &[u8],
) -> Result<(), WriteError>
    requires apart { beside.now ≢ name.now }
    requires backup_apart { name_if backup ≢ Some name.now }
    requires backup_beside { name_if backup ≢ Some beside.now }
    requires empty { Now (F.states files.old) (λ s. Holds s beside.now (λ f. f.bytes ≡ [])) }
    ensures done { OnOk result (Run
        (IsPutting name.now beside.now (name_if backup.entry) bytes.now times
        (none_failed (F.failures files.old) (F.failures files.new)))
        (IsPut name.now beside.now (name_if backup.entry) bytes.now times
        (none_failed (F.failures files.old) (F.failures files.new)))
        (F.states files.old) (F.states files.new)) }
    ensures failed { OnErr result (Run
        (IsPutting name.now beside.now (name_if backup.entry) bytes.now times
        (none_failed (F.failures files.old) (F.failures files.new)))
        (IsNotPut beside.now (name_if backup.entry)
        (FailedTwice (F.failures files.old) (F.failures files.new)))
        (F.states files.old) (F.states files.new)) }
    ensures taken { IfErr result (λ e. e ≡ Taken
        → Now (F.states files.old) (IsTakenIf (name_if backup.entry))) }
    ensures cause { IfErr result (λ e. e ≢ Taken
        → count_after true (F.failures files.old) ≤ F.failures files.new) }
    ensures rises { OnErr result (FailsOrNot (F.failures files.old) (F.failures files.new)) }
    ensures known { IfErr result (λ e. (e ≢ OutOfMemory) × (e ≢ Crowded)) }
    ensures count { OnOk result (FailsOnceOrNot (F.failures files.old) (F.failures files.new)) }
{
    append_all(files, beside, bytes)?;
    copy_access(files, name, beside, times)?;
    files.sync(beside)?;
    link_and_rename(files, name, beside, backup)
}

// Gives a file the owner, the mode and maybe the times of another.
fn copy_access<F: FileSystem>(
    files: &mut F,
    source: &str,
    name: &str,
    times: bool,
) -> io::Result<()>
    requires { source.now ≢ name.now }
    ensures done { OnOk result (Run (Elsewhere name.now)
        (HasAccess source.now name.now times
        (none_failed (F.failures files.old) (F.failures files.new)))
        (F.states files.old) (F.states files.new)) }
    ensures failed { OnErr result (Run (Elsewhere name.now) (Elsewhere name.now)
        (F.states files.old) (F.states files.new)) }
    ensures count { OnOk result (FailsOnceOrNot (F.failures files.old) (F.failures files.new)) }
    ensures count_failed { OnErr result
        (FailsOnceOrTwice (F.failures files.old) (F.failures files.new)) }
{
    try_copy_owner(files, source, name);
    files.copy_mode(source, name)?;
    copy_times_if(files, source, name, times)
}

// Gives a file the owner of another, if the system allows that: only the superuser may give a file
// away.
fn try_copy_owner<F: FileSystem>(files: &mut F, source: &str, name: &str)
    ensures done { Run (Elsewhere name.now)
        (MayHaveOwner source.now name.now
        (none_failed (F.failures files.old) (F.failures files.new)))
        (F.states files.old) (F.states files.new) }
    ensures count { FailsOnceOrNot (F.failures files.old) (F.failures files.new) }
{
    let _ = files.copy_owner(source, name);
}

fn copy_times_if<F: FileSystem>(
    files: &mut F,
    source: &str,
    name: &str,
    times: bool,
) -> io::Result<()>
    ensures done { OnOk result (Run (Elsewhere name.now) (HasTimesIf times source.now name.now)
        (F.states files.old) (F.states files.new)) }
    ensures failed { OnErr result (F.states files.new ≡ F.states files.old) }
    ensures count { F.failures files.new ≡ count_after (is_err result) (F.failures files.old) }
{
    if times {
        return files.copy_times(source, name);
    }
    Ok(())
}

// Renames the new file; the old one may stay under a name of its own.
fn link_and_rename<F: FileSystem>(
    files: &mut F,
    name: &str,
    beside: &str,
    backup: Option<&str>,
) -> Result<(), WriteError>
    requires there { Now (F.states files.old) (IsThere name.now) }
    requires apart { beside.now ≢ name.now }
    requires backup_apart { name_if backup ≢ Some name.now }
    requires backup_beside { name_if backup ≢ Some beside.now }
    ensures done { OnOk result (Run
        (IsMoving name.now beside.now (name_if backup.entry))
        (IsMoved name.now beside.now (name_if backup.entry))
        (F.states files.old) (F.states files.new)) }
    ensures failed { OnErr result (Run
        (IsMoving name.now beside.now (name_if backup.entry))
        (IsNotMoved (name_if backup.entry)
        (FailedTwice (F.failures files.old) (F.failures files.new)))
        (F.states files.old) (F.states files.new)) }
    ensures taken { IfErr result (λ e. e ≡ Taken
        → Now (F.states files.old) (IsTakenIf (name_if backup.entry))) }
    ensures cause { IfErr result (λ e. e ≢ Taken
        → count_after true (F.failures files.old) ≤ F.failures files.new) }
    ensures rises { OnErr result (FailsOrNot (F.failures files.old) (F.failures files.new)) }
    ensures known { IfErr result (λ e. (e ≢ OutOfMemory) × (e ≢ Crowded)) }
    ensures count { OnOk result (F.failures files.new ≡ F.failures files.old) }
{
    let Some(backup) = backup else {
        return Ok(files.rename(beside, name)?);
    };
    if !files.link(name, backup)? {
        return Err(WriteError::Taken);
    }
    match files.rename(beside, name) {
        Ok(()) => Ok(()),
        Err(error) => {
            let _ = files.remove(backup);
            Err(WriteError::Io(error))
        }
    }
}
