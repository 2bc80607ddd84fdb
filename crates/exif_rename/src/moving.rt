//! Files that get another name, and copies.

ghost use Rattle.std.specs.Prelude.{◌≡◌, ◌≢◌, ◌≤◌, ◌⊎◌, IfOk, IfErr, OnOk, None, true};
ghost use Rattle.exif_files.specs.States.{Run, Now};
ghost use Rattle.exif_files.specs.Steps.{count_after};
ghost use Rattle.exif_files.specs.Written.{FailedToRemove};
ghost use Rattle.exif_files.specs.declared.failure.WriteError.TheVariants.{Taken};
ghost use Rattle.exif_rename.specs.MoveParts.{FailuresStay, KeepsBytes, MayBeAlike};
ghost use Rattle.exif_rename.specs.Moves.{IsCaused, IsWholeCopy, IsCopied, IsCopiedForGood, IsNotCopied, IsWholeMove, IsMovedBy, IsNotMoved};

use exif_files::{FileSystem, WriteError, create_new, move_new};
use std::alloc::Global;

/// Whether a file has the mode, the owner and the times that it had.
#[derive(Clone, Copy, Debug, PartialEq, Eq)]
pub enum Attributes {
    /// It has all of them.
    Kept,
    /// It may lack some: the system refused to give them to a copy.
    Lost,
}

/// How a file got another name.
#[derive(Clone, Copy, Debug, PartialEq, Eq)]
pub enum Moved {
    /// On its own device. The disk may not have it yet: it does once the new name is settled
    /// ([`FileSystem::settle`]). Until then a loss of power may bring the old name back.
    Renamed,
    /// By a copy and the removal of the file, which the disk has.
    Copied(Attributes),
}

/// Gives a file another name, which must be free, as [`move_new`] does it: so no file is replaced,
/// also where another program takes the name meanwhile. Where the new name is on another device,
/// the file is copied as [`copy_file`] does it, and then removed: this takes the memory of the
/// file. Answers how it was done.
///
/// In every state of the run the whole file has one of the two names at least, and every other name
/// what it had. The new name has what it had or the file; only where a call failed, as where no
/// file can have two names, it may have a file without bytes for a moment.
pub fn move_file<F: FileSystem>(
    alloc: Global,
    files: &mut F,
    from: &str,
    to: &str,
) -> Result<Moved, WriteError>
    ensures done { IfOk result (λ moved. Run (IsWholeMove from.now to.now
        (count_after true (F.failures files.old) ≤ F.failures files.new))
        (IsMovedBy from.now to.now moved) (F.states files.old) (F.states files.new)) }
    // An error leaves all as it was, but for the exceptions that `IsNotMoved` names.
    ensures failed { IfErr result (λ e. Run (IsWholeMove from.now to.now
        (count_after true (F.failures files.old) ≤ F.failures files.new))
        (IsNotMoved from.now to.now
        (IsCaused e (F.failures files.old) (F.failures files.new))
        (count_after true (F.failures files.old) ≤ F.failures files.new)
        (count_after true (F.failures files.old) ≤ F.failures files.new))
        (F.states files.old) (F.states files.new)) }
    // `Taken` is of the new name.
    ensures taken { IfErr result (λ e. e ≡ Taken
        → (from.now ≡ to.now) ⊎ Now (F.states files.old) (λ s. s.at to.now ≢ None)) }
{
    match move_new(files, from, to) {
        Ok(()) => Ok(Moved::Renamed),
        Err(WriteError::OtherDevice) => copy_and_remove(alloc, files, from, to),
        Err(error) => Err(error),
    }
}

// Copies a file to a name on another device, and removes it once the disk has the copy.
fn copy_and_remove<F: FileSystem>(
    alloc: Global,
    files: &mut F,
    from: &str,
    to: &str,
) -> Result<Moved, WriteError>
    ensures done { IfOk result (λ moved. Run (IsWholeMove from.now to.now
        (count_after true (F.failures files.old) ≤ F.failures files.new))
        (IsMovedBy from.now to.now moved) (F.states files.old) (F.states files.new)) }
    ensures failed { IfErr result (λ e. Run (IsWholeMove from.now to.now
        (count_after true (F.failures files.old) ≤ F.failures files.new))
        (IsNotMoved from.now to.now
        (IsCaused e (F.failures files.old) (F.failures files.new))
        (count_after true (F.failures files.old) ≤ F.failures files.new)
        (count_after true (F.failures files.old) ≤ F.failures files.new))
        (F.states files.old) (F.states files.new)) }
    ensures taken { IfErr result (λ e. e ≡ Taken
        → Now (F.states files.old) (λ s. s.at to.now ≢ None)) }
{
    let attributes = copy_file(alloc, files, from, to)?;
    files.remove(from)?;
    files.settle(from)?;
    Ok(Moved::Copied(attributes))
}

/// Copies a file to a name that must be free, as [`create_new`] makes new files. The copy gets the
/// mode, the owner and the times of the file if the system allows that. It takes the memory of the
/// file.
///
/// In every state of the run the name has what it had or a whole copy, and every other name what it
/// had. Only where a call failed, as where no file can have two names, the name may have a file
/// without bytes for a moment.
pub fn copy_file<F: FileSystem>(
    alloc: Global,
    files: &mut F,
    from: &str,
    to: &str,
) -> Result<Attributes, WriteError>
    ensures done { IfOk result (λ attributes. Run (IsWholeCopy from.now to.now
        (count_after true (F.failures files.old) ≤ F.failures files.new))
        (IsCopiedForGood from.now to.now attributes) (F.states files.old) (F.states files.new)) }
    // An error leaves all as it was, but for the exceptions that `IsNotCopied` names.
    ensures failed { IfErr result (λ e. Run (IsWholeCopy from.now to.now
        (count_after true (F.failures files.old) ≤ F.failures files.new))
        (IsNotCopied from.now to.now
        (IsCaused e (F.failures files.old) (F.failures files.new))
        (count_after true (F.failures files.old) ≤ F.failures files.new)
        (FailedToRemove e (F.failures files.old) (F.failures files.new)))
        (F.states files.old) (F.states files.new)) }
    // `Taken` is of the new name.
    ensures taken { IfErr result (λ e. e ≡ Taken
        → Now (F.states files.old) (λ s. s.at to.now ≢ None)) }
{
    make_copy(alloc, files, from, to)?;
    let attributes = copy_attributes(files, from, to);
    files.sync(to)?;
    files.settle(to)?;
    Ok(attributes)
}

// Makes a copy of the bytes of a file.
fn make_copy<F: FileSystem>(
    alloc: Global,
    files: &mut F,
    from: &str,
    to: &str,
) -> Result<(), WriteError>
    ensures done { OnOk result (Run (IsWholeCopy from.now to.now
        (count_after true (F.failures files.old) ≤ F.failures files.new)) (IsCopied from.now to.now)
        (F.states files.old) (F.states files.new)) }
    ensures failed { IfErr result (λ e. Run (IsWholeCopy from.now to.now
        (count_after true (F.failures files.old) ≤ F.failures files.new))
        (IsNotCopied from.now to.now
        (IsCaused e (F.failures files.old) (F.failures files.new))
        (count_after true (F.failures files.old) ≤ F.failures files.new)
        (FailedToRemove e (F.failures files.old) (F.failures files.new)))
        (F.states files.old) (F.states files.new)) }
    ensures taken { IfErr result (λ e. e ≡ Taken
        → Now (F.states files.old) (λ s. s.at to.now ≢ None)) }
{
    let bytes = files.read(alloc, from)?;
    create_new(alloc, files, to, bytes.as_slice())
}

// Gives a file the owner, the mode and the times of another, as far as the system allows that.
fn copy_attributes<F: FileSystem>(files: &mut F, from: &str, to: &str) -> Attributes
    ensures alike { Run (KeepsBytes to.now) (MayBeAlike from.now to.now result)
        (F.states files.old) (F.states files.new) }
    ensures count { FailuresStay (F.failures files.old) (F.failures files.new) }
{
    let owner = files.copy_owner(from, to).is_ok();
    let mode = files.copy_mode(from, to).is_ok();
    let times = files.copy_times(from, to).is_ok();
    if owner && mode && times {
        Attributes::Kept
    } else {
        Attributes::Lost
    }
}
