//! A file that is changed in place.

ghost use Rattle.std.specs.Prelude.{◌≡◌, ◌⊎◌, ℕ, List, IfOk, IfErr, OnOk, length, string_bytes};
ghost use Rattle.exif_files.specs.States.{Holds, Now, Run};
ghost use Rattle.exif_files.specs.Names.{backup_of, backup_if};
ghost use Rattle.exif_files.specs.Written.{IsWhole, IsReplacedForGood, IsGivenUp, FailedToRemove, none_failed};
ghost use Rattle.exif_files.specs.Changed.{AnyState, HasOtherBytes, IsWholeChange, IsChanged, IsNotChanged};
ghost use Rattle.exif_files.specs.Failed.{IfRefused, FailedInWriting};

use crate::failure::WriteError;
use crate::replacing::replace;
use crate::system::FileSystem;
use std::alloc::{AllocError, AllocFailed, Global};
use std::io;

/// A changed file, and what is reported of it.
#[derive(Drop)]
pub struct Edited<L, N> {
    /// The bytes of the new file.
    pub file: Vec<u8>,
    /// What is reported.
    pub report: Report<L, N>,
}

/// What is reported of a changed file.
#[derive(Drop)]
pub struct Report<L, N> {
    /// What was left undone: the file is incomplete where there is any.
    pub left: Vec<L>,
    /// What the user is to know of a change that is complete.
    pub notes: Vec<N>,
}

/// Why there is no changed file.
#[derive(Drop)]
pub enum EditError<R> {
    /// The file can't be changed so.
    Refused(R),
    /// Out of memory.
    OutOfMemory,
}

/// What is done to the bytes of a file.
pub trait Edit {
    /// What may be left undone.
    type Residual: Drop;

    /// What the user may have to know.
    type Note: Drop;

    /// Why a file is refused.
    type Refusal: Drop;

    /// What the edit may make of bytes.
    ghost answer: { Self → List ℕ → List ℕ → Type 0 };

    /// How many things it leaves undone in bytes.
    ghost undone: { Self → List ℕ → ℕ };

    /// The new bytes. They depend on nothing but the old ones and the edit.
    fn apply(
        &self,
        alloc: Global,
        old: &[u8],
    ) -> Result<Edited<Self::Residual, Self::Note>, EditError<Self::Refusal>>
        ensures answered { IfOk result (λ edited. answer self.now old.now edited.file.items) }
        ensures left { IfOk result (λ edited.
            length edited.report.left.items ≡ undone self.now old.now) };
}

/// What is kept of a file that is replaced.
#[derive(Clone, Copy)]
pub struct Keeping {
    /// Whether it stays in the same folder, with `.orig` after its name.
    pub backup: bool,
    /// Whether the new file has its times.
    pub times: bool,
}

/// Why a file was not changed.
#[derive(Drop)]
pub enum Failure<R> {
    /// It could not be read.
    Reading(io::Error),
    /// The new one could not be written.
    Writing(WriteError),
    /// It can't be changed so.
    Refused(R),
    /// Out of memory.
    OutOfMemory,
}

impl<R> From<AllocError> for Failure<R> {
    fn from(_e: AllocError) -> Failure<R> {
        Failure::OutOfMemory
    }
}

impl<R> From<EditError<R>> for Failure<R> {
    fn from(e: EditError<R>) -> Failure<R> {
        match e {
            EditError::Refused(refusal) => Failure::Refused(refusal),
            EditError::OutOfMemory => Failure::OutOfMemory,
        }
    }
}

// The name that an old file is kept by.
fn backup_name(alloc: Global, name: &str) -> Result<String, AllocError>
    ensures { IfOk result (λ text. string_bytes text ≡ backup_of name.now) }
{
    format!(in alloc; "{name}.orig")
}

// Replaces a file by one with these bytes.
fn write_over<F: FileSystem>(
    alloc: Global,
    files: &mut F,
    name: &str,
    keeping: Keeping,
    bytes: &[u8],
) -> Result<(), WriteError>
    ensures done { OnOk result (Run
        (IsWhole name.now (backup_if keeping.backup name.now) bytes.now keeping.times
        (none_failed (F.failures files.old) (F.failures files.new)))
        (IsReplacedForGood name.now (backup_if keeping.backup name.now) bytes.now keeping.times
        (none_failed (F.failures files.old) (F.failures files.new)))
        (F.states files.old) (F.states files.new)) }
    ensures failed { IfErr result (λ e. Run
        (IsWhole name.now (backup_if keeping.backup name.now) bytes.now keeping.times
        (none_failed (F.failures files.old) (F.failures files.new)))
        (IsGivenUp name.now (backup_if keeping.backup name.now) bytes.now keeping.times
        (none_failed (F.failures files.old) (F.failures files.new))
        (FailedToRemove e (F.failures files.old) (F.failures files.new)))
        (F.states files.old) (F.states files.new)) }
{
    if !keeping.backup {
        return replace(alloc, files, name, None, keeping.times, bytes);
    }
    let backup = backup_name(alloc, name)?;
    replace(
        alloc,
        files,
        name,
        Some(backup.as_str()),
        keeping.times,
        bytes,
    )
}

/// Changes a file in place, and answers what is reported of it: the bytes at Ok are an answer of
/// the edit to those that were there. In every state of the run the old file is there or the new
/// one, whole.
///
/// A file that is its own answer is not written, nor is one that is refused. It takes the memory of
/// the old file and of the new one, and what the edit takes.
pub fn change<F: FileSystem, E: Edit>(
    alloc: Global,
    files: &mut F,
    edit: &E,
    name: &str,
    keeping: Keeping,
) -> Result<Report<E::Residual, E::Note>, Failure<E::Refusal>>
    ensures done { OnOk result (Run
        (IsWholeChange (E.answer edit.now) name.now (backup_if keeping.backup name.now)
        keeping.times (none_failed (F.failures files.old) (F.failures files.new)))
        (IsChanged (E.answer edit.now) name.now (backup_if keeping.backup name.now)
        keeping.times (none_failed (F.failures files.old) (F.failures files.new)))
        (F.states files.old) (F.states files.new)) }
    ensures failed { IfErr result (λ e. Run
        (IsWholeChange (E.answer edit.now) name.now (backup_if keeping.backup name.now)
        keeping.times (none_failed (F.failures files.old) (F.failures files.new)))
        (IsNotChanged (E.answer edit.now) name.now (backup_if keeping.backup name.now)
        keeping.times (none_failed (F.failures files.old) (F.failures files.new))
        (FailedInWriting e (F.failures files.old) (F.failures files.new)))
        (F.states files.old) (F.states files.new)) }
    // what is reported as left undone is as many things as the edit leaves in the old bytes
    ensures left { IfOk result (λ report. Now (F.states files.old) (λ s. Holds s name.now
        (λ f. length report.left.items ≡ E.undone edit.now f.bytes))) }
    ensures refused { IfErr result (λ e. IfRefused e (F.states files.new ≡ F.states files.old)) }
    // a file that is its own answer is not written
    ensures written { OnOk result ((F.states files.new ≡ F.states files.old)
        ⊎ Run AnyState (HasOtherBytes name.now) (F.states files.old) (F.states files.new)) }
{
    let old = match files.read(alloc, name) {
        Ok(old) => old,
        Err(error) => return Err(Failure::Reading(error)),
    };
    let Edited { file: new, report } = edit.apply(alloc, old.as_slice())?;
    if new.as_slice() == old.as_slice() {
        return Ok(report);
    }
    match write_over(alloc, files, name, keeping, new.as_slice()) {
        Ok(()) => Ok(report),
        Err(error) => Err(Failure::Writing(error)),
    }
}
