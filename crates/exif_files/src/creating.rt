//! New files that are there whole or not at all.

ghost use Rattle.std.specs.Prelude.{◌≡◌, ◌≢◌, ◌≤◌, [], IfErr, OnOk, OnErr, None, true};
ghost use Rattle.exif_files.specs.States.{Run, Now, Holds, Elsewhere};
ghost use Rattle.exif_files.specs.Steps.{count_after};
ghost use Rattle.exif_files.specs.Written.{IsWholeNew, IsCreatedForGood, IsNotCreated, FailedTwice, FailedToRemove};
ghost use Rattle.exif_files.specs.Parts.{FailsOrNot, FailsOnceOrNot, IsPuttingNew, IsPutNew, IsNotPutNew};
ghost use Rattle.exif_files.specs.declared.failure.WriteError.TheVariants.{OutOfMemory, Taken, Crowded};

use crate::failure::WriteError;
use crate::system::FileSystem;
use crate::taking::move_new;
use crate::temporary::{append_all, create_beside};
use std::alloc::Global;

// Who may use a new file, but for whom the system's mask excludes: 438 in the contracts.
const USUAL: u32 = 0o666;

/// Makes a file with these bytes under a name that must be free: first in the same folder under a
/// hidden name, and then as [`move_new`] does it, which never replaces a file. Those may use it who
/// may use new files: its mode is 0o666 (438), but for whom the system's mask excludes. It takes
/// the memory of a name.
///
/// In every state of the run the name has what it had or the whole new file, and every other name
/// what it had. Only where a call failed, as where no file can have two names, it may have a file
/// without bytes for a moment.
pub fn create_new<F: FileSystem>(
    alloc: Global,
    files: &mut F,
    name: &str,
    bytes: &[u8],
) -> Result<(), WriteError>
    ensures done { OnOk result (Run (IsWholeNew name.now bytes.now 438
        (count_after true (F.failures files.old) ≤ F.failures files.new))
        (IsCreatedForGood name.now bytes.now 438) (F.states files.old) (F.states files.new)) }
    ensures failed { IfErr result (λ e. Run (IsWholeNew name.now bytes.now 438
        (count_after true (F.failures files.old) ≤ F.failures files.new))
        (IsNotCreated name.now bytes.now 438
        (count_after true (F.failures files.old) ≤ F.failures files.new)
        (FailedToRemove e (F.failures files.old) (F.failures files.new)))
        (F.states files.old) (F.states files.new)) }
    // `Taken` is of the name.
    ensures taken { IfErr result (λ e. e ≡ Taken
        → Now (F.states files.old) (λ s. s.at name.now ≢ None)) }
    // It gives up by itself only where there is no memory or no free name; else a call failed.
    ensures cause { IfErr result (λ e. e ≢ OutOfMemory → e ≢ Taken → e ≢ Crowded
        → count_after true (F.failures files.old) ≤ F.failures files.new) }
{
    let beside = create_beside(alloc, files, name, None, USUAL)?;
    let beside = beside.as_str();
    match fill_and_name(files, name, beside, bytes) {
        Ok(()) => Ok(files.settle(name)?),
        Err(error) => {
            let _ = files.remove(beside);
            Err(error)
        }
    }
}

// Fills the new file, and gives it its name if that is free.
fn fill_and_name<F: FileSystem>(
    files: &mut F,
    name: &str,
    beside: &str,
    bytes: &[u8],
) -> Result<(), WriteError>
    requires apart { beside.now ≢ name.now }
    requires empty { Now (F.states files.old)
        (λ s. Holds s beside.now (λ f. (f.bytes ≡ []) × (f.mode ≡ USUAL))) }
    ensures done { OnOk result (Run (IsPuttingNew name.now beside.now bytes.now USUAL
        (count_after true (F.failures files.old) ≤ F.failures files.new))
        (IsPutNew name.now beside.now bytes.now USUAL) (F.states files.old) (F.states files.new)) }
    ensures failed { OnErr result (Run (IsPuttingNew name.now beside.now bytes.now USUAL
        (count_after true (F.failures files.old) ≤ F.failures files.new))
        (IsNotPutNew name.now beside.now bytes.now USUAL
        (count_after true (F.failures files.old) ≤ F.failures files.new)
        (FailedTwice (F.failures files.old) (F.failures files.new)))
        (F.states files.old) (F.states files.new)) }
    ensures taken { IfErr result (λ e. e ≡ Taken
        → Now (F.states files.old) (λ s. s.at name.now ≢ None)) }
    ensures cause { IfErr result (λ e. e ≢ Taken
        → count_after true (F.failures files.old) ≤ F.failures files.new) }
    ensures rises { OnErr result (FailsOrNot (F.failures files.old) (F.failures files.new)) }
    ensures known { IfErr result (λ e. (e ≢ OutOfMemory) × (e ≢ Crowded)) }
    ensures count { OnOk result (FailsOnceOrNot (F.failures files.old) (F.failures files.new)) }
{
    append_all(files, beside, bytes)?;
    files.sync(beside)?;
    move_new(files, beside, name)
}
