//! Files that get a name that nothing has, whatever other programs do meanwhile.

ghost use Rattle.std.specs.Prelude.{◌≡◌, ◌≢◌, ◌≤◌, ◌⊎◌, Ok, IfOk, IfErr, IsTrue, OnOk, OnErr, true, false, ⊤};
ghost use Rattle.exif_files.specs.States.{Run, Now};
ghost use Rattle.exif_files.specs.Steps.{Moves, Removes, count_after};
ghost use Rattle.exif_files.specs.NewNames.{IsGone, IsThere, IsRenamed, IsRenaming, IsNotRenamed};
ghost use Rattle.exif_files.specs.Written.{FailedTwice};
ghost use Rattle.exif_files.specs.Parts.{FailsOrNot, FailsOnceOrNot};
ghost use Rattle.exif_files.specs.declared.failure.WriteError.TheVariants.{OutOfMemory, Taken, Crowded, OtherDevice};

use crate::failure::WriteError;
use crate::system::FileSystem;
use std::io::{self, ErrorKind};

// Who may use a file without bytes that holds a name: its owner alone.
const HOLDER: u32 = 0o600;

/// Gives a file another name, which must be free, and takes its old name away. The new name is
/// taken by a call that fails where another program has taken it, so nothing is ever replaced:
/// the file gets it besides its own, which is then removed. Where the file can't have two names, a
/// file without bytes is made under the new name, and then replaced by the file.
///
/// In every state of the run the whole file has one of the two names at least, what had the new
/// name still has it, and every other name has what it had.
pub fn move_new<F: FileSystem>(files: &mut F, source: &str, name: &str) -> Result<(), WriteError>
    ensures done { OnOk result (Run
        (IsRenaming source.now name.now
        (count_after true (F.failures files.old) ≤ F.failures files.new))
        (IsRenamed source.now name.now)
        (F.states files.old) (F.states files.new)) }
    // An error leaves all as it was, or the new name too, where its removal failed.
    ensures failed { OnErr result (Run
        (IsRenaming source.now name.now
        (count_after true (F.failures files.old) ≤ F.failures files.new))
        (IsNotRenamed source.now name.now
        (count_after true (F.failures files.old) ≤ F.failures files.new)
        (FailedTwice (F.failures files.old) (F.failures files.new)))
        (F.states files.old) (F.states files.new)) }
    // `Taken` is of the new name, and changes nothing.
    ensures taken { IfErr result (λ e. e ≡ Taken
        → (source.now ≡ name.now) ⊎ Now (F.states files.old) (IsThere name.now)) }
    ensures taken_same { IfErr result (λ e. e ≡ Taken → F.states files.new ≡ F.states files.old) }
    // Nor does a name on another device.
    ensures other_device { IfErr result (λ e. e ≡ OtherDevice
        → F.states files.new ≡ F.states files.old) }
    ensures cause { IfErr result (λ e. e ≢ Taken
        → count_after true (F.failures files.old) ≤ F.failures files.new) }
    ensures rises { OnErr result (FailsOrNot (F.failures files.old) (F.failures files.new)) }
    ensures known { IfErr result (λ e. (e ≢ OutOfMemory) × (e ≢ Crowded)) }
    ensures count { OnOk result (FailsOnceOrNot (F.failures files.old) (F.failures files.new)) }
{
    if source == name {
        return Err(WriteError::Taken);
    }
    match files.link(source, name) {
        Ok(true) => remove_old(files, source, name),
        Ok(false) => Err(WriteError::Taken),
        Err(error) if error.kind() == ErrorKind::CrossesDevices => Err(WriteError::OtherDevice),
        Err(error) if may_lack_links(error.kind()) => move_onto_holder(files, source, name),
        Err(error) => Err(WriteError::Io(error)),
    }
}

// Whether a call that gives a file a second name may have failed only since the file can't have
// two.
fn may_lack_links(kind: ErrorKind) -> bool {
    matches!(
        kind,
        ErrorKind::PermissionDenied | ErrorKind::Unsupported | ErrorKind::TooManyLinks
    )
}

// Removes the old one of two names of a file, unless another program has done so; or the new one,
// where that fails.
fn remove_old<F: FileSystem>(files: &mut F, source: &str, name: &str) -> Result<(), WriteError>
    ensures done { OnOk result (Moves (Removes source.now) (F.states files.old)
        (F.states files.new) ⊎ ((F.states files.new ≡ F.states files.old)
        × Now (F.states files.old) (IsGone source.now))) }
    ensures failed { OnErr result (Moves (Removes name.now) (F.states files.old)
        (F.states files.new) ⊎ ((F.states files.new ≡ F.states files.old)
        × FailedTwice (F.failures files.old) (F.failures files.new))) }
    ensures count { OnOk result (FailsOnceOrNot (F.failures files.old) (F.failures files.new)) }
    ensures cause { OnErr result
        (count_after true (F.failures files.old) ≤ F.failures files.new) }
    ensures known { IfErr result
        (λ e. (e ≢ OutOfMemory) × (e ≢ Crowded) × (e ≢ Taken) × (e ≢ OtherDevice)) }
{
    let Err(error) = files.remove(source) else {
        return Ok(());
    };
    if let Ok(true) = files.is_free(source) {
        return Ok(());
    }
    let _ = files.remove(name);
    Err(WriteError::Io(error))
}

/// Takes the old one of two names away that a file has, as a move that was cut off has left them,
/// and answers whether it has both. So [`move_new`] is finished where it was killed between its two
/// calls.
///
/// The file keeps its new name, and every other name what it had. Where the two names are not those
/// of one file, and after an error, all is as it was.
pub fn finish_move<F: FileSystem>(
    files: &mut F,
    source: &str,
    name: &str,
) -> Result<bool, WriteError>
    ensures begun { IfOk result (λ done. IsTrue done → Now (F.states files.old)
        (λ s. (s.at source.now ≡ s.at name.now) × IsThere name.now s)) }
    ensures apart { IfOk result (λ done. IsTrue done → source.now ≢ name.now) }
    ensures done { IfOk result (λ done. IsTrue done
        → Moves (Removes source.now) (F.states files.old) (F.states files.new)) }
    ensures other { result ≡ Ok false → F.states files.new ≡ F.states files.old }
    ensures failed { OnErr result (F.states files.new ≡ F.states files.old) }
    ensures cause { OnErr result
        (count_after true (F.failures files.old) ≤ F.failures files.new) }
    ensures known { IfErr result
        (λ e. (e ≢ OutOfMemory) × (e ≢ Crowded) × (e ≢ Taken) × (e ≢ OtherDevice)) }
    ensures count { OnOk result (F.failures files.new ≡ F.failures files.old) }
{
    let is_one = files.is_one_file(source, name).map_err(WriteError::Io)?;
    if is_one {
        files.remove(source).map_err(WriteError::Io)?;
    }
    Ok(is_one)
}

// Makes a file without bytes under a new name, and replaces it by the file.
fn move_onto_holder<F: FileSystem>(
    files: &mut F,
    source: &str,
    name: &str,
) -> Result<(), WriteError>
    requires { source.now ≢ name.now }
    ensures done { OnOk result (Run (IsRenaming source.now name.now ⊤)
        (IsRenamed source.now name.now) (F.states files.old) (F.states files.new)) }
    ensures failed { OnErr result (Run (IsRenaming source.now name.now ⊤)
        (IsNotRenamed source.now name.now ⊤
        (FailedTwice (F.failures files.old) (F.failures files.new)))
        (F.states files.old) (F.states files.new)) }
    ensures taken { IfErr result (λ e. e ≡ Taken → Now (F.states files.old) (IsThere name.now)) }
    ensures taken_same { IfErr result (λ e. e ≡ Taken → F.states files.new ≡ F.states files.old) }
    ensures cause { IfErr result (λ e. e ≢ Taken
        → count_after true (F.failures files.old) ≤ F.failures files.new) }
    ensures rises { OnErr result (FailsOrNot (F.failures files.old) (F.failures files.new)) }
    ensures known { IfErr result (λ e. (e ≢ OutOfMemory) × (e ≢ Crowded) × (e ≢ OtherDevice)) }
    ensures count { OnOk result (F.failures files.new ≡ F.failures files.old) }
{
    match files.create(name, HOLDER) {
        Ok(true) => {}
        Ok(false) => return Err(WriteError::Taken),
        Err(error) => return Err(WriteError::Io(error)),
    }
    match files.rename(source, name) {
        Ok(()) => Ok(()),
        Err(error) => {
            let _ = files.remove(name);
            Err(WriteError::Io(error))
        }
    }
}
