//! Temporary files beside those that they become.

ghost use Rattle.std.specs.Prelude.{◌≡◌, ◌≢◌, IfOk, IfErr, OnOk, OnErr, Some, true, string_bytes, is_err, codes, ◌++◌};
ghost use Rattle.std.specs.Fmt.{decimal};
ghost use Rattle.exif_files.specs.States.{Run, Elsewhere};
ghost use Rattle.exif_files.specs.Steps.{Creates, Moves, count_after};
ghost use Rattle.exif_files.specs.Names.{IsHidden, name_if};
ghost use Rattle.exif_files.specs.Parts.{IsAppended};
ghost use Rattle.exif_files.specs.declared.failure.WriteError.TheVariants.{OutOfMemory, Taken, Crowded};

use crate::failure::WriteError;
use crate::folder::folder_of;
use crate::system::FileSystem;
use std::alloc::{AllocError, Global};
use std::io;

// How many names a temporary file is tried under.
const TRIES: u32 = 1000;

// A name for a temporary file in the folder of a file.
fn hidden_name(alloc: Global, name: &str, attempt: u32) -> Result<String, AllocError>
    ensures { IfOk result (λ text. IsHidden (string_bytes text)) }
{
    hidden_in(alloc, folder_of(name), attempt)
}

fn hidden_in(alloc: Global, folder: &str, attempt: u32) -> Result<String, AllocError>
    ensures { IfOk result (λ text. string_bytes text
        ≡ folder.now ++ (codes "/.mexaldor-" ++ decimal attempt)) }
{
    format!(in alloc; "{folder}/.mexaldor-{attempt}")
}

// Whether a name is none of those that a replacement gives or takes.
fn is_apart(beside: &str, name: &str, backup: Option<&str>) -> bool
    ensures name { result ≡ true → beside.now ≢ name.now }
    ensures backup { result ≡ true → name_if backup.entry ≢ Some beside.now }
{
    match backup {
        None => beside != name,
        Some(backup) => beside != name && beside != backup,
    }
}

// Makes a file without bytes in the folder of another, under a hidden name that was free.
pub fn create_beside<F: FileSystem>(
    alloc: Global,
    files: &mut F,
    name: &str,
    backup: Option<&str>,
    mode: u32,
) -> Result<String, WriteError>
    ensures created { IfOk result (λ beside. Moves (Creates (string_bytes beside) mode)
        (F.states files.old) (F.states files.new)) }
    ensures hidden { IfOk result (λ beside. IsHidden (string_bytes beside)) }
    ensures apart { IfOk result (λ beside. string_bytes beside ≢ name.now) }
    ensures backup { IfOk result (λ beside. name_if backup.entry ≢ Some (string_bytes beside)) }
    ensures calm { OnOk result (F.failures files.new ≡ F.failures files.old) }
    ensures failed { OnErr result (F.states files.new ≡ F.states files.old) }
    ensures cause { IfErr result (λ e. e ≢ OutOfMemory → e ≢ Crowded
        → F.failures files.new ≡ count_after true (F.failures files.old)) }
    ensures free { IfErr result (λ e. e ≢ Taken) }
{
    for attempt in 0..TRIES {
        let beside = hidden_name(alloc, name, attempt)?;
        if !is_apart(beside.as_str(), name, backup) {
            continue;
        }
        if files.create(beside.as_str(), mode)? {
            return Ok(beside);
        }
    }
    Err(WriteError::Crowded)
}

// Puts all the bytes at the end of a file.
pub fn append_all<F: FileSystem>(files: &mut F, name: &str, bytes: &[u8]) -> io::Result<()>
    ensures done { OnOk result (Run (Elsewhere name.now) (IsAppended name.now bytes.now)
        (F.states files.old) (F.states files.new)) }
    ensures failed { OnErr result (Run (Elsewhere name.now) (Elsewhere name.now)
        (F.states files.old) (F.states files.new)) }
    ensures count { F.failures files.new ≡ count_after (is_err result) (F.failures files.old) }
{
    let mut at = 0;
    while at < bytes.len() {
        at += files.append(name, &bytes[at..])?;
    }
    Ok(())
}
