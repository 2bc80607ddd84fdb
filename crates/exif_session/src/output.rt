//! Where OUT is written.

ghost use Rattle.std.specs.Prelude.{◌≡◌, ◌≢◌, IfOk, string_bytes};
ghost use Rattle.exif_files.specs.Names.{name_if};
ghost use Rattle.exif_session.specs.OutTexts.{IsOutOf, IsWrittenAs, is_same_path, no_destination, out_answer, out_refusal, writing_error};
ghost use Rattle.exif_decisions.specs.declared.rules.Destination.TheVariants.{StandardOutput};

use crate::in_place::text_of;
use crate::session::Stop;
use exif::Sink;
use exif_base::send_all;
use exif_decisions::{Destination, Escaped, Existing, NoDestination, destination_of, existing_of};
use exif_files::{HostFiles, WriteError, create_new, replace};
use std::alloc::{AllocError, Global};
use std::{fmt, fs};

/// Why nothing was written to OUT.
#[derive(Drop)]
pub enum OutError {
    /// OUT is FILE itself.
    Same,
    /// It exists.
    Exists(String),
    /// It is no regular file.
    Special(String),
    /// It could not be written.
    Writing(String, WriteError),
}

impl fmt::Display for OutError {
    ghost use Rattle.exif_session.specs.OutTexts.{out_text};

    ghost output = { out_text };

    fn fmt<W: fmt::Write>(&self, f: &mut fmt::Formatter<W>) -> fmt::Result {
        match self {
            OutError::Same => f.write_str("input and output are the same file"),
            OutError::Exists(out) => {
                let out = Escaped(out.as_str());
                write!(f, "{out} exists; use --force to replace it")
            }
            OutError::Special(out) => {
                let out = Escaped(out.as_str());
                write!(f, "{out} is not a regular file")
            }
            OutError::Writing(out, cause) => {
                let out = Escaped(out.as_str());
                write!(f, "cannot write {out}: {cause}")
            }
        }
    }
}

/// Where the new file of a file is written, or why not: nothing is written yet.
pub fn out_of(
    rt: &HostRuntime,
    path: &str,
    to: &str,
    force: bool,
) -> Result<Result<Destination, OutError>, AllocError>
    ensures { IfOk result (λ answer. IsOutOf to.now force (out_answer answer)) }
{
    let existing = existing_at(rt, to);
    let destination = destination_of(to == "-", is_same(rt, path, to), existing, force);
    let to = String::from_str(rt.alloc(), to)?;
    Ok(match destination {
        Ok(destination) => Ok(destination),
        Err(why) => Err(refusal_of(why, to)),
    })
}

// Why nothing is written to OUT.
fn refusal_of(why: NoDestination, to: String) -> OutError
    ensures { out_refusal result ≡ no_destination why (string_bytes to) }
{
    match why {
        NoDestination::Same => OutError::Same,
        NoDestination::Exists => OutError::Exists(to),
        NoDestination::Special => OutError::Special(to),
    }
}

/// Writes a new file where it belongs.
pub fn write_out<W: Sink>(
    rt: &HostRuntime,
    to: &str,
    destination: Destination,
    bytes: &[u8],
    out: &mut W,
) -> Result<Result<(), OutError>, Stop>
    ensures { destination ≢ StandardOutput → out.new ≡ out.old }
{
    let written = match destination {
        Destination::New => create_new(rt.alloc(), &mut HostFiles::new(rt), to, bytes),
        Destination::Replace => replace_out(rt, to, bytes),
        Destination::StandardOutput => {
            send_all(out, bytes).map_err(Stop::Output)?;
            Ok(())
        }
    };
    answer_of(rt.alloc(), to, written)
}

// What is answered of a file that was written.
fn answer_of(
    alloc: Global,
    to: &str,
    written: Result<(), WriteError>,
) -> Result<Result<(), OutError>, Stop>
    ensures { IfOk result (λ answer. IsWrittenAs to.now written answer) }
{
    match written {
        Ok(()) => Ok(Ok(())),
        Err(WriteError::OutOfMemory) => Err(Stop::OutOfMemory),
        Err(error) => Ok(Err(error_of(String::from_str(alloc, to)?, error))),
    }
}

// Why a file was not written.
fn error_of(to: String, error: WriteError) -> OutError
    ensures { result ≡ writing_error error to }
{
    match error {
        WriteError::Taken => OutError::Exists(to),
        error => OutError::Writing(to, error),
    }
}

// Replaces the file that a path leads to.
fn replace_out(rt: &HostRuntime, to: &str, bytes: &[u8]) -> Result<(), WriteError> {
    let name = fs::canonicalize(rt, to)?;
    let mut files = HostFiles::new(rt);
    replace(
        rt.alloc(),
        &mut files,
        name.as_path().as_str(),
        None,
        false,
        bytes,
    )
}

// What OUT is.
fn existing_at(rt: &HostRuntime, to: &str) -> Existing {
    let leads_to_file = fs::metadata(rt, to).ok().map(|found| found.is_file());
    existing_of(leads_to_file, fs::symlink_metadata(rt, to).is_ok())
}

// Whether two paths lead to one file.
fn is_same(rt: &HostRuntime, path: &str, to: &str) -> bool {
    let path = fs::canonicalize(rt, path).ok();
    let to = fs::canonicalize(rt, to).ok();
    is_same_path(text_of(&path), text_of(&to))
}

// Whether two paths that lead to something lead to one file, by where their links end.
fn is_same_path(path: Option<&str>, to: Option<&str>) -> bool
    ensures { result ≡ is_same_path (name_if path.entry) (name_if to.entry) }
{
    match (path, to) {
        (Some(path), Some(to)) => path == to,
        _ => false,
    }
}
