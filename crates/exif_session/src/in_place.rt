//! Files that are changed in place, each once.

ghost use Rattle.std.specs.Prelude.{◌≡◌, ◌==◌, ◌<◌, ◌+◌, ◌^◌, ℕ, List, Option, false, true, IfOk, IfSome, None, OnErr, OnOk, Ok, length, map, option_map, string_bytes};
ghost use Rattle.std.specs.Result.{IsErrAnd};
ghost use Rattle.std.specs.IoError.{error_kind};
ghost use Rattle.std.specs.Path.{path_buf_bytes};
ghost use Rattle.exif_files.specs.Names.{name_if};
ghost use Rattle.std.specs.Fmt.{DisplaysOnOk};
ghost use Rattle.exif_session.specs.NotChangedTexts.{writing_text};
ghost use Rattle.exif_inputs.specs.Requested.{absolute_by};
ghost use Rattle.exif_session.specs.InPlace.{IsAdded, named_at};
ghost use Rattle.exif_decisions.specs.Outcomes.{outcome_for};
ghost use Rattle.exif_decisions.specs.declared.outcome.Outcome.TheVariants.{Refused};

use crate::change::ChangeEdit;
use crate::change_out::change_input;
use crate::elsewhere::{Elsewhere, removed_elsewhere};
use crate::notes::{NoteLine, said_notes};
use crate::request::Change;
use crate::session::{Item, Session, Stop};
use exif::Sink;
use exif_change::{Note, Refusal, Residual, Together, together_len};
use exif_decisions::{Counts, Escaped, Outcome};
use exif_files::{
    Failure, HostFiles, Keeping, Report, Reporter, WriteError, change_all, folder_of,
};
use exif_inputs::{Console, absolute_by, dated_count};
use std::alloc::AllocError;
use std::fmt::{self, Display};
use std::fs;
use std::io::{self, ErrorKind};
use std::os::unix::fs::MetadataExt;
use std::path::PathBuf;

/// The files of a run, all found before the first is changed.
#[derive(Drop)]
pub struct Plan {
    /// As they were named or found.
    pub paths: Vec<String>,
    /// Where their links end.
    pub keys: Vec<String>,
    /// How many of them have another name (a hard link), too.
    pub linked: u64,
}

/// Changes each file that is named or found in place, once however often it is named, and counts
/// it.
pub fn change_in_place<W: Sink, E: Sink>(
    session: &mut Session<'_, '_, W, E>,
    change: &Change<'_>,
    keeping: Keeping,
) -> Result<(), Stop> {
    let Plan {
        paths,
        keys,
        linked,
    } = Plan::gather(session)?;
    let dated = dated_count(paths.as_slice());
    let rt = session.rt;
    let before = session.pending.counts.done;
    let mut messages = Messages {
        paths: paths.as_slice(),
        keys: keys.as_slice(),
        heard: 0,
        quiet: session.request.quiet,
        console: &mut session.console,
        counts: &mut session.pending.counts,
    };
    change_files(rt, change, keeping, keys.as_slice(), &mut messages)?;
    let changed = session.pending.counts.done.saturating_sub(before);
    say_elsewhere(
        session,
        &removed_elsewhere(change, keeping, changed, linked, dated),
    )
}

// Says where what was removed still is, but in a quiet run.
fn say_elsewhere<W: Sink, E: Sink>(
    session: &mut Session<'_, '_, W, E>,
    all: &[Elsewhere],
) -> Result<(), Stop>
    ensures { session.new.pending ≡ session.old.pending }
{
    for it in all {
        if it.count() > 0 && !session.request.quiet {
            let line = format!(in session.rt.alloc(); "mexaldor: {it}\n")?;
            session.console.write(line.as_str());
        }
    }
    Ok(())
}

// Changes the files, and reports each.
fn change_files<E: Sink>(
    rt: &HostRuntime,
    change: &Change<'_>,
    keeping: Keeping,
    keys: &[String],
    messages: &mut Messages<'_, '_, '_, E>,
) -> Result<(), AllocError>
    requires { messages.old.heard ≡ 0 }
{
    let edit = ChangeEdit(change);
    let mut files = HostFiles::new(rt);
    let _results = change_all(rt.alloc(), &mut files, &edit, keys, keeping, messages)?;
    Ok(())
}

impl Plan {
    /// All files that are named or found. Names that can't be followed are reported and counted.
    /// Standard input is changed at once, into standard output.
    pub fn gather<W: Sink, E: Sink>(session: &mut Session<'_, '_, W, E>) -> Result<Plan, Stop>
        ensures keys { IfOk result (λ plan. length plan.keys.items ≡ length plan.paths.items) }
        ensures all { OnOk result (length session.new.pending.waiting.items ≡ 0) }
    {
        let alloc = session.rt.alloc();
        let mut plan = Plan {
            paths: Vec::new(alloc),
            keys: Vec::new(alloc),
            linked: 0,
        };
        for _ in 0..u64::MAX {
            match session.next_item()? {
                None => return Ok(plan),
                Some(Item::Input) => change_input(session)?,
                Some(Item::File(path)) => plan.add(session, path)?,
            }
        }
        Err(Stop::OutOfMemory)
    }

    // Adds a file, or reports why it is none.
    fn add<W: Sink, E: Sink>(
        &mut self,
        session: &mut Session<'_, '_, W, E>,
        path: String,
    ) -> Result<(), Stop>
        ensures added { OnOk result (IsAdded path self.old self.new session.old.pending
            session.new.pending) }
        ensures keys { OnOk result (length self.old.keys.items ≡ length self.old.paths.items
            → length self.new.keys.items ≡ length self.new.paths.items) }
    {
        match key_of(session.rt, path.as_str()) {
            Ok(key) => {
                let is_linked = has_other_name(session.rt, key.as_str());
                self.linked = self.linked.saturating_add(u64::from(is_linked));
                self.paths.push(path)?;
                self.keys.push(key)?;
            }
            Err(cause) => {
                let outcome = session.refuse(path.as_str(), &cause)?;
                session.count(outcome);
            }
        }
        Ok(())
    }
}

/// What became of a file: it was changed, or in part where something was left undone, or refused.
pub fn outcome_of<L, N, R>(changed: &Result<Report<L, N>, Failure<R>>) -> Outcome
    ensures ok { IfOk changed.now (λ report.
        result ≡ outcome_for (length report.left.items == 0)) }
    ensures err { OnErr changed.now (result ≡ Refused) }
{
    match changed {
        Ok(report) => Outcome::of_done(report.left.is_empty()),
        Err(_) => Outcome::Refused,
    }
}

/// A path from the root of the file system on: where its links end, and where nothing has it, its
/// name in the folder where those of its folder end.
pub fn absolute_of(rt: &HostRuntime, path: &str) -> Result<String, AllocError> {
    absolute_from(rt, path, fs::canonicalize(rt, path).ok())
}

// The same of a path whose links end here, if something has it.
fn absolute_from(rt: &HostRuntime, path: &str, found: Option<PathBuf>) -> Result<String, AllocError>
    ensures found { IfSome found (λ found. IfOk result (λ text.
        string_bytes text ≡ path_buf_bytes found)) }
    ensures beside { found ≡ None → IfOk result (λ text. (folder : Option (List ℕ))
        × (string_bytes text ≡ absolute_by path.now None folder)) }
{
    if found.is_some() {
        return absolute_by(rt.alloc(), path, text_of(&found), None);
    }
    let folder = fs::canonicalize(rt, folder_of(path)).ok();
    absolute_by(rt.alloc(), path, None, text_of(&folder))
}

/// The text of a path, if there is one.
pub fn text_of(path: &Option<PathBuf>) -> Option<&str>
    ensures { name_if result ≡ option_map path_buf_bytes path.now }
{
    match path {
        Some(path) => Some(path.as_path().as_str()),
        None => None,
    }
}

/// Where the links of a path end, if that is a regular file.
pub fn key_of(rt: &HostRuntime, path: &str) -> io::Result<String> {
    if_regular(fs::metadata(rt, path)?.is_file())?;
    let path = fs::canonicalize(rt, path)?;
    Ok(String::from_str(rt.alloc(), path.as_path().as_str())?)
}

// Whether a file has another name, too.
fn has_other_name(rt: &HostRuntime, key: &str) -> bool {
    match fs::metadata(rt, key) {
        Ok(found) => found.nlink() > 1,
        Err(_) => false,
    }
}

// Refuses what is no regular file.
fn if_regular(is_file: bool) -> io::Result<()>
    ensures file { is_file ≡ true → result ≡ Ok tt }
    ensures other { is_file ≡ false → IsErrAnd result (λ e.
        error_kind e ≡ ErrorKind.InvalidInput) }
{
    if is_file {
        Ok(())
    } else {
        Err(io::Error::new(ErrorKind::InvalidInput, "not a regular file"))
    }
}

// The path and the key of a file that is reported: empty ones where there is none of this number.
fn named_at<'a>(paths: &'a [String], keys: &'a [String], index: usize) -> (&'a str, &'a str)
    ensures { (result.0.now, result.1.now)
        ≡ named_at (map string_bytes paths.now) (map string_bytes keys.now) index }
{
    match (paths.get(index), keys.get(index)) {
        (Some(path), Some(key)) => (path.as_str(), key.as_str()),
        _ => ("", ""),
    }
}

// Counts each file, and writes what is reported of it.
#[derive(Drop)]
struct Messages<'p, 'c, 'r, E> {
    paths: &'p [String],
    keys: &'p [String],
    // how many names were heard of
    heard: usize,
    quiet: bool,
    console: &'c mut Console<'r, E>,
    counts: &'c mut Counts,
}

impl<'p, 'c, 'r, E: Sink> Messages<'p, 'c, 'r, E> {
    // Writes what was left undone in a changed file, and its notes.
    fn say_all(&mut self, path: &str, report: &Report<Residual, Note>) {
        let mut rest = report.left.as_slice();
        while !rest.is_empty() {
            let count = together_len(rest);
            let more = count - 1;
            let first = &rest[0];
            let line = Together { first, more };
            self.console.say(path, &line);
            let Together {
                first: _first,
                more: _more,
            } = line;
            rest = rest.get(count..).unwrap_or(&[]);
        }
        for note in said_notes(self.quiet, report.notes.as_slice()) {
            self.console.say(path, &NoteLine(*note));
        }
    }
}

impl<'p, 'c, 'r, E: Sink> Reporter<Residual, Note, Refusal> for Messages<'p, 'c, 'r, E> {
    ghost heard = { λ messages. messages.heard };

    fn report(&mut self, outcome: Result<Report<Residual, Note>, Failure<Refusal>>)
        requires { self.old.heard + 1 < 2 ^ 64 }
        ensures { self.new.heard ≡ self.old.heard + 1 }
    {
        let index = self.heard;
        let (path, key) = named_at(self.paths, self.keys, index);
        self.counts.add(outcome_of(&outcome));
        match outcome {
            Ok(report) => self.say_all(path, &report),
            Err(failure) => self.console.say(path, &NotChanged { failure, key }),
        }
        self.heard = index + 1;
        self.console
            .step(self.paths.len().saturating_sub(self.heard));
    }

    fn skip(&mut self)
        requires { self.old.heard + 1 < 2 ^ 64 }
        ensures { self.new.heard ≡ self.old.heard + 1 }
    {
        self.heard += 1;
    }
}

/// Why a file was not changed, in words. `key` is where the links of its path end.
#[derive(Drop)]
pub struct NotChanged<'k, R> {
    /// The cause.
    pub failure: Failure<R>,
    /// The file.
    pub key: &'k str,
}

impl<R: Display> Display for NotChanged<'_, R> {
    ghost use Rattle.exif_session.specs.NotChangedTexts.{not_changed_text};

    ghost output = { λ why. not_changed_text R.output why.key.now why.failure };

    fn fmt<W: fmt::Write>(&self, f: &mut fmt::Formatter<W>) -> fmt::Result {
        match &self.failure {
            Failure::Reading(cause) => write!(f, "{cause}"),
            Failure::Refused(refusal) => write!(f, "{refusal}"),
            Failure::OutOfMemory => f.write_str("out of memory"),
            Failure::Writing(cause) => write_writing(f, self.key, cause),
        }
    }
}

// Writes why the new file was not written.
fn write_writing<W: fmt::Write>(
    f: &mut fmt::Formatter<W>,
    key: &str,
    cause: &WriteError,
) -> fmt::Result
    ensures { DisplaysOnOk W.write_str_gives f.old result (writing_text key.now cause.now) f.new }
{
    match cause {
        WriteError::Taken => {
            let key = Escaped(key);
            write!(f, "not changed: the backup {key}.orig exists")
        }
        cause => write!(f, "cannot replace the file: {cause}"),
    }
}
